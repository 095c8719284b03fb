//! The calls of every encoder that write bags and of every decoder that read them, by the types of their members.

ghost use Rattle.std.specs.Prelude.{map, suc};
ghost use Rattle.rasn_types.specs.Values.{bag_of};
ghost use Rattle.rasn_schema.specs.Forms.{is_size_marked, size_of};
ghost use Rattle.rasn_schema.specs.Lists.{deepest};
ghost use Rattle.rasn_traits.specs.Calls.{Encodes, Reads};
ghost use Rattle.rasn_schema.specs.Bags.{set_at};

use crate::set_of::SetOf;
use rasn_codec::codec::{Decode, Decoder, DecoderExt, Encode, Encoder};
use rasn_schema::schema::Constraints;
use rasn_types::types::{Identifier, Tag};

/// What every encoder writes of bags.
pub trait SetOfEncoder: Encoder {
    /// Writes a SET OF under constraints (X.691 22), of which the size counts members: these in ascending order of
    /// their complete encodings, whatever order they are kept in.
    final fn encode_set_of<T: Encode>(
        &mut self,
        tag: Tag,
        values: &SetOf<T>,
        constraints: &Constraints,
        identifier: Identifier,
    ) -> Result<(), Self::Error>
        ensures { let size = size_of constraints.now in
            Encodes Self.rules (set_at (T.schema T.CONSTRAINTS) size (is_size_marked constraints.now))
            (suc (deepest T.levels values.now)) (bag_of (map T.value values.now)) self.old result self.new }
    {
        let members = values.as_slice();
        let mut bag = self.open_members(tag, constraints, members.len(), identifier)?;
        for member in members {
            self.next_member_in_turn(&mut bag)?;
            member.encode(self)?;
        }
        self.close_members(bag)
    }
}

impl<E: Encoder> SetOfEncoder for E {}

/// What every decoder reads of bags.
pub trait SetOfDecoder: Decoder {
    /// Reads a SET OF under constraints (X.691 22), of which the size counts members. They are kept as they stand.
    final fn decode_set_of<D: Decode>(
        &mut self,
        tag: Tag,
        constraints: &Constraints,
    ) -> Result<SetOf<D>, Self::Error>
        ensures { let size = size_of constraints.now in let mark = is_size_marked constraints.now in
            let c = set_at (D.schema D.CONSTRAINTS) size mark (Self.rules.levels self.old) in
            Reads Self.rules c (λ xs. bag_of (map D.value xs)) self.old result self.new }
    {
        let members = self.decode_sequence_of(tag, constraints)?;
        Ok(SetOf::from_vec(members))
    }
}

impl<D: Decoder> SetOfDecoder for D {}

impl<T: Encode> Encode for SetOf<T> {
    fn encode_with_tag_and_constraints<E: Encoder>(
        &self,
        encoder: &mut E,
        tag: Tag,
        constraints: &Constraints,
        identifier: Identifier,
    ) -> Result<(), E::Error> {
        encoder.encode_set_of(tag, self, constraints, identifier)
    }
}

impl<T: Decode> Decode for SetOf<T> {
    fn decode_with_tag_and_constraints<D: Decoder>(
        decoder: &mut D,
        tag: Tag,
        constraints: &Constraints,
    ) -> Result<SetOf<T>, D::Error> {
        decoder.decode_set_of(tag, constraints)
    }
}
