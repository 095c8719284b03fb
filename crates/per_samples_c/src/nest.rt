//! A SEQUENCE that holds itself.

ghost use Rattle.std.specs.Prelude.{refl, [], ◌∷◌};
ghost use Rattle.rasn_below.specs.Page.{fields_of};
ghost use Rattle.per_core.specs.Rows.{unaligned, IsWrittenAs};
ghost use Rattle.per_samples_c.specs.declared.nest.Nest.{Nest', None', Some'};
ghost use Rattle.per_samples_c.specs.Nests.{nest, nest_contents, nest_depth};

use rasn_below::codec::{Decode, Encode};
use rasn_below::page::*;
use rasn_below::types::Identifier;
use rasn_constructed::read::{Holds, Same, decode};
use rasn_constructed::{decode_record, encode_record};

/// Nest ::= SEQUENCE { inner Nest OPTIONAL }
#[derive(Debug, Drop, PartialEq)]
pub struct Nest {
    pub inner: Option<Box<Nest>>,
}

macro_rules! components { ($to:ident $($with:ident)*) => { $to! { [$($with)*]
    optional 0 "inner" inner: Option<Box<Nest>> [RECURSIVE];
} }; }

const FIELDS: FieldLists = components!(fields);

const BOUNDS: Bounds = components!(bounds);

impl Components for Nest {
    const COMPONENTS: FieldLists = FIELDS;

    ghost COMPONENTS = { fields_of nest };

    ghost components = { (nest, refl) };

    ghost contents = { nest_contents };

    ghost depth = { nest_depth };
}

impl Encode for Nest {
    #[cycle(write)]
    fn encode_with_tag_and_constraints<E: Encoder>(
        &self,
        encoder: &mut E,
        tag: Tag,
        _: &Constraints,
        identifier: Identifier,
    ) -> Result<(), E::Error> {
        components!(encode_record self encoder tag identifier)
    }
}

impl Holds<Nest> for Nest {
    fn decode_holding<H: Same<Nest>, D: Decoder, F: Fn(&mut D, Tag) -> Result<H, D::Error>>(
        decoder: &mut D,
        tag: Tag,
        held: &F,
    ) -> Result<Nest, D::Error> {
        components!(decode_record decoder tag held Nest)
    }
}

impl Decode for Nest {
    fn decode_with_tag_and_constraints<D: Decoder>(
        decoder: &mut D,
        tag: Tag,
        _: &Constraints,
    ) -> Result<Nest, D::Error> {
        decode::<Nest, Nest, D>(decoder, tag)
    }
}

/// A bit for each level (X.691 19.2): 1 where a further one is inside, at last 0.
#[tactic(auto, unfolding(
// Words that these rows unfold.
per_core::specs::Rows::bytes, rasn_below::specs::Types::normal, rasn_below::specs::Types::settle))]
pub fn a_level_is_a_bit()
    ensures one { let own = ⟦<Nest as AsnType>⟧ in
        IsWrittenAs unaligned (own.schema own.CONSTRAINTS) own.levels own.value (Nest' None') (0x00 ∷ []) }
    ensures three { let own = ⟦<Nest as AsnType>⟧ in
        (a b : _) → IsWrittenAs unaligned (own.schema own.CONSTRAINTS) own.levels own.value
        (Nest' (Some' a (Nest' (Some' b (Nest' None'))))) (0xc0 ∷ []) }
{}
