//! SETs that are stated by one list of their components: they are written and read by it.

ghost use Rattle.std.specs.Prelude.{◌≡◌};
ghost use Rattle.rasn_traits.specs.Scopes.{AnswersFields, AtFields, TakesFields, WritesFields, WrittenFields};
ghost use Rattle.rasn_schema.specs.Components.{added_parts};
ghost use Rattle.rasn_schema.specs.Normal.{normals};
ghost use Rattle.rasn_sets.specs.SetRecords.{parts_in_order, slots_in_order};

use crate::components::{AsSet, SetComponents, SetKind};
use rasn_codec::codec::{Decoder, Encoder};
use rasn_codec::kinds::{DecodeKind, EncodeKind};
use rasn_types::types::{Identifier, Tag};

/// The components of a SET that can be encoded and decoded: those of the root in ascending order of their smallest tags
/// (X.691 21.1), and then its additions.
pub trait SetRecord: SetComponents + Sized + Drop {
    /// Writes the root components in turn, and then gives the additions.
    fn encode_components<E: Encoder>(&self, encoder: &mut E) -> Result<(), E::Error>
        ensures { WritesFields E.rules (parts_in_order Self.components.0) (added_parts Self.components.0)
            (Self.depth self.now) (slots_in_order Self.components.0 (Self.contents self.now)) (Self.added self.now)
            encoder.old result encoder.new };

    /// Reads the root components in turn, and then the additions.
    fn decode_components<D: Decoder>(decoder: &mut D) -> Result<Self, D::Error>
        ensures { TakesFields D.rules (parts_in_order Self.components.0) (added_parts Self.components.0)
            (λ x. slots_in_order Self.components.0 (Self.contents x)) Self.added decoder.old result decoder.new };
}

impl<T: SetRecord> EncodeKind<T> for SetKind {
    fn encode_value<E: Encoder>(
        value: &T,
        encoder: &mut E,
        tag: Tag,
        identifier: Identifier,
    ) -> Result<(), E::Error> {
        encoder.encode_set_in_order::<AsSet<T>, _, _>(
            tag,
            |e: &mut E| -> Result<(), E::Error>
                ensures law { let cs = T.components.0 in let v = value.entry.now in
                    AtFields (parts_in_order cs) (added_parts cs) (T.depth v) (λ ps qs. WrittenFields E.rules ps qs
                    (normals ps (slots_in_order cs (T.contents v))) (normals qs (T.added v)) e.old result e.new) }
                ensures kept { E.rules.codec e.new ≡ E.rules.codec e.old }
            { value.encode_components(e) },
            identifier,
        )
    }
}

impl<T: SetRecord> DecodeKind<T> for SetKind {
    fn decode_value<D: Decoder>(decoder: &mut D, tag: Tag) -> Result<T, D::Error> {
        let set = decoder.decode_set_in_order(
            tag,
            |d: &mut D| -> Result<AsSet<T>, D::Error>
                ensures law { let cs = T.components.0 in let n = D.rules.levels d.old in
                    AnswersFields D.rules (parts_in_order cs n) (added_parts cs n)
                    (λ (x : AsSet T). slots_in_order cs (T.contents x.0)) (λ (x : AsSet T). T.added x.0)
                    d.old result d.new }
                ensures kept { D.rules.codec d.new ≡ D.rules.codec d.old }
            { Ok(AsSet(T::decode_components(d)?)) },
        )?;
        Ok(set.0)
    }
}
