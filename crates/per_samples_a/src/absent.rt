//! A SEQUENCE of a component with a default.

ghost use Rattle.std.specs.Prelude.{refl, [], ◌∷◌, Some, pos};
ghost use Rattle.rasn_below.specs.Page.{whole, fields_of};
ghost use Rattle.per_core.specs.Rows.{unaligned, IsWrittenAs, IsUnwritten};
ghost use Rattle.per_samples_a.specs.Absents.{one_default};

use rasn_below::page::*;

/// SEQUENCE { a INTEGER (0..7) DEFAULT 3 }
#[derive(Clone, Copy, Debug, PartialEq)]
pub struct OneDefault {
    pub a: u8,
}

macro_rules! components { ($to:ident $($with:ident)*) => { $to! { [$($with)*]
    default 0 "a" a: u8 [0..=7 DEFAULT 3_u8];
} }; }

const FIELDS: FieldLists = components!(fields);

const BOUNDS: Bounds = components!(bounds);

impl Components for OneDefault {
    const COMPONENTS: FieldLists = FIELDS;

    ghost COMPONENTS = { fields_of one_default };

    ghost components = { (one_default, refl) };

    ghost contents = { λ x. Some (whole (pos x.a)) ∷ [] };
}

impl Record for OneDefault {
    fn encode_components<E: Encoder>(&self, encoder: &mut E) -> Result<(), E::Error> {
        components!(encode_components self encoder)
    }

    fn decode_components<D: Decoder>(decoder: &mut D) -> Result<Self, D::Error> {
        components!(decode_components decoder)
    }
}

/// A component at its default is left out: its presence bit is 0 (X.691 19.2, 19.5).
#[tactic(auto, unfolding(per_core::specs::Rows::bytes, rasn_below::specs::Types::normal))]
pub fn a_default_is_left_out()
    ensures default { let own = ⟦<OneDefault as AsnType>⟧ in
        IsWrittenAs unaligned (own.schema own.CONSTRAINTS) own.levels own.value
        (record { a = 3 }) (0x00 ∷ []) }
    ensures other { let own = ⟦<OneDefault as AsnType>⟧ in
        IsWrittenAs unaligned (own.schema own.CONSTRAINTS) own.levels own.value
        (record { a = 5 }) (0xd0 ∷ []) }
    ensures greater { let own = ⟦<OneDefault as AsnType>⟧ in
        IsUnwritten unaligned (own.schema own.CONSTRAINTS) own.levels own.value
        (record { a = 8 }) }
{}
