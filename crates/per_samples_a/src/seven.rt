//! A SEQUENCE of which each value takes no bits.

ghost use Rattle.std.specs.Prelude.{refl, [], ◌∷◌, Some, pos};
ghost use Rattle.rasn_below.specs.Page.{whole, fields_of};
ghost use Rattle.per_core.specs.Rows.{aligned, unaligned, IsWrittenAs, IsUnwritten};
ghost use Rattle.per_samples_a.specs.Sevens.{seven};

use rasn_below::page::*;

/// SEQUENCE { a INTEGER (7..7) }
#[derive(Debug, Drop, PartialEq, Eq)]
pub struct Seven {
    pub a: Integer,
}

macro_rules! components { ($to:ident $($with:ident)*) => { $to! { [$($with)*]
    required 0 "a" a: Integer [7..=7];
} }; }

const FIELDS: FieldLists = components!(fields);

const BOUNDS: Bounds = components!(bounds);

impl Components for Seven {
    const COMPONENTS: FieldLists = FIELDS;

    ghost COMPONENTS = { fields_of seven };

    ghost components = { (seven, refl) };

    ghost contents = { λ x. Some (whole x.a) ∷ [] };
}

impl Record for Seven {
    fn encode_components<E: Encoder>(&self, encoder: &mut E) -> Result<(), E::Error> {
        components!(encode_components self encoder)
    }

    fn decode_components<D: Decoder>(decoder: &mut D) -> Result<Self, D::Error> {
        components!(decode_components decoder)
    }
}

/// A number of one value takes no bits (X.691 11.5.4), and a complete encoding of no bits is a zero octet
/// (X.691 11.1.3).
#[tactic(auto, unfolding(per_core::specs::Rows::bytes, rasn_below::specs::Types::normal))]
pub fn seven_is_a_zero_octet()
    ensures uper { let own = ⟦<Seven as AsnType>⟧ in
        IsWrittenAs unaligned (own.schema own.CONSTRAINTS) own.levels own.value
        (record { a = pos 7 }) (0x00 ∷ []) }
    ensures aper { let own = ⟦<Seven as AsnType>⟧ in
        IsWrittenAs aligned (own.schema own.CONSTRAINTS) own.levels own.value
        (record { a = pos 7 }) (0x00 ∷ []) }
    ensures greater { let own = ⟦<Seven as AsnType>⟧ in
        IsUnwritten unaligned (own.schema own.CONSTRAINTS) own.levels own.value
        (record { a = pos 8 }) }
{}
