//! A SEQUENCE of a component between others that may have no octets.

ghost use Rattle.std.specs.Prelude.{refl, true, [], ◌∷◌, Some};
ghost use Rattle.rasn_below.specs.Page.{octets, truth, fields_of};
ghost use Rattle.per_core.specs.Rows.{aligned, unaligned, IsWrittenAs};
ghost use Rattle.per_samples_c.specs.Empties.{maybe_empty};

use rasn_below::page::*;

/// SEQUENCE { a BOOLEAN, b OCTET STRING (SIZE (0..3)), c BOOLEAN }
#[derive(Debug, Drop, PartialEq)]
pub struct MaybeEmpty {
    pub a: bool,
    pub b: OctetString,
    pub c: bool,
}

macro_rules! components { ($to:ident $($with:ident)*) => { $to! { [$($with)*]
    required 0 "a" a: bool [];
    required 1 "b" b: OctetString [SIZE 0..=3];
    required 2 "c" c: bool [];
} }; }

const FIELDS: FieldLists = components!(fields);

const BOUNDS: Bounds = components!(bounds);

impl Components for MaybeEmpty {
    const COMPONENTS: FieldLists = FIELDS;

    ghost COMPONENTS = { fields_of maybe_empty };

    ghost components = { (maybe_empty, refl) };

    ghost contents = { λ x. Some (truth x.a) ∷ Some (octets x.b) ∷ Some (truth x.c) ∷ [] };
}

impl Record for MaybeEmpty {
    fn encode_components<E: Encoder>(&self, encoder: &mut E) -> Result<(), E::Error> {
        components!(encode_components self encoder)
    }

    fn decode_components<D: Decoder>(decoder: &mut D) -> Result<Self, D::Error> {
        components!(decode_components decoder)
    }
}

/// The count of octets in two bits; where it is 0 nothing is after it, and in APER no padding (X.691 17.8).
#[tactic(auto, unfolding(per_core::specs::Rows::bytes, rasn_below::specs::Types::normal))]
pub fn no_octets_are_their_count()
    ensures none { let own = ⟦<MaybeEmpty as AsnType>⟧ in
        IsWrittenAs unaligned (own.schema own.CONSTRAINTS) own.levels own.value
        (record { a = true; b = []; c = true }) (0x90 ∷ []) }
    ensures one { let own = ⟦<MaybeEmpty as AsnType>⟧ in
        IsWrittenAs unaligned (own.schema own.CONSTRAINTS) own.levels own.value
        (record { a = true; b = 7 ∷ []; c = true }) (0xa0 ∷ 0xf0 ∷ []) }
    ensures none_aligned { let own = ⟦<MaybeEmpty as AsnType>⟧ in
        IsWrittenAs aligned (own.schema own.CONSTRAINTS) own.levels own.value
        (record { a = true; b = []; c = true }) (0x90 ∷ []) }
    ensures one_aligned { let own = ⟦<MaybeEmpty as AsnType>⟧ in
        IsWrittenAs aligned (own.schema own.CONSTRAINTS) own.levels own.value
        (record { a = true; b = 7 ∷ []; c = true }) (0xa0 ∷ 0x07 ∷ 0x80 ∷ []) }
{}
