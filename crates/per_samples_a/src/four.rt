//! A SEQUENCE of which one component is bounded.

ghost use Rattle.std.specs.Prelude.{refl, [], ◌∷◌, Some, true, false, pos, negsuc};
ghost use Rattle.rasn_below.specs.Page.{truth, whole, fields_of};
ghost use Rattle.per_core.specs.Rows.{aligned, unaligned, IsWrittenAs, IsUnwritten};
ghost use Rattle.per_samples_a.specs.Fours.{four};

use rasn_below::page::*;

/// SEQUENCE { a BOOLEAN, b INTEGER, c BOOLEAN, d INTEGER (-10..400) }
#[derive(Debug, Drop, PartialEq, Eq)]
pub struct Four {
    pub a: bool,
    pub b: Integer,
    pub c: bool,
    pub d: Integer,
}

macro_rules! components { ($to:ident $($with:ident)*) => { $to! { [$($with)*]
    required 0 "a" a: bool [];
    required 1 "b" b: Integer [];
    required 2 "c" c: bool [];
    required 3 "d" d: Integer [-10..=400];
} }; }

const FIELDS: FieldLists = components!(fields);

const BOUNDS: Bounds = components!(bounds);

impl Components for Four {
    const COMPONENTS: FieldLists = FIELDS;

    ghost COMPONENTS = { fields_of four };

    ghost components = { (four, refl) };

    ghost contents = { λ x. Some (truth x.a) ∷ Some (whole x.b) ∷ Some (truth x.c) ∷ Some (whole x.d) ∷ [] };
}

impl Record for Four {
    fn encode_components<E: Encoder>(&self, encoder: &mut E) -> Result<(), E::Error> {
        components!(encode_components self encoder)
    }

    fn decode_components<D: Decoder>(decoder: &mut D) -> Result<Self, D::Error> {
        components!(decode_components decoder)
    }
}

/// The components in turn: a bit, a number after its count of octets, a bit, and in nine bits how far a number is
/// above its bound; in APER the count, and the nine bits in two octets, stand on a boundary (X.691 11.5.7.3, 19.4).
#[tactic(auto, unfolding(per_core::specs::Rows::bytes, rasn_below::specs::Types::normal))]
pub fn four_is_its_components_in_turn()
    ensures uper { let own = ⟦<Four as AsnType>⟧ in
        IsWrittenAs unaligned (own.schema own.CONSTRAINTS) own.levels own.value
        (record { a = true; b = pos 43554344223; c = false; d = negsuc 8 })
        (0x82 ∷ 0x85 ∷ 0x12 ∷ 0x05 ∷ 0x46 ∷ 0x8f ∷ 0x80 ∷ 0x20 ∷ []) }
    ensures aper { let own = ⟦<Four as AsnType>⟧ in
        IsWrittenAs aligned (own.schema own.CONSTRAINTS) own.levels own.value
        (record { a = true; b = pos 43554344223; c = false; d = negsuc 8 })
        (0x80 ∷ 0x05 ∷ 0x0a ∷ 0x24 ∷ 0x0a ∷ 0x8d ∷ 0x1f ∷ 0x00 ∷ 0x00 ∷ 0x01 ∷ []) }
    ensures greater { let own = ⟦<Four as AsnType>⟧ in
        IsUnwritten unaligned (own.schema own.CONSTRAINTS) own.levels own.value
        (record { a = true; b = pos 43554344223; c = false; d = pos 401 }) }
{}
