//! A SEQUENCE whose constraints are written as X.680 writes them.

ghost use Rattle.std.specs.Prelude.{refl, [], ◌∷◌, Some, codes, pos};
ghost use Rattle.rasn_below.specs.Page.{characters, octets, whole, fields_of};
ghost use Rattle.per_core.specs.Rows.{aligned, unaligned, IsWrittenAs};
ghost use Rattle.per_samples_a.specs.Brackets.{brackets};

use rasn_below::page::*;

/// SEQUENCE {
///     code VisibleString (SIZE (1..4)) (FROM ("A".."E")), three OCTET STRING (SIZE (3)), five INTEGER (5),
///     most INTEGER (MIN..9), least INTEGER (-1..MAX)
/// }
#[derive(Debug, Drop, PartialEq, Eq)]
pub struct Brackets {
    pub code: VisibleString,
    pub three: OctetString,
    pub five: u8,
    pub most: Integer,
    pub least: Integer,
}

/// "A".."E"
const A_TO_E: &[u32] = &[65, 66, 67, 68, 69];

macro_rules! components { ($to:ident $($with:ident)*) => { $to! { [$($with)*]
    required 0 "code" code: VisibleString [SIZE 1..=4, FROM A_TO_E];
    required 1 "three" three: OctetString [SIZE 3];
    required 2 "five" five: u8 [5];
    required 3 "most" most: Integer [MIN..=9];
    required 4 "least" least: Integer [-1..=MAX];
} }; }

const FIELDS: FieldLists = components!(fields);

const BOUNDS: Bounds = components!(bounds);

impl Components for Brackets {
    const COMPONENTS: FieldLists = FIELDS;

    ghost COMPONENTS = { fields_of brackets };

    ghost components = { (brackets, refl) };

    ghost contents = { λ x. Some (characters x.code) ∷ Some (octets x.three) ∷ Some (whole (pos x.five)) ∷
        Some (whole x.most) ∷ Some (whole x.least) ∷ [] };
}

impl Record for Brackets {
    fn encode_components<E: Encoder>(&self, encoder: &mut E) -> Result<(), E::Error> {
        components!(encode_components self encoder)
    }

    fn decode_components<D: Decoder>(decoder: &mut D) -> Result<Self, D::Error> {
        components!(decode_components decoder)
    }
}

/// A single value takes no bits, and MIN and MAX are no bounds (X.691 11.5.4, 11.5.7, 13.2).
#[tactic(auto, unfolding(per_core::specs::Rows::bytes, rasn_below::specs::Types::normal))]
pub fn a_single_value_takes_no_bits()
    ensures uper { let own = ⟦<Brackets as AsnType>⟧ in
        IsWrittenAs unaligned (own.schema own.CONSTRAINTS) own.levels own.value
        (record { code = codes "AE"; three = 7 ∷ 8 ∷ 9 ∷ []; five = 5; most = pos 9; least = pos 0 })
        (0x44 ∷ 0x07 ∷ 0x08 ∷ 0x09 ∷ 0x01 ∷ 0x09 ∷ 0x01 ∷ 0x01 ∷ []) }
    ensures aper { let own = ⟦<Brackets as AsnType>⟧ in
        IsWrittenAs aligned (own.schema own.CONSTRAINTS) own.levels own.value
        (record { code = codes "AE"; three = 7 ∷ 8 ∷ 9 ∷ []; five = 5; most = pos 9; least = pos 0 })
        (0x40 ∷ 0x04 ∷ 0x07 ∷ 0x08 ∷ 0x09 ∷ 0x01 ∷ 0x09 ∷ 0x01 ∷ 0x01 ∷ []) }
{}
