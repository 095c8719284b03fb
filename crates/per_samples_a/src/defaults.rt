//! A SEQUENCE of components with defaults, of several types.

ghost use Rattle.std.specs.Prelude.{refl, true, [], ◌∷◌, Some, codes, negsuc, pos};
ghost use Rattle.rasn_below.specs.Page.{truth, whole, octets, characters, fields_of};
ghost use Rattle.per_core.specs.Rows.{aligned, unaligned, IsWrittenAs};
ghost use Rattle.per_samples_a.specs.Defaults.{defaults};

use rasn_below::page::*;

/// SEQUENCE {
///     signed INTEGER (-8..7) DEFAULT -5, any INTEGER DEFAULT 0, octets OCTET STRING (SIZE (0..15)) DEFAULT '0102'H,
///     text VisibleString (SIZE (0..15)) DEFAULT "hi", last BOOLEAN
/// }
#[derive(Debug, Drop, PartialEq)]
pub struct Defaults {
    pub signed: i8,
    pub any: Integer,
    pub octets: OctetString,
    pub text: VisibleString,
    pub last: bool,
}

macro_rules! components { ($to:ident $($with:ident)*) => { $to! { [$($with)*]
    default 0 "signed" signed: i8 [-8..=7 DEFAULT -5_i8];
    default 1 "any" any: Integer [DEFAULT 0_i128];
    default 2 "octets" octets: OctetString [SIZE 0..=15 DEFAULT Octets([1, 2])];
    default 3 "text" text: VisibleString [SIZE 0..=15 DEFAULT Text(*b"hi")];
    required 4 "last" last: bool [];
} }; }

const FIELDS: FieldLists = components!(fields);

const BOUNDS: Bounds = components!(bounds);

impl Components for Defaults {
    const COMPONENTS: FieldLists = FIELDS;

    ghost COMPONENTS = { fields_of defaults };

    ghost components = { (defaults, refl) };

    ghost contents = { λ x. Some (whole x.signed) ∷ Some (whole x.any) ∷ Some (octets x.octets) ∷
        Some (characters x.text) ∷ Some (truth x.last) ∷ [] };
}

impl Record for Defaults {
    fn encode_components<E: Encoder>(&self, encoder: &mut E) -> Result<(), E::Error> {
        components!(encode_components self encoder)
    }

    fn decode_components<D: Decoder>(decoder: &mut D) -> Result<Self, D::Error> {
        components!(decode_components decoder)
    }
}

/// A component at its default isn't written (X.691 19.5).
#[tactic(auto, unfolding(per_core::specs::Rows::bytes, rasn_below::specs::Types::normal))]
pub fn defaults_are_not_written()
    ensures all { let own = ⟦<Defaults as AsnType>⟧ in
        IsWrittenAs unaligned (own.schema own.CONSTRAINTS) own.levels own.value
        (record { signed = negsuc 4; any = pos 0; octets = 1 ∷ 2 ∷ []; text = codes "hi"; last = true }) (0x08 ∷ []) }
    ensures none { let own = ⟦<Defaults as AsnType>⟧ in
        IsWrittenAs unaligned (own.schema own.CONSTRAINTS) own.levels own.value
        (record { signed = negsuc 3; any = pos 300; octets = 1 ∷ []; text = codes "ho"; last = true })
        (0xf4 ∷ 0x02 ∷ 0x01 ∷ 0x2c ∷ 0x10 ∷ 0x12 ∷ 0xd1 ∷ 0xbe ∷ []) }
    ensures none_aligned { let own = ⟦<Defaults as AsnType>⟧ in
        IsWrittenAs aligned (own.schema own.CONSTRAINTS) own.levels own.value
        (record { signed = negsuc 3; any = pos 300; octets = 1 ∷ []; text = codes "ho"; last = true })
        (0xf4 ∷ 0x02 ∷ 0x01 ∷ 0x2c ∷ 0x10 ∷ 0x01 ∷ 0x20 ∷ 0x68 ∷ 0x6f ∷ 0x80 ∷ []) }
{}
