//! A SEQUENCE of bits with a default.

ghost use Rattle.std.specs.Prelude.{refl, true, false, [], ◌∷◌, Some};
ghost use Rattle.rasn_below.specs.Page.{truth, bits, fields_of};
ghost use Rattle.per_core.specs.Rows.{aligned, unaligned, IsWrittenAs};
ghost use Rattle.per_samples_a.specs.Defaults.{default_bits};

use rasn_below::page::*;

/// SEQUENCE { bits BIT STRING (SIZE (0..7)) DEFAULT '101'B, last BOOLEAN }
#[derive(Debug, Drop, PartialEq)]
pub struct DefaultBits {
    pub bits: BitString,
    pub last: bool,
}

macro_rules! components { ($to:ident $($with:ident)*) => { $to! { [$($with)*]
    default 0 "bits" bits: BitString [SIZE 0..=7 DEFAULT Bits([true, false, true])];
    required 1 "last" last: bool [];
} }; }

const FIELDS: FieldLists = components!(fields);

const BOUNDS: Bounds = components!(bounds);

impl Components for DefaultBits {
    const COMPONENTS: FieldLists = FIELDS;

    ghost COMPONENTS = { fields_of default_bits };

    ghost components = { (default_bits, refl) };

    ghost contents = { λ x. Some (bits x.bits) ∷ Some (truth x.last) ∷ [] };
}

impl Record for DefaultBits {
    fn encode_components<E: Encoder>(&self, encoder: &mut E) -> Result<(), E::Error> {
        components!(encode_components self encoder)
    }

    fn decode_components<D: Decoder>(decoder: &mut D) -> Result<Self, D::Error> {
        components!(decode_components decoder)
    }
}

/// Bits at their default aren't written (X.691 19.5).
#[tactic(auto, unfolding(per_core::specs::Rows::bytes, rasn_below::specs::Types::normal))]
pub fn default_bits_are_not_written()
    ensures default { let own = ⟦<DefaultBits as AsnType>⟧ in
        IsWrittenAs unaligned (own.schema own.CONSTRAINTS) own.levels own.value
        (record { bits = true ∷ false ∷ true ∷ []; last = true }) (0x40 ∷ []) }
    ensures others { let own = ⟦<DefaultBits as AsnType>⟧ in
        IsWrittenAs unaligned (own.schema own.CONSTRAINTS) own.levels own.value
        (record { bits = false ∷ true ∷ false ∷ []; last = true }) (0xb5 ∷ []) }
    ensures others_aligned { let own = ⟦<DefaultBits as AsnType>⟧ in
        IsWrittenAs aligned (own.schema own.CONSTRAINTS) own.levels own.value
        (record { bits = false ∷ true ∷ false ∷ []; last = true }) (0xb0 ∷ 0x50 ∷ []) }
{}
