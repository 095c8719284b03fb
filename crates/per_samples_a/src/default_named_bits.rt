//! A SEQUENCE of bits that have names, with defaults.

ghost use Rattle.std.specs.Prelude.{refl, true, false, [], ◌∷◌, Some};
ghost use Rattle.rasn_below.specs.Page.{bits, fields_of};
ghost use Rattle.per_core.specs.Rows.{aligned, unaligned, IsWrittenAs};
ghost use Rattle.per_samples_a.specs.Defaults.{default_named_bits};

use rasn_below::page::*;

/// SEQUENCE { any Lights DEFAULT {green}, bounded Lights (SIZE (4..8)) DEFAULT {red} }
#[derive(Debug, Drop, PartialEq)]
pub struct DefaultNamedBits {
    pub any: NamedBits,
    pub bounded: NamedBits,
}

macro_rules! components { ($to:ident $($with:ident)*) => { $to! { [$($with)*]
    default 0 "any" any: NamedBits [DEFAULT Bits([false, false, true])];
    default 1 "bounded" bounded: NamedBits [SIZE 4..=8 DEFAULT Bits([true, false, false, false])];
} }; }

const FIELDS: FieldLists = components!(fields);

const BOUNDS: Bounds = components!(bounds);

impl Components for DefaultNamedBits {
    const COMPONENTS: FieldLists = FIELDS;

    ghost COMPONENTS = { fields_of default_named_bits };

    ghost components = { (default_named_bits, refl) };

    ghost contents = { λ x. Some (bits x.any) ∷ Some (bits x.bounded) ∷ [] };
}

impl Record for DefaultNamedBits {
    fn encode_components<E: Encoder>(&self, encoder: &mut E) -> Result<(), E::Error> {
        components!(encode_components self encoder)
    }

    fn decode_components<D: Decoder>(decoder: &mut D) -> Result<Self, D::Error> {
        components!(decode_components decoder)
    }
}

/// Named bits aren't written where they are the default's but for zero bits at their end (X.680 22.7; X.691 19.5). The
/// octets are those of another compiler.
#[tactic(auto, unfolding(per_core::specs::Rows::bytes, rasn_below::specs::Types::normal))]
pub fn default_named_bits_are_not_written()
    ensures default { let own = ⟦<DefaultNamedBits as AsnType>⟧ in
        IsWrittenAs unaligned (own.schema own.CONSTRAINTS) own.levels own.value
        (record { any = false ∷ false ∷ true ∷ false ∷ false ∷ []; bounded = true ∷ [] }) (0 ∷ []) }
    ensures other { let own = ⟦<DefaultNamedBits as AsnType>⟧ in
        IsWrittenAs unaligned (own.schema own.CONSTRAINTS) own.levels own.value
        (record { any = false ∷ true ∷ []; bounded = true ∷ false ∷ false ∷ false ∷ false ∷ [] })
        (0x80 ∷ 0x90 ∷ []) }
    ensures others { let own = ⟦<DefaultNamedBits as AsnType>⟧ in
        IsWrittenAs unaligned (own.schema own.CONSTRAINTS) own.levels own.value
        (record {
          any = false ∷ true ∷ false ∷ false ∷ [];
          bounded = true ∷ false ∷ false ∷ false ∷ true ∷ [];
        }) (0xc0 ∷ 0x93 ∷ 0x10 ∷ []) }
    ensures others_aligned { let own = ⟦<DefaultNamedBits as AsnType>⟧ in
        IsWrittenAs aligned (own.schema own.CONSTRAINTS) own.levels own.value
        (record {
          any = false ∷ true ∷ false ∷ false ∷ [];
          bounded = true ∷ false ∷ false ∷ false ∷ true ∷ [];
        }) (0xc0 ∷ 0x02 ∷ 0x48 ∷ 0x88 ∷ []) }
{}
