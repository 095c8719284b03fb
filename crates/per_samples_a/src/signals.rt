//! A SEQUENCE of bits that have names: without a size, under one, and under an extensible one.

ghost use Rattle.std.specs.Prelude.{refl, true, false, [], ◌∷◌, ◌++◌, replicate, Some, None};
ghost use Rattle.rasn_below.specs.Page.{bits, slot_of, fields_of};
ghost use Rattle.per_core.specs.Rows.{aligned, unaligned, IsUnwritten, IsWrittenAs};
ghost use Rattle.per_samples_a.specs.Signals.{signals};

use rasn_below::page::*;

/// SEQUENCE {
///     any Lights, bounded Lights (SIZE (2..8)), marked Lights (SIZE (4, ...)) OPTIONAL
/// }, where Lights ::= BIT STRING { red(0), yellow(1), green(2) }
#[derive(Debug, Drop, PartialEq)]
pub struct Signals {
    pub any: NamedBits,
    pub bounded: NamedBits,
    pub marked: Option<NamedBits>,
}

/// The place of the bit `red` of Lights.
pub const RED: usize = 0;

/// The place of the bit `yellow` of Lights.
pub const YELLOW: usize = 1;

/// The place of the bit `green` of Lights.
pub const GREEN: usize = 2;

macro_rules! components { ($to:ident $($with:ident)*) => { $to! { [$($with)*]
    required 0 "any" any: NamedBits [];
    required 1 "bounded" bounded: NamedBits [SIZE 2..=8];
    optional 2 "marked" marked: Option<NamedBits> [SIZE 4..=4, ...];
} }; }

const FIELDS: FieldLists = components!(fields);

const BOUNDS: Bounds = components!(bounds);

impl Components for Signals {
    const COMPONENTS: FieldLists = FIELDS;

    ghost COMPONENTS = { fields_of signals };

    ghost components = { (signals, refl) };

    ghost contents = { λ x. Some (bits x.any) ∷ Some (bits x.bounded) ∷ slot_of bits x.marked ∷ [] };
}

impl Record for Signals {
    fn encode_components<E: Encoder>(&self, encoder: &mut E) -> Result<(), E::Error> {
        components!(encode_components self encoder)
    }

    fn decode_components<D: Decoder>(decoder: &mut D) -> Result<Self, D::Error> {
        components!(decode_components decoder)
    }
}

/// Zero bits at the end aren't written but as the size asks for them, and the count without them says whether an
/// extensible size is met (X.680 22.7; X.691 16.2, 16.6). The octets are those of another compiler.
#[tactic(auto, unfolding(per_core::specs::Rows::bytes, rasn_below::specs::Types::normal))]
pub fn named_bits_are_written_without_zeros_at_their_end()
    ensures uper { let own = ⟦<Signals as AsnType>⟧ in
        IsWrittenAs unaligned (own.schema own.CONSTRAINTS) own.levels own.value
        (record {
          any = false ∷ true ∷ false ∷ false ∷ [];
          bounded = false ∷ false ∷ true ∷ replicate 5 false;
          marked = Some (true ∷ false ∷ false ∷ false ∷ []);
        }) (0x81 ∷ 0x24 ∷ 0xa0 ∷ []) }
    ensures aper { let own = ⟦<Signals as AsnType>⟧ in
        IsWrittenAs aligned (own.schema own.CONSTRAINTS) own.levels own.value
        (record {
          any = false ∷ true ∷ false ∷ false ∷ [];
          bounded = false ∷ false ∷ true ∷ replicate 5 false;
          marked = Some (true ∷ false ∷ false ∷ false ∷ []);
        }) (0x80 ∷ 0x02 ∷ 0x48 ∷ 0x28 ∷ []) }
    ensures past_the_size { let own = ⟦<Signals as AsnType>⟧ in
        IsWrittenAs unaligned (own.schema own.CONSTRAINTS) own.levels own.value
        (record {
          any = true ∷ replicate 7 false;
          bounded = replicate 5 false ++ true ∷ false ∷ false ∷ [];
          marked = Some (replicate 5 false ++ true ∷ replicate 3 false);
        }) (0x80 ∷ 0xe0 ∷ 0x30 ∷ 0x60 ∷ 0x40 ∷ []) }
    ensures filled_up { let own = ⟦<Signals as AsnType>⟧ in
        IsWrittenAs unaligned (own.schema own.CONSTRAINTS) own.levels own.value
        (record { any = []; bounded = []; marked = Some [] }) (0x80 ∷ 0 ∷ 0 ∷ []) }
    ensures absent { let own = ⟦<Signals as AsnType>⟧ in
        IsWrittenAs unaligned (own.schema own.CONSTRAINTS) own.levels own.value
        (record { any = false ∷ true ∷ false ∷ false ∷ []; bounded = true ∷ []; marked = None })
        (0x01 ∷ 0x22 ∷ []) }
    ensures nine_to_the_last_one { let own = ⟦<Signals as AsnType>⟧ in
        IsUnwritten unaligned (own.schema own.CONSTRAINTS) own.levels own.value
        (record { any = []; bounded = replicate 8 false ++ true ∷ []; marked = None }) }
{}
