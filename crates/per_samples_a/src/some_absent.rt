//! A SEQUENCE of a required component, an optional one, and one with a default.

ghost use Rattle.std.specs.Prelude.{refl, true, [], ◌∷◌, Some, None, pos};
ghost use Rattle.rasn_below.specs.Page.{truth, whole, slot_of, fields_of};
ghost use Rattle.per_core.specs.Rows.{unaligned, IsWrittenAs};
ghost use Rattle.per_samples_a.specs.Absents.{some_absent};

use rasn_below::page::*;

/// SEQUENCE { a BOOLEAN, b INTEGER (0..7) OPTIONAL, c INTEGER (0..7) DEFAULT 3 }
#[derive(Clone, Copy, Debug, PartialEq)]
pub struct SomeAbsent {
    pub a: bool,
    pub b: Option<u8>,
    pub c: u8,
}

macro_rules! components { ($to:ident $($with:ident)*) => { $to! { [$($with)*]
    required 0 "a" a: bool [];
    optional 1 "b" b: Option<u8> [0..=7];
    default 2 "c" c: u8 [0..=7 DEFAULT 3_u8];
} }; }

const FIELDS: FieldLists = components!(fields);

const BOUNDS: Bounds = components!(bounds);

impl Components for SomeAbsent {
    const COMPONENTS: FieldLists = FIELDS;

    ghost COMPONENTS = { fields_of some_absent };

    ghost components = { (some_absent, refl) };

    ghost contents = { λ x. Some (truth x.a) ∷ slot_of (λ n. whole (pos n)) x.b ∷ Some (whole (pos x.c)) ∷ [] };
}

impl Record for SomeAbsent {
    fn encode_components<E: Encoder>(&self, encoder: &mut E) -> Result<(), E::Error> {
        components!(encode_components self encoder)
    }

    fn decode_components<D: Decoder>(decoder: &mut D) -> Result<Self, D::Error> {
        components!(decode_components decoder)
    }
}

/// The presence bits of the second and the third component stand before all components (X.691 19.2).
#[tactic(auto, unfolding(per_core::specs::Rows::bytes, rasn_below::specs::Types::normal))]
pub fn presence_bits_come_first()
    ensures there { let own = ⟦<SomeAbsent as AsnType>⟧ in
        IsWrittenAs unaligned (own.schema own.CONSTRAINTS) own.levels own.value
        (record { a = true; b = Some 5; c = 3 }) (0xb4 ∷ []) }
    ensures absent { let own = ⟦<SomeAbsent as AsnType>⟧ in
        IsWrittenAs unaligned (own.schema own.CONSTRAINTS) own.levels own.value
        (record { a = true; b = None; c = 4 }) (0x70 ∷ []) }
{}
