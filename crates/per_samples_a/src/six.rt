//! A SEQUENCE of six optional components of constructed types.

ghost use Rattle.std.specs.Prelude.{refl, true, [], ◌∷◌, Some, None, max};
ghost use Rattle.rasn_below.specs.Page.{truth, slot_of, slot_levels, fields_of};
ghost use Rattle.per_core.specs.Rows.{unaligned, IsWrittenAs};
ghost use Rattle.per_samples_a.specs.Optionals.{six};

use crate::twelve::Twelve;
use rasn_below::page::*;

/// SEQUENCE {
///     a Flags OPTIONAL, b Flags OPTIONAL, c Twelve OPTIONAL, d Flags OPTIONAL, e Twelve OPTIONAL, f Flags OPTIONAL,
///     g BOOLEAN
/// }, where Flags ::= SEQUENCE (SIZE (0..3)) OF BOOLEAN
#[derive(Debug, Drop, PartialEq)]
pub struct Six {
    pub a: Option<Vec<bool>>,
    pub b: Option<Vec<bool>>,
    pub c: Option<Twelve>,
    pub d: Option<Vec<bool>>,
    pub e: Option<Twelve>,
    pub f: Option<Vec<bool>>,
    pub g: bool,
}

macro_rules! components { ($to:ident $($with:ident)*) => { $to! { [$($with)*]
    optional 0 "a" a: Option<Vec<bool>> [SIZE 0..=3];
    optional 1 "b" b: Option<Vec<bool>> [SIZE 0..=3];
    optional 2 "c" c: Option<Twelve> [];
    optional 3 "d" d: Option<Vec<bool>> [SIZE 0..=3];
    optional 4 "e" e: Option<Twelve> [];
    optional 5 "f" f: Option<Vec<bool>> [SIZE 0..=3];
    required 6 "g" g: bool [];
} }; }

const FIELDS: FieldLists = components!(fields);

const BOUNDS: Bounds = components!(bounds);

impl Components for Six {
    const COMPONENTS: FieldLists = FIELDS;

    ghost COMPONENTS = { fields_of six };

    ghost components = { (six, refl) };

    ghost contents = { λ x.
        slot_of ⟦<Vec<bool> as AsnType>⟧.value x.a ∷ slot_of ⟦<Vec<bool> as AsnType>⟧.value x.b ∷
        slot_of ⟦<Twelve as AsnType>⟧.value x.c ∷ slot_of ⟦<Vec<bool> as AsnType>⟧.value x.d ∷
        slot_of ⟦<Twelve as AsnType>⟧.value x.e ∷ slot_of ⟦<Vec<bool> as AsnType>⟧.value x.f ∷ Some (truth x.g) ∷ [] };

    ghost depth = { λ x.
        max (slot_levels ⟦<Vec<bool> as AsnType>⟧.levels x.a) (max (slot_levels ⟦<Vec<bool> as AsnType>⟧.levels x.b)
        (max (slot_levels ⟦<Twelve as AsnType>⟧.levels x.c) (max (slot_levels ⟦<Vec<bool> as AsnType>⟧.levels x.d)
        (max (slot_levels ⟦<Twelve as AsnType>⟧.levels x.e) (slot_levels ⟦<Vec<bool> as AsnType>⟧.levels x.f))))) };
}

impl Record for Six {
    fn encode_components<E: Encoder>(&self, encoder: &mut E) -> Result<(), E::Error> {
        components!(encode_components self encoder)
    }

    fn decode_components<D: Decoder>(decoder: &mut D) -> Result<Self, D::Error> {
        components!(decode_components decoder)
    }
}

/// The presence bits of six stand before what is there (X.691 19.2).
#[tactic(auto, unfolding(per_core::specs::Rows::bytes, rasn_below::specs::Types::normal))]
pub fn six_presence_bits_come_first()
    ensures { let own = ⟦<Six as AsnType>⟧ in
        IsWrittenAs unaligned (own.schema own.CONSTRAINTS) own.levels own.value
        (record { a = None; b = None; c = None; d = None; e = None; f = None; g = true }) (0x02 ∷ []) }
{}
