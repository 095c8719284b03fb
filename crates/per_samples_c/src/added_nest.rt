//! A SEQUENCE with a recursive addition.

ghost use Rattle.std.specs.Prelude.{[], ◌∷◌, Some, max, refl, true};
ghost use Rattle.rasn_below.specs.Page.{truth, slot_of, slot_levels, deeper_of, fields_of};
ghost use Rattle.per_core.specs.Rows.{unaligned, IsWrittenAs};
ghost use Rattle.per_samples_c.specs.declared.nest.Nest.{Nest', None'};
ghost use Rattle.per_samples_c.specs.AddedNests.{added_nest};

use crate::nest::Nest;
use rasn_below::page::*;

/// SEQUENCE { a BOOLEAN, ..., deep Nest OPTIONAL }
#[derive(Debug, Drop, PartialEq)]
pub struct AddedNest {
    pub a: bool,
    pub deep: Option<Nest>,
}

macro_rules! components { ($to:ident $($with:ident)*) => { $to! { [$($with)*]
    required 0 "a" a: bool [];
    ...;
    optional 1 "deep" deep: Option<Nest> [];
} }; }

const FIELDS: FieldLists = components!(fields);

const BOUNDS: Bounds = components!(bounds);

impl Components for AddedNest {
    const COMPONENTS: FieldLists = FIELDS;

    ghost COMPONENTS = { fields_of added_nest };

    ghost components = { (added_nest, refl) };

    ghost contents = { λ x. Some (truth x.a) ∷ [] };

    ghost added = { λ x. slot_of ⟦<Nest as AsnType>⟧.value x.deep ∷ [] };

    ghost depth = { λ x. deeper_of 0 (max (slot_levels ⟦<Nest as AsnType>⟧.levels x.deep) 0) };
}

impl Record for AddedNest {
    fn encode_components<E: Encoder>(&self, encoder: &mut E) -> Result<(), E::Error> {
        components!(encode_components self encoder)
    }

    fn decode_components<D: Decoder>(decoder: &mut D) -> Result<Self, D::Error> {
        components!(decode_components decoder)
    }
}

/// An addition of one level, whose open type holds a presence bit.
#[tactic(auto, unfolding(
// Words that these rows unfold.
per_core::specs::Rows::bytes, rasn_below::specs::Types::normal, rasn_below::specs::Types::settle))]
pub fn recursive_additions_are_open_types()
    ensures one { let own = ⟦<AddedNest as AsnType>⟧ in
        IsWrittenAs unaligned (own.schema own.CONSTRAINTS) own.levels own.value
        (record { a = true; deep = Some (Nest' None') }) (0xc0 ∷ 0x40 ∷ 0x40 ∷ 0x00 ∷ []) }
{}
