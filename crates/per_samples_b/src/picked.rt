//! A SEQUENCE with an untagged CHOICE as an addition.
#![tactic(auto, unfolding(rasn_below::specs::Types::smallest, rasn_below::specs::Types::least_of))]

ghost use Rattle.std.specs.Prelude.{[], ◌∷◌, Some, max, pos, refl};
ghost use Rattle.rasn_below.specs.Page.{truth, whole, slot_of, slot_levels, deeper_of, fields_of};
ghost use Rattle.per_samples_b.specs.Picks.{picked};

use crate::pick::{PICK_TAGS, Pick};
use rasn_below::page::*;

/// Picked ::= SEQUENCE { first [9] BOOLEAN, ..., pick Pick, last [5] INTEGER (0..7) OPTIONAL }, whose tags are its own
#[derive(Debug, Drop, PartialEq)]
pub struct Picked {
    pub first: bool,
    pub pick: Pick,
    pub last: Option<u8>,
}

macro_rules! components { ($to:ident $($with:ident)*) => { $to! { [$($with)*]
    required 9 "first" first: bool [];
    ...;
    required BOOL of PICK_TAGS "pick" pick: Pick [];
    optional 5 "last" last: Option<u8> [0..=7];
} }; }

const FIELDS: FieldLists = components!(fields);

const BOUNDS: Bounds = components!(bounds);

impl Components for Picked {
    const COMPONENTS: FieldLists = FIELDS;

    ghost COMPONENTS = { fields_of picked };

    ghost components = { (picked, refl) };

    ghost contents = { λ x. Some (truth x.first) ∷ [] };

    ghost added = { λ x. Some (⟦<Pick as AsnType>⟧.value x.pick) ∷ slot_of (λ l. whole (pos l)) x.last ∷ [] };

    ghost depth = { λ x. deeper_of 0 (max (⟦<Pick as AsnType>⟧.levels x.pick)
        (max (slot_levels ⟦<u8 as AsnType>⟧.levels x.last) 0)) };
}

impl Record for Picked {
    fn encode_components<E: Encoder>(&self, encoder: &mut E) -> Result<(), E::Error> {
        components!(encode_components self encoder)
    }

    fn decode_components<D: Decoder>(decoder: &mut D) -> Result<Self, D::Error> {
        components!(decode_components decoder)
    }
}
