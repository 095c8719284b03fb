//! Spot.
#![tactic(auto, unfolding(rasn_below::specs::Types::smallest, rasn_below::specs::Types::least_of))]

ghost use Rattle.std.specs.Prelude.{[], ◌∷◌, Some, pos, refl};
ghost use Rattle.rasn_below.specs.Page.{whole, fields_of};
ghost use Rattle.its_header.specs.Spots.{spot};

use crate::area::{AREA_TAGS, ActionArea};
use rasn_below::page::*;

/// Spot ::= SEQUENCE { area ActionArea, lane [3] INTEGER (0..7) }, whose tags are its own
#[derive(Clone, Copy, Debug, PartialEq, Eq)]
pub struct Spot {
    pub area: ActionArea,
    pub lane: u8,
}

macro_rules! components { ($to:ident $($with:ident)*) => { $to! { [$($with)*]
    required 0 of AREA_TAGS "area" area: ActionArea [];
    required 3 "lane" lane: u8 [0..=7];
} }; }

const FIELDS: FieldLists = components!(fields);

const BOUNDS: Bounds = components!(bounds);

impl Components for Spot {
    const COMPONENTS: FieldLists = FIELDS;

    ghost COMPONENTS = { fields_of spot };

    ghost components = { (spot, refl) };

    ghost contents = { λ x. Some (⟦<ActionArea as AsnType>⟧.value x.area) ∷ Some (whole (pos x.lane)) ∷ [] };

    ghost depth = { λ _. 2 };
}

impl Record for Spot {
    fn encode_components<E: Encoder>(&self, encoder: &mut E) -> Result<(), E::Error> {
        components!(encode_components self encoder)
    }

    fn decode_components<D: Decoder>(decoder: &mut D) -> Result<Self, D::Error> {
        components!(decode_components decoder)
    }
}
