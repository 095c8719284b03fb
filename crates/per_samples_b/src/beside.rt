//! A SEQUENCE with a CHOICE that has no tag of its own, and an extension marker.
#![tactic(auto, unfolding(rasn_below::specs::Types::smallest, rasn_below::specs::Types::least_of))]

ghost use Rattle.std.specs.Prelude.{refl, [], ◌∷◌, Some, pos};
ghost use Rattle.rasn_below.specs.Page.{whole, fields_of};
ghost use Rattle.per_samples_b.specs.Several.{beside_several};

use crate::several::{SEVERAL_TAGS, Several};
use rasn_below::page::*;

/// SEQUENCE { choice Several, lane [4] INTEGER (0..7) }, whose tags are its own
#[derive(Clone, Copy, Debug, PartialEq, Eq)]
pub struct BesideSeveral {
    pub choice: Several,
    pub lane: u8,
}

macro_rules! components { ($to:ident $($with:ident)*) => { $to! { [$($with)*]
    required 0 of SEVERAL_TAGS "choice" choice: Several [];
    required 4 "lane" lane: u8 [0..=7];
} }; }

const FIELDS: FieldLists = components!(fields);

const BOUNDS: Bounds = components!(bounds);

impl Components for BesideSeveral {
    const COMPONENTS: FieldLists = FIELDS;

    ghost COMPONENTS = { fields_of beside_several };

    ghost components = { (beside_several, refl) };

    ghost contents = { λ x. Some (⟦<Several as AsnType>⟧.value x.choice) ∷ Some (whole (pos x.lane)) ∷ [] };

    ghost depth = { λ _. 1 };
}

impl Record for BesideSeveral {
    fn encode_components<E: Encoder>(&self, encoder: &mut E) -> Result<(), E::Error> {
        components!(encode_components self encoder)
    }

    fn decode_components<D: Decoder>(decoder: &mut D) -> Result<Self, D::Error> {
        components!(decode_components decoder)
    }
}
