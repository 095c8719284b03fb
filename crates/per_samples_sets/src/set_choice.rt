//! A SET with a CHOICE that has no tag of its own: it counts with the smallest of its alternatives' tags (X.691 21.1),
//! and so it is written first.
#![tactic(auto, unfolding(rasn_below::specs::Types::smallest, rasn_below::specs::Types::least_of))]

ghost use Rattle.std.specs.Prelude.{refl};
ghost use Rattle.rasn_below.specs.Page.{fields_of};
ghost use Rattle.per_samples_sets.specs.Sets.{set_choice, set_choice_contents};

use crate::truth_or_none::{TAGS, TruthOrNone};
use rasn_below::page::*;

/// SET { k [5] BOOLEAN, c CHOICE { m [3] BOOLEAN, n [9] NULL } }, whose choice has no tag of its own
#[derive(Clone, Copy, Debug, PartialEq, Eq)]
pub struct SetChoice {
    pub k: bool,
    pub c: TruthOrNone,
}

macro_rules! components {
    ($to:ident $($with:ident)*) => {
        $to! { [$($with)*]
            required 3 of TAGS "c" c: TruthOrNone [];
            required 5 "k" k: bool [];
        }
    };
}

const FIELDS: FieldLists = components!(fields);

const BOUNDS: Bounds = components!(bounds);

const COMPONENTS: FieldLists = fields! { []
    required 5 "k" k: bool [];
    required 3 of TAGS "c" c: TruthOrNone [];
};

impl OfKind for SetChoice {
    type Kind = SetKind;
}

impl SetComponents for SetChoice {
    const COMPONENTS: FieldLists = COMPONENTS;

    ghost COMPONENTS = { fields_of set_choice };

    ghost components = { (set_choice, refl) };

    ghost contents = { λ x. set_choice_contents x.k (⟦<TruthOrNone as AsnType>⟧.value x.c) };

    ghost depth = { λ _. 1 };

    ghost counted = { λ _. refl };
}

impl SetRecord for SetChoice {
    fn encode_components<E: Encoder>(&self, encoder: &mut E) -> Result<(), E::Error> {
        components!(encode_set_components self encoder)
    }

    fn decode_components<D: Decoder>(decoder: &mut D) -> Result<Self, D::Error> {
        components!(decode_set_components decoder)
    }
}

impl ByKind for SetChoice {}
