//! A CHOICE of which an alternative is a choice without a tag of its own.
#![tactic(auto, unfolding(rasn_below::specs::Types::smallest, rasn_below::specs::Types::least_of))]

ghost use Rattle.std.specs.Prelude.{refl};
ghost use Rattle.rasn_below.specs.Page.{chosen, nothing, truth, variants_listed};
ghost use Rattle.per_samples_c.specs.Choices.{outer, outer_apart};
ghost use Rattle.per_samples_c.specs.declared.choice.Outer.TheVariants.{X, Y, Z};

use crate::inner_choice::{INNER_TAGS, Inner};
use rasn_below::page::*;

/// CHOICE { x [0] BOOLEAN, y CHOICE { p [1] BOOLEAN, q [2] NULL }, z [3] NULL }, y untagged
#[derive(Clone, Copy, Debug, PartialEq, Eq)]
pub enum Outer {
    X(bool),
    Y(Inner),
    Z,
}

macro_rules! alternatives { ($to:ident $($with:ident)*) => { $to! { [$($with)*]
    0 "x" X: bool [];
    1 of INNER_TAGS "y" Y: Inner [];
    3 "z" Z;
} }; }

const VARIANTS: VariantLists = alternatives!(own_variants);

const BOUNDS: Bounds = alternatives!(own_alternative_bounds);

impl OfKind for Outer {
    type Kind = ChoiceKind;
}

impl Alternatives for Outer {
    const ALTERNATIVES: VariantLists = VARIANTS;

    ghost ALTERNATIVES = { variants_listed outer };

    ghost alternatives = { (outer, refl) };

    ghost chosen = { elim [
      | X x ↦ chosen 0 (truth x)
      | Y y ↦ chosen 1 (⟦<Inner as AsnType>⟧.value y)
      | Z ↦ chosen 2 nothing
    ] };

    ghost depth = { λ _. 1 };

    ghost are_variants = { outer_apart };
}

impl CodedAlternatives for Outer {
    fn place(&self) -> Place {
        alternatives!(place_of_alternative self)
    }

    fn encode_alternative<E: Encoder>(&self, encoder: &mut E) -> Result<(), E::Error> {
        alternatives!(encode_own_alternative self encoder)
    }

    fn decode_alternative<D: Decoder>(decoder: &mut D, place: Place) -> Result<Self, D::Error> {
        alternatives!(decode_own_alternative decoder place)
    }
}

impl ByKind for Outer {}
