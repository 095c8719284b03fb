//! A CHOICE of a SEQUENCE, an untagged CHOICE and NULL.
#![tactic(auto, unfolding(rasn_below::specs::Types::smallest, rasn_below::specs::Types::least_of))]

ghost use Rattle.std.specs.Prelude.{refl};
ghost use Rattle.rasn_below.specs.Page.{chosen, nothing, variants_listed};
ghost use Rattle.per_samples_a.specs.Nesteds.{nested, nested_apart};
ghost use Rattle.per_samples_a.specs.declared.nested.Nested.TheVariants.{Record, Inner, Last};

use crate::alternative::{ALTERNATIVE_TAGS, Alternative};
use crate::pair::Pair;
use rasn_below::page::*;

/// CHOICE { record SEQUENCE { a BOOLEAN, b INTEGER }, inner Alternative, last [2] NULL }, whose tags are its own
#[derive(Clone, Copy, Debug, PartialEq)]
pub enum Nested {
    Record(Pair),
    Inner(Alternative),
    Last,
}

macro_rules! alternatives { ($to:ident $($with:ident)*) => { $to! { [$($with)*]
    SEQUENCE "record" Record: Pair [];
    0 of ALTERNATIVE_TAGS "inner" Inner: Alternative [];
    2 "last" Last;
} }; }

const VARIANTS: VariantLists = alternatives!(own_variants);

const BOUNDS: Bounds = alternatives!(own_alternative_bounds);

impl OfKind for Nested {
    type Kind = ChoiceKind;
}

impl Alternatives for Nested {
    const ALTERNATIVES: VariantLists = VARIANTS;

    ghost ALTERNATIVES = { variants_listed nested };

    ghost alternatives = { (nested, refl) };

    ghost chosen = { elim [
      | Record r ↦ chosen 0 (⟦<Pair as AsnType>⟧.value r)
      | Inner c ↦ chosen 1 (⟦<Alternative as AsnType>⟧.value c)
      | Last ↦ chosen 2 nothing
    ] };

    ghost depth = { λ _. 1 };

    ghost are_variants = { nested_apart };
}

impl CodedAlternatives for Nested {
    fn place(&self) -> Place {
        alternatives!(place_of_alternative self)
    }

    fn encode_alternative<E: Encoder>(&self, encoder: &mut E) -> Result<(), E::Error> {
        alternatives!(encode_own_alternative self encoder)
    }

    fn decode_alternative<D: Decoder>(decoder: &mut D, place: Place) -> Result<Self, D::Error> {
        alternatives!(decode_own_alternative decoder place)
    }
}

impl ByKind for Nested {}
