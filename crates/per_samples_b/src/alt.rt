//! A CHOICE with a SEQUENCE before its extension marker and after it.

ghost use Rattle.std.specs.Prelude.{refl, []};
ghost use Rattle.rasn_below.specs.Page.{truth, chosen, chosen_behind, variants_listed};
ghost use Rattle.per_samples_b.specs.Alternatives.{alt};
ghost use Rattle.per_samples_b.specs.declared.alt.Alt.TheVariants.{Added, Inner, Plain};

use crate::inner::Inner;
use rasn_below::page::*;

/// Alt ::= CHOICE { plain BOOLEAN, inner Inner, ..., added Inner }
#[derive(Debug, Drop, PartialEq)]
pub enum Alt {
    Plain(bool),
    Inner(Inner),
    Added(Inner),
}

macro_rules! alternatives { ($to:ident $($with:ident)*) => { $to! { [$($with)*]
    0 "plain" Plain: bool [];
    1 "inner" Inner: Inner [];
    ...;
    2 "added" Added: Inner [];
} }; }

const VARIANTS: VariantLists = alternatives!(variants);

const BOUNDS: Bounds = alternatives!(alternative_bounds);

impl OfKind for Alt {
    type Kind = ChoiceKind;
}

impl Alternatives for Alt {
    const ALTERNATIVES: VariantLists = VARIANTS;

    ghost ALTERNATIVES = { variants_listed alt };

    ghost alternatives = { (alt, refl) };

    ghost chosen = { elim [
      | Plain p ↦ chosen 0 (truth p)
      | Inner i ↦ chosen 1 (⟦<Inner as AsnType>⟧.value i)
      | Added i ↦ chosen_behind 0 (⟦<Inner as AsnType>⟧.value i)
    ] };

    ghost depth = { λ _. 1 };

    ghost are_variants = { record { distinct = refl; few = refl } };
}

impl CodedAlternatives for Alt {
    fn place(&self) -> Place {
        alternatives!(place_of_alternative self)
    }

    fn encode_alternative<E: Encoder>(&self, encoder: &mut E) -> Result<(), E::Error> {
        alternatives!(encode_alternative self encoder)
    }

    fn decode_alternative<D: Decoder>(decoder: &mut D, place: Place) -> Result<Self, D::Error> {
        alternatives!(decode_alternative decoder place)
    }
}

impl ByKind for Alt {}
