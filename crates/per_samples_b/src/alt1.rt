//! A CHOICE with an extension marker, and nothing after it.

ghost use Rattle.std.specs.Prelude.{[], refl};
ghost use Rattle.rasn_below.specs.Page.{variants_listed};
ghost use Rattle.per_samples_b.specs.First.{alt1, alt1_chosen};

use rasn_below::page::*;

/// Alt1 ::= CHOICE { a BOOLEAN, ... }
#[derive(Clone, Copy, Debug, PartialEq, Eq)]
pub enum Alt1 {
    A(bool),
}

macro_rules! alternatives { ($to:ident $($with:ident)*) => { $to! { [$($with)*]
    0 "a" A: bool [];
    ...;
} }; }

const VARIANTS: VariantLists = alternatives!(variants);

const BOUNDS: Bounds = alternatives!(alternative_bounds);

impl OfKind for Alt1 {
    type Kind = ChoiceKind;
}

impl Alternatives for Alt1 {
    const ALTERNATIVES: VariantLists = VARIANTS;

    ghost ALTERNATIVES = { variants_listed alt1 };

    ghost alternatives = { (alt1, refl) };

    ghost chosen = { alt1_chosen };

    ghost are_variants = { record { distinct = refl; few = refl } };
}

impl CodedAlternatives for Alt1 {
    fn place(&self) -> Place {
        alternatives!(place_of_alternative self)
    }

    fn encode_alternative<E: Encoder>(&self, encoder: &mut E) -> Result<(), E::Error> {
        alternatives!(encode_alternative self encoder)
    }

    fn decode_alternative<D: Decoder>(decoder: &mut D, place: Place) -> Result<Self, D::Error> {
        alternatives!(decode_alternative decoder place)
    }
}

impl ByKind for Alt1 {}
