//! A CHOICE with an extension marker, and one alternative after it.

ghost use Rattle.std.specs.Prelude.{refl, []};
ghost use Rattle.rasn_below.specs.Page.{variants_listed};
ghost use Rattle.per_samples_b.specs.Second.{alt2, alt2_chosen};

use rasn_below::page::*;

/// Alt2 ::= CHOICE { a BOOLEAN, ..., b BOOLEAN }
#[derive(Clone, Copy, Debug, PartialEq, Eq)]
pub enum Alt2 {
    A(bool),
    B(bool),
}

macro_rules! alternatives { ($to:ident $($with:ident)*) => { $to! { [$($with)*]
    0 "a" A: bool [];
    ...;
    1 "b" B: bool [];
} }; }

const VARIANTS: VariantLists = alternatives!(variants);

const BOUNDS: Bounds = alternatives!(alternative_bounds);

impl OfKind for Alt2 {
    type Kind = ChoiceKind;
}

impl Alternatives for Alt2 {
    const ALTERNATIVES: VariantLists = VARIANTS;

    ghost ALTERNATIVES = { variants_listed alt2 };

    ghost alternatives = { (alt2, refl) };

    ghost chosen = { alt2_chosen };

    ghost are_variants = { record { distinct = refl; few = refl } };
}

impl CodedAlternatives for Alt2 {
    fn place(&self) -> Place {
        alternatives!(place_of_alternative self)
    }

    fn encode_alternative<E: Encoder>(&self, encoder: &mut E) -> Result<(), E::Error> {
        alternatives!(encode_alternative self encoder)
    }

    fn decode_alternative<D: Decoder>(decoder: &mut D, place: Place) -> Result<Self, D::Error> {
        alternatives!(decode_alternative decoder place)
    }
}

impl ByKind for Alt2 {}
