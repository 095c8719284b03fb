//! A CHOICE that has no tag of its own within another.

ghost use Rattle.std.specs.Prelude.{refl};
ghost use Rattle.rasn_below.specs.Page.{chosen, nothing, truth, variants_listed};
ghost use Rattle.per_samples_c.specs.Choices.{inner};
ghost use Rattle.per_samples_c.specs.declared.inner_choice.Inner.TheVariants.{P, Q};

use rasn_below::TagTree;
use rasn_below::page::*;

/// CHOICE { p [1] BOOLEAN, q [2] NULL }
#[derive(Clone, Copy, Debug, PartialEq, Eq)]
pub enum Inner {
    P(bool),
    Q,
}

macro_rules! alternatives { ($to:ident $($with:ident)*) => { $to! { [$($with)*]
    1 "p" P: bool [];
    2 "q" Q;
} }; }

const VARIANTS: VariantLists = alternatives!(variants);

const BOUNDS: Bounds = alternatives!(alternative_bounds);

/// The tags of an untagged `Inner`.
pub(crate) const INNER_TAGS: TagTree = alternatives!(tags_of_choice);

impl OfKind for Inner {
    type Kind = ChoiceKind;
}

impl Alternatives for Inner {
    const ALTERNATIVES: VariantLists = VARIANTS;

    ghost ALTERNATIVES = { variants_listed inner };

    ghost alternatives = { (inner, refl) };

    ghost chosen = { elim [ P p ↦ chosen 0 (truth p) | Q ↦ chosen 1 nothing ] };

    ghost are_variants = { record { distinct = refl; few = refl } };
}

impl CodedAlternatives for Inner {
    fn place(&self) -> Place {
        alternatives!(place_of_alternative self)
    }

    fn encode_alternative<E: Encoder>(&self, encoder: &mut E) -> Result<(), E::Error> {
        alternatives!(encode_alternative self encoder)
    }

    fn decode_alternative<D: Decoder>(decoder: &mut D, place: Place) -> Result<Self, D::Error> {
        alternatives!(decode_alternative decoder place)
    }
}

impl ByKind for Inner {}
