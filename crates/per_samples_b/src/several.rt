//! A CHOICE with more than one alternative before its extension marker and after it.

ghost use Rattle.std.specs.Prelude.{refl, []};
ghost use Rattle.rasn_below.specs.Page.{variants_listed};
ghost use Rattle.per_samples_b.specs.Several.{several, several_chosen};

use rasn_below::TagTree;
use rasn_below::page::*;

/// CHOICE { a BOOLEAN, none NULL, ..., small INTEGER (0..7), done NULL }
#[derive(Clone, Copy, Debug, PartialEq, Eq)]
pub enum Several {
    A(bool),
    Nothing,
    Small(u8),
    Done,
}

macro_rules! alternatives { ($to:ident $($with:ident)*) => { $to! { [$($with)*]
    0 "a" A: bool [];
    1 "none" Nothing;
    ...;
    2 "small" Small: u8 [0..=7];
    3 "done" Done;
} }; }

const VARIANTS: VariantLists = alternatives!(variants);

const BOUNDS: Bounds = alternatives!(alternative_bounds);

/// The tags of an untagged `Several`, those of its root (X.691 21.1).
pub(crate) const SEVERAL_TAGS: TagTree = alternatives!(tags_of_choice);

impl OfKind for Several {
    type Kind = ChoiceKind;
}

impl Alternatives for Several {
    const ALTERNATIVES: VariantLists = VARIANTS;

    ghost ALTERNATIVES = { variants_listed several };

    ghost alternatives = { (several, refl) };

    ghost chosen = { several_chosen };

    ghost are_variants = { record { distinct = refl; few = refl } };
}

impl CodedAlternatives for Several {
    fn place(&self) -> Place {
        alternatives!(place_of_alternative self)
    }

    fn encode_alternative<E: Encoder>(&self, encoder: &mut E) -> Result<(), E::Error> {
        alternatives!(encode_alternative self encoder)
    }

    fn decode_alternative<D: Decoder>(decoder: &mut D, place: Place) -> Result<Self, D::Error> {
        alternatives!(decode_alternative decoder place)
    }
}

impl ByKind for Several {}
