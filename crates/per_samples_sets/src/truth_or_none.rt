//! A CHOICE that has no tag of its own.

ghost use Rattle.std.specs.Prelude.{refl};
ghost use Rattle.rasn_below.specs.Page.{variants_listed};
ghost use Rattle.per_samples_sets.specs.Sets.{truth_or_none, truth_or_none_chosen};

use rasn_below::TagTree;
use rasn_below::page::*;

/// CHOICE { m [3] BOOLEAN, n [9] NULL }
#[derive(Clone, Copy, Debug, PartialEq, Eq)]
pub enum TruthOrNone {
    M(bool),
    N,
}

macro_rules! alternatives { ($to:ident $($with:ident)*) => { $to! { [$($with)*]
    3 "m" M: bool [];
    9 "n" N;
} }; }

const VARIANTS: VariantLists = alternatives!(variants);

const BOUNDS: Bounds = alternatives!(alternative_bounds);

/// The tags of a `TruthOrNone`.
pub(crate) const TAGS: TagTree = alternatives!(tags_of_choice);

impl OfKind for TruthOrNone {
    type Kind = ChoiceKind;
}

impl Alternatives for TruthOrNone {
    const ALTERNATIVES: VariantLists = VARIANTS;

    ghost ALTERNATIVES = { variants_listed truth_or_none };

    ghost alternatives = { (truth_or_none, refl) };

    ghost chosen = { truth_or_none_chosen };

    ghost are_variants = { record { distinct = refl; few = refl } };
}

impl CodedAlternatives for TruthOrNone {
    fn place(&self) -> Place {
        alternatives!(place_of_alternative self)
    }

    fn encode_alternative<E: Encoder>(&self, encoder: &mut E) -> Result<(), E::Error> {
        alternatives!(encode_alternative self encoder)
    }

    fn decode_alternative<D: Decoder>(decoder: &mut D, place: Place) -> Result<Self, D::Error> {
        alternatives!(decode_alternative decoder place)
    }
}

impl ByKind for TruthOrNone {}
