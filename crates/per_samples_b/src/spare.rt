//! A CHOICE whose alternatives' tags are written.

ghost use Rattle.std.specs.Prelude.{pos, refl};
ghost use Rattle.rasn_below.specs.Page.{chosen, nothing, variants_listed, whole};
ghost use Rattle.per_samples_b.specs.Picks.{spare};
ghost use Rattle.per_samples_b.specs.declared.spare.Spare.TheVariants.{Low, Empty};

use rasn_below::TagTree;
use rasn_below::page::*;

/// Spare ::= CHOICE { low [2] INTEGER (0..7), empty [3] NULL }
#[derive(Clone, Copy, Debug, PartialEq, Eq)]
pub enum Spare {
    Low(u8),
    Empty,
}

macro_rules! alternatives { ($to:ident $($with:ident)*) => { $to! { [$($with)*]
    2 "low" Low: u8 [0..=7];
    3 "empty" Empty;
} }; }

const VARIANTS: VariantLists = alternatives!(variants);

const BOUNDS: Bounds = alternatives!(alternative_bounds);

/// The tags of an untagged `Spare`.
pub(crate) const SPARE_TAGS: TagTree = alternatives!(tags_of_choice);

impl OfKind for Spare {
    type Kind = ChoiceKind;
}

impl Alternatives for Spare {
    const ALTERNATIVES: VariantLists = VARIANTS;

    ghost ALTERNATIVES = { variants_listed spare };

    ghost alternatives = { (spare, refl) };

    ghost chosen = { elim [ Low l ↦ chosen 0 (whole (pos l)) | Empty ↦ chosen 1 nothing ] };

    ghost are_variants = { record { distinct = refl; few = refl } };
}

impl CodedAlternatives for Spare {
    fn place(&self) -> Place {
        alternatives!(place_of_alternative self)
    }

    fn encode_alternative<E: Encoder>(&self, encoder: &mut E) -> Result<(), E::Error> {
        alternatives!(encode_alternative self encoder)
    }

    fn decode_alternative<D: Decoder>(decoder: &mut D, place: Place) -> Result<Self, D::Error> {
        alternatives!(decode_alternative decoder place)
    }
}

impl ByKind for Spare {}
