//! ActionArea.

ghost use Rattle.std.specs.Prelude.{pos, refl};
ghost use Rattle.rasn_below.specs.Page.{whole, nothing, chosen, variants_listed};
ghost use Rattle.its_header.specs.Areas.{area};
ghost use Rattle.its_header.specs.declared.area.ActionArea.TheVariants.{Radius, Corner, Everywhere};

use crate::position::ReferencePositionLite;
use rasn_below::TagTree;
use rasn_below::page::*;

/// ActionArea ::= CHOICE { radius INTEGER (1..1000), corner ReferencePositionLite, everywhere NULL }
#[derive(Clone, Copy, Debug, PartialEq, Eq)]
pub enum ActionArea {
    Radius(u16),
    Corner(ReferencePositionLite),
    Everywhere,
}

macro_rules! alternatives { ($to:ident $($with:ident)*) => { $to! { [$($with)*]
    0 "radius" Radius: u16 [1..=1000];
    1 "corner" Corner: ReferencePositionLite [];
    2 "everywhere" Everywhere;
} }; }

const VARIANTS: VariantLists = alternatives!(variants);

const BOUNDS: Bounds = alternatives!(alternative_bounds);

/// The tags of an untagged `ActionArea`.
pub(crate) const AREA_TAGS: TagTree = alternatives!(tags_of_choice);

impl OfKind for ActionArea {
    type Kind = ChoiceKind;
}

impl Alternatives for ActionArea {
    const ALTERNATIVES: VariantLists = VARIANTS;

    ghost ALTERNATIVES = { variants_listed area };

    ghost alternatives = { (area, refl) };

    ghost chosen = { elim [
      | Radius r ↦ chosen 0 (whole (pos r))
      | Corner p ↦ chosen 1 (⟦<ReferencePositionLite as AsnType>⟧.value p)
      | Everywhere ↦ chosen 2 nothing
    ] };

    ghost depth = { λ _. 1 };

    ghost are_variants = { record { distinct = refl; few = refl } };
}

impl CodedAlternatives for ActionArea {
    fn place(&self) -> Place {
        alternatives!(place_of_alternative self)
    }

    fn encode_alternative<E: Encoder>(&self, encoder: &mut E) -> Result<(), E::Error> {
        alternatives!(encode_alternative self encoder)
    }

    fn decode_alternative<D: Decoder>(decoder: &mut D, place: Place) -> Result<Self, D::Error> {
        alternatives!(decode_alternative decoder place)
    }
}

impl ByKind for ActionArea {}
