//! A CHOICE of an untagged CHOICE and of types under their own tags, before its extension marker and after it.
#![tactic(auto, unfolding(rasn_below::specs::Types::smallest, rasn_below::specs::Types::least_of))]

ghost use Rattle.std.specs.Prelude.{refl};
ghost use Rattle.rasn_below.specs.Page.{chosen, chosen_behind, octets, truth, variants_listed};
ghost use Rattle.per_samples_b.specs.Picks.{pick, pick_apart};
ghost use Rattle.per_samples_b.specs.declared.pick.Pick.TheVariants.{Flag, Octets, Spare, Inner};

use crate::inner::Inner;
use crate::spare::{SPARE_TAGS, Spare};
use rasn_below::TagTree;
use rasn_below::page::*;

/// Pick ::= CHOICE { flag BOOLEAN, octets OCTET STRING (SIZE (2)), ..., spare Spare, inner Inner }, whose tags are its
/// own
#[derive(Debug, Drop, PartialEq)]
pub enum Pick {
    Flag(bool),
    Octets(OctetString),
    Spare(Spare),
    Inner(Inner),
}

macro_rules! alternatives { ($to:ident $($with:ident)*) => { $to! { [$($with)*]
    BOOL "flag" Flag: bool [];
    OCTET_STRING "octets" Octets: OctetString [SIZE 2];
    ...;
    2 of SPARE_TAGS "spare" Spare: Spare [];
    SEQUENCE "inner" Inner: Inner [];
} }; }

const VARIANTS: VariantLists = alternatives!(own_variants);

const BOUNDS: Bounds = alternatives!(own_alternative_bounds);

/// The tags of an untagged `Pick`.
pub(crate) const PICK_TAGS: TagTree = alternatives!(own_tags_of_choice);

impl OfKind for Pick {
    type Kind = ChoiceKind;
}

impl Alternatives for Pick {
    const ALTERNATIVES: VariantLists = VARIANTS;

    ghost ALTERNATIVES = { variants_listed pick };

    ghost alternatives = { (pick, refl) };

    ghost chosen = { elim [
      | Flag f ↦ chosen 0 (truth f)
      | Octets o ↦ chosen 1 (octets o)
      | Spare s ↦ chosen_behind 0 (⟦<Spare as AsnType>⟧.value s)
      | Inner i ↦ chosen_behind 1 (⟦<Inner as AsnType>⟧.value i)
    ] };

    ghost depth = { λ _. 1 };

    ghost are_variants = { pick_apart };
}

impl CodedAlternatives for Pick {
    fn place(&self) -> Place {
        alternatives!(place_of_alternative self)
    }

    fn encode_alternative<E: Encoder>(&self, encoder: &mut E) -> Result<(), E::Error> {
        alternatives!(encode_own_alternative self encoder)
    }

    fn decode_alternative<D: Decoder>(decoder: &mut D, place: Place) -> Result<Self, D::Error> {
        alternatives!(decode_own_alternative decoder place)
    }
}

impl ByKind for Pick {}
