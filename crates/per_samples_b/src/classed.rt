//! A CHOICE whose alternatives are under tags of each class.

ghost use Rattle.std.specs.Prelude.{pos, refl};
ghost use Rattle.rasn_below.specs.Page.{chosen, nothing, octets, truth, variants_listed, whole};
ghost use Rattle.per_samples_b.specs.Classes.{classed, classed_apart};
ghost use Rattle.per_samples_b.specs.declared.classed.Classed.TheVariants.{Flag, Number, Spare, Last};

use rasn_below::page::*;

/// Classed ::= CHOICE { number [APPLICATION 1] INTEGER (0..7), flag BOOLEAN, spare [0] NULL,
/// last [PRIVATE 0] OCTET STRING (SIZE (2)) }
#[derive(Debug, Drop, PartialEq)]
pub enum Classed {
    Flag(bool),
    Number(u8),
    Spare,
    Last(OctetString),
}

macro_rules! alternatives { ($to:ident $($with:ident)*) => { $to! { [$($with)*]
    BOOL "flag" Flag: bool [];
    [APPLICATION 1] "number" Number: u8 [0..=7];
    0 "spare" Spare;
    [PRIVATE 0] "last" Last: OctetString [SIZE 2];
} }; }

const VARIANTS: VariantLists = alternatives!(own_variants);

const BOUNDS: Bounds = alternatives!(own_alternative_bounds);

impl OfKind for Classed {
    type Kind = ChoiceKind;
}

impl Alternatives for Classed {
    const ALTERNATIVES: VariantLists = VARIANTS;

    ghost ALTERNATIVES = { variants_listed classed };

    ghost alternatives = { (classed, refl) };

    ghost chosen = { elim [
      | Flag f ↦ chosen 0 (truth f)
      | Number n ↦ chosen 1 (whole (pos n))
      | Spare ↦ chosen 2 nothing
      | Last o ↦ chosen 3 (octets o)
    ] };

    ghost are_variants = { classed_apart };
}

impl CodedAlternatives for Classed {
    fn place(&self) -> Place {
        alternatives!(place_of_alternative self)
    }

    fn encode_alternative<E: Encoder>(&self, encoder: &mut E) -> Result<(), E::Error> {
        alternatives!(encode_own_alternative self encoder)
    }

    fn decode_alternative<D: Decoder>(decoder: &mut D, place: Place) -> Result<Self, D::Error> {
        alternatives!(decode_own_alternative decoder place)
    }
}

impl ByKind for Classed {}
