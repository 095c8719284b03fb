//! A SEQUENCE with an alternative before the extension marker of a CHOICE, and one after it.

ghost use Rattle.std.specs.Prelude.{refl, [], ◌∷◌, Some, pos};
ghost use Rattle.rasn_below.specs.Page.{truth, whole, fields_of};
ghost use Rattle.per_samples_b.specs.Alternatives.{two_alternatives};

use crate::alt::Alt;
use rasn_below::page::*;

/// SEQUENCE { first BOOLEAN, root Alt, extension Alt, trailer INTEGER (0..255) }
#[derive(Debug, Drop, PartialEq)]
pub struct TwoAlternatives {
    pub first: bool,
    pub root: Alt,
    pub extension: Alt,
    pub trailer: u8,
}

macro_rules! components { ($to:ident $($with:ident)*) => { $to! { [$($with)*]
    required 0 "first" first: bool [];
    required 1 "root" root: Alt [];
    required 2 "extension" extension: Alt [];
    required 3 "trailer" trailer: u8 [0..=255];
} }; }

const FIELDS: FieldLists = components!(fields);

const BOUNDS: Bounds = components!(bounds);

impl Components for TwoAlternatives {
    const COMPONENTS: FieldLists = FIELDS;

    ghost COMPONENTS = { fields_of two_alternatives };

    ghost components = { (two_alternatives, refl) };

    ghost contents = { λ x.
        Some (truth x.first) ∷ Some (⟦<Alt as AsnType>⟧.value x.root) ∷
        Some (⟦<Alt as AsnType>⟧.value x.extension) ∷ Some (whole (pos x.trailer)) ∷ [] };

    ghost depth = { λ _. 2 };
}

impl Record for TwoAlternatives {
    fn encode_components<E: Encoder>(&self, encoder: &mut E) -> Result<(), E::Error> {
        components!(encode_components self encoder)
    }

    fn decode_components<D: Decoder>(decoder: &mut D) -> Result<Self, D::Error> {
        components!(decode_components decoder)
    }
}
