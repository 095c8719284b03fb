//! A SEQUENCE with lists in it.

ghost use Rattle.std.specs.Prelude.{refl, max, [], ◌∷◌, Some, pos};
ghost use Rattle.rasn_below.specs.Page.{truth, whole, fields_of};
ghost use Rattle.per_samples_c.specs.Elements.{elements};

use crate::triple::Triple;
use rasn_below::page::*;

/// SEQUENCE {
///     flag BOOLEAN, fixed SEQUENCE (SIZE (2)) OF Triple, ranged SEQUENCE (SIZE (1..4)) OF Triple,
///     trailer INTEGER (0..255)
/// }
#[derive(Debug, Drop, PartialEq)]
pub struct Elements {
    pub flag: bool,
    pub fixed: Vec<Triple>,
    pub ranged: Vec<Triple>,
    pub trailer: u8,
}

macro_rules! components { ($to:ident $($with:ident)*) => { $to! { [$($with)*]
    required 0 "flag" flag: bool [];
    required 1 "fixed" fixed: Vec<Triple> [SIZE 2..=2];
    required 2 "ranged" ranged: Vec<Triple> [SIZE 1..=4];
    required 3 "trailer" trailer: u8 [0..=255];
} }; }

const FIELDS: FieldLists = components!(fields);

const BOUNDS: Bounds = components!(bounds);

impl Components for Elements {
    const COMPONENTS: FieldLists = FIELDS;

    ghost COMPONENTS = { fields_of elements };

    ghost components = { (elements, refl) };

    ghost contents = { λ x.
        Some (truth x.flag) ∷ Some (⟦<Vec<Triple> as AsnType>⟧.value x.fixed) ∷
        Some (⟦<Vec<Triple> as AsnType>⟧.value x.ranged) ∷ Some (whole (pos x.trailer)) ∷ [] };

    ghost depth = { λ x.
        max (⟦<Vec<Triple> as AsnType>⟧.levels x.fixed) (⟦<Vec<Triple> as AsnType>⟧.levels x.ranged) };
}

impl Record for Elements {
    fn encode_components<E: Encoder>(&self, encoder: &mut E) -> Result<(), E::Error> {
        components!(encode_components self encoder)
    }

    fn decode_components<D: Decoder>(decoder: &mut D) -> Result<Self, D::Error> {
        components!(decode_components decoder)
    }
}
