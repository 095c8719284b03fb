//! A SEQUENCE of two lists, which have defaults with elements, of BOOLEANs and of records.

ghost use Rattle.std.specs.Prelude.{[], ◌∷◌, Some, max, refl};
ghost use Rattle.rasn_below.specs.Page.{fields_of};
ghost use Rattle.per_samples_c.specs.Defaults.{default_elements};

use crate::default_outer1::TrueFalse;
use per_samples_b::outer1::Outer1;
use rasn_below::page::*;
use rasn_constructed::elements;

/// SEQUENCE {
///     flags SEQUENCE (SIZE (0..3)) OF BOOLEAN DEFAULT { TRUE, FALSE },
///     outers SEQUENCE OF outer1 DEFAULT { (TRUE, FALSE) }
/// }
#[derive(Debug, Drop, PartialEq)]
pub struct DefaultElements {
    pub flags: Vec<bool>,
    pub outers: Vec<Outer1>,
}

macro_rules! components { ($to:ident $($with:ident)*) => { $to! { [$($with)*]
    default 0 "flags" flags: Vec<bool> [SIZE 0..=3 DEFAULT elements![true, false]];
    default 1 "outers" outers: Vec<Outer1> [DEFAULT elements![TrueFalse]];
} }; }

const FIELDS: FieldLists = components!(fields);

const BOUNDS: Bounds = components!(bounds);

impl Components for DefaultElements {
    const COMPONENTS: FieldLists = FIELDS;

    ghost COMPONENTS = { fields_of default_elements };

    ghost components = { (default_elements, refl) };

    ghost contents = { λ x. Some (⟦<Vec<bool> as AsnType>⟧.value x.flags) ∷
        Some (⟦<Vec<Outer1> as AsnType>⟧.value x.outers) ∷ [] };

    ghost depth = { λ x. max (⟦<Vec<bool> as AsnType>⟧.levels x.flags) (⟦<Vec<Outer1> as AsnType>⟧.levels x.outers) };
}

impl Record for DefaultElements {
    fn encode_components<E: Encoder>(&self, encoder: &mut E) -> Result<(), E::Error> {
        components!(encode_components self encoder)
    }

    fn decode_components<D: Decoder>(decoder: &mut D) -> Result<Self, D::Error> {
        components!(decode_components decoder)
    }
}
