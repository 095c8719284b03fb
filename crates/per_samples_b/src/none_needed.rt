//! A SEQUENCE of an extension marker alone.

ghost use Rattle.std.specs.Prelude.{[], refl};
ghost use Rattle.rasn_below.specs.Page.{fields_of};
ghost use Rattle.per_samples_b.specs.Needs.{none_needed};

use rasn_below::page::*;

/// SEQUENCE { ... }
#[derive(Clone, Copy, Debug, PartialEq)]
pub struct NoneNeeded {}

macro_rules! components { ($to:ident $($with:ident)*) => { $to! { [$($with)*]
    ...;
} }; }

const FIELDS: FieldLists = components!(fields);

const BOUNDS: Bounds = components!(bounds);

impl Components for NoneNeeded {
    const COMPONENTS: FieldLists = FIELDS;

    ghost COMPONENTS = { fields_of none_needed };

    ghost components = { (none_needed, refl) };

    ghost contents = { λ x. [] };
}

impl Record for NoneNeeded {
    fn encode_components<E: Encoder>(&self, encoder: &mut E) -> Result<(), E::Error> {
        components!(encode_components self encoder)
    }

    fn decode_components<D: Decoder>(decoder: &mut D) -> Result<Self, D::Error> {
        components!(decode_components decoder)
    }
}
