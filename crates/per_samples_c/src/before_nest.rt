//! A SEQUENCE with an extension marker, before a recursive addition came.

ghost use Rattle.std.specs.Prelude.{[], ◌∷◌, Some, refl};
ghost use Rattle.rasn_below.specs.Page.{truth, fields_of};
ghost use Rattle.per_samples_c.specs.AddedNests.{before_nest};

use rasn_below::page::*;

/// SEQUENCE { a BOOLEAN, ... }
#[derive(Clone, Copy, Debug, PartialEq)]
pub struct BeforeNest {
    pub a: bool,
}

macro_rules! components { ($to:ident $($with:ident)*) => { $to! { [$($with)*]
    required 0 "a" a: bool [];
    ...;
} }; }

const FIELDS: FieldLists = components!(fields);

const BOUNDS: Bounds = components!(bounds);

impl Components for BeforeNest {
    const COMPONENTS: FieldLists = FIELDS;

    ghost COMPONENTS = { fields_of before_nest };

    ghost components = { (before_nest, refl) };

    ghost contents = { λ x. Some (truth x.a) ∷ [] };
}

impl Record for BeforeNest {
    fn encode_components<E: Encoder>(&self, encoder: &mut E) -> Result<(), E::Error> {
        components!(encode_components self encoder)
    }

    fn decode_components<D: Decoder>(decoder: &mut D) -> Result<Self, D::Error> {
        components!(decode_components decoder)
    }
}
