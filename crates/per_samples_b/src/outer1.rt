//! A SEQUENCE with an extension marker and no additions.

ghost use Rattle.std.specs.Prelude.{[], ◌∷◌, Some, refl};
ghost use Rattle.rasn_below.specs.Page.{truth, fields_of};
ghost use Rattle.per_samples_b.specs.Outers.{outer1};

use rasn_below::page::*;

/// SEQUENCE { first BOOLEAN, second BOOLEAN, ... }
#[derive(Clone, Copy, Debug, PartialEq)]
pub struct Outer1 {
    pub first: bool,
    pub second: bool,
}

/// SEQUENCE OF outer1
pub type Outers1 = Vec<Outer1>;

macro_rules! components { ($to:ident $($with:ident)*) => { $to! { [$($with)*]
    required 0 "first" first: bool [];
    required 1 "second" second: bool [];
    ...;
} }; }

const FIELDS: FieldLists = components!(fields);

const BOUNDS: Bounds = components!(bounds);

impl Components for Outer1 {
    const COMPONENTS: FieldLists = FIELDS;

    ghost COMPONENTS = { fields_of outer1 };

    ghost components = { (outer1, refl) };

    ghost contents = { λ x. Some (truth x.first) ∷ Some (truth x.second) ∷ [] };
}

impl Record for Outer1 {
    fn encode_components<E: Encoder>(&self, encoder: &mut E) -> Result<(), E::Error> {
        components!(encode_components self encoder)
    }

    fn decode_components<D: Decoder>(decoder: &mut D) -> Result<Self, D::Error> {
        components!(decode_components decoder)
    }
}
