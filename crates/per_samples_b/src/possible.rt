//! A group of additions that may hold nothing.

ghost use Rattle.std.specs.Prelude.{[], ◌∷◌, refl};
ghost use Rattle.rasn_below.specs.Page.{truth, slot_of, fields_of};
ghost use Rattle.per_samples_b.specs.Groups.{possible};

use rasn_below::page::*;

/// [[ x BOOLEAN OPTIONAL ]]
#[derive(Clone, Copy, Debug, PartialEq)]
pub struct Possible {
    pub x: Option<bool>,
}

macro_rules! components { ($to:ident $($with:ident)*) => { $to! { [$($with)*]
    optional 0 "x" x: Option<bool> [];
} }; }

const FIELDS: FieldLists = components!(fields);

const BOUNDS: Bounds = components!(bounds);

impl Components for Possible {
    const COMPONENTS: FieldLists = FIELDS;

    ghost COMPONENTS = { fields_of possible };

    ghost components = { (possible, refl) };

    ghost contents = { λ x. slot_of truth x.x ∷ [] };
}

impl Record for Possible {
    fn encode_components<E: Encoder>(&self, encoder: &mut E) -> Result<(), E::Error> {
        components!(encode_components self encoder)
    }

    fn decode_components<D: Decoder>(decoder: &mut D) -> Result<Self, D::Error> {
        components!(decode_components decoder)
    }
}
