//! A SEQUENCE with an addition that has a default.

ghost use Rattle.std.specs.Prelude.{[], ◌∷◌, Some, pos, refl};
ghost use Rattle.rasn_below.specs.Page.{whole, fields_of};
ghost use Rattle.per_samples_b.specs.Needs.{added_default};

use rasn_below::page::*;

/// SEQUENCE { ..., a INTEGER (0..7) DEFAULT 3 }
#[derive(Clone, Copy, Debug, PartialEq)]
pub struct AddedDefault {
    pub a: u8,
}

macro_rules! components { ($to:ident $($with:ident)*) => { $to! { [$($with)*]
    ...;
    default 0 "a" a: u8 [0..=7 DEFAULT 3_u8];
} }; }

const FIELDS: FieldLists = components!(fields);

const BOUNDS: Bounds = components!(bounds);

impl Components for AddedDefault {
    const COMPONENTS: FieldLists = FIELDS;

    ghost COMPONENTS = { fields_of added_default };

    ghost components = { (added_default, refl) };

    ghost contents = { λ x. [] };

    ghost added = { λ x. Some (whole (pos x.a)) ∷ [] };
}

impl Record for AddedDefault {
    fn encode_components<E: Encoder>(&self, encoder: &mut E) -> Result<(), E::Error> {
        components!(encode_components self encoder)
    }

    fn decode_components<D: Decoder>(decoder: &mut D) -> Result<Self, D::Error> {
        components!(decode_components decoder)
    }
}
