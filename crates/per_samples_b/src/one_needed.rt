//! A SEQUENCE with a required addition and an optional one.

ghost use Rattle.std.specs.Prelude.{[], ◌∷◌, Some, max, refl};
ghost use Rattle.rasn_below.specs.Page.{truth, slot_of, slot_levels, deeper_of, fields_of};
ghost use Rattle.per_samples_b.specs.Needs.{one_needed};

use rasn_below::page::*;

/// SEQUENCE { ..., a BOOLEAN, b BOOLEAN OPTIONAL }
#[derive(Clone, Copy, Debug, PartialEq)]
pub struct OneNeeded {
    pub a: bool,
    pub b: Option<bool>,
}

macro_rules! components { ($to:ident $($with:ident)*) => { $to! { [$($with)*]
    ...;
    required 0 "a" a: bool [];
    optional 1 "b" b: Option<bool> [];
} }; }

const FIELDS: FieldLists = components!(fields);

const BOUNDS: Bounds = components!(bounds);

impl Components for OneNeeded {
    const COMPONENTS: FieldLists = FIELDS;

    ghost COMPONENTS = { fields_of one_needed };

    ghost components = { (one_needed, refl) };

    ghost contents = { λ x. [] };

    ghost added = { λ x. Some (truth x.a) ∷ slot_of truth x.b ∷ [] };

    ghost depth = { λ x. deeper_of 0 (max 0 (max (slot_levels ⟦<bool as AsnType>⟧.levels x.b) 0)) };
}

impl Record for OneNeeded {
    fn encode_components<E: Encoder>(&self, encoder: &mut E) -> Result<(), E::Error> {
        components!(encode_components self encoder)
    }

    fn decode_components<D: Decoder>(decoder: &mut D) -> Result<Self, D::Error> {
        components!(decode_components decoder)
    }
}
