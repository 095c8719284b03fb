//! A group with an addition.

ghost use Rattle.std.specs.Prelude.{[], ◌∷◌, max, refl};
ghost use Rattle.rasn_below.specs.Page.{truth, slot_of, deeper_of, slot_levels, fields_of};
ghost use Rattle.per_samples_c.specs.Groups.{group_2};

use rasn_below::page::*;

/// SEQUENCE { x BOOLEAN OPTIONAL, ..., y BOOLEAN OPTIONAL }
#[derive(Clone, Copy, Debug, PartialEq)]
pub struct Group2 {
    pub x: Option<bool>,
    pub y: Option<bool>,
}

macro_rules! components { ($to:ident $($with:ident)*) => { $to! { [$($with)*]
    optional 0 "x" x: Option<bool> [];
    ...;
    optional 1 "y" y: Option<bool> [];
} }; }

const FIELDS: FieldLists = components!(fields);

const BOUNDS: Bounds = components!(bounds);

impl Components for Group2 {
    const COMPONENTS: FieldLists = FIELDS;

    ghost COMPONENTS = { fields_of group_2 };

    ghost components = { (group_2, refl) };

    ghost contents = { λ x. slot_of truth x.x ∷ [] };

    ghost added = { λ x. slot_of truth x.y ∷ [] };

    ghost depth = { λ x. deeper_of (max (slot_levels ⟦<bool as AsnType>⟧.levels x.x) 0)
        (max (slot_levels ⟦<bool as AsnType>⟧.levels x.y) 0) };
}

impl Record for Group2 {
    fn encode_components<E: Encoder>(&self, encoder: &mut E) -> Result<(), E::Error> {
        components!(encode_components self encoder)
    }

    fn decode_components<D: Decoder>(decoder: &mut D) -> Result<Self, D::Error> {
        components!(decode_components decoder)
    }
}
