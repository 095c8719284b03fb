//! A SEQUENCE with a group that has an extension marker of its own.

ghost use Rattle.std.specs.Prelude.{[], ◌∷◌, Some, max, refl};
ghost use Rattle.rasn_below.specs.Page.{truth, slot_of, slot_levels, deeper_of, fields_of};
ghost use Rattle.per_samples_c.specs.Groups.{grouped_1};

use crate::group1::Group1;
use rasn_below::page::*;

/// SEQUENCE { first BOOLEAN, ..., an addition group whose type is `Group1` }
#[derive(Clone, Copy, Debug, PartialEq)]
pub struct Grouped1 {
    pub first: bool,
    pub group: Option<Group1>,
}

macro_rules! components { ($to:ident $($with:ident)*) => { $to! { [$($with)*]
    required 0 "first" first: bool [];
    ...;
    group 1 "group" group: Option<Group1> [];
} }; }

const FIELDS: FieldLists = components!(fields);

const BOUNDS: Bounds = components!(bounds);

impl Components for Grouped1 {
    const COMPONENTS: FieldLists = FIELDS;

    ghost COMPONENTS = { fields_of grouped_1 };

    ghost components = { (grouped_1, refl) };

    ghost contents = { λ x. Some (truth x.first) ∷ [] };

    ghost added = { λ x. slot_of ⟦<Group1 as AsnType>⟧.value x.group ∷ [] };

    ghost depth = { λ x. deeper_of 0 (max (slot_levels ⟦<Group1 as AsnType>⟧.levels x.group) 0) };
}

impl Record for Grouped1 {
    fn encode_components<E: Encoder>(&self, encoder: &mut E) -> Result<(), E::Error> {
        components!(encode_components self encoder)
    }

    fn decode_components<D: Decoder>(decoder: &mut D) -> Result<Self, D::Error> {
        components!(decode_components decoder)
    }
}
