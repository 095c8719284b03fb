//! A SEQUENCE with a group that may hold nothing.

ghost use Rattle.std.specs.Prelude.{[], ◌∷◌, Some, max, refl};
ghost use Rattle.rasn_below.specs.Page.{truth, slot_of, slot_levels, deeper_of, fields_of};
ghost use Rattle.per_samples_b.specs.Groups.{grouped};

use crate::possible::Possible;
use rasn_below::page::*;

/// SEQUENCE { first BOOLEAN, ..., [[ x BOOLEAN OPTIONAL ]] }
#[derive(Clone, Copy, Debug, PartialEq)]
pub struct Grouped {
    pub first: bool,
    pub group: Option<Possible>,
}

macro_rules! components { ($to:ident $($with:ident)*) => { $to! { [$($with)*]
    required 0 "first" first: bool [];
    ...;
    group 1 "group" group: Option<Possible> [];
} }; }

const FIELDS: FieldLists = components!(fields);

const BOUNDS: Bounds = components!(bounds);

impl Components for Grouped {
    const COMPONENTS: FieldLists = FIELDS;

    ghost COMPONENTS = { fields_of grouped };

    ghost components = { (grouped, refl) };

    ghost contents = { λ x. Some (truth x.first) ∷ [] };

    ghost added = { λ x. slot_of ⟦<Possible as AsnType>⟧.value x.group ∷ [] };

    ghost depth = { λ x. deeper_of 0 (max (slot_levels ⟦<Possible as AsnType>⟧.levels x.group) 0) };
}

impl Record for Grouped {
    fn encode_components<E: Encoder>(&self, encoder: &mut E) -> Result<(), E::Error> {
        components!(encode_components self encoder)
    }

    fn decode_components<D: Decoder>(decoder: &mut D) -> Result<Self, D::Error> {
        components!(decode_components decoder)
    }
}
