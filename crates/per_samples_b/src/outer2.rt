//! A SEQUENCE with an addition group.

ghost use Rattle.std.specs.Prelude.{[], ◌∷◌, Some, max, refl};
ghost use Rattle.rasn_below.specs.Page.{truth, slot_of, deeper_of, slot_levels, fields_of};
ghost use Rattle.per_samples_b.specs.Outers.{outer2};

use crate::flagged::Flagged;
use rasn_below::page::*;

/// SEQUENCE { first BOOLEAN, second BOOLEAN, ..., [[ flag BOOLEAN, octets OCTET STRING (SIZE (3)) ]] }
#[derive(Debug, Drop, PartialEq)]
pub struct Outer2 {
    pub first: bool,
    pub second: bool,
    pub group: Option<Flagged>,
}

macro_rules! components { ($to:ident $($with:ident)*) => { $to! { [$($with)*]
    required 0 "first" first: bool [];
    required 1 "second" second: bool [];
    ...;
    group 2 "group" group: Option<Flagged> [];
} }; }

const FIELDS: FieldLists = components!(fields);

const BOUNDS: Bounds = components!(bounds);

impl Components for Outer2 {
    const COMPONENTS: FieldLists = FIELDS;

    ghost COMPONENTS = { fields_of outer2 };

    ghost components = { (outer2, refl) };

    ghost contents = { λ x. Some (truth x.first) ∷ Some (truth x.second) ∷ [] };

    ghost added = { λ x. slot_of ⟦<Flagged as AsnType>⟧.value x.group ∷ [] };

    ghost depth = { λ x. deeper_of 0 (max (slot_levels ⟦<Flagged as AsnType>⟧.levels x.group) 0) };
}

impl Record for Outer2 {
    fn encode_components<E: Encoder>(&self, encoder: &mut E) -> Result<(), E::Error> {
        components!(encode_components self encoder)
    }

    fn decode_components<D: Decoder>(decoder: &mut D) -> Result<Self, D::Error> {
        components!(decode_components decoder)
    }
}
