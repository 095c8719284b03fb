//! A SEQUENCE with an addition group and an optional addition.

ghost use Rattle.std.specs.Prelude.{[], ◌∷◌, Some, max, refl};
ghost use Rattle.rasn_below.specs.Page.{octets, truth, slot_of, deeper_of, slot_levels, fields_of};
ghost use Rattle.per_samples_b.specs.Outers.{outer3};

use crate::flagged::Flagged;
use rasn_below::page::*;

/// SEQUENCE {
///     first BOOLEAN, second BOOLEAN, ..., [[ flag BOOLEAN, octets OCTET STRING (SIZE (3)) ]],
///     after OCTET STRING (SIZE (3)) OPTIONAL
/// }
#[derive(Debug, Drop, PartialEq)]
pub struct Outer3 {
    pub first: bool,
    pub second: bool,
    pub group: Option<Flagged>,
    pub after: Option<OctetString>,
}

/// SEQUENCE OF outer3
pub type Outers3 = Vec<Outer3>;

macro_rules! components { ($to:ident $($with:ident)*) => { $to! { [$($with)*]
    required 0 "first" first: bool [];
    required 1 "second" second: bool [];
    ...;
    group 2 "group" group: Option<Flagged> [];
    optional 3 "after" after: Option<OctetString> [SIZE 3..=3];
} }; }

const FIELDS: FieldLists = components!(fields);

const BOUNDS: Bounds = components!(bounds);

impl Components for Outer3 {
    const COMPONENTS: FieldLists = FIELDS;

    ghost COMPONENTS = { fields_of outer3 };

    ghost components = { (outer3, refl) };

    ghost contents = { λ x. Some (truth x.first) ∷ Some (truth x.second) ∷ [] };

    ghost added = { λ x. slot_of ⟦<Flagged as AsnType>⟧.value x.group ∷ slot_of octets x.after ∷ [] };

    ghost depth = { λ x. deeper_of 0 (max (slot_levels ⟦<Flagged as AsnType>⟧.levels x.group)
        (max (slot_levels ⟦<OctetString as AsnType>⟧.levels x.after) 0)) };
}

impl Record for Outer3 {
    fn encode_components<E: Encoder>(&self, encoder: &mut E) -> Result<(), E::Error> {
        components!(encode_components self encoder)
    }

    fn decode_components<D: Decoder>(decoder: &mut D) -> Result<Self, D::Error> {
        components!(decode_components decoder)
    }
}
