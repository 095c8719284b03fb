// Written by tools/asn1/compile: change the ASN.1, not this file.
//! PathPoint, of the module ITS-Container.

ghost use Rattle.its_container.specs.ItsContainer.{path_point_lists};
ghost use Rattle.rasn_below.specs.Page.{fields_of, slot_levels, slot_of, whole};
ghost use Rattle.std.specs.Prelude.{Some, [], max, refl, ◌∷◌};

use crate::aliases::PathDeltaTime;
use crate::delta_reference_position::DeltaReferencePosition;
use rasn_below::page::*;

/// PathPoint ::= SEQUENCE {
///     pathPosition DeltaReferencePosition,
///     pathDeltaTime PathDeltaTime OPTIONAL
/// }
#[derive(Debug, Drop, PartialEq)]
pub struct PathPoint {
    pub path_position: DeltaReferencePosition,
    pub path_delta_time: Option<PathDeltaTime>,
}

macro_rules! components { ($to:ident $($with:ident)*) => { $to! { [$($with)*]
    required 0 "pathPosition" path_position: DeltaReferencePosition [];
    optional 1 "pathDeltaTime" path_delta_time: Option<PathDeltaTime> [1..=65_535, ...];
} }; }

const FIELDS: FieldLists = components!(fields);

const BOUNDS: Bounds = components!(bounds);

impl Components for PathPoint {
    const COMPONENTS: FieldLists = FIELDS;

    ghost COMPONENTS = { fields_of path_point_lists };

    ghost components = { (path_point_lists, refl) };

    ghost contents = { λ x.
        Some (⟦<DeltaReferencePosition as AsnType>⟧.value x.path_position) ∷
        slot_of whole x.path_delta_time ∷
        [] };

    ghost depth = { λ x.
        (max (⟦<DeltaReferencePosition as AsnType>⟧.levels x.path_position)
        (max (slot_levels ⟦<PathDeltaTime as AsnType>⟧.levels x.path_delta_time) 0)) };
}

impl Record for PathPoint {
    fn encode_components<E: Encoder>(&self, encoder: &mut E) -> Result<(), E::Error> {
        components!(encode_components self encoder)
    }

    fn decode_components<D: Decoder>(decoder: &mut D) -> Result<Self, D::Error> {
        components!(decode_components decoder)
    }
}
