// Written by tools/asn1/compile: change the ASN.1, not this file.
//! VerticalAcceleration, of the module ITS-Container.

ghost use Rattle.its_container.specs.ItsContainer.{vertical_acceleration_lists};
ghost use Rattle.rasn_below.specs.Page.{fields_of, whole};
ghost use Rattle.std.specs.Prelude.{Some, [], pos, refl, ◌∷◌};

use crate::aliases::{AccelerationConfidence, VerticalAccelerationValue};
use rasn_below::page::*;

/// VerticalAcceleration ::= SEQUENCE {
///     verticalAccelerationValue VerticalAccelerationValue,
///     verticalAccelerationConfidence AccelerationConfidence
/// }
#[derive(Clone, Copy, Debug, PartialEq, Eq)]
pub struct VerticalAcceleration {
    pub vertical_acceleration_value: VerticalAccelerationValue,
    pub vertical_acceleration_confidence: AccelerationConfidence,
}

macro_rules! components { ($to:ident $($with:ident)*) => { $to! { [$($with)*]
    required 0 "verticalAccelerationValue" vertical_acceleration_value: VerticalAccelerationValue [-160..=161];
    required 1 "verticalAccelerationConfidence" vertical_acceleration_confidence: AccelerationConfidence [0..=102];
} }; }

const FIELDS: FieldLists = components!(fields);

const BOUNDS: Bounds = components!(bounds);

impl Components for VerticalAcceleration {
    const COMPONENTS: FieldLists = FIELDS;

    ghost COMPONENTS = { fields_of vertical_acceleration_lists };

    ghost components = { (vertical_acceleration_lists, refl) };

    ghost contents = { λ x.
        Some (whole x.vertical_acceleration_value) ∷
        Some (whole (pos x.vertical_acceleration_confidence)) ∷
        [] };
}

impl Record for VerticalAcceleration {
    fn encode_components<E: Encoder>(&self, encoder: &mut E) -> Result<(), E::Error> {
        components!(encode_components self encoder)
    }

    fn decode_components<D: Decoder>(decoder: &mut D) -> Result<Self, D::Error> {
        components!(decode_components decoder)
    }
}
