// Written by tools/asn1/compile: change the ASN.1, not this file.
//! LongitudinalAcceleration, of the module ITS-Container.

ghost use Rattle.its_container.specs.ItsContainer.{longitudinal_acceleration_lists};
ghost use Rattle.rasn_below.specs.Page.{fields_of, whole};
ghost use Rattle.std.specs.Prelude.{Some, [], pos, refl, ◌∷◌};

use crate::aliases::{AccelerationConfidence, LongitudinalAccelerationValue};
use rasn_below::page::*;

/// LongitudinalAcceleration ::= SEQUENCE {
///     longitudinalAccelerationValue LongitudinalAccelerationValue,
///     longitudinalAccelerationConfidence AccelerationConfidence
/// }
#[derive(Clone, Copy, Debug, PartialEq, Eq)]
pub struct LongitudinalAcceleration {
    pub longitudinal_acceleration_value: LongitudinalAccelerationValue,
    pub longitudinal_acceleration_confidence: AccelerationConfidence,
}

macro_rules! components { ($to:ident $($with:ident)*) => { $to! { [$($with)*]
    required 0 "longitudinalAccelerationValue" longitudinal_acceleration_value: LongitudinalAccelerationValue
        [-160..=161];
    required 1 "longitudinalAccelerationConfidence" longitudinal_acceleration_confidence: AccelerationConfidence
        [0..=102];
} }; }

const FIELDS: FieldLists = components!(fields);

const BOUNDS: Bounds = components!(bounds);

impl Components for LongitudinalAcceleration {
    const COMPONENTS: FieldLists = FIELDS;

    ghost COMPONENTS = { fields_of longitudinal_acceleration_lists };

    ghost components = { (longitudinal_acceleration_lists, refl) };

    ghost contents = { λ x.
        Some (whole x.longitudinal_acceleration_value) ∷
        Some (whole (pos x.longitudinal_acceleration_confidence)) ∷
        [] };
}

impl Record for LongitudinalAcceleration {
    fn encode_components<E: Encoder>(&self, encoder: &mut E) -> Result<(), E::Error> {
        components!(encode_components self encoder)
    }

    fn decode_components<D: Decoder>(decoder: &mut D) -> Result<Self, D::Error> {
        components!(decode_components decoder)
    }
}
