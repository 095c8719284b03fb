// Written by tools/asn1/compile: change the ASN.1, not this file.
//! LateralAcceleration, of the module ITS-Container.

ghost use Rattle.its_container.specs.ItsContainer.{lateral_acceleration_lists};
ghost use Rattle.rasn_below.specs.Page.{fields_of, whole};
ghost use Rattle.std.specs.Prelude.{Some, [], pos, refl, ◌∷◌};

use crate::aliases::{AccelerationConfidence, LateralAccelerationValue};
use rasn_below::page::*;

/// LateralAcceleration ::= SEQUENCE {
///     lateralAccelerationValue LateralAccelerationValue,
///     lateralAccelerationConfidence AccelerationConfidence
/// }
#[derive(Clone, Copy, Debug, PartialEq, Eq)]
pub struct LateralAcceleration {
    pub lateral_acceleration_value: LateralAccelerationValue,
    pub lateral_acceleration_confidence: AccelerationConfidence,
}

macro_rules! components { ($to:ident $($with:ident)*) => { $to! { [$($with)*]
    required 0 "lateralAccelerationValue" lateral_acceleration_value: LateralAccelerationValue [-160..=161];
    required 1 "lateralAccelerationConfidence" lateral_acceleration_confidence: AccelerationConfidence [0..=102];
} }; }

const FIELDS: FieldLists = components!(fields);

const BOUNDS: Bounds = components!(bounds);

impl Components for LateralAcceleration {
    const COMPONENTS: FieldLists = FIELDS;

    ghost COMPONENTS = { fields_of lateral_acceleration_lists };

    ghost components = { (lateral_acceleration_lists, refl) };

    ghost contents = { λ x.
        Some (whole x.lateral_acceleration_value) ∷
        Some (whole (pos x.lateral_acceleration_confidence)) ∷
        [] };
}

impl Record for LateralAcceleration {
    fn encode_components<E: Encoder>(&self, encoder: &mut E) -> Result<(), E::Error> {
        components!(encode_components self encoder)
    }

    fn decode_components<D: Decoder>(decoder: &mut D) -> Result<Self, D::Error> {
        components!(decode_components decoder)
    }
}
