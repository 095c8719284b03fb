// Written by tools/asn1/compile: change the ASN.1, not this file.
//! SteeringWheelAngle, of the module ITS-Container.

ghost use Rattle.its_container.specs.ItsContainer.{steering_wheel_angle_lists};
ghost use Rattle.rasn_below.specs.Page.{fields_of, whole};
ghost use Rattle.std.specs.Prelude.{Some, [], pos, refl, ◌∷◌};

use crate::aliases::{SteeringWheelAngleConfidence, SteeringWheelAngleValue};
use rasn_below::page::*;

/// SteeringWheelAngle ::= SEQUENCE {
///     steeringWheelAngleValue SteeringWheelAngleValue,
///     steeringWheelAngleConfidence SteeringWheelAngleConfidence
/// }
#[derive(Clone, Copy, Debug, PartialEq, Eq)]
pub struct SteeringWheelAngle {
    pub steering_wheel_angle_value: SteeringWheelAngleValue,
    pub steering_wheel_angle_confidence: SteeringWheelAngleConfidence,
}

macro_rules! components { ($to:ident $($with:ident)*) => { $to! { [$($with)*]
    required 0 "steeringWheelAngleValue" steering_wheel_angle_value: SteeringWheelAngleValue [-511..=512];
    required 1 "steeringWheelAngleConfidence" steering_wheel_angle_confidence: SteeringWheelAngleConfidence [1..=127];
} }; }

const FIELDS: FieldLists = components!(fields);

const BOUNDS: Bounds = components!(bounds);

impl Components for SteeringWheelAngle {
    const COMPONENTS: FieldLists = FIELDS;

    ghost COMPONENTS = { fields_of steering_wheel_angle_lists };

    ghost components = { (steering_wheel_angle_lists, refl) };

    ghost contents = { λ x.
        Some (whole x.steering_wheel_angle_value) ∷
        Some (whole (pos x.steering_wheel_angle_confidence)) ∷
        [] };
}

impl Record for SteeringWheelAngle {
    fn encode_components<E: Encoder>(&self, encoder: &mut E) -> Result<(), E::Error> {
        components!(encode_components self encoder)
    }

    fn decode_components<D: Decoder>(decoder: &mut D) -> Result<Self, D::Error> {
        components!(decode_components decoder)
    }
}
