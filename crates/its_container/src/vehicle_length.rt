// Written by tools/asn1/compile: change the ASN.1, not this file.
//! VehicleLength, of the module ITS-Container.

ghost use Rattle.its_container.specs.ItsContainer.{vehicle_length_lists};
ghost use Rattle.rasn_below.specs.Page.{fields_of, whole};
ghost use Rattle.std.specs.Prelude.{Some, [], pos, refl, ◌∷◌};

use crate::aliases::VehicleLengthValue;
use crate::vehicle_length_confidence_indication::VehicleLengthConfidenceIndication;
use rasn_below::page::*;

/// VehicleLength ::= SEQUENCE {
///     vehicleLengthValue VehicleLengthValue,
///     vehicleLengthConfidenceIndication VehicleLengthConfidenceIndication
/// }
#[derive(Clone, Copy, Debug, PartialEq, Eq)]
pub struct VehicleLength {
    pub vehicle_length_value: VehicleLengthValue,
    pub vehicle_length_confidence_indication: VehicleLengthConfidenceIndication,
}

macro_rules! components { ($to:ident $($with:ident)*) => { $to! { [$($with)*]
    required 0 "vehicleLengthValue" vehicle_length_value: VehicleLengthValue [1..=1023];
    required 1 "vehicleLengthConfidenceIndication" vehicle_length_confidence_indication:
        VehicleLengthConfidenceIndication [];
} }; }

const FIELDS: FieldLists = components!(fields);

const BOUNDS: Bounds = components!(bounds);

impl Components for VehicleLength {
    const COMPONENTS: FieldLists = FIELDS;

    ghost COMPONENTS = { fields_of vehicle_length_lists };

    ghost components = { (vehicle_length_lists, refl) };

    ghost contents = { λ x.
        Some (whole (pos x.vehicle_length_value)) ∷
        Some (⟦<VehicleLengthConfidenceIndication as AsnType>⟧.value x.vehicle_length_confidence_indication) ∷
        [] };
}

impl Record for VehicleLength {
    fn encode_components<E: Encoder>(&self, encoder: &mut E) -> Result<(), E::Error> {
        components!(encode_components self encoder)
    }

    fn decode_components<D: Decoder>(decoder: &mut D) -> Result<Self, D::Error> {
        components!(decode_components decoder)
    }
}
