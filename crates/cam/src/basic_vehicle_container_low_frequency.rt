// Written by tools/asn1/compile: change the ASN.1, not this file.
//! BasicVehicleContainerLowFrequency, of the module CAM-PDU-Descriptions.

ghost use Rattle.cam.specs.CamPduDescriptions.{basic_vehicle_container_low_frequency_lists};
ghost use Rattle.rasn_below.specs.Page.{bits, fields_of};
ghost use Rattle.std.specs.Prelude.{Some, [], max, refl, ◌∷◌};

use its_container::aliases::{ExteriorLights, PathHistory};
use its_container::vehicle_role::VehicleRole;
use rasn_below::page::*;

/// BasicVehicleContainerLowFrequency ::= SEQUENCE {
///     vehicleRole VehicleRole,
///     exteriorLights ExteriorLights,
///     pathHistory PathHistory
/// }
#[derive(Debug, Drop, PartialEq)]
pub struct BasicVehicleContainerLowFrequency {
    pub vehicle_role: VehicleRole,
    pub exterior_lights: ExteriorLights,
    pub path_history: PathHistory,
}

macro_rules! components { ($to:ident $($with:ident)*) => { $to! { [$($with)*]
    required 0 "vehicleRole" vehicle_role: VehicleRole [];
    required 1 "exteriorLights" exterior_lights: ExteriorLights [SIZE 8..=8];
    required 2 "pathHistory" path_history: PathHistory [SIZE 0..=40];
} }; }

const FIELDS: FieldLists = components!(fields);

const BOUNDS: Bounds = components!(bounds);

impl Components for BasicVehicleContainerLowFrequency {
    const COMPONENTS: FieldLists = FIELDS;

    ghost COMPONENTS = { fields_of basic_vehicle_container_low_frequency_lists };

    ghost components = { (basic_vehicle_container_low_frequency_lists, refl) };

    ghost contents = { λ x.
        Some (⟦<VehicleRole as AsnType>⟧.value x.vehicle_role) ∷
        Some (bits x.exterior_lights) ∷
        Some (⟦<PathHistory as AsnType>⟧.value x.path_history) ∷
        [] };

    ghost depth = { λ x.
        (max 0
        (max 0
        (max (⟦<PathHistory as AsnType>⟧.levels x.path_history) 0))) };
}

impl Record for BasicVehicleContainerLowFrequency {
    fn encode_components<E: Encoder>(&self, encoder: &mut E) -> Result<(), E::Error> {
        components!(encode_components self encoder)
    }

    fn decode_components<D: Decoder>(decoder: &mut D) -> Result<Self, D::Error> {
        components!(decode_components decoder)
    }
}
