// Written by tools/asn1/compile: change the ASN.1, not this file.
//! CamParameters, of the module CAM-PDU-Descriptions.

ghost use Rattle.cam.specs.CamPduDescriptions.{cam_parameters_lists};
ghost use Rattle.rasn_below.specs.Page.{fields_of, slot_levels, slot_of};
ghost use Rattle.std.specs.Prelude.{Some, [], max, refl, ◌∷◌};

use crate::basic_container::BasicContainer;
use crate::high_frequency_container::HighFrequencyContainer;
use crate::low_frequency_container::LowFrequencyContainer;
use crate::special_vehicle_container::SpecialVehicleContainer;
use rasn_below::page::*;

/// CamParameters ::= SEQUENCE {
///     basicContainer BasicContainer,
///     highFrequencyContainer HighFrequencyContainer,
///     lowFrequencyContainer LowFrequencyContainer OPTIONAL,
///     specialVehicleContainer SpecialVehicleContainer OPTIONAL,
///     ...
/// }
#[derive(Debug, Drop, PartialEq)]
pub struct CamParameters {
    pub basic_container: BasicContainer,
    pub high_frequency_container: HighFrequencyContainer,
    pub low_frequency_container: Option<LowFrequencyContainer>,
    pub special_vehicle_container: Option<SpecialVehicleContainer>,
}

macro_rules! components { ($to:ident $($with:ident)*) => { $to! { [$($with)*]
    required 0 "basicContainer" basic_container: BasicContainer [];
    required 1 "highFrequencyContainer" high_frequency_container: HighFrequencyContainer [];
    optional 2 "lowFrequencyContainer" low_frequency_container: Option<LowFrequencyContainer> [];
    optional 3 "specialVehicleContainer" special_vehicle_container: Option<SpecialVehicleContainer> [];
    ...;
} }; }

const FIELDS: FieldLists = components!(fields);

const BOUNDS: Bounds = components!(bounds);

impl Components for CamParameters {
    const COMPONENTS: FieldLists = FIELDS;

    ghost COMPONENTS = { fields_of cam_parameters_lists };

    ghost components = { (cam_parameters_lists, refl) };

    ghost contents = { λ x.
        Some (⟦<BasicContainer as AsnType>⟧.value x.basic_container) ∷
        Some (⟦<HighFrequencyContainer as AsnType>⟧.value x.high_frequency_container) ∷
        slot_of ⟦<LowFrequencyContainer as AsnType>⟧.value x.low_frequency_container ∷
        slot_of ⟦<SpecialVehicleContainer as AsnType>⟧.value x.special_vehicle_container ∷
        [] };

    ghost depth = { λ x.
        (max (⟦<BasicContainer as AsnType>⟧.levels x.basic_container)
        (max (⟦<HighFrequencyContainer as AsnType>⟧.levels x.high_frequency_container)
        (max (slot_levels ⟦<LowFrequencyContainer as AsnType>⟧.levels x.low_frequency_container)
        (max (slot_levels ⟦<SpecialVehicleContainer as AsnType>⟧.levels x.special_vehicle_container) 0)))) };
}

impl Record for CamParameters {
    fn encode_components<E: Encoder>(&self, encoder: &mut E) -> Result<(), E::Error> {
        components!(encode_components self encoder)
    }

    fn decode_components<D: Decoder>(decoder: &mut D) -> Result<Self, D::Error> {
        components!(decode_components decoder)
    }
}
