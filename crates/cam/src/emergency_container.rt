// Written by tools/asn1/compile: change the ASN.1, not this file.
//! EmergencyContainer, of the module CAM-PDU-Descriptions.

ghost use Rattle.cam.specs.CamPduDescriptions.{emergency_container_lists};
ghost use Rattle.rasn_below.specs.Page.{bits, fields_of, slot_levels, slot_of};
ghost use Rattle.std.specs.Prelude.{Some, [], max, refl, ◌∷◌};

use its_container::aliases::{EmergencyPriority, LightBarSirenInUse};
use its_container::cause_code::CauseCode;
use rasn_below::page::*;

/// EmergencyContainer ::= SEQUENCE {
///     lightBarSirenInUse LightBarSirenInUse,
///     incidentIndication CauseCode OPTIONAL,
///     emergencyPriority EmergencyPriority OPTIONAL
/// }
#[derive(Debug, Drop, PartialEq)]
pub struct EmergencyContainer {
    pub light_bar_siren_in_use: LightBarSirenInUse,
    pub incident_indication: Option<CauseCode>,
    pub emergency_priority: Option<EmergencyPriority>,
}

macro_rules! components { ($to:ident $($with:ident)*) => { $to! { [$($with)*]
    required 0 "lightBarSirenInUse" light_bar_siren_in_use: LightBarSirenInUse [SIZE 2..=2];
    optional 1 "incidentIndication" incident_indication: Option<CauseCode> [];
    optional 2 "emergencyPriority" emergency_priority: Option<EmergencyPriority> [SIZE 2..=2];
} }; }

const FIELDS: FieldLists = components!(fields);

const BOUNDS: Bounds = components!(bounds);

impl Components for EmergencyContainer {
    const COMPONENTS: FieldLists = FIELDS;

    ghost COMPONENTS = { fields_of emergency_container_lists };

    ghost components = { (emergency_container_lists, refl) };

    ghost contents = { λ x.
        Some (bits x.light_bar_siren_in_use) ∷
        slot_of ⟦<CauseCode as AsnType>⟧.value x.incident_indication ∷
        slot_of bits x.emergency_priority ∷
        [] };

    ghost depth = { λ x.
        (max 0
        (max (slot_levels ⟦<CauseCode as AsnType>⟧.levels x.incident_indication)
        (max (slot_levels ⟦<EmergencyPriority as AsnType>⟧.levels x.emergency_priority) 0))) };
}

impl Record for EmergencyContainer {
    fn encode_components<E: Encoder>(&self, encoder: &mut E) -> Result<(), E::Error> {
        components!(encode_components self encoder)
    }

    fn decode_components<D: Decoder>(decoder: &mut D) -> Result<Self, D::Error> {
        components!(decode_components decoder)
    }
}
