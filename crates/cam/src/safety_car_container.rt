// Written by tools/asn1/compile: change the ASN.1, not this file.
//! SafetyCarContainer, of the module CAM-PDU-Descriptions.

ghost use Rattle.cam.specs.CamPduDescriptions.{safety_car_container_lists};
ghost use Rattle.rasn_below.specs.Page.{bits, fields_of, slot_levels, slot_of, whole};
ghost use Rattle.std.specs.Prelude.{Some, [], max, pos, refl, ◌∷◌};

use its_container::aliases::{LightBarSirenInUse, SpeedLimit};
use its_container::cause_code::CauseCode;
use its_container::traffic_rule::TrafficRule;
use rasn_below::page::*;

/// SafetyCarContainer ::= SEQUENCE {
///     lightBarSirenInUse LightBarSirenInUse,
///     incidentIndication CauseCode OPTIONAL,
///     trafficRule TrafficRule OPTIONAL,
///     speedLimit SpeedLimit OPTIONAL
/// }
#[derive(Debug, Drop, PartialEq)]
pub struct SafetyCarContainer {
    pub light_bar_siren_in_use: LightBarSirenInUse,
    pub incident_indication: Option<CauseCode>,
    pub traffic_rule: Option<TrafficRule>,
    pub speed_limit: Option<SpeedLimit>,
}

macro_rules! components { ($to:ident $($with:ident)*) => { $to! { [$($with)*]
    required 0 "lightBarSirenInUse" light_bar_siren_in_use: LightBarSirenInUse [SIZE 2..=2];
    optional 1 "incidentIndication" incident_indication: Option<CauseCode> [];
    optional 2 "trafficRule" traffic_rule: Option<TrafficRule> [];
    optional 3 "speedLimit" speed_limit: Option<SpeedLimit> [1..=255];
} }; }

const FIELDS: FieldLists = components!(fields);

const BOUNDS: Bounds = components!(bounds);

impl Components for SafetyCarContainer {
    const COMPONENTS: FieldLists = FIELDS;

    ghost COMPONENTS = { fields_of safety_car_container_lists };

    ghost components = { (safety_car_container_lists, refl) };

    ghost contents = { λ x.
        Some (bits x.light_bar_siren_in_use) ∷
        slot_of ⟦<CauseCode as AsnType>⟧.value x.incident_indication ∷
        slot_of ⟦<TrafficRule as AsnType>⟧.value x.traffic_rule ∷
        slot_of (λ v. whole (pos v)) x.speed_limit ∷
        [] };

    ghost depth = { λ x.
        (max 0
        (max (slot_levels ⟦<CauseCode as AsnType>⟧.levels x.incident_indication)
        (max (slot_levels ⟦<TrafficRule as AsnType>⟧.levels x.traffic_rule)
        (max (slot_levels ⟦<SpeedLimit as AsnType>⟧.levels x.speed_limit) 0)))) };
}

impl Record for SafetyCarContainer {
    fn encode_components<E: Encoder>(&self, encoder: &mut E) -> Result<(), E::Error> {
        components!(encode_components self encoder)
    }

    fn decode_components<D: Decoder>(decoder: &mut D) -> Result<Self, D::Error> {
        components!(decode_components decoder)
    }
}
