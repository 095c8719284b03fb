// Written by tools/asn1/compile: change the ASN.1, not this file.
//! RoadWorksContainerBasic, of the module CAM-PDU-Descriptions.

ghost use Rattle.cam.specs.CamPduDescriptions.{road_works_container_basic_lists};
ghost use Rattle.rasn_below.specs.Page.{bits, fields_of, slot_levels, slot_of, whole};
ghost use Rattle.std.specs.Prelude.{Some, [], max, pos, refl, ◌∷◌};

use its_container::aliases::{LightBarSirenInUse, RoadworksSubCauseCode};
use its_container::closed_lanes::ClosedLanes;
use rasn_below::page::*;

/// RoadWorksContainerBasic ::= SEQUENCE {
///     roadworksSubCauseCode RoadworksSubCauseCode OPTIONAL,
///     lightBarSirenInUse LightBarSirenInUse,
///     closedLanes ClosedLanes OPTIONAL
/// }
#[derive(Debug, Drop, PartialEq)]
pub struct RoadWorksContainerBasic {
    pub roadworks_sub_cause_code: Option<RoadworksSubCauseCode>,
    pub light_bar_siren_in_use: LightBarSirenInUse,
    pub closed_lanes: Option<ClosedLanes>,
}

macro_rules! components { ($to:ident $($with:ident)*) => { $to! { [$($with)*]
    optional 0 "roadworksSubCauseCode" roadworks_sub_cause_code: Option<RoadworksSubCauseCode> [0..=255];
    required 1 "lightBarSirenInUse" light_bar_siren_in_use: LightBarSirenInUse [SIZE 2..=2];
    optional 2 "closedLanes" closed_lanes: Option<ClosedLanes> [];
} }; }

const FIELDS: FieldLists = components!(fields);

const BOUNDS: Bounds = components!(bounds);

impl Components for RoadWorksContainerBasic {
    const COMPONENTS: FieldLists = FIELDS;

    ghost COMPONENTS = { fields_of road_works_container_basic_lists };

    ghost components = { (road_works_container_basic_lists, refl) };

    ghost contents = { λ x.
        slot_of (λ v. whole (pos v)) x.roadworks_sub_cause_code ∷
        Some (bits x.light_bar_siren_in_use) ∷
        slot_of ⟦<ClosedLanes as AsnType>⟧.value x.closed_lanes ∷
        [] };

    ghost depth = { λ x.
        (max (slot_levels ⟦<RoadworksSubCauseCode as AsnType>⟧.levels x.roadworks_sub_cause_code)
        (max 0
        (max (slot_levels ⟦<ClosedLanes as AsnType>⟧.levels x.closed_lanes) 0))) };
}

impl Record for RoadWorksContainerBasic {
    fn encode_components<E: Encoder>(&self, encoder: &mut E) -> Result<(), E::Error> {
        components!(encode_components self encoder)
    }

    fn decode_components<D: Decoder>(decoder: &mut D) -> Result<Self, D::Error> {
        components!(decode_components decoder)
    }
}
