// Written by tools/asn1/compile: change the ASN.1, not this file.
//! SpecialVehicleContainer, of the module CAM-PDU-Descriptions.

ghost use Rattle.cam.specs.CamPduDescriptions.{special_vehicle_container_lists};
ghost use Rattle.cam.specs.declared.special_vehicle_container.{
  SpecialVehicleContainer.TheVariants.{DangerousGoodsContainer, EmergencyContainer, PublicTransportContainer},
  SpecialVehicleContainer.TheVariants.{RescueContainer, RoadWorksContainerBasic, SafetyCarContainer},
  SpecialVehicleContainer.TheVariants.{SpecialTransportContainer},
};
ghost use Rattle.rasn_below.specs.Page.{chosen, variants_listed};
ghost use Rattle.std.specs.Prelude.{refl};

use crate::dangerous_goods_container::DangerousGoodsContainer;
use crate::emergency_container::EmergencyContainer;
use crate::public_transport_container::PublicTransportContainer;
use crate::rescue_container::RescueContainer;
use crate::road_works_container_basic::RoadWorksContainerBasic;
use crate::safety_car_container::SafetyCarContainer;
use crate::special_transport_container::SpecialTransportContainer;
use rasn_below::page::*;

/// SpecialVehicleContainer ::= CHOICE {
///     publicTransportContainer PublicTransportContainer,
///     specialTransportContainer SpecialTransportContainer,
///     dangerousGoodsContainer DangerousGoodsContainer,
///     roadWorksContainerBasic RoadWorksContainerBasic,
///     rescueContainer RescueContainer,
///     emergencyContainer EmergencyContainer,
///     safetyCarContainer SafetyCarContainer,
///     ...
/// }
#[derive(Debug, Drop, PartialEq)]
pub enum SpecialVehicleContainer {
    PublicTransportContainer(PublicTransportContainer),
    SpecialTransportContainer(SpecialTransportContainer),
    DangerousGoodsContainer(DangerousGoodsContainer),
    RoadWorksContainerBasic(RoadWorksContainerBasic),
    RescueContainer(RescueContainer),
    EmergencyContainer(EmergencyContainer),
    SafetyCarContainer(SafetyCarContainer),
}

macro_rules! alternatives { ($to:ident $($with:ident)*) => { $to! { [$($with)*]
    0 "publicTransportContainer" PublicTransportContainer: PublicTransportContainer [];
    1 "specialTransportContainer" SpecialTransportContainer: SpecialTransportContainer [];
    2 "dangerousGoodsContainer" DangerousGoodsContainer: DangerousGoodsContainer [];
    3 "roadWorksContainerBasic" RoadWorksContainerBasic: RoadWorksContainerBasic [];
    4 "rescueContainer" RescueContainer: RescueContainer [];
    5 "emergencyContainer" EmergencyContainer: EmergencyContainer [];
    6 "safetyCarContainer" SafetyCarContainer: SafetyCarContainer [];
    ...;
} }; }

const VARIANTS: VariantLists = alternatives!(variants);

const BOUNDS: Bounds = alternatives!(alternative_bounds);

impl OfKind for SpecialVehicleContainer {
    type Kind = ChoiceKind;
}

impl Alternatives for SpecialVehicleContainer {
    const ALTERNATIVES: VariantLists = VARIANTS;

    ghost ALTERNATIVES = { variants_listed special_vehicle_container_lists };

    ghost alternatives = { (special_vehicle_container_lists, refl) };

    ghost chosen = { elim [
      | PublicTransportContainer v ↦ chosen 0 (⟦<PublicTransportContainer as AsnType>⟧.value v)
      | SpecialTransportContainer v ↦ chosen 1 (⟦<SpecialTransportContainer as AsnType>⟧.value v)
      | DangerousGoodsContainer v ↦ chosen 2 (⟦<DangerousGoodsContainer as AsnType>⟧.value v)
      | RoadWorksContainerBasic v ↦ chosen 3 (⟦<RoadWorksContainerBasic as AsnType>⟧.value v)
      | RescueContainer v ↦ chosen 4 (⟦<RescueContainer as AsnType>⟧.value v)
      | EmergencyContainer v ↦ chosen 5 (⟦<EmergencyContainer as AsnType>⟧.value v)
      | SafetyCarContainer v ↦ chosen 6 (⟦<SafetyCarContainer as AsnType>⟧.value v)
    ] };

    ghost depth = { elim [
      | PublicTransportContainer v ↦ ⟦<PublicTransportContainer as AsnType>⟧.levels v
      | SpecialTransportContainer _ ↦ 1
      | DangerousGoodsContainer _ ↦ 1
      | RoadWorksContainerBasic v ↦ ⟦<RoadWorksContainerBasic as AsnType>⟧.levels v
      | RescueContainer _ ↦ 1
      | EmergencyContainer v ↦ ⟦<EmergencyContainer as AsnType>⟧.levels v
      | SafetyCarContainer v ↦ ⟦<SafetyCarContainer as AsnType>⟧.levels v
    ] };

    ghost are_variants = { record { distinct = refl; few = refl } };
}

impl CodedAlternatives for SpecialVehicleContainer {
    fn place(&self) -> Place {
        alternatives!(place_of_alternative self)
    }

    fn encode_alternative<E: Encoder>(&self, encoder: &mut E) -> Result<(), E::Error> {
        alternatives!(encode_alternative self encoder)
    }

    fn decode_alternative<D: Decoder>(decoder: &mut D, place: Place) -> Result<Self, D::Error> {
        alternatives!(decode_alternative decoder place)
    }
}

impl ByKind for SpecialVehicleContainer {}
