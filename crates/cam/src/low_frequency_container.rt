// Written by tools/asn1/compile: change the ASN.1, not this file.
//! LowFrequencyContainer, of the module CAM-PDU-Descriptions.

ghost use Rattle.cam.specs.CamPduDescriptions.{low_frequency_container_lists};
ghost use Rattle.cam.specs.declared.low_frequency_container.{
  LowFrequencyContainer.TheVariants.{BasicVehicleContainerLowFrequency},
};
ghost use Rattle.rasn_below.specs.Page.{chosen, variants_listed};
ghost use Rattle.std.specs.Prelude.{refl};

use crate::basic_vehicle_container_low_frequency::BasicVehicleContainerLowFrequency;
use rasn_below::page::*;

/// LowFrequencyContainer ::= CHOICE {
///     basicVehicleContainerLowFrequency BasicVehicleContainerLowFrequency,
///     ...
/// }
#[derive(Debug, Drop, PartialEq)]
pub enum LowFrequencyContainer {
    BasicVehicleContainerLowFrequency(BasicVehicleContainerLowFrequency),
}

macro_rules! alternatives { ($to:ident $($with:ident)*) => { $to! { [$($with)*]
    0 "basicVehicleContainerLowFrequency" BasicVehicleContainerLowFrequency: BasicVehicleContainerLowFrequency [];
    ...;
} }; }

const VARIANTS: VariantLists = alternatives!(variants);

const BOUNDS: Bounds = alternatives!(alternative_bounds);

impl OfKind for LowFrequencyContainer {
    type Kind = ChoiceKind;
}

impl Alternatives for LowFrequencyContainer {
    const ALTERNATIVES: VariantLists = VARIANTS;

    ghost ALTERNATIVES = { variants_listed low_frequency_container_lists };

    ghost alternatives = { (low_frequency_container_lists, refl) };

    ghost chosen = { elim [
      | BasicVehicleContainerLowFrequency v ↦ chosen 0 (⟦<BasicVehicleContainerLowFrequency as AsnType>⟧.value v)
    ] };

    ghost depth = { elim [
      | BasicVehicleContainerLowFrequency v ↦ ⟦<BasicVehicleContainerLowFrequency as AsnType>⟧.levels v
    ] };

    ghost are_variants = { record { distinct = refl; few = refl } };
}

impl CodedAlternatives for LowFrequencyContainer {
    fn place(&self) -> Place {
        alternatives!(place_of_alternative self)
    }

    fn encode_alternative<E: Encoder>(&self, encoder: &mut E) -> Result<(), E::Error> {
        alternatives!(encode_alternative self encoder)
    }

    fn decode_alternative<D: Decoder>(decoder: &mut D, place: Place) -> Result<Self, D::Error> {
        alternatives!(decode_alternative decoder place)
    }
}

impl ByKind for LowFrequencyContainer {}
