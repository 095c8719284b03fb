// Written by tools/asn1/compile: change the ASN.1, not this file.
//! HighFrequencyContainer, of the module CAM-PDU-Descriptions.

ghost use Rattle.cam.specs.CamPduDescriptions.{high_frequency_container_lists};
ghost use Rattle.cam.specs.declared.high_frequency_container.{
  HighFrequencyContainer.TheVariants.{BasicVehicleContainerHighFrequency, RsuContainerHighFrequency},
};
ghost use Rattle.rasn_below.specs.Page.{chosen, variants_listed};
ghost use Rattle.std.specs.Prelude.{refl};

use crate::basic_vehicle_container_high_frequency::BasicVehicleContainerHighFrequency;
use crate::rsu_container_high_frequency::RsuContainerHighFrequency;
use rasn_below::page::*;

/// HighFrequencyContainer ::= CHOICE {
///     basicVehicleContainerHighFrequency BasicVehicleContainerHighFrequency,
///     rsuContainerHighFrequency RSUContainerHighFrequency,
///     ...
/// }
#[derive(Debug, Drop, PartialEq)]
pub enum HighFrequencyContainer {
    BasicVehicleContainerHighFrequency(BasicVehicleContainerHighFrequency),
    RsuContainerHighFrequency(RsuContainerHighFrequency),
}

macro_rules! alternatives { ($to:ident $($with:ident)*) => { $to! { [$($with)*]
    0 "basicVehicleContainerHighFrequency" BasicVehicleContainerHighFrequency: BasicVehicleContainerHighFrequency [];
    1 "rsuContainerHighFrequency" RsuContainerHighFrequency: RsuContainerHighFrequency [];
    ...;
} }; }

const VARIANTS: VariantLists = alternatives!(variants);

const BOUNDS: Bounds = alternatives!(alternative_bounds);

impl OfKind for HighFrequencyContainer {
    type Kind = ChoiceKind;
}

impl Alternatives for HighFrequencyContainer {
    const ALTERNATIVES: VariantLists = VARIANTS;

    ghost ALTERNATIVES = { variants_listed high_frequency_container_lists };

    ghost alternatives = { (high_frequency_container_lists, refl) };

    ghost chosen = { elim [
      | BasicVehicleContainerHighFrequency v ↦ chosen 0 (⟦<BasicVehicleContainerHighFrequency as AsnType>⟧.value v)
      | RsuContainerHighFrequency v ↦ chosen 1 (⟦<RsuContainerHighFrequency as AsnType>⟧.value v)
    ] };

    ghost depth = { elim [
      | BasicVehicleContainerHighFrequency v ↦ ⟦<BasicVehicleContainerHighFrequency as AsnType>⟧.levels v
      | RsuContainerHighFrequency v ↦ ⟦<RsuContainerHighFrequency as AsnType>⟧.levels v
    ] };

    ghost are_variants = { record { distinct = refl; few = refl } };
}

impl CodedAlternatives for HighFrequencyContainer {
    fn place(&self) -> Place {
        alternatives!(place_of_alternative self)
    }

    fn encode_alternative<E: Encoder>(&self, encoder: &mut E) -> Result<(), E::Error> {
        alternatives!(encode_alternative self encoder)
    }

    fn decode_alternative<D: Decoder>(decoder: &mut D, place: Place) -> Result<Self, D::Error> {
        alternatives!(decode_alternative decoder place)
    }
}

impl ByKind for HighFrequencyContainer {}
