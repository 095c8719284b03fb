// Written by tools/asn1/compile: change the ASN.1, not this file.
//! RsuContainerHighFrequency, of the module CAM-PDU-Descriptions.

ghost use Rattle.cam.specs.CamPduDescriptions.{rsu_container_high_frequency_lists};
ghost use Rattle.rasn_below.specs.Page.{fields_of, slot_levels, slot_of};
ghost use Rattle.std.specs.Prelude.{[], max, refl, ◌∷◌};

use its_container::aliases::ProtectedCommunicationZonesRsu;
use rasn_below::page::*;

/// RSUContainerHighFrequency ::= SEQUENCE {
///     protectedCommunicationZonesRSU ProtectedCommunicationZonesRSU OPTIONAL,
///     ...
/// }
#[derive(Debug, Drop, PartialEq)]
pub struct RsuContainerHighFrequency {
    pub protected_communication_zones_rsu: Option<ProtectedCommunicationZonesRsu>,
}

macro_rules! components { ($to:ident $($with:ident)*) => { $to! { [$($with)*]
    optional 0 "protectedCommunicationZonesRSU" protected_communication_zones_rsu:
        Option<ProtectedCommunicationZonesRsu> [SIZE 1..=16];
    ...;
} }; }

const FIELDS: FieldLists = components!(fields);

const BOUNDS: Bounds = components!(bounds);

impl Components for RsuContainerHighFrequency {
    const COMPONENTS: FieldLists = FIELDS;

    ghost COMPONENTS = { fields_of rsu_container_high_frequency_lists };

    ghost components = { (rsu_container_high_frequency_lists, refl) };

    ghost contents = { λ x.
        slot_of ⟦<ProtectedCommunicationZonesRsu as AsnType>⟧.value x.protected_communication_zones_rsu ∷
        [] };

    ghost depth = { λ x.
        (max (slot_levels ⟦<ProtectedCommunicationZonesRsu as AsnType>⟧.levels x.protected_communication_zones_rsu)
        0) };
}

impl Record for RsuContainerHighFrequency {
    fn encode_components<E: Encoder>(&self, encoder: &mut E) -> Result<(), E::Error> {
        components!(encode_components self encoder)
    }

    fn decode_components<D: Decoder>(decoder: &mut D) -> Result<Self, D::Error> {
        components!(decode_components decoder)
    }
}
