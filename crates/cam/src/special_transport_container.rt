// Written by tools/asn1/compile: change the ASN.1, not this file.
//! SpecialTransportContainer, of the module CAM-PDU-Descriptions.

ghost use Rattle.cam.specs.CamPduDescriptions.{special_transport_container_lists};
ghost use Rattle.rasn_below.specs.Page.{bits, fields_of};
ghost use Rattle.std.specs.Prelude.{Some, [], refl, ◌∷◌};

use its_container::aliases::{LightBarSirenInUse, SpecialTransportType};
use rasn_below::page::*;

/// SpecialTransportContainer ::= SEQUENCE {
///     specialTransportType SpecialTransportType,
///     lightBarSirenInUse LightBarSirenInUse
/// }
#[derive(Debug, Drop, PartialEq)]
pub struct SpecialTransportContainer {
    pub special_transport_type: SpecialTransportType,
    pub light_bar_siren_in_use: LightBarSirenInUse,
}

macro_rules! components { ($to:ident $($with:ident)*) => { $to! { [$($with)*]
    required 0 "specialTransportType" special_transport_type: SpecialTransportType [SIZE 4..=4];
    required 1 "lightBarSirenInUse" light_bar_siren_in_use: LightBarSirenInUse [SIZE 2..=2];
} }; }

const FIELDS: FieldLists = components!(fields);

const BOUNDS: Bounds = components!(bounds);

impl Components for SpecialTransportContainer {
    const COMPONENTS: FieldLists = FIELDS;

    ghost COMPONENTS = { fields_of special_transport_container_lists };

    ghost components = { (special_transport_container_lists, refl) };

    ghost contents = { λ x.
        Some (bits x.special_transport_type) ∷
        Some (bits x.light_bar_siren_in_use) ∷
        [] };
}

impl Record for SpecialTransportContainer {
    fn encode_components<E: Encoder>(&self, encoder: &mut E) -> Result<(), E::Error> {
        components!(encode_components self encoder)
    }

    fn decode_components<D: Decoder>(decoder: &mut D) -> Result<Self, D::Error> {
        components!(decode_components decoder)
    }
}
