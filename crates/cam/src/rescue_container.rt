// Written by tools/asn1/compile: change the ASN.1, not this file.
//! RescueContainer, of the module CAM-PDU-Descriptions.

ghost use Rattle.cam.specs.CamPduDescriptions.{rescue_container_lists};
ghost use Rattle.rasn_below.specs.Page.{bits, fields_of};
ghost use Rattle.std.specs.Prelude.{Some, [], refl, ◌∷◌};

use its_container::aliases::LightBarSirenInUse;
use rasn_below::page::*;

/// RescueContainer ::= SEQUENCE {
///     lightBarSirenInUse LightBarSirenInUse
/// }
#[derive(Debug, Drop, PartialEq)]
pub struct RescueContainer {
    pub light_bar_siren_in_use: LightBarSirenInUse,
}

macro_rules! components { ($to:ident $($with:ident)*) => { $to! { [$($with)*]
    required 0 "lightBarSirenInUse" light_bar_siren_in_use: LightBarSirenInUse [SIZE 2..=2];
} }; }

const FIELDS: FieldLists = components!(fields);

const BOUNDS: Bounds = components!(bounds);

impl Components for RescueContainer {
    const COMPONENTS: FieldLists = FIELDS;

    ghost COMPONENTS = { fields_of rescue_container_lists };

    ghost components = { (rescue_container_lists, refl) };

    ghost contents = { λ x.
        Some (bits x.light_bar_siren_in_use) ∷
        [] };
}

impl Record for RescueContainer {
    fn encode_components<E: Encoder>(&self, encoder: &mut E) -> Result<(), E::Error> {
        components!(encode_components self encoder)
    }

    fn decode_components<D: Decoder>(decoder: &mut D) -> Result<Self, D::Error> {
        components!(decode_components decoder)
    }
}
