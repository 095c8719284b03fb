// Written by tools/asn1/compile: change the ASN.1, not this file.
//! PublicTransportContainer, of the module CAM-PDU-Descriptions.

ghost use Rattle.cam.specs.CamPduDescriptions.{public_transport_container_lists};
ghost use Rattle.rasn_below.specs.Page.{fields_of, slot_levels, slot_of, truth};
ghost use Rattle.std.specs.Prelude.{Some, [], max, refl, ◌∷◌};

use its_container::aliases::EmbarkationStatus;
use its_container::pt_activation::PtActivation;
use rasn_below::page::*;

/// PublicTransportContainer ::= SEQUENCE {
///     embarkationStatus EmbarkationStatus,
///     ptActivation PtActivation OPTIONAL
/// }
#[derive(Debug, Drop, PartialEq)]
pub struct PublicTransportContainer {
    pub embarkation_status: EmbarkationStatus,
    pub pt_activation: Option<PtActivation>,
}

macro_rules! components { ($to:ident $($with:ident)*) => { $to! { [$($with)*]
    required 0 "embarkationStatus" embarkation_status: EmbarkationStatus [];
    optional 1 "ptActivation" pt_activation: Option<PtActivation> [];
} }; }

const FIELDS: FieldLists = components!(fields);

const BOUNDS: Bounds = components!(bounds);

impl Components for PublicTransportContainer {
    const COMPONENTS: FieldLists = FIELDS;

    ghost COMPONENTS = { fields_of public_transport_container_lists };

    ghost components = { (public_transport_container_lists, refl) };

    ghost contents = { λ x.
        Some (truth x.embarkation_status) ∷
        slot_of ⟦<PtActivation as AsnType>⟧.value x.pt_activation ∷
        [] };

    ghost depth = { λ x.
        (max 0
        (max (slot_levels ⟦<PtActivation as AsnType>⟧.levels x.pt_activation) 0)) };
}

impl Record for PublicTransportContainer {
    fn encode_components<E: Encoder>(&self, encoder: &mut E) -> Result<(), E::Error> {
        components!(encode_components self encoder)
    }

    fn decode_components<D: Decoder>(decoder: &mut D) -> Result<Self, D::Error> {
        components!(decode_components decoder)
    }
}
