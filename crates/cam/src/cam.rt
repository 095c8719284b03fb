// Written by tools/asn1/compile: change the ASN.1, not this file.
//! Cam, of the module CAM-PDU-Descriptions.

ghost use Rattle.cam.specs.CamPduDescriptions.{cam_lists};
ghost use Rattle.rasn_below.specs.Page.{fields_of};
ghost use Rattle.std.specs.Prelude.{Some, [], max, refl, ◌∷◌};

use crate::coop_awareness::CoopAwareness;
use its_container::its_pdu_header::ItsPduHeader;
use rasn_below::page::*;

/// CAM ::= SEQUENCE {
///     header ItsPduHeader,
///     cam CoopAwareness
/// }
#[derive(Debug, Drop, PartialEq)]
pub struct Cam {
    pub header: ItsPduHeader,
    pub cam: CoopAwareness,
}

macro_rules! components { ($to:ident $($with:ident)*) => { $to! { [$($with)*]
    required 0 "header" header: ItsPduHeader [];
    required 1 "cam" cam: CoopAwareness [];
} }; }

const FIELDS: FieldLists = components!(fields);

const BOUNDS: Bounds = components!(bounds);

impl Components for Cam {
    const COMPONENTS: FieldLists = FIELDS;

    ghost COMPONENTS = { fields_of cam_lists };

    ghost components = { (cam_lists, refl) };

    ghost contents = { λ x.
        Some (⟦<ItsPduHeader as AsnType>⟧.value x.header) ∷
        Some (⟦<CoopAwareness as AsnType>⟧.value x.cam) ∷
        [] };

    ghost depth = { λ x.
        (max (⟦<ItsPduHeader as AsnType>⟧.levels x.header)
        (max (⟦<CoopAwareness as AsnType>⟧.levels x.cam) 0)) };
}

impl Record for Cam {
    fn encode_components<E: Encoder>(&self, encoder: &mut E) -> Result<(), E::Error> {
        components!(encode_components self encoder)
    }

    fn decode_components<D: Decoder>(decoder: &mut D) -> Result<Self, D::Error> {
        components!(decode_components decoder)
    }
}
