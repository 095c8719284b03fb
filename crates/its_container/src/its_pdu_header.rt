// Written by tools/asn1/compile: change the ASN.1, not this file.
//! ItsPduHeader, of the module ITS-Container.

ghost use Rattle.its_container.specs.ItsContainer.{its_pdu_header_lists};
ghost use Rattle.rasn_below.specs.Page.{fields_of, whole};
ghost use Rattle.std.specs.Prelude.{Some, [], pos, refl, ◌∷◌};

use crate::aliases::StationId;
use rasn_below::page::*;

/// ItsPduHeader ::= SEQUENCE {
///     protocolVersion INTEGER (0..255),
///     messageID INTEGER { denm(1), cam(2), poi(3), spatem(4), mapem(5), ivim(6), ev-rsr(7), tistpgtransaction(8),
///         srem(9), ssem(10), evcsn(11), saem(12), rtcmem(13), cpm(14) } (0..255),
///     stationID StationID
/// }
#[derive(Clone, Copy, Debug, PartialEq, Eq)]
pub struct ItsPduHeader {
    pub protocol_version: u8,
    pub message_id: u8,
    pub station_id: StationId,
}

macro_rules! components { ($to:ident $($with:ident)*) => { $to! { [$($with)*]
    required 0 "protocolVersion" protocol_version: u8 [0..=255];
    required 1 "messageID" message_id: u8 [0..=255];
    required 2 "stationID" station_id: StationId [0..=4_294_967_295];
} }; }

const FIELDS: FieldLists = components!(fields);

const BOUNDS: Bounds = components!(bounds);

impl Components for ItsPduHeader {
    const COMPONENTS: FieldLists = FIELDS;

    ghost COMPONENTS = { fields_of its_pdu_header_lists };

    ghost components = { (its_pdu_header_lists, refl) };

    ghost contents = { λ x.
        Some (whole (pos x.protocol_version)) ∷
        Some (whole (pos x.message_id)) ∷
        Some (whole (pos x.station_id)) ∷
        [] };
}

impl Record for ItsPduHeader {
    fn encode_components<E: Encoder>(&self, encoder: &mut E) -> Result<(), E::Error> {
        components!(encode_components self encoder)
    }

    fn decode_components<D: Decoder>(decoder: &mut D) -> Result<Self, D::Error> {
        components!(decode_components decoder)
    }
}
