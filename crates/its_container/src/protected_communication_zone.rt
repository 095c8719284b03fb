// Written by tools/asn1/compile: change the ASN.1, not this file.
//! ProtectedCommunicationZone, of the module ITS-Container.

ghost use Rattle.its_container.specs.ItsContainer.{protected_communication_zone_lists};
ghost use Rattle.rasn_below.specs.Page.{fields_of, slot_levels, slot_of, whole};
ghost use Rattle.std.specs.Prelude.{Some, [], max, pos, refl, ◌∷◌};

use crate::aliases::{Latitude, Longitude, ProtectedZoneId, ProtectedZoneRadius, TimestampIts};
use crate::protected_zone_type::ProtectedZoneType;
use rasn_below::page::*;

/// ProtectedCommunicationZone ::= SEQUENCE {
///     protectedZoneType ProtectedZoneType,
///     expiryTime TimestampIts OPTIONAL,
///     protectedZoneLatitude Latitude,
///     protectedZoneLongitude Longitude,
///     protectedZoneRadius ProtectedZoneRadius OPTIONAL,
///     protectedZoneID ProtectedZoneID OPTIONAL,
///     ...
/// }
#[derive(Debug, Drop, PartialEq)]
pub struct ProtectedCommunicationZone {
    pub protected_zone_type: ProtectedZoneType,
    pub expiry_time: Option<TimestampIts>,
    pub protected_zone_latitude: Latitude,
    pub protected_zone_longitude: Longitude,
    pub protected_zone_radius: Option<ProtectedZoneRadius>,
    pub protected_zone_id: Option<ProtectedZoneId>,
}

macro_rules! components { ($to:ident $($with:ident)*) => { $to! { [$($with)*]
    required 0 "protectedZoneType" protected_zone_type: ProtectedZoneType [];
    optional 1 "expiryTime" expiry_time: Option<TimestampIts> [0..=4_398_046_511_103];
    required 2 "protectedZoneLatitude" protected_zone_latitude: Latitude [-900_000_000..=900_000_001];
    required 3 "protectedZoneLongitude" protected_zone_longitude: Longitude [-1_800_000_000..=1_800_000_001];
    optional 4 "protectedZoneRadius" protected_zone_radius: Option<ProtectedZoneRadius> [1..=255, ...];
    optional 5 "protectedZoneID" protected_zone_id: Option<ProtectedZoneId> [0..=134_217_727];
    ...;
} }; }

const FIELDS: FieldLists = components!(fields);

const BOUNDS: Bounds = components!(bounds);

impl Components for ProtectedCommunicationZone {
    const COMPONENTS: FieldLists = FIELDS;

    ghost COMPONENTS = { fields_of protected_communication_zone_lists };

    ghost components = { (protected_communication_zone_lists, refl) };

    ghost contents = { λ x.
        Some (⟦<ProtectedZoneType as AsnType>⟧.value x.protected_zone_type) ∷
        slot_of (λ v. whole (pos v)) x.expiry_time ∷
        Some (whole x.protected_zone_latitude) ∷
        Some (whole x.protected_zone_longitude) ∷
        slot_of whole x.protected_zone_radius ∷
        slot_of (λ v. whole (pos v)) x.protected_zone_id ∷
        [] };

    ghost depth = { λ x.
        (max 0
        (max (slot_levels ⟦<TimestampIts as AsnType>⟧.levels x.expiry_time)
        (max 0
        (max 0
        (max (slot_levels ⟦<ProtectedZoneRadius as AsnType>⟧.levels x.protected_zone_radius)
        (max (slot_levels ⟦<ProtectedZoneId as AsnType>⟧.levels x.protected_zone_id) 0)))))) };
}

impl Record for ProtectedCommunicationZone {
    fn encode_components<E: Encoder>(&self, encoder: &mut E) -> Result<(), E::Error> {
        components!(encode_components self encoder)
    }

    fn decode_components<D: Decoder>(decoder: &mut D) -> Result<Self, D::Error> {
        components!(decode_components decoder)
    }
}
