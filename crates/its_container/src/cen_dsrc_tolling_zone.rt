// Written by tools/asn1/compile: change the ASN.1, not this file.
//! CenDsrcTollingZone, of the module ITS-Container.

ghost use Rattle.its_container.specs.ItsContainer.{cen_dsrc_tolling_zone_lists};
ghost use Rattle.rasn_below.specs.Page.{fields_of, slot_levels, slot_of, whole};
ghost use Rattle.std.specs.Prelude.{Some, [], max, pos, refl, ◌∷◌};

use crate::aliases::{CenDsrcTollingZoneId, Latitude, Longitude};
use rasn_below::page::*;

/// CenDsrcTollingZone ::= SEQUENCE {
///     protectedZoneLatitude Latitude,
///     protectedZoneLongitude Longitude,
///     cenDsrcTollingZoneID CenDsrcTollingZoneID OPTIONAL,
///     ...
/// }
#[derive(Clone, Copy, Debug, PartialEq, Eq)]
pub struct CenDsrcTollingZone {
    pub protected_zone_latitude: Latitude,
    pub protected_zone_longitude: Longitude,
    pub cen_dsrc_tolling_zone_id: Option<CenDsrcTollingZoneId>,
}

macro_rules! components { ($to:ident $($with:ident)*) => { $to! { [$($with)*]
    required 0 "protectedZoneLatitude" protected_zone_latitude: Latitude [-900_000_000..=900_000_001];
    required 1 "protectedZoneLongitude" protected_zone_longitude: Longitude [-1_800_000_000..=1_800_000_001];
    optional 2 "cenDsrcTollingZoneID" cen_dsrc_tolling_zone_id: Option<CenDsrcTollingZoneId> [0..=134_217_727];
    ...;
} }; }

const FIELDS: FieldLists = components!(fields);

const BOUNDS: Bounds = components!(bounds);

impl Components for CenDsrcTollingZone {
    const COMPONENTS: FieldLists = FIELDS;

    ghost COMPONENTS = { fields_of cen_dsrc_tolling_zone_lists };

    ghost components = { (cen_dsrc_tolling_zone_lists, refl) };

    ghost contents = { λ x.
        Some (whole x.protected_zone_latitude) ∷
        Some (whole x.protected_zone_longitude) ∷
        slot_of (λ v. whole (pos v)) x.cen_dsrc_tolling_zone_id ∷
        [] };

    ghost depth = { λ x.
        (max 0
        (max 0
        (max (slot_levels ⟦<CenDsrcTollingZoneId as AsnType>⟧.levels x.cen_dsrc_tolling_zone_id) 0))) };
}

impl Record for CenDsrcTollingZone {
    fn encode_components<E: Encoder>(&self, encoder: &mut E) -> Result<(), E::Error> {
        components!(encode_components self encoder)
    }

    fn decode_components<D: Decoder>(decoder: &mut D) -> Result<Self, D::Error> {
        components!(decode_components decoder)
    }
}
