// Written by tools/asn1/compile: change the ASN.1, not this file.
//! ReferencePosition, of the module ITS-Container.

ghost use Rattle.its_container.specs.ItsContainer.{reference_position_lists};
ghost use Rattle.rasn_below.specs.Page.{fields_of, whole};
ghost use Rattle.std.specs.Prelude.{Some, [], refl, ◌∷◌};

use crate::aliases::{Latitude, Longitude};
use crate::altitude::Altitude;
use crate::pos_confidence_ellipse::PosConfidenceEllipse;
use rasn_below::page::*;

/// ReferencePosition ::= SEQUENCE {
///     latitude Latitude,
///     longitude Longitude,
///     positionConfidenceEllipse PosConfidenceEllipse,
///     altitude Altitude
/// }
#[derive(Clone, Copy, Debug, PartialEq, Eq)]
pub struct ReferencePosition {
    pub latitude: Latitude,
    pub longitude: Longitude,
    pub position_confidence_ellipse: PosConfidenceEllipse,
    pub altitude: Altitude,
}

macro_rules! components { ($to:ident $($with:ident)*) => { $to! { [$($with)*]
    required 0 "latitude" latitude: Latitude [-900_000_000..=900_000_001];
    required 1 "longitude" longitude: Longitude [-1_800_000_000..=1_800_000_001];
    required 2 "positionConfidenceEllipse" position_confidence_ellipse: PosConfidenceEllipse [];
    required 3 "altitude" altitude: Altitude [];
} }; }

const FIELDS: FieldLists = components!(fields);

const BOUNDS: Bounds = components!(bounds);

impl Components for ReferencePosition {
    const COMPONENTS: FieldLists = FIELDS;

    ghost COMPONENTS = { fields_of reference_position_lists };

    ghost components = { (reference_position_lists, refl) };

    ghost contents = { λ x.
        Some (whole x.latitude) ∷
        Some (whole x.longitude) ∷
        Some (⟦<PosConfidenceEllipse as AsnType>⟧.value x.position_confidence_ellipse) ∷
        Some (⟦<Altitude as AsnType>⟧.value x.altitude) ∷
        [] };

    ghost depth = { λ _. 1 };
}

impl Record for ReferencePosition {
    fn encode_components<E: Encoder>(&self, encoder: &mut E) -> Result<(), E::Error> {
        components!(encode_components self encoder)
    }

    fn decode_components<D: Decoder>(decoder: &mut D) -> Result<Self, D::Error> {
        components!(decode_components decoder)
    }
}
