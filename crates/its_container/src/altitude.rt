// Written by tools/asn1/compile: change the ASN.1, not this file.
//! Altitude, of the module ITS-Container.

ghost use Rattle.its_container.specs.ItsContainer.{altitude_lists};
ghost use Rattle.rasn_below.specs.Page.{fields_of, whole};
ghost use Rattle.std.specs.Prelude.{Some, [], refl, ◌∷◌};

use crate::aliases::AltitudeValue;
use crate::altitude_confidence::AltitudeConfidence;
use rasn_below::page::*;

/// Altitude ::= SEQUENCE {
///     altitudeValue AltitudeValue,
///     altitudeConfidence AltitudeConfidence
/// }
#[derive(Clone, Copy, Debug, PartialEq, Eq)]
pub struct Altitude {
    pub altitude_value: AltitudeValue,
    pub altitude_confidence: AltitudeConfidence,
}

macro_rules! components { ($to:ident $($with:ident)*) => { $to! { [$($with)*]
    required 0 "altitudeValue" altitude_value: AltitudeValue [-100_000..=800_001];
    required 1 "altitudeConfidence" altitude_confidence: AltitudeConfidence [];
} }; }

const FIELDS: FieldLists = components!(fields);

const BOUNDS: Bounds = components!(bounds);

impl Components for Altitude {
    const COMPONENTS: FieldLists = FIELDS;

    ghost COMPONENTS = { fields_of altitude_lists };

    ghost components = { (altitude_lists, refl) };

    ghost contents = { λ x.
        Some (whole x.altitude_value) ∷
        Some (⟦<AltitudeConfidence as AsnType>⟧.value x.altitude_confidence) ∷
        [] };
}

impl Record for Altitude {
    fn encode_components<E: Encoder>(&self, encoder: &mut E) -> Result<(), E::Error> {
        components!(encode_components self encoder)
    }

    fn decode_components<D: Decoder>(decoder: &mut D) -> Result<Self, D::Error> {
        components!(decode_components decoder)
    }
}
