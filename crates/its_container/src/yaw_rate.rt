// Written by tools/asn1/compile: change the ASN.1, not this file.
//! YawRate, of the module ITS-Container.

ghost use Rattle.its_container.specs.ItsContainer.{yaw_rate_lists};
ghost use Rattle.rasn_below.specs.Page.{fields_of, whole};
ghost use Rattle.std.specs.Prelude.{Some, [], refl, ◌∷◌};

use crate::aliases::YawRateValue;
use crate::yaw_rate_confidence::YawRateConfidence;
use rasn_below::page::*;

/// YawRate ::= SEQUENCE {
///     yawRateValue YawRateValue,
///     yawRateConfidence YawRateConfidence
/// }
#[derive(Clone, Copy, Debug, PartialEq, Eq)]
pub struct YawRate {
    pub yaw_rate_value: YawRateValue,
    pub yaw_rate_confidence: YawRateConfidence,
}

macro_rules! components { ($to:ident $($with:ident)*) => { $to! { [$($with)*]
    required 0 "yawRateValue" yaw_rate_value: YawRateValue [-32_766..=32_767];
    required 1 "yawRateConfidence" yaw_rate_confidence: YawRateConfidence [];
} }; }

const FIELDS: FieldLists = components!(fields);

const BOUNDS: Bounds = components!(bounds);

impl Components for YawRate {
    const COMPONENTS: FieldLists = FIELDS;

    ghost COMPONENTS = { fields_of yaw_rate_lists };

    ghost components = { (yaw_rate_lists, refl) };

    ghost contents = { λ x.
        Some (whole x.yaw_rate_value) ∷
        Some (⟦<YawRateConfidence as AsnType>⟧.value x.yaw_rate_confidence) ∷
        [] };
}

impl Record for YawRate {
    fn encode_components<E: Encoder>(&self, encoder: &mut E) -> Result<(), E::Error> {
        components!(encode_components self encoder)
    }

    fn decode_components<D: Decoder>(decoder: &mut D) -> Result<Self, D::Error> {
        components!(decode_components decoder)
    }
}
