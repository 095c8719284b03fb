// Written by tools/asn1/compile: change the ASN.1, not this file.
//! CoopAwareness, of the module CAM-PDU-Descriptions.

ghost use Rattle.cam.specs.CamPduDescriptions.{coop_awareness_lists};
ghost use Rattle.rasn_below.specs.Page.{fields_of, whole};
ghost use Rattle.std.specs.Prelude.{Some, [], max, pos, refl, ◌∷◌};

use crate::aliases::GenerationDeltaTime;
use crate::cam_parameters::CamParameters;
use rasn_below::page::*;

/// CoopAwareness ::= SEQUENCE {
///     generationDeltaTime GenerationDeltaTime,
///     camParameters CamParameters
/// }
#[derive(Debug, Drop, PartialEq)]
pub struct CoopAwareness {
    pub generation_delta_time: GenerationDeltaTime,
    pub cam_parameters: CamParameters,
}

macro_rules! components { ($to:ident $($with:ident)*) => { $to! { [$($with)*]
    required 0 "generationDeltaTime" generation_delta_time: GenerationDeltaTime [0..=65_535];
    required 1 "camParameters" cam_parameters: CamParameters [];
} }; }

const FIELDS: FieldLists = components!(fields);

const BOUNDS: Bounds = components!(bounds);

impl Components for CoopAwareness {
    const COMPONENTS: FieldLists = FIELDS;

    ghost COMPONENTS = { fields_of coop_awareness_lists };

    ghost components = { (coop_awareness_lists, refl) };

    ghost contents = { λ x.
        Some (whole (pos x.generation_delta_time)) ∷
        Some (⟦<CamParameters as AsnType>⟧.value x.cam_parameters) ∷
        [] };

    ghost depth = { λ x.
        (max 0
        (max (⟦<CamParameters as AsnType>⟧.levels x.cam_parameters) 0)) };
}

impl Record for CoopAwareness {
    fn encode_components<E: Encoder>(&self, encoder: &mut E) -> Result<(), E::Error> {
        components!(encode_components self encoder)
    }

    fn decode_components<D: Decoder>(decoder: &mut D) -> Result<Self, D::Error> {
        components!(decode_components decoder)
    }
}
