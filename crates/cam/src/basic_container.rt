// Written by tools/asn1/compile: change the ASN.1, not this file.
//! BasicContainer, of the module CAM-PDU-Descriptions.

ghost use Rattle.cam.specs.CamPduDescriptions.{basic_container_lists};
ghost use Rattle.rasn_below.specs.Page.{fields_of, whole};
ghost use Rattle.std.specs.Prelude.{Some, [], max, pos, refl, ◌∷◌};

use its_container::aliases::StationType;
use its_container::reference_position::ReferencePosition;
use rasn_below::page::*;

/// BasicContainer ::= SEQUENCE {
///     stationType StationType,
///     referencePosition ReferencePosition,
///     ...
/// }
#[derive(Clone, Copy, Debug, PartialEq, Eq)]
pub struct BasicContainer {
    pub station_type: StationType,
    pub reference_position: ReferencePosition,
}

macro_rules! components { ($to:ident $($with:ident)*) => { $to! { [$($with)*]
    required 0 "stationType" station_type: StationType [0..=255];
    required 1 "referencePosition" reference_position: ReferencePosition [];
    ...;
} }; }

const FIELDS: FieldLists = components!(fields);

const BOUNDS: Bounds = components!(bounds);

impl Components for BasicContainer {
    const COMPONENTS: FieldLists = FIELDS;

    ghost COMPONENTS = { fields_of basic_container_lists };

    ghost components = { (basic_container_lists, refl) };

    ghost contents = { λ x.
        Some (whole (pos x.station_type)) ∷
        Some (⟦<ReferencePosition as AsnType>⟧.value x.reference_position) ∷
        [] };

    ghost depth = { λ x.
        (max 0
        (max (⟦<ReferencePosition as AsnType>⟧.levels x.reference_position) 0)) };
}

impl Record for BasicContainer {
    fn encode_components<E: Encoder>(&self, encoder: &mut E) -> Result<(), E::Error> {
        components!(encode_components self encoder)
    }

    fn decode_components<D: Decoder>(decoder: &mut D) -> Result<Self, D::Error> {
        components!(decode_components decoder)
    }
}
