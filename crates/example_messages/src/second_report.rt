//! The report, as its second version has it: with an addition.

ghost use Rattle.std.specs.Prelude.{[], ◌∷◌, Some, pos, refl};
ghost use Rattle.rasn_below.specs.Page.{fields_of, slot_of, whole};
ghost use Rattle.example_messages.specs.Reports.{second_report};

use rasn_below::page::*;

/// SEQUENCE { station INTEGER (0..65535), speed INTEGER (0..255), ..., heading INTEGER (0..359) OPTIONAL }
#[derive(Clone, Copy, Debug, PartialEq)]
pub struct SecondReport {
    pub station: u16,
    pub speed: u8,
    pub heading: Option<u16>,
}

macro_rules! components { ($to:ident $($with:ident)*) => { $to! { [$($with)*]
    required 0 "station" station: u16 [0..=65_535];
    required 1 "speed" speed: u8 [0..=255];
    ...;
    optional 2 "heading" heading: Option<u16> [0..=359];
} }; }

const FIELDS: FieldLists = components!(fields);

const BOUNDS: Bounds = components!(bounds);

impl Components for SecondReport {
    const COMPONENTS: FieldLists = FIELDS;

    ghost COMPONENTS = { fields_of second_report };

    ghost components = { (second_report, refl) };

    ghost contents = { λ x. Some (whole (pos x.station)) ∷ Some (whole (pos x.speed)) ∷ [] };

    ghost added = { λ x. slot_of (λ v. whole (pos v)) x.heading ∷ [] };
}

impl Record for SecondReport {
    fn encode_components<E: Encoder>(&self, encoder: &mut E) -> Result<(), E::Error> {
        components!(encode_components self encoder)
    }

    fn decode_components<D: Decoder>(decoder: &mut D) -> Result<Self, D::Error> {
        components!(decode_components decoder)
    }
}
