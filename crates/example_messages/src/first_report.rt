//! A report, as its first version has it.

ghost use Rattle.std.specs.Prelude.{[], ◌∷◌, Some, pos, refl};
ghost use Rattle.rasn_below.specs.Page.{fields_of, whole};
ghost use Rattle.example_messages.specs.Reports.{first_report};

use rasn_below::page::*;

/// SEQUENCE { station INTEGER (0..65535), speed INTEGER (0..255), ... }
#[derive(Clone, Copy, Debug, PartialEq)]
pub struct FirstReport {
    pub station: u16,
    pub speed: u8,
}

macro_rules! components { ($to:ident $($with:ident)*) => { $to! { [$($with)*]
    required 0 "station" station: u16 [0..=65_535];
    required 1 "speed" speed: u8 [0..=255];
    ...;
} }; }

const FIELDS: FieldLists = components!(fields);

const BOUNDS: Bounds = components!(bounds);

impl Components for FirstReport {
    const COMPONENTS: FieldLists = FIELDS;

    ghost COMPONENTS = { fields_of first_report };

    ghost components = { (first_report, refl) };

    ghost contents = { λ x. Some (whole (pos x.station)) ∷ Some (whole (pos x.speed)) ∷ [] };
}

impl Record for FirstReport {
    fn encode_components<E: Encoder>(&self, encoder: &mut E) -> Result<(), E::Error> {
        components!(encode_components self encoder)
    }

    fn decode_components<D: Decoder>(decoder: &mut D) -> Result<Self, D::Error> {
        components!(decode_components decoder)
    }
}
