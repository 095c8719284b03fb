//! Warning.

ghost use Rattle.std.specs.Prelude.{[], ◌∷◌, Some, max, pos, refl};
ghost use Rattle.rasn_below.specs.Page.{whole, fields_of, slot_of};
ghost use Rattle.its_header.specs.Directions.{direction};
ghost use Rattle.its_header.specs.Warnings.{warning};

use crate::area::ActionArea;
use crate::direction::DriveDirection;
use crate::position::ReferencePositionLite;
use rasn_below::page::*;

/// Warning ::= SEQUENCE {
///     direction DriveDirection OPTIONAL, area ActionArea,
///     positions SEQUENCE (SIZE (1..4)) OF ReferencePositionLite, lane INTEGER (0..7) DEFAULT 1
/// }
#[derive(Debug, Drop, PartialEq)]
pub struct Warning {
    pub direction: Option<DriveDirection>,
    pub area: ActionArea,
    pub positions: Vec<ReferencePositionLite>,
    pub lane: u8,
}

macro_rules! components { ($to:ident $($with:ident)*) => { $to! { [$($with)*]
    optional 0 "direction" direction: Option<DriveDirection> [];
    required 1 "area" area: ActionArea [];
    required 2 "positions" positions: Vec<ReferencePositionLite> [SIZE 1..=4];
    default 3 "lane" lane: u8 [0..=7 DEFAULT 1_u8];
} }; }

const FIELDS: FieldLists = components!(fields);

const BOUNDS: Bounds = components!(bounds);

impl Components for Warning {
    const COMPONENTS: FieldLists = FIELDS;

    ghost COMPONENTS = { fields_of warning };

    ghost components = { (warning, refl) };

    ghost contents = { λ x. slot_of direction x.direction ∷ Some (⟦<ActionArea as AsnType>⟧.value x.area) ∷
        Some (⟦<Vec<ReferencePositionLite> as AsnType>⟧.value x.positions) ∷ Some (whole (pos x.lane)) ∷ [] };

    ghost depth = { λ x. max 2 (⟦<Vec<ReferencePositionLite> as AsnType>⟧.levels x.positions) };
}

impl Record for Warning {
    fn encode_components<E: Encoder>(&self, encoder: &mut E) -> Result<(), E::Error> {
        components!(encode_components self encoder)
    }

    fn decode_components<D: Decoder>(decoder: &mut D) -> Result<Self, D::Error> {
        components!(decode_components decoder)
    }
}
