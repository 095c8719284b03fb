// Written by tools/asn1/compile: change the ASN.1, not this file.
//! ClosedLanes, of the module ITS-Container.

ghost use Rattle.its_container.specs.ItsContainer.{closed_lanes_lists};
ghost use Rattle.rasn_below.specs.Page.{bits, fields_of, slot_levels, slot_of};
ghost use Rattle.std.specs.Prelude.{[], max, refl, ◌∷◌};

use crate::aliases::DrivingLaneStatus;
use crate::hard_shoulder_status::HardShoulderStatus;
use rasn_below::page::*;

/// ClosedLanes ::= SEQUENCE {
///     innerhardShoulderStatus HardShoulderStatus OPTIONAL,
///     outerhardShoulderStatus HardShoulderStatus OPTIONAL,
///     drivingLaneStatus DrivingLaneStatus OPTIONAL,
///     ...
/// }
#[derive(Debug, Drop, PartialEq)]
pub struct ClosedLanes {
    pub innerhard_shoulder_status: Option<HardShoulderStatus>,
    pub outerhard_shoulder_status: Option<HardShoulderStatus>,
    pub driving_lane_status: Option<DrivingLaneStatus>,
}

macro_rules! components { ($to:ident $($with:ident)*) => { $to! { [$($with)*]
    optional 0 "innerhardShoulderStatus" innerhard_shoulder_status: Option<HardShoulderStatus> [];
    optional 1 "outerhardShoulderStatus" outerhard_shoulder_status: Option<HardShoulderStatus> [];
    optional 2 "drivingLaneStatus" driving_lane_status: Option<DrivingLaneStatus> [SIZE 1..=13];
    ...;
} }; }

const FIELDS: FieldLists = components!(fields);

const BOUNDS: Bounds = components!(bounds);

impl Components for ClosedLanes {
    const COMPONENTS: FieldLists = FIELDS;

    ghost COMPONENTS = { fields_of closed_lanes_lists };

    ghost components = { (closed_lanes_lists, refl) };

    ghost contents = { λ x.
        slot_of ⟦<HardShoulderStatus as AsnType>⟧.value x.innerhard_shoulder_status ∷
        slot_of ⟦<HardShoulderStatus as AsnType>⟧.value x.outerhard_shoulder_status ∷
        slot_of bits x.driving_lane_status ∷
        [] };

    ghost depth = { λ x.
        (max (slot_levels ⟦<HardShoulderStatus as AsnType>⟧.levels x.innerhard_shoulder_status)
        (max (slot_levels ⟦<HardShoulderStatus as AsnType>⟧.levels x.outerhard_shoulder_status)
        (max (slot_levels ⟦<DrivingLaneStatus as AsnType>⟧.levels x.driving_lane_status) 0))) };
}

impl Record for ClosedLanes {
    fn encode_components<E: Encoder>(&self, encoder: &mut E) -> Result<(), E::Error> {
        components!(encode_components self encoder)
    }

    fn decode_components<D: Decoder>(decoder: &mut D) -> Result<Self, D::Error> {
        components!(decode_components decoder)
    }
}
