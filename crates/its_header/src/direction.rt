//! DriveDirection.

ghost use Rattle.rasn_below.specs.Page.{all_items};
ghost use Rattle.its_header.specs.Directions.{direction};

use rasn_below::page::*;

/// DriveDirection ::= ENUMERATED { forward, backward, unavailable }
#[derive(Clone, Copy, Debug, PartialEq, Eq)]
pub enum DriveDirection {
    Forward,
    Backward,
    Unavailable,
}

macro_rules! items { ($to:ident $($with:ident)*) => { $to! { [$($with)*]
    "forward" Forward;
    "backward" Backward;
    "unavailable" Unavailable;
} }; }

impl OfKind for DriveDirection {
    type Kind = EnumeratedKind;
}

impl Items for DriveDirection {
    const ITEMS: ItemLists = items!(item_lists);

    ghost ITEMS = { all_items 3 };

    ghost item = { direction };

    fn place(&self) -> Place {
        items!(place_of_item self)
    }

    fn at(place: Place) -> Option<DriveDirection> {
        items!(item_at place)
    }
}

impl ByKind for DriveDirection {}
