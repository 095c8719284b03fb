// Written by tools/asn1/compile: change the ASN.1, not this file.
//! DriveDirection, of the module ITS-Container.

ghost use Rattle.its_container.specs.declared.drive_direction.DriveDirection.TheVariants.{Backward, Forward};
ghost use Rattle.its_container.specs.declared.drive_direction.DriveDirection.TheVariants.{Unavailable};
ghost use Rattle.rasn_below.specs.Page.{all_items, item, root};

use rasn_below::page::*;

/// DriveDirection ::= ENUMERATED { forward(0), backward(1), unavailable(2) }
#[derive(Clone, Copy, Debug, PartialEq, Eq)]
pub enum DriveDirection {
    Forward,
    Backward,
    Unavailable,
}

macro_rules! items { ($to:ident $($with:ident)*) => { $to! { [$($with)*]
    "forward" Forward;
    "backward" Backward;
    "unavailable" Unavailable;
} }; }

impl OfKind for DriveDirection {
    type Kind = EnumeratedKind;
}

impl Items for DriveDirection {
    const ITEMS: ItemLists = items!(item_lists);

    ghost ITEMS = { all_items 3 };

    ghost item = { elim [
      | Forward ↦ item root 0
      | Backward ↦ item root 1
      | Unavailable ↦ item root 2
    ] };

    fn place(&self) -> Place {
        items!(place_of_item self)
    }

    fn at(place: Place) -> Option<DriveDirection> {
        items!(item_at place)
    }
}

impl ByKind for DriveDirection {}
