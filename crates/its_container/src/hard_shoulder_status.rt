// Written by tools/asn1/compile: change the ASN.1, not this file.
//! HardShoulderStatus, of the module ITS-Container.

ghost use Rattle.its_container.specs.declared.hard_shoulder_status.{
  HardShoulderStatus.TheVariants.{AvailableForDriving, AvailableForStopping, Closed},
};
ghost use Rattle.rasn_below.specs.Page.{all_items, item, root};

use rasn_below::page::*;

/// HardShoulderStatus ::= ENUMERATED { availableForStopping(0), closed(1), availableForDriving(2) }
#[derive(Clone, Copy, Debug, PartialEq, Eq)]
pub enum HardShoulderStatus {
    AvailableForStopping,
    Closed,
    AvailableForDriving,
}

macro_rules! items { ($to:ident $($with:ident)*) => { $to! { [$($with)*]
    "availableForStopping" AvailableForStopping;
    "closed" Closed;
    "availableForDriving" AvailableForDriving;
} }; }

impl OfKind for HardShoulderStatus {
    type Kind = EnumeratedKind;
}

impl Items for HardShoulderStatus {
    const ITEMS: ItemLists = items!(item_lists);

    ghost ITEMS = { all_items 3 };

    ghost item = { elim [
      | AvailableForStopping ↦ item root 0
      | Closed ↦ item root 1
      | AvailableForDriving ↦ item root 2
    ] };

    fn place(&self) -> Place {
        items!(place_of_item self)
    }

    fn at(place: Place) -> Option<HardShoulderStatus> {
        items!(item_at place)
    }
}

impl ByKind for HardShoulderStatus {}
