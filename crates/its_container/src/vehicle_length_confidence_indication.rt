// Written by tools/asn1/compile: change the ASN.1, not this file.
//! VehicleLengthConfidenceIndication, of the module ITS-Container.

ghost use Rattle.its_container.specs.declared.vehicle_length_confidence_indication.{
  VehicleLengthConfidenceIndication.TheVariants.{NoTrailerPresent, TrailerPresenceIsUnknown},
  VehicleLengthConfidenceIndication.TheVariants.{TrailerPresentWithKnownLength, TrailerPresentWithUnknownLength},
  VehicleLengthConfidenceIndication.TheVariants.{Unavailable},
};
ghost use Rattle.rasn_below.specs.Page.{all_items, item, root};

use rasn_below::page::*;

/// VehicleLengthConfidenceIndication ::= ENUMERATED { noTrailerPresent(0), trailerPresentWithKnownLength(1),
///     trailerPresentWithUnknownLength(2), trailerPresenceIsUnknown(3), unavailable(4) }
#[derive(Clone, Copy, Debug, PartialEq, Eq)]
pub enum VehicleLengthConfidenceIndication {
    NoTrailerPresent,
    TrailerPresentWithKnownLength,
    TrailerPresentWithUnknownLength,
    TrailerPresenceIsUnknown,
    Unavailable,
}

macro_rules! items { ($to:ident $($with:ident)*) => { $to! { [$($with)*]
    "noTrailerPresent" NoTrailerPresent;
    "trailerPresentWithKnownLength" TrailerPresentWithKnownLength;
    "trailerPresentWithUnknownLength" TrailerPresentWithUnknownLength;
    "trailerPresenceIsUnknown" TrailerPresenceIsUnknown;
    "unavailable" Unavailable;
} }; }

impl OfKind for VehicleLengthConfidenceIndication {
    type Kind = EnumeratedKind;
}

impl Items for VehicleLengthConfidenceIndication {
    const ITEMS: ItemLists = items!(item_lists);

    ghost ITEMS = { all_items 5 };

    ghost item = { elim [
      | NoTrailerPresent ↦ item root 0
      | TrailerPresentWithKnownLength ↦ item root 1
      | TrailerPresentWithUnknownLength ↦ item root 2
      | TrailerPresenceIsUnknown ↦ item root 3
      | Unavailable ↦ item root 4
    ] };

    fn place(&self) -> Place {
        items!(place_of_item self)
    }

    fn at(place: Place) -> Option<VehicleLengthConfidenceIndication> {
        items!(item_at place)
    }
}

impl ByKind for VehicleLengthConfidenceIndication {}
