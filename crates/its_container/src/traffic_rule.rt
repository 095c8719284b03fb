// Written by tools/asn1/compile: change the ASN.1, not this file.
//! TrafficRule, of the module ITS-Container.

ghost use Rattle.its_container.specs.declared.traffic_rule.TrafficRule.TheVariants.{NoPassing, NoPassingForTrucks};
ghost use Rattle.its_container.specs.declared.traffic_rule.TrafficRule.TheVariants.{PassToLeft, PassToRight};
ghost use Rattle.rasn_below.specs.Page.{extensible_items, item, root};

use rasn_below::page::*;

/// TrafficRule ::= ENUMERATED { noPassing(0), noPassingForTrucks(1), passToRight(2), passToLeft(3), ... }
#[derive(Clone, Copy, Debug, PartialEq, Eq)]
pub enum TrafficRule {
    NoPassing,
    NoPassingForTrucks,
    PassToRight,
    PassToLeft,
}

macro_rules! items { ($to:ident $($with:ident)*) => { $to! { [$($with)*]
    "noPassing" NoPassing;
    "noPassingForTrucks" NoPassingForTrucks;
    "passToRight" PassToRight;
    "passToLeft" PassToLeft;
    ...;
} }; }

impl OfKind for TrafficRule {
    type Kind = EnumeratedKind;
}

impl Items for TrafficRule {
    const ITEMS: ItemLists = items!(item_lists);

    ghost ITEMS = { extensible_items 4 0 };

    ghost item = { elim [
      | NoPassing ↦ item root 0
      | NoPassingForTrucks ↦ item root 1
      | PassToRight ↦ item root 2
      | PassToLeft ↦ item root 3
    ] };

    fn place(&self) -> Place {
        items!(place_of_item self)
    }

    fn at(place: Place) -> Option<TrafficRule> {
        items!(item_at place)
    }
}

impl ByKind for TrafficRule {}
