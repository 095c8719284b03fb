// Written by tools/asn1/compile: change the ASN.1, not this file.
//! YawRateConfidence, of the module ITS-Container.

ghost use Rattle.its_container.specs.declared.yaw_rate_confidence.YawRateConfidence.TheVariants.{DegSec000_01};
ghost use Rattle.its_container.specs.declared.yaw_rate_confidence.YawRateConfidence.TheVariants.{DegSec000_05};
ghost use Rattle.its_container.specs.declared.yaw_rate_confidence.YawRateConfidence.TheVariants.{DegSec000_10};
ghost use Rattle.its_container.specs.declared.yaw_rate_confidence.YawRateConfidence.TheVariants.{DegSec001_00};
ghost use Rattle.its_container.specs.declared.yaw_rate_confidence.YawRateConfidence.TheVariants.{DegSec005_00};
ghost use Rattle.its_container.specs.declared.yaw_rate_confidence.YawRateConfidence.TheVariants.{DegSec010_00};
ghost use Rattle.its_container.specs.declared.yaw_rate_confidence.YawRateConfidence.TheVariants.{DegSec100_00};
ghost use Rattle.its_container.specs.declared.yaw_rate_confidence.YawRateConfidence.TheVariants.{OutOfRange};
ghost use Rattle.its_container.specs.declared.yaw_rate_confidence.YawRateConfidence.TheVariants.{Unavailable};
ghost use Rattle.rasn_below.specs.Page.{all_items, item, root};

use rasn_below::page::*;

/// YawRateConfidence ::= ENUMERATED { degSec-000-01(0), degSec-000-05(1), degSec-000-10(2), degSec-001-00(3),
///     degSec-005-00(4), degSec-010-00(5), degSec-100-00(6), outOfRange(7), unavailable(8) }
#[derive(Clone, Copy, Debug, PartialEq, Eq)]
pub enum YawRateConfidence {
    DegSec000_01,
    DegSec000_05,
    DegSec000_10,
    DegSec001_00,
    DegSec005_00,
    DegSec010_00,
    DegSec100_00,
    OutOfRange,
    Unavailable,
}

macro_rules! items { ($to:ident $($with:ident)*) => { $to! { [$($with)*]
    "degSec-000-01" DegSec000_01;
    "degSec-000-05" DegSec000_05;
    "degSec-000-10" DegSec000_10;
    "degSec-001-00" DegSec001_00;
    "degSec-005-00" DegSec005_00;
    "degSec-010-00" DegSec010_00;
    "degSec-100-00" DegSec100_00;
    "outOfRange" OutOfRange;
    "unavailable" Unavailable;
} }; }

impl OfKind for YawRateConfidence {
    type Kind = EnumeratedKind;
}

impl Items for YawRateConfidence {
    const ITEMS: ItemLists = items!(item_lists);

    ghost ITEMS = { all_items 9 };

    ghost item = { elim [
      | DegSec000_01 ↦ item root 0
      | DegSec000_05 ↦ item root 1
      | DegSec000_10 ↦ item root 2
      | DegSec001_00 ↦ item root 3
      | DegSec005_00 ↦ item root 4
      | DegSec010_00 ↦ item root 5
      | DegSec100_00 ↦ item root 6
      | OutOfRange ↦ item root 7
      | Unavailable ↦ item root 8
    ] };

    fn place(&self) -> Place {
        items!(place_of_item self)
    }

    fn at(place: Place) -> Option<YawRateConfidence> {
        items!(item_at place)
    }
}

impl ByKind for YawRateConfidence {}
