// Written by tools/asn1/compile: change the ASN.1, not this file.
//! AltitudeConfidence, of the module ITS-Container.

ghost use Rattle.its_container.specs.declared.altitude_confidence.AltitudeConfidence.TheVariants.{Alt000_01, Alt000_02};
ghost use Rattle.its_container.specs.declared.altitude_confidence.AltitudeConfidence.TheVariants.{Alt000_05, Alt000_10};
ghost use Rattle.its_container.specs.declared.altitude_confidence.AltitudeConfidence.TheVariants.{Alt000_20, Alt000_50};
ghost use Rattle.its_container.specs.declared.altitude_confidence.AltitudeConfidence.TheVariants.{Alt001_00, Alt002_00};
ghost use Rattle.its_container.specs.declared.altitude_confidence.AltitudeConfidence.TheVariants.{Alt005_00, Alt010_00};
ghost use Rattle.its_container.specs.declared.altitude_confidence.AltitudeConfidence.TheVariants.{Alt020_00, Alt050_00};
ghost use Rattle.its_container.specs.declared.altitude_confidence.AltitudeConfidence.TheVariants.{Alt100_00, Alt200_00};
ghost use Rattle.its_container.specs.declared.altitude_confidence.AltitudeConfidence.TheVariants.{OutOfRange};
ghost use Rattle.its_container.specs.declared.altitude_confidence.AltitudeConfidence.TheVariants.{Unavailable};
ghost use Rattle.rasn_below.specs.Page.{all_items, item, root};

use rasn_below::page::*;

/// AltitudeConfidence ::= ENUMERATED { alt-000-01(0), alt-000-02(1), alt-000-05(2), alt-000-10(3), alt-000-20(4),
///     alt-000-50(5), alt-001-00(6), alt-002-00(7), alt-005-00(8), alt-010-00(9), alt-020-00(10), alt-050-00(11),
///     alt-100-00(12), alt-200-00(13), outOfRange(14), unavailable(15) }
#[derive(Clone, Copy, Debug, PartialEq, Eq)]
pub enum AltitudeConfidence {
    Alt000_01,
    Alt000_02,
    Alt000_05,
    Alt000_10,
    Alt000_20,
    Alt000_50,
    Alt001_00,
    Alt002_00,
    Alt005_00,
    Alt010_00,
    Alt020_00,
    Alt050_00,
    Alt100_00,
    Alt200_00,
    OutOfRange,
    Unavailable,
}

macro_rules! items { ($to:ident $($with:ident)*) => { $to! { [$($with)*]
    "alt-000-01" Alt000_01;
    "alt-000-02" Alt000_02;
    "alt-000-05" Alt000_05;
    "alt-000-10" Alt000_10;
    "alt-000-20" Alt000_20;
    "alt-000-50" Alt000_50;
    "alt-001-00" Alt001_00;
    "alt-002-00" Alt002_00;
    "alt-005-00" Alt005_00;
    "alt-010-00" Alt010_00;
    "alt-020-00" Alt020_00;
    "alt-050-00" Alt050_00;
    "alt-100-00" Alt100_00;
    "alt-200-00" Alt200_00;
    "outOfRange" OutOfRange;
    "unavailable" Unavailable;
} }; }

impl OfKind for AltitudeConfidence {
    type Kind = EnumeratedKind;
}

impl Items for AltitudeConfidence {
    const ITEMS: ItemLists = items!(item_lists);

    ghost ITEMS = { all_items 16 };

    ghost item = { elim [
      | Alt000_01 ↦ item root 0
      | Alt000_02 ↦ item root 1
      | Alt000_05 ↦ item root 2
      | Alt000_10 ↦ item root 3
      | Alt000_20 ↦ item root 4
      | Alt000_50 ↦ item root 5
      | Alt001_00 ↦ item root 6
      | Alt002_00 ↦ item root 7
      | Alt005_00 ↦ item root 8
      | Alt010_00 ↦ item root 9
      | Alt020_00 ↦ item root 10
      | Alt050_00 ↦ item root 11
      | Alt100_00 ↦ item root 12
      | Alt200_00 ↦ item root 13
      | OutOfRange ↦ item root 14
      | Unavailable ↦ item root 15
    ] };

    fn place(&self) -> Place {
        items!(place_of_item self)
    }

    fn at(place: Place) -> Option<AltitudeConfidence> {
        items!(item_at place)
    }
}

impl ByKind for AltitudeConfidence {}
