// Written by tools/asn1/compile: change the ASN.1, not this file.
//! CurvatureConfidence, of the module ITS-Container.

ghost use Rattle.its_container.specs.declared.curvature_confidence.CurvatureConfidence.TheVariants.{OnePerMeter0_00002};
ghost use Rattle.its_container.specs.declared.curvature_confidence.CurvatureConfidence.TheVariants.{OnePerMeter0_0001};
ghost use Rattle.its_container.specs.declared.curvature_confidence.CurvatureConfidence.TheVariants.{OnePerMeter0_0005};
ghost use Rattle.its_container.specs.declared.curvature_confidence.CurvatureConfidence.TheVariants.{OnePerMeter0_002};
ghost use Rattle.its_container.specs.declared.curvature_confidence.CurvatureConfidence.TheVariants.{OnePerMeter0_01};
ghost use Rattle.its_container.specs.declared.curvature_confidence.CurvatureConfidence.TheVariants.{OnePerMeter0_1};
ghost use Rattle.its_container.specs.declared.curvature_confidence.CurvatureConfidence.TheVariants.{OutOfRange};
ghost use Rattle.its_container.specs.declared.curvature_confidence.CurvatureConfidence.TheVariants.{Unavailable};
ghost use Rattle.rasn_below.specs.Page.{all_items, item, root};

use rasn_below::page::*;

/// CurvatureConfidence ::= ENUMERATED { onePerMeter-0-00002(0), onePerMeter-0-0001(1), onePerMeter-0-0005(2),
///     onePerMeter-0-002(3), onePerMeter-0-01(4), onePerMeter-0-1(5), outOfRange(6), unavailable(7) }
#[derive(Clone, Copy, Debug, PartialEq, Eq)]
pub enum CurvatureConfidence {
    OnePerMeter0_00002,
    OnePerMeter0_0001,
    OnePerMeter0_0005,
    OnePerMeter0_002,
    OnePerMeter0_01,
    OnePerMeter0_1,
    OutOfRange,
    Unavailable,
}

macro_rules! items { ($to:ident $($with:ident)*) => { $to! { [$($with)*]
    "onePerMeter-0-00002" OnePerMeter0_00002;
    "onePerMeter-0-0001" OnePerMeter0_0001;
    "onePerMeter-0-0005" OnePerMeter0_0005;
    "onePerMeter-0-002" OnePerMeter0_002;
    "onePerMeter-0-01" OnePerMeter0_01;
    "onePerMeter-0-1" OnePerMeter0_1;
    "outOfRange" OutOfRange;
    "unavailable" Unavailable;
} }; }

impl OfKind for CurvatureConfidence {
    type Kind = EnumeratedKind;
}

impl Items for CurvatureConfidence {
    const ITEMS: ItemLists = items!(item_lists);

    ghost ITEMS = { all_items 8 };

    ghost item = { elim [
      | OnePerMeter0_00002 ↦ item root 0
      | OnePerMeter0_0001 ↦ item root 1
      | OnePerMeter0_0005 ↦ item root 2
      | OnePerMeter0_002 ↦ item root 3
      | OnePerMeter0_01 ↦ item root 4
      | OnePerMeter0_1 ↦ item root 5
      | OutOfRange ↦ item root 6
      | Unavailable ↦ item root 7
    ] };

    fn place(&self) -> Place {
        items!(place_of_item self)
    }

    fn at(place: Place) -> Option<CurvatureConfidence> {
        items!(item_at place)
    }
}

impl ByKind for CurvatureConfidence {}
