// Written by tools/asn1/compile: change the ASN.1, not this file.
//! CurvatureCalculationMode, of the module ITS-Container.

ghost use Rattle.its_container.specs.declared.curvature_calculation_mode.{
  CurvatureCalculationMode.TheVariants.{Unavailable, YawRateNotUsed, YawRateUsed},
};
ghost use Rattle.rasn_below.specs.Page.{extensible_items, item, root};

use rasn_below::page::*;

/// CurvatureCalculationMode ::= ENUMERATED { yawRateUsed(0), yawRateNotUsed(1), unavailable(2), ... }
#[derive(Clone, Copy, Debug, PartialEq, Eq)]
pub enum CurvatureCalculationMode {
    YawRateUsed,
    YawRateNotUsed,
    Unavailable,
}

macro_rules! items { ($to:ident $($with:ident)*) => { $to! { [$($with)*]
    "yawRateUsed" YawRateUsed;
    "yawRateNotUsed" YawRateNotUsed;
    "unavailable" Unavailable;
    ...;
} }; }

impl OfKind for CurvatureCalculationMode {
    type Kind = EnumeratedKind;
}

impl Items for CurvatureCalculationMode {
    const ITEMS: ItemLists = items!(item_lists);

    ghost ITEMS = { extensible_items 3 0 };

    ghost item = { elim [
      | YawRateUsed ↦ item root 0
      | YawRateNotUsed ↦ item root 1
      | Unavailable ↦ item root 2
    ] };

    fn place(&self) -> Place {
        items!(place_of_item self)
    }

    fn at(place: Place) -> Option<CurvatureCalculationMode> {
        items!(item_at place)
    }
}

impl ByKind for CurvatureCalculationMode {}
