// Written by tools/asn1/compile: change the ASN.1, not this file.
//! ProtectedZoneType, of the module ITS-Container.

ghost use Rattle.its_container.specs.declared.protected_zone_type.{
  ProtectedZoneType.TheVariants.{PermanentCenDsrcTolling, TemporaryCenDsrcTolling},
};
ghost use Rattle.rasn_below.specs.Page.{added, extensible_items, item, root};

use rasn_below::page::*;

/// ProtectedZoneType ::= ENUMERATED { permanentCenDsrcTolling(0), ..., temporaryCenDsrcTolling(1) }
#[derive(Clone, Copy, Debug, PartialEq, Eq)]
pub enum ProtectedZoneType {
    PermanentCenDsrcTolling,
    TemporaryCenDsrcTolling,
}

macro_rules! items { ($to:ident $($with:ident)*) => { $to! { [$($with)*]
    "permanentCenDsrcTolling" PermanentCenDsrcTolling;
    ...;
    "temporaryCenDsrcTolling" TemporaryCenDsrcTolling;
} }; }

impl OfKind for ProtectedZoneType {
    type Kind = EnumeratedKind;
}

impl Items for ProtectedZoneType {
    const ITEMS: ItemLists = items!(item_lists);

    ghost ITEMS = { extensible_items 1 1 };

    ghost item = { elim [
      | PermanentCenDsrcTolling ↦ item root 0
      | TemporaryCenDsrcTolling ↦ item added 0
    ] };

    fn place(&self) -> Place {
        items!(place_of_item self)
    }

    fn at(place: Place) -> Option<ProtectedZoneType> {
        items!(item_at place)
    }
}

impl ByKind for ProtectedZoneType {}
