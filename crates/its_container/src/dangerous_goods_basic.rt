// Written by tools/asn1/compile: change the ASN.1, not this file.
//! DangerousGoodsBasic, of the module ITS-Container.

ghost use Rattle.its_container.specs.declared.dangerous_goods_basic.{
  DangerousGoodsBasic.TheVariants.{CorrosiveSubstances, Explosives1, Explosives2, Explosives3, Explosives4},
  DangerousGoodsBasic.TheVariants.{Explosives5, Explosives6, FlammableGases, FlammableLiquids, FlammableSolids},
  DangerousGoodsBasic.TheVariants.{InfectiousSubstances, MiscellaneousDangerousSubstances, NonFlammableGases},
  DangerousGoodsBasic.TheVariants.{OrganicPeroxides, OxidizingSubstances, RadioactiveMaterial},
  DangerousGoodsBasic.TheVariants.{SubstancesEmittingFlammableGasesUponContactWithWater},
  DangerousGoodsBasic.TheVariants.{SubstancesLiableToSpontaneousCombustion, ToxicGases, ToxicSubstances},
};
ghost use Rattle.rasn_below.specs.Page.{all_items, item, root};

use rasn_below::page::*;

/// DangerousGoodsBasic ::= ENUMERATED { explosives1(0), explosives2(1), explosives3(2), explosives4(3),
///     explosives5(4), explosives6(5), flammableGases(6), nonFlammableGases(7), toxicGases(8), flammableLiquids(9),
///     flammableSolids(10), substancesLiableToSpontaneousCombustion(11),
///     substancesEmittingFlammableGasesUponContactWithWater(12), oxidizingSubstances(13), organicPeroxides(14),
///     toxicSubstances(15), infectiousSubstances(16), radioactiveMaterial(17), corrosiveSubstances(18),
///     miscellaneousDangerousSubstances(19) }
#[derive(Clone, Copy, Debug, PartialEq, Eq)]
pub enum DangerousGoodsBasic {
    Explosives1,
    Explosives2,
    Explosives3,
    Explosives4,
    Explosives5,
    Explosives6,
    FlammableGases,
    NonFlammableGases,
    ToxicGases,
    FlammableLiquids,
    FlammableSolids,
    SubstancesLiableToSpontaneousCombustion,
    SubstancesEmittingFlammableGasesUponContactWithWater,
    OxidizingSubstances,
    OrganicPeroxides,
    ToxicSubstances,
    InfectiousSubstances,
    RadioactiveMaterial,
    CorrosiveSubstances,
    MiscellaneousDangerousSubstances,
}

macro_rules! items { ($to:ident $($with:ident)*) => { $to! { [$($with)*]
    "explosives1" Explosives1;
    "explosives2" Explosives2;
    "explosives3" Explosives3;
    "explosives4" Explosives4;
    "explosives5" Explosives5;
    "explosives6" Explosives6;
    "flammableGases" FlammableGases;
    "nonFlammableGases" NonFlammableGases;
    "toxicGases" ToxicGases;
    "flammableLiquids" FlammableLiquids;
    "flammableSolids" FlammableSolids;
    "substancesLiableToSpontaneousCombustion" SubstancesLiableToSpontaneousCombustion;
    "substancesEmittingFlammableGasesUponContactWithWater" SubstancesEmittingFlammableGasesUponContactWithWater;
    "oxidizingSubstances" OxidizingSubstances;
    "organicPeroxides" OrganicPeroxides;
    "toxicSubstances" ToxicSubstances;
    "infectiousSubstances" InfectiousSubstances;
    "radioactiveMaterial" RadioactiveMaterial;
    "corrosiveSubstances" CorrosiveSubstances;
    "miscellaneousDangerousSubstances" MiscellaneousDangerousSubstances;
} }; }

impl OfKind for DangerousGoodsBasic {
    type Kind = EnumeratedKind;
}

impl Items for DangerousGoodsBasic {
    const ITEMS: ItemLists = items!(item_lists);

    ghost ITEMS = { all_items 20 };

    ghost item = { elim [
      | Explosives1 ↦ item root 0
      | Explosives2 ↦ item root 1
      | Explosives3 ↦ item root 2
      | Explosives4 ↦ item root 3
      | Explosives5 ↦ item root 4
      | Explosives6 ↦ item root 5
      | FlammableGases ↦ item root 6
      | NonFlammableGases ↦ item root 7
      | ToxicGases ↦ item root 8
      | FlammableLiquids ↦ item root 9
      | FlammableSolids ↦ item root 10
      | SubstancesLiableToSpontaneousCombustion ↦ item root 11
      | SubstancesEmittingFlammableGasesUponContactWithWater ↦ item root 12
      | OxidizingSubstances ↦ item root 13
      | OrganicPeroxides ↦ item root 14
      | ToxicSubstances ↦ item root 15
      | InfectiousSubstances ↦ item root 16
      | RadioactiveMaterial ↦ item root 17
      | CorrosiveSubstances ↦ item root 18
      | MiscellaneousDangerousSubstances ↦ item root 19
    ] };

    fn place(&self) -> Place {
        items!(place_of_item self)
    }

    fn at(place: Place) -> Option<DangerousGoodsBasic> {
        items!(item_at place)
    }
}

impl ByKind for DangerousGoodsBasic {}
