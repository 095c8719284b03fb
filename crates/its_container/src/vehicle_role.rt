// Written by tools/asn1/compile: change the ASN.1, not this file.
//! VehicleRole, of the module ITS-Container.

ghost use Rattle.its_container.specs.declared.vehicle_role.VehicleRole.TheVariants.{Agriculture, Commercial};
ghost use Rattle.its_container.specs.declared.vehicle_role.VehicleRole.TheVariants.{DangerousGoods, Default, Emergency};
ghost use Rattle.its_container.specs.declared.vehicle_role.VehicleRole.TheVariants.{Military, PublicTransport, Rescue};
ghost use Rattle.its_container.specs.declared.vehicle_role.VehicleRole.TheVariants.{Reserved1, Reserved2, Reserved3};
ghost use Rattle.its_container.specs.declared.vehicle_role.VehicleRole.TheVariants.{RoadOperator, RoadWork, SafetyCar};
ghost use Rattle.its_container.specs.declared.vehicle_role.VehicleRole.TheVariants.{SpecialTransport, Taxi};
ghost use Rattle.rasn_below.specs.Page.{all_items, item, root};

use rasn_below::page::*;

/// VehicleRole ::= ENUMERATED { default(0), publicTransport(1), specialTransport(2), dangerousGoods(3),
///     roadWork(4), rescue(5), emergency(6), safetyCar(7), agriculture(8), commercial(9), military(10),
///     roadOperator(11), taxi(12), reserved1(13), reserved2(14), reserved3(15) }
#[derive(Clone, Copy, Debug, PartialEq, Eq)]
pub enum VehicleRole {
    Default,
    PublicTransport,
    SpecialTransport,
    DangerousGoods,
    RoadWork,
    Rescue,
    Emergency,
    SafetyCar,
    Agriculture,
    Commercial,
    Military,
    RoadOperator,
    Taxi,
    Reserved1,
    Reserved2,
    Reserved3,
}

macro_rules! items { ($to:ident $($with:ident)*) => { $to! { [$($with)*]
    "default" Default;
    "publicTransport" PublicTransport;
    "specialTransport" SpecialTransport;
    "dangerousGoods" DangerousGoods;
    "roadWork" RoadWork;
    "rescue" Rescue;
    "emergency" Emergency;
    "safetyCar" SafetyCar;
    "agriculture" Agriculture;
    "commercial" Commercial;
    "military" Military;
    "roadOperator" RoadOperator;
    "taxi" Taxi;
    "reserved1" Reserved1;
    "reserved2" Reserved2;
    "reserved3" Reserved3;
} }; }

impl OfKind for VehicleRole {
    type Kind = EnumeratedKind;
}

impl Items for VehicleRole {
    const ITEMS: ItemLists = items!(item_lists);

    ghost ITEMS = { all_items 16 };

    ghost item = { elim [
      | Default ↦ item root 0
      | PublicTransport ↦ item root 1
      | SpecialTransport ↦ item root 2
      | DangerousGoods ↦ item root 3
      | RoadWork ↦ item root 4
      | Rescue ↦ item root 5
      | Emergency ↦ item root 6
      | SafetyCar ↦ item root 7
      | Agriculture ↦ item root 8
      | Commercial ↦ item root 9
      | Military ↦ item root 10
      | RoadOperator ↦ item root 11
      | Taxi ↦ item root 12
      | Reserved1 ↦ item root 13
      | Reserved2 ↦ item root 14
      | Reserved3 ↦ item root 15
    ] };

    fn place(&self) -> Place {
        items!(place_of_item self)
    }

    fn at(place: Place) -> Option<VehicleRole> {
        items!(item_at place)
    }
}

impl ByKind for VehicleRole {}
