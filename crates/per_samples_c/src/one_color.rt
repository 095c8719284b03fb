//! An ENUMERATED with an extension marker and no item after it.

ghost use Rattle.rasn_below.specs.Page.{extensible_items};
ghost use Rattle.per_samples_c.specs.OneColors.{only_color};

use rasn_below::page::*;

/// ENUMERATED { a, ... }
#[derive(Clone, Copy, Debug, PartialEq, Eq)]
pub enum OneColor {
    A,
}

macro_rules! items { ($to:ident $($with:ident)*) => { $to! { [$($with)*] "a" A; ...; } }; }

impl OfKind for OneColor {
    type Kind = EnumeratedKind;
}

impl Items for OneColor {
    const ITEMS: ItemLists = items!(item_lists);

    ghost ITEMS = { extensible_items 1 0 };

    ghost item = { only_color };

    fn place(&self) -> Place {
        items!(place_of_item self)
    }

    fn at(place: Place) -> Option<OneColor> {
        items!(item_at place)
    }
}

impl ByKind for OneColor {}
