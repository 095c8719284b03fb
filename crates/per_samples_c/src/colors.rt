//! An ENUMERATED with an item after its extension marker.

ghost use Rattle.std.specs.Prelude.{[], ◌∷◌};
ghost use Rattle.rasn_below.specs.Page.{extensible_items};
ghost use Rattle.per_core.specs.Rows.{aligned, unaligned, IsWrittenAs};
ghost use Rattle.per_samples_c.specs.Colors.{color};
ghost use Rattle.per_samples_c.specs.declared.colors.TwoColors.TheVariants.{A, B};

use rasn_below::page::*;

/// ENUMERATED { a, ..., b }
#[derive(Clone, Copy, Debug, PartialEq, Eq)]
pub enum TwoColors {
    A,
    B,
}

macro_rules! items { ($to:ident $($with:ident)*) => { $to! { [$($with)*] "a" A; ...; "b" B; } }; }

impl OfKind for TwoColors {
    type Kind = EnumeratedKind;
}

impl Items for TwoColors {
    const ITEMS: ItemLists = items!(item_lists);

    ghost ITEMS = { extensible_items 1 1 };

    ghost item = { color };

    fn place(&self) -> Place {
        items!(place_of_item self)
    }

    fn at(place: Place) -> Option<TwoColors> {
        items!(item_at place)
    }
}

impl ByKind for TwoColors {}

/// The extension bit; behind 0 the place in no bits, and behind 1 the place as a normally small number (X.691 14.3).
#[tactic(auto, unfolding(per_core::specs::Rows::bytes, rasn_below::specs::Types::normal))]
pub fn added_item_is_written_after_its_bit()
    ensures root_item { let own = ⟦<TwoColors as AsnType>⟧ in
        IsWrittenAs unaligned (own.schema own.CONSTRAINTS) own.levels own.value A (0x00 ∷ []) }
    ensures added_item { let own = ⟦<TwoColors as AsnType>⟧ in
        IsWrittenAs unaligned (own.schema own.CONSTRAINTS) own.levels own.value B (0x80 ∷ []) }
    ensures added_item_aligned { let own = ⟦<TwoColors as AsnType>⟧ in
        IsWrittenAs aligned (own.schema own.CONSTRAINTS) own.levels own.value B (0x80 ∷ []) }
{}
