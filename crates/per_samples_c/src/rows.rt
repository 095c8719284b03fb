//! What is written of some records with additions.

ghost use Rattle.std.specs.Prelude.{true, false, [], ◌∷◌, Some, None};
ghost use Rattle.per_core.specs.Rows.{aligned, unaligned, IsWrittenAs};

use crate::default_outer3::DefaultOuter3;
use crate::grouped1::Grouped1;
use crate::grouped2::Grouped2;
use rasn_below::AsnType;

/// A group that holds an addition of its own alone is written, one that holds nothing isn't (X.691 19.9).
#[tactic(auto, unfolding(per_core::specs::Rows::bytes, rasn_below::specs::Types::normal))]
pub fn groups_have_additions()
    ensures newer { let own = ⟦<Grouped2 as AsnType>⟧ in
        IsWrittenAs unaligned (own.schema own.CONSTRAINTS) own.levels own.value
        (record { first = true; group = Some (record { x = None; y = Some true }) })
        (0xc0 ∷ 0x41 ∷ 0x20 ∷ 0x10 ∷ 0x18 ∷ 0x00 ∷ 0x00 ∷ []) }
    ensures empty { let own = ⟦<Grouped2 as AsnType>⟧ in
        IsWrittenAs unaligned (own.schema own.CONSTRAINTS) own.levels own.value
        (record { first = true; group = Some (record { x = None; y = None }) }) (0x40 ∷ []) }
    ensures older { let own = ⟦<Grouped1 as AsnType>⟧ in
        IsWrittenAs unaligned (own.schema own.CONSTRAINTS) own.levels own.value
        (record { first = true; group = Some (record { x = None }) }) (0x40 ∷ []) }
{}

/// A component at its default isn't written; one with an addition isn't at it (X.691 19.5).
#[tactic(auto, unfolding(per_core::specs::Rows::bytes, rasn_below::specs::Types::normal))]
pub fn defaults_have_no_additions()
    ensures default { let own = ⟦<DefaultOuter3 as AsnType>⟧ in
        IsWrittenAs aligned (own.schema own.CONSTRAINTS) own.levels own.value
        (record { o = record { first = true; second = false; group = None; after = None } }) (0x00 ∷ []) }
    ensures other { let own = ⟦<DefaultOuter3 as AsnType>⟧ in
        IsWrittenAs aligned (own.schema own.CONSTRAINTS) own.levels own.value
        (record { o = record { first = true; second = false; group = None; after = Some (7 ∷ 8 ∷ 9 ∷ []) } })
        (0xe0 ∷ 0x28 ∷ 0x03 ∷ 0x07 ∷ 0x08 ∷ 0x09 ∷ []) }
{}
