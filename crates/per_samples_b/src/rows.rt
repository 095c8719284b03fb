//! What is written of some records with additions.

ghost use Rattle.std.specs.Prelude.{true, false, [], ◌∷◌, Some, None};
ghost use Rattle.per_core.specs.Rows.{aligned, unaligned, IsWrittenAs};

use crate::added_default::AddedDefault;
use crate::grouped::Grouped;
use crate::none_needed::NoneNeeded;
use crate::one_needed::OneNeeded;
use crate::outer1::Outer1;
use crate::outer3::Outer3;
use rasn_below::AsnType;

/// Without additions the extension bit is 0 (X.691 19.1).
#[tactic(auto, unfolding(per_core::specs::Rows::bytes, rasn_below::specs::Types::normal))]
pub fn extension_bit_shows_additions()
    ensures none { let own = ⟦<NoneNeeded as AsnType>⟧ in
        IsWrittenAs unaligned (own.schema own.CONSTRAINTS) own.levels own.value (record {}) (0x00 ∷ []) }
    ensures first { let own = ⟦<Outer1 as AsnType>⟧ in
        IsWrittenAs unaligned (own.schema own.CONSTRAINTS) own.levels own.value
        (record { first = true; second = false }) (0x40 ∷ []) }
    ensures third { let own = ⟦<Outer3 as AsnType>⟧ in
        IsWrittenAs unaligned (own.schema own.CONSTRAINTS) own.levels own.value
        (record { first = true; second = false; group = None; after = None }) (0x40 ∷ []) }
{}

/// A required addition is written, one at its default isn't (X.691 19.7, 19.9).
#[tactic(auto, unfolding(per_core::specs::Rows::bytes, rasn_below::specs::Types::normal))]
pub fn additions_are_open_types()
    ensures needed { let own = ⟦<OneNeeded as AsnType>⟧ in
        IsWrittenAs unaligned (own.schema own.CONSTRAINTS) own.levels own.value
        (record { a = true; b = None }) (0x81 ∷ 0x80 ∷ 0x60 ∷ 0x00 ∷ []) }
    ensures default { let own = ⟦<AddedDefault as AsnType>⟧ in
        IsWrittenAs unaligned (own.schema own.CONSTRAINTS) own.levels own.value (record { a = 3 }) (0x00 ∷ []) }
    ensures other { let own = ⟦<AddedDefault as AsnType>⟧ in
        IsWrittenAs unaligned (own.schema own.CONSTRAINTS) own.levels own.value
        (record { a = 5 }) (0x80 ∷ 0x80 ∷ 0xd0 ∷ 0x00 ∷ []) }
{}

/// A group that holds nothing isn't written (X.691 19.9).
#[tactic(auto, unfolding(per_core::specs::Rows::bytes, rasn_below::specs::Types::normal))]
pub fn empty_groups_are_absent()
    ensures empty { let own = ⟦<Grouped as AsnType>⟧ in
        IsWrittenAs unaligned (own.schema own.CONSTRAINTS) own.levels own.value
        (record { first = true; group = Some (record { x = None }) }) (0x40 ∷ []) }
{}

/// A group and an addition after it.
#[tactic(auto, unfolding(per_core::specs::Rows::bytes, rasn_below::specs::Types::normal))]
pub fn groups_are_open_types()
    ensures aligned { let own = ⟦<Outer3 as AsnType>⟧ in
        IsWrittenAs aligned (own.schema own.CONSTRAINTS) own.levels own.value
        (record {
          first = true;
          second = false;
          group = Some (record { flag = true; octets = 1 ∷ 2 ∷ 3 ∷ [] });
          after = Some (7 ∷ 8 ∷ 9 ∷ []);
        })
        (0xc0 ∷ 0x70 ∷ 0x04 ∷ 0x80 ∷ 0x01 ∷ 0x02 ∷ 0x03 ∷ 0x03 ∷ 0x07 ∷ 0x08 ∷ 0x09 ∷ []) }
    ensures unaligned { let own = ⟦<Outer3 as AsnType>⟧ in
        IsWrittenAs unaligned (own.schema own.CONSTRAINTS) own.levels own.value
        (record {
          first = true;
          second = false;
          group = Some (record { flag = true; octets = 1 ∷ 2 ∷ 3 ∷ [] });
          after = Some (7 ∷ 8 ∷ 9 ∷ []);
        })
        (0xc0 ∷ 0x70 ∷ 0x48 ∷ 0x08 ∷ 0x10 ∷ 0x18 ∷ 0x00 ∷ 0x30 ∷ 0x70 ∷ 0x80 ∷ 0x90 ∷ []) }
{}
