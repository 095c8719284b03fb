//! What is written of choices with an extension marker.

ghost use Rattle.std.specs.Prelude.{true, [], ◌∷◌};
ghost use Rattle.per_core.specs.Rows.{aligned, unaligned, IsWrittenAs};
ghost use Rattle.per_samples_b.specs.declared.alt.Alt.TheVariants.{Added, Inner};
ghost use Rattle.per_samples_b.specs.declared.alt1.Alt1.TheVariants.{A as first_a};
ghost use Rattle.per_samples_b.specs.declared.alt2.Alt2.TheVariants.{A, B};
ghost use Rattle.per_samples_b.specs.declared.several.Several.TheVariants.{Done, Nothing, Small};

use crate::alt1::Alt1;
use crate::alt2::Alt2;
use crate::beside::BesideSeveral;
use crate::several::Several;
use crate::two_alternatives::TwoAlternatives;
use rasn_below::AsnType;

/// An alternative of the root is after an extension bit 0 and its index (X.691 23.5, 23.6), which has no bits
/// where it is the only one.
#[tactic(auto, unfolding(per_core::specs::Rows::bytes, rasn_below::specs::Types::normal))]
pub fn root_alternatives_are_written_after_their_index()
    ensures first { let own = ⟦<Alt1 as AsnType>⟧ in
        IsWrittenAs unaligned (own.schema own.CONSTRAINTS) own.levels own.value (first_a true) (0x40 ∷ []) }
    ensures second { let own = ⟦<Alt2 as AsnType>⟧ in
        IsWrittenAs unaligned (own.schema own.CONSTRAINTS) own.levels own.value (A true) (0x40 ∷ []) }
    ensures one_of_two { let own = ⟦<Several as AsnType>⟧ in
        IsWrittenAs unaligned (own.schema own.CONSTRAINTS) own.levels own.value Nothing (0x40 ∷ []) }
{}

/// An alternative after the marker is an extension bit 1, its index as a normally small number, and an open type
/// (X.691 23.8).
#[tactic(auto, unfolding(per_core::specs::Rows::bytes, rasn_below::specs::Types::normal))]
pub fn added_alternatives_are_open_types()
    ensures only { let own = ⟦<Alt2 as AsnType>⟧ in
        IsWrittenAs unaligned (own.schema own.CONSTRAINTS) own.levels own.value (B true)
        (0x80 ∷ 0x01 ∷ 0x80 ∷ []) }
    ensures first { let own = ⟦<Several as AsnType>⟧ in
        IsWrittenAs unaligned (own.schema own.CONSTRAINTS) own.levels own.value (Small 5)
        (0x80 ∷ 0x01 ∷ 0xa0 ∷ []) }
    ensures second { let own = ⟦<Several as AsnType>⟧ in
        IsWrittenAs aligned (own.schema own.CONSTRAINTS) own.levels own.value Done (0x81 ∷ 0x01 ∷ 0x00 ∷ []) }
{}

/// One of the root and one after the marker, in a SEQUENCE: the open type begins where an octet does in the ALIGNED
/// variant, and its contents are counted from there.
#[tactic(auto, unfolding(
// Words that these rows unfold.
per_core::specs::Rows::bytes, rasn_below::specs::Types::normal, rasn_below::specs::Types::settle))]
pub fn alternatives_stand_in_a_sequence()
    ensures aligned { let own = ⟦<TwoAlternatives as AsnType>⟧ in
        IsWrittenAs aligned (own.schema own.CONSTRAINTS) own.levels own.value
        (record {
          first = true;
          root = Inner (record { flag = true; octets = 1 ∷ 2 ∷ 3 ∷ [] });
          extension = Added (record { flag = true; octets = 1 ∷ 2 ∷ 3 ∷ [] });
          trailer = 0xab;
        })
        (0xb0 ∷ 0x01 ∷ 0x02 ∷ 0x03 ∷ 0x80 ∷ 0x04 ∷ 0x80 ∷ 0x01 ∷ 0x02 ∷ 0x03 ∷ 0xab ∷ []) }
    ensures unaligned { let own = ⟦<TwoAlternatives as AsnType>⟧ in
        IsWrittenAs unaligned (own.schema own.CONSTRAINTS) own.levels own.value
        (record {
          first = true;
          root = Inner (record { flag = true; octets = 1 ∷ 2 ∷ 3 ∷ [] });
          extension = Added (record { flag = true; octets = 1 ∷ 2 ∷ 3 ∷ [] });
          trailer = 0xab;
        })
        (0xb0 ∷ 0x10 ∷ 0x20 ∷ 0x38 ∷ 0x00 ∷ 0x48 ∷ 0x08 ∷ 0x10 ∷ 0x18 ∷ 0x0a ∷ 0xb0 ∷ []) }
{}

/// A choice without a tag of its own is written as any other.
#[tactic(auto, unfolding(
// Words that these rows unfold.
per_core::specs::Rows::bytes, rasn_below::specs::Types::normal, rasn_below::specs::Types::settle))]
pub fn an_untagged_choice_has_its_marker()
    ensures root { let own = ⟦<BesideSeveral as AsnType>⟧ in
        IsWrittenAs unaligned (own.schema own.CONSTRAINTS) own.levels own.value
        (record { choice = Nothing; lane = 3 }) (0x58 ∷ []) }
    ensures added { let own = ⟦<BesideSeveral as AsnType>⟧ in
        IsWrittenAs unaligned (own.schema own.CONSTRAINTS) own.levels own.value
        (record { choice = Small 5; lane = 3 }) (0x80 ∷ 0x01 ∷ 0xa0 ∷ 0x60 ∷ []) }
{}
