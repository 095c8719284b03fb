//! What is written of SETs: their components, and the presence bits of these, in ascending order of their tags.

ghost use Rattle.std.specs.Prelude.{true, false, [], ◌∷◌, Some, None};
ghost use Rattle.per_core.specs.Rows.{aligned, unaligned, IsWrittenAs};
ghost use Rattle.per_samples_sets.specs.declared.truth_or_none.TruthOrNone.TheVariants.{M, N};

use crate::set::Set;
use crate::set_choice::SetChoice;
use crate::set_optional::SetOptional;
use rasn_below::AsnType;

/// The component with the smaller tag is first (X.691 21.1), and padding is decided in that order.
#[tactic(auto, unfolding(
// Words that these rows unfold.
per_core::specs::Rows::bytes, rasn_below::specs::Types::normal, rasn_below::specs::Types::smallest))]
pub fn components_are_in_the_order_of_their_tags()
    ensures aligned { let own = ⟦<Set as AsnType>⟧ in
        IsWrittenAs aligned (own.schema own.CONSTRAINTS) own.levels own.value
        (record { b = 5; a = true }) (0x80 ∷ 0x05 ∷ []) }
    ensures unaligned { let own = ⟦<Set as AsnType>⟧ in
        IsWrittenAs unaligned (own.schema own.CONSTRAINTS) own.levels own.value
        (record { b = 5; a = true }) (0x82 ∷ 0x80 ∷ []) }
{}

/// Presence bits are in the order of the tags, too (X.691 21.1).
#[tactic(auto, unfolding(
// Words that these rows unfold.
per_core::specs::Rows::bytes, rasn_below::specs::Types::normal, rasn_below::specs::Types::smallest))]
pub fn presence_bits_are_in_the_order_of_the_tags()
    ensures first_listed { let own = ⟦<SetOptional as AsnType>⟧ in
        IsWrittenAs unaligned (own.schema own.CONSTRAINTS) own.levels own.value
        (record { p = Some true; q = None; r = None }) (0x30 ∷ []) }
    ensures first_two { let own = ⟦<SetOptional as AsnType>⟧ in
        IsWrittenAs unaligned (own.schema own.CONSTRAINTS) own.levels own.value
        (record { p = Some true; q = Some false; r = None }) (0xa8 ∷ []) }
    ensures last_listed { let own = ⟦<SetOptional as AsnType>⟧ in
        IsWrittenAs unaligned (own.schema own.CONSTRAINTS) own.levels own.value
        (record { p = None; q = None; r = Some true }) (0x50 ∷ []) }
    ensures aligned { let own = ⟦<SetOptional as AsnType>⟧ in
        IsWrittenAs aligned (own.schema own.CONSTRAINTS) own.levels own.value
        (record { p = Some true; q = Some false; r = None }) (0xa8 ∷ []) }
{}

/// A choice without a tag of its own counts with the smallest of its alternatives', whichever is chosen (X.691 21.1).
#[tactic(auto, unfolding(
// Words that these rows unfold.
per_core::specs::Rows::bytes, rasn_below::specs::Types::normal, rasn_below::specs::Types::smallest,
// More words.
rasn_below::specs::Types::least_of))]
pub fn a_choice_counts_with_its_smallest_tag()
    ensures smallest { let own = ⟦<SetChoice as AsnType>⟧ in
        IsWrittenAs unaligned (own.schema own.CONSTRAINTS) own.levels own.value
        (record { k = true; c = M false }) (0x20 ∷ []) }
    ensures other { let own = ⟦<SetChoice as AsnType>⟧ in
        IsWrittenAs unaligned (own.schema own.CONSTRAINTS) own.levels own.value
        (record { k = false; c = N }) (0x80 ∷ []) }
    ensures aligned { let own = ⟦<SetChoice as AsnType>⟧ in
        IsWrittenAs aligned (own.schema own.CONSTRAINTS) own.levels own.value
        (record { k = false; c = N }) (0x80 ∷ []) }
{}
