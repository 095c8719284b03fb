//! What a CHOICE of a SEQUENCE, an untagged CHOICE and NULL is written as.

ghost use Rattle.std.specs.Prelude.{true, [], ◌∷◌, pos};
ghost use Rattle.per_core.specs.Rows.{aligned, unaligned, IsWrittenAs};
ghost use Rattle.per_samples_a.specs.declared.alternative.Alternative.TheVariants.{X, Y};
ghost use Rattle.per_samples_a.specs.declared.nested.Nested.TheVariants.{Record, Inner, Last};

use crate::nested::Nested;
use rasn_below::schema::AsnType;

/// The index in two bits, and after that of the inner choice its own (X.691 23.6).
#[tactic(auto, unfolding(
// Words that these rows unfold.
per_core::specs::Rows::bytes, rasn_below::specs::Types::normal, rasn_below::specs::Types::settle))]
pub fn inner_choice_is_written_after_the_outer_index()
    ensures record { let own = ⟦<Nested as AsnType>⟧ in
        IsWrittenAs unaligned (own.schema own.CONSTRAINTS) own.levels own.value
        (Record (record { a = true; b = pos 5 })) (0x20 ∷ 0x20 ∷ 0xa0 ∷ []) }
    ensures inner_first { let own = ⟦<Nested as AsnType>⟧ in
        IsWrittenAs unaligned (own.schema own.CONSTRAINTS) own.levels own.value (Inner (X true)) (0x50 ∷ []) }
    ensures inner_second { let own = ⟦<Nested as AsnType>⟧ in
        IsWrittenAs unaligned (own.schema own.CONSTRAINTS) own.levels own.value
        (Inner (Y (record { value = 5; limits = record {} }))) (0x74 ∷ []) }
    ensures last { let own = ⟦<Nested as AsnType>⟧ in
        IsWrittenAs aligned (own.schema own.CONSTRAINTS) own.levels own.value Last (0x80 ∷ []) }
{}
