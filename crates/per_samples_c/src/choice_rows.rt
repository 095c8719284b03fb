//! What a CHOICE is written as of which an alternative is a choice without a tag of its own.

ghost use Rattle.std.specs.Prelude.{true, [], ◌∷◌};
ghost use Rattle.per_core.specs.Rows.{unaligned, IsWrittenAs};
ghost use Rattle.per_samples_c.specs.declared.inner_choice.Inner.TheVariants.{P, Q};
ghost use Rattle.per_samples_c.specs.declared.choice.Outer.TheVariants.{X, Y, Z};

use crate::choice::Outer;
use rasn_below::schema::AsnType;

/// The index in two bits, and after that of the inner choice its own (X.691 23.6): it is one alternative.
#[tactic(auto, unfolding(
// Words that these rows unfold.
per_core::specs::Rows::bytes, rasn_below::specs::Types::normal, rasn_below::specs::Types::settle))]
pub fn an_untagged_choice_is_one_alternative()
    ensures x { let own = ⟦<Outer as AsnType>⟧ in
        IsWrittenAs unaligned (own.schema own.CONSTRAINTS) own.levels own.value (X true) (0x20 ∷ []) }
    ensures p { let own = ⟦<Outer as AsnType>⟧ in
        IsWrittenAs unaligned (own.schema own.CONSTRAINTS) own.levels own.value (Y (P true)) (0x50 ∷ []) }
    ensures q { let own = ⟦<Outer as AsnType>⟧ in
        IsWrittenAs unaligned (own.schema own.CONSTRAINTS) own.levels own.value (Y Q) (0x60 ∷ []) }
    ensures z { let own = ⟦<Outer as AsnType>⟧ in
        IsWrittenAs unaligned (own.schema own.CONSTRAINTS) own.levels own.value Z (0x80 ∷ []) }
{}
