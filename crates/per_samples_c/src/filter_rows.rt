//! What a CHOICE of its own type is written as.

ghost use Rattle.std.specs.Prelude.{[], ◌∷◌};
ghost use Rattle.rasn_below.specs.Page.{alternative, list_value, octets, root};
ghost use Rattle.per_core.specs.Rows.{aligned, unaligned, IsWrittenAs};

use crate::filter::Filter;
use rasn_below::schema::AsnType;

/// A filter is an index in two bits (X.691 23.6) and the alternative: of a list the count (20.6) and the filters, of
/// octets the count (17.8) and they. In the aligned variant a count starts an octet.
#[tactic(auto, unfolding(
// Words that these rows unfold.
per_core::specs::Rows::bytes, rasn_below::specs::Types::normal, rasn_below::specs::Types::settle))]
pub fn a_filter_is_its_index_and_an_alternative()
    ensures present { let own = ⟦<Filter as AsnType>⟧ in
        IsWrittenAs unaligned (own.schema own.CONSTRAINTS) (λ _. 1) (λ v. v)
        (alternative root 3 (octets (0x61 ∷ []))) (0xc0 ∷ 0x58 ∷ 0x40 ∷ []) }
    ensures within { let own = ⟦<Filter as AsnType>⟧ in
        IsWrittenAs unaligned (own.schema own.CONSTRAINTS) (λ _. 5) (λ v. v)
        (alternative root 0 (list_value (alternative root 3 (octets (0x61 ∷ []))
        ∷ alternative root 2 (alternative root 1 (list_value [])) ∷ [])))
        (0x00 ∷ 0xb0 ∷ 0x16 ∷ 0x19 ∷ 0x00 ∷ []) }
    ensures aligned_present { let own = ⟦<Filter as AsnType>⟧ in
        IsWrittenAs aligned (own.schema own.CONSTRAINTS) (λ _. 1) (λ v. v)
        (alternative root 3 (octets (0x61 ∷ []))) (0xc0 ∷ 0x01 ∷ 0x61 ∷ []) }
    ensures aligned_within { let own = ⟦<Filter as AsnType>⟧ in
        IsWrittenAs aligned (own.schema own.CONSTRAINTS) (λ _. 5) (λ v. v)
        (alternative root 0 (list_value (alternative root 3 (octets (0x61 ∷ []))
        ∷ alternative root 2 (alternative root 1 (list_value [])) ∷ [])))
        (0x00 ∷ 0x02 ∷ 0xc0 ∷ 0x01 ∷ 0x61 ∷ 0x90 ∷ 0x00 ∷ []) }
{}
