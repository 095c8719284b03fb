//! What is written of records with identifiers, bags and strings of any octets.

ghost use Rattle.std.specs.Prelude.{[], ◌∷◌, Some, None, pos};
ghost use Rattle.per_core.specs.Rows.{aligned, unaligned, IsWrittenAs};
ghost use Rattle.per_samples_sets.specs.declared.key.Key.TheVariants.{Object, Other};

use crate::connect::Connect;
use crate::membership::Membership;
use crate::texts::SomeTexts;
use rasn_below::AsnType;

/// A key by an object identifier, and one by octets: the index in one bit, and a length in front of each (X.691 23.6,
/// 24, 17).
#[tactic(auto, unfolding(
// Words that these rows unfold.
per_core::specs::Rows::bytes, rasn_below::specs::Types::normal, per_core::specs::Rows::contents,
// More words.
per_core::specs::Rows::subidentifier))]
pub fn key_is_written_after_its_index()
    ensures object { let own = ⟦<Connect as AsnType>⟧ in
        IsWrittenAs aligned (own.schema own.CONSTRAINTS) own.levels own.value
        (record { key = Object (0 ∷ 0 ∷ 20 ∷ 124 ∷ 0 ∷ 1 ∷ []); pdu = 0 ∷ 1 ∷ 2 ∷ 3 ∷ [] })
        (0x00 ∷ 0x05 ∷ 0x00 ∷ 0x14 ∷ 0x7c ∷ 0x00 ∷ 0x01 ∷ 0x04 ∷ 0x00 ∷ 0x01 ∷ 0x02 ∷ 0x03 ∷ []) }
    ensures other { let own = ⟦<Connect as AsnType>⟧ in
        IsWrittenAs aligned (own.schema own.CONSTRAINTS) own.levels own.value
        (record { key = Other (0x7f ∷ []); pdu = [] }) (0x80 ∷ 0x01 ∷ 0x7f ∷ 0x00 ∷ []) }
{}

/// The members of a bag stand in the order of their encodings, after their count in two bits (X.691 22, 11.5.7).
#[tactic(auto, unfolding(
// Words that these rows unfold.
per_core::specs::Rows::bytes, rasn_below::specs::Types::normal, rasn_below::specs::Types::over_bag,
// More words.
rasn_below::specs::Values::bag_of, per_core::specs::Rows::contents, per_core::specs::Rows::subidentifier))]
pub fn members_are_written_in_order()
    ensures { let own = ⟦<Membership as AsnType>⟧ in
        IsWrittenAs aligned (own.schema own.CONSTRAINTS) own.levels own.value
        (record { group = 2 ∷ 5 ∷ []; members = pos 3 ∷ pos 1 ∷ pos 2 ∷ [] })
        (0x01 ∷ 0x55 ∷ 0x80 ∷ 0x01 ∷ 0x01 ∷ 0x01 ∷ 0x02 ∷ 0x01 ∷ 0x03 ∷ []) }
{}

/// Strings of any octets and a value whose type isn't known have a length in front (X.691 30.6, 11.2), after the
/// presence bit.
#[tactic(auto, unfolding(
// Words that these rows unfold.
per_core::specs::Rows::bytes, rasn_below::specs::Types::normal, rasn_below::specs::Types::settle))]
pub fn texts_are_octets_after_their_lengths()
    ensures { let own = ⟦<SomeTexts as AsnType>⟧ in
        IsWrittenAs aligned (own.schema own.CONSTRAINTS) own.levels own.value
        (record { title = 0x41 ∷ []; figure = []; note = Some (0xff ∷ []); rest = 0x05 ∷ 0x00 ∷ [] })
        (0x80 ∷ 0x01 ∷ 0x41 ∷ 0x00 ∷ 0x01 ∷ 0xff ∷ 0x02 ∷ 0x05 ∷ 0x00 ∷ []) }
{}
