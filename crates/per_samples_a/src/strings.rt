//! Character strings with a size, or with a permitted alphabet.

ghost use Rattle.std.specs.Prelude.{[], ◌∷◌, codes};
ghost use Rattle.rasn_below.specs.Components.{size◌to◌, extensible, of_characters, any};
ghost use Rattle.rasn_below.specs.Types.{from_to};
ghost use Rattle.per_core.specs.Rows.{aligned, unaligned, IsWrittenAs, IsUnwritten};

use rasn_below::types::{Ia5String, VisibleString};
use rasn_below::{AsnType, Constrained, Constraint, Constraints, Limits, constraints};

/// VisibleString (SIZE (1..3, ...))
pub type ShortVisible = Constrained<VisibleString, ShortVisibleLimits>;

/// The constraints of `ShortVisible`.
#[derive(Clone, Copy, Debug, PartialEq, Eq)]
pub struct ShortVisibleLimits;

const ONE_TO_THREE_EXTENSIBLE: &[Constraint] = constraints!(SIZE 1..=3, ...);

impl Limits for ShortVisibleLimits {
    const LIMITS: Constraints<'static> = Constraints(ONE_TO_THREE_EXTENSIBLE);

    ghost LIMITS = { extensible (size 1 to 3) };
}

/// VisibleString (SIZE (1..3, ...)): the extension bit, and beyond three characters a count without bounds; seven bits
/// a character, in APER eight from a boundary on (X.691 30.4, 30.5).
#[tactic(auto, unfolding(per_core::specs::Rows::bytes, rasn_below::specs::Types::normal))]
pub fn short_visible_is_written_past_its_size()
    ensures uper { let own = ⟦<ShortVisible as AsnType>⟧ in
        IsWrittenAs unaligned (own.schema own.CONSTRAINTS) own.levels own.value
        (record { value = codes "abcd"; limits = record {} }) (0x82 ∷ 0x61 ∷ 0xc5 ∷ 0x8f ∷ 0x20 ∷ []) }
    ensures aper { let own = ⟦<ShortVisible as AsnType>⟧ in
        IsWrittenAs aligned (own.schema own.CONSTRAINTS) own.levels own.value
        (record { value = codes "abcd"; limits = record {} }) (0x80 ∷ 0x04 ∷ 0x61 ∷ 0x62 ∷ 0x63 ∷ 0x64 ∷ []) }
{}

/// VisibleString (FROM ("A".."E")) (SIZE (1..20))
pub type LettersAToE = Constrained<VisibleString, LettersAToELimits>;

/// The constraints of `LettersAToE`.
#[derive(Clone, Copy, Debug, PartialEq, Eq)]
pub struct LettersAToELimits;

const A_TO_E: &[u32] = &[65, 66, 67, 68, 69];

const LETTERS_A_TO_E: &[Constraint] = constraints!(FROM A_TO_E, SIZE 1..=20);

impl Limits for LettersAToELimits {
    const LIMITS: Constraints<'static> = Constraints(LETTERS_A_TO_E);

    ghost LIMITS = { of_characters (from_to 5 65) (size 1 to 20) };
}

/// VisibleString (FROM ("A".."E")) (SIZE (1..20)): a character is its place in the alphabet, in three bits, in APER
/// four (X.691 30.5). A character that isn't permitted has no encoding.
#[tactic(auto, unfolding(per_core::specs::Rows::bytes, rasn_below::specs::Types::normal))]
pub fn letters_a_to_e_are_written_as_places()
    ensures uper { let own = ⟦<LettersAToE as AsnType>⟧ in
        IsWrittenAs unaligned (own.schema own.CONSTRAINTS) own.levels own.value
        (record { value = codes "AE"; limits = record {} }) (0x08 ∷ 0x80 ∷ []) }
    ensures aper { let own = ⟦<LettersAToE as AsnType>⟧ in
        IsWrittenAs aligned (own.schema own.CONSTRAINTS) own.levels own.value
        (record { value = codes "AE"; limits = record {} }) (0x08 ∷ 0x04 ∷ []) }
    ensures uper_unwritten { let own = ⟦<LettersAToE as AsnType>⟧ in
        IsUnwritten unaligned (own.schema own.CONSTRAINTS) own.levels own.value
        (record { value = codes "AF"; limits = record {} }) }
    ensures aper_unwritten { let own = ⟦<LettersAToE as AsnType>⟧ in
        IsUnwritten aligned (own.schema own.CONSTRAINTS) own.levels own.value
        (record { value = codes "AF"; limits = record {} }) }
{}

/// IA5String (FROM ("x"))
pub type OnlyX = Constrained<Ia5String, OnlyXLimits>;

/// The constraints of `OnlyX`.
#[derive(Clone, Copy, Debug, PartialEq, Eq)]
pub struct OnlyXLimits;

const X: &[u32] = &[120];

const ONLY_X: &[Constraint] = constraints!(FROM X);

impl Limits for OnlyXLimits {
    const LIMITS: Constraints<'static> = Constraints(ONLY_X);

    ghost LIMITS = { of_characters (120 ∷ []) any };
}

/// IA5String (FROM ("x")): a character takes no bits, so its count is all (X.691 30.5.2).
#[tactic(auto, unfolding(
// Words that these rows unfold.
per_core::specs::Rows::bytes, rasn_below::specs::Types::normal, rasn_below::specs::Types::interval_of))]
pub fn only_x_is_written_as_its_count()
    ensures uper { let own = ⟦<OnlyX as AsnType>⟧ in
        IsWrittenAs unaligned (own.schema own.CONSTRAINTS) own.levels own.value
        (record { value = codes "xxx"; limits = record {} }) (0x03 ∷ []) }
    ensures aper { let own = ⟦<OnlyX as AsnType>⟧ in
        IsWrittenAs aligned (own.schema own.CONSTRAINTS) own.levels own.value
        (record { value = codes "xxx"; limits = record {} }) (0x03 ∷ []) }
{}
