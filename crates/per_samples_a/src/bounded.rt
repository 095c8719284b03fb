//! INTEGER with both bounds.

ghost use Rattle.std.specs.Prelude.{[], ◌∷◌, pos, negsuc};
ghost use Rattle.rasn_below.specs.Components.{◌to◌, minus◌to◌, extensible};
ghost use Rattle.per_core.specs.Rows.{aligned, unaligned, IsWrittenAs, IsUnwritten};

use rasn_below::types::Integer;
use rasn_below::{AsnType, Constrained, Constraint, Constraints, Limits, constraints};

/// INTEGER (0..65536)
pub type ZeroTo65536 = Constrained<Integer, ZeroTo65536Limits>;

/// The constraints of `ZeroTo65536`.
#[derive(Clone, Copy, Debug, PartialEq, Eq)]
pub struct ZeroTo65536Limits;

const ZERO_TO_65536: &[Constraint] = constraints!(0..=65_536);

impl Limits for ZeroTo65536Limits {
    const LIMITS: Constraints<'static> = Constraints(ZERO_TO_65536);

    ghost LIMITS = { 0 to 65536 };
}

/// INTEGER (0..65536), of more than 64K values: in APER a count of octets in two bits, and the octets on a boundary
/// (X.691 11.5.7.4). A number out of bounds has no encoding.
#[tactic(auto, unfolding(per_core::specs::Rows::bytes, rasn_below::specs::Types::normal))]
pub fn zero_to_65536_is_written_in_counted_octets()
    ensures number_253 { let own = ⟦<ZeroTo65536 as AsnType>⟧ in
        IsWrittenAs aligned (own.schema own.CONSTRAINTS) own.levels own.value
        (record { value = pos 253; limits = record {} }) (0x00 ∷ 0xfd ∷ []) }
    ensures number_256 { let own = ⟦<ZeroTo65536 as AsnType>⟧ in
        IsWrittenAs aligned (own.schema own.CONSTRAINTS) own.levels own.value
        (record { value = pos 256; limits = record {} }) (0x40 ∷ 0x01 ∷ 0x00 ∷ []) }
    ensures number_65536 { let own = ⟦<ZeroTo65536 as AsnType>⟧ in
        IsWrittenAs aligned (own.schema own.CONSTRAINTS) own.levels own.value
        (record { value = pos 65536; limits = record {} }) (0x80 ∷ 0x01 ∷ 0x00 ∷ 0x00 ∷ []) }
    ensures greater { let own = ⟦<ZeroTo65536 as AsnType>⟧ in
        IsUnwritten aligned (own.schema own.CONSTRAINTS) own.levels own.value
        (record { value = pos 65537; limits = record {} }) }
    ensures negative { let own = ⟦<ZeroTo65536 as AsnType>⟧ in
        IsUnwritten aligned (own.schema own.CONSTRAINTS) own.levels own.value
        (record { value = negsuc 0; limits = record {} }) }
{}

/// INTEGER (1..10, ...)
pub type OneToTenExtensible = Constrained<Integer, OneToTenExtensibleLimits>;

/// The constraints of `OneToTenExtensible`.
#[derive(Clone, Copy, Debug, PartialEq, Eq)]
pub struct OneToTenExtensibleLimits;

const ONE_TO_TEN_EXTENSIBLE: &[Constraint] = constraints!(1..=10, ...);

impl Limits for OneToTenExtensibleLimits {
    const LIMITS: Constraints<'static> = Constraints(ONE_TO_TEN_EXTENSIBLE);

    ghost LIMITS = { extensible (1 to 10) };
}

/// INTEGER (1..10, ...): the extension bit; within the bounds four bits, and else the number as without bounds
/// (X.691 13.1).
#[tactic(auto, unfolding(per_core::specs::Rows::bytes, rasn_below::specs::Types::normal))]
pub fn one_to_ten_extensible_is_written_after_its_bit()
    ensures number_5 { let own = ⟦<OneToTenExtensible as AsnType>⟧ in
        IsWrittenAs unaligned (own.schema own.CONSTRAINTS) own.levels own.value
        (record { value = pos 5; limits = record {} }) (0x20 ∷ []) }
    ensures number_10 { let own = ⟦<OneToTenExtensible as AsnType>⟧ in
        IsWrittenAs unaligned (own.schema own.CONSTRAINTS) own.levels own.value
        (record { value = pos 10; limits = record {} }) (0x48 ∷ []) }
    ensures number_11 { let own = ⟦<OneToTenExtensible as AsnType>⟧ in
        IsWrittenAs unaligned (own.schema own.CONSTRAINTS) own.levels own.value
        (record { value = pos 11; limits = record {} }) (0x80 ∷ 0x85 ∷ 0x80 ∷ []) }
    ensures number_16 { let own = ⟦<OneToTenExtensible as AsnType>⟧ in
        IsWrittenAs unaligned (own.schema own.CONSTRAINTS) own.levels own.value
        (record { value = pos 16; limits = record {} }) (0x80 ∷ 0x88 ∷ 0x00 ∷ []) }
{}

/// INTEGER (-1..254) in a type that lacks -1.
pub type MinusOneTo254 = Constrained<u8, MinusOneTo254Limits>;

/// The constraints of `MinusOneTo254`.
#[derive(Clone, Copy, Debug, PartialEq, Eq)]
pub struct MinusOneTo254Limits;

const MINUS_ONE_TO_254: &[Constraint] = constraints!(-1..=254);

impl Limits for MinusOneTo254Limits {
    const LIMITS: Constraints<'static> = Constraints(MINUS_ONE_TO_254);

    ghost LIMITS = { minus 1 to 254 };
}

/// INTEGER (-1..254): in UPER eight bits, how far the number is above -1 (X.691 11.5.6). 255 has no encoding.
#[tactic(auto, unfolding(per_core::specs::Rows::bytes, rasn_below::specs::Types::normal))]
pub fn minus_one_to_254_is_written_from_its_bound()
    ensures number_5 { let own = ⟦<MinusOneTo254 as AsnType>⟧ in
        IsWrittenAs unaligned (own.schema own.CONSTRAINTS) own.levels own.value
        (record { value = 5; limits = record {} }) (0x06 ∷ []) }
    ensures greater { let own = ⟦<MinusOneTo254 as AsnType>⟧ in
        IsUnwritten unaligned (own.schema own.CONSTRAINTS) own.levels own.value
        (record { value = 255; limits = record {} }) }
{}
