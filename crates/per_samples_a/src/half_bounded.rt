//! INTEGER with one bound.

ghost use Rattle.std.specs.Prelude.{◌-◌, ◌^◌, [], ◌∷◌, replicate, pos, negsuc};
ghost use Rattle.rasn_below.specs.Components.{up_to, from_minus, from};
ghost use Rattle.per_core.specs.Rows.{unaligned, IsWrittenAs, IsUnwritten};

use rasn_below::types::Integer;
use rasn_below::{AsnType, Constrained, Constraint, Constraints, Limits, constraints};

/// INTEGER (..65535)
pub type UpTo65535 = Constrained<Integer, UpTo65535Limits>;

/// The constraints of `UpTo65535`.
#[derive(Clone, Copy, Debug, PartialEq, Eq)]
pub struct UpTo65535Limits;

const UP_TO_65535: &[Constraint] = constraints!(..=65_535);

impl Limits for UpTo65535Limits {
    const LIMITS: Constraints<'static> = Constraints(UP_TO_65535);

    ghost LIMITS = { up_to 65535 };
}

/// INTEGER (..65535): a count of octets, and the number in two's complement, as without a bound (X.691 13.2.4). A
/// greater number has no encoding.
#[tactic(auto, unfolding(per_core::specs::Rows::bytes, rasn_below::specs::Types::normal))]
pub fn up_to_65535_is_written_as_it_is()
    ensures minus_128 { let own = ⟦<UpTo65535 as AsnType>⟧ in
        IsWrittenAs unaligned (own.schema own.CONSTRAINTS) own.levels own.value
        (record { value = negsuc 127; limits = record {} }) (0x01 ∷ 0x80 ∷ []) }
    ensures greater { let own = ⟦<UpTo65535 as AsnType>⟧ in
        IsUnwritten unaligned (own.schema own.CONSTRAINTS) own.levels own.value
        (record { value = pos 65536; limits = record {} }) }
{}

/// INTEGER (-1..)
pub type FromMinusOne = Constrained<Integer, FromMinusOneLimits>;

/// The constraints of `FromMinusOne`.
#[derive(Clone, Copy, Debug, PartialEq, Eq)]
pub struct FromMinusOneLimits;

const FROM_MINUS_ONE: &[Constraint] = constraints!(-1..);

impl Limits for FromMinusOneLimits {
    const LIMITS: Constraints<'static> = Constraints(FROM_MINUS_ONE);

    ghost LIMITS = { from_minus 1 };
}

/// INTEGER (-1..): a count of octets, and how far the number is above -1, without a sign (X.691 13.2.3). A smaller
/// number has no encoding, and by this project's limit none that no `i128` holds.
#[tactic(auto, unfolding(per_core::specs::Rows::bytes, rasn_below::specs::Types::normal))]
pub fn from_minus_one_is_written_from_its_bound()
    ensures number_4096 { let own = ⟦<FromMinusOne as AsnType>⟧ in
        IsWrittenAs unaligned (own.schema own.CONSTRAINTS) own.levels own.value
        (record { value = pos 4096; limits = record {} }) (0x02 ∷ 0x10 ∷ 0x01 ∷ []) }
    ensures greatest { let own = ⟦<FromMinusOne as AsnType>⟧ in
        IsWrittenAs unaligned (own.schema own.CONSTRAINTS) own.levels own.value
        (record { value = pos (2 ^ 127 - 1); limits = record {} }) (0x10 ∷ 0x80 ∷ replicate 15 0x00) }
    ensures past { let own = ⟦<FromMinusOne as AsnType>⟧ in
        IsUnwritten unaligned (own.schema own.CONSTRAINTS) own.levels own.value
        (record { value = pos (2 ^ 127); limits = record {} }) }
    ensures smaller { let own = ⟦<FromMinusOne as AsnType>⟧ in
        IsUnwritten unaligned (own.schema own.CONSTRAINTS) own.levels own.value
        (record { value = negsuc 1; limits = record {} }) }
{}

/// INTEGER (0..)
pub type Natural = Constrained<Integer, NaturalLimits>;

/// The constraints of `Natural`.
#[derive(Clone, Copy, Debug, PartialEq, Eq)]
pub struct NaturalLimits;

const NATURAL: &[Constraint] = constraints!(0..);

impl Limits for NaturalLimits {
    const LIMITS: Constraints<'static> = Constraints(NATURAL);

    ghost LIMITS = { from 0 };
}

/// INTEGER (0..): a count of octets, and the number without a sign (X.691 13.2.3). A negative number has no encoding.
#[tactic(auto, unfolding(per_core::specs::Rows::bytes, rasn_below::specs::Types::normal))]
pub fn natural_is_written_without_a_sign()
    ensures number_128 { let own = ⟦<Natural as AsnType>⟧ in
        IsWrittenAs unaligned (own.schema own.CONSTRAINTS) own.levels own.value
        (record { value = pos 128; limits = record {} }) (0x01 ∷ 0x80 ∷ []) }
    ensures negative { let own = ⟦<Natural as AsnType>⟧ in
        IsUnwritten unaligned (own.schema own.CONSTRAINTS) own.levels own.value
        (record { value = negsuc 0; limits = record {} }) }
{}
