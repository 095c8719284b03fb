//! INTEGER (X.691 13).

ghost use Rattle.std.specs.Prelude.{◌≡◌, ◌<ℤ◌, ◌↔◌, IsTrue, pos, true, false, IfOk, MatchOption};
ghost use Rattle.rasn_types.specs.Bits.{signed};
ghost use Rattle.rasn_types.specs.Values.{whole};
ghost use Rattle.rasn_constraints.specs.Bounds.{holds};
ghost use Rattle.rasn_traits.specs.Calls.{Writes};
ghost use Rattle.rasn_constraints.specs.Constraints.{bounds_of};
ghost use Rattle.per_write.specs.Rules.{encoder_rules};
ghost use Rattle.per_enc.specs.Integers.{IsBetween, PutsWithin, stated_number};
ghost use Rattle.per_enc.specs.declared.integers.Between.{Between};

use per_bits::BitList;
use per_write::Writer;
use per_write::error::{EncodeError, EncodeErrorKind};
use per_write::numbers::number_octets;
use rasn_constraints::bounds::OutOfBounds;
use rasn_schema::constraints::{Bounded, Extensible};
use rasn_schema::schema::IntegerType;
use std::alloc::{AllocError, Allocator};

/// Writes an INTEGER that is within bounds, in the form that these give it (X.691 13.2). Where there is a bound, an
/// error can say that the number is past an `i128`.
#[inline(always)]
fn put_within<A: Allocator + Clone, I: IntegerType>(
    writer: &mut Writer<A>,
    bounds: &Bounded<i128>,
    value: &I,
) -> Result<(), EncodeError>
    requires begun { writer.old.failed ≡ false }
    requires within { holds (bounds_of bounds.now) (I.number value.now) ≡ true }
    ensures { PutsWithin (bounds_of bounds.now) (I.number value.now) writer.old result writer.new }
{
    let (lower, upper) = bounds.start_and_end();
    if let (None, None) = (lower, upper) {
        return writer.put_unconstrained_whole(value);
    }
    let Some(number) = value.to_i128() else {
        return Err(writer.refuse(EncodeErrorKind::IntegerTypeConversionFailed));
    };
    writer.put_number(lower, upper, number)
}

/// A number and the two bounds that it is within.
pub struct Between {
    /// The lower bound.
    pub lower: i128,
    /// The upper bound.
    pub upper: i128,
    /// The number.
    pub number: i128,
}

/// A number and its bounds, where there are both, it is within them, and no extension bit precedes it (X.691 13.2.1,
/// 13.2.2): then `Writer::put_between` writes it. `None` where this isn't so.
#[inline(always)]
pub fn number_between<I: IntegerType>(
    stated: &Extensible<Bounded<i128>>,
    value: &I,
) -> Option<Between>
    ensures { let between = IsBetween stated.now I.range (I.number value.now) in
        MatchOption result ((b : Between) → between b → ⊥) between }
{
    let (Some(lower), Some(upper)) = stated.constraint.start_and_end() else {
        return None;
    };
    let number = value.to_i128()?;
    if stated.extensible || !stated.constraint.contains(&number) {
        return None;
    }
    Some(Between {
        lower,
        upper,
        number,
    })
}

/// Writes an INTEGER under a value constraint (X.691 13): where the constraint is extensible, after a bit that
/// says whether the number is outside.
#[inline(never)]
pub fn put_integer<A: Allocator + Clone, I: IntegerType>(
    writer: &mut Writer<A>,
    stated: Extensible<Bounded<i128>>,
    value: &I,
) -> Result<(), EncodeError>
    requires { writer.old.failed ≡ false }
    ensures { Writes encoder_rules (stated_number stated I.range)
        (whole (I.number value.now)) writer.old result writer.new }
{
    let bounds = stated.constraint;
    let number = value.to_i128();
    let within = is_within(writer.pieces().bits(), &bounds, value);
    let within = writer.unless_out_of_memory(within)?;
    match (within, stated.extensible) {
        (true, false) => put_within(writer, &bounds, value),
        (true, true) => {
            writer.put_bit(false)?;
            put_within(writer, &bounds, value)
        }
        (false, true) => {
            writer.put_bit(true)?;
            writer.put_unconstrained_whole(value)
        }
        (false, false) => {
            let (lower, upper) = bounds.start_and_end();
            let told = OutOfBounds::new(number, lower, upper);
            Err(writer.refuse(EncodeErrorKind::ValueConstraintNotSatisfied(told)))
        }
    }
}

/// Whether a number is within bounds. Memory, from where that of the bits is, is taken only where an `i128` doesn't
/// hold the number.
#[inline(always)]
fn is_within<A: Allocator + Clone, I: IntegerType>(
    bits: &BitList<A>,
    bounds: &Bounded<i128>,
    number: &I,
) -> Result<bool, AllocError>
    ensures { IfOk result (λ within. within ≡ holds (bounds_of bounds.now) (I.number number.now)) }
{
    if let Some(number) = number.to_i128() {
        return Ok(bounds.contains(&number));
    }
    let octets = number_octets(bits, number)?;
    let (lower, upper) = bounds.start_and_end();
    Ok(if is_negative(&octets) {
        lower.is_none()
    } else {
        upper.is_none()
    })
}

/// Whether octets in two's complement mean a number below 0 (X.690 8.3.3).
fn is_negative(octets: &[u8]) -> bool
    ensures { IsTrue result ↔ (signed octets.now <ℤ pos 0) }
{
    octets.first().is_some_and(|first| *first >= 128)
}
