//! INTEGER (X.691 13).

ghost use Rattle.std.specs.Prelude.{◌≡◌, false, None, Ok, IfOk, IfErr, IfSome};
ghost use Rattle.rasn_constraints.specs.Bounds.{unbounded};
ghost use Rattle.rasn_constraints.specs.Constraints.{bounds_of, bounds_in, is_marked};
ghost use Rattle.per_core.specs.Basic.{IsNumberOf};
ghost use Rattle.per_core.specs.Spellings.{NoneIn};
ghost use Rattle.per_read.specs.ReaderState.{settings_of};
ghost use Rattle.per_decoding.specs.Integers.{OfEach, IsFit, IsShortNumber, Misfit, AreSome, TakesInteger};

use per_read::Reader;
use per_read::error::DecodeErrorKind;
use per_read::numbers::ReadNumber;
use rasn_constraints::bounds::OutOfBounds;
use rasn_schema::constraints::{Bounded, Constraints, Extensible};
use rasn_schema::schema::IntegerType;

/// Takes an INTEGER under the first value constraint (X.691 13).
#[inline(always)]
pub fn take_integer<I: IntegerType>(
    reader: &mut Reader<'_>,
    constraints: &Constraints,
) -> Result<I, DecodeErrorKind>
    ensures { let value = constraints.now.value in
        TakesInteger (bounds_in value) (is_marked value) I.range I.number reader.old result reader.new }
{
    match constraints.value() {
        Some(value) => take_extensible_integer(reader, value),
        None => take_unconstrained_integer(reader),
    }
}

/// Takes an INTEGER as `take_integer` does, where it is written after no extension bit, and in one field or, without
/// bounds, in few octets. After `None`, which says that none is there so, the reader is of no further use. No error
/// is made, and so none needs room.
#[inline(always)]
pub fn take_short_integer<I: IntegerType>(
    reader: &mut Reader<'_>,
    constraints: &Constraints,
) -> Option<I>
    ensures took { let value = constraints.now.value in IfSome result
        (λ i. TakesInteger (bounds_in value) (is_marked value) I.range I.number reader.old (Ok i) reader.new) }
    ensures none { let value = constraints.now.value in result ≡ None → is_marked value ≡ false
        → NoneIn (IsShortNumber (settings_of reader.old) (bounds_in value) I.range) reader.old.bits }
{
    let Some(value) = constraints.value() else {
        return take_short_unconstrained(reader);
    };
    if value.extensible {
        return None;
    }
    match value.constraint.start_and_end() {
        (None, None) => take_short_unconstrained(reader),
        _ => take_short_within(reader, &value.constraint),
    }
}

/// Takes a number without bounds, where it is written in few octets.
#[inline(always)]
fn take_short_unconstrained<I: IntegerType>(reader: &mut Reader<'_>) -> Option<I>
    ensures took { IfSome result
        (λ i. TakesInteger unbounded false I.range I.number reader.old (Ok i) reader.new) }
    ensures none { result ≡ None
        → NoneIn (IsShortNumber (settings_of reader.old) unbounded I.range) reader.old.bits }
{
    let octets = reader.take_octets_at_once()?;
    I::try_from_i128(octets.signed())
}

/// Takes a number under bounds, where there are two and one field has it.
#[inline(always)]
fn take_short_within<I: IntegerType>(reader: &mut Reader<'_>, bounds: &Bounded<i128>) -> Option<I>
    requires { AreSome (bounds_of bounds.now) }
    ensures took { IfSome result
        (λ i. TakesInteger (bounds_of bounds.now) false I.range I.number reader.old (Ok i) reader.new) }
    ensures none { result ≡ None
        → NoneIn (IsShortNumber (settings_of reader.old) (bounds_of bounds.now) I.range) reader.old.bits }
{
    let (Some(lower), Some(upper)) = bounds.start_and_end() else {
        return None;
    };
    let number = reader.take_short_between(lower, upper)?;
    fit(number, bounds).ok()
}

/// Takes a number under a value constraint. Where that has an extension marker, one bit comes first: 0 and the
/// number under the bounds, or 1 and the number without, which may be within the bounds too (X.691 13.1).
#[inline(always)]
fn take_extensible_integer<I: IntegerType>(
    reader: &mut Reader<'_>,
    value: Extensible<Bounded<i128>>,
) -> Result<I, DecodeErrorKind>
    ensures { let bounds = bounds_of value.constraint in
        TakesInteger bounds value.extensible I.range I.number reader.old result reader.new }
{
    if !value.extensible {
        return take_root_integer(reader, &value.constraint);
    }
    if reader.take_bit()? {
        return take_unconstrained_integer(reader);
    }
    take_root_integer(reader, &value.constraint)
}

/// Takes a number under bounds, where there are any (X.691 13.2).
#[inline(always)]
fn take_root_integer<I: IntegerType>(
    reader: &mut Reader<'_>,
    bounds: &Bounded<i128>,
) -> Result<I, DecodeErrorKind>
    ensures { TakesInteger (bounds_of bounds.now) false I.range I.number reader.old result reader.new }
{
    match bounds.start_and_end() {
        (None, None) => take_unconstrained_integer(reader),
        _ => take_within(reader, bounds),
    }
}

/// Takes a number under bounds, of which one at least is there (X.691 13.2).
#[inline(always)]
fn take_within<I: IntegerType>(
    reader: &mut Reader<'_>,
    bounds: &Bounded<i128>,
) -> Result<I, DecodeErrorKind>
    requires { AreSome (bounds_of bounds.now) }
    ensures { TakesInteger (bounds_of bounds.now) false I.range I.number reader.old result reader.new }
{
    let (lower, upper) = bounds.start_and_end();
    let number = reader.take_number(lower, upper)?;
    fit(number, bounds)
}

/// Takes a number without bounds, as an unconstrained whole number (X.691 11.8, 13.2.4). Superfluous leading octets
/// are taken.
#[inline(always)]
fn take_unconstrained_integer<I: IntegerType>(reader: &mut Reader<'_>) -> Result<I, DecodeErrorKind>
    ensures { TakesInteger unbounded false I.range I.number reader.old result reader.new }
{
    let Some(octets) = reader.take_octet_field()? else {
        return take_long_integer(reader);
    };
    match I::try_from_i128(octets.signed()) {
        Some(number) => Ok(number),
        None => Err(DecodeErrorKind::IntegerOverflow(I::WIDTH)),
    }
}

/// Takes an INTEGER without bounds, of any count of octets, which are kept in memory (X.691 13.2.4).
#[inline(always)]
fn take_long_integer<I: IntegerType>(reader: &mut Reader<'_>) -> Result<I, DecodeErrorKind>
    ensures { TakesInteger unbounded false I.range I.number reader.old result reader.new }
{
    let octets = reader.take_octets()?;
    if octets.is_empty() {
        return Err(DecodeErrorKind::UnexpectedEmptyInput);
    }
    match I::try_from_signed_bytes(reader.alloc(), &octets)? {
        Some(number) => Ok(number),
        None => Err(DecodeErrorKind::IntegerOverflow(I::WIDTH)),
    }
}

/// The value that a number is, first by the bounds and then by the type. A number that no `i128` holds is none, also
/// where it is within the bounds.
#[inline(always)]
fn fit<I: IntegerType>(number: ReadNumber, bounds: &Bounded<i128>) -> Result<I, DecodeErrorKind>
    ensures ok { IfOk result (λ x. IsFit (bounds_of bounds.now) I.range number (I.number x)) }
    ensures err { IfErr result (λ kind. OfEach (Misfit (bounds_of bounds.now) I.range I.WIDTH kind) number) }
{
    let (lower, upper) = bounds.start_and_end();
    let outside = match number {
        ReadNumber::Held(number) if bounds.contains(&number) => {
            return I::try_from_i128(number).ok_or(DecodeErrorKind::IntegerOverflow(I::WIDTH));
        }
        ReadNumber::Held(number) => Some(number),
        ReadNumber::Below if lower.is_some() => None,
        ReadNumber::Above if upper.is_some() => None,
        _ => return Err(DecodeErrorKind::IntegerOverflow(I::WIDTH)),
    };
    Err(DecodeErrorKind::ValueConstraintNotSatisfied(OutOfBounds::new(outside, lower, upper)))
}
