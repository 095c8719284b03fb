//! GeneralizedTime and its canonical text (X.680 46, X.690 11.7).

ghost use Rattle.std.specs.Prelude.{◌≡◌, ◌↔◌, ◌≤ℤ◌, ◌<◌, ◌^◌, pos, Err, true, false, length, take, drop};
ghost use Rattle.std.specs.Prelude.{IsOk, IfOk, MatchOption};
ghost use Rattle.rasn_types.specs.Contents.{TimeKind, is_time, is_moment, decimal_from, are_digits as all_are_digits};
ghost use Rattle.jiff.specs.Types.{DateTime as Plain};
ghost use Rattle.rasn_strings.specs.Moments.{is_generalized_moment, generalized_characters, generalized_text};
ghost use Rattle.rasn_strings.specs.Moments.{IsSameMoment, IsGeneralizedMomentOf};
ghost use Rattle.rasn_strings.specs.declared.time_error.TimeError.TheVariants.{InvalidText, Unrepresentable};

use crate::fraction::{push_fraction, read_fraction};
use crate::moment::{are_digits, moment_of, push_moment, push_two, two};
use crate::time_error::TimeError;
use jiff::civil::DateTime;
use std::alloc::{AllocError, Allocator};

/// The canonical text of a GeneralizedTime (X.690 11.7): YYYYMMDDhhmmss, then, where the second has a fraction, a full
/// stop and its 1 to 9 digits without trailing zeros, then Z. Refused is a moment of a year before 0.
pub fn datetime_to_canonical_generalized_time_bytes<A: Allocator>(
    alloc: A,
    moment: DateTime,
) -> Result<Vec<u8, A>, TimeError>
    ensures written { IfOk result (λ text. text.items ≡ generalized_text moment) }
    ensures refused { (result ≡ Err Unrepresentable) ↔ (is_generalized_moment moment ≡ false) }
{
    if moment.year() < 0 {
        return Err(TimeError::Unrepresentable);
    }
    Ok(written(alloc, moment)?)
}

/// The characters YYYYMMDDhhmmss of a moment, the fraction of its second, and Z.
fn written<A: Allocator>(alloc: A, moment: DateTime) -> Result<Vec<u8, A>, AllocError>
    requires { pos 0 ≤ℤ moment.date.year }
    ensures { IfOk result (λ text. text.items ≡ generalized_characters moment) }
{
    let mut text = Vec::new(alloc);
    push_two(&mut text, (moment.year() / 100) as u8)?;
    push_two(&mut text, (moment.year() % 100) as u8)?;
    push_moment(&mut text, moment)?;
    push_fraction(&mut text, moment.subsec_nanosecond() as u32)?;
    text.push(b'Z')?;
    Ok(text)
}

/// The moment with this canonical text (X.690 11.7). Refused is any other text, also one that names no moment.
pub fn parse_canonical_generalized_time_string(text: &[u8]) -> Result<DateTime, TimeError>
    ensures read { IfOk result (λ time. generalized_text time ≡ text.now) }
    ensures one { (time : Plain) → is_generalized_moment time ≡ true → generalized_text time ≡ text.now
        → IfOk result (IsSameMoment time) }
    ensures refused { (result ≡ Err InvalidText) ↔ (is_time TimeKind.generalized text.now ≡ false) }
    ensures accepted { IsOk result ↔ (is_time TimeKind.generalized text.now ≡ true) }
{
    if text.len() < 14 || !are_digits(&text[..14]) {
        return Err(TimeError::InvalidText);
    }
    let nanosecond = match read_fraction(&text[14..]) {
        Some(nanosecond) => nanosecond,
        None => return Err(TimeError::InvalidText),
    };
    match generalized_moment(&text[..14], nanosecond) {
        Some(moment) => Ok(moment),
        None => Err(TimeError::InvalidText),
    }
}

/// The moment that the digits YYYYMMDDhhmmss name, with a fraction of a second in nanoseconds; `None` where they name
/// none.
fn generalized_moment(digits: &[u8], nanosecond: u32) -> Option<DateTime>
    requires few { length digits.now ≡ 14 }
    requires digits { all_are_digits digits.now ≡ true }
    requires fraction { nanosecond < 10 ^ 9 }
    ensures { MatchOption result (is_moment (decimal_from 0 (take 4 digits.now)) (drop 4 digits.now) ≡ false)
        (IsGeneralizedMomentOf digits.now nanosecond) }
{
    let year = 100 * i16::from(two(digits, 0)) + i16::from(two(digits, 2));
    moment_of(year, &digits[4..], nanosecond as i32)
}
