//! UTCTime and its canonical text (X.680 47, X.690 11.8).

ghost use Rattle.std.specs.Prelude.{◌≡◌, ◌↔◌, ◌≤ℤ◌, pos, ◌++◌, ◌∷◌, [], Err, true, false, length, IsOk, IfOk};
ghost use Rattle.std.specs.Prelude.{MatchOption};
ghost use Rattle.rasn_types.specs.Contents.{TimeKind, is_time, are_digits as all_are_digits};
ghost use Rattle.jiff.specs.Types.{DateTime as Plain};
ghost use Rattle.rasn_strings.specs.Moments.{is_utc_moment, utc_characters, utc_text, IsSameMoment, IsUtcMomentOf};
ghost use Rattle.rasn_strings.specs.declared.time_error.TimeError.TheVariants.{InvalidText, Unrepresentable};

use crate::moment::{are_digits, moment_of, push_moment, push_two, two};
use crate::time_error::TimeError;
use jiff::civil::DateTime;
use std::alloc::{AllocError, Allocator};

/// The canonical text of a UTCTime, YYMMDDhhmmssZ (X.690 11.8). Refused is a moment that it can't hold: of another year
/// than 1950 to 2049, or not of a whole second.
pub fn datetime_to_canonical_utc_time_bytes<A: Allocator>(
    alloc: A,
    moment: DateTime,
) -> Result<Vec<u8, A>, TimeError>
    ensures written { IfOk result (λ text. text.items ≡ utc_text moment) }
    ensures refused { (result ≡ Err Unrepresentable) ↔ (is_utc_moment moment ≡ false) }
{
    let year = moment.year();
    if year < 1950 || year > 2049 || moment.subsec_nanosecond() != 0 {
        return Err(TimeError::Unrepresentable);
    }
    Ok(written(alloc, moment)?)
}

/// The characters YYMMDDhhmmssZ of a moment.
fn written<A: Allocator>(alloc: A, moment: DateTime) -> Result<Vec<u8, A>, AllocError>
    requires { pos 0 ≤ℤ moment.date.year }
    ensures { IfOk result (λ text. text.items ≡ utc_characters moment) }
{
    let mut text = Vec::new(alloc);
    push_two(&mut text, (moment.year() % 100) as u8)?;
    push_moment(&mut text, moment)?;
    text.push(b'Z')?;
    Ok(text)
}

/// The moment with this canonical text (X.690 11.8). Refused is any other text, also one that names no moment. 50 to 99
/// mean years from 1950, 00 to 49 from 2000.
pub fn parse_canonical_utc_time_string(text: &[u8]) -> Result<DateTime, TimeError>
    ensures read { IfOk result (λ time. utc_text time ≡ text.now) }
    ensures one { (time : Plain) → is_utc_moment time ≡ true → utc_text time ≡ text.now
        → IfOk result (IsSameMoment time) }
    ensures refused { (result ≡ Err InvalidText) ↔ (is_time TimeKind.utc text.now ≡ false) }
    ensures accepted { IsOk result ↔ (is_time TimeKind.utc text.now ≡ true) }
{
    if text.len() != 13 || text[12] != b'Z' || !are_digits(&text[..12]) {
        return Err(TimeError::InvalidText);
    }
    match utc_moment(&text[..12]) {
        Some(moment) => Ok(moment),
        None => Err(TimeError::InvalidText),
    }
}

/// The moment that the digits YYMMDDhhmmss name; `None` where they name none.
fn utc_moment(digits: &[u8]) -> Option<DateTime>
    requires few { length digits.now ≡ 12 }
    requires digits { all_are_digits digits.now ≡ true }
    ensures { MatchOption result (is_time TimeKind.utc (digits.now ++ 90 ∷ []) ≡ false) (IsUtcMomentOf digits.now) }
{
    let year = two(digits, 0);
    let century = if year < 50 { 2000 } else { 1900 };
    moment_of(century + i16::from(year), &digits[2..], 0)
}
