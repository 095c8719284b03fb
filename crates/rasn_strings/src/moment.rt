//! What the texts of UTCTime and GeneralizedTime have in common: the characters MMDDhhmmss.

ghost use Rattle.std.specs.Prelude.{◌≡◌, ◌≤◌, ◌≤ℤ◌, ◌+◌, ◌++◌, length, pos, true, false, OnOk, MatchOption};
ghost use Rattle.rasn_types.specs.Contents.{year_size, are_digits as all_are_digits, is_moment, two as number_of_two};
ghost use Rattle.jiff.specs.Words.{IsBetween};
ghost use Rattle.rasn_strings.specs.Moments.{two_digits, month_to_second, IsMomentOf};

use jiff::civil::DateTime;
use std::alloc::{AllocError, Allocator};

/// Whether all characters are decimal digits.
pub(crate) fn are_digits(text: &[u8]) -> bool
    ensures { result ≡ all_are_digits text.now }
{
    for character in text {
        if !character.is_ascii_digit() {
            return false;
        }
    }
    true
}

/// The number of the two digits from a place on.
pub(crate) fn two(digits: &[u8], at: usize) -> i8
    requires within { at + 2 ≤ length digits.now }
    requires digits { all_are_digits digits.now ≡ true }
    ensures { result ≡ pos (number_of_two at digits.now) }
{
    (10 * (digits[at] - b'0') + (digits[at + 1] - b'0')) as i8
}

/// The moment of a year that the digits MMDDhhmmss name, with a fraction of a second in nanoseconds; `None` where they
/// name none.
pub(crate) fn moment_of(year: i16, digits: &[u8], nanosecond: i32) -> Option<DateTime>
    requires year { pos 0 ≤ℤ year }
    requires few { length digits.now ≡ 10 }
    requires digits { all_are_digits digits.now ≡ true }
    requires fraction { IsBetween (pos 0) (pos 999_999_999) nanosecond }
    ensures { MatchOption result (is_moment (year_size year) digits.now ≡ false)
        (IsMomentOf year digits.now nanosecond) }
{
    let (month, day) = (two(digits, 0), two(digits, 2));
    let (hour, minute, second) = (two(digits, 4), two(digits, 6), two(digits, 8));
    DateTime::new(year, month, day, hour, minute, second, nanosecond).ok()
}

/// Appends the two last decimal digits of a number.
pub(crate) fn push_two<A: Allocator>(text: &mut Vec<u8, A>, number: u8) -> Result<(), AllocError>
    ensures { OnOk result (text.new.items ≡ text.old.items ++ two_digits number) }
{
    text.push(b'0' + number / 10 % 10)?;
    text.push(b'0' + number % 10)?;
    Ok(())
}

/// Appends the characters MMDDhhmmss of a moment.
pub(crate) fn push_moment<A: Allocator>(
    text: &mut Vec<u8, A>,
    moment: DateTime,
) -> Result<(), AllocError>
    ensures { OnOk result (text.new.items ≡ text.old.items ++ month_to_second moment) }
{
    push_two(text, moment.month() as u8)?;
    push_two(text, moment.day() as u8)?;
    push_two(text, moment.hour() as u8)?;
    push_two(text, moment.minute() as u8)?;
    push_two(text, moment.second() as u8)
}
