//! The fraction of a second in the canonical text of a GeneralizedTime (X.690 11.7.2, 11.7.3).

ghost use Rattle.std.specs.Prelude.{◌≡◌, ◌<◌, ◌≤◌, ◌^◌, ◌++◌, false, OnOk, MatchOption};
ghost use Rattle.rasn_types.specs.Contents.{is_fraction, ends_well};
ghost use Rattle.rasn_strings.specs.Moments.{fraction_digits, fraction_text, IsFractionOf, IsFractionText};

use std::alloc::{AllocError, Allocator};

/// Ten to the number of places after a digit of a fraction.
fn unit_of(places: u32) -> u32
    requires { places ≤ 8 }
    ensures { result ≡ 10 ^ places }
{
    10u32.pow(places)
}

/// Appends a full stop and a fraction of a second in nanoseconds without trailing zeros; nothing for 0.
pub fn push_fraction<A: Allocator>(text: &mut Vec<u8, A>, nanosecond: u32) -> Result<(), AllocError>
    requires { nanosecond < 10 ^ 9 }
    ensures { OnOk result (text.new.items ≡ text.old.items ++ fraction_text nanosecond) }
{
    if nanosecond == 0 {
        return Ok(());
    }
    text.push(b'.')?;
    push_digits(text, nanosecond, 9)
}

/// Appends the digits of a number of at most so many places, without trailing zeros.
fn push_digits<A: Allocator>(
    text: &mut Vec<u8, A>,
    rest: u32,
    places: u32,
) -> Result<(), AllocError>
    requires few { places ≤ 9 }
    requires below { rest < 10 ^ places }
    ensures { OnOk result (text.new.items ≡ text.old.items ++ fraction_digits places rest) }
{
    if rest == 0 || places == 0 {
        return Ok(());
    }
    let unit = unit_of(places - 1);
    text.push(b'0' + (rest / unit) as u8)?;
    push_digits(text, rest % unit, places - 1)
}

/// The number of nanoseconds that is before a Z at the end, after a full stop if it isn't 0.
pub fn read_fraction(text: &[u8]) -> Option<u32>
    ensures { MatchOption result (is_fraction text.now ≡ false) (IsFractionText text.now) }
{
    if text.len() == 1 && text[0] == b'Z' {
        return Some(0);
    }
    if text.is_empty() || text[0] != b'.' {
        return None;
    }
    read_digits(&text[1..], 9)
}

/// The number of at most so many places whose digits, up to the last that isn't 0, stand before a Z at the end.
fn read_digits(text: &[u8], places: u32) -> Option<u32>
    requires { places ≤ 9 }
    ensures { MatchOption result (ends_well places text.now ≡ false) (IsFractionOf places text.now) }
{
    if places == 0 || text.is_empty() || !text[0].is_ascii_digit() {
        return None;
    }
    let unit = unit_of(places - 1);
    let first = u32::from(text[0] - b'0') * unit;
    if first > 0 && text.len() == 2 && text[1] == b'Z' {
        return Some(first);
    }
    let rest = read_digits(&text[1..], places - 1)?;
    Some(first + rest)
}
