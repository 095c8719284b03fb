//! Days as JSON tells them (X.680 38.4).

ghost use Rattle.std.specs.Prelude.{◌≡◌, ◌≤◌, ◌<◌, ℕ, false, option_and_then, slice_get, string_bytes, IfOk};
ghost use Rattle.std.specs.Prelude.{MatchOption, true};
ghost use Rattle.json.specs.Find.{as_str};
ghost use Rattle.json.specs.Value.{value_view};
ghost use Rattle.rasn_types.specs.Contents.{is_date};
ghost use Rattle.rasn_jer.specs.Strings.{day_text};
ghost use Rattle.rasn_dynamic_jer.specs.Days.{date_json, date_told, day_shown, digit_of, four_shown, is_minus};
ghost use Rattle.rasn_dynamic_jer.specs.Days.{month_shown, ShowsDay, two_shown, year_shown};
ghost use Rattle.rasn_dynamic_jer.specs.Puts.{Puts};
ghost use Rattle.rasn_dynamic_jer.specs.FromJson.{TellsValue};

use crate::error::ToJsonError;
use crate::from_json_error::FromJsonError;
use crate::leaves::put_token;
use json::{Token, Value as Json, Writer};
use rasn_dynamic::values::Value;
use rasn_jer::texts::day_of;
use rasn_strings::date::{Date, date_from_parts, date_to_parts};
use std::alloc::{AllocError, Global};

/// Writes a day, such as `"2026-11-27"`.
pub(crate) fn put_day(writer: &mut Writer, alloc: Global, date: Date) -> Result<(), ToJsonError>
    ensures { (n : ℕ) → Puts (date_json date) n writer.old result writer.new }
{
    let text = text_of(alloc, date)?;
    put_token(writer, Token::String(text.as_str()))
}

/// Reads a DATE by its text.
pub(crate) fn read_date(alloc: Global, json: &Json<'_>) -> Result<Value, FromJsonError>
    ensures { TellsValue (option_and_then date_told (as_str (value_view json.now))) result }
{
    match json.as_str() {
        Some(text) => date_of(alloc, text),
        None => Err(FromJsonError::WrongKind),
    }
}

/// The day whose text this is, such as `2026-11-27` or `-0044-03-15`.
fn date_of(alloc: Global, text: &str) -> Result<Value, FromJsonError>
    ensures { TellsValue (date_told text.now) result }
{
    let Some(date) = date_shown(text.as_bytes()) else {
        return Err(FromJsonError::BadTime);
    };
    let own = text_of(alloc, date)?;
    if own.as_str() == text {
        return Ok(Value::Date(date));
    }
    Err(FromJsonError::BadTime)
}

/// The day that the digits of a text show, whatever is between them.
fn date_shown(text: &[u8]) -> Option<Date>
    ensures { MatchOption result
        (is_date (year_shown text.now) (month_shown text.now) (day_shown text.now) ≡ false)
        (ShowsDay text.now) }
{
    match date_from_parts(year_shown(text), month_shown(text), day_shown(text)) {
        Ok(date) => Some(date),
        Err(_) => None,
    }
}

/// The year, after a minus sign where it is below zero.
fn year_shown(text: &[u8]) -> i128
    ensures { result ≡ year_shown text.now }
{
    if is_minus(text) {
        -i128::from(four_shown(text, 1))
    } else {
        i128::from(four_shown(text, 0))
    }
}

/// The month, after the year and a hyphen.
fn month_shown(text: &[u8]) -> u8
    ensures { result ≡ month_shown text.now }
{
    two_shown(text, if is_minus(text) { 6 } else { 5 })
}

/// The day of the month, after the month and a hyphen.
fn day_shown(text: &[u8]) -> u8
    ensures { result ≡ day_shown text.now }
{
    two_shown(text, if is_minus(text) { 9 } else { 8 })
}

/// Whether a text begins with a minus sign.
fn is_minus(text: &[u8]) -> bool
    ensures { result ≡ is_minus (slice_get text.now 0) }
{
    text.first() == Some(&b'-')
}

/// The number that four characters show from a place on.
fn four_shown(text: &[u8], place: usize) -> u16
    requires { place < 2 }
    ensures { result ≡ four_shown text.now place }
{
    100 * u16::from(two_shown(text, place)) + u16::from(two_shown(text, place + 2))
}

/// The number that two characters show from a place on.
fn two_shown(text: &[u8], place: usize) -> u8
    requires { place < 10 }
    ensures shown { result ≡ two_shown text.now place }
    ensures few { result ≤ 99 }
{
    10 * digit_of(text, place) + digit_of(text, place + 1)
}

/// The character at a place as a decimal digit; another counts for 0, and so does none.
fn digit_of(text: &[u8], place: usize) -> u8
    ensures shown { result ≡ digit_of (slice_get text.now place) }
    ensures few { result ≤ 9 }
{
    match text.get(place) {
        Some(character) => {
            if *character >= b'0' && *character <= b'9' {
                return *character - b'0';
            }
            0
        }
        None => 0,
    }
}

/// The text of a day.
fn text_of(alloc: Global, date: Date) -> Result<String, AllocError>
    ensures text { IfOk result (λ text. string_bytes text ≡ day_text date.year date.month date.day) }
    ensures lawful { is_date date.year date.month date.day ≡ true }
{
    let (year, month, day) = date_to_parts(date);
    day_of(alloc, year, month, day)
}
