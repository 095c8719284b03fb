//! How values are read in which no others are.

ghost use Rattle.std.specs.Prelude.{◌≡◌, IfOk, IfErr, MatchOption, MatchResult, None, Some, option_and_then};
ghost use Rattle.std.specs.Prelude.{option_map, position, string_bytes};
ghost use Rattle.std.specs.Str.{bytes_eq, chars};
ghost use Rattle.json.specs.Find.{as_bool, as_number, as_str};
ghost use Rattle.json.specs.Value.{value_view};
ghost use Rattle.rasn_types.specs.Contents.{generalized, utc};
ghost use Rattle.rasn_types.specs.Values.{octets, truth};
ghost use Rattle.rasn_traits.specs.Counted.{item_at};
ghost use Rattle.rasn_dynamic.specs.Values.{slot_of};
ghost use Rattle.hex.specs.declared.error.FromHexError.TheVariants as HexErrors;
ghost use Rattle.rasn_dynamic_jer.specs.Leaves.{fixed_by};
ghost use Rattle.rasn_dynamic_jer.specs.FromJson.{bits_in, bits_told, characters_told, count_told, counted_told};
ghost use Rattle.rasn_dynamic_jer.specs.FromJson.{digits_member, fixed_told, item_place, IsUntold, latin_told};
ghost use Rattle.rasn_dynamic_jer.specs.FromJson.{length_member, null_told, octets_in, simple_told, TellsValue};
ghost use Rattle.rasn_dynamic_jer.specs.FromJson.{time_told};
ghost use Rattle.rasn_dynamic_jer.specs.FromJson.{whole_told};
ghost use Rattle.rasn_dynamic_jer.specs.declared.from_json_error.FromJsonError.TheVariants.{OutOfMemory};

use crate::from_json_error::FromJsonError;
use crate::identifiers::read_identifier;
use crate::json_parts::member_count;
use crate::table::fixed_by;
use hex::FromHexError;
use json::Value as Json;
use rasn_dynamic::types::{Items, Simple, SizeBounds};
use rasn_dynamic::values::Value;
use rasn_schema::items::Place;
use rasn_strings::strings::{BmpString, StringError};
use rasn_types::bit_string::BitString;
use rasn_types::types::{Any, Integer};
use std::alloc::Global;

/// Reads a value of a type in which no other is.
pub(crate) fn read_simple(
    alloc: Global,
    simple: &Simple,
    json: &Json<'_>,
) -> Result<Value, FromJsonError>
    ensures { TellsValue (simple_told simple.now (value_view json.now)) result }
{
    match simple {
        Simple::Boolean => read_boolean(json),
        Simple::Null => read_null(json),
        Simple::Integer(_) => read_integer(json),
        Simple::Enumerated(items) => read_item(items, json),
        Simple::OctetString(_) => read_octets(alloc, json),
        Simple::BitString(size) => read_bits(alloc, size, json),
        Simple::NamedBits(size) => read_bits(alloc, size, json),
        Simple::Characters(_) => read_characters(alloc, json),
        Simple::Utf8 => read_utf8(alloc, json),
        Simple::Text => read_latin(alloc, json),
        Simple::ObjectIdentifier => read_identifier(alloc, json),
        Simple::UtcTime => read_utc_time(alloc, json),
        Simple::GeneralizedTime => read_generalized_time(alloc, json),
        Simple::Open => read_octets(alloc, json),
    }
}

/// Reads a BOOLEAN.
fn read_boolean(json: &Json<'_>) -> Result<Value, FromJsonError>
    ensures { TellsValue (option_map truth (as_bool (value_view json.now))) result }
{
    match json.as_bool() {
        Some(truth) => Ok(Value::Boolean(truth)),
        None => Err(FromJsonError::WrongKind),
    }
}

/// Reads a NULL.
fn read_null(json: &Json<'_>) -> Result<Value, FromJsonError>
    ensures { TellsValue (null_told (value_view json.now)) result }
{
    if json.is_null() {
        Ok(Value::Null)
    } else {
        Err(FromJsonError::WrongKind)
    }
}

/// Reads an INTEGER.
fn read_integer(json: &Json<'_>) -> Result<Value, FromJsonError>
    ensures { TellsValue (option_and_then whole_told (as_number (value_view json.now))) result }
{
    match json.as_number() {
        Some(digits) => whole_of(digits),
        None => Err(FromJsonError::WrongKind),
    }
}

/// The whole number that digits are, with a sign before them or none.
fn whole_of(digits: &str) -> Result<Value, FromJsonError>
    ensures { TellsValue (whole_told digits.now) result }
{
    match digits.parse::<i128>() {
        Ok(number) => Ok(Value::Integer(Integer::from(number))),
        Err(_) => Err(FromJsonError::BadNumber),
    }
}

/// Reads an item of an ENUMERATED by its name.
fn read_item(items: &Items, json: &Json<'_>) -> Result<Value, FromJsonError>
    ensures { TellsValue (option_map item_at (option_and_then (item_place items.now) (as_str (value_view json.now))))
        result }
{
    let Some(name) = json.as_str() else {
        return Err(FromJsonError::WrongKind);
    };
    match item_place(items, name) {
        Some(place) => Ok(Value::Item(place)),
        None => Err(FromJsonError::UnknownItem),
    }
}

/// Where the first item with a name stands.
fn item_place(items: &Items, name: &str) -> Option<Place>
    ensures { result ≡ item_place items.now name.now }
{
    match name_index(&items.roots, name) {
        Some(index) => Some(Place::Root(index)),
        None => Some(Place::Added(name_index(items.behind(), name)?)),
    }
}

/// The index of the first of some names that is this one.
fn name_index(names: &[String], name: &str) -> Option<usize>
    ensures { result ≡ position (λ n. bytes_eq (string_bytes n) name.now) names.now }
{
    names.iter().position(|own| own.as_str() == name)
}

/// Reads octets by their hexadecimal digits.
pub(crate) fn read_octets(alloc: Global, json: &Json<'_>) -> Result<Value, FromJsonError>
    ensures { TellsValue (option_map octets (option_and_then octets_in (as_str (value_view json.now)))) result }
{
    let Some(digits) = json.as_str() else {
        return Err(FromJsonError::WrongKind);
    };
    let octets = octets_of(alloc, digits)?;
    Ok(Value::Octets(Any::new(octets)))
}

/// The octets of hexadecimal digits, in either case.
pub(crate) fn octets_of(alloc: Global, digits: &str) -> Result<Vec<u8>, FromJsonError>
    ensures { MatchResult result (λ os. octets_in digits.now ≡ Some os.items) (IsUntold (octets_in digits.now)) }
{
    match hex::decode(alloc, digits) {
        Ok(octets) => Ok(octets),
        Err(error) => Err(not_hexadecimal(error)),
    }
}

/// Why no octets are told.
fn not_hexadecimal(error: FromHexError) -> FromJsonError
    ensures { error ≡ HexErrors.OutOfMemory → result ≡ OutOfMemory }
{
    match error {
        FromHexError::OutOfMemory => FromJsonError::OutOfMemory,
        _ => FromJsonError::BadHexadecimal,
    }
}

/// Reads a BIT STRING of a size.
fn read_bits(alloc: Global, size: &SizeBounds, json: &Json<'_>) -> Result<Value, FromJsonError>
    ensures { TellsValue (bits_told (fixed_by size.now) (as_str (value_view json.now)) (value_view json.now)) result }
{
    match json.as_str() {
        Some(digits) => read_fixed(alloc, fixed_by(size), digits),
        None => read_counted(alloc, json),
    }
}

/// Reads bits by their digits alone.
fn read_fixed(alloc: Global, fixed: Option<usize>, digits: &str) -> Result<Value, FromJsonError>
    ensures { TellsValue (fixed_told fixed digits.now) result }
{
    match fixed {
        Some(count) => bits_in(alloc, count, digits),
        None => Err(FromJsonError::WrongKind),
    }
}

/// So many bits by the hexadecimal digits of their octets.
fn bits_in(alloc: Global, count: usize, digits: &str) -> Result<Value, FromJsonError>
    ensures { TellsValue (bits_in count digits.now) result }
{
    let octets = octets_of(alloc, digits)?;
    if octets.len() != count.div_ceil(8) {
        return Err(FromJsonError::BadNumber);
    }
    Ok(Value::Bits(BitString::from_vec(octets, count)))
}

/// Reads bits by an object with just their digits and their number.
fn read_counted(alloc: Global, json: &Json<'_>) -> Result<Value, FromJsonError>
    ensures { TellsValue (counted_told (value_view json.now)) result }
{
    if member_count(json) != 2 {
        return Err(FromJsonError::WrongKind);
    }
    let Some(digits) = digits_member(json) else {
        return Err(FromJsonError::MissingMember);
    };
    match length_member(json) {
        Some(count) => bits_in(alloc, count, digits),
        None => Err(FromJsonError::BadNumber),
    }
}

/// The digits of bits in the member of an object.
fn digits_member<'text>(json: &Json<'text>) -> Option<&'text str>
    ensures { option_map (λ s. s.now) result ≡ digits_member (value_view json.now) }
{
    json.get("value")?.as_str()
}

/// How many bits there are by the member of an object.
fn length_member(json: &Json<'_>) -> Option<usize>
    ensures { result ≡ length_member (value_view json.now) }
{
    count_of(json.get("length")?.as_number()?)
}

/// The count that digits are.
fn count_of(digits: &str) -> Option<usize>
    ensures { result ≡ count_told digits.now }
{
    match digits.parse::<usize>() {
        Ok(count) => Some(count),
        Err(_) => None,
    }
}

/// Reads a character string whose characters are of BMPString.
fn read_characters(alloc: Global, json: &Json<'_>) -> Result<Value, FromJsonError>
    ensures { TellsValue (option_and_then characters_told (as_str (value_view json.now))) result }
{
    match json.as_str() {
        Some(text) => characters_of(alloc, text),
        None => Err(FromJsonError::WrongKind),
    }
}

/// The characters of a text, where all are of BMPString.
fn characters_of(alloc: Global, text: &str) -> Result<Value, FromJsonError>
    ensures { TellsValue (characters_told text.now) result }
{
    match BmpString::from_str(alloc, text) {
        Ok(characters) => Ok(Value::Characters(characters)),
        Err(StringError::OutOfMemory) => Err(FromJsonError::OutOfMemory),
        Err(StringError::ForeignCharacter { .. }) => Err(FromJsonError::BadCharacter),
    }
}

/// Reads a UTCTime by its text.
fn read_utc_time(alloc: Global, json: &Json<'_>) -> Result<Value, FromJsonError>
    ensures { TellsValue (option_and_then (time_told utc) (as_str (value_view json.now))) result }
{
    match json.as_str() {
        Some(text) => utc_time_of(alloc, text),
        None => Err(FromJsonError::WrongKind),
    }
}

/// The characters of a text, where they are the canonical text of a UTCTime.
fn utc_time_of(alloc: Global, text: &str) -> Result<Value, FromJsonError>
    ensures { TellsValue (time_told utc text.now) result }
{
    let value = characters_of(alloc, text)?;
    match value.to_utc_time() {
        Some(_) => Ok(value),
        None => Err(FromJsonError::BadTime),
    }
}

/// Reads a GeneralizedTime by its text.
fn read_generalized_time(alloc: Global, json: &Json<'_>) -> Result<Value, FromJsonError>
    ensures { TellsValue (option_and_then (time_told generalized) (as_str (value_view json.now))) result }
{
    match json.as_str() {
        Some(text) => generalized_time_of(alloc, text),
        None => Err(FromJsonError::WrongKind),
    }
}

/// The characters of a text, where they are the canonical text of a GeneralizedTime.
fn generalized_time_of(alloc: Global, text: &str) -> Result<Value, FromJsonError>
    ensures { TellsValue (time_told generalized text.now) result }
{
    let value = characters_of(alloc, text)?;
    match value.to_generalized_time() {
        Some(_) => Ok(value),
        None => Err(FromJsonError::BadTime),
    }
}

/// Reads a text by its octets in UTF-8.
fn read_utf8(alloc: Global, json: &Json<'_>) -> Result<Value, FromJsonError>
    ensures { TellsValue (option_map octets (as_str (value_view json.now))) result }
{
    match json.as_str() {
        Some(text) => Ok(Value::Octets(Any::new(Vec::from_slice(alloc, text.as_bytes())?))),
        None => Err(FromJsonError::WrongKind),
    }
}

/// Reads a text whose octets are the numbers of its characters.
fn read_latin(alloc: Global, json: &Json<'_>) -> Result<Value, FromJsonError>
    ensures { TellsValue (option_and_then latin_told (as_str (value_view json.now))) result }
{
    match json.as_str() {
        Some(text) => latin_of(alloc, text),
        None => Err(FromJsonError::WrongKind),
    }
}

/// The octets that are the numbers of the characters of a text.
fn latin_of(alloc: Global, text: &str) -> Result<Value, FromJsonError>
    ensures { TellsValue (latin_told text.now) result }
{
    let mut octets = Vec::new(alloc);
    for character in text.chars() {
        let number = u32::from(character);
        if number > 255 {
            return Err(FromJsonError::BadCharacter);
        }
        octets.push(number as u8)?;
    }
    Ok(Value::Octets(Any::new(octets)))
}
