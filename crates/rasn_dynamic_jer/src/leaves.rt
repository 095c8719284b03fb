//! How values are written in which no others are.

ghost use Rattle.std.specs.Prelude.{◌≡◌, ◌⊎◌, ◌<◌, ◌^◌, ℕ, suc, IfOk, IfErr, true, false, decimal, encode_utf8_all};
ghost use Rattle.std.specs.Prelude.{string_bytes};
ghost use Rattle.std.specs.Fmt.{signed_decimal};
ghost use Rattle.std.specs.Option.{unwrap_or};
ghost use Rattle.std.specs.Str.{all_scalars};
ghost use Rattle.rasn_types.specs.Alphabets.{bmp, has_all};
ghost use Rattle.rasn_types.specs.Integers.{is_i128};
ghost use Rattle.rasn_schema.specs.Forms.{size_of};
ghost use Rattle.rasn_dynamic.specs.Types.{of_size};
ghost use Rattle.json.specs.Token.{number as number_token, string as string_token};
ghost use Rattle.hex.specs.Hex.{encode_upper};
ghost use Rattle.json.specs.Print.{IsPrintable};
ghost use Rattle.json.specs.Reads.{token_of};
ghost use Rattle.rasn_dynamic_jer.specs.Leaves.{bits_json, bits_shown, characters_json, counted_json, digits_json};
ghost use Rattle.rasn_dynamic_jer.specs.Leaves.{item_json, latin_json, may_be_characters, null_json, number_json};
ghost use Rattle.rasn_dynamic_jer.specs.Leaves.{octets_json, truth_json, utf8_json};
ghost use Rattle.rasn_dynamic_jer.specs.Puts.{Puts, PutsToken};
ghost use Rattle.rasn_dynamic_jer.specs.declared.error.ToJsonError.TheVariants.{NoJson, OutOfMemory};

use crate::error::ToJsonError;
use crate::identifiers::put_identifier;
use crate::table::fixed_by;
use json::{Token, Writer};
use rasn_dynamic::times::{generalized_moment, utc_moment};
use rasn_dynamic::types::{Simple, SizeBounds};
use rasn_schema::items::Place;
use rasn_strings::strings::BmpString;
use rasn_types::bit_string::{BitString, note_octets};
use rasn_types::types::{Any, Integer};
use std::alloc::{AllocError, Global};

/// Writes a token.
#[inline(always)]
pub(crate) fn put_token(writer: &mut Writer, token: Token<'_>) -> Result<(), ToJsonError>
    requires { IsPrintable (token_of token) }
    ensures { PutsToken (token_of token.entry) writer.old result writer.new }
{
    writer.token(token)?;
    Ok(())
}

/// Writes a truth value of a type.
pub(crate) fn put_truth(
    writer: &mut Writer,
    simple: &Simple,
    truth: bool,
) -> Result<(), ToJsonError>
    ensures { (n : ℕ) → Puts (truth_json simple.now truth) n writer.old result writer.new }
{
    match simple {
        Simple::Boolean => put_token(writer, Token::Bool(truth)),
        _ => Err(ToJsonError::NoJson),
    }
}

/// Writes the value of a NULL.
pub(crate) fn put_null(writer: &mut Writer, simple: &Simple) -> Result<(), ToJsonError>
    ensures { (n : ℕ) → Puts (null_json simple.now) n writer.old result writer.new }
{
    match simple {
        Simple::Null => put_token(writer, Token::Null),
        _ => Err(ToJsonError::NoJson),
    }
}

/// Writes a number of a type.
pub(crate) fn put_number(
    writer: &mut Writer,
    simple: &Simple,
    number: &Integer,
) -> Result<(), ToJsonError>
    ensures { (n : ℕ) → Puts (number_json simple.now number.now) n writer.old result writer.new }
{
    let Simple::Integer(_) = simple else {
        return Err(ToJsonError::NoJson);
    };
    let Some(whole) = number.to_i128() else {
        return Err(ToJsonError::NoJson);
    };
    put_whole(writer, whole)
}

/// Writes a number by its decimal digits.
fn put_whole(writer: &mut Writer, number: i128) -> Result<(), ToJsonError>
    ensures written { PutsToken (number_token (signed_decimal number)) writer.old result writer.new }
    ensures held { is_i128 number ≡ true }
{
    let mut buffer = itoa::Buffer::new();
    put_token(writer, Token::Number(buffer.format(number)))
}

/// Writes an item of a type by its name.
pub(crate) fn put_item(
    writer: &mut Writer,
    simple: &Simple,
    place: Place,
) -> Result<(), ToJsonError>
    ensures { (n : ℕ) → Puts (item_json simple.now place) n writer.old result writer.new }
{
    let Simple::Enumerated(items) = simple else {
        return Err(ToJsonError::NoJson);
    };
    let Some(name) = items.name(place) else {
        return Err(ToJsonError::NoJson);
    };
    put_token(writer, Token::String(name))
}

/// Writes octets of a type.
pub(crate) fn put_octets(
    writer: &mut Writer,
    alloc: Global,
    simple: &Simple,
    octets: &Any,
) -> Result<(), ToJsonError>
    ensures { (n : ℕ) → Puts (octets_json simple.now octets.now) n writer.old result writer.new }
{
    match simple {
        Simple::OctetString(_) => put_digits(writer, alloc, octets.as_bytes()),
        Simple::Open => put_digits(writer, alloc, octets.as_bytes()),
        Simple::Utf8 => put_utf8(writer, octets.as_bytes()),
        Simple::Text => put_latin(writer, alloc, octets.as_bytes()),
        Simple::ObjectIdentifier => put_identifier(writer, alloc, octets.as_bytes()),
        _ => Err(ToJsonError::NoJson),
    }
}

/// Writes octets by their hexadecimal digits.
pub(crate) fn put_digits(
    writer: &mut Writer,
    alloc: Global,
    octets: &[u8],
) -> Result<(), ToJsonError>
    ensures { (n : ℕ) → Puts (digits_json octets.now) n writer.old result writer.new }
{
    note_octets(octets);
    put_hexadecimal(writer, alloc, octets)
}

/// Writes octets as a string of hexadecimal digits.
fn put_hexadecimal(writer: &mut Writer, alloc: Global, octets: &[u8]) -> Result<(), ToJsonError>
    ensures { PutsToken (string_token (encode_upper octets.now)) writer.old result writer.new }
{
    let digits = hex::encode_upper(alloc, octets)?;
    put_token(writer, Token::String(digits.as_str()))
}

/// Writes a text in UTF-8.
fn put_utf8(writer: &mut Writer, octets: &[u8]) -> Result<(), ToJsonError>
    ensures { (n : ℕ) → Puts (utf8_json octets.now) n writer.old result writer.new }
{
    match str::from_utf8(octets) {
        Ok(text) => put_token(writer, Token::String(text)),
        Err(_) => Err(ToJsonError::NoJson),
    }
}

/// Writes octets, each as the character with its number.
fn put_latin(writer: &mut Writer, alloc: Global, octets: &[u8]) -> Result<(), ToJsonError>
    ensures { (n : ℕ) → Puts (latin_json octets.now) n writer.old result writer.new }
{
    note_octets(octets);
    let text = latin(alloc, octets)?;
    put_token(writer, Token::String(text.as_str()))
}

/// The characters with the numbers of octets.
fn latin(alloc: Global, octets: &[u8]) -> Result<String, AllocError>
    ensures { IfOk result (λ text. string_bytes text ≡ encode_utf8_all octets.now) }
{
    let mut text = String::new(alloc);
    for octet in octets {
        text.push(char::from(*octet))?;
    }
    Ok(text)
}

/// Writes bits of a type.
pub(crate) fn put_bits(
    writer: &mut Writer,
    alloc: Global,
    simple: &Simple,
    bits: &BitString,
    levels: usize,
) -> Result<(), ToJsonError>
    ensures { Puts (bits_json levels simple.now bits.now) levels writer.old result writer.new }
{
    match simple {
        Simple::BitString(size) => put_counted(writer, alloc, fixed_by(size), bits, levels),
        Simple::NamedBits(size) => {
            let normal = bits.trimmed_to(least_of(size))?;
            put_counted(writer, alloc, fixed_by(size), &normal, levels)
        }
        _ => Err(ToJsonError::NoJson),
    }
}

/// The least count of a size, 0 where it has none.
fn least_of(size: &SizeBounds) -> usize
    ensures least { result ≡ unwrap_or (size_of (of_size size.now)).least 0 }
    ensures few { result < 2 ^ 64 }
{
    size.constraint.start_and_end().0.unwrap_or(0)
}

/// Writes bits, of which so many may be fixed.
fn put_counted(
    writer: &mut Writer,
    alloc: Global,
    fixed: Option<usize>,
    bits: &BitString,
    levels: usize,
) -> Result<(), ToJsonError>
    ensures { Puts (bits_shown levels fixed bits.now) levels writer.old result writer.new }
{
    if fixed == Some(bits.len()) {
        return put_hexadecimal(writer, alloc, bits.as_octets());
    }
    if levels == 0 {
        return Err(ToJsonError::NoJson);
    }
    put_counted_object(writer, alloc, bits)
}

/// Writes bits as an object that tells how many they are.
fn put_counted_object(
    writer: &mut Writer,
    alloc: Global,
    bits: &BitString,
) -> Result<(), ToJsonError>
    ensures { (n : ℕ) → Puts (counted_json bits.now) (suc n) writer.old result writer.new }
{
    put_token(writer, Token::BeginObject)?;
    put_token(writer, Token::Key("value"))?;
    put_hexadecimal(writer, alloc, bits.as_octets())?;
    put_token(writer, Token::Key("length"))?;
    put_count(writer, bits.len())?;
    put_token(writer, Token::EndObject)
}

/// Writes a count.
fn put_count(writer: &mut Writer, count: usize) -> Result<(), ToJsonError>
    ensures { PutsToken (number_token (decimal count)) writer.old result writer.new }
{
    writer.u64(count as u64)?;
    Ok(())
}

/// Writes characters of a type.
pub(crate) fn put_characters(
    writer: &mut Writer,
    alloc: Global,
    simple: &Simple,
    characters: &BmpString,
) -> Result<(), ToJsonError>
    ensures { (n : ℕ) → Puts (characters_json simple.now characters.now) n writer.old result writer.new }
{
    if !may_be_characters(simple, characters) {
        return Err(ToJsonError::NoJson);
    }
    let text = scalars(alloc, characters)?;
    put_token(writer, Token::String(text.as_str()))
}

/// Whether characters may be a value of a type: any of a character string's, of a time its canonical text.
fn may_be_characters(simple: &Simple, characters: &BmpString) -> bool
    ensures { result ≡ may_be_characters simple.now characters.now }
{
    match simple {
        Simple::Characters(_) => true,
        Simple::UtcTime => utc_moment(characters).is_some(),
        Simple::GeneralizedTime => generalized_moment(characters).is_some(),
        _ => false,
    }
}

/// Characters, which have to be scalar values of Unicode.
fn scalars(alloc: Global, characters: &BmpString) -> Result<String, ToJsonError>
    ensures ok { IfOk result (λ text. (all_scalars characters.now ≡ true)
        × (string_bytes text ≡ encode_utf8_all characters.now)) }
    ensures err { IfErr result (λ e. (e ≡ OutOfMemory) ⊎ ((e ≡ NoJson) × (all_scalars characters.now ≡ false))) }
    ensures own { has_all bmp characters.now ≡ true }
{
    let mut text = String::new(alloc);
    for unit in characters.as_units() {
        match char::from_u32(u32::from(*unit)) {
            Some(character) => text.push(character)?,
            None => return Err(ToJsonError::NoJson),
        }
    }
    Ok(text)
}
