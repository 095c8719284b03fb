//! OBJECT IDENTIFIERs as JSON and back (X.697): their arcs in decimal digits, with full stops between them.

ghost use Rattle.std.specs.Prelude.{◌≡◌, ℕ, MatchOption, MatchResult, None, Some};
ghost use Rattle.std.specs.Option.{option_and_then};
ghost use Rattle.json.specs.Find.{as_str};
ghost use Rattle.json.specs.Value.{value_view};
ghost use Rattle.rasn_dynamic_jer.specs.Identifiers.{identifier_json, identifier_told, numbers_in, object_with};
ghost use Rattle.rasn_dynamic_jer.specs.Identifiers.{read_on};
ghost use Rattle.rasn_dynamic_jer.specs.Puts.{Puts};
ghost use Rattle.rasn_dynamic_jer.specs.FromJson.{IsUntold, TellsValue};

use crate::error::ToJsonError;
use crate::from_json_error::FromJsonError;
use crate::leaves::put_token;
use json::{Token, Value as Json, Writer};
use rasn_dynamic::values::Value;
use rasn_jer::texts::dotted;
use rasn_types::ber::{BerError, object_identifier_as_bytes, object_identifier_from_bytes};
use rasn_types::types::Any;
use std::alloc::Global;

/// Writes the object with these contents octets.
pub(crate) fn put_identifier(
    writer: &mut Writer,
    alloc: Global,
    octets: &[u8],
) -> Result<(), ToJsonError>
    ensures { (n : ℕ) → Puts (identifier_json octets.now) n writer.old result writer.new }
{
    match object_identifier_from_bytes(alloc, octets) {
        Ok(arcs) => {
            let text = dotted(alloc, &arcs)?;
            put_token(writer, Token::String(text.as_str()))
        }
        Err(BerError::InvalidObjectIdentifier) => Err(ToJsonError::NoJson),
        Err(BerError::OutOfMemory) => Err(ToJsonError::OutOfMemory),
    }
}

/// Reads an OBJECT IDENTIFIER.
pub(crate) fn read_identifier(alloc: Global, json: &Json<'_>) -> Result<Value, FromJsonError>
    ensures { TellsValue (option_and_then identifier_told (as_str (value_view json.now))) result }
{
    let Some(text) = json.as_str() else {
        return Err(FromJsonError::WrongKind);
    };
    let arcs = numbers_in(alloc, text.as_bytes())?;
    object_with(alloc, text, &arcs)
}

/// The object with these arcs, where a text is theirs.
fn object_with(alloc: Global, text: &str, arcs: &[u32]) -> Result<Value, FromJsonError>
    ensures { TellsValue (object_with text.now arcs.now) result }
{
    let mut contents = Vec::new(alloc);
    match object_identifier_as_bytes(arcs, &mut contents) {
        Ok(()) => {}
        Err(BerError::InvalidObjectIdentifier) => return Err(FromJsonError::BadIdentifier),
        Err(BerError::OutOfMemory) => return Err(FromJsonError::OutOfMemory),
    }
    let own = dotted(alloc, arcs)?;
    if own.as_str() != text {
        return Err(FromJsonError::BadIdentifier);
    }
    Ok(Value::Octets(Any::new(contents)))
}

/// The numbers that characters spell, with a full stop between two of them.
fn numbers_in(alloc: Global, characters: &[u8]) -> Result<Vec<u32>, FromJsonError>
    ensures { MatchResult result (λ ns. numbers_in 0 characters.now ≡ Some ns.items)
        (IsUntold (numbers_in 0 characters.now)) }
{
    let mut numbers = Vec::new(alloc);
    let mut number = 0;
    for character in characters {
        if *character == b'.' {
            numbers.push(number)?;
            number = 0;
        } else {
            match read_on(number, *character) {
                Some(more) => number = more,
                None => return Err(FromJsonError::BadIdentifier),
            }
        }
    }
    numbers.push(number)?;
    Ok(numbers)
}

/// A number read on by a decimal digit; none past 32 bits.
fn read_on(number: u32, character: u8) -> Option<u32>
    ensures { result ≡ read_on number character }
{
    let digit = u32::from(character.saturating_sub(48));
    number.checked_mul(10)?.checked_add(digit)
}
