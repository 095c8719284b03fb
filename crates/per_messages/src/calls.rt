//! Messages in and out, by the type at a place of a table.

ghost use Rattle.std.specs.Prelude.{◌≡◌, ◌⊎◌, IfOk, IfErr, map};
ghost use Rattle.rasn_dynamic.specs.Types.{schema_at};
ghost use Rattle.rasn_dynamic.specs.Values.{value_of};
ghost use Rattle.rasn_per.specs.Calls.{DecodedFront};
ghost use Rattle.per_messages.specs.Messages.{AreChecked, AreOpened, AreRecoded, AreRefused, AreShown, AreUnshown};
ghost use Rattle.per_messages.specs.Messages.{AreWithoutFirst, IsFirst, IsJsonOf, IsMade, IsShownClosed, IsUnmade};
ghost use Rattle.per_messages.specs.Remarks.{told};
ghost use Rattle.per_messages.specs.declared.error.MessageError.TheVariants.{OutOfMemory};

use crate::error::MessageError;
use crate::remarks::{Remark, remarks_on};
use per_dynamic::codecs::{decode, encode};
use per_dynamic::open_types::{read_open_types, write_open_types};
use per_dynamic::{aper, uper};
use rasn_dynamic::types::Types;
use rasn_dynamic::values::Value;
use rasn_dynamic_jer::error::ToJsonError;
use rasn_dynamic_jer::read::from_json;
use rasn_dynamic_jer::write::to_json;
use rasn_per::uper::DecodeError;
use rasn_types::types::Codec;
use std::alloc::Global;

/// The canonical octets of the value that octets spell, in the variant of a codec.
pub fn recode(
    alloc: Global,
    codec: Codec,
    types: &Types,
    place: usize,
    octets: &[u8],
) -> Result<Vec<u8>, MessageError>
    ensures ok { IfOk result (λ canonical. AreRecoded types.now codec place octets.now canonical.items) }
    ensures err { IfErr result (λ e. AreRefused types.now codec place octets.now e) }
{
    let value = decode(alloc, codec, types, place, octets)?;
    let canonical = encode(alloc, codec, types, place, &value)?;
    Ok(canonical)
}

/// The value that octets spell, in the variant of a codec, with its open types read: where an object set tells the type
/// of one, and its octets are an encoding of it, the value has that, else the octets.
pub fn open(
    alloc: Global,
    codec: Codec,
    types: &Types,
    place: usize,
    octets: &[u8],
) -> Result<Value, MessageError>
    ensures ok { IfOk result (AreOpened types.now codec place octets.now) }
    ensures err { IfErr result (λ e. AreUnshown types.now codec place octets.now e ⊎ (e ≡ OutOfMemory)) }
{
    let value = decode(alloc, codec, types, place, octets)?;
    Ok(read_open_types(alloc, codec, types, place, value)?)
}

/// The JSON of the value that octets spell, in the variant of a codec, with its open types read (`open`); or where that
/// has no JSON, with their octets.
pub fn show(
    alloc: Global,
    codec: Codec,
    types: &Types,
    place: usize,
    octets: &[u8],
) -> Result<Vec<u8>, MessageError>
    ensures ok { IfOk result (λ text. AreShown types.now codec place octets.now text.items) }
    ensures err { IfErr result (λ e. AreUnshown types.now codec place octets.now e ⊎ (e ≡ OutOfMemory)) }
{
    let opened = open(alloc, codec, types, place, octets)?;
    json_of(alloc, codec, types, place, octets, &opened)
}

/// A message as JSON, and where it departs from the object sets of its open types.
#[derive(Drop)]
pub struct Checked {
    /// The JSON, as `show` has it.
    pub json: Vec<u8>,
    /// Where the message departs.
    pub remarks: Vec<Remark>,
}

/// The JSON of the value that octets spell, as `show` has it, and where this value departs from the object sets of its
/// open types.
pub fn show_checked(
    alloc: Global,
    codec: Codec,
    types: &Types,
    place: usize,
    octets: &[u8],
) -> Result<Checked, MessageError>
    ensures ok { IfOk result (λ c. AreChecked types.now codec place octets.now c.json.items
        (map told c.remarks.items)) }
    ensures err { IfErr result (λ e. AreUnshown types.now codec place octets.now e ⊎ (e ≡ OutOfMemory)) }
{
    let opened = open(alloc, codec, types, place, octets)?;
    let remarks = remarks_on(alloc, types, place, &opened)?;
    match json_of(alloc, codec, types, place, octets, &opened) {
        Ok(json) => Ok(Checked { json, remarks }),
        Err(error) => Err(error),
    }
}

/// The JSON of a value that octets spell, whose open types were read; or where that has none, of one with their octets.
fn json_of(
    alloc: Global,
    codec: Codec,
    types: &Types,
    place: usize,
    octets: &[u8],
    opened: &Value,
) -> Result<Vec<u8>, MessageError>
    ensures ok { IfOk result (λ text. IsJsonOf types.now codec place octets.now opened.now text.items) }
    ensures err { IfErr result (λ e. AreUnshown types.now codec place octets.now e ⊎ (e ≡ OutOfMemory)) }
{
    match to_json(alloc, types, place, opened) {
        Ok(text) => Ok(text),
        Err(ToJsonError::NoJson) => show_closed(alloc, codec, types, place, octets),
        Err(ToJsonError::OutOfMemory) => Err(MessageError::OutOfMemory),
    }
}

/// The JSON of the value that octets spell, in the variant of a codec, with the octets of its open types.
fn show_closed(
    alloc: Global,
    codec: Codec,
    types: &Types,
    place: usize,
    octets: &[u8],
) -> Result<Vec<u8>, MessageError>
    ensures ok { IfOk result (λ text. IsShownClosed types.now codec place octets.now text.items) }
    ensures err { IfErr result (λ e. AreUnshown types.now codec place octets.now e ⊎ (e ≡ OutOfMemory)) }
{
    let value = decode(alloc, codec, types, place, octets)?;
    Ok(to_json(alloc, types, place, &value)?)
}

/// The canonical octets of the value that a text of JSON tells, in the variant of a codec.
pub fn make(
    alloc: Global,
    codec: Codec,
    types: &Types,
    place: usize,
    text: &[u8],
) -> Result<Vec<u8>, MessageError>
    ensures ok { IfOk result (λ octets. IsMade types.now codec place text.now octets.items) }
    ensures err { IfErr result (λ e. IsUnmade types.now codec place text.now e ⊎ (e ≡ OutOfMemory)) }
{
    let value = from_json(alloc, types, place, text)?;
    let closed = write_open_types(alloc, codec, types, place, value)?;
    let canonical = encode(alloc, codec, types, place, &closed)?;
    Ok(canonical)
}

/// How many octets the encoding has, of one value, that octets begin with, in the variant of a codec. Any others may
/// follow.
pub fn first_length(
    alloc: Global,
    codec: Codec,
    types: &Types,
    place: usize,
    octets: &[u8],
) -> Result<usize, MessageError>
    ensures ok { IfOk result (IsFirst types.now codec place octets.now) }
    ensures err { IfErr result (AreWithoutFirst types.now codec place octets.now) }
{
    let (value, rest) = decode_front(alloc, codec, types, place, octets)?;
    drop(value);
    let size = octets.len() - rest.len();
    Ok(size)
}

/// The value that octets begin with, in the variant of a codec, and the octets after its encoding.
fn decode_front<'octets>(
    alloc: Global,
    codec: Codec,
    types: &Types,
    place: usize,
    octets: &'octets [u8],
) -> Result<(Value, &'octets [u8]), DecodeError>
    ensures { DecodedFront codec (schema_at types.now.kinds.items place) value_of octets.now result }
{
    match codec {
        Codec::Aper => aper::decode_with_remainder(alloc, types, place, octets),
        Codec::Uper => uper::decode_with_remainder(alloc, types, place, octets),
    }
}
