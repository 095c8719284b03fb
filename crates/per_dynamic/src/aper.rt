//! The ALIGNED variant: values of the types of a table to octets and back.

ghost use Rattle.rasn_types.specs.declared.types.Codec.TheVariants.{Aper};
ghost use Rattle.rasn_dynamic.specs.Types.{schema_at};
ghost use Rattle.rasn_dynamic.specs.Values.{levels_of, value_of};
ghost use Rattle.rasn_per.specs.Calls.{Encoded, EncodedInto, Decoded, DecodedFront, DecodedZeroPadded, AnswersFew};
ghost use Rattle.rasn_per.specs.Calls.{AnswersFewInFront};

use crate::table::TypeAt;
use per_de::{DecodeError, DecoderOptions};
use per_enc::EncodeError;
use rasn_dynamic::types::Types;
use rasn_dynamic::values::Value;
use rasn_per::complete::{decode_front, decode_in, encode_in, encode_into};
use rasn_types::types::Codec;
use std::alloc::{Allocator, Global};

/// The canonical octets of a value of the type at a place of a table (X.691 11.1, 12 to 32).
///
/// Refuses with `OutOfMemory` where memory ran out, and else only a value that has no encoding, as one of another type
/// has none, or any where nothing is at the place.
pub fn encode<A: Allocator + Clone>(
    alloc: A,
    types: &Types,
    place: usize,
    value: &Value,
) -> Result<Vec<u8, A>, EncodeError>
    ensures { Encoded Aper (schema_at types.now.kinds.items place) (levels_of value.now) (value_of value.now) result }
{
    encode_in(alloc, Codec::Aper, &TypeAt::new(types, place), value)
}

/// The canonical octets of a value, as `encode` gives them, in place of what the buffer held.
///
/// Refuses as `encode` does; the buffer is empty then.
pub fn encode_buf<A: Allocator + Clone>(
    types: &Types,
    place: usize,
    value: &Value,
    buffer: &mut Vec<u8, A>,
) -> Result<(), EncodeError>
    ensures { EncodedInto Aper (schema_at types.now.kinds.items place) (levels_of value.now) (value_of value.now)
        result buffer.new.items }
{
    encode_into(Codec::Aper, &TypeAt::new(types, place), value, buffer)
}

/// The value of the type at a place of a table that all octets spell (X.691, any basic encoding; at most 128 levels).
///
/// Refuses with `OutOfMemory` where memory ran out, and else only octets that spell no value of the type.
pub fn decode(
    alloc: Global,
    types: &Types,
    place: usize,
    octets: &[u8],
) -> Result<Value, DecodeError>
    ensures decoded { Decoded Aper (schema_at types.now.kinds.items place) value_of octets.now result }
    ensures few { AnswersFew (schema_at types.now.kinds.items place) value_of octets.now result }
{
    decode_in(
        alloc,
        DecoderOptions::aligned(),
        &TypeAt::new(types, place),
        octets,
    )
}

/// The value whose complete encoding (as `decode` takes it) the octets begin with, and the octets after that.
///
/// Refuses with `OutOfMemory` where memory ran out, and else only octets that begin with no value of the type.
pub fn decode_with_remainder<'octets>(
    alloc: Global,
    types: &Types,
    place: usize,
    octets: &'octets [u8],
) -> Result<(Value, &'octets [u8]), DecodeError>
    ensures decoded { DecodedFront Aper (schema_at types.now.kinds.items place) value_of octets.now result }
    ensures few { AnswersFewInFront (schema_at types.now.kinds.items place) value_of octets.now result }
{
    decode_front(
        alloc,
        DecoderOptions::aligned(),
        &TypeAt::new(types, place),
        octets,
    )
}

/// The value that all octets spell, as `decode` gives it, where all padding and spare bits are zero, also within open
/// types (this project's choice).
///
/// Refuses as `decode` does, and with `ParserFail` where one of these bits is one.
pub fn decode_zero_padded(
    alloc: Global,
    types: &Types,
    place: usize,
    octets: &[u8],
) -> Result<Value, DecodeError>
    ensures decoded { DecodedZeroPadded Aper (schema_at types.now.kinds.items place) value_of octets.now result }
    ensures few { AnswersFew (schema_at types.now.kinds.items place) value_of octets.now result }
{
    let options = DecoderOptions::aligned().zero_padding();
    decode_in(alloc, options, &TypeAt::new(types, place), octets)
}
