//! The UNALIGNED variant: values to octets and back.

ghost use Rattle.rasn_types.specs.declared.types.Codec.TheVariants.{Uper};
ghost use Rattle.rasn_per.specs.Calls.{Encoded, EncodedInto, EncodedOnto, Decoded, DecodedFront, DecodedZeroPadded};
ghost use Rattle.rasn_per.specs.Calls.{AnswersFew, AnswersFewInFront};

pub use crate::complete::lawful;
use crate::complete::{decode_front, decode_in, encode_behind, encode_in, encode_into};
pub use crate::per;
pub use crate::per::de::Decoder;
pub use crate::per::enc::Encoder;
use per_de::DecoderOptions;
pub use per_de::error::{DecodeError, DecodeErrorKind, ParserFailCause};
pub use per_enc::{EncodeError, EncodeErrorKind};
use rasn_codec::codec::{Decode, Encode};
use rasn_schema::constraints::Constraints;
use rasn_types::types::Codec;
use std::alloc::{Allocator, Global};

/// The canonical octets of a value (X.691 11.1, 12 to 32).
///
/// Refuses with `OutOfMemory` where memory ran out, and else only a value that has no encoding.
pub fn encode<T: Encode, A: Allocator + Clone>(
    alloc: A,
    value: &T,
) -> Result<Vec<u8, A>, EncodeError>
    ensures { Encoded Uper (T.schema T.CONSTRAINTS) (T.levels value.now) (T.value value.now) result }
{
    encode_in(alloc, Codec::Uper, &T::CONSTRAINTS, value)
}

/// The canonical octets of a value, as `encode` gives them, in place of what the buffer held.
///
/// Refuses as `encode` does; the buffer is empty then.
pub fn encode_buf<T: Encode, A: Allocator + Clone>(
    value: &T,
    buffer: &mut Vec<u8, A>,
) -> Result<(), EncodeError>
    ensures { EncodedInto Uper (T.schema T.CONSTRAINTS) (T.levels value.now) (T.value value.now)
        result buffer.new.items }
{
    encode_into(Codec::Uper, &T::CONSTRAINTS, value, buffer)
}

/// The canonical octets of a value, as `encode` gives them, behind what the buffer holds: one message after another.
///
/// Refuses as `encode` does; the buffer is as it was then.
pub fn encode_onto<T: Encode, A: Allocator + Clone>(
    value: &T,
    buffer: &mut Vec<u8, A>,
) -> Result<(), EncodeError>
    ensures { EncodedOnto Uper (T.schema T.CONSTRAINTS) (T.levels value.now) (T.value value.now)
        buffer.old.items result buffer.new.items }
{
    encode_behind(Codec::Uper, &T::CONSTRAINTS, value, buffer)
}

/// The canonical octets of a value under constraints, in place of its type's own. They should be `lawful`.
///
/// Refuses as `encode` does.
pub fn encode_with_constraints<T: Encode, A: Allocator + Clone>(
    alloc: A,
    constraints: &Constraints,
    value: &T,
) -> Result<Vec<u8, A>, EncodeError>
    ensures { Encoded Uper (T.schema constraints.now) (T.levels value.now) (T.value value.now) result }
{
    encode_in(alloc, Codec::Uper, constraints, value)
}

/// The value that all octets spell (X.691, any basic encoding; at most 128 levels).
///
/// Refuses with `OutOfMemory` where memory ran out, and else only octets that spell no value of the type.
pub fn decode<T: Decode>(alloc: Global, octets: &[u8]) -> Result<T, DecodeError>
    ensures decoded { Decoded Uper (T.schema T.CONSTRAINTS) T.value octets.now result }
    ensures few { AnswersFew (T.schema T.CONSTRAINTS) T.value octets.now result }
{
    decode_in(alloc, DecoderOptions::unaligned(), &T::CONSTRAINTS, octets)
}

/// The value whose complete encoding (as `decode` takes it) the octets begin with, and the octets after that.
///
/// Refuses with `OutOfMemory` where memory ran out, and else only octets that begin with no value of the type.
pub fn decode_with_remainder<T: Decode>(
    alloc: Global,
    octets: &[u8],
) -> Result<(T, &[u8]), DecodeError>
    ensures decoded { DecodedFront Uper (T.schema T.CONSTRAINTS) T.value octets.now result }
    ensures few { AnswersFewInFront (T.schema T.CONSTRAINTS) T.value octets.now result }
{
    decode_front(alloc, DecoderOptions::unaligned(), &T::CONSTRAINTS, octets)
}

/// The value that all octets spell under constraints, in place of its type's own. They should be `lawful`.
///
/// Refuses as `decode` does.
pub fn decode_with_constraints<T: Decode>(
    alloc: Global,
    constraints: &Constraints,
    octets: &[u8],
) -> Result<T, DecodeError>
    ensures decoded { Decoded Uper (T.schema constraints.now) T.value octets.now result }
    ensures few { AnswersFew (T.schema constraints.now) T.value octets.now result }
{
    decode_in(alloc, DecoderOptions::unaligned(), constraints, octets)
}

/// The value that all octets spell, as `decode` gives it, where all padding and spare bits are zero, also within open
/// types (this project's choice).
///
/// Refuses as `decode` does, and with `ParserFail` where one of these bits is one.
pub fn decode_zero_padded<T: Decode>(alloc: Global, octets: &[u8]) -> Result<T, DecodeError>
    ensures decoded { DecodedZeroPadded Uper (T.schema T.CONSTRAINTS) T.value octets.now result }
    ensures few { AnswersFew (T.schema T.CONSTRAINTS) T.value octets.now result }
{
    let options = DecoderOptions::unaligned().zero_padding();
    decode_in(alloc, options, &T::CONSTRAINTS, octets)
}
