//! Complete encodings (X.691 11.1) in either variant: values to octets and back.

ghost use Rattle.std.specs.Prelude.{◌≡◌, ◌≤◌, ◌*◌, ◌%◌, ℕ, false, List, length, OnOk, OnErr, IfOk, IfErr};
ghost use Rattle.rasn_constraints.specs.LawfulConstraints.{are_lawful};
ghost use Rattle.per_core.specs.declared.encode_error.EncodeErrorKind.TheVariants.{OutOfMemory};
ghost use Rattle.rasn_per.specs.Calls.{Encoded, EncodedInto, EncodedOnto, DecodedBy, DecodedFront};
ghost use Rattle.rasn_per.specs.Calls.{AnswersFew, AnswersFewInFront};
ghost use Rattle.per_core.specs.Ends.{kind_of, Ends, IsWhy};
ghost use Rattle.rasn_per.specs.Kinds.{IsRemainder, IsWhyNone};

use crate::types::{DecodeAs, EncodeAs};
use per_bits::ended::{Surplus, ended};
use per_bits::{BitList, BitReader};
use per_de::error::{DecodeError, DecodeErrorKind, ParserFailCause};
use per_de::{Decoder, DecoderOptions};
use per_enc::{EncodeError, EncodeErrorKind, Encoder, EncoderOptions};
use rasn_constraints::count::Count;
use rasn_schema::constraints::Constraints;
use rasn_schema::limits::is_lawful;
use rasn_types::types::Codec;
use std::alloc::{Allocator, Global};
use std::mem;

/// The canonical octets of a value of a type (X.691 11.1, 12 to 32), in the variant of a codec.
///
/// Refuses with `OutOfMemory` where memory ran out, and else only a value that has no encoding.
pub fn encode_in<T, S: EncodeAs<T>, A: Allocator + Clone>(
    alloc: A,
    codec: Codec,
    schema: &S,
    value: &T,
) -> Result<Vec<u8, A>, EncodeError>
    ensures { Encoded codec (S.schema schema.now) (S.levels_of value.now) (S.value_of value.now) result }
{
    encode_over(BitList::new(alloc), codec, schema, value)
}

/// The canonical octets of a value of a type, as `encode_in` gives them, in place of what the buffer held and in its
/// memory. After an error it is empty.
pub fn encode_into<T, S: EncodeAs<T>, A: Allocator + Clone>(
    codec: Codec,
    schema: &S,
    value: &T,
    buffer: &mut Vec<u8, A>,
) -> Result<(), EncodeError>
    ensures { EncodedInto codec (S.schema schema.now) (S.levels_of value.now) (S.value_of value.now)
        result buffer.new.items }
{
    buffer.clear();
    let alloc = allocator_of(buffer, codec)?;
    let memory = mem::replace(buffer, Vec::new(alloc));
    *buffer = encode_over(BitList::from_memory(memory), codec, schema, value)?;
    Ok(())
}

/// The canonical octets of a value of a type, as `encode_in` gives them, behind what the buffer holds. After an error
/// it is as it was.
pub fn encode_behind<T, S: EncodeAs<T>, A: Allocator + Clone>(
    codec: Codec,
    schema: &S,
    value: &T,
    buffer: &mut Vec<u8, A>,
) -> Result<(), EncodeError>
    ensures { EncodedOnto codec (S.schema schema.now) (S.levels_of value.now) (S.value_of value.now)
        buffer.old.items result buffer.new.items }
{
    let alloc = allocator_of(buffer, codec)?;
    let octets = encode_in(alloc, codec, schema, value)?;
    match buffer.extend_from_slice(&octets) {
        Ok(()) => Ok(()),
        Err(_) => Err(EncodeError {
            kind: EncodeErrorKind::OutOfMemory,
            codec,
        }),
    }
}

/// The canonical octets of a value, in the memory of a list of bits, which are cleared.
fn encode_over<T, S: EncodeAs<T>, A: Allocator + Clone>(
    output: BitList<A>,
    codec: Codec,
    schema: &S,
    value: &T,
) -> Result<Vec<u8, A>, EncodeError>
    ensures { Encoded codec (S.schema schema.now) (S.levels_of value.now) (S.value_of value.now) result }
{
    let mut encoder = Encoder::new_with_output(encoder_options(codec), output);
    schema.encode_as(&mut encoder, value)?;
    encoder.output()
}

/// How an encoder writes in the variant of a codec.
fn encoder_options(codec: Codec) -> EncoderOptions
    ensures { result ≡ codec }
{
    match codec {
        Codec::Aper => EncoderOptions::aligned(),
        Codec::Uper => EncoderOptions::unaligned(),
    }
}

/// The allocator of a buffer. The only error is want of memory.
fn allocator_of<A: Allocator + Clone>(buffer: &Vec<u8, A>, codec: Codec) -> Result<A, EncodeError>
    ensures { IfErr result (λ e. e ≡ record { kind = OutOfMemory; codec = codec }) }
{
    match buffer.allocator().clone() {
        Ok(alloc) => Ok(alloc),
        Err(_) => Err(EncodeError {
            kind: EncodeErrorKind::OutOfMemory,
            codec,
        }),
    }
}

/// The value of a type that all octets spell (X.691, any basic encoding), in the variant of the options, whose depth is
/// 128 levels.
///
/// Refuses with `OutOfMemory` where memory ran out, and else only octets that spell no value of the type.
pub fn decode_in<T: Drop, S: DecodeAs<T>>(
    alloc: Global,
    options: DecoderOptions,
    schema: &S,
    octets: &[u8],
) -> Result<T, DecodeError>
    requires { options.levels ≡ 128 }
    ensures decoded { DecodedBy options.zero_padding options.codec (S.schema schema.now) S.value_of
        octets.now result }
    ensures few { AnswersFew (S.schema schema.now) S.value_of octets.now result }
{
    let total = BitReader::from_octets(octets).len();
    let mut decoder = Decoder::from_octets(alloc, octets, options);
    let decoded = schema.decode_as(&mut decoder);
    if decoded.is_err() {
        return decoded;
    }
    match ended_in(&decoder, total, options.needs_zero_padding()) {
        Ok(()) => {}
        Err(surplus) => return Err(refusal(surplus, decoder.codec())),
    }
    decoded
}

/// The value of a type whose complete encoding (as `decode_in` takes it) the octets begin with, in the variant of the
/// options, whose depth is 128 levels, and the octets after it. Padding isn't looked at.
///
/// Refuses with `OutOfMemory` where memory ran out, and else only octets that begin with no value of the type.
pub fn decode_front<'octets, T: Drop, S: DecodeAs<T>>(
    alloc: Global,
    options: DecoderOptions,
    schema: &S,
    octets: &'octets [u8],
) -> Result<(T, &'octets [u8]), DecodeError>
    requires levels { options.levels ≡ 128 }
    requires padding { options.zero_padding ≡ false }
    ensures decoded { DecodedFront options.codec (S.schema schema.now) S.value_of octets.now result }
    ensures few { AnswersFewInFront (S.schema schema.now) S.value_of octets.now result }
{
    let mut decoder = Decoder::from_octets(alloc, octets, options);
    let value = schema.decode_as(&mut decoder)?;
    match remainder(decoder.input().len(), octets) {
        Ok(rest) => Ok((value, rest)),
        Err(why) => Err(refusal(why, decoder.codec())),
    }
}

/// The octets after a complete encoding (X.691 11.1), where so many bits are left after its value: those that it has
/// no bit of. A value of no bits takes one octet, which is zero.
fn remainder(left: u128, octets: &[u8]) -> Result<&[u8], Surplus>
    requires { left ≤ 8 * length octets.now }
    ensures ok { IfOk result (λ rest. IsRemainder left octets.now rest.now) }
    ensures none { OnErr result ((rest : List ℕ) → IsRemainder left octets.now rest → ⊥) }
    ensures why { IfErr result (IsWhyNone left octets.now) }
{
    if left < 8 * octets.len() as u128 {
        return Ok(&octets[octets.len() - (left / 8) as usize..]);
    }
    match octets.split_first() {
        None => Err(Surplus::Missing(8)),
        Some((&0, rest)) => Ok(rest),
        Some(_) => Err(Surplus::NonzeroOctet),
    }
}

/// Whether what a decoder has left of so many bits ends a complete encoding (X.691 11.1). Mostly that is seen without a
/// look at the bits.
#[inline(always)]
fn ended_in(decoder: &Decoder<'_>, total: u128, zero_padding: bool) -> Result<(), Surplus>
    requires fits { length decoder.now.bits ≤ total }
    requires octets { total % 8 ≡ 0 }
    ensures ok { OnOk result (Ends zero_padding decoder.now.bits total) }
    ensures none { OnErr result (Ends zero_padding decoder.now.bits total → ⊥) }
    ensures why { IfErr result (IsWhy zero_padding decoder.now.bits total) }
{
    let left = decoder.left();
    if !zero_padding && left < 8 && left < total {
        return Ok(());
    }
    ended(&decoder.input(), total, zero_padding)
}

/// The refusal of octets that don't end as a complete encoding does.
fn refusal(surplus: Surplus, codec: Codec) -> DecodeError
    ensures { result ≡ record { kind = kind_of surplus; codec = codec } }
{
    let kind = match surplus {
        Surplus::Missing(bits) => DecodeErrorKind::Incomplete(Count::new(bits)),
        Surplus::NonzeroOctet => DecodeErrorKind::ParserFail(ParserFailCause::NonzeroEmptyValue),
        Surplus::NonzeroSpareBits => DecodeErrorKind::ParserFail(ParserFailCause::NonzeroPadding),
        Surplus::ExtraOctets(octets) => DecodeErrorKind::UnexpectedExtraData(Count::new(octets)),
    };
    DecodeError { kind, codec }
}

/// Whether constraints are lawful, for those that are made at run time: the bounds of the first value constraint and of
/// the first size constraint are in order, and the former hold at most `i128::MAX` numbers where both are there.
/// `encode` and `decode` take any constraints, with the encodings that their contracts name.
pub fn lawful(constraints: &Constraints) -> bool
    ensures { result ≡ are_lawful constraints.now }
{
    is_lawful(constraints)
}
