//! Each call of both modules, and an encoder and a decoder of one's own: where a request for memory is refused, one of
//! them says so, and none says anything else.

use rasn_below::codec::{Decode, Decoder as AnyDecoder, Encode, Encoder as AnyEncoder};
use rasn_below::types::{Codec, Identifier, Tag};
use rasn_per::bits::BitReader;
use rasn_per::per::de::{DecodeError, DecodeErrorKind, Decoder, DecoderOptions};
use rasn_per::per::enc::{EncodeError, EncodeErrorKind, Encoder, EncoderOptions};
use rasn_per::{aper, uper};
use std::alloc::Global;
use std::process::Abort;

/// Whether a reading was refused, which is for want of memory.
fn is_unread(rt: &impl Abort, codec: Codec, error: Option<DecodeError>) -> bool {
    let Some(error) = error else {
        return false;
    };
    let is_memory = matches!(error.kind, DecodeErrorKind::OutOfMemory);
    assert!(rt; is_memory && error.codec == codec, "{error:?}");
    true
}

/// Whether a value was refused, which is for want of memory.
fn is_unwritten(rt: &impl Abort, codec: Codec, error: Option<EncodeError>) -> bool {
    let Some(error) = error else {
        return false;
    };
    let is_memory = matches!(error.kind, EncodeErrorKind::OutOfMemory);
    assert!(rt; is_memory && error.codec == codec, "{error:?}");
    true
}

/// Whether an error says that a decoder of the variant had failed before.
fn had_decoder_failed(codec: Codec, error: Option<DecodeError>) -> bool {
    match error {
        Some(error) => {
            matches!(error.kind, DecodeErrorKind::AlreadyFailed) && error.codec == codec
        }
        None => false,
    }
}

/// Whether an error says that an encoder of the variant had failed before.
fn had_encoder_failed(codec: Codec, error: Option<EncodeError>) -> bool {
    match error {
        Some(error) => {
            matches!(error.kind, EncodeErrorKind::AlreadyFailed) && error.codec == codec
        }
        None => false,
    }
}

/// Whether one of the calls that read octets, all of them or their front, was refused.
fn is_any_unread<T: Decode>(rt: &impl Abort, alloc: Global, codec: Codec, octets: &[u8]) -> bool {
    let limits = &T::CONSTRAINTS;
    let (all, front, limited) = match codec {
        Codec::Aper => (
            aper::decode::<T>(alloc, octets).err(),
            aper::decode_with_remainder::<T>(alloc, octets).err(),
            aper::decode_with_constraints::<T>(alloc, limits, octets).err(),
        ),
        Codec::Uper => (
            uper::decode::<T>(alloc, octets).err(),
            uper::decode_with_remainder::<T>(alloc, octets).err(),
            uper::decode_with_constraints::<T>(alloc, limits, octets).err(),
        ),
    };
    let all = is_unread(rt, codec, all);
    let front = is_unread(rt, codec, front);
    let limited = is_unread(rt, codec, limited);
    all || front || limited || is_refused_by_decoder::<T>(rt, alloc, codec, octets)
}

/// Why a decoder refuses octets, and a NULL after them: of any decoder, since to prove it of one alone costs more.
fn refusals_to_read<T: Decode, D: AnyDecoder>(
    decoder: &mut D,
) -> (Option<D::Error>, Option<D::Error>) {
    let first = T::decode(decoder).err();
    (first, decoder.decode_null(Tag::NULL).err())
}

/// Whether a decoder of one's own refused the octets; it refuses again then.
fn is_refused_by_decoder<T: Decode>(
    rt: &impl Abort,
    alloc: Global,
    codec: Codec,
    octets: &[u8],
) -> bool {
    let options = match codec {
        Codec::Aper => DecoderOptions::aligned(),
        Codec::Uper => DecoderOptions::unaligned(),
    };
    let bits = BitReader::from_octets(octets);
    let (error, again) = refusals_to_read::<T, _>(&mut Decoder::from_reader(alloc, bits, options));
    assert!(rt; error.is_none() || had_decoder_failed(codec, again));
    is_unread(rt, codec, error)
}

/// Whether one of the calls that write a value was refused.
fn is_any_unwritten<T: Encode>(rt: &impl Abort, alloc: Global, codec: Codec, value: &T) -> bool {
    let limits = &T::CONSTRAINTS;
    let (plain, limited) = match codec {
        Codec::Aper => (
            aper::encode(alloc, value).err(),
            aper::encode_with_constraints(alloc, limits, value).err(),
        ),
        Codec::Uper => (
            uper::encode(alloc, value).err(),
            uper::encode_with_constraints(alloc, limits, value).err(),
        ),
    };
    let plain = is_unwritten(rt, codec, plain);
    let limited = is_unwritten(rt, codec, limited);
    let in_buffer = is_refused_into_buffer(rt, alloc, codec, value);
    plain || limited || in_buffer || is_refused_by_encoder(rt, alloc, codec, value)
}

/// Whether the call that writes into a buffer was refused; the buffer is empty then.
fn is_refused_into_buffer<T: Encode>(
    rt: &impl Abort,
    alloc: Global,
    codec: Codec,
    value: &T,
) -> bool {
    let mut buffer = Vec::new(alloc);
    let is_filled = buffer.push(1).is_ok();
    let written = match codec {
        Codec::Aper => aper::encode_buf(value, &mut buffer),
        Codec::Uper => uper::encode_buf(value, &mut buffer),
    };
    assert!(rt; written.is_ok() || buffer.is_empty());
    is_unwritten(rt, codec, written.err()) || !is_filled
}

/// Why an encoder refuses a value, and a NULL after it.
fn refusals_to_write<T: Encode, E: AnyEncoder>(
    encoder: &mut E,
    value: &T,
) -> (Option<E::Error>, Option<E::Error>) {
    let first = value.encode(encoder).err();
    (
        first,
        encoder.encode_null(Tag::NULL, Identifier::EMPTY).err(),
    )
}

/// Whether an encoder of one's own refused the value; it refuses again then.
fn is_refused_by_encoder<T: Encode>(
    rt: &impl Abort,
    alloc: Global,
    codec: Codec,
    value: &T,
) -> bool {
    let options = match codec {
        Codec::Aper => EncoderOptions::aligned(),
        Codec::Uper => EncoderOptions::unaligned(),
    };
    let (error, again) = refusals_to_write(&mut Encoder::new(alloc, options), value);
    assert!(rt; error.is_none() || had_encoder_failed(codec, again));
    is_unwritten(rt, codec, error)
}

/// The variant that isn't this one.
fn other_than(codec: Codec) -> Codec {
    match codec {
        Codec::Aper => Codec::Uper,
        Codec::Uper => Codec::Aper,
    }
}

/// Whether a call was refused that reads these octets, or writes what they spell in either variant, or reads it in the
/// other one.
pub(crate) fn is_any_refused<T: Encode + Decode>(
    rt: &impl Abort,
    alloc: Global,
    codec: Codec,
    octets: &[u8],
) -> bool {
    let value = match codec {
        Codec::Aper => aper::decode::<T>(alloc, octets),
        Codec::Uper => uper::decode::<T>(alloc, octets),
    };
    match value {
        Ok(value) => {
            is_any_unread::<T>(rt, alloc, codec, octets)
                || is_any_refused_of(rt, alloc, codec, &value)
        }
        Err(error) => is_unread(rt, codec, Some(error)),
    }
}

/// Whether a call was refused that writes a value, or reads it in the variant that isn't this one.
fn is_any_refused_of<T: Encode + Decode>(
    rt: &impl Abort,
    alloc: Global,
    codec: Codec,
    value: &T,
) -> bool {
    let other = other_than(codec);
    is_any_unwritten(rt, alloc, codec, value)
        || is_any_unwritten(rt, alloc, other, value)
        || is_any_unread_of(rt, alloc, other, value)
}

/// Whether a call was refused that reads a value in this variant, or the one that writes it for that.
fn is_any_unread_of<T: Encode + Decode>(
    rt: &impl Abort,
    alloc: Global,
    codec: Codec,
    value: &T,
) -> bool {
    let written = match codec {
        Codec::Aper => aper::encode(alloc, value),
        Codec::Uper => uper::encode(alloc, value),
    };
    match written {
        Ok(octets) => is_any_unread::<T>(rt, alloc, codec, octets.as_slice()),
        Err(error) => is_unwritten(rt, codec, Some(error)),
    }
}
