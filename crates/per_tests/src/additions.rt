//! Additions of a record, call by call, and an alternative that is written by a scope: over any encoder and decoder,
//! since to prove them of one alone costs several times as much.

use crate::calls::{Part, encoding_of, unaligned};
use crate::expected::{expect_equal, expect_octets, expect_unread, expect_unwritten};
use per_enc::{EncodeError, EncodeErrorKind, EncoderOptions};
use per_read::error::{DecodeError, DecodeErrorKind};
use per_samples_b::alt1::Alt1;
use per_samples_b::one_needed::OneNeeded;
use rasn_below::codec::{
    Decoder as AnyDecoder, Encoder as AnyEncoder, ExtensionDecoder, ExtensionEncoder,
};
use rasn_below::types::{Identifier, Tag};
use rasn_below::{AsnType, Constraints, context_tag};
use std::alloc::Global;

/// a TRUE, and b absent.
const A_ALONE: &[u8] = &[0x81, 0x80, 0x60, 0x00];

const NONE: Identifier = Identifier::EMPTY;

/// Writes these additions.
fn put_each<E: AnyEncoder>(encoder: &mut E, additions: &[Option<bool>]) -> Result<(), E::Error> {
    for addition in additions {
        encoder.encode_extension_addition(Tag::BOOL, &Constraints::NONE, addition.as_ref(), NONE)?;
    }
    Ok(())
}

/// A record with these additions.
#[derive(Clone, Copy)]
struct Additions<'a>(&'a [Option<bool>]);

impl<'a> Part for Additions<'a> {
    fn put<E: AnyEncoder>(&self, encoder: &mut E) -> Result<(), E::Error> {
        let scope = encoder.open_sequence::<OneNeeded>(OneNeeded::TAG, NONE)?;
        put_each(encoder, self.0)?;
        encoder.close_sequence::<OneNeeded>(scope)
    }
}

/// The octets of a record with these additions.
fn written_of(alloc: Global, additions: &[Option<bool>]) -> Result<Vec<u8>, EncodeError> {
    encoding_of(alloc, EncoderOptions::unaligned(), &Additions(additions))
}

#[test]
fn writes_additions_in_turn(rt: HostRuntime) -> Result<(), EncodeError> {
    let written = written_of(rt.alloc(), &[Some(true), None])?;
    expect_octets(&rt, written.as_slice(), A_ALONE);
    Ok(())
}

#[test]
fn writes_neither_more_nor_fewer(rt: HostRuntime) {
    let fewer = written_of(rt.alloc(), &[Some(true)]).err();
    expect_unwritten(&rt, fewer, EncodeErrorKind::OutOfTurn);
    let more = written_of(rt.alloc(), &[Some(true), None, None]).err();
    expect_unwritten(&rt, more, EncodeErrorKind::TooManyAdditions);
}

/// Reads a under constraints, and b as if it had an explicit tag.
fn take_each<D: AnyDecoder>(decoder: &mut D) -> Result<(Option<bool>, Option<bool>), D::Error> {
    let none = &Constraints::NONE;
    let a = decoder.decode_extension_addition_with_constraints(none)?;
    let b = decoder.decode_extension_addition_with_explicit_tag_and_constraints(Tag::BOOL, none)?;
    Ok((a, b))
}

/// Reads the record.
fn take_both<D: AnyDecoder>(decoder: &mut D) -> Result<(Option<bool>, Option<bool>), D::Error> {
    let scope = decoder.open_sequence::<OneNeeded>(OneNeeded::TAG)?;
    let both = take_each(decoder)?;
    decoder.close_sequence(scope)?;
    Ok(both)
}

#[test]
fn reads_additions_in_turn(rt: HostRuntime) -> Result<(), DecodeError> {
    let both = take_both(&mut unaligned(rt.alloc(), A_ALONE))?;
    expect_equal(&rt, &both, &(Some(true), None));
    Ok(())
}

/// Reads so many additions.
fn take<D: AnyDecoder>(decoder: &mut D, count: usize) -> Result<(), D::Error> {
    for _ in 0..count {
        decoder.decode_extension_addition::<bool>()?;
    }
    Ok(())
}

/// Reads the record as one of so many additions.
fn take_record<D: AnyDecoder>(decoder: &mut D, count: usize) -> Result<(), D::Error> {
    let scope = decoder.open_sequence::<OneNeeded>(OneNeeded::TAG)?;
    take(decoder, count)?;
    decoder.close_sequence(scope)
}

/// Why the record isn't read as one of so many additions.
fn refusal_of(alloc: Global, count: usize) -> Option<DecodeError> {
    take_record(&mut unaligned(alloc, A_ALONE), count).err()
}

#[test]
fn reads_neither_more_nor_fewer(rt: HostRuntime) {
    expect_unread(&rt, refusal_of(rt.alloc(), 1), DecodeErrorKind::MissingTag);
    assert!(rt; refusal_of(rt.alloc(), 2).is_none());
    expect_unread(
        &rt,
        refusal_of(rt.alloc(), 3),
        DecodeErrorKind::TypeNotExtensible,
    );
}

const TAG_OF_A: Tag = context_tag!(0);

/// TRUE as the alternative a of CHOICE { a BOOLEAN, ... }.
#[derive(Clone, Copy)]
struct Alternative;

impl Part for Alternative {
    fn put<E: AnyEncoder>(&self, encoder: &mut E) -> Result<(), E::Error> {
        encoder.encode_choice::<Alt1, _, _>(
            &Constraints::NONE,
            Tag::EOC,
            |inside: &mut E| -> Result<Tag, E::Error> {
                inside.encode_bool(TAG_OF_A, true, NONE)?;
                Ok(TAG_OF_A)
            },
            NONE,
        )
    }
}

#[test]
fn scope_writes_an_alternative(rt: HostRuntime) -> Result<(), EncodeError> {
    let written = encoding_of(rt.alloc(), EncoderOptions::unaligned(), &Alternative)?;
    expect_octets(&rt, written.as_slice(), &[0x40]);
    Ok(())
}
