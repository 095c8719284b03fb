//! Components that may be absent and values under an explicit tag, by the calls that a closure makes.
//!
//! The calls are made over any encoder and any decoder, and a scope is held across few of them: to prove them of one
//! alone, or in one function, costs several times as much. Those that the types of the program make aren't here.

use crate::calls::{Part, encoding_of, unaligned};
use crate::expected::{expect_equal, expect_octets};
use per_enc::{EncodeError, EncoderOptions};
use per_read::error::DecodeError;
use per_samples_a::some_absent::SomeAbsent;
use rasn_below::codec::{
    Decoder as AnyDecoder, DecoderExt as _, Encoder as AnyEncoder, EncoderExt as _,
};
use rasn_below::types::{Identifier, Tag};
use rasn_below::{AsnType, Constraint, Constraints, constraints};
use std::alloc::Global;

const FROM_0_TO_7: &[Constraint] = constraints!(0..=7);

const NONE: Identifier = Identifier::EMPTY;

/// The call that writes the second component of a `SomeAbsent`; the third one is written by a call that tells its
/// constraints, or leaves them to its type, as the second one is.
#[derive(Clone, Copy)]
enum Writing {
    Bounded,
    BoundedAbsent,
    Own,
    Tagged,
    TaggedAbsent,
}

/// The call that reads the second component.
#[derive(Clone, Copy)]
enum Reading {
    Bounded,
    Own,
    Prefixed,
}

/// The second and the third component of a `SomeAbsent`, of which the first is true, after an explicit tag.
type Both = (Option<u8>, u8);

/// Calls, components, and the octets of their complete encoding: two bits of presence, the bit of TRUE, and those of
/// the numbers that are there, of which each has three or eight.
const ROWS: &[(Writing, Reading, Both, &[u8])] = &[
    (
        Writing::Bounded,
        Reading::Bounded,
        (Some(5), 3),
        &[0b1011_0100],
    ),
    (
        Writing::BoundedAbsent,
        Reading::Bounded,
        (None, 4),
        &[0b0111_0000],
    ),
    (
        Writing::Own,
        Reading::Own,
        (Some(5), 3),
        &[0b1010_0000, 0b1010_0000],
    ),
    (
        Writing::Tagged,
        Reading::Prefixed,
        (Some(5), 3),
        &[0b1010_0000, 0b1010_0000],
    ),
    (
        Writing::TaggedAbsent,
        Reading::Own,
        (None, 3),
        &[0b0010_0000],
    ),
];

// Each call is in a function of its own: to prove several in one costs more than the sum.
fn put_bounded<E: AnyEncoder>(encoder: &mut E) -> Result<(), E::Error> {
    encoder.encode_some_with_constraints(&Constraints::new(FROM_0_TO_7), &5_u8, NONE)
}

fn put_bounded_absent<E: AnyEncoder>(encoder: &mut E) -> Result<(), E::Error> {
    encoder.encode_none::<u8>(NONE)
}

fn put_own<E: AnyEncoder>(encoder: &mut E) -> Result<(), E::Error> {
    encoder.encode_some(&5_u8, NONE)
}

fn put_tagged<E: AnyEncoder>(encoder: &mut E) -> Result<(), E::Error> {
    encoder.encode_some_with_tag(Tag::INTEGER, &5_u8, NONE)
}

fn put_tagged_absent<E: AnyEncoder>(encoder: &mut E) -> Result<(), E::Error> {
    encoder.encode_none_with_tag(Tag::INTEGER, NONE)
}

/// Writes the second component, which is 5 where it is there.
fn put_second<E: AnyEncoder>(encoder: &mut E, writing: Writing) -> Result<(), E::Error> {
    match writing {
        Writing::Bounded => put_bounded(encoder),
        Writing::BoundedAbsent => put_bounded_absent(encoder),
        Writing::Own => put_own(encoder),
        Writing::Tagged => put_tagged(encoder),
        Writing::TaggedAbsent => put_tagged_absent(encoder),
    }
}

fn put_third_bounded<E: AnyEncoder>(encoder: &mut E, c: &u8) -> Result<(), E::Error> {
    let bounds = Constraints::new(FROM_0_TO_7);
    encoder.encode_default_with_constraints(&bounds, c, |c| *c == 3, NONE)
}

fn put_third_own<E: AnyEncoder>(encoder: &mut E, c: &u8) -> Result<(), E::Error> {
    encoder.encode_default(c, |c| *c == 3, NONE)
}

fn put_third<E: AnyEncoder>(encoder: &mut E, writing: Writing, c: &u8) -> Result<(), E::Error> {
    match writing {
        Writing::Bounded | Writing::BoundedAbsent => put_third_bounded(encoder, c),
        _ => put_third_own(encoder, c),
    }
}

fn put_components<E: AnyEncoder>(
    encoder: &mut E,
    writing: Writing,
    c: &u8,
) -> Result<(), E::Error> {
    encoder.encode_explicit_prefix(Tag::SEQUENCE, &true, NONE)?;
    put_second(encoder, writing)?;
    put_third(encoder, writing, c)
}

/// The third component of a `SomeAbsent`, and the call that writes the second one.
#[derive(Clone, Copy)]
struct Written {
    writing: Writing,
    c: u8,
}

impl Part for Written {
    fn put<E: AnyEncoder>(&self, encoder: &mut E) -> Result<(), E::Error> {
        let scope = encoder.open_sequence::<SomeAbsent>(SomeAbsent::TAG, NONE)?;
        put_components(encoder, self.writing, &self.c)?;
        encoder.close_sequence::<SomeAbsent>(scope)
    }
}

/// The octets of a `SomeAbsent`.
fn written_of(alloc: Global, writing: Writing, c: u8) -> Result<Vec<u8>, EncodeError> {
    encoding_of(alloc, EncoderOptions::unaligned(), &Written { writing, c })
}

#[test]
fn writes_components(rt: HostRuntime) -> Result<(), EncodeError> {
    for (writing, _, both, octets) in ROWS {
        let written = written_of(rt.alloc(), *writing, both.1)?;
        expect_octets(&rt, written.as_slice(), octets);
    }
    Ok(())
}

fn take_second<D: AnyDecoder>(decoder: &mut D, reading: Reading) -> Result<Option<u8>, D::Error> {
    match reading {
        Reading::Bounded => {
            decoder.decode_optional_with_constraints(&Constraints::new(FROM_0_TO_7))
        }
        Reading::Own => decoder.decode_optional(),
        Reading::Prefixed => decoder.decode_optional_with_explicit_prefix(Tag::SEQUENCE),
    }
}

fn take_third<D: AnyDecoder>(decoder: &mut D, reading: Reading) -> Result<u8, D::Error> {
    match reading {
        Reading::Bounded => {
            let bounds = Constraints::new(FROM_0_TO_7);
            decoder.decode_default_with_constraints(|_| Ok(3), &bounds)
        }
        _ => decoder.decode_default(|_| Ok(3)),
    }
}

fn take_components<D: AnyDecoder>(decoder: &mut D, reading: Reading) -> Result<Both, D::Error> {
    let _: bool = decoder.decode_explicit_prefix(Tag::SEQUENCE)?;
    let b = take_second(decoder, reading)?;
    let c = take_third(decoder, reading)?;
    Ok((b, c))
}

fn take<D: AnyDecoder>(decoder: &mut D, reading: Reading) -> Result<Both, D::Error> {
    let scope = decoder.open_sequence::<SomeAbsent>(SomeAbsent::TAG)?;
    let both = take_components(decoder, reading)?;
    decoder.close_sequence(scope)?;
    Ok(both)
}

/// The second and the third component of the `SomeAbsent` in octets.
fn read_of(alloc: Global, reading: Reading, octets: &[u8]) -> Result<Both, DecodeError> {
    take(&mut unaligned(alloc, octets), reading)
}

#[test]
fn reads_components(rt: HostRuntime) -> Result<(), DecodeError> {
    for (_, reading, both, octets) in ROWS {
        let read = read_of(rt.alloc(), *reading, octets)?;
        expect_equal(&rt, &read, both);
    }
    Ok(())
}
