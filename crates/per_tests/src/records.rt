//! TRUE and a second component in the ALIGNED variant, by an encoder and a decoder of one's own: whether the second one
//! begins on an octet boundary follows from its bounds. A SEQUENCE of both has the same bits, one component after the
//! other (X.691 19).

use crate::calls::{Part, aligned, encoding_of};
use crate::expected::{expect_equal, expect_octets};
use per_enc::EncoderOptions;
use rasn_below::codec::{Decode, Decoder as AnyDecoder, Encode, Encoder as AnyEncoder};
use rasn_below::types::{BitString, Identifier, OctetString, Tag, VisibleString};
use rasn_below::{Constraint, Constraints, constraints};
use std::alloc::Global;
use std::fmt::Debug;
use std::process::Abort;

/// TRUE and a value under constraints.
#[derive(Drop)]
struct AfterTrue<'a, T> {
    value: &'a T,
    limits: &'static [Constraint<'static>],
}

impl<'a, T: Encode> Part for AfterTrue<'a, T> {
    fn put<E: AnyEncoder>(&self, encoder: &mut E) -> Result<(), E::Error> {
        encoder.encode_bool(Tag::BOOL, true, Identifier::EMPTY)?;
        let limits = Constraints::new(self.limits);
        self.value.encode_with_constraints(encoder, &limits)
    }
}

/// Reads a BOOLEAN, and the value under constraints after it.
fn take<T: Decode, D: AnyDecoder>(
    decoder: &mut D,
    limits: &'static [Constraint<'static>],
) -> Result<T, D::Error> {
    decoder.decode_bool(Tag::BOOL)?;
    T::decode_with_constraints(decoder, &Constraints::new(limits))
}

/// TRUE and a value under constraints are written as these octets, and the value is read from them.
fn expect_after_true<T: Encode + Decode + PartialEq + Debug>(
    rt: &impl Abort,
    alloc: Global,
    limits: &'static [Constraint<'static>],
    value: &T,
    octets: &[u8],
) {
    match encoding_of(
        alloc,
        EncoderOptions::aligned(),
        &AfterTrue { value, limits },
    ) {
        Ok(written) => expect_octets(rt, written.as_slice(), octets),
        Err(error) => assert!(rt; false, "{octets:?}: {error:?}"),
    }
    match take::<T, _>(&mut aligned(alloc, octets), limits) {
        Ok(read) => expect_equal(rt, &read, value),
        Err(error) => assert!(rt; false, "{octets:?}: {error:?}"),
    }
}

/// A list of these.
fn list_of<T: Copy>(rt: &impl Abort, alloc: Global, items: &[T]) -> Vec<T> {
    Vec::from_slice(alloc, items).expect(rt, "memory")
}

const ZERO_TO_254: &[Constraint] = constraints!(0..=254);

const ZERO_TO_256: &[Constraint] = constraints!(0..=256);

/// 255 numbers take eight bits in place, 257 two octets on a boundary (X.691 11.5.7).
#[test]
fn numbers_of_more_than_an_octet_are_aligned(rt: HostRuntime) {
    expect_after_true(&rt, rt.alloc(), ZERO_TO_254, &5_u8, &[0x82, 0x80]);
    expect_after_true(&rt, rt.alloc(), ZERO_TO_256, &5_u16, &[0x80, 0x00, 0x05]);
}

const SIZE_TO_256: &[Constraint] = constraints!(SIZE 1..=256);

const SIZE_TO_1000: &[Constraint] = constraints!(SIZE 1..=1000);

const SIZE_TO_65536: &[Constraint] = constraints!(SIZE 1..=65_536);

/// A size counts from its lower bound where its upper one is below 64K, in an octet or two on a boundary (X.691 11.9).
#[test]
fn lengths_of_octets_are_aligned(rt: HostRuntime) {
    let octets = OctetString::new(list_of(&rt, rt.alloc(), &[0x11, 0x22, 0x33]));
    let written = &[0x80, 0x02, 0x11, 0x22, 0x33];
    expect_after_true(&rt, rt.alloc(), SIZE_TO_256, &octets, written);
    let written = &[0x80, 0x00, 0x02, 0x11, 0x22, 0x33];
    expect_after_true(&rt, rt.alloc(), SIZE_TO_1000, &octets, written);
    let written = &[0x80, 0x03, 0x11, 0x22, 0x33];
    expect_after_true(&rt, rt.alloc(), SIZE_TO_65536, &octets, written);
}

/// The elements of a list are no octets, so no padding is after its count (X.691 20).
#[test]
fn length_of_a_list_is_aligned(rt: HostRuntime) {
    let list = list_of(&rt, rt.alloc(), &[true, false, true]);
    expect_after_true(&rt, rt.alloc(), SIZE_TO_256, &list, &[0x80, 0x02, 0xa0]);
}

const SIZE_24: &[Constraint] = constraints!(SIZE 24..=24);

const SIZE_16: &[Constraint] = constraints!(SIZE 16..=16);

/// A BIT STRING of a fixed size of up to sixteen bits is in place, a longer one on a boundary (X.691 16.9, 16.10).
#[test]
fn bits_of_more_than_two_octets_are_aligned(rt: HostRuntime) {
    let long = BitString::from_octets(rt.alloc(), &[0xab, 0xcd, 0xef], 24).expect(&rt, "memory");
    expect_after_true(&rt, rt.alloc(), SIZE_24, &long, &[0x80, 0xab, 0xcd, 0xef]);
    let short = BitString::from_octets(rt.alloc(), &[0xab, 0xcd], 16).expect(&rt, "memory");
    expect_after_true(&rt, rt.alloc(), SIZE_16, &short, &[0xd5, 0xe6, 0x80]);
}

const SIZE_2: &[Constraint] = constraints!(SIZE 2..=2);

const SIZE_1_TO_2: &[Constraint] = constraints!(SIZE 1..=2);

/// A string of fewer than sixteen bits, or of a fixed size of sixteen, is in place (X.691 30.5.6, 30.5.7).
#[test]
fn characters_of_a_size_that_varies_are_aligned(rt: HostRuntime) {
    let letters = VisibleString::from_iso646_bytes(list_of(&rt, rt.alloc(), b"AB"));
    let letters = letters.expect(&rt, "a VisibleString");
    expect_after_true(&rt, rt.alloc(), SIZE_2, &letters, &[0xa0, 0xa1, 0x00]);
    expect_after_true(&rt, rt.alloc(), SIZE_1_TO_2, &letters, &[0xc0, 0x41, 0x42]);
}
