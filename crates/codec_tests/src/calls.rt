//! Calls of the crates above `rasn_per`, what the calls of `uper` say of values and octets that they refuse, and which
//! constraints are lawful.

use crate::expected::{expect_equal, expect_items};
use per_samples_a::strings::LettersAToE;
use per_samples_b::outer1::Outer1;
use per_samples_c::colors::TwoColors;
use per_samples_c::one_color::OneColor;
use per_versions::exchange::{ExchangeError, read_by_newer, read_by_older};
use rasn_below::types::{Codec, VisibleString};
use rasn_below::{Constraint, Constraints, Decode, constraints};
use rasn_constraints::count::Count;
use rasn_constraints::sizes::OutOfSize;
use rasn_per::bits::BitReader;
use rasn_per::per::de::{DecodeError, Decoder, DecoderOptions};
use rasn_per::uper::{
    DecodeErrorKind, EncodeError, EncodeErrorKind, ParserFailCause, decode_with_constraints,
    decode_with_remainder, encode_buf, encode_onto, lawful,
};
use std::alloc::Global;
use std::test::Fail;

/// The codecs of both variants.
const BOTH: &[Codec] = &[Codec::Aper, Codec::Uper];

/// TRUE and FALSE, after an extension bit 0.
const OUTER: &[u8] = &[0x40];

const READ: Outer1 = Outer1 {
    first: true,
    second: false,
};

/// What a decoder of one's own reads.
fn read_by_decoder(alloc: Global) -> Option<Outer1> {
    let bits = BitReader::from_octets(OUTER);
    let mut decoder = Decoder::from_reader(alloc, bits, DecoderOptions::unaligned());
    Outer1::decode(&mut decoder).ok()
}

#[test]
fn decoder_of_ones_own_answers(rt: HostRuntime) {
    expect_equal(&rt, &read_by_decoder(rt.alloc()), &Some(READ));
}

#[test]
fn readers_of_other_versions_answer(rt: HostRuntime) {
    for codec in BOTH {
        let older = read_by_older::<TwoColors, OneColor>(rt.alloc(), *codec, &TwoColors::A);
        expect_equal(&rt, &older, &Ok(OneColor::A));
        let newer = read_by_newer::<TwoColors, OneColor>(rt.alloc(), *codec, &OneColor::A);
        expect_equal(&rt, &newer, &Ok(TwoColors::A));
    }
}

#[test]
fn older_reader_refuses_an_added_item(rt: HostRuntime) {
    let kind = DecodeErrorKind::EnumerationIndexNotFound(0, true);
    for codec in BOTH {
        let error = ExchangeError::Decode(DecodeError {
            kind,
            codec: *codec,
        });
        let answer = read_by_older::<TwoColors, OneColor>(rt.alloc(), *codec, &TwoColors::B);
        expect_equal(&rt, &answer, &Err(error));
    }
}

/// Octets that begin with no value of NULL, and why.
fn no_nulls() -> [(&'static [u8], DecodeErrorKind); 2] {
    [
        (&[], DecodeErrorKind::Incomplete(Count::new(8))),
        (
            &[0x01, 0x00],
            DecodeErrorKind::ParserFail(ParserFailCause::NonzeroEmptyValue),
        ),
    ]
}

#[test]
fn names_what_no_value_begins_with(rt: HostRuntime) {
    for (octets, kind) in &no_nulls() {
        let refused = decode_with_remainder::<()>(rt.alloc(), octets).err();
        let error = DecodeError {
            kind: *kind,
            codec: Codec::Uper,
        };
        expect_equal(&rt, &refused, &Some(error));
    }
}

/// TRUE, and two octets after it.
#[test]
fn answers_what_stands_after_a_value(rt: HostRuntime) {
    match decode_with_remainder::<bool>(rt.alloc(), &[0x80, 0xaa, 0xbb]) {
        Ok((value, behind)) => {
            expect_equal(&rt, &value, &true);
            expect_items(&rt, behind, &[0xaa, 0xbb]);
        }
        Err(error) => assert!(rt; false, "{error:?}"),
    }
}

const SIZES_ONE_TO_TEN: &[Constraint] = constraints!(SIZE 1..=10);

/// Four bits count up to sixteen characters where ten are the most.
#[test]
fn tells_a_size_past_its_bounds(rt: HostRuntime) {
    let limits = Constraints::new(SIZES_ONE_TO_TEN);
    let octets: &[u8] = &[0xff; 20];
    let read = decode_with_constraints::<VisibleString>(rt.alloc(), &limits, octets);
    let error = DecodeError {
        kind: DecodeErrorKind::SizeConstraintNotSatisfied(OutOfSize {
            size: 16,
            lower: Some(1),
            upper: Some(10),
        }),
        codec: Codec::Uper,
    };
    expect_equal(&rt, &read.err(), &Some(error));
}

/// Writes letters into a buffer, and answers why they aren't written.
fn refusal_of(
    alloc: Global,
    letters: &[u8],
    buffer: &mut Vec<u8>,
) -> Result<Option<EncodeError>, Fail> {
    let letters = VisibleString::from_iso646_bytes(Vec::from_slice(alloc, letters)?);
    let letters = LettersAToE::new(letters.ok_or("no VisibleString")?);
    Ok(encode_buf(&letters, buffer).err())
}

const NOT_PERMITTED: EncodeError = EncodeError {
    kind: EncodeErrorKind::AlphabetConstraintNotSatisfied,
    codec: Codec::Uper,
};

/// The buffer holds a longer encoding before, which is gone with the refusal.
#[test]
fn leaves_no_octets_of_a_refused_value(rt: HostRuntime) -> Result<(), Fail> {
    let mut buffer = Vec::new(rt.alloc());
    let written = refusal_of(rt.alloc(), b"ABCDEABCDE", &mut buffer)?;
    expect_equal(&rt, &written, &None);
    encode_onto(&READ, &mut buffer)?;
    expect_equal(&rt, &buffer.pop(), &Some(0x40));
    expect_items(&rt, buffer.as_slice(), &[0x48, 0x29, 0xc0, 0x53, 0x80]);
    let refused = refusal_of(rt.alloc(), b"AF", &mut buffer)?;
    expect_equal(&rt, &refused, &Some(NOT_PERMITTED));
    expect_items(&rt, buffer.as_slice(), &[]);
    Ok(())
}

const ONE_TO_GREATEST: &[Constraint] = constraints!(
    1..=170_141_183_460_469_231_731_687_303_715_884_105_727
);

const ZERO_TO_GREATEST: &[Constraint] = constraints!(
    0..=170_141_183_460_469_231_731_687_303_715_884_105_727
);

const FIVE_TO_FOUR: &[Constraint] = constraints!(5..=4);

const FROM_ZERO: &[Constraint] = constraints!(0..);

const SIZES_THREE_TO_TWO: &[Constraint] = constraints!(SIZE 3..=2);

const SIZES_TWO_TO_THREE: &[Constraint] = constraints!(SIZE 2..=3);

const NO_CONSTRAINT: &[Constraint] = constraints!();

/// Constraints, and whether they are lawful.
const LAWFUL: &[(&[Constraint], bool)] = &[
    (ONE_TO_GREATEST, true),
    (ZERO_TO_GREATEST, false),
    (FIVE_TO_FOUR, false),
    (FROM_ZERO, true),
    (SIZES_THREE_TO_TWO, false),
    (SIZES_TWO_TO_THREE, true),
    (NO_CONSTRAINT, true),
];

#[test]
fn tells_lawful_constraints(rt: HostRuntime) {
    for (constraints, are_lawful) in LAWFUL {
        let told = lawful(&Constraints::new(constraints));
        assert_eq!(rt; told, *are_lawful, "{constraints:?}");
    }
}
