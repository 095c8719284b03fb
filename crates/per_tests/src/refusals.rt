//! Why values and octets are refused, with the numbers that the error holds, and which of two faults is named.

use crate::calls::{read_of, written_of};
use crate::expected::{expect_unread, expect_unwritten};
use per_enc::EncodeErrorKind;
use per_read::error::DecodeErrorKind;
use rasn_below::codec::Decode;
use rasn_below::types::{OctetString, VisibleString};
use rasn_below::{Constraint, constraints};
use rasn_constraints::bounds::OutOfBounds;
use rasn_constraints::count::Count;
use rasn_constraints::sizes::OutOfSize;
use std::alloc::{AllocError, Global};
use std::process::Abort;

const FROM_1_TO_10: &[Constraint] = constraints!(1..=10, ...);

const BOUNDED: &[Constraint] = constraints!(1..=10);

const FROM_1_TO_300: &[Constraint] = constraints!(SIZE 1..=300);

const UP_TO_65535: &[Constraint] = constraints!(..=65_535);

const UP_TO_4: &[Constraint] = constraints!(SIZE..=4);

const A_TO_E: &[u32] = &[65, 66, 67, 68, 69];

const FIVE: &[Constraint] = constraints!(FROM A_TO_E, SIZE 1..=20);

const ONE_OF_FIVE: &[Constraint] = constraints!(FROM A_TO_E, SIZE 1..=1);

/// Octets that are read as no value of a type under constraints, and why.
type Row = (
    &'static [Constraint<'static>],
    &'static [u8],
    DecodeErrorKind,
);

fn numbers() -> [Row; 3] {
    [
        // a fragment of 16384 octets, of which one is there
        (
            constraints!(),
            &[0xc1, 0x00],
            DecodeErrorKind::Incomplete(Count::new(131_064)),
        ),
        (
            FROM_1_TO_10,
            &[0x78],
            DecodeErrorKind::ValueConstraintNotSatisfied(OutOfBounds::new(
                Some(16),
                Some(1),
                Some(10),
            )),
        ),
        // 2 to the power 127 is named by its absence
        (
            UP_TO_65535,
            &[0x11, 0, 0x80, 0, 0, 0, 0, 0, 0, 0, 0, 0, 0, 0, 0, 0, 0, 0],
            DecodeErrorKind::ValueConstraintNotSatisfied(OutOfBounds::new(None, None, Some(65535))),
        ),
    ]
}

fn octets() -> [Row; 2] {
    [
        (
            UP_TO_4,
            &[0x06, 1, 2, 3, 4, 5, 6],
            DecodeErrorKind::SizeConstraintNotSatisfied(OutOfSize {
                size: 6,
                lower: None,
                upper: Some(4),
            }),
        ),
        // the octets are read before their count is checked
        (
            UP_TO_4,
            &[0x06, 1, 2, 3, 4, 5],
            DecodeErrorKind::Incomplete(Count::new(8)),
        ),
    ]
}

fn strings() -> [Row; 2] {
    [
        // a code without a character in a string that is too long
        (
            FIVE,
            &[
                0xff, 0xff, 0xff, 0xff, 0xff, 0xff, 0xff, 0xff, 0xff, 0xff, 0xff, 0xff, 0xff,
            ],
            DecodeErrorKind::SizeConstraintNotSatisfied(OutOfSize {
                size: 32,
                lower: Some(1),
                upper: Some(20),
            }),
        ),
        // three characters of seven bits, of which none is there
        (
            constraints!(),
            &[0x03],
            DecodeErrorKind::Incomplete(Count::new(21)),
        ),
    ]
}

fn lists() -> [Row; 2] {
    [
        (
            FROM_1_TO_300,
            &[0x96, 0x00],
            DecodeErrorKind::SizeConstraintNotSatisfied(OutOfSize {
                size: 301,
                lower: Some(1),
                upper: Some(300),
            }),
        ),
        // after a fragment a further length stands
        (
            constraints!(),
            &[0xc1],
            DecodeErrorKind::Incomplete(Count::new(1)),
        ),
    ]
}

fn expect_refusals<T: Decode>(rt: &impl Abort, alloc: Global, rows: &[Row]) {
    for (constraints, octets, kind) in rows {
        let read = read_of::<T>(alloc, octets, constraints);
        expect_unread(rt, read.err(), *kind);
    }
}

#[test]
fn names_why_octets_are_no_value(rt: HostRuntime) {
    expect_refusals::<i128>(&rt, rt.alloc(), &numbers());
    expect_refusals::<OctetString>(&rt, rt.alloc(), &octets());
    expect_refusals::<VisibleString>(&rt, rt.alloc(), &strings());
    expect_refusals::<Vec<()>>(&rt, rt.alloc(), &lists());
}

#[test]
fn names_why_a_number_is_not_written(rt: HostRuntime) {
    let written = written_of(rt.alloc(), &16_i128, BOUNDED);
    let told = OutOfBounds::new(Some(16), Some(1), Some(10));
    let kind = EncodeErrorKind::ValueConstraintNotSatisfied(told);
    expect_unwritten(&rt, written.err(), kind);
}

// a string that meets neither is refused for its count
#[test]
fn names_why_a_string_is_not_written(rt: HostRuntime) -> Result<(), AllocError> {
    let letters = Vec::from_slice(rt.alloc(), b"AF")?;
    if let Some(string) = VisibleString::from_iso646_bytes(letters) {
        let foreign = written_of(rt.alloc(), &string, FIVE).err();
        expect_unwritten(
            &rt,
            foreign,
            EncodeErrorKind::AlphabetConstraintNotSatisfied,
        );
        let long = written_of(rt.alloc(), &string, ONE_OF_FIVE).err();
        let told = OutOfSize {
            size: 2,
            lower: Some(1),
            upper: Some(1),
        };
        let kind = EncodeErrorKind::SizeConstraintNotSatisfied(told);
        expect_unwritten(&rt, long, kind);
    }
    Ok(())
}
