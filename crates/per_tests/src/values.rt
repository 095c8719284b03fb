//! Worked values under constraints that no other test has, by both ends.

use crate::calls::{read_of, written_of};
use crate::expected::expect_octets;
use rasn_below::codec::{Decode, Encode};
use rasn_below::types::{OctetString, VisibleString};
use rasn_below::{Bounded, Constraint, Extensible, constraints};
use std::alloc::Global;
use std::process::Abort;
use std::test::Fail;

/// Constraints, and octets in the UNALIGNED variant of a value under them.
type Rows = &'static [(&'static [Constraint<'static>], &'static [u8])];

/// Octets under sizes (X.691 17): a count in 16 bits, one without such a bound, none, and one below an upper bound
/// alone.
const OCTETS: Rows = &[
    (constraints!(SIZE 0..=65_535), &[0x00, 0x01, 0xaa]),
    (constraints!(SIZE 0..=65_536), &[0x01, 0xaa]),
    (constraints!(SIZE 2..=2), &[0xaa, 0xbb]),
    (constraints!(SIZE..=4), &[0x01, 0xaa]),
];

const A_TO_E: &[u32] = &[0x41, 0x42, 0x43, 0x44, 0x45];

const FIVE_MARKED: &[Constraint] = &[
    Constraint::PermittedAlphabet(Extensible {
        constraint: A_TO_E,
        extensible: true,
    }),
    Constraint::Size(Extensible {
        constraint: Bounded::Range {
            start: Some(1),
            end: Some(20),
        },
        extensible: false,
    }),
];

/// "AE", of characters of seven bits: an extensible alphabet isn't visible (X.691 30.4).
const STRINGS: Rows = &[(FIVE_MARKED, &[0x0c, 0x18, 0xa0])];

/// Values are read from these octets, and written as them.
fn expect_values<T: Encode + Decode>(
    rt: &impl Abort,
    alloc: Global,
    rows: Rows,
) -> Result<(), Fail> {
    for (constraints, octets) in rows {
        let value: T = read_of(alloc, octets, constraints)?;
        let written = written_of(alloc, &value, constraints)?;
        expect_octets(rt, written.as_slice(), octets);
    }
    Ok(())
}

#[test]
fn reads_and_writes_octets_under_sizes(rt: HostRuntime) -> Result<(), Fail> {
    expect_values::<OctetString>(&rt, rt.alloc(), OCTETS)
}

#[test]
fn reads_and_writes_characters_of_any_alphabet(rt: HostRuntime) -> Result<(), Fail> {
    expect_values::<VisibleString>(&rt, rt.alloc(), STRINGS)
}
