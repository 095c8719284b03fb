//! The contents octets of OBJECT IDENTIFIERs, by outside vectors (X.690 8.19), and the texts of errors.

use crate::expected::{expect_octets, expect_text};
use rasn_types::ber::{BerError, object_identifier_as_bytes, object_identifier_from_bytes};
use std::alloc::Global;
use std::process::Abort;
use std::test::Fail;

/// Arcs and their contents octets: X.690 8.19.5, and others' encodings of joint-iso-itu-t and of 0.0.20.124.0.1.
const ROWS: &[(&[u32], &[u8])] = &[
    (&[2, 999, 3], &[0x88, 0x37, 0x03]),
    (&[0, 0, 20, 124, 0, 1], &[0x00, 0x14, 0x7c, 0x00, 0x01]),
    (&[1, 2, 840, 113549], &[0x2a, 0x86, 0x48, 0x86, 0xf7, 0x0d]),
];

/// Arcs are these.
fn expect_arcs(rt: &impl Abort, found: &[u32], expected: &[u32]) {
    assert_eq!(rt; found, expected);
}

/// Arcs have these contents, and are read from them.
fn expect_contents(
    rt: &impl Abort,
    alloc: Global,
    arcs: &[u32],
    octets: &[u8],
) -> Result<(), BerError> {
    let mut written = Vec::new(alloc);
    object_identifier_as_bytes(arcs, &mut written)?;
    expect_octets(rt, written.as_slice(), octets);
    let read = object_identifier_from_bytes(alloc, octets)?;
    expect_arcs(rt, read.as_slice(), arcs);
    Ok(())
}

#[test]
fn writes_and_reads_contents(rt: HostRuntime) -> Result<(), BerError> {
    for (arcs, octets) in ROWS {
        expect_contents(&rt, rt.alloc(), arcs, octets)?;
    }
    Ok(())
}

// that memory was wanting would be no breach of the contract
#[test]
fn refuses_other_contents(rt: HostRuntime) {
    let read = object_identifier_from_bytes(rt.alloc(), &[0x80, 0x01]);
    assert!(rt; read == Err(BerError::InvalidObjectIdentifier));
}

#[test]
fn prints_errors(rt: HostRuntime) -> Result<(), Fail> {
    let (memory, other) = (BerError::OutOfMemory, BerError::InvalidObjectIdentifier);
    let printed = format!(in rt.alloc(); "{memory}, {other}")?;
    expect_text(
        &rt,
        printed.as_str(),
        "out of memory, not an object identifier",
    );
    Ok(())
}
