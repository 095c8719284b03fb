//! BIT STRINGs: how they are printed (X.680 22.9), and their calls on their happy path.

use crate::expected::{expect_equal, expect_octets, expect_text};
use rasn_types::bit_string::BitString;
use std::alloc::{AllocError, Global};
use std::process::Abort;

const BITS: [bool; 9] = [true, false, true, true, false, false, true, false, true];

/// Bits have this text.
fn expect_bits(
    rt: &impl Abort,
    alloc: Global,
    bits: &BitString,
    text: &str,
) -> Result<(), AllocError> {
    let printed = format!(in alloc; "{bits}")?;
    expect_text(rt, printed.as_str(), text);
    Ok(())
}

#[test]
fn prints_bits(rt: HostRuntime) -> Result<(), AllocError> {
    let alloc = rt.alloc();
    expect_bits(&rt, alloc, &BitString::new(alloc), "''B")?;
    let bits = BitString::from_slice(alloc, &BITS)?;
    expect_bits(&rt, alloc, &bits, "'101100101'B")
}

#[test]
fn keeps_the_first_bits(rt: HostRuntime) -> Result<(), AllocError> {
    let alloc = rt.alloc();
    let mut bits = BitString::from_slice(alloc, &BITS)?;
    bits.truncate(12);
    expect_octets(&rt, bits.as_octets(), &[0xb2, 0x80]);
    bits.truncate(5);
    expect_octets(&rt, bits.as_octets(), &[0xb0]);
    expect_bits(&rt, alloc, &bits, "'10110'B")
}

#[test]
fn copies_and_counts_bits(rt: HostRuntime) -> Result<(), AllocError> {
    let bits = BitString::from_slice(rt.alloc(), &BITS)?;
    expect_equal(&rt, &bits.clone()?, &bits);
    expect_equal(&rt, &bits.iter().filter(|bit| *bit).count(), &5);
    Ok(())
}
