//! Whole numbers as octets: that each type that holds them reads and writes them, and how they are printed.

use crate::expected::{expect_equal, expect_text};
use rasn_constraints::integer_type::IntegerType;
use rasn_types::big::Integer;
use rasn_types::big::numbers::TryFromIntegerError;
use std::alloc::{AllocError, Global};
use std::cmp::Ordering;
use std::process::Abort;
use std::test::Fail;

const FIVE: &[u8] = &[0x05];

// 2^127, which is next to the greatest number of an `i128`
const ABOVE: &[u8] = &[0x00, 0x80, 0, 0, 0, 0, 0, 0, 0, 0, 0, 0, 0, 0, 0, 0, 0];

/// Whether a type reads a number from octets, and writes it as the same ones.
fn keeps<I: IntegerType>(alloc: Global, octets: &[u8]) -> Result<bool, AllocError> {
    match I::try_from_signed_bytes(alloc, octets)? {
        Some(number) => Ok(number.to_signed_bytes_be(alloc)?.as_slice() == octets),
        None => Ok(false),
    }
}

#[test]
fn each_type_reads_and_writes_octets(rt: HostRuntime) {
    let alloc = rt.alloc();
    expect_equal(&rt, &keeps::<i8>(alloc, FIVE), &Ok(true));
    expect_equal(&rt, &keeps::<i16>(alloc, FIVE), &Ok(true));
    expect_equal(&rt, &keeps::<i32>(alloc, FIVE), &Ok(true));
    expect_equal(&rt, &keeps::<i64>(alloc, FIVE), &Ok(true));
    expect_equal(&rt, &keeps::<i128>(alloc, FIVE), &Ok(true));
    expect_equal(&rt, &keeps::<u8>(alloc, FIVE), &Ok(true));
    expect_equal(&rt, &keeps::<u16>(alloc, FIVE), &Ok(true));
    expect_equal(&rt, &keeps::<u32>(alloc, FIVE), &Ok(true));
    expect_equal(&rt, &keeps::<u64>(alloc, FIVE), &Ok(true));
    expect_equal(&rt, &keeps::<Integer>(alloc, ABOVE), &Ok(true));
}

/// How a type's number that octets mean compares with 4, and whether it is below 0, where the type holds it.
fn compared<I: IntegerType>(
    alloc: Global,
    octets: &[u8],
) -> Result<Option<(Ordering, bool)>, AllocError> {
    match I::try_from_signed_bytes(alloc, octets)? {
        Some(number) => Ok(Some((number.cmp_i128(4), number.is_negative()))),
        None => Ok(None),
    }
}

#[test]
fn numbers_compare_with_an_i128(rt: HostRuntime) {
    let alloc = rt.alloc();
    let above = Ok(Some((Ordering::Greater, false)));
    let below = Ok(Some((Ordering::Less, true)));
    expect_equal(&rt, &compared::<i8>(alloc, &[0xfb]), &below);
    expect_equal(&rt, &compared::<i128>(alloc, &[0xfb]), &below);
    expect_equal(&rt, &compared::<u64>(alloc, FIVE), &above);
    expect_equal(&rt, &compared::<Integer>(alloc, ABOVE), &above);
    expect_equal(&rt, &compared::<Integer>(alloc, BELOW), &below);
}

#[test]
fn prints_numbers(rt: HostRuntime) -> Result<(), Fail> {
    let (small, large) = (
        Integer::from(-5),
        Integer::from_signed_octets(rt.alloc(), ABOVE)?,
    );
    let printed = format!(in rt.alloc(); "{small:?}, {large:?}")?;
    expect_text(
        &rt,
        printed.as_str(),
        "Primitive(-5), Variable([0, 128, 0, 0, 0, 0, 0, 0, 0, 0, 0, 0, 0, 0, 0, 0, 0])",
    );
    Ok(())
}

// -2^127 - 1, which is next to the least number of an `i128`
const BELOW: &[u8] = &[
    0xff, 0x7f, 0xff, 0xff, 0xff, 0xff, 0xff, 0xff, 0xff, 0xff, 0xff, 0xff, 0xff, 0xff, 0xff, 0xff,
    0xff,
];

// 2^160, of which one group of three digits, 019, begins with a zero
const WIDE: &[u8] = &[
    1, 0, 0, 0, 0, 0, 0, 0, 0, 0, 0, 0, 0, 0, 0, 0, 0, 0, 0, 0, 0,
];

/// Octets in two's complement are those of the number with this decimal text.
fn expect_decimal(
    rt: &impl Abort,
    alloc: Global,
    octets: &[u8],
    text: &str,
) -> Result<(), AllocError> {
    assert!(rt; !octets.is_empty());
    let number = Integer::from_signed_octets(alloc, octets)?;
    let printed = format!(in alloc; "{number}")?;
    expect_text(rt, printed.as_str(), text);
    Ok(())
}

#[test]
fn prints_numbers_in_decimal(rt: HostRuntime) -> Result<(), AllocError> {
    let alloc = rt.alloc();
    expect_decimal(&rt, alloc, &[0], "0")?;
    expect_decimal(&rt, alloc, &[0xff, 0x7f], "-129")?;
    expect_decimal(&rt, alloc, ABOVE, "170141183460469231731687303715884105728")?;
    expect_decimal(
        &rt,
        alloc,
        BELOW,
        "-170141183460469231731687303715884105729",
    )?;
    expect_decimal(
        &rt,
        alloc,
        WIDE,
        "1461501637330902918203684832716283019655932542976",
    )
}

#[test]
fn prints_numbers_in_a_width(rt: HostRuntime) -> Result<(), AllocError> {
    let number = Integer::from_signed_octets(rt.alloc(), BELOW)?;
    let printed = format!(in rt.alloc(); "{number:>42}")?;
    expect_text(
        &rt,
        printed.as_str(),
        "  -170141183460469231731687303715884105729",
    );
    Ok(())
}

#[test]
fn copies_are_equal(rt: HostRuntime) -> Result<(), AllocError> {
    let large = Integer::from_signed_octets(rt.alloc(), ABOVE)?;
    let small = Integer::from(7u8);
    expect_equal(&rt, &large.clone()?, &large);
    expect_equal(&rt, &small.clone()?, &small);
    Ok(())
}

#[test]
fn becomes_each_number_type(rt: HostRuntime) {
    let number = Integer::from(200u8);
    expect_equal(&rt, &i8::try_from(&number), &Err(TryFromIntegerError));
    expect_equal(&rt, &u8::try_from(&number), &Ok(200));
    expect_equal(&rt, &i16::try_from(&number), &Ok(200));
    expect_equal(&rt, &u16::try_from(&number), &Ok(200));
    expect_equal(&rt, &i32::try_from(&number), &Ok(200));
    expect_equal(&rt, &u32::try_from(&number), &Ok(200));
    expect_equal(&rt, &i64::try_from(&number), &Ok(200));
    expect_equal(&rt, &u64::try_from(&number), &Ok(200));
}
