//! Texts of identifiers, times and dates (X.680 12.8 and 38.4, X.690 11.7 and 11.8).

use crate::expected::expect_items;
use jiff::civil;
use rasn_below::ber::BerError;
use rasn_below::types::{Date, GeneralizedTime, ObjectIdentifier, UtcTime};
use std::alloc::Global;
use std::fmt::Display;
use std::process::Abort;

/// A value has this text.
fn expect_printed<T: Display>(rt: &impl Abort, alloc: Global, value: &T, text: &str) {
    let printed = format!(in alloc; "{value}").expect(rt, "memory");
    assert_eq!(rt; printed.as_str(), text);
}

/// Arcs and their texts.
const IDENTIFIERS: &[(&[u32], &str)] = &[
    (&[2, 999, 3], "2.999.3"),
    (&[1, 2, 840, 113549], "1.2.840.113549"),
    (&[0, 0], "0.0"),
    (&[1, 4294967295], "1.4294967295"),
];

/// Arcs have this text, and are read from it.
fn expect_identifier(rt: &impl Abort, alloc: Global, arcs: &[u32], text: &str) {
    let read = ObjectIdentifier::from_text(alloc, text).expect(rt, "an identifier");
    expect_items(rt, read.as_arcs(), arcs);
    expect_printed(rt, alloc, &read, text);
}

#[test]
fn reads_and_prints_identifiers(rt: HostRuntime) {
    for (arcs, text) in IDENTIFIERS {
        expect_identifier(&rt, rt.alloc(), arcs, text);
    }
}

/// Texts of no identifier.
const OTHERS: &[&str] = &[
    "",
    ".",
    "1.",
    "1..2",
    "1.02",
    "+1.2",
    "1.-2",
    "1.4294967296",
    "1.2 ",
    "1,2",
];

#[test]
fn refuses_other_texts(rt: HostRuntime) {
    for text in OTHERS {
        let read = ObjectIdentifier::from_text(rt.alloc(), text);
        assert!(rt; read == Err(BerError::InvalidObjectIdentifier), "{text}");
    }
}

/// The identifier of these arcs.
fn identifier_of(rt: &impl Abort, alloc: Global, arcs: &[u32]) -> ObjectIdentifier {
    ObjectIdentifier::from_slice(alloc, arcs).expect(rt, "memory")
}

#[test]
fn orders_identifiers(rt: HostRuntime) {
    let shorter = identifier_of(&rt, rt.alloc(), &[1, 2]);
    let longer = identifier_of(&rt, rt.alloc(), &[1, 2, 3]);
    assert!(rt; shorter < longer);
}

/// A moment of X.690 11.7.5, with nanoseconds.
fn moment_of(rt: &impl Abort, year: i16, nanosecond: i32) -> civil::DateTime {
    civil::DateTime::new(year, 7, 22, 13, 21, 0, nanosecond).expect(rt, "a moment")
}

/// A UTCTime has this text.
fn expect_utc(rt: &impl Abort, alloc: Global, year: i16, text: &str) {
    let time = UtcTime::new(moment_of(rt, year, 0));
    expect_printed(rt, alloc, &time, text);
}

#[test]
fn prints_utc_times(rt: HostRuntime) {
    expect_utc(&rt, rt.alloc(), 1992, "920722132100Z");
    expect_utc(&rt, rt.alloc(), 2050, "2050-07-22T13:21:00");
}

/// A GeneralizedTime with nanoseconds has this text.
fn expect_generalized(rt: &impl Abort, alloc: Global, year: i16, nanosecond: i32, text: &str) {
    let time = GeneralizedTime::new(moment_of(rt, year, nanosecond));
    expect_printed(rt, alloc, &time, text);
}

#[test]
fn prints_generalized_times(rt: HostRuntime) {
    let alloc = rt.alloc();
    expect_generalized(&rt, alloc, 1992, 0, "19920722132100Z");
    expect_generalized(&rt, alloc, 1992, 300_000_000, "19920722132100.3Z");
    expect_generalized(&rt, alloc, 0, 1, "00000722132100.000000001Z");
}

#[test]
fn prints_dates(rt: HostRuntime) {
    let day = civil::Date::new(2024, 2, 29).expect(&rt, "a day");
    expect_printed(&rt, rt.alloc(), &Date::new(day), "2024-02-29");
}
