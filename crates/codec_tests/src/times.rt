//! Dates, and the texts of UTCTime and GeneralizedTime, by outside vectors (X.690 11.7 and 11.8).

use crate::expected::expect_octets;
use jiff::civil::DateTime;
use rasn_strings::date::{date_from_parts, date_to_parts};
use rasn_strings::generalized_time::{
    datetime_to_canonical_generalized_time_bytes, parse_canonical_generalized_time_string,
};
use rasn_strings::time_error::TimeError;
use rasn_strings::utc_time::{
    datetime_to_canonical_utc_time_bytes, parse_canonical_utc_time_string,
};
use std::alloc::Global;
use std::process::Abort;
use std::test::Fail;

#[test]
fn makes_dates(rt: HostRuntime) -> Result<(), TimeError> {
    let date = date_from_parts(2024, 2, 29)?;
    assert_eq!(rt; date_to_parts(date), (2024, 2, 29));
    Ok(())
}

/// The year, the month and the day of a moment, and its hour, minute and second.
type Parts = ((i16, i8, i8), (i8, i8, i8));

/// The moment of some parts.
fn moment_of(parts: &Parts, nanosecond: i32) -> Result<DateTime, Fail> {
    let ((year, month, day), (hour, minute, second)) = *parts;
    let moment = DateTime::new(year, month, day, hour, minute, second, nanosecond)?;
    Ok(moment)
}

/// A moment is this one.
fn expect_moment(rt: &impl Abort, found: DateTime, expected: DateTime) {
    assert!(rt; found == expected);
}

/// The parts of moments and the texts of their UTCTime: X.690 11.8.3, and 2018-06-13 11:01:59.
const UTC: &[(Parts, &str)] = &[
    (((1992, 5, 21), (0, 0, 0)), "920521000000Z"),
    (((1992, 6, 22), (12, 34, 21)), "920622123421Z"),
    (((1992, 7, 22), (13, 21, 0)), "920722132100Z"),
    (((2018, 6, 13), (11, 1, 59)), "180613110159Z"),
];

/// A moment has this UTCTime.
fn expect_utc(
    rt: &impl Abort,
    alloc: Global,
    moment: DateTime,
    text: &[u8],
) -> Result<(), TimeError> {
    let written = datetime_to_canonical_utc_time_bytes(alloc, moment)?;
    expect_octets(rt, written.as_slice(), text);
    let read = parse_canonical_utc_time_string(text)?;
    expect_moment(rt, read, moment);
    Ok(())
}

#[test]
fn writes_and_reads_utc_times(rt: HostRuntime) -> Result<(), Fail> {
    for (parts, text) in UTC {
        expect_utc(&rt, rt.alloc(), moment_of(parts, 0)?, text.as_bytes())?;
    }
    Ok(())
}

/// The parts of moments, nanoseconds and the texts of their GeneralizedTime: X.690 11.7.5, and the second nanosecond of
/// year 0.
const GENERALIZED: &[(Parts, i32, &str)] = &[
    (((1992, 5, 21), (0, 0, 0)), 0, "19920521000000Z"),
    (((1992, 6, 22), (12, 34, 21)), 0, "19920622123421Z"),
    (
        ((1992, 7, 22), (13, 21, 0)),
        300_000_000,
        "19920722132100.3Z",
    ),
    (((0, 1, 1), (0, 0, 0)), 1, "00000101000000.000000001Z"),
];

/// A moment has this GeneralizedTime.
fn expect_generalized(
    rt: &impl Abort,
    alloc: Global,
    moment: DateTime,
    text: &[u8],
) -> Result<(), TimeError> {
    let written = datetime_to_canonical_generalized_time_bytes(alloc, moment)?;
    expect_octets(rt, written.as_slice(), text);
    let read = parse_canonical_generalized_time_string(text)?;
    expect_moment(rt, read, moment);
    Ok(())
}

#[test]
fn writes_and_reads_generalized_times(rt: HostRuntime) -> Result<(), Fail> {
    for (parts, nanosecond, text) in GENERALIZED {
        let moment = moment_of(parts, *nanosecond)?;
        expect_generalized(&rt, rt.alloc(), moment, text.as_bytes())?;
    }
    Ok(())
}
