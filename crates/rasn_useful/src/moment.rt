//! What the texts of UTCTime and GeneralizedTime have in common.

use jiff::civil::DateTime;
use std::fmt;

/// Writes a moment from its month to its second, MMDDhhmmss.
pub(crate) fn write_moment<W: fmt::Write>(
    f: &mut fmt::Formatter<W>,
    moment: DateTime,
) -> fmt::Result {
    let (month, day) = (moment.month(), moment.day());
    let (hour, minute, second) = (moment.hour(), moment.minute(), moment.second());
    write!(f, "{month:02}{day:02}{hour:02}{minute:02}{second:02}")
}

/// Writes a fraction of a second in nanoseconds: a full stop and its digits without zeros at their end, nothing for 0.
pub(crate) fn write_fraction<W: fmt::Write>(
    f: &mut fmt::Formatter<W>,
    nanosecond: i32,
) -> fmt::Result {
    if nanosecond == 0 {
        return Ok(());
    }
    let (mut digits, mut width) = (nanosecond, 9usize);
    while digits % 10 == 0 && width > 1 {
        digits /= 10;
        width -= 1;
    }
    write!(f, ".{digits:0width$}")
}
