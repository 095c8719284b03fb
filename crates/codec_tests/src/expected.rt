//! What several tests expect: as calls, since a comparison in a test's own body costs its proof seconds.

use std::fmt::Debug;
use std::process::Abort;

/// Octets are these.
pub(crate) fn expect_octets(rt: &impl Abort, found: &[u8], expected: &[u8]) {
    assert_eq!(rt; found, expected);
}

/// A text is this one.
pub(crate) fn expect_text(rt: &impl Abort, found: &str, expected: &str) {
    assert_eq!(rt; found, expected);
}

/// A value is this one.
pub(crate) fn expect_equal<T: PartialEq + Debug>(rt: &impl Abort, found: &T, expected: &T) {
    assert_eq!(rt; found, expected);
}

/// The items of a list are these.
pub(crate) fn expect_items<T: PartialEq + Debug>(rt: &impl Abort, found: &[T], expected: &[T]) {
    assert_eq!(rt; found, expected);
}
