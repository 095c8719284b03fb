//! What several tests expect: as calls, since each exit of a test's own body costs its proof, and each comparison of
//! errors, which have many kinds, costs it more.

use per_enc::{EncodeError, EncodeErrorKind};
use per_read::error::{DecodeError, DecodeErrorKind};
use rasn_below::types::Codec;
use std::fmt::Debug;
use std::process::Abort;

/// Octets are these.
pub(crate) fn expect_octets(rt: &impl Abort, found: &[u8], expected: &[u8]) {
    assert_eq!(rt; found, expected);
}

/// A value is this one.
pub(crate) fn expect_equal<T: PartialEq + Debug>(rt: &impl Abort, found: &T, expected: &T) {
    assert_eq!(rt; found, expected);
}

/// A decoder of the UNALIGNED variant refused, for this reason.
pub(crate) fn expect_unread(rt: &impl Abort, found: Option<DecodeError>, kind: DecodeErrorKind) {
    let codec = Codec::Uper;
    assert_eq!(rt; found, Some(DecodeError { kind, codec }));
}

/// An encoder of the UNALIGNED variant refused, for this reason.
pub(crate) fn expect_unwritten(rt: &impl Abort, found: Option<EncodeError>, kind: EncodeErrorKind) {
    let codec = Codec::Uper;
    assert_eq!(rt; found, Some(EncodeError { kind, codec }));
}
