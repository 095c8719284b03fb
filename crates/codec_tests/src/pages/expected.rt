//! What several tests expect, as rows of text. Nothing here gives an error back, since each exit of a test's own body
//! costs its proof: where something isn't as expected, or memory is lacking, the test ends.

use crate::expected::{expect_octets, expect_text};
use rasn_below::types::Codec;
use rasn_below::{Decode, Encode};
use rasn_per::uper::{DecodeError, EncodeError};
use rasn_per::{aper, uper};
use serde_json::Value;
use std::alloc::Global;
use std::process::Abort;

/// Octets of the ALIGNED variant and of the UNALIGNED one in hexadecimal, none where these aren't tried, and the JSON
/// of the value that they spell.
pub(crate) type Rows = &'static [(&'static str, &'static str, &'static str)];

/// The octets that a text of hexadecimal spells.
pub(crate) fn octets_of(rt: &impl Abort, alloc: Global, digits: &str) -> Vec<u8> {
    hex::decode(alloc, digits.as_bytes()).expect(rt, "hexadecimal")
}

/// The octets of a value, in the variant of a codec.
pub(crate) fn encode<T: Encode>(
    alloc: Global,
    codec: Codec,
    value: &T,
) -> Result<Vec<u8>, EncodeError> {
    match codec {
        Codec::Aper => aper::encode(alloc, value),
        Codec::Uper => uper::encode(alloc, value),
    }
}

/// The value of octets, in the variant of a codec.
pub(crate) fn decode<T: Decode>(
    alloc: Global,
    codec: Codec,
    octets: &[u8],
) -> Result<T, DecodeError> {
    match codec {
        Codec::Aper => aper::decode(alloc, octets),
        Codec::Uper => uper::decode(alloc, octets),
    }
}

/// A value is shown as this JSON (X.697), which `serde_json` reads.
pub(crate) fn expect_json<T: Encode>(rt: &impl Abort, alloc: Global, value: &T, json: &str) {
    match rasn_jer::encode(alloc, value) {
        Ok(text) => assert_eq!(rt; str::from_utf8(text.as_slice()), Ok(json)),
        Err(error) => assert!(rt; false, "{json:?}: {error:?}"),
    }
    assert!(rt; Value::from_str(alloc, json).is_ok());
}

/// A value is written as these octets, in the variant of a codec.
pub(crate) fn expect_written<T: Encode>(
    rt: &impl Abort,
    alloc: Global,
    codec: Codec,
    value: &T,
    digits: &str,
) {
    let octets = octets_of(rt, alloc, digits);
    match encode(alloc, codec, value) {
        Ok(written) => expect_octets(rt, written.as_slice(), octets.as_slice()),
        Err(error) => assert!(rt; false, "{digits:?}: {error:?}"),
    }
}

/// The value that octets spell is shown as this JSON, and written as other octets, in the variant of a codec.
fn expect_spelled<T: Encode + Decode>(
    rt: &impl Abort,
    alloc: Global,
    codec: Codec,
    (digits, written): (&str, &str),
    json: &str,
) {
    let octets = octets_of(rt, alloc, digits);
    match decode::<T>(alloc, codec, octets.as_slice()) {
        Ok(value) => {
            expect_json(rt, alloc, &value, json);
            expect_written(rt, alloc, codec, &value, written);
        }
        Err(error) => assert!(rt; false, "{digits:?}: {error:?}"),
    }
}

/// Octets of both variants spell the values of these texts of JSON, and are what these are written as.
pub(crate) fn expect_rows<T: Encode + Decode>(rt: &(impl Abort + AllocGlobal), rows: Rows) {
    for (aligned, unaligned, json) in rows {
        if !aligned.is_empty() {
            expect_spelled::<T>(rt, rt.alloc(), Codec::Aper, (aligned, aligned), json);
        }
        if !unaligned.is_empty() {
            expect_spelled::<T>(rt, rt.alloc(), Codec::Uper, (unaligned, unaligned), json);
        }
    }
}

/// Octets, in the variant of a codec, spell the values of these texts of JSON, which are written as the octets beside
/// them.
pub(crate) fn expect_recoded<T: Encode + Decode>(
    rt: &(impl Abort + AllocGlobal),
    codec: Codec,
    rows: Rows,
) {
    for (digits, written, json) in rows {
        expect_spelled::<T>(rt, rt.alloc(), codec, (digits, written), json);
    }
}

/// Octets are refused in the variant of a codec, each for the reason beside it, as it is printed.
pub(crate) fn expect_refused<T: Decode>(
    rt: &(impl Abort + AllocGlobal),
    codec: Codec,
    rows: &[(&str, &str)],
) {
    for (digits, reason) in rows {
        let octets = octets_of(rt, rt.alloc(), digits);
        match decode::<T>(rt.alloc(), codec, octets.as_slice()) {
            Ok(_) => assert!(rt; false, "{digits:?}: read"),
            Err(error) => {
                assert!(rt; error.codec == codec);
                let told = format!(in rt.alloc(); "{:?}", error.kind).expect(rt, "memory");
                expect_text(rt, told.as_str(), reason);
            }
        }
    }
}
