//! What components contain, as another encoder wrote it.

use crate::expected::expect_octets;
use crate::pages::expected::{Rows, expect_refused, expect_rows};
use per_samples_a::carrier::Carrier;
use per_samples_a::pair::Pair;
use rasn_below::types::{Codec, OctetString};
use rasn_constraints::count::Count;
use rasn_per::contents::{EncodingOf, unwrap, wrap};
use rasn_per::uper::{DecodeError, DecodeErrorKind};
use std::alloc::Global;
use std::process::Abort;

const PAIR: Pair = Pair { a: true, b: 5 };

/// Each component of a message contains the pair. One under a size has as many octets as that allows; one without has a
/// length in front of them (X.691 17).
const CARRIERS: Rows = &[
    (
        "01038001050380010580800105",
        "",
        "{\"id\":1,\"value\":{\"a\":true,\"b\":5},\"payload\":{\"a\":true,\"b\":5},\"short\":\"800105\"}",
    ),
    (
        "",
        "010380828003808280a020a000",
        "{\"id\":1,\"value\":{\"a\":true,\"b\":5},\"payload\":{\"a\":true,\"b\":5},\"short\":\"808280\"}",
    ),
];

/// A payload (the octets from the sixth on) that is no encoding of a pair: it ends within the pair's second component,
/// an octet is left over after it, or it has no octet.
const REFUSED: &[(&str, &str)] = &[
    ("010380010502800180800105", "Incomplete(8)"),
    ("0103800105048001050080800105", "UnexpectedExtraData(1)"),
    ("01038001050080800105", "Incomplete(1)"),
];

#[test]
fn reads_and_refuses_what_components_contain(rt: HostRuntime) {
    expect_rows::<Carrier>(&rt, CARRIERS);
    expect_refused::<Carrier>(&rt, Codec::Aper, REFUSED);
}

/// The pair within octets, in the variant of a codec, is these, and is read from them.
fn expect_wrapped(rt: &impl Abort, alloc: Global, codec: Codec, octets: &[u8]) {
    match wrap(alloc, codec, &PAIR) {
        Ok(component) => {
            let component: EncodingOf<Pair, OctetString> = component;
            expect_octets(rt, component.as_bytes(), octets);
            assert!(rt; unwrap(alloc, codec, &component).ok() == Some(PAIR));
        }
        Err(error) => assert!(rt; false, "{error:?}"),
    }
}

#[test]
fn writes_and_reads_what_octets_are_meant_to_contain(rt: HostRuntime) {
    expect_wrapped(&rt, rt.alloc(), Codec::Aper, &[0x80, 0x01, 0x05]);
    expect_wrapped(&rt, rt.alloc(), Codec::Uper, &[0x80, 0x82, 0x80]);
}

/// Octets under a size are read whatever they contain; what isn't an encoding is refused where it is looked into.
#[test]
fn refuses_to_look_into_octets_that_are_no_encoding(rt: HostRuntime) {
    let empty: EncodingOf<Pair, OctetString> = EncodingOf::new(Vec::new(rt.alloc()));
    let refused = unwrap(rt.alloc(), Codec::Uper, &empty).err();
    let missing = DecodeError {
        kind: DecodeErrorKind::Incomplete(Count::new(1)),
        codec: Codec::Uper,
    };
    assert!(rt; refused == Some(missing));
}
