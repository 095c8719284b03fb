//! Where values are refused, and octets of types that `per_show` doesn't take; `rows/shown/places.tsv` has the others.

use crate::expected::expect_text;
use its_header::header::ItsPduHeader;
use per_located::{aper, uper};
use per_samples_a::carrier::Carrier;
use per_samples_b::beside::BesideSeveral;
use per_samples_b::several::Several;
use std::alloc::Global;
use std::fmt::Display;
use std::process::Abort;

/// A refusal has this text.
fn expect_told<R: Display + Drop>(rt: &impl Abort, alloc: Global, refusal: Option<R>, text: &str) {
    let refusal = refusal.expect(rt, "a refusal");
    let told = format!(in alloc; "{refusal}").expect(rt, "memory");
    expect_text(rt, told.as_str(), text);
}

/// Octets in the ALIGNED variant whose payload, the octets from the sixth on, isn't whole, and the texts of their
/// refusals. Its value begins at bit 48, with a BOOLEAN of one bit; what follows it begins after its last octet.
const CARRIERS: &[(&str, &str)] = &[
    (
        "010380010502800180800105",
        "Incomplete at payload.b, bit 49 of 96",
    ),
    (
        "0103800105048001050080800105",
        "UnexpectedExtraData at payload, bit 72 of 112",
    ),
    ("010380010503", "Incomplete at payload, bit 40 of 48"),
    ("010380010503800105", "Incomplete at short, bit 72 of 72"),
];

#[test]
fn what_octets_contain_stands_in_them(rt: HostRuntime) {
    for (digits, text) in CARRIERS {
        let octets = hex::decode(rt.alloc(), digits.as_bytes()).expect(&rt, "hexadecimal");
        let refusal = aper::decode::<Carrier>(rt.alloc(), octets.as_slice()).err();
        expect_told(&rt, rt.alloc(), refusal, text);
    }
}

#[test]
fn a_component_is_named_by_its_identifier(rt: HostRuntime) {
    let (octets, text) = (&[0x02, 0x02, 0x12], "Incomplete at stationID, bit 16 of 24");
    let aligned = aper::decode::<ItsPduHeader>(rt.alloc(), octets).err();
    expect_told(&rt, rt.alloc(), aligned, text);
    let unaligned = uper::decode::<ItsPduHeader>(rt.alloc(), octets).err();
    expect_told(&rt, rt.alloc(), unaligned, text);
}

/// Alternatives beside a `lane` of 8, and the texts of the refusals.
const BESIDE: &[(Several, &str)] = &[
    (Several::Nothing, "8 is not in 0..7 at lane"),
    (Several::Small(9), "9 is not in 0..7 at choice.small"),
];

#[test]
fn a_refused_value_stands_at_its_component(rt: HostRuntime) {
    for (choice, text) in BESIDE {
        let (choice, lane) = (*choice, 8);
        let refusal = uper::encode(rt.alloc(), &BesideSeveral { choice, lane }).err();
        expect_told(&rt, rt.alloc(), refusal, text);
    }
}
