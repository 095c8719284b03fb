//! Pages of SETs, of types that hold themselves, of records with times, and of messages, as other encoders wrote them.

use crate::pages::expected::{Rows, decode, expect_rows, expect_written};
use its_header::header::ItsPduHeader;
use its_header::message::Message;
use per_samples_c::filter::Filter;
use per_samples_c::group1::Group1;
use per_samples_c::grouped1::Grouped1;
use per_samples_c::ping::Ping;
use per_samples_c::tree::Tree;
use per_samples_sets::extended_set::ExtendedSet;
use per_samples_sets::holder::Holder;
use per_samples_sets::period::Period;
use per_samples_sets::set_each::SetEach;
use rasn_below::types::Codec;
use std::test::Fail;

/// The root is in the order of its tags, and after it the additions as they are listed (X.691 19.7, 21).
const EXTENDED: Rows = &[
    (
        "c0aa0380018001a0",
        "ea80e030003400",
        "{\"a\":true,\"b\":170,\"d\":true,\"c\":5}",
    ),
    (
        "c0aa03000180",
        "ea80c03000",
        "{\"a\":true,\"b\":170,\"d\":true}",
    ),
];

/// A SET among the components of a SEQUENCE.
const HOLDERS: Rows = &[
    (
        "c0aa80",
        "eaa0",
        "{\"set\":{\"a\":true,\"b\":170},\"last\":true}",
    ),
    ("40", "40", "{\"last\":true}"),
];

#[test]
fn writes_and_reads_sets(rt: HostRuntime) {
    expect_rows::<ExtendedSet>(&rt, EXTENDED);
    expect_rows::<Holder>(&rt, HOLDERS);
}

/// Components of a SET, each read by its index: p and q, and r.
const EACH: &[(SetEach, &[u8])] = &[
    (
        SetEach {
            p: Some(true),
            q: Some(false),
            r: None,
        },
        &[0xa8],
    ),
    (
        SetEach {
            p: None,
            q: None,
            r: Some(true),
        },
        &[0x50],
    ),
];

#[test]
fn components_are_read_by_their_indices(rt: HostRuntime) {
    for (set, octets) in EACH {
        for codec in [Codec::Aper, Codec::Uper] {
            let read = decode::<SetEach>(rt.alloc(), codec, octets);
            assert!(rt; read.ok() == Some(*set), "{octets:?}");
        }
    }
}

/// Trees, whose octets are the same in both variants: a leaf, one child, children at several depths, and twenty levels.
const TREES: Rows = &[
    ("0100", "0100", "{\"value\":1,\"children\":[]}"),
    (
        "05010600",
        "05010600",
        "{\"value\":5,\"children\":[{\"value\":6,\"children\":[]}]}",
    ),
    (
        "ff0200020100020103008000",
        "ff0200020100020103008000",
        concat!(
            "{\"value\":255,\"children\":[{\"value\":0,\"children\":[{\"value\":1,\"children\":[]},",
            "{\"value\":2,\"children\":[{\"value\":3,\"children\":[]}]}]},{\"value\":128,\"children\":[]}]}",
        ),
    ),
    (
        "140113011201110110010f010e010d010c010b010a010901080107010601050104010301020101010000",
        "140113011201110110010f010e010d010c010b010a010901080107010601050104010301020101010000",
        concat!(
            "{\"value\":20,\"children\":[{\"value\":19,\"children\":[{\"value\":18,\"children\":[",
            "{\"value\":17,\"children\":[{\"value\":16,\"children\":[{\"value\":15,\"children\":[",
            "{\"value\":14,\"children\":[{\"value\":13,\"children\":[{\"value\":12,\"children\":[",
            "{\"value\":11,\"children\":[{\"value\":10,\"children\":[{\"value\":9,\"children\":[",
            "{\"value\":8,\"children\":[{\"value\":7,\"children\":[{\"value\":6,\"children\":[",
            "{\"value\":5,\"children\":[{\"value\":4,\"children\":[{\"value\":3,\"children\":[",
            "{\"value\":2,\"children\":[{\"value\":1,\"children\":[{\"value\":0,\"children\":[",
            "]}]}]}]}]}]}]}]}]}]}]}]}]}]}]}]}]}]}]}]}]}",
        ),
    ),
];

#[test]
fn trees_are_written_as_they_were_read(rt: HostRuntime) {
    expect_rows::<Tree>(&rt, TREES);
}

/// Filters: octets, a list of two, an empty list, and three negations. In the ALIGNED variant a count starts an octet.
const FILTERS: Rows = &[
    ("c00161", "c05840", "{\"present\":\"61\"}"),
    (
        "0002c001619000",
        "00b0161900",
        "{\"and\":[{\"present\":\"61\"},{\"not\":{\"or\":[]}}]}",
    ),
    ("4000", "4000", "{\"or\":[]}"),
    (
        "ab00",
        "ab00",
        "{\"not\":{\"not\":{\"not\":{\"present\":\"\"}}}}",
    ),
];

/// Types that hold one another have a presence bit for each level.
const PINGS: Rows = &[
    ("00", "00", "{}"),
    ("80", "80", "{\"pong\":{}}"),
    ("e0", "e0", "{\"pong\":{\"ping\":{\"pong\":{}}}}"),
];

#[test]
fn filters_and_pings_are_written_as_they_were_read(rt: HostRuntime) {
    expect_rows::<Filter>(&rt, FILTERS);
    expect_rows::<Ping>(&rt, PINGS);
}

/// From 2018-06-13 11:01:59 to 06:01:58.
const PERIODS: Rows = &[(
    "800d3138303631333131303135395a0f32303138303631333036303135385a",
    "",
    "{\"since\":\"180613110159Z\",\"until\":\"20180613060158Z\"}",
)];

/// The header of an intelligent transport message, and a record of 194 bits that holds it.
const HEADERS: Rows = &[(
    "",
    "020212345678",
    "{\"protocolVersion\":2,\"messageID\":2,\"stationID\":305419896}",
)];

const MESSAGES: Rows = &[(
    "",
    "020212345678a51ad880e14e390070890baf340dc0f7ab6f80",
    concat!(
        "{\"header\":{\"protocolVersion\":2,\"messageID\":2,\"stationID\":305419896},",
        "\"position\":{\"latitude\":485000000,\"longitude\":90000000,\"heading\":900},",
        "\"name\":\"Bus 7\",\"payload\":\"DEADBE\"}",
    ),
)];

#[test]
fn messages_are_written_as_they_were_read(rt: HostRuntime) {
    expect_rows::<Period>(&rt, PERIODS);
    expect_rows::<ItsPduHeader>(&rt, HEADERS);
    expect_rows::<Message>(&rt, MESSAGES);
}

/// A newer version's group, of which this one knows the part that is absent; so it is a group that holds nothing, and
/// isn't written.
#[test]
fn reads_a_group_of_a_newer_version(rt: HostRuntime) -> Result<(), Fail> {
    let octets = &[0xc0, 0x41, 0x20, 0x10, 0x18, 0x00, 0x00];
    let grouped: Grouped1 = decode(rt.alloc(), Codec::Uper, octets)?;
    assert!(rt; grouped.first && grouped.group == Some(Group1 { x: None }));
    expect_written(&rt, rt.alloc(), Codec::Uper, &grouped, "40");
    Ok(())
}
