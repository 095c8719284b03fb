//! Components at their defaults, which are left out (X.691 19.5), as asn1ct writes them.

use crate::pages::expected::{Rows, expect_json, expect_recoded, expect_rows, expect_written};
use per_samples_a::default_bits::DefaultBits;
use per_samples_a::default_list::DefaultList;
use per_samples_a::default_named_bits::DefaultNamedBits;
use per_samples_c::default_choice::DefaultChoice;
use per_samples_c::default_color::DefaultColor;
use per_samples_c::default_elements::DefaultElements;
use per_samples_c::default_identifier::DefaultIdentifier;
use rasn_below::types::{BitString, Codec, NamedBits};
use std::alloc::Global;
use std::process::Abort;

/// An identifier whose arcs are the default's is left out.
const IDENTIFIERS: Rows = &[
    ("40", "40", "{\"last\":true}"),
    (
        "80022b0680",
        "81158340",
        "{\"object\":\"1.3.6\",\"last\":true}",
    ),
    (
        "800388370300",
        "81c41b8180",
        "{\"object\":\"2.999.3\",\"last\":false}",
    ),
];

/// A list is left out where its elements are the default's, as many and in their order.
const ELEMENTS: Rows = &[
    ("00", "00", "{}"),
    ("98", "98", "{\"flags\":[true]}"),
    ("4000", "4000", "{\"outers\":[]}"),
    (
        "c00228",
        "c02280",
        concat!(
            "{\"flags\":[],\"outers\":[{\"first\":false,\"second\":true},",
            "{\"first\":true,\"second\":false}]}",
        ),
    ),
];

/// A list is left out where it is empty, which is its default.
const LISTS: Rows = &[
    ("40", "40", "{\"last\":true}"),
    ("d4", "d4", "{\"list\":[true,false],\"last\":true}"),
    ("a0", "a0", "{\"list\":[false],\"last\":false}"),
];

#[test]
fn leaves_identifiers_and_lists_out(rt: HostRuntime) {
    expect_rows::<DefaultIdentifier>(&rt, IDENTIFIERS);
    expect_rows::<DefaultElements>(&rt, ELEMENTS);
    expect_rows::<DefaultList>(&rt, LISTS);
}

/// A CHOICE is left out where its alternative and this one's value are the default's.
const CHOICES: Rows = &[
    ("00", "00", "{}"),
    ("50", "50", "{\"second\":{\"a\":true}}"),
    (
        "c8000180",
        "c8001800",
        "{\"first\":{\"a\":false},\"second\":{\"b\":true}}",
    ),
    ("a0000100", "a0004000", "{\"first\":{\"b\":false}}"),
];

/// An item and a record are left out where they are their components' defaults.
const COLORS: Rows = &[
    ("20", "20", "{\"last\":true}"),
    ("90", "90", "{\"color\":\"a\",\"last\":true}"),
    (
        "40",
        "40",
        "{\"outer\":{\"first\":false,\"second\":false},\"last\":false}",
    ),
];

/// No padding is before a string of no bits (X.691 11.9.3.3), where the other encoder has some.
const BITS: Rows = &[
    ("40", "40", "{\"last\":true}"),
    (
        "90c0",
        "9c",
        "{\"bits\":{\"value\":\"80\",\"length\":1},\"last\":true}",
    ),
    (
        "b050",
        "b5",
        "{\"bits\":{\"value\":\"40\",\"length\":3},\"last\":true}",
    ),
    (
        "f0ab",
        "fab0",
        "{\"bits\":{\"value\":\"AA\",\"length\":7},\"last\":true}",
    ),
    (
        "88",
        "88",
        "{\"bits\":{\"value\":\"\",\"length\":0},\"last\":true}",
    ),
];

/// Named bits are left out where they are the default's but for zero bits at their end (X.680 22.7).
const NAMED_BITS: Rows = &[
    ("00", "00", "{}"),
    (
        "c0000000",
        "c00000",
        "{\"any\":{\"value\":\"\",\"length\":0},\"bounded\":{\"value\":\"00\",\"length\":4}}",
    ),
    (
        "800240",
        "8090",
        "{\"any\":{\"value\":\"40\",\"length\":2}}",
    ),
    (
        "c0024888",
        "c09310",
        "{\"any\":{\"value\":\"40\",\"length\":2},\"bounded\":{\"value\":\"88\",\"length\":5}}",
    ),
];

#[test]
fn leaves_choices_items_records_and_bits_out(rt: HostRuntime) {
    expect_rows::<DefaultChoice>(&rt, CHOICES);
    expect_rows::<DefaultColor>(&rt, COLORS);
    expect_rows::<DefaultBits>(&rt, BITS);
    expect_rows::<DefaultNamedBits>(&rt, NAMED_BITS);
}

fn named(rt: &impl Abort, alloc: Global, bits: &[bool]) -> NamedBits {
    NamedBits::new(BitString::from_slice(alloc, bits).expect(rt, "memory"))
}

/// The defaults, one with a zero bit more, one without the zero bits that its size wants.
#[test]
fn leaves_named_bits_of_another_length_out(rt: HostRuntime) {
    let lights = DefaultNamedBits {
        any: named(&rt, rt.alloc(), &[false, false, true, false]),
        bounded: named(&rt, rt.alloc(), &[true]),
    };
    expect_written(&rt, rt.alloc(), Codec::Aper, &lights, "00");
    expect_written(&rt, rt.alloc(), Codec::Uper, &lights, "00");
    expect_json(&rt, rt.alloc(), &lights, "{}");
}

/// Bits that have names are written without the zero bits at their end, as another compiler writes them (X.691 16.2).
#[test]
fn leaves_zero_bits_out(rt: HostRuntime) {
    let rows: Rows = &[("0440", "0240", "{\"value\":\"40\",\"length\":2}")];
    expect_recoded::<NamedBits>(&rt, Codec::Uper, rows);
}
