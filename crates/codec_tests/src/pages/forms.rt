//! A value or more of each form of page that neither the program nor another test takes, as asn1ct writes them.

use crate::pages::expected::{Rows, expect_recoded, expect_rows};
use per_samples_a::alternative::Alternative;
use per_samples_a::brackets::Brackets;
use per_samples_a::eight::Eight;
use per_samples_a::eighteen::Eighteen;
use per_samples_a::nested::Nested;
use per_samples_a::pair::Pair;
use per_samples_a::six::Six;
use per_samples_a::some_absent::SomeAbsent;
use per_samples_b::alt::Alt;
use per_samples_b::beside::BesideSeveral;
use per_samples_b::classed::Classed;
use per_samples_b::many_extended::ManyExtended;
use per_samples_b::several::Several;
use per_samples_c::levels::Level;
use per_samples_sets::membership::Membership;
use per_samples_sets::texts::SomeTexts;
use per_samples_sets::truth_or_none::TruthOrNone;
use rasn_below::types::Codec;

/// The length of an INTEGER is padded before in the ALIGNED variant (X.691 11.9.3.5).
const PAIR: Rows = &[("800105", "808280", "{\"a\":true,\"b\":5}")];

/// Presence bits aren't padded (X.691 19.2).
const SOME_ABSENT: Rows = &[
    ("b4", "b4", "{\"a\":true,\"b\":5}"),
    ("70", "70", "{\"a\":true,\"c\":4}"),
];

/// Eight components that are always there.
const EIGHT: Rows = &[(
    "8001010001ff8003011170",
    "8080807fe060222e00",
    "{\"a\":true,\"b\":1,\"c\":null,\"d\":false,\"e\":-1,\"f\":true,\"g\":null,\"h\":70000}",
)];

/// Two presence bits are before sixteen flags (X.691 19.2).
const EIGHTEEN: Rows = &[
    (
        "a49268",
        "a49268",
        concat!(
            "{\"a\":true,\"b\":false,\"c\":false,\"d\":true,\"e\":false,\"f\":false,\"g\":true,\"h\":false,",
            "\"i\":false,\"j\":true,\"k\":false,\"l\":false,\"m\":true,\"n\":false,\"o\":false,\"p\":true,\"q\":5}",
        ),
    ),
    (
        "649260",
        "649260",
        concat!(
            "{\"a\":true,\"b\":false,\"c\":false,\"d\":true,\"e\":false,\"f\":false,\"g\":true,\"h\":false,",
            "\"i\":false,\"j\":true,\"k\":false,\"l\":false,\"m\":true,\"n\":false,\"o\":false,\"p\":true,\"r\":4}",
        ),
    ),
];

/// Optional lists and records beside one another, and every other of twelve optional components.
const SIX: Rows = &[
    (
        "ed8a01540036",
        "ed8a01540036",
        "{\"a\":[true],\"b\":[],\"c\":{\"b\":5,\"d\":-3},\"e\":{},\"f\":[false,true,true],\"g\":false}",
    ),
    (
        "18aaf808c8a00203e870",
        "18aaf80e450101f438",
        concat!(
            "{\"d\":[],\"e\":{\"a\":true,\"c\":null,\"e\":\"01\",\"g\":200,\"i\":\"A0\",\"j\":1000,\"k\":false,",
            "\"l\":3},\"g\":true}",
        ),
    ),
];

#[test]
fn writes_and_reads_components(rt: HostRuntime) {
    expect_rows::<Pair>(&rt, PAIR);
    expect_rows::<SomeAbsent>(&rt, SOME_ABSENT);
    expect_rows::<Eight>(&rt, EIGHT);
    expect_rows::<Eighteen>(&rt, EIGHTEEN);
    expect_rows::<Six>(&rt, SIX);
}

/// Some of sixteen components after an extension bit, which is zero where there is no addition (X.691 19.1); one of
/// each constructed type, and the addition after its own open type (X.691 19.9); and the last of them, one of which is
/// a record without its additions.
const MANY_EXTENDED: Rows = &[
    ("000000", "000000", "{}"),
    (
        "5485683c00018002ff3800",
        "5485683c000c0017f9c0",
        "{\"a\":true,\"c\":5,\"e\":\"07\",\"h\":{\"b\":true},\"m\":-200,\"o\":false}",
    ),
    (
        "aa502a02048001020380010203aa010480010203",
        "aa502a020901020301010203aa010480810180",
        concat!(
            "{\"b\":{\"first\":true,\"second\":false},",
            "\"d\":{\"first\":false,\"second\":true,\"flag\":true,\"octets\":\"010203\"},",
            "\"f\":{\"flag\":true,\"octets\":\"010203\"},\"i\":170,\"k\":null,",
            "\"more\":{\"flag\":true,\"octets\":\"010203\"}}",
        ),
    ),
    (
        "800000800400040506",
        "800000820101418000",
        "{\"more\":{\"flag\":false,\"octets\":\"040506\"}}",
    ),
    (
        "002ab301020320",
        "002ab301020320",
        concat!(
            "{\"j\":{\"first\":true,\"second\":true},\"l\":{\"first\":false,\"second\":true},",
            "\"n\":{\"flag\":true,\"octets\":\"010203\"},\"p\":{\"first\":false,\"second\":true}}",
        ),
    ),
];

#[test]
fn writes_and_reads_some_of_sixteen_components(rt: HostRuntime) {
    expect_rows::<ManyExtended>(&rt, MANY_EXTENDED);
}

/// A size beside permitted characters, a single value, and bounds on one side (X.691 13.2, 17, 30.5).
const BRACKETS: Rows = &[
    (
        "80042007080901090100",
        "8440e1012021202000",
        "{\"code\":\"AEC\",\"three\":\"070809\",\"five\":5,\"most\":9,\"least\":-1}",
    ),
    (
        "c0103400ff0102ff7f020101",
        "c87003fc040bfdfc080404",
        "{\"code\":\"BADE\",\"three\":\"00FF01\",\"five\":5,\"most\":-129,\"least\":256}",
    ),
];

/// Texts that are kept as octets, and a value whose type isn't known.
const TEXTS: Rows = &[(
    "800261620163026465020102",
    "8130b100b181323281008100",
    "{\"title\":\"ab\",\"figure\":\"c\",\"note\":\"de\",\"rest\":\"0102\"}",
)];

#[test]
fn writes_and_reads_each_form_of_constraint_and_text(rt: HostRuntime) {
    expect_rows::<Brackets>(&rt, BRACKETS);
    expect_rows::<SomeTexts>(&rt, TEXTS);
}

/// An OBJECT IDENTIFIER, and a bag in the order in which it is written (X.690 11.6).
const MEMBERSHIP: Rows = &[(
    "032a864880010301ff02012c",
    "032a86488040c07fc0804b00",
    "{\"group\":\"1.2.840\",\"members\":[3,-1,300]}",
)];

/// Its members in another order.
const MEMBERS_TURNED: Rows = &[(
    "032a86488002012c010301ff",
    "032a864880010301ff02012c",
    "{\"group\":\"1.2.840\",\"members\":[300,3,-1]}",
)];

#[test]
fn writes_and_reads_an_identifier_and_a_bag(rt: HostRuntime) {
    expect_rows::<Membership>(&rt, MEMBERSHIP);
    expect_recoded::<Membership>(&rt, Codec::Aper, MEMBERS_TURNED);
}

/// The index of few alternatives is in bits, and the alternative is padded from where it stands (X.691 23.6).
const ALTERNATIVE: Rows = &[("d0", "d0", "{\"y\":5}")];

const NESTED: Rows = &[
    ("50", "50", "{\"inner\":{\"x\":true}}"),
    ("80", "80", "{\"last\":null}"),
];

/// Alternatives of the root after an extension bit 0 and an index, the others after a bit 1 and an index as open
/// types (X.691 23.4, 23.8).
const SEVERAL: Rows = &[
    ("20", "20", "{\"a\":true}"),
    ("40", "40", "{\"none\":null}"),
    ("8001a0", "8001a0", "{\"small\":5}"),
    ("810100", "810100", "{\"done\":null}"),
];

/// A CHOICE without a tag of its own is where its alternatives' tags do (X.691 21.1).
const BESIDE: Rows = &[
    ("34", "34", "{\"choice\":{\"a\":true},\"lane\":5}"),
    ("50", "50", "{\"choice\":{\"none\":null},\"lane\":2}"),
    (
        "8001c0e0",
        "8001c0e0",
        "{\"choice\":{\"small\":6},\"lane\":7}",
    ),
    (
        "81010020",
        "81010020",
        "{\"choice\":{\"done\":null},\"lane\":1}",
    ),
];

#[test]
fn writes_and_reads_alternatives(rt: HostRuntime) {
    expect_rows::<Alternative>(&rt, ALTERNATIVE);
    expect_rows::<Nested>(&rt, NESTED);
    expect_rows::<Several>(&rt, SEVERAL);
    expect_rows::<BesideSeveral>(&rt, BESIDE);
}

/// Alternatives under tags that are written.
const TRUTH_OR_NONE: Rows = &[("40", "40", "{\"m\":true}"), ("80", "80", "{\"n\":null}")];

/// Alternatives that are a record, before the marker and after it.
const ALT: Rows = &[
    ("20", "20", "{\"plain\":true}"),
    (
        "40010203",
        "40204060",
        "{\"inner\":{\"flag\":false,\"octets\":\"010203\"}}",
    ),
    (
        "800480010203",
        "800480810180",
        "{\"added\":{\"flag\":true,\"octets\":\"010203\"}}",
    ),
];

/// Alternatives are counted in the order of their tags, those of the class APPLICATION behind universal ones and before
/// context-specific ones (X.680 8.6, X.691 23.5). asn1c wrote these octets.
const CLASSED: Rows = &[
    ("20", "20", "{\"flag\":true}"),
    ("68", "68", "{\"number\":5}"),
    ("80", "80", "{\"spare\":null}"),
    ("c04080", "c04080", "{\"last\":\"0102\"}"),
];

/// The first, another and the last of 64 items.
const LEVELS: Rows = &[
    ("00", "00", "\"l0\""),
    ("c0", "c0", "\"l48\""),
    ("fc", "fc", "\"l63\""),
];

#[test]
fn writes_and_reads_alternatives_under_tags_and_items(rt: HostRuntime) {
    expect_rows::<TruthOrNone>(&rt, TRUTH_OR_NONE);
    expect_rows::<Alt>(&rt, ALT);
    expect_rows::<Classed>(&rt, CLASSED);
    expect_rows::<Level>(&rt, LEVELS);
}
