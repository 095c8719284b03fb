//! Values of types that are on no page of their own: strings, times, numbers, bags; and what is refused of them.

use crate::pages::expected::{
    Rows, encode, expect_json, expect_recoded, expect_refused, expect_rows,
};
use its_header::speed::Speed;
use jiff::civil::DateTime;
use per_samples_a::bounded::MinusOneTo254;
use per_samples_b::grouped::Grouped;
use per_samples_b::several::Several;
use rasn_below::types::{
    Any, BitString, BmpString, Codec, GeneralString, GeneralizedTime, GraphicString, Ia5String,
    NumericString, PrintableString, SetOf, TeletexString, Utf8String, VisibleString,
};
use std::test::Fail;

/// Octets after a length.
const ANY: Rows = &[("020105", "020105", "\"0105\"")];

const UTF8: Rows = &[("02c3a9", "02c3a9", "\"é\"")];

const GENERAL: Rows = &[("01aa", "01aa", "\"ª\"")];

const GRAPHIC: Rows = &[("01bb", "01bb", "\"»\"")];

const TELETEX: Rows = &[("01cc", "01cc", "\"Ì\"")];

const NUMBER: Rows = &[("02ff7f", "02ff7f", "-129")];

#[test]
fn writes_and_reads_octets_after_a_length(rt: HostRuntime) {
    expect_rows::<Any>(&rt, ANY);
    expect_rows::<Utf8String>(&rt, UTF8);
    expect_rows::<GeneralString>(&rt, GENERAL);
    expect_rows::<GraphicString>(&rt, GRAPHIC);
    expect_rows::<TeletexString>(&rt, TELETEX);
    expect_rows::<Speed>(&rt, NUMBER);
    expect_rows::<Box<i128>>(&rt, NUMBER);
}

const BMP: Rows = &[("", "010416", "\"Ж\""), ("0120ac", "", "\"€\"")];

#[test]
fn writes_and_reads_characters(rt: HostRuntime) {
    expect_rows::<VisibleString>(&rt, &[("", "0182", "\"A\"")]);
    expect_rows::<Ia5String>(&rt, &[("", "0114", "\"\\n\"")]);
    expect_rows::<PrintableString>(&rt, &[("", "017e", "\"?\"")]);
    expect_rows::<NumericString>(&rt, &[("", "021a", "\"09\"")]);
    expect_rows::<BmpString>(&rt, BMP);
}

#[test]
fn escapes_characters(rt: HostRuntime) -> Result<(), Fail> {
    let quoted = Ia5String::from_str(rt.alloc(), "a\"b\\c\n\u{1}")?;
    expect_json(&rt, rt.alloc(), &quoted, "\"a\\\"b\\\\c\\n\\u0001\"");
    let text = Utf8String::from_str(rt.alloc(), "é€")?;
    expect_json(&rt, rt.alloc(), &text, "\"é€\"");
    Ok(())
}

/// Bags of numbers in another order than they are written, which is that of their octets (X.690 11.6): the contents of
/// 5 begin those of 1280, octets are compared without a sign, and members may be equal, or none.
const NUMBERS: Rows = &[
    ("03010301010102", "03010101020103", "[3,1,2]"),
    ("020205000105", "020105020500", "[1280,5]"),
    ("0201ff0100", "02010001ff", "[-1,0]"),
    ("0201050105", "0201050105", "[5,5]"),
    ("00", "00", "[]"),
];

/// TRUE, FALSE and TRUE are three bits after their count.
const TRUTHS: Rows = &[("03a0", "0360", "[true,false,true]")];

/// A member is put after the others where it isn't yet known how many bits are before it: the second begins in the
/// midst of an octet, where the ALIGNED variant pads.
const ONE_BIT_EACH: Rows = &[(
    "0201800100",
    "0201000180",
    "[{\"value\":\"80\",\"length\":1},{\"value\":\"00\",\"length\":1}]",
)];

const ONE_BIT_EACH_UNALIGNED: Rows = &[(
    "02018080",
    "020100c0",
    "[{\"value\":\"80\",\"length\":1},{\"value\":\"00\",\"length\":1}]",
)];

#[test]
fn writes_members_in_ascending_order(rt: HostRuntime) {
    expect_recoded::<SetOf<i128>>(&rt, Codec::Uper, NUMBERS);
    expect_recoded::<SetOf<bool>>(&rt, Codec::Uper, TRUTHS);
    expect_recoded::<SetOf<BitString>>(&rt, Codec::Aper, ONE_BIT_EACH);
    expect_recoded::<SetOf<BitString>>(&rt, Codec::Uper, ONE_BIT_EACH_UNALIGNED);
}

/// GeneralizedTime is its canonical text (X.690 11.7) as a VisibleString without constraints (X.691 30): 2018-06-13
/// 06:01:58, and X.690 11.7.5.
const TIMES: Rows = &[
    (
        "0f32303138303631333036303135385a",
        "0f64c18b860d98b360d98316ae2d00",
        "\"20180613060158Z\"",
    ),
    (
        "1131393932303732323133323130302e335a",
        "1162e5cb260dd93262cd93160c1733b4",
        "\"19920722132100.3Z\"",
    ),
];

/// A fraction with a zero after it (X.690 11.7.5), a text without Z, midnight as the 24th hour, the text of a UTCTime;
/// a control character, which no VisibleString has, and a code after the last character.
const NO_TIMES_ALIGNED: &[(&str, &str)] = &[
    ("1131393932303632323132333432312e305a", "Below"),
    ("0e3230313830363133303630313538", "Below"),
    ("0f31393932303532303234303030305a", "Below"),
    ("0d3138303631333131303135395a", "Below"),
    ("011f", "PermittedAlphabet"),
    ("017f", "PermittedAlphabet"),
];

/// The same in the UNALIGNED variant.
const NO_TIMES_UNALIGNED: &[(&str, &str)] = &[
    ("1162e5cb260d993262c99b464c5730b4", "Below"),
    ("0e64c18b860d98b360d98316ae00", "Below"),
    ("0f62e5cb260d593064d183060c2d00", "Below"),
    ("0d62e183662cd8b160c5ab9b40", "Below"),
    ("013e", "PermittedAlphabet"),
    ("01fe", "PermittedAlphabet"),
];

#[test]
fn writes_reads_and_refuses_generalized_times(rt: HostRuntime) {
    expect_rows::<GeneralizedTime>(&rt, TIMES);
    expect_refused::<GeneralizedTime>(&rt, Codec::Aper, NO_TIMES_ALIGNED);
    expect_refused::<GeneralizedTime>(&rt, Codec::Uper, NO_TIMES_UNALIGNED);
}

#[test]
fn refuses_a_moment_before_year_0(rt: HostRuntime) {
    let moment = DateTime::new(-1, 12, 31, 0, 0, 0, 0).expect(&rt, "a moment");
    let time = GeneralizedTime::new(moment);
    for codec in [Codec::Aper, Codec::Uper] {
        let refused = encode(rt.alloc(), codec, &time).err();
        let name = refused.map(|error| error.kind.name());
        assert!(rt; name == Some("Below"));
    }
}

const FIVE: Rows = &[("06", "06", "5")];

/// -1, which is in its bounds and no `u8`.
const NO_U8: &[(&str, &str)] = &[("00", "IntegerOverflow(8)")];

/// A BOOLEAN and an octet more, and one and two more.
const BOOLEAN_AND_MORE: &[(&str, &str)] = &[
    ("0000", "UnexpectedExtraData(1)"),
    ("80aabb", "UnexpectedExtraData(2)"),
];

/// A group that holds nothing, in an open type of two octets, where one does.
const GROUP_AND_MORE: &[(&str, &str)] = &[("c040800000", "UnexpectedExtraData(1)")];

/// An index after the last alternative.
const PAST_THE_LAST: &[(&str, &str)] = &[("820100", "ChoiceIndexNotFound(2)")];

#[test]
fn names_numbers_of_what_it_refuses(rt: HostRuntime) {
    expect_rows::<MinusOneTo254>(&rt, FIVE);
    expect_refused::<MinusOneTo254>(&rt, Codec::Aper, NO_U8);
    expect_refused::<MinusOneTo254>(&rt, Codec::Uper, NO_U8);
    expect_refused::<bool>(&rt, Codec::Uper, BOOLEAN_AND_MORE);
    expect_refused::<Grouped>(&rt, Codec::Uper, GROUP_AND_MORE);
    expect_refused::<Several>(&rt, Codec::Aper, PAST_THE_LAST);
    expect_refused::<Several>(&rt, Codec::Uper, PAST_THE_LAST);
}
