//! The names and the texts of a decoder's errors and options.

use per_de::DecoderOptions;
use per_read::error::{DecodeError, DecodeErrorKind, ParserFailCause};
use rasn_below::types::{Codec, Tag};
use rasn_constraints::bounds::OutOfBounds;
use rasn_constraints::count::Count;
use rasn_constraints::sizes::OutOfSize;
use std::alloc::Global;
use std::process::Abort;
use std::test::Fail;

/// Refusals of octets that end early or late, or aren't as they have to be, and their texts.
fn of_octets() -> [(DecodeErrorKind, &'static str); 8] {
    [
        (
            DecodeErrorKind::Incomplete(Count::new(8)),
            "the input ends 8 bits early (Uper)",
        ),
        (
            DecodeErrorKind::ParserFail(ParserFailCause::NonzeroEmptyValue),
            "the octet of an empty value is not zero (Uper)",
        ),
        (
            DecodeErrorKind::ParserFail(ParserFailCause::FragmentCode),
            "a fragment has a code other than 1 to 4 (Uper)",
        ),
        (
            DecodeErrorKind::ParserFail(ParserFailCause::EmptyBitmap),
            "the bitmap of additions is empty (Uper)",
        ),
        (
            DecodeErrorKind::ParserFail(ParserFailCause::NonzeroPadding),
            "padding is not zero (Uper)",
        ),
        (
            DecodeErrorKind::UnexpectedExtraData(Count::new(2)),
            "2 octets are left over (Uper)",
        ),
        (
            DecodeErrorKind::MissingTag,
            "a part was read out of turn (Uper)",
        ),
        (
            DecodeErrorKind::TypeNotExtensible,
            "the type has no extension additions (Uper)",
        ),
    ]
}

/// Refusals of numbers, sizes and indices, and their texts.
fn of_numbers() -> [(DecodeErrorKind, &'static str); 7] {
    [
        (
            DecodeErrorKind::ExceedsMaxLength,
            "there are more items than can be counted (Uper)",
        ),
        (
            DecodeErrorKind::IntegerOverflow(64),
            "the number does not fit 64 bits (Uper)",
        ),
        (
            DecodeErrorKind::SizeConstraintNotSatisfied(OutOfSize {
                size: 301,
                lower: Some(1),
                upper: Some(300),
            }),
            "the size 301 is not between Some(1) and Some(300) (Uper)",
        ),
        (
            DecodeErrorKind::ValueConstraintNotSatisfied(OutOfBounds::new(None, None, Some(-1))),
            "the number None is not between None and Some(-1) (Uper)",
        ),
        (
            DecodeErrorKind::EnumerationIndexNotFound(3, true),
            "there is no item 3 (added: true) (Uper)",
        ),
        (
            DecodeErrorKind::ChoiceIndexNotFound(0),
            "there is no alternative 0 (Uper)",
        ),
        (
            DecodeErrorKind::ChoiceIndexExceedsPlatformWidth,
            "the index of an alternative is past 64 bits (Uper)",
        ),
    ]
}

/// Refusals of other values, and their texts.
fn of_values() -> [(DecodeErrorKind, &'static str); 10] {
    [
        (
            DecodeErrorKind::RequiredExtensionNotPresent(Tag::BOOL),
            "the required addition Tag { class: Universal, value: 1 } is absent (Uper)",
        ),
        (
            DecodeErrorKind::ExceedsMaxParseDepth,
            "the value is too deep (Uper)",
        ),
        (
            DecodeErrorKind::PermittedAlphabet,
            "a character is not in the permitted alphabet (Uper)",
        ),
        (
            DecodeErrorKind::StringConversionFailed,
            "the octets are not UTF-8 (Uper)",
        ),
        (DecodeErrorKind::InvalidDate, "there is no such day (Uper)"),
        (
            DecodeErrorKind::RealNotSupported,
            "REAL is not supported (Uper)",
        ),
        (
            DecodeErrorKind::Below,
            "an object identifier or a time is malformed (Uper)",
        ),
        (
            DecodeErrorKind::UnexpectedEmptyInput,
            "a number has no octets (Uper)",
        ),
        (
            DecodeErrorKind::AlreadyFailed,
            "the decoder has failed before (Uper)",
        ),
        (DecodeErrorKind::OutOfMemory, "out of memory (Uper)"),
    ]
}

/// An error in the UNALIGNED variant.
fn error_of(kind: DecodeErrorKind) -> DecodeError {
    DecodeError {
        kind,
        codec: Codec::Uper,
    }
}

/// Each refusal is shown by the text beside it.
fn expect_told(
    rt: &impl Abort,
    alloc: Global,
    rows: &[(DecodeErrorKind, &str)],
) -> Result<(), Fail> {
    for (kind, text) in rows {
        let error = error_of(*kind);
        let shown = format!(in alloc; "{error}")?;
        assert_eq!(rt; shown.as_str(), *text);
    }
    Ok(())
}

#[test]
fn tells_its_errors(rt: HostRuntime) -> Result<(), Fail> {
    expect_told(&rt, rt.alloc(), &of_octets())?;
    expect_told(&rt, rt.alloc(), &of_numbers())?;
    expect_told(&rt, rt.alloc(), &of_values())
}

#[test]
fn shows_its_errors_and_options(rt: HostRuntime) -> Result<(), Fail> {
    let error = error_of(DecodeErrorKind::Incomplete(Count::new(8)));
    let (name, options) = (error.kind.name(), DecoderOptions::unaligned());
    let shown = format!(in rt.alloc(); "{name}: {error:?}, {options:?}")?;
    assert_eq!(rt;
        shown.as_str(),
        "Incomplete: DecodeError { kind: Incomplete(8), codec: Uper }, \
         DecoderOptions { codec: Uper, levels: 128, zero_padding: false }"
    );
    Ok(())
}
