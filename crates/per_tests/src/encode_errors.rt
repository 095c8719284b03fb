//! The names and the texts of an encoder's errors and options.

use per_enc::{EncodeError, EncodeErrorKind, EncoderOptions};
use rasn_below::types::Codec;
use rasn_constraints::bounds::OutOfBounds;
use rasn_constraints::sizes::OutOfSize;
use std::alloc::Global;
use std::process::Abort;
use std::test::Fail;

/// The kinds of an error that tell no numbers, each with its name and what the error says in the UNALIGNED variant.
const ROWS: &[(EncodeErrorKind, &str)] = &[
    (
        EncodeErrorKind::AlphabetConstraintNotSatisfied,
        "AlphabetConstraintNotSatisfied: a character is not in the permitted alphabet (Uper)",
    ),
    (
        EncodeErrorKind::IntegerTypeConversionFailed,
        "IntegerTypeConversionFailed: a number in its bounds is past 128 bits (Uper)",
    ),
    (
        EncodeErrorKind::VariantNotInChoice,
        "VariantNotInChoice: the choice has no alternative of the tag (Uper)",
    ),
    (
        EncodeErrorKind::RealNotSupported,
        "RealNotSupported: REAL is not supported (Uper)",
    ),
    (
        EncodeErrorKind::TooManyAdditions,
        "TooManyAdditions: more additions than the schema has (Uper)",
    ),
    (
        EncodeErrorKind::Below,
        "Below: the identifier or time has no encoding (Uper)",
    ),
    (
        EncodeErrorKind::AlreadyFailed,
        "AlreadyFailed: the encoder had failed before (Uper)",
    ),
    (
        EncodeErrorKind::OutOfMemory,
        "OutOfMemory: out of memory (Uper)",
    ),
    (
        EncodeErrorKind::OutOfTurn,
        "OutOfTurn: a part was presented out of turn (Uper)",
    ),
    (
        EncodeErrorKind::WrongKind,
        "WrongKind: a value is of another kind than its type (Uper)",
    ),
];

/// An error in the UNALIGNED variant.
fn error_of(kind: EncodeErrorKind) -> EncodeError {
    EncodeError {
        kind,
        codec: Codec::Uper,
    }
}

/// The kinds that tell numbers, likewise.
fn numbered() -> [(EncodeErrorKind, &'static str); 3] {
    [
        (
            EncodeErrorKind::SizeConstraintNotSatisfied(OutOfSize {
                size: 4,
                lower: Some(1),
                upper: Some(3),
            }),
            "SizeConstraintNotSatisfied: the size 4 is not in 1..3 (Uper)",
        ),
        (
            EncodeErrorKind::ValueConstraintNotSatisfied(OutOfBounds::new(
                Some(-16),
                None,
                Some(10),
            )),
            "ValueConstraintNotSatisfied: -16 is not in MIN..10 (Uper)",
        ),
        (
            EncodeErrorKind::ValueConstraintNotSatisfied(OutOfBounds::new(None, Some(1), None)),
            "ValueConstraintNotSatisfied: a number past 128 bits is not in 1..MAX (Uper)",
        ),
    ]
}

/// Each kind has this text behind its name.
fn expect_told(
    rt: &impl Abort,
    alloc: Global,
    rows: &[(EncodeErrorKind, &str)],
) -> Result<(), Fail> {
    for (kind, text) in rows {
        let (name, error) = (kind.name(), error_of(*kind));
        let shown = format!(in alloc; "{name}: {error}")?;
        assert_eq!(rt; shown.as_str(), *text);
    }
    Ok(())
}

#[test]
fn tells_its_errors(rt: HostRuntime) -> Result<(), Fail> {
    expect_told(&rt, rt.alloc(), ROWS)?;
    expect_told(&rt, rt.alloc(), &numbered())
}

#[test]
fn shows_its_errors_and_options(rt: HostRuntime) -> Result<(), Fail> {
    let error = error_of(EncodeErrorKind::OutOfMemory);
    let options = EncoderOptions::unaligned();
    let shown = format!(in rt.alloc(); "{error:?}, {options:?}")?;
    assert_eq!(rt;
        shown.as_str(),
        "EncodeError { kind: OutOfMemory, codec: Uper }, EncoderOptions { codec: Uper }"
    );
    let kind = EncodeErrorKind::ValueConstraintNotSatisfied(OutOfBounds::new(None, Some(-1), None));
    let shown = format!(in rt.alloc(); "{kind:?}")?;
    assert_eq!(rt;
        shown.as_str(),
        "ValueConstraintNotSatisfied(OutOfBounds { value: None, lower: Some(-1), upper: None })"
    );
    Ok(())
}
