//! Why a value was not encoded.

ghost use Rattle.std.specs.Prelude.{◌≡◌};
ghost use Rattle.std.specs.IoError.{error_kind};
ghost use Rattle.std.specs.declared.io.ErrorKind.TheVariants.{Other};
ghost use Rattle.per_core.specs.WritingNames.{name_of};

use rasn_constraints::bounds::OutOfBounds;
use rasn_constraints::sizes::OutOfSize;
use rasn_types::types::Codec;
use std::{fmt, io};
use thiserror::Error;

/// Why a value was not encoded, and under which variant. It holds numbers and no text, so making one takes no memory.
#[derive(Clone, Copy, Debug, PartialEq, Error)]
#[error("{kind} ({codec:?})")]
pub struct EncodeError {
    /// What was wrong.
    pub kind: EncodeErrorKind,
    /// The variant in use.
    pub codec: Codec,
}

/// What an `io::Result` says of a refusal: its kind's name.
impl From<EncodeError> for io::Error {
    ghost from_gives = { λ _ e. error_kind e ≡ Other };

    fn from(error: EncodeError) -> io::Error {
        io::Error::other(error.kind.name())
    }
}

/// What was wrong with a value, or with the encoder.
#[derive(Clone, Copy, Debug, PartialEq, Error)]
pub enum EncodeErrorKind {
    /// The size of a string or a list is outside bounds that aren't extensible (X.691 16 to 20, 30): the size, and the
    /// bounds.
    #[error("the size {size} is not in {lower}..{upper}", size = .0.size,
    // The bounds.
    lower = Known(.0.lower, "MIN"), upper = Known(.0.upper, "MAX"))]
    SizeConstraintNotSatisfied(OutOfSize),
    /// A number is outside bounds that aren't extensible (X.691 13): the number, absent where it passes an `i128`, and
    /// the bounds.
    #[error("{number} is not in {lower}..{upper}", number = Known(.0.value(), "a number past 128 bits"),
    // The bounds.
    lower = Known(.0.lower(), "MIN"), upper = Known(.0.upper(), "MAX"))]
    ValueConstraintNotSatisfied(OutOfBounds),
    /// A character is not permitted (X.691 30.5).
    #[error("a character is not in the permitted alphabet")]
    AlphabetConstraintNotSatisfied,
    /// A number lies within its bounds but passes an `i128`.
    #[error("a number in its bounds is past 128 bits")]
    IntegerTypeConversionFailed,
    /// A tag is none of an alternative's (X.691 23).
    #[error("the choice has no alternative of the tag")]
    VariantNotInChoice,
    /// REAL is not supported.
    #[error("REAL is not supported")]
    RealNotSupported,
    /// A record has more additions than its schema lists (X.691 19).
    #[error("more additions than the schema has")]
    TooManyAdditions,
    /// An identifier or a time has no encoding.
    #[error("the identifier or time has no encoding")]
    Below,
    /// The encoder had refused before.
    #[error("the encoder had failed before")]
    AlreadyFailed,
    /// Memory ran out.
    #[error("out of memory")]
    OutOfMemory,
    /// The parts of a record were presented otherwise than its schema lists them, or a value is absent where one is
    /// asked for (X.680 25.6).
    #[error("a part was presented out of turn")]
    OutOfTurn,
    /// A value is of another kind than its type.
    #[error("a value is of another kind than its type")]
    WrongKind,
}

impl EncodeErrorKind {
    /// The kind's name, as `OutOfMemory`.
    pub fn name(&self) -> &'static str
        ensures { result.now ≡ name_of self.now }
    {
        match self {
            EncodeErrorKind::SizeConstraintNotSatisfied(..) => "SizeConstraintNotSatisfied",
            EncodeErrorKind::ValueConstraintNotSatisfied(..) => "ValueConstraintNotSatisfied",
            EncodeErrorKind::AlphabetConstraintNotSatisfied => "AlphabetConstraintNotSatisfied",
            EncodeErrorKind::IntegerTypeConversionFailed => "IntegerTypeConversionFailed",
            EncodeErrorKind::VariantNotInChoice => "VariantNotInChoice",
            EncodeErrorKind::RealNotSupported => "RealNotSupported",
            EncodeErrorKind::TooManyAdditions => "TooManyAdditions",
            EncodeErrorKind::Below => "Below",
            EncodeErrorKind::AlreadyFailed => "AlreadyFailed",
            EncodeErrorKind::OutOfMemory => "OutOfMemory",
            EncodeErrorKind::OutOfTurn => "OutOfTurn",
            EncodeErrorKind::WrongKind => "WrongKind",
        }
    }
}

/// A number as it is shown: it, or a text where it is absent.
#[derive(Drop)]
struct Known<T>(Option<T>, &'static str);

impl<T: fmt::Display> fmt::Display for Known<T> {
    fn fmt<W: fmt::Write>(&self, f: &mut fmt::Formatter<W>) -> fmt::Result {
        match &self.0 {
            Some(number) => write!(f, "{number}"),
            None => write!(f, "{}", self.1),
        }
    }
}
