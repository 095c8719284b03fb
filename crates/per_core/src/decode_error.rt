//! Why a decoder refuses.

ghost use Rattle.std.specs.Prelude.{◌≡◌};
ghost use Rattle.std.specs.IoError.{error_kind};
ghost use Rattle.std.specs.declared.io.ErrorKind.TheVariants.{Other};
ghost use Rattle.per_core.specs.ReadingFaults.{NamesLacking};
ghost use Rattle.per_core.specs.ReadingNames.{name_of};
ghost use Rattle.per_core.specs.declared.decode_error.DecodeErrorKind.TheVariants.{Incomplete, OutOfMemory};

use rasn_constraints::bounds::OutOfBounds;
use rasn_constraints::count::Count;
use rasn_constraints::sizes::OutOfSize;
use rasn_schema::de;
use rasn_types::types::{Codec, Tag};
use std::alloc::{AllocError, AllocFailed};
use std::io;
use thiserror::Error;

/// Why a value was not decoded, and under which variant. It holds numbers and no text, so making one takes no memory.
#[derive(Clone, Copy, Debug, PartialEq, Eq, Error)]
#[error("{kind} ({codec:?})")]
pub struct DecodeError {
    /// What was wrong.
    pub kind: DecodeErrorKind,
    /// The variant in use.
    pub codec: Codec,
}

impl de::Error for DecodeError {
    ghost lacks = { NamesLacking };

    fn required_extension_not_present(tag: Tag, codec: Codec) -> DecodeError {
        DecodeError {
            kind: DecodeErrorKind::RequiredExtensionNotPresent(tag),
            codec,
        }
    }
}

/// What an `io::Result` says of a refusal: its kind's name.
impl From<DecodeError> for io::Error {
    ghost from_gives = { λ _ e. error_kind e ≡ Other };

    fn from(error: DecodeError) -> io::Error {
        io::Error::other(error.kind.name())
    }
}

/// What was wrong with the bits, or with the decoder.
#[derive(Clone, Copy, Debug, PartialEq, Eq, Error)]
pub enum DecodeErrorKind {
    /// The input ends within a field: how many bits of the field are missing.
    #[error("the input ends {0} bits early")]
    Incomplete(Count),

    /// The bits spell no value of any type.
    #[error("{0}")]
    ParserFail(ParserFailCause),

    /// Whole octets are left over, at the end or in an open type: how many (X.691 11.1, 11.2).
    #[error("{0} octets are left over")]
    UnexpectedExtraData(Count),

    /// A part was asked for out of turn, left unread or one too many, or a scope was closed within an open list.
    #[error("a part was read out of turn")]
    MissingTag,

    /// An addition was asked for in a type that has none.
    #[error("the type has no extension additions")]
    TypeNotExtensible,

    /// There are more items than can be counted.
    #[error("there are more items than can be counted")]
    ExceedsMaxLength,

    /// A number doesn't fit its type: the width of the type in bits.
    #[error("the number does not fit {0} bits")]
    IntegerOverflow(u32),

    /// The size of a string or a list is outside its bounds: the size, and the bounds.
    #[error("the size {} is not between {:?} and {:?}", .0.size, .0.lower, .0.upper)]
    SizeConstraintNotSatisfied(OutOfSize),

    /// A number is outside its bounds: the number, absent where it passes an `i128`, and the bounds.
    #[error("the number {:?} is not between {:?} and {:?}", .0.value(), .0.lower(), .0.upper())]
    ValueConstraintNotSatisfied(OutOfBounds),

    /// No permitted character has the code (X.691 30.5).
    #[error("a character is not in the permitted alphabet")]
    PermittedAlphabet,

    /// The type has no such item: its index, and whether it would be an added one (X.691 14).
    #[error("there is no item {0} (added: {1})")]
    EnumerationIndexNotFound(usize, bool),

    /// The type has no such alternative: its index (X.691 23).
    #[error("there is no alternative {0}")]
    ChoiceIndexNotFound(usize),

    /// The index of an alternative is past 64 bits (X.691 23).
    #[error("the index of an alternative is past 64 bits")]
    ChoiceIndexExceedsPlatformWidth,

    /// A required addition is absent: its tag (X.691 19).
    #[error("the required addition {0:?} is absent")]
    RequiredExtensionNotPresent(Tag),

    /// Values stand deeper inside one another than the decoder enters.
    #[error("the value is too deep")]
    ExceedsMaxParseDepth,

    /// The octets of a UTF8String aren't UTF-8.
    #[error("the octets are not UTF-8")]
    StringConversionFailed,

    /// There is no such day.
    #[error("there is no such day")]
    InvalidDate,

    /// REAL is not supported.
    #[error("REAL is not supported")]
    RealNotSupported,

    /// The octets of an object identifier or the text of a time are malformed.
    #[error("an object identifier or a time is malformed")]
    Below,

    /// A number has no octets (X.691 11.8).
    #[error("a number has no octets")]
    UnexpectedEmptyInput,

    /// The decoder had refused before.
    #[error("the decoder has failed before")]
    AlreadyFailed,

    /// Memory ran out.
    #[error("out of memory")]
    OutOfMemory,
}

/// What bits are that spell no value of any type.
#[derive(Clone, Copy, Debug, PartialEq, Eq, Error)]
pub enum ParserFailCause {
    /// The one octet of a value of no bits isn't zero (X.691 11.1.3).
    #[error("the octet of an empty value is not zero")]
    NonzeroEmptyValue,

    /// A fragment's octet is none of C1 to C4 (X.691 11.9.3.8).
    #[error("a fragment has a code other than 1 to 4")]
    FragmentCode,

    /// A bitmap of additions has no bits (X.691 19).
    #[error("the bitmap of additions is empty")]
    EmptyBitmap,

    /// Padding or a spare bit isn't zero, where it must be (X.691 11.1, 11.2).
    #[error("padding is not zero")]
    NonzeroPadding,
}

impl DecodeErrorKind {
    /// The name of the kind, such as `Incomplete`.
    pub fn name(&self) -> &'static str
        ensures { result.now ≡ name_of self.now }
    {
        match self {
            DecodeErrorKind::Incomplete(_) => "Incomplete",
            DecodeErrorKind::ParserFail(_) => "ParserFail",
            DecodeErrorKind::UnexpectedExtraData(_) => "UnexpectedExtraData",
            DecodeErrorKind::MissingTag => "MissingTag",
            DecodeErrorKind::TypeNotExtensible => "TypeNotExtensible",
            DecodeErrorKind::ExceedsMaxLength => "ExceedsMaxLength",
            DecodeErrorKind::IntegerOverflow(_) => "IntegerOverflow",
            DecodeErrorKind::SizeConstraintNotSatisfied(_) => "SizeConstraintNotSatisfied",
            DecodeErrorKind::ValueConstraintNotSatisfied(_) => "ValueConstraintNotSatisfied",
            DecodeErrorKind::PermittedAlphabet => "PermittedAlphabet",
            DecodeErrorKind::EnumerationIndexNotFound(..) => "EnumerationIndexNotFound",
            DecodeErrorKind::ChoiceIndexNotFound(_) => "ChoiceIndexNotFound",
            DecodeErrorKind::ChoiceIndexExceedsPlatformWidth => "ChoiceIndexExceedsPlatformWidth",
            DecodeErrorKind::RequiredExtensionNotPresent(_) => "RequiredExtensionNotPresent",
            DecodeErrorKind::ExceedsMaxParseDepth => "ExceedsMaxParseDepth",
            DecodeErrorKind::StringConversionFailed => "StringConversionFailed",
            DecodeErrorKind::InvalidDate => "InvalidDate",
            DecodeErrorKind::RealNotSupported => "RealNotSupported",
            DecodeErrorKind::Below => "Below",
            DecodeErrorKind::UnexpectedEmptyInput => "UnexpectedEmptyInput",
            DecodeErrorKind::AlreadyFailed => "AlreadyFailed",
            DecodeErrorKind::OutOfMemory => "OutOfMemory",
        }
    }
}

impl From<AllocError> for DecodeErrorKind {
    ghost from_gives = { λ _ kind. kind ≡ OutOfMemory };

    fn from(_: AllocError) -> DecodeErrorKind {
        DecodeErrorKind::OutOfMemory
    }
}

impl<T: Drop> From<AllocFailed<T>> for DecodeErrorKind {
    ghost from_gives = { λ _ kind. kind ≡ OutOfMemory };

    fn from(_: AllocFailed<T>) -> DecodeErrorKind {
        DecodeErrorKind::OutOfMemory
    }
}
