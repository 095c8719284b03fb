//! Why a text is no schema file.

ghost use Rattle.std.specs.Prelude.{◌≡◌, ◌<◌, ◌+◌};

use lawful_types::fault::Reason as Broken;
use std::alloc::{AllocError, AllocFailed};
use thiserror::Error;

/// Why a text is refused, and in which line.
#[derive(Clone, Copy, Debug, PartialEq, Eq, Error)]
#[error("line {line}: {reason}")]
pub struct LoadError {
    /// The number of the line, from 1.
    pub line: usize,
    /// What is wrong there.
    pub reason: Reason,
}

impl LoadError {
    /// What is wrong with the line at an index.
    pub(crate) fn at(index: usize, reason: Reason) -> Self
        requires { index < usize.MAX }
        ensures { result.line ≡ index + 1 }
    {
        LoadError {
            line: index + 1,
            reason,
        }
    }

    /// Memory ran out, where no line is read.
    pub(crate) fn out_of_memory() -> Self
        ensures { result.line ≡ 1 }
    {
        LoadError {
            line: 1,
            reason: Reason::OutOfMemory,
        }
    }
}

/// What is wrong with a line of a schema file.
#[derive(Clone, Copy, Debug, PartialEq, Eq, Error)]
pub enum Reason {
    /// The text isn't UTF-8.
    #[error("this is no UTF-8")]
    NotUtf8,
    /// The first line isn't that of a schema file of version 1.
    #[error("this is no schema file of version 1")]
    OtherVersion,
    /// Other lines follow than the first one says, or the last one has no line feed.
    #[error("other lines follow than are told")]
    OtherCounts,
    /// A word lacks, or is empty.
    #[error("a word lacks")]
    WordLacks,
    /// There are more words than the line has room for.
    #[error("there is a word too many")]
    WordTooMany,
    /// There is no such type.
    #[error("there is no such type")]
    UnknownType,
    /// There is no such value.
    #[error("there is no such value")]
    UnknownValue,
    /// A word has no place where it stands.
    #[error("a word has no place here")]
    UnknownWord,
    /// A word isn't a number as the file writes one.
    #[error("a word is no number")]
    NotNumber,
    /// A number is past what the codec holds.
    #[error("a number is too large")]
    NumberTooLarge,
    /// A lower bound is above the upper one.
    #[error("a bound is above the other")]
    CrossedBounds,
    /// The bounds of a number are more than `i128::MAX` apart.
    #[error("bounds are too far apart")]
    FarBounds,
    /// The ranges of an alphabet don't ascend.
    #[error("ranges of an alphabet don't ascend")]
    UnorderedAlphabet,
    /// An alphabet has more than 256 characters.
    #[error("an alphabet has more than 256 characters")]
    LargeAlphabet,
    /// A word isn't a name.
    #[error("a word is no name")]
    NotName,
    /// A word isn't a tag.
    #[error("a word is no tag")]
    NotTag,
    /// A place is past the table.
    #[error("there is no such place")]
    NoSuchPlace,
    /// A name stands twice in a list.
    #[error("a name stands twice")]
    NameTwice,
    /// Groups stand in so many lists that looking at all their names takes too long.
    #[error("groups are named too often")]
    ManyGroups,
    /// Tags of a SET or CHOICE don't ascend or aren't different.
    #[error("tags are the same or don't ascend")]
    UnorderedTags,
    /// 65536 or more root components of a SEQUENCE or SET may be absent or have a default.
    #[error("too many components may be absent")]
    ManyPresenceBits,
    /// A default isn't a value of its component's type (X.680 25.9), or not in normal form.
    #[error("a default is no value of its type")]
    OtherDefault,
    /// A CHOICE without a tag has no alternative with one, or CHOICEs without tags are in one another more than 255
    /// deep.
    #[error("a CHOICE has no tag")]
    TagLacks,
    /// What a group names isn't a SEQUENCE without a marker.
    #[error("a group is no SEQUENCE without a marker")]
    NotGroup,
    /// A word isn't hexadecimal digits, two an octet.
    #[error("a word is no hexadecimal octets")]
    NotHexadecimal,
    /// A word isn't bits.
    #[error("a word is no bits")]
    NotBits,
    /// Numbers aren't the arcs of an OBJECT IDENTIFIER.
    #[error("numbers are no OBJECT IDENTIFIER")]
    NotIdentifier,
    /// What the codec has only on pages: UniversalString.
    #[error("this isn't data yet")]
    NotHeld,
    /// A value holds values more than 255 deep.
    #[error("a value is nested too deep")]
    NestedTooDeep,
    /// A module's name for a type stands twice.
    #[error("a type is named twice")]
    RootTwice,
    /// Memory ran out.
    #[error("out of memory")]
    OutOfMemory,
}

impl From<AllocError> for Reason {
    fn from(_error: AllocError) -> Reason {
        Reason::OutOfMemory
    }
}

impl<T: Drop> From<AllocFailed<T>> for Reason {
    fn from(_failed: AllocFailed<T>) -> Reason {
        Reason::OutOfMemory
    }
}

impl From<Broken> for Reason {
    fn from(reason: Broken) -> Reason {
        match reason {
            Broken::Bounds => Reason::FarBounds,
            Broken::Size => Reason::CrossedBounds,
            Broken::PresenceBits => Reason::ManyPresenceBits,
            Broken::Tags => Reason::UnorderedTags,
            Broken::Default => Reason::OtherDefault,
        }
    }
}
