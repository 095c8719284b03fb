//! Why JSON tells no value.

use std::alloc::{AllocError, AllocFailed};
use thiserror::Error;

/// Why JSON tells no value of a type.
#[derive(Clone, Copy, Debug, PartialEq, Eq, Error)]
pub enum FromJsonError {
    /// Memory ran out.
    #[error("out of memory")]
    OutOfMemory,
    /// The text is no JSON in UTF-8, or nests more than 128 arrays and objects.
    #[error("the text is not JSON")]
    NotJson,
    /// An object has two members of one name.
    #[error("an object has a member twice")]
    DuplicateMember,
    /// An object has a member that its type doesn't have.
    #[error("an object has a member that its type does not have")]
    UnknownMember,
    /// An object lacks a member that has to be there.
    #[error("an object lacks a member that has to be there")]
    MissingMember,
    /// A string isn't the name of an item of the type.
    #[error("a string is not the name of an item of its type")]
    UnknownItem,
    /// The member of an object isn't an alternative of the type, and no type that an open type may be.
    #[error("the member of an object is not an alternative of its type")]
    UnknownAlternative,
    /// The JSON is of another kind than the type asks for.
    #[error("the JSON is of another kind than the type asks for")]
    WrongKind,
    /// A number has a fraction or an exponent, or is past 128 bits; or bits are not as many as are told.
    #[error("a number is not whole, is too large, or does not fit the digits beside it")]
    BadNumber,
    /// A string isn't the hexadecimal digits of octets.
    #[error("a string is not the hexadecimal digits of octets")]
    BadHexadecimal,
    /// A string has a character that its type can't have.
    #[error("a string has a character that its type cannot have")]
    BadCharacter,
    /// A string isn't the canonical text of a time (X.690 11.7 and 11.8), or of a day (X.680 38.4).
    #[error("a string is not the canonical text of a time or a day")]
    BadTime,
    /// A string isn't the arcs of an object, such as `1.2.840`.
    #[error("a string is not the arcs of an object identifier")]
    BadIdentifier,
    /// The place is past the table of types.
    #[error("no type stands at the place")]
    NoType,
}

impl From<AllocError> for FromJsonError {
    ghost use Rattle.std.specs.Prelude.{◌≡◌};
    ghost use Rattle.rasn_dynamic_jer.specs.declared.from_json_error.FromJsonError.TheVariants.{OutOfMemory};

    ghost from_gives = { λ _ error. error ≡ OutOfMemory };

    fn from(_: AllocError) -> FromJsonError {
        FromJsonError::OutOfMemory
    }
}

impl<T: Drop> From<AllocFailed<T>> for FromJsonError {
    ghost use Rattle.std.specs.Prelude.{◌≡◌};
    ghost use Rattle.rasn_dynamic_jer.specs.declared.from_json_error.FromJsonError.TheVariants.{OutOfMemory};

    ghost from_gives = { λ _ error. error ≡ OutOfMemory };

    fn from(_: AllocFailed<T>) -> FromJsonError {
        FromJsonError::OutOfMemory
    }
}
