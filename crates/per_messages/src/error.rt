//! Why a message has no answer.

ghost use Rattle.std.specs.Prelude.{◌≡◌};
ghost use Rattle.per_messages.specs.Errors.{from_json_error_of, from_json_name, name_of, open_type_error_of};
ghost use Rattle.per_messages.specs.Errors.{to_json_error_of};
ghost use Rattle.per_messages.specs.declared.error.MessageError.TheVariants.{Decode as decode_error};
ghost use Rattle.per_messages.specs.declared.error.MessageError.TheVariants.{Encode as encode_error};
ghost use Rattle.per_messages.specs.declared.error.MessageError.TheVariants.{OutOfMemory};

use per_dynamic::open_types::OpenTypeError;
use rasn_dynamic_jer::error::ToJsonError;
use rasn_dynamic_jer::from_json_error::FromJsonError;
use rasn_per::uper::{DecodeError, DecodeErrorKind, EncodeError, EncodeErrorKind};
use std::alloc::AllocError;
use thiserror::Error;

/// Why a message has no answer.
#[derive(Clone, Copy, Debug, PartialEq, Error)]
pub enum MessageError {
    /// The octets are no encoding of a value of the type.
    #[error("the octets are no encoding of a value of the type")]
    Decode(DecodeErrorKind),
    /// The value has no canonical encoding.
    #[error("the value has no encoding")]
    Encode(EncodeErrorKind),
    /// The value has no JSON.
    #[error("the value has no JSON")]
    NoJson,
    /// An open type has a value of another type than its object set tells.
    #[error("an open type has a value of another type than its object set tells")]
    OtherType,
    /// The text is no JSON of a value of the type.
    #[error("the text is no JSON of a value of the type")]
    FromJson(FromJsonError),
    /// Memory ran out.
    #[error("out of memory")]
    OutOfMemory,
}

impl MessageError {
    /// The name of what is wrong, as `Incomplete`.
    pub fn name(&self) -> &'static str
        ensures { result.now ≡ name_of self.now }
    {
        match self {
            MessageError::Decode(kind) => kind.name(),
            MessageError::Encode(kind) => kind.name(),
            MessageError::NoJson => "NoJson",
            MessageError::OtherType => "OtherType",
            MessageError::FromJson(error) => from_json_name(*error),
            MessageError::OutOfMemory => "OutOfMemory",
        }
    }
}

/// The name of why JSON tells no value.
pub fn from_json_name(error: FromJsonError) -> &'static str
    ensures { result.now ≡ from_json_name error }
{
    match error {
        FromJsonError::OutOfMemory => "OutOfMemory",
        FromJsonError::NotJson => "NotJson",
        FromJsonError::DuplicateMember => "DuplicateMember",
        FromJsonError::UnknownMember => "UnknownMember",
        FromJsonError::MissingMember => "MissingMember",
        FromJsonError::UnknownItem => "UnknownItem",
        FromJsonError::UnknownAlternative => "UnknownAlternative",
        FromJsonError::WrongKind => "WrongKind",
        FromJsonError::BadNumber => "BadNumber",
        FromJsonError::BadHexadecimal => "BadHexadecimal",
        FromJsonError::BadCharacter => "BadCharacter",
        FromJsonError::BadTime => "BadTime",
        FromJsonError::BadIdentifier => "BadIdentifier",
        FromJsonError::NoType => "NoType",
    }
}

impl From<AllocError> for MessageError {
    ghost from_gives = { λ e r. r ≡ OutOfMemory };

    fn from(_error: AllocError) -> MessageError {
        MessageError::OutOfMemory
    }
}

impl From<DecodeError> for MessageError {
    ghost from_gives = { λ e r. r ≡ decode_error e.kind };

    fn from(error: DecodeError) -> MessageError {
        MessageError::Decode(error.kind)
    }
}

impl From<EncodeError> for MessageError {
    ghost from_gives = { λ e r. r ≡ encode_error e.kind };

    fn from(error: EncodeError) -> MessageError {
        MessageError::Encode(error.kind)
    }
}

impl From<ToJsonError> for MessageError {
    ghost from_gives = { λ e r. r ≡ to_json_error_of e };

    fn from(error: ToJsonError) -> MessageError {
        match error {
            ToJsonError::OutOfMemory => MessageError::OutOfMemory,
            ToJsonError::NoJson => MessageError::NoJson,
        }
    }
}

impl From<OpenTypeError> for MessageError {
    ghost from_gives = { λ e r. r ≡ open_type_error_of e };

    fn from(error: OpenTypeError) -> MessageError {
        match error {
            OpenTypeError::OtherType => MessageError::OtherType,
            OpenTypeError::Encode(kind) => MessageError::Encode(kind),
            OpenTypeError::OutOfMemory => MessageError::OutOfMemory,
        }
    }
}

impl From<FromJsonError> for MessageError {
    ghost from_gives = { λ e r. r ≡ from_json_error_of e };

    fn from(error: FromJsonError) -> MessageError {
        match error {
            FromJsonError::OutOfMemory => MessageError::OutOfMemory,
            _ => MessageError::FromJson(error),
        }
    }
}
