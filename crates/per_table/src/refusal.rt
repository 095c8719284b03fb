//! Why a request has no answer.

ghost use Rattle.std.specs.Prelude.{◌≡◌};
ghost use Rattle.per_table.specs.Refusals.{hexadecimal_refusal, message_refusal, text_of};
ghost use Rattle.per_table.specs.declared.refusal.Refusal.TheVariants.{OutOfMemory};

use hex::FromHexError;
use per_messages::error::MessageError;
use std::alloc::AllocError;

/// Why a request has no answer.
#[derive(Clone, Copy, Debug, PartialEq)]
pub enum Refusal {
    /// The line isn't a variant, a name and a text.
    WrongRequest,
    /// The table has no type with this name.
    UnknownType,
    /// The digits aren't pairs of hexadecimal digits.
    BadHexadecimal,
    /// The message has no answer.
    Message(MessageError),
    /// Memory ran out.
    OutOfMemory,
}

impl Refusal {
    /// What is said of it.
    pub fn text(&self) -> &'static str
        ensures { result.now ≡ text_of self.now }
    {
        match self {
            Refusal::WrongRequest => "not (aper|uper) MODULE.TYPE TEXT",
            Refusal::UnknownType => "no such type",
            Refusal::BadHexadecimal => "bad hexadecimal",
            Refusal::Message(error) => error.name(),
            Refusal::OutOfMemory => "OutOfMemory",
        }
    }
}

impl From<FromHexError> for Refusal {
    ghost from_gives = { λ e r. r ≡ hexadecimal_refusal e };

    fn from(error: FromHexError) -> Refusal {
        match error {
            FromHexError::OutOfMemory => Refusal::OutOfMemory,
            FromHexError::InvalidHexCharacter { .. }
            | FromHexError::OddLength
            | FromHexError::InvalidStringLength => Refusal::BadHexadecimal,
        }
    }
}

impl From<MessageError> for Refusal {
    ghost from_gives = { λ e r. r ≡ message_refusal e };

    fn from(error: MessageError) -> Refusal {
        match error {
            MessageError::OutOfMemory => Refusal::OutOfMemory,
            _ => Refusal::Message(error),
        }
    }
}

impl From<AllocError> for Refusal {
    ghost from_gives = { λ e r. r ≡ OutOfMemory };

    fn from(_error: AllocError) -> Refusal {
        Refusal::OutOfMemory
    }
}
