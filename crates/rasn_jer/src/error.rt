//! Why a value was not written as JSON.

ghost use Rattle.std.specs.Prelude.{◌≡◌};
ghost use Rattle.rasn_jer.specs.Names.{error_of_time, name_of};
ghost use Rattle.rasn_jer.specs.declared.error.EncodeError.TheVariants.{OutOfMemory};

use rasn_strings::time_error::TimeError;
use std::alloc::AllocError;
use thiserror::Error;

/// Why a value was not written as JSON.
#[derive(Clone, Copy, Debug, PartialEq, Eq, Error)]
pub enum EncodeError {
    /// Memory ran out.
    #[error("out of memory")]
    OutOfMemory,
    /// The value has no JSON: a REAL, which isn't supported; a value that is absent where one is asked for (X.680
    /// 25.6); a time that no text of its type holds; or a character that isn't one of Unicode's scalar values.
    #[error("the value has no JSON")]
    NoJson,
    /// A tag is none of an alternative's (X.680 29).
    #[error("the choice has no alternative of the tag")]
    VariantNotInChoice,
    /// A value was presented where none is awaited.
    #[error("a part was presented out of turn")]
    OutOfTurn,
    /// The encoder had refused before.
    #[error("the encoder had failed before")]
    AlreadyFailed,
}

impl EncodeError {
    /// The error's name, as `OutOfMemory`.
    pub fn name(&self) -> &'static str
        ensures { result.now ≡ name_of self.now }
    {
        match self {
            EncodeError::OutOfMemory => "OutOfMemory",
            EncodeError::NoJson => "NoJson",
            EncodeError::VariantNotInChoice => "VariantNotInChoice",
            EncodeError::OutOfTurn => "OutOfTurn",
            EncodeError::AlreadyFailed => "AlreadyFailed",
        }
    }
}

impl From<AllocError> for EncodeError {
    ghost from_gives = { λ _ e. e ≡ OutOfMemory };

    fn from(_error: AllocError) -> EncodeError {
        EncodeError::OutOfMemory
    }
}

impl From<TimeError> for EncodeError {
    ghost from_gives = { λ t e. e ≡ error_of_time t };

    /// A moment that no text of its type holds has no JSON.
    fn from(error: TimeError) -> EncodeError {
        match error {
            TimeError::Unrepresentable => EncodeError::NoJson,
            _ => EncodeError::OutOfMemory,
        }
    }
}
