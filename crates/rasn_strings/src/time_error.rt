//! Why a time was not written or not read.

use std::alloc::AllocError;
use thiserror::Error;

/// Why a time was not written or not read.
#[derive(Clone, Copy, Debug, PartialEq, Error)]
pub enum TimeError {
    /// The text can't hold the moment: its year, or the fraction of its second (X.680 46 and 47).
    #[error("the text can't hold the moment")]
    Unrepresentable,
    /// The octets are no canonical text of a time (X.690 11.7 and 11.8).
    #[error("not the text of a time")]
    InvalidText,
    /// The numbers are no day of the calendar.
    #[error("not a day of the calendar")]
    InvalidDate,
    /// Memory ran out.
    #[error("out of memory")]
    OutOfMemory,
}

impl From<AllocError> for TimeError {
    ghost use Rattle.std.specs.Prelude.{◌≡◌};
    ghost use Rattle.rasn_strings.specs.declared.time_error.TimeError.TheVariants.{OutOfMemory};

    ghost from_gives = { λ _ error. error ≡ OutOfMemory };

    fn from(_: AllocError) -> TimeError {
        TimeError::OutOfMemory
    }
}
