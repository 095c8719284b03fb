//! Why a value was not written as JSON, and why JSON tells none.

use std::alloc::AllocError;
use thiserror::Error;

/// Why a value was not written as JSON.
#[derive(Clone, Copy, Debug, PartialEq, Eq, Error)]
pub enum ToJsonError {
    /// Memory ran out.
    #[error("out of memory")]
    OutOfMemory,
    /// The value has no JSON: it is of another kind than the type, or a component is absent that has to be there; its
    /// characters aren't all of Unicode; its number is past 128 bits; its type is past the table; or it nests more than
    /// 128 arrays and objects.
    #[error("the value has no JSON")]
    NoJson,
}

impl From<AllocError> for ToJsonError {
    ghost use Rattle.std.specs.Prelude.{◌≡◌};
    ghost use Rattle.rasn_dynamic_jer.specs.declared.error.ToJsonError.TheVariants.{OutOfMemory};

    ghost from_gives = { λ _ error. error ≡ OutOfMemory };

    fn from(_: AllocError) -> ToJsonError {
        ToJsonError::OutOfMemory
    }
}
