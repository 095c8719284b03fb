//! Why a table of types isn't lawful.

use thiserror::Error;

/// A type of a table that isn't lawful, and why.
#[derive(Clone, Copy, Debug, PartialEq, Eq, Error)]
#[error("type {place}: {reason}")]
pub struct Fault {
    /// The place of the type, from 0.
    pub place: usize,
    /// The rule that it breaks.
    pub reason: Reason,
}

/// A rule of X.680, or a limit of this project, that a type breaks.
#[derive(Clone, Copy, Debug, PartialEq, Eq, Error)]
pub enum Reason {
    /// A lower bound of an INTEGER is above the upper one (X.680 51.4), or there are more than `i128::MAX` numbers from
    /// the one to the other.
    #[error("the bounds of a number are out of order, or too far apart")]
    Bounds,
    /// A lower bound of a size is above the upper one (X.680 51.5).
    #[error("the bounds of a size are out of order")]
    Size,
    /// 65536 or more root components of a SEQUENCE may be absent, or have a default.
    #[error("too many root components may be absent")]
    PresenceBits,
    /// Two alternatives of a CHOICE have one tag (X.680 29.3).
    #[error("two alternatives have one tag")]
    Tags,
    /// A default isn't a value of its component's type (X.680 25.9), or it is named bits that aren't in normal form
    /// (X.680 22.7): their last bit is zero, though their size doesn't ask for it, or they have too few bits for it.
    #[error("a default is no value of its type")]
    Default,
}
