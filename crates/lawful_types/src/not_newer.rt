//! Why a type of a table isn't a newer version of another's.

use thiserror::Error;

/// Two types that are in one another's place, of which the one isn't a newer version of the other, and why.
#[derive(Clone, Copy, Debug, PartialEq, Eq, Error)]
#[error("type {newer} is no newer version of type {older}: {reason}")]
pub struct NotNewer {
    /// The place of the type in the newer table, from 0.
    pub newer: usize,
    /// The place of the type in the older table, from 0.
    pub older: usize,
    /// What isn't allowed.
    pub reason: Reason,
}

/// What a newer version of a type may not have (X.680 52), or why it wasn't found out.
#[derive(Clone, Copy, Debug, PartialEq, Eq, Error)]
pub enum Reason {
    /// The types are of different kinds, or one of the places isn't within its table.
    #[error("it is of another kind")]
    Kind,
    /// The bounds of a number differ, or only one of them has an extension marker (X.680 51.4).
    #[error("its bounds are others")]
    Bounds,
    /// The sizes differ, or only one of them has an extension marker (X.680 51.5).
    #[error("its size is another")]
    Size,
    /// The characters that a string may have differ (X.680 51.7), or are listed in another order.
    #[error("its permitted alphabet is another")]
    Alphabet,
    /// An ENUMERATED has other root items, or fewer after its extension marker (X.680 20).
    #[error("its items are others")]
    Items,
    /// Only one of the types has an extension marker.
    #[error("only one of them has an extension marker")]
    Marker,
    /// A component or an alternative has another tag.
    #[error("a tag is another")]
    Tag,
    /// A component that had to be there may be absent, or one has a default and the other none (X.680 25.6), or only
    /// one of them is an addition group.
    #[error("a component may be absent otherwise")]
    Presence,
    /// The default of a component is another (X.680 25.9).
    #[error("a default is another")]
    Default,
    /// The default of a component of the older type isn't a value of its type (X.680 25.9), so that nothing is said.
    #[error("a default of the older type is no value of its type")]
    UnlawfulDefault,
    /// A component or an alternative isn't there any more.
    #[error("a component or an alternative is left out")]
    LeftOut,
    /// A component or an alternative is new, and not after an extension marker.
    #[error("a component or an alternative is new before the extension marker")]
    PutIn,
    /// Memory for the pairs of types that are to be compared ran out.
    #[error("memory ran out")]
    OutOfMemory,
}
