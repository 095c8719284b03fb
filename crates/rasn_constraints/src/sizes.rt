//! A size outside of its bounds.

/// A size and the bounds that it is outside of, in items. A bound that isn't there is absent.
#[derive(Clone, Copy, Debug, PartialEq, Eq)]
pub struct OutOfSize {
    /// How many items there are.
    pub size: usize,
    /// The least size.
    pub lower: Option<usize>,
    /// The greatest size.
    pub upper: Option<usize>,
}
