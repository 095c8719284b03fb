//! Lengths (X.691 11.9): how many items the smallest fragment has, and which counts are constrained whole numbers.

ghost use Rattle.std.specs.Prelude.{◌≡◌};
ghost use Rattle.per_core.specs.Counts.{constrained_between};
ghost use Rattle.per_core.specs.Lengths.{count_of, is_followed};

/// How many items the smallest fragment has; the others have two, three and four times as many (X.691 11.9.3.8).
pub const FRAGMENT: usize = 16384;

/// The bounds between which a count is written as a constrained whole number: both, where the upper one is below 65536
/// (X.691 11.9.4.1).
pub fn constrained_bounds(lower: Option<usize>, upper: Option<usize>) -> Option<(usize, usize)>
    ensures { result ≡ constrained_between lower upper }
{
    match (lower, upper) {
        (Some(lower), Some(upper)) if upper < 65536 => Some((lower, upper)),
        _ => None,
    }
}

/// How many items follow a length.
#[derive(Clone, Copy)]
pub enum Length {
    /// The last items.
    Last(u128),
    /// 16384, 32768, 49152 or 65536 items, which a further length follows.
    Fragment(u128),
}

impl Length {
    /// How many items follow.
    pub fn count(self) -> u128
        ensures { result ≡ count_of self }
    {
        match self {
            Length::Last(count) | Length::Fragment(count) => count,
        }
    }

    /// Whether a further length is after them.
    pub fn is_followed(self) -> bool
        ensures { result ≡ is_followed self }
    {
        matches!(self, Length::Fragment(_))
    }
}
