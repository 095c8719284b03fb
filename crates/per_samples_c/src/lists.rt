//! Lists of octets as eight BOOLEAN each, and lists of NULL.

ghost use Rattle.rasn_below.specs.Components.{size◌to◌};

use crate::byte::Byte;
use rasn_below::{Constrained, Constraint, Constraints, Limits, constraints};

/// SEQUENCE OF byte
pub type Bytes = Vec<Byte>;

/// SEQUENCE OF NULL
pub type NullList = Vec<()>;

/// SEQUENCE (SIZE (1..300)) OF NULL
pub type Nulls = Constrained<Vec<()>, NullsLimits>;

/// The constraints of `Nulls`.
#[derive(Clone, Copy, Debug, Drop, PartialEq, Eq)]
pub struct NullsLimits;

const ONE_TO_300: &[Constraint] = constraints!(SIZE 1..=300);

impl Limits for NullsLimits {
    const LIMITS: Constraints<'static> = Constraints(ONE_TO_300);

    ghost LIMITS = { size 1 to 300 };
}
