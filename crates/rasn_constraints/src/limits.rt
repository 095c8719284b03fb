//! The test of constraints that are made at run time.

ghost use Rattle.std.specs.Prelude.{◌≡◌};
ghost use Rattle.rasn_constraints.specs.Constraints.{bounds_of, size_between};
ghost use Rattle.rasn_constraints.specs.LawfulConstraints.{are_lawful_bounds, is_lawful_size, are_lawful};

use crate::constraints::{Bounded, Constraints};

/// Whether constraints are lawful: the bounds of the first value constraint and of the first size constraint are in
/// order, and the former hold at most `i128::MAX` numbers where both are there.
pub fn is_lawful(constraints: &Constraints) -> bool
    ensures { result ≡ are_lawful constraints.now }
{
    constraints
        .value()
        .is_none_or(|value| has_lawful_bounds(value.constraint))
        && constraints
            .size()
            .is_none_or(|size| has_lawful_size(size.constraint))
}

fn has_lawful_bounds(bounded: Bounded<i128>) -> bool
    ensures { let bounds = bounds_of bounded in result ≡ are_lawful_bounds bounds.low bounds.high }
{
    match bounded.start_and_end() {
        (Some(_), Some(_)) => bounded
            .range()
            .is_some_and(|count| count <= i128::MAX as u128),
        _ => true,
    }
}

fn has_lawful_size(bounded: Bounded<usize>) -> bool
    ensures { let size = size_between bounded in result ≡ is_lawful_size size.least size.most }
{
    match bounded.start_and_end() {
        (Some(start), Some(end)) => start <= end,
        _ => true,
    }
}
