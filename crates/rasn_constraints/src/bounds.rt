//! A number outside of its bounds.

ghost use Rattle.std.specs.Prelude.{◌≡◌};
ghost use Rattle.rasn_constraints.specs.Bounds.{lower_of, told_by, upper_of, value_of};

use crate::count::Count;
use std::fmt;

/// A number and the bounds that it is outside of. Each may be absent: the number where it passes an `i128`, a bound
/// where there is none.
#[derive(Clone, Copy, PartialEq, Eq)]
pub struct OutOfBounds {
    value: Count,
    lower: Count,
    upper: Count,
    value_sign: Sign,
    lower_sign: Sign,
    upper_sign: Sign,
}

/// How a count stands for a number.
#[derive(Clone, Copy, Debug, PartialEq, Eq)]
pub enum Sign {
    /// There is no number.
    Absent,
    /// The number is the count.
    Positive,
    /// The number is as far below -1 as the count says.
    Negative,
}

impl OutOfBounds {
    /// A number and its bounds.
    pub fn new(value: Option<i128>, lower: Option<i128>, upper: Option<i128>) -> OutOfBounds
        ensures value { value_of result ≡ value }
        ensures lower { lower_of result ≡ lower }
        ensures upper { upper_of result ≡ upper }
    {
        let (value_sign, value) = told(value);
        let (lower_sign, lower) = told(lower);
        let (upper_sign, upper) = told(upper);
        OutOfBounds {
            value,
            lower,
            upper,
            value_sign,
            lower_sign,
            upper_sign,
        }
    }

    /// The number, absent where it passes an `i128`.
    pub fn value(&self) -> Option<i128>
        ensures { result ≡ value_of self.now }
    {
        number(self.value_sign, self.value)
    }

    /// The lower bound.
    pub fn lower(&self) -> Option<i128>
        ensures { result ≡ lower_of self.now }
    {
        number(self.lower_sign, self.lower)
    }

    /// The upper bound.
    pub fn upper(&self) -> Option<i128>
        ensures { result ≡ upper_of self.now }
    {
        number(self.upper_sign, self.upper)
    }
}

/// The sign and the count of a number.
fn told(number: Option<i128>) -> (Sign, Count)
    ensures { told_by result.0 result.1 ≡ number }
{
    match number {
        Some(number) if number < 0 => (Sign::Negative, Count::new((-1 - number) as u128)),
        Some(number) => (Sign::Positive, Count::new(number as u128)),
        None => (Sign::Absent, Count::new(0)),
    }
}

/// The number that a count stands for.
fn number(sign: Sign, count: Count) -> Option<i128>
    ensures { result ≡ told_by sign count }
{
    match sign {
        Sign::Absent => None,
        Sign::Positive => i128::try_from(count.get()).ok(),
        Sign::Negative => i128::try_from(count.get()).ok().map(|count| -1 - count),
    }
}

impl fmt::Debug for OutOfBounds {
    fn fmt<W: fmt::Write>(&self, f: &mut fmt::Formatter<W>) -> fmt::Result {
        f.debug_struct("OutOfBounds")
            .field("value", &self.value())
            .field("lower", &self.lower())
            .field("upper", &self.upper())
            .finish()
    }
}
