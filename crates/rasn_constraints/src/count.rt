//! A number of 128 bits in two words.

ghost use Rattle.std.specs.Prelude.{◌≡◌};
ghost use Rattle.rasn_constraints.specs.Bounds.{count_of, number_of};

use std::fmt;

/// A number of up to 128 bits, in two words of 64.
#[derive(Clone, Copy, PartialEq, Eq)]
pub struct Count {
    low: u64,
    high: u64,
}

impl Count {
    /// The number in its words.
    pub const fn new(number: u128) -> Count
        ensures words { result ≡ count_of number }
        ensures number { number_of result ≡ number }
    {
        Count {
            low: (number % WORD) as u64,
            high: (number / WORD) as u64,
        }
    }

    /// The number.
    pub const fn get(&self) -> u128
        ensures { result ≡ number_of self.now }
    {
        self.high as u128 * WORD + self.low as u128
    }
}

/// How many numbers a word tells apart.
const WORD: u128 = 1 << 64;

impl fmt::Display for Count {
    fn fmt<W: fmt::Write>(&self, f: &mut fmt::Formatter<W>) -> fmt::Result {
        write!(f, "{}", self.get())
    }
}

impl fmt::Debug for Count {
    fn fmt<W: fmt::Write>(&self, f: &mut fmt::Formatter<W>) -> fmt::Result {
        write!(f, "{}", self.get())
    }
}
