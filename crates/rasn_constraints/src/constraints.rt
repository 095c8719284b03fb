//! Constraints (X.680 49 to 52): bounds, sizes, permitted alphabets and extension markers.

ghost use Rattle.std.specs.Prelude.{◌≡◌, ◌≤◌, ℕ, ℤ, pos, true, false, option_map, MatchOption};
ghost use Rattle.std.specs.Option.{ForSome};
ghost use Rattle.either.specs.Either.{IsLeftAnd, IsRightAnd};
ghost use Rattle.rasn_constraints.specs.Bounds.{above, holds};

use either::{Either, Left, Right};
use std::marker::Model;

/// A number type in which bounds are stated: `i128` for values, `usize` for sizes.
pub trait Number: Copy {
    // The whole number that a value is.
    ghost whole: { Self → ℤ };

    // The greatest number of the type.
    ghost greatest: { ℕ };

    /// The number as an `i128`.
    fn as_i128(self) -> i128
        ensures { result ≡ whole self };

    /// The number as one of the type, which has to hold it.
    fn from_u128(value: u128) -> Self
        requires { value ≤ greatest }
        ensures { whole result ≡ pos value };
}

/// Bounds of a number (X.680 51.2, 51.4), or of a count (X.680 51.5).
#[derive(Clone, Copy, Debug, PartialEq, Eq)]
pub enum Bounded<T> {
    /// No bound.
    None,
    /// A single value.
    Single(T),
    /// From a start to an end, both included, each where there is one.
    Range {
        /// The least value.
        start: Option<T>,
        /// The greatest value.
        end: Option<T>,
    },
}

impl<T: Copy> Bounded<T> {
    ghost use Rattle.rasn_constraints.specs.Constraints.{start_of, end_of};

    /// The start and the end, each where there is one. A single value is its own start and end.
    #[inline(always)]
    pub fn start_and_end(&self) -> (Option<T>, Option<T>)
        ensures start { result.0 ≡ start_of self.now }
        ensures end { result.1 ≡ end_of self.now }
    {
        match *self {
            Bounded::None => (None, None),
            Bounded::Single(value) => (Some(value), Some(value)),
            Bounded::Range { start, end } => (start, end),
        }
    }
}

impl<T: Number> Bounded<T> {
    ghost use Rattle.rasn_constraints.specs.Constraints.{bounds_by, how_many, start_of};

    /// Whether a value is within the bounds: none is, where the start is above the end.
    #[inline(always)]
    pub fn contains(&self, value: &T) -> bool
        ensures { result ≡ holds (bounds_by T.whole self.now) (T.whole value.now) }
    {
        let value = value.as_i128();
        let (start, end) = self.start_and_end();
        start.is_none_or(|start| start.as_i128() <= value)
            && end.is_none_or(|end| value <= end.as_i128())
    }

    /// How many values are within the bounds (X.691 11.5.3), where both bounds are there and in order, and a `u128`
    /// holds their number. It holds all but the 2^128 values from `i128::MIN` to `i128::MAX`.
    pub fn range(&self) -> Option<u128>
        ensures { result ≡ how_many (bounds_by T.whole self.now) }
    {
        let (Some(start), Some(end)) = self.start_and_end() else {
            return None;
        };
        let (start, end) = (start.as_i128(), end.as_i128());
        if end < start {
            return None;
        }
        end.abs_diff(start).checked_add(1)
    }

    /// What is written for a value under the bounds: where there is a start, how far the value is above it, `Left`
    /// (X.691 11.5.3, 11.7.3), and else the value itself, `Right` (X.691 11.8). The value has to be within the bounds,
    /// and its distance from the start has to be a number of the type.
    pub fn effective_value(&self, value: T) -> Either<T, T>
        requires within { holds (bounds_by T.whole self.now) (T.whole value) ≡ true }
        requires fits { ForSome (start_of self.now) (λ start. above (T.whole start) (T.whole value) ≤ T.greatest) }
        ensures { MatchOption (start_of self.now)
            (IsRightAnd result (λ same. same ≡ value))
            (λ start. IsLeftAnd result (λ offset. T.whole offset ≡ pos (above (T.whole start) (T.whole value)))) }
    {
        match self.start_and_end() {
            (Some(start), _) => Left(T::from_u128(value.as_i128().abs_diff(start.as_i128()))),
            (None, _) => Right(value),
        }
    }
}

impl Number for i128 {
    ghost use Rattle.std.specs.Prelude.{◌^◌, ◌-◌};

    ghost whole = { λ z. z };

    ghost greatest = { 2 ^ 127 - 1 };

    fn as_i128(self) -> i128 {
        self
    }

    fn from_u128(value: u128) -> i128 {
        value as i128
    }
}

impl Number for usize {
    ghost use Rattle.std.specs.Prelude.{◌^◌, ◌-◌};

    ghost whole = { pos };

    ghost greatest = { 2 ^ 64 - 1 };

    fn as_i128(self) -> i128 {
        self as i128
    }

    fn from_u128(value: u128) -> usize {
        value as usize
    }
}

/// A constraint, and whether it is marked as extensible (X.680 52).
#[derive(Clone, Copy, Debug, PartialEq, Eq)]
pub struct Extensible<T> {
    /// The constraint.
    pub constraint: T,
    /// Whether the constraint has an extension marker.
    pub extensible: bool,
}

impl<T> Extensible<T> {
    /// A constraint with no extension marker.
    pub const fn new(constraint: T) -> Extensible<T>
        ensures constraint { result.constraint ≡ constraint }
        ensures extensible { result.extensible ≡ false }
    {
        Extensible {
            constraint,
            extensible: false,
        }
    }

    /// A constraint with an extension marker.
    pub const fn new_extensible(constraint: T) -> Extensible<T>
        ensures constraint { result.constraint ≡ constraint }
        ensures extensible { result.extensible ≡ true }
    {
        Extensible {
            constraint,
            extensible: true,
        }
    }
}

/// A constraint of a type (X.680 49).
#[derive(Clone, Copy, Debug, PartialEq, Eq)]
pub enum Constraint<'list> {
    /// Bounds of a number (X.680 51.4).
    Value(Extensible<Bounded<i128>>),
    /// Bounds of the count of characters, octets, bits or elements (X.680 51.5).
    Size(Extensible<Bounded<usize>>),
    /// The characters that a string may have, as a set (X.680 51.7).
    PermittedAlphabet(Extensible<&'list [u32]>),
    /// An extension marker with no constraint. The packed encoding rules see none.
    Extensible,
}

impl<'list> Constraint<'list> {
    ghost use Rattle.rasn_constraints.specs.Constraints.{stated_value, stated_size, stated_alphabet, listed_alphabet};

    /// The bounds of a number, where it states these.
    pub fn as_value(&self) -> Option<Extensible<Bounded<i128>>>
        ensures { result ≡ stated_value self.now }
    {
        match self {
            Constraint::Value(value) => Some(*value),
            _ => None,
        }
    }

    /// The bounds of a count, where it states these.
    pub fn as_size(&self) -> Option<Extensible<Bounded<usize>>>
        ensures { result ≡ stated_size self.now }
    {
        match self {
            Constraint::Size(size) => Some(*size),
            _ => None,
        }
    }

    /// The permitted characters, where it states these.
    pub fn as_permitted_alphabet(&self) -> Option<Extensible<&'list [u32]>>
        ensures { option_map listed_alphabet result ≡ stated_alphabet self.now }
    {
        match self {
            Constraint::PermittedAlphabet(alphabet) => Some(*alphabet),
            _ => None,
        }
    }
}

/// The constraints of a type. The first of each kind is in use.
#[derive(Drop)]
pub struct Constraints<'list>(pub &'list [Constraint<'list>]);

impl<'list> Model for Constraints<'list> {
    ghost use Rattle.rasn_constraints.specs.Constraints.{Effective, effective};

    ghost Value = { Effective };

    ghost view = { λ c. effective c.0.now };
}

impl<'list> Constraints<'list> {
    ghost use Rattle.rasn_constraints.specs.Constraints.{effective, listed_alphabet};

    /// No constraint.
    pub const NONE: Constraints<'static> = Constraints(&[]);

    /// The constraints of a list.
    pub const fn new(constraints: &'list [Constraint<'list>]) -> Constraints<'list>
        ensures { result ≡ effective constraints.now }
    {
        Constraints(constraints)
    }

    /// The first value constraint, where there is one.
    #[inline(always)]
    pub fn value(&self) -> Option<Extensible<Bounded<i128>>>
        ensures { result ≡ self.now.value }
    {
        for constraint in self.0 {
            if let Some(value) = constraint.as_value() {
                return Some(value);
            }
        }
        None
    }

    /// The first size constraint, where there is one.
    pub fn size(&self) -> Option<Extensible<Bounded<usize>>>
        ensures { result ≡ self.now.size }
    {
        for constraint in self.0 {
            if let Some(size) = constraint.as_size() {
                return Some(size);
            }
        }
        None
    }

    /// The first permitted alphabet, where there is one.
    pub fn permitted_alphabet(&self) -> Option<Extensible<&'list [u32]>>
        ensures { option_map listed_alphabet result ≡ self.now.alphabet }
    {
        for constraint in self.0 {
            if let Some(alphabet) = constraint.as_permitted_alphabet() {
                return Some(alphabet);
            }
        }
        None
    }
}
