//! What encloses what is written next: a scope of which the components are counted, a list of which the values are, or
//! a SET of which the components are gathered (X.691 19, 20, 21.1, 22).

ghost use Rattle.std.specs.Prelude.{◌≡◌};
ghost use Rattle.per_pieces.specs.Turns.{awaits, counted, counts, gathered, in_list, is_between, is_complete};
ghost use Rattle.per_pieces.specs.Turns.{is_gathered, is_uncounted, uncounted};

use crate::open_sets::OpenSet;
use std::alloc::Allocator;
use std::marker::Model;
use std::mem;

/// What encloses what is written next, with what gathers components.
#[derive(Drop)]
pub enum Enclosed<T> {
    /// Nothing is counted.
    Uncounted,
    /// So many components are still to come.
    Awaiting(usize),
    /// A list is open, and so many values are still to come before it is gone on in.
    InList(usize),
    /// More came than were to come.
    Misplaced,
    /// Components are gathered.
    Gathered(T),
}

/// What encloses what is written next: a scope of which the components are counted or aren't, or the open SET whose
/// components are gathered. The SET is in a box, so that little is moved where a value is opened that others are
/// in.
#[derive(Drop)]
pub struct EnclosingSet<A: Allocator + Clone> {
    /// What it is.
    pub inner: Enclosed<Box<OpenSet<A>, A>>,
}

impl<A: Allocator + Clone> Model for EnclosingSet<A> {
    ghost use Rattle.per_pieces.specs.Turns.{Enclosing, enclosing_of};

    ghost Value = { Enclosing };

    ghost view = { λ a. enclosing_of (λ b. b.value) a.inner };
}

impl<A: Allocator + Clone> EnclosingSet<A> {
    /// Where nothing is counted. Takes no memory.
    pub fn uncounted() -> Self
        ensures { result ≡ counts uncounted }
    {
        EnclosingSet {
            inner: Enclosed::Uncounted,
        }
    }

    /// Where so many components are still to come. Takes no memory.
    pub fn awaiting(count: usize) -> Self
        ensures { result ≡ counts (awaits count) }
    {
        EnclosingSet {
            inner: Enclosed::Awaiting(count),
        }
    }

    /// In a list of which so many values are still to come before it is gone on in. Takes no memory.
    pub fn in_list(count: usize) -> Self
        ensures { result ≡ counts (in_list count) }
    {
        EnclosingSet {
            inner: Enclosed::InList(count),
        }
    }

    /// Whether nothing is counted or gathered.
    #[inline(always)]
    pub fn is_uncounted(&self) -> bool
        ensures { result ≡ is_uncounted self.now }
    {
        match &self.inner {
            Enclosed::Uncounted => true,
            _ => false,
        }
    }

    /// Whether components are gathered.
    #[inline(always)]
    pub fn is_gathered(&self) -> bool
        ensures { result ≡ is_gathered self.now }
    {
        match &self.inner {
            Enclosed::Gathered(_) => true,
            _ => false,
        }
    }

    /// Whether all components came that were counted.
    #[inline(always)]
    pub fn is_complete(&self) -> bool
        ensures { result ≡ is_complete self.now }
    {
        match &self.inner {
            Enclosed::Awaiting(left) => *left == 0,
            _ => false,
        }
    }

    /// Whether a list is open in which no value is still to come before it is gone on in.
    pub fn is_between(&self) -> bool
        ensures { result ≡ is_between self.now }
    {
        match &self.inner {
            Enclosed::InList(left) => *left == 0,
            _ => false,
        }
    }

    /// Takes out what encloses: nothing is counted from now on.
    #[inline(always)]
    pub fn take(&mut self) -> Self
        ensures value { result ≡ self.old }
        ensures after { self.new ≡ counts uncounted }
    {
        EnclosingSet {
            inner: mem::replace(&mut self.inner, Enclosed::Uncounted),
        }
    }

    /// Takes the SET out of its box: nothing is counted from now on.
    pub fn take_open(&mut self) -> Option<OpenSet<A>>
        ensures value { result ≡ gathered self.old }
        ensures after { self.new ≡ counts uncounted }
    {
        match mem::replace(&mut self.inner, Enclosed::Uncounted) {
            Enclosed::Gathered(set) => Some(Box::into_inner(set)),
            _ => None,
        }
    }

    /// Counts a component, or a value of a list, where they are counted.
    pub fn count(&mut self)
        ensures { self.new ≡ counted self.old }
    {
        self.inner = match &self.inner {
            Enclosed::Awaiting(left) => match left.checked_sub(1) {
                Some(others) => Enclosed::Awaiting(others),
                None => Enclosed::Misplaced,
            },
            Enclosed::InList(left) => match left.checked_sub(1) {
                Some(others) => Enclosed::InList(others),
                None => Enclosed::Misplaced,
            },
            _ => return,
        };
    }
}
