//! SEQUENCE OF, whose elements are read one after another from outside (X.691 20).

ghost use Rattle.std.specs.Prelude.{◌≡◌, ◌⊎◌, true, false, Ok, OnOk, IsTrue};
ghost use Rattle.rasn_constraints.specs.Constraints.{size_between};
ghost use Rattle.rasn_schema.specs.Forms.{is_size_marked, size_of};
ghost use Rattle.per_read.specs.Lists.{BeginsFragment, OpensList, ReadsNext};
ghost use Rattle.per_read.specs.ReaderState.{ReaderState};

use crate::Reader;
use crate::error::DecodeErrorKind;
use crate::sizes::{check_size, constrained_size};
use rasn_schema::constraints::{Bounded, Constraints, Extensible};

/// What is left of an open list.
#[derive(Drop)]
pub struct UnreadElements {
    // What the count of all elements has to meet: no bound after an extension bit 1.
    size: Bounded<usize>,
    // How many elements were read.
    count: usize,
    // How many more are after the lengths that were read.
    left: usize,
    // Whether a further length is after these.
    more: bool,
}

impl UnreadElements {
    /// Goes on to the next element where it is after a length that was read, as `Reader::next_element` does, which
    /// then takes no bits. Else nothing changes: no more are after such a length, or more than can be counted.
    #[inline(always)]
    pub fn go_on(&mut self) -> bool
        ensures goes { IsTrue result → (reader : ReaderState) → ReadsNext self.old reader (Ok true) self.new reader }
        ensures stays { result ≡ false → self.new ≡ self.old }
        ensures none { result ≡ false → (self.old.left ≡ 0) ⊎ (self.old.count ≡ usize.MAX) }
    {
        let (Some(left), Some(count)) = (self.left.checked_sub(1), self.count.checked_add(1)) else {
            return false;
        };
        self.left = left;
        self.count = count;
        true
    }
}

impl Reader<'_> {
    /// Opens a SEQUENCE OF under the first size constraint (X.691 20): takes its extension bit, and a count from a
    /// lower to an upper bound. An unconstrained length is taken in front of the elements that it counts. Takes no
    /// memory.
    pub fn open_list(
        &mut self,
        constraints: &Constraints,
    ) -> Result<UnreadElements, DecodeErrorKind>
        ensures { OpensList (size_of constraints.now) (is_size_marked constraints.now) self.old result self.new }
    {
        match constraints.size() {
            Some(size) => self.open_extensible_list(size),
            None => self.open_sized_list(Bounded::None),
        }
    }

    /// Goes on to the next element of an open list, where there is one, which is to be read from here on: takes the
    /// length of the next fragment, where one begins (X.691 11.9.3.8). After the last it answers `false`, or refuses
    /// a count that the size doesn't allow. Takes no memory.
    pub fn next_element(&mut self, list: &mut UnreadElements) -> Result<bool, DecodeErrorKind>
        ensures { ReadsNext list.old self.old result list.new self.new }
    {
        self.begin_fragment(list)?;
        let Some(left) = list.left.checked_sub(1) else {
            check_size(&list.size, list.count)?;
            return Ok(false);
        };
        let Some(count) = list.count.checked_add(1) else {
            return Err(DecodeErrorKind::ExceedsMaxLength);
        };
        list.left = left;
        list.count = count;
        Ok(true)
    }

    /// Opens a list under a size constraint. Where that has an extension marker, one bit comes first: 0 and the
    /// elements under the size, or 1 and the elements without (X.691 20.4).
    fn open_extensible_list(
        &mut self,
        size: Extensible<Bounded<usize>>,
    ) -> Result<UnreadElements, DecodeErrorKind>
        ensures { OpensList (size_between size.constraint) size.extensible self.old result self.new }
    {
        if !size.extensible {
            return self.open_sized_list(size.constraint);
        }
        if self.take_bit()? {
            return self.open_sized_list(Bounded::None);
        }
        self.open_sized_list(size.constraint)
    }

    /// Opens a list whose count a size has to allow (X.691 11.9.3.3, 11.9.4.1).
    fn open_sized_list(&mut self, size: Bounded<usize>) -> Result<UnreadElements, DecodeErrorKind>
        ensures { OpensList (size_between size) false self.old result self.new }
    {
        let Some((lower, upper)) = constrained_size(&size) else {
            return Ok(UnreadElements {
                size,
                count: 0,
                left: 0,
                more: true,
            });
        };
        let left = self.take_constrained_count(lower, upper)?;
        Ok(UnreadElements {
            size,
            count: 0,
            left,
            more: false,
        })
    }

    /// Takes the length of the next fragment, where one begins here.
    fn begin_fragment(&mut self, list: &mut UnreadElements) -> Result<(), DecodeErrorKind>
        ensures { BeginsFragment list.old self.old result list.new self.new }
    {
        if list.left > 0 || !list.more {
            return Ok(());
        }
        let length = self.take_unconstrained_length()?;
        list.left = length.count() as usize;
        list.more = length.is_followed();
        Ok(())
    }
}
