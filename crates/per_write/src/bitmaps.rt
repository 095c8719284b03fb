//! The bitmap of a SEQUENCE's additions (X.691 19.7, 19.8).

ghost use Rattle.std.specs.Prelude.{◌≡◌, ◌<◌, ◌≤◌, ◌^◌, length, true, false};
ghost use Rattle.rasn_types.specs.Bits.{to_bits};
ghost use Rattle.per_core.specs.Canon.{bitmap};
ghost use Rattle.per_write.specs.Faults.{IsMemory};
ghost use Rattle.per_write.specs.WriterState.{PutsIn};

use crate::Writer;
use crate::error::EncodeError;
use crate::flags::{GatheredFlags, Held};
use crate::items::Flags;
use per_bits::BitList;
use std::alloc::Allocator;

impl<A: Allocator + Clone> Writer<A> {
    /// Writes which additions are there, after their count (X.691 19.7, 19.8, 11.9.3.4).
    #[inline(always)]
    pub(crate) fn put_bitmap(
        &mut self,
        flags: &GatheredFlags<A>,
        count: usize,
    ) -> Result<(), EncodeError>
        requires begun { self.old.failed ≡ false }
        requires counted { length flags.now ≡ count }
        ensures { PutsIn IsMemory (λ a. bitmap a flags.now) self.old result self.new }
    {
        match &flags.held {
            Held::Word(word, width) => self.put_small_bitmap(*word, *width),
            Held::List(list) => self.put_large_bitmap(list, count),
        }
    }

    /// Writes up to 64 bits as a bitmap: the low `count` ones of a word, highest first. They and what is in front
    /// of them, a zero and the count less one in six bits, are one number.
    #[inline(always)]
    fn put_small_bitmap(&mut self, word: u64, count: u32) -> Result<(), EncodeError>
        requires begun { self.old.failed ≡ false }
        requires few { count ≤ 64 }
        requires fits { word < 2 ^ count }
        ensures { PutsIn IsMemory (λ a. bitmap a (to_bits count word)) self.old result self.new }
    {
        let front = u128::from(count.saturating_sub(1));
        self.put_bits(front << count | u128::from(word), 7 + u128::from(count))
    }

    /// Writes more than 64 bits as a bitmap.
    #[inline(never)]
    fn put_large_bitmap(&mut self, bits: &BitList<A>, count: usize) -> Result<(), EncodeError>
        requires begun { self.old.failed ≡ false }
        requires counted { length bits.now ≡ count }
        requires many { 64 < count }
        ensures { PutsIn IsMemory (λ a. bitmap a bits.now) self.old result self.new }
    {
        self.put_bit(true)?;
        self.put_unconstrained_items(&Flags { bits, count })
    }
}
