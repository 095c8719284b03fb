//! Whole numbers of an INTEGER, and what is in front of them (X.691 11.5, 11.6, 13 and 14.3).

ghost use Rattle.std.specs.Prelude.{◌≡◌, ◌≤◌, ◌≤ℤ◌, ◌+◌, ◌||◌, not, true, false, None, Some, OnOk, IfOk, is_ok};
ghost use Rattle.rasn_types.specs.Variants.{variant_of};
ghost use Rattle.rasn_types.specs.Bits.{signed_octets};
ghost use Rattle.rasn_constraints.specs.Bounds.{holds, not_above, not_below};
ghost use Rattle.per_core.specs.Canon.{extension_bit};
ghost use Rattle.per_core.specs.Counts.{constrained_whole, number_under, small};
ghost use Rattle.per_write.specs.Faults.{IsMemory};
ghost use Rattle.per_write.specs.Numbers.{unconstrained_whole};
ghost use Rattle.per_write.specs.WriterState.{Puts, PutsIn, StateAppends};

use crate::Writer;
use crate::error::EncodeError;
use per_bits::BitList;
use per_pieces::numbers::{push_above, push_constrained_whole, push_unconstrained_whole};
use per_pieces::small_numbers::push_small;
use rasn_schema::schema::IntegerType;
use std::alloc::{AllocError, Allocator};

impl<A: Allocator + Clone> Writer<A> {
    /// Writes an INTEGER as if it had no constraint: its fewest octets in two's complement after an unconstrained
    /// length (X.691 13.2.4). Memory for the octets themselves is taken only where an `i128` doesn't hold the number.
    #[inline(always)]
    pub fn put_unconstrained_whole<I: IntegerType>(&mut self, value: &I) -> Result<(), EncodeError>
        requires { self.old.failed ≡ false }
        ensures { PutsIn IsMemory (λ a. unconstrained_whole a I.range (I.number value.now)) self.old result self.new }
    {
        let Some(number) = value.to_i128() else {
            let octets = number_octets(self.pieces.bits(), value);
            let octets = self.unless_out_of_memory(octets)?;
            return self.put_octets(&octets);
        };
        let pushed = push_unconstrained_whole(&mut self.pieces, self.codec, number);
        self.unless_out_of_memory(pushed)
    }

    /// Writes a number of an `i128` that is within bounds (X.691 13.2).
    #[inline(always)]
    pub fn put_number(
        &mut self,
        lower: Option<i128>,
        upper: Option<i128>,
        number: i128,
    ) -> Result<(), EncodeError>
        requires begun { self.old.failed ≡ false }
        requires lower { not_below lower number ≡ true }
        requires upper { not_above upper number ≡ true }
        ensures { PutsIn IsMemory (λ a. number_under a lower upper number) self.old result self.new }
    {
        match lower {
            Some(lower) => {
                let pushed = push_above(&mut self.pieces, self.codec, lower, upper, number);
                self.unless_out_of_memory(pushed)
            }
            None => self.put_unconstrained_whole(&number),
        }
    }

    /// Writes a number that is within two bounds, as `put_number` does. Answers whether memory sufficed; else the
    /// writer has failed. No error is made, and so none needs room.
    #[inline(always)]
    pub fn put_between(&mut self, lower: i128, upper: i128, number: i128) -> bool
        requires begun { self.old.failed ≡ false }
        requires lower { lower ≤ℤ number }
        requires upper { number ≤ℤ upper }
        ensures put { result ≡ true → StateAppends self.old
            (number_under (variant_of self.old.codec) (Some lower) (Some upper) number) self.new }
        ensures fails { result ≡ false → self.new.failed ≡ true }
        ensures kept { self.new.codec ≡ self.old.codec }
    {
        let pushed = push_above(&mut self.pieces, self.codec, lower, Some(upper), number);
        self.suffices(pushed)
    }

    /// Writes a number of an `i128` without bounds, as `put_unconstrained_whole` does. Answers whether memory sufficed;
    /// else the writer has failed. No error is made, and so none needs room.
    #[inline(always)]
    #[tactic(auto, unfolding(per_core::specs::Counts::number_under))]
    pub fn put_short_whole(&mut self, number: i128) -> bool
        requires { self.old.failed ≡ false }
        ensures put { result ≡ true → StateAppends self.old
            (number_under (variant_of self.old.codec) None None number) self.new }
        ensures fails { result ≡ false → self.new.failed ≡ true }
        ensures kept { self.new.codec ≡ self.old.codec }
    {
        let pushed = push_unconstrained_whole(&mut self.pieces, self.codec, number);
        self.suffices(pushed)
    }

    /// Whether memory sufficed for what was to be written; else the writer has failed.
    #[inline(always)]
    fn suffices(&mut self, pushed: Result<(), AllocError>) -> bool
        requires { self.old.failed ≡ false }
        ensures is { result ≡ is_ok pushed }
        ensures kept { result ≡ true → self.new ≡ self.old }
        ensures fails { result ≡ false → self.new ≡ record self.old { failed = true } }
    {
        self.failed = pushed.is_err();
        pushed.is_ok()
    }

    /// Writes the extension bit of a type with an extension marker, whether what follows is after the marker (X.691
    /// 14.3); of another type nothing.
    #[inline(always)]
    pub fn put_extension_bit(&mut self, extensible: bool, extended: bool) -> Result<(), EncodeError>
        requires begun { self.old.failed ≡ false }
        requires marked { (extensible || not extended) ≡ true }
        ensures { Puts IsMemory (extension_bit extensible extended) self.old result self.new }
    {
        if !extensible {
            return Ok(());
        }
        self.put_bit(extended)?;
        Ok(())
    }

    /// Writes a normally small number (X.691 11.6).
    pub fn put_small(&mut self, number: usize) -> Result<(), EncodeError>
        requires { self.old.failed ≡ false }
        ensures { PutsIn IsMemory (λ a. small a number) self.old result self.new }
    {
        let pushed = push_small(&mut self.pieces, self.codec, number);
        self.unless_out_of_memory(pushed)?;
        Ok(())
    }

    /// Writes one of the numbers from 0 to `greatest`, a constrained whole number (X.691 11.5).
    #[inline(always)]
    pub fn put_constrained_whole(&mut self, greatest: u128, offset: u128) -> Result<(), EncodeError>
        requires begun { self.old.failed ≡ false }
        requires within { offset ≤ greatest }
        ensures { PutsIn IsMemory (λ a. constrained_whole a (greatest + 1) offset) self.old result self.new }
    {
        let pushed = push_constrained_whole(&mut self.pieces, self.codec, greatest, offset);
        self.unless_out_of_memory(pushed)?;
        Ok(())
    }
}

/// The fewest octets of a number in two's complement, in memory of the bits' allocator.
pub fn number_octets<A: Allocator + Clone, I: IntegerType>(
    bits: &BitList<A>,
    number: &I,
) -> Result<Vec<u8, A>, AllocError>
    ensures octets { IfOk result (λ octets. octets.items ≡ signed_octets (I.number number.now)) }
    ensures held { OnOk result (holds I.range (I.number number.now) ≡ true) }
{
    number.to_signed_bytes_be(bits.allocator().clone()?)
}
