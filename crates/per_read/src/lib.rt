//! What the packed encoding rules read, bit by bit (ITU-T X.691): whole numbers, lengths, counted strings, what is
//! between the elements of a list and what is after an extension marker, in every form that a basic decoder takes,
//! off the front of the bits left.
#![tactic(auto)]

ghost use Rattle.std.specs.Prelude.{◌≡◌, ◌≤◌};
ghost use Rattle.per_core.specs.Basic.{Octets, bit};
ghost use Rattle.per_core.specs.Spellings.{BitField};
ghost use Rattle.per_core.specs.BitFieldFaults.{IsOfUnconstrained};
ghost use Rattle.per_read.specs.Takes.{Front, Takes, itself, lacking, memory_or};

pub mod addition_laws;
mod ahead;
mod alphabet;
pub mod bitmaps;
pub mod error;
mod in_place;
mod items;
pub mod lengths;
pub mod lists;
pub mod numbers;
pub mod octet_fields;
pub mod open_types;
mod short_octets;
pub mod shortages;
mod sizes;
pub mod small_numbers;
mod strings;

use error::{DecodeErrorKind, missing};
use per_bits::BitReader;
use rasn_types::types::Codec;
use std::alloc::Global;
use std::marker::Model;

/// What a reader is told.
#[derive(Clone, Copy, Debug)]
pub struct ReaderOptions {
    /// The variant of the rules (X.691 7).
    pub codec: Codec,
    /// Whether padding must be zero. Else it may be any bits.
    pub zero_padding: bool,
}

/// Takes numbers, lengths and strings, one after another, off the front of bits. After an error it has taken some of
/// them, and is of no further use.
#[derive(Clone, Drop)]
pub struct Reader<'input> {
    bits: BitReader<'input>,
    options: ReaderOptions,
    alloc: Global,
}

impl<'input> Model for Reader<'input> {
    ghost use Rattle.per_read.specs.ReaderState.{ReaderState};

    ghost Value = { ReaderState };

    ghost view = { λ r. record { bits = r.bits.bits; options = r.options } };
}

impl<'input> Reader<'input> {
    /// A reader of bits. What it answers is kept in memory of `alloc`.
    pub fn new(alloc: Global, bits: BitReader<'input>, options: ReaderOptions) -> Self
        ensures { result ≡ record { bits = bits.entry.bits; options = options } }
    {
        Reader {
            bits,
            options,
            alloc,
        }
    }

    /// The bits that are left.
    pub fn bits(&self) -> BitReader<'input>
        ensures { result.bits ≡ self.now.bits }
    {
        self.bits.clone().unwrap()
    }

    /// How it reads: the variant in use, and whether padding has to be zero.
    pub fn options(&self) -> ReaderOptions
        ensures { result ≡ self.now.options }
    {
        self.options
    }

    /// The variant in use.
    pub fn codec(&self) -> Codec
        ensures { result ≡ self.now.options.codec }
    {
        self.options.codec
    }

    /// Where the memory of its answers is from.
    pub fn alloc(&self) -> Global {
        self.alloc
    }

    /// Takes a bit.
    #[inline(always)]
    pub fn take_bit(&mut self) -> Result<bool, DecodeErrorKind>
        ensures { Takes (lacking 1) (λ a. bit) itself self.old result self.new }
    {
        Ok(self.take_bits(1)? == 1)
    }

    /// Takes so many bits, as a reader of their own. Takes no memory.
    #[inline(always)]
    pub fn take_front(&mut self, count: u128) -> Result<BitReader<'input>, DecodeErrorKind>
        ensures { Takes (lacking count) (λ a. Front count) (λ P front. P front.bits) self.old result
            self.new }
    {
        self.bits.take(count).map_err(missing)
    }

    /// Takes the next `width` bits, highest first: the number that they mean (X.691 11.3).
    #[inline(always)]
    pub fn take_bits(&mut self, width: u128) -> Result<u128, DecodeErrorKind>
        requires { width ≤ 128 }
        ensures { Takes (lacking width) (λ a. BitField width) itself self.old result self.new }
    {
        let front = self.bits.take(width).map_err(missing)?;
        Ok(front.first_bits(width))
    }

    /// Takes octets after an unconstrained length (X.691 11.9.3.5 to 11.9.3.8).
    pub fn take_octets(&mut self) -> Result<Vec<u8>, DecodeErrorKind>
        ensures { Takes (memory_or (λ a. IsOfUnconstrained a 8)) Octets (λ P octets. P octets.items) self.old result
            self.new }
    {
        let mut octets = Vec::new(self.alloc);
        self.take_unconstrained_items(&mut octets)?;
        Ok(octets)
    }
}
