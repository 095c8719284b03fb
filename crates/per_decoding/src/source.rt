//! Where a decoder's bits come from, and which of them it means: places in a source, and presence bits there.

ghost use Rattle.std.specs.Prelude.{◌≡◌, ◌≤◌, ◌+◌, ◌-◌, ◌*◌, ◌%◌, ◌↔◌, true, [], length, IfSome, IsSome, IsTrue};
ghost use Rattle.std.specs.Prelude.{IfOk, slice_get};
ghost use Rattle.std.specs.Cow.{cow_slice_items, IsBorrowedSlice};
ghost use Rattle.rasn_types.specs.Bits.{Bits};
ghost use Rattle.per_bits.specs.Octets.{AreWholeOctets};
ghost use Rattle.per_core.specs.AdditionFaults.{NextFlag, extension_of, shown};
ghost use Rattle.per_decoding.specs.Sources.{bits_of, extension_in, flags_in, place_of, span_of};
ghost use Rattle.per_decoding.specs.Sources.{AreInInput, AreOctetsIn, AreOctetsOf, IsWithin};

use per_bits::BitReader;
use per_read::bitmaps::{Bitmap, next_flag};
use rasn_types::bit_string::{BitString, note_octets};
use std::alloc::{AllocError, Global};
use std::borrow::CowSlice;

/// Where the bits come from that a decoder reads.
#[derive(Drop)]
pub enum Source<'input> {
    /// The input's own, of which octets can be lent.
    Input(BitReader<'input>),
    /// Octets that were gathered from fragments (X.691 11.9.3.8), which the decoder owns.
    Gathered(Vec<u8>),
}

impl<'input> Source<'input> {
    /// All its bits.
    #[inline(always)]
    pub fn bits(&self) -> BitReader<'_>
        ensures bits { result.bits ≡ bits_of self.now }
        ensures place { result.place ≡ place_of self.now }
    {
        let octets = match self {
            Source::Input(bits) => return bits.clone().unwrap(),
            Source::Gathered(octets) => octets.as_slice(),
        };
        BitReader::from_octets(octets)
    }

    /// The last `count` octets in front of a place: those of the input, at least one, are lent, and others are copied.
    /// The only error is want of memory.
    #[inline(always)]
    pub fn octets_before(
        &self,
        alloc: Global,
        place: u128,
        count: usize,
    ) -> Result<CowSlice<'input, u8>, AllocError>
        requires there { 8 * count ≤ place }
        requires within { place ≤ length (bits_of self.now) }
        ensures octets { IfOk result (λ x. AreOctetsOf (bits_of self.now) place count (cow_slice_items x)) }
        ensures lent { IfOk result (λ x. IsBorrowedSlice x ↔ AreInInput self.now place count) }
    {
        let width = 8 * count as u128;
        let octets = match self {
            Source::Input(input) => return octets_of(alloc, input.part(place - width, width)),
            Source::Gathered(octets) => octets.as_slice(),
        };
        let bits = BitReader::from_octets(octets).part(place - width, width);
        Ok(CowSlice::Owned(copy_of(alloc, &bits)?))
    }
}

/// The octets that bits fill: where these begin with an octet, and are some, they are lent, and else copied. The only
/// error is want of memory.
#[inline(always)]
fn octets_of<'input>(
    alloc: Global,
    bits: BitReader<'input>,
) -> Result<CowSlice<'input, u8>, AllocError>
    requires { length bits.bits % 8 ≡ 0 }
    ensures octets { IfOk result (λ x. AreOctetsIn bits.entry.bits (cow_slice_items x)) }
    ensures lent { IfOk result (λ x. IsBorrowedSlice x ↔ ((bits.entry.bits ≡ [] → ⊥) × AreWholeOctets bits.entry)) }
{
    if bits.is_empty() {
        return Ok(CowSlice::Owned(Vec::new(alloc)));
    }
    let Some(octets) = bits.aligned_octets() else {
        return Ok(CowSlice::Owned(copy_of(alloc, &bits)?));
    };
    note_octets(octets);
    Ok(CowSlice::Borrowed(octets))
}

/// A copy of the octets that bits fill. The only error is want of memory.
fn copy_of(alloc: Global, bits: &BitReader<'_>) -> Result<Vec<u8>, AllocError>
    requires { length bits.now.bits % 8 ≡ 0 }
    ensures { IfOk result (λ copy. AreOctetsIn bits.now.bits copy.items) }
{
    let mut copy = Vec::new(alloc);
    bits.append_octets(&mut copy)?;
    note_octets(copy.as_slice());
    Ok(copy)
}

/// Bits of a source: those from a place on, in front of another.
#[derive(Clone, Copy, Debug)]
pub struct Span {
    /// The place of its first bit.
    pub begin: u128,
    /// The place after its last bit.
    pub end: u128,
}

impl Span {
    /// How many bits it has in a source that is long enough.
    pub fn len(self) -> u128
        ensures { result ≡ self.end - self.begin }
    {
        self.end.saturating_sub(self.begin)
    }

    /// Whether it has none, whichever the source.
    pub fn is_empty(self) -> bool
        ensures { IsTrue result → (source : Bits) → span_of self source ≡ [] }
    {
        self.end <= self.begin
    }

    /// The bits after the first `count` of them.
    pub fn behind(self, count: u128) -> Span
        requires { count ≤ self.end - self.begin }
        ensures { result ≡ record self { begin = self.begin + count } }
    {
        Span {
            begin: self.begin + count,
            end: self.end,
        }
    }

    /// A span of no bits.
    pub fn empty() -> Span
        ensures { result ≡ record { begin = 0; end = 0 } }
    {
        Span { begin: 0, end: 0 }
    }

    /// Of those in front of the last `left` of them, the last `count`.
    pub fn in_front(self, left: u128, count: u128) -> Span
        requires { left + count ≤ self.end - self.begin }
        ensures { result ≡ record { begin = self.end - left - count; end = self.end - left } }
    {
        let end = self.end - left;
        Span {
            begin: end - count,
            end,
        }
    }

    /// A span of these bits of a source that lies within the source, whether this one does or not.
    pub fn within(self, source: &BitReader<'_>) -> Span
        ensures same { span_of result source.now.bits ≡ span_of self source.now.bits }
        ensures there { IsWithin result source.now.bits }
        ensures behind { length source.now.bits - result.end ≡ length source.now.bits - self.end }
    {
        let end = self.end.min(source.len());
        Span {
            begin: self.begin.min(end),
            end,
        }
    }

    /// The next of these bits of a source, which is then no longer one of them.
    pub fn next_bit(&mut self, source: BitReader<'_>) -> Option<bool>
        ensures { NextFlag (span_of self.old source.entry.bits) result (span_of self.new source.entry.bits) }
    {
        let bit = self.first_of(&source)?;
        *self = self.behind(1);
        Some(bit)
    }

    /// The first of these bits of a source, where one is there.
    pub fn first_of(self, source: &BitReader<'_>) -> Option<bool>
        ensures { result ≡ slice_get (span_of self source.now.bits) 0 }
    {
        if self.end <= self.begin || source.len() <= self.begin {
            return None;
        }
        Some(source.part(self.begin, 1).first_bit() == 1)
    }

    /// These bits of a source, as far as they are there.
    pub fn part_of<'source>(self, source: BitReader<'source>) -> BitReader<'source>
        ensures { result.bits ≡ span_of self source.entry.bits }
    {
        let begin = self.begin.min(source.len());
        let count = self.len().min(source.len() - begin);
        source.part(begin, count)
    }

    /// These bits of a source, which has all of them.
    pub fn all_of<'source>(self, source: BitReader<'source>) -> BitReader<'source>
        requires { IsWithin self source.bits }
        ensures bits { result.bits ≡ span_of self source.entry.bits }
        ensures place { result.place ≡ (source.entry.place + self.begin) % 8 }
    {
        source.part(self.begin, self.end - self.begin)
    }
}

/// Presence bits of additions that are still to be read (X.691 19.7), where they stand.
#[derive(Drop)]
pub enum Flags {
    /// In the source.
    InPlace(Span),
    /// Those of a bitmap in fragments, one after another, and how many of them were read.
    Gathered(BitString, usize),
}

impl Flags {
    /// The next of them, where they are in a source, which is then no longer one of them.
    pub fn next(&mut self, source: BitReader<'_>) -> Option<bool>
        ensures { NextFlag (flags_in source.entry.bits self.old) result (flags_in source.entry.bits self.new) }
    {
        match self {
            Flags::InPlace(span) => span.next_bit(source),
            Flags::Gathered(bits, read) => next_flag(bits, read),
        }
    }

    /// All of them that are left, in their order, where they are in a source.
    pub fn into_bitmap<'source>(self, source: BitReader<'source>) -> Bitmap<'source>
        ensures { result ≡ flags_in source.entry.bits self }
    {
        match self {
            Flags::InPlace(span) => Bitmap::in_place(span.part_of(source)),
            Flags::Gathered(bits, read) => Bitmap::gathered(bits, read),
        }
    }
}

/// What is still to be read of the bitmap of the open SEQUENCE's additions (X.691 19.7). The presence bits that are
/// left are no `Flags` here, which would make it larger.
#[derive(Drop)]
pub enum Extension {
    /// All of it: it is after the root components.
    Ahead,
    /// The presence bits that are left, in the source.
    InPlace(Span),
    /// Those of a bitmap in fragments, one after another, and how many of them were read.
    Gathered(BitString, usize),
}

impl Extension {
    /// What an extension bit says of it (X.691 19.1).
    pub fn of_bit(extends: bool) -> Self
        ensures { (source : Bits) → extension_in source result ≡ extension_of extends }
    {
        if extends {
            return Extension::Ahead;
        }
        Extension::InPlace(Span::empty())
    }

    /// These presence bits are left of it.
    pub fn of_flags(flags: Flags) -> Self
        ensures { (source : Bits) → extension_in source result ≡ shown (flags_in source flags) }
    {
        match flags {
            Flags::InPlace(span) => Extension::InPlace(span),
            Flags::Gathered(bits, read) => Extension::Gathered(bits, read),
        }
    }

    /// Whether surely nothing of it is left, whichever the source.
    pub fn is_over(&self) -> bool
        ensures { IsTrue result → (source : Bits) → extension_in source self.now ≡ shown [] }
    {
        match self {
            Extension::InPlace(span) => span.is_empty(),
            Extension::Ahead | Extension::Gathered(..) => false,
        }
    }
}
