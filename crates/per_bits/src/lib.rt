//! Bits as the packed encoding rules write and read them (ITU-T X.691, section 11): a list that grows at its end,
//! and a reader that takes from the front; complete encodings as octets (`per`), and the test of how one ends
//! (`ended`).
//! Every count, width and index is in bits, but for the length of a slice or `Vec` of octets. A contract speaks of the
//! bits alone, as a list of truth values, and not of how they are kept: eight to an octet, the first highest.
#![tactic(auto)]

ghost use Rattle.std.specs.Prelude.{◌≡◌, ◌+◌, ◌-◌, ◌*◌, ◌/◌, ◌%◌, ◌^◌, ◌<◌, ◌≤◌, List, [], ◌∷◌, ◌++◌, Bool};
ghost use Rattle.std.specs.Prelude.{length, take, drop, set, slice_get, vec_len, vec_capacity, OnOk, OnErr, IfOk};
ghost use Rattle.std.specs.Prelude.{IfErr, IfSome, IsSome, IsTrue, MatchOption, ◌↔◌, ⊤, replicate, false};
ghost use Rattle.rasn_types.specs.Bits.{to_bits, number_of, unpack};
ghost use Rattle.rasn_types.specs.Packed.{packed};
ghost use Rattle.per_bits.specs.Octets.{filled, low_bits_of, AreFilledBy, ArePadded, AreWholeOctets};

use crate::bit_fields::{
    FIELD_BITS, append_field, append_low_bits, append_octets_after, copy_octets, cut_back,
    field_of, fill_last_octet, put_bit, put_field, put_number, read_field, read_front,
    read_wide_field, spread_octets, with_bit, with_room,
};
use rasn_types::bit_string::note_octets;
use std::alloc::{AllocError, Allocator};
use std::marker::Model;

mod bit_fields;
pub mod ended;
pub mod per;

/// Bits in the order in which they are written.
#[derive(Drop)]
pub struct BitList<A: Allocator> {
    octets: Vec<u8, A>,
    /// How many bits at the end of the octets are no bits of the list: zeros, in whose place later bits are put. It
    /// takes a whole word: were half a word written, to move it with what is beside it would wait for that.
    spare: u64,
}

impl<A: Allocator> Model for BitList<A> {
    ghost use Rattle.std.specs.Prelude.{List, Bool};
    ghost use Rattle.per_bits.specs.Octets.{filled, AreKept};

    ghost Value = { List Bool };

    ghost view = { λ a. filled a.spare a.octets.items };

    ghost invariant = { λ a. AreKept a.spare a.octets.items };
}

impl<A: Allocator> BitList<A> {
    /// A list of no bits, which takes no memory.
    #[inline(always)]
    pub fn new(alloc: A) -> Self
        ensures { result ≡ [] }
    {
        BitList {
            octets: Vec::new(alloc),
            spare: 0,
        }
    }

    /// A list of no bits in the memory of octets, which are removed.
    #[inline(always)]
    pub fn from_memory(mut octets: Vec<u8, A>) -> Self
        ensures { result ≡ [] }
    {
        octets.clear();
        BitList { octets, spare: 0 }
    }

    /// The bits of the octets, the highest of each octet first. The only error is want of memory.
    pub fn from_octets(alloc: A, octets: &[u8]) -> Result<Self, AllocError>
        ensures { IfOk result (λ list. list ≡ unpack octets.now) }
    {
        let mut list = BitList::new(alloc);
        list.push_octets(octets)?;
        Ok(list)
    }

    /// The bits of octets, the highest of each octet first, in the octets' own memory.
    pub fn from_whole_octets(octets: Vec<u8, A>) -> Self
        ensures { result ≡ unpack octets.items }
    {
        BitList { octets, spare: 0 }
    }

    /// The allocator that the memory comes from.
    pub fn allocator(&self) -> &A {
        self.octets.allocator()
    }

    /// How many bits there are.
    #[inline(always)]
    pub fn len(&self) -> u128
        ensures { result ≡ length self.now }
    {
        8 * self.octets.len() as u128 - u128::from(self.spare)
    }

    /// Whether there is no bit.
    pub fn is_empty(&self) -> bool
        ensures { IsTrue result ↔ (self.now ≡ []) }
    {
        self.len() == 0
    }

    /// The bits in the fewest octets, the first bit highest. Spare bits of the last octet are zero.
    pub fn as_octets(&self) -> &[u8]
        ensures octets { result.now ≡ packed self.now }
        ensures bits { take (length self.now) (unpack result.now) ≡ self.now }
    {
        let octets = &self.octets[..self.octets.len() - (self.spare / 8) as usize];
        note_octets(octets);
        octets
    }

    /// The bits in the fewest octets, as `as_octets` gives them, in the list's own memory.
    #[inline(always)]
    pub fn into_octets(self) -> Vec<u8, A>
        ensures { result.items ≡ packed self }
    {
        let BitList { mut octets, spare } = self;
        cut_back(&mut octets, spare);
        note_octets(octets.as_slice());
        octets
    }

    /// The bit at an index, the first at 0; `None` from the list's length on.
    pub fn get(&self, index: u128) -> Option<bool>
        ensures { result ≡ slice_get self.now index }
    {
        if index < self.len() {
            let octet = self.octets[(index / 8) as usize];
            Some(octet >> (7 - index % 8) & 1 == 1)
        } else {
            None
        }
    }

    /// Sets the bit at an index, the first at 0; from the list's length on there is none. Every other bit stays, and no
    /// memory is taken.
    #[inline(always)]
    pub fn set(&mut self, index: u128, bit: bool)
        ensures { self.new ≡ set self.old index bit }
    {
        if index < self.len() {
            let octet = (index / 8) as usize;
            self.octets[octet] = with_bit(self.octets[octet], (index % 8) as u32, bit);
        }
    }

    /// Appends a bit. The only error is want of memory, and then the list is as it was.
    #[inline(always)]
    pub fn push(&mut self, bit: bool) -> Result<(), AllocError>
        ensures ok { OnOk result (self.new ≡ self.old ++ bit ∷ []) }
        ensures err { OnErr result (self.new ≡ self.old) }
    {
        let spare = with_room(&mut self.octets, self.spare)?;
        put_bit(&mut self.octets, spare, bit);
        self.spare = (spare - 1) as u64;
        Ok(())
    }

    /// Appends the low `width` bits of `value`, highest first: a non-negative-binary-integer (ITU-T X.691, 11.3) where
    /// the value fits. The only error is want of memory, and then the list is as it was.
    #[inline(always)]
    pub fn push_bits(&mut self, value: u128, width: u128) -> Result<(), AllocError>
        requires { width ≤ 128 }
        ensures ok { OnOk result (self.new ≡ self.old ++ to_bits width value) }
        ensures err { OnErr result (self.new ≡ self.old) }
    {
        let spare = with_room(&mut self.octets, self.spare)?;
        put_number(&mut self.octets, spare, value, width as u32);
        self.spare = (spare - width as u32) as u64;
        Ok(())
    }

    /// Appends the low `width` bits of a word, at most the 56 of a field, highest first. The only error is want of
    /// memory, and then the list is as it was.
    #[inline(always)]
    pub fn push_field(&mut self, value: u64, width: u32) -> Result<(), AllocError>
        requires { width ≤ FIELD_BITS }
        ensures ok { OnOk result (self.new ≡ self.old ++ to_bits width value) }
        ensures err { OnErr result (self.new ≡ self.old) }
    {
        let spare = with_room(&mut self.octets, self.spare)?;
        put_field(&mut self.octets, spare, value, width);
        self.spare = (spare - width) as u64;
        Ok(())
    }

    /// Appends zero bits, which take the place of spare ones. The only error is want of memory, and then the list is as
    /// it was.
    #[inline(always)]
    pub fn push_zeros(&mut self, count: u32) -> Result<(), AllocError>
        requires { count ≤ 128 }
        ensures ok { OnOk result (self.new ≡ self.old ++ replicate count false) }
        ensures err { OnErr result (self.new ≡ self.old) }
    {
        let spare = with_room(&mut self.octets, self.spare)?;
        self.spare = (spare - count) as u64;
        Ok(())
    }

    /// Appends the bits of the octets, the highest of each octet first. The only error is want of memory, and then
    /// the list is as it was.
    pub fn push_octets(&mut self, octets: &[u8]) -> Result<(), AllocError>
        ensures ok { OnOk result (self.new ≡ self.old ++ unpack octets.now) }
        ensures err { OnErr result (self.new ≡ self.old) }
    {
        if octets.len() <= 7 {
            let field = field_of(octets, 8);
            return self.push_field(field, 8 * octets.len() as u32);
        }
        self.push_reader(&BitReader::from_octets(octets))
    }

    /// Appends the low `width` bits of each octet, highest first. The only error is want of memory, and then the list
    /// is as it was.
    pub fn push_low_bits(&mut self, octets: &[u8], width: u32) -> Result<(), AllocError>
        requires { width ≤ 8 }
        ensures ok { OnOk result (self.new ≡ self.old ++ low_bits_of width octets.now) }
        ensures err { OnErr result (self.new ≡ self.old) }
    {
        if width == 8 {
            return self.push_octets(octets);
        }
        // an octet for bits that stood there, and the word that is written before it is cut back
        self.octets.reserve(octets.len() + 9)?;
        let spare = cut_back(&mut self.octets, self.spare);
        self.spare = append_low_bits(&mut self.octets, spare, octets, width) as u64;
        Ok(())
    }

    /// Appends the bits that a reader has left. The only error is want of memory, and then the list is as it was.
    pub fn push_reader(&mut self, reader: &BitReader<'_>) -> Result<(), AllocError>
        ensures ok { OnOk result (self.new ≡ self.old ++ reader.now.bits) }
        ensures err { OnErr result (self.new ≡ self.old) }
    {
        let width = reader.len();
        if width <= u128::from(FIELD_BITS) {
            return self.push_bits(reader.first_bits(width), width);
        }
        self.octets.reserve(reader.octet_room())?;
        let spare = cut_back(&mut self.octets, self.spare);
        self.spare = append_reader(&mut self.octets, spare, reader.clone().unwrap()) as u64;
        Ok(())
    }

    /// Removes every bit. The list keeps its memory for later bits.
    #[inline(always)]
    pub fn clear(&mut self)
        ensures { self.new ≡ [] }
    {
        self.octets.clear();
        self.spare = 0;
    }
}

/// The bits of a list or of octets that are left to read, and the place of the first in its octet: how many bits of
/// that octet stand in front of it. No call takes memory but `append_octets`.
#[derive(Drop)]
pub struct BitReader<'input> {
    /// The octet that the first bit is in, and those after it.
    octets: &'input [u8],
    /// How many bits of that octet are no longer left, fewer than eight.
    skip: u32,
    len: u128,
}

impl<'input> Model for BitReader<'input> {
    ghost use Rattle.std.specs.Prelude.{take, drop};
    ghost use Rattle.rasn_types.specs.Bits.{unpack};
    ghost use Rattle.per_bits.specs.Octets.{AreWithin, Reading};

    ghost Value = { Reading };

    ghost view = { λ a. record { bits = take a.len (drop a.skip (unpack a.octets.now)); place = a.skip } };

    ghost invariant = { λ a. AreWithin a.skip a.len a.octets.now };
}

impl<'input> BitReader<'input> {
    /// A reader of all bits of the list.
    pub fn new<A: Allocator>(list: &'input BitList<A>) -> Self
        ensures bits { result.bits ≡ list.now }
        ensures place { result.place ≡ 0 }
    {
        BitReader {
            octets: list.octets.as_slice(),
            skip: 0,
            len: list.len(),
        }
    }

    /// A reader of the bits of the octets, the highest of each octet first.
    pub fn from_octets(octets: &'input [u8]) -> Self
        ensures bits { result.bits ≡ unpack octets.now }
        ensures place { result.place ≡ 0 }
    {
        BitReader {
            octets,
            skip: 0,
            len: 8 * octets.len() as u128,
        }
    }

    /// How many bits are left.
    pub fn len(&self) -> u128
        ensures { result ≡ length self.now.bits }
    {
        self.len
    }

    /// Whether no bit is left.
    pub fn is_empty(&self) -> bool
        ensures { IsTrue result ↔ (self.now.bits ≡ []) }
    {
        self.len == 0
    }

    /// How many bits of its octet stand in front of the first bit that is left, fewer than eight.
    pub fn place(&self) -> u32
        ensures is { result ≡ self.now.place }
        ensures few { result < 8 }
    {
        self.skip
    }

    /// The octets of the bits that are left, where these begin and end with an octet.
    pub fn aligned_octets(&self) -> Option<&'input [u8]>
        ensures same { IfSome result (λ octets. unpack octets.now ≡ self.now.bits) }
        ensures whole { IsSome result ↔ AreWholeOctets self.now }
    {
        if self.skip != 0 || self.len % 8 != 0 {
            return None;
        }
        Some(&self.octets[..(self.len / 8) as usize])
    }

    /// A reader of the first `count` bits, which are no longer left here. Where fewer are left, the error is how many
    /// bits are missing, and nothing changes.
    #[inline(always)]
    pub fn take(&mut self, count: u128) -> Result<BitReader<'input>, u128>
        ensures ok { IfOk result (λ front. self.old.bits ≡ front.bits ++ self.new.bits) }
        ensures count { IfOk result (λ front. length front.bits ≡ count) }
        ensures place { IfOk result (λ front. front.place ≡ self.old.place) }
        ensures behind { OnOk result (self.new.place ≡ (self.old.place + count) % 8) }
        ensures missing { IfErr result (λ missing. missing ≡ count - length self.old.bits) }
        ensures short { OnErr result (length self.old.bits < count) }
        ensures err { OnErr result (self.new ≡ self.old) }
    {
        let Some(left) = less(self.len, count) else {
            return Err(count - self.len);
        };
        let front = BitReader {
            octets: self.octets,
            skip: self.skip,
            len: count,
        };
        let place = u128::from(self.skip) + count;
        self.octets = &self.octets[(place / 8) as usize..];
        self.skip = (place % 8) as u32;
        self.len = left;
        Ok(front)
    }

    /// A reader of `count` bits after the first `begin`, all of which are still left here.
    #[inline(always)]
    pub fn part(&self, begin: u128, count: u128) -> BitReader<'input>
        requires { begin + count ≤ length self.now.bits }
        ensures bits { result.bits ≡ take count (drop begin self.now.bits) }
        ensures place { result.place ≡ (self.now.place + begin) % 8 }
    {
        let place = u128::from(self.skip) + begin;
        BitReader {
            octets: &self.octets[(place / 8) as usize..],
            skip: (place % 8) as u32,
            len: count,
        }
    }

    /// The number that the first `count` bits mean as a non-negative-binary-integer (ITU-T X.691, 11.3), the first bit
    /// the highest. They are still left.
    #[inline(always)]
    pub fn first_bits(&self, count: u128) -> u128
        requires few { count ≤ 128 }
        requires left { count ≤ length self.now.bits }
        ensures { result ≡ number_of (take count self.now.bits) }
    {
        if count <= u128::from(FIELD_BITS) {
            u128::from(read_field(self.octets, self.skip, count as u32))
        } else {
            read_wide_field(self.octets, self.skip, count as u32)
        }
    }

    /// A word whose high 56 bits are the first ones, which are still left. Where fewer are, it isn't said what is in
    /// their place, nor what the low eight bits of the word are.
    #[inline(always)]
    pub fn front(&self) -> u64
        ensures { take (length self.now.bits) (to_bits 56 (result / 2 ^ 8)) ≡ take 56 self.now.bits }
    {
        read_front(self.octets, self.skip)
    }

    /// The number that the first `width` bits mean, at most the 56 of a field. They are still left.
    #[inline(always)]
    fn first_field(&self, width: u32) -> u64
        requires few { width ≤ FIELD_BITS }
        requires left { width ≤ length self.now.bits }
        ensures { to_bits width result ≡ take width self.now.bits }
    {
        read_field(self.octets, self.skip, width)
    }

    /// The first bit, 0 or 1, which is still left.
    #[inline(always)]
    pub fn first_bit(&self) -> u64
        requires { 1 ≤ length self.now.bits }
        ensures { result ≡ number_of (take 1 self.now.bits) }
    {
        read_field(&self.octets[..1], self.skip, 1)
    }

    /// The number that the first `width` bits mean, at most the 56 of a field. They are then no longer left.
    pub fn take_field(&mut self, width: u32) -> u64
        requires few { width ≤ FIELD_BITS }
        requires left { width ≤ length self.old.bits }
        ensures bits { self.old.bits ≡ to_bits width result ++ self.new.bits }
        ensures place { self.new.place ≡ (self.old.place + width) % 8 }
    {
        let number = read_field(self.octets, self.skip, width);
        self.take(u128::from(width)).unwrap();
        number
    }

    /// Puts the first bits that are left into the first `count` octets, as the low `width` bits of each. They are still
    /// left. There are eight octets more at least, and it isn't said what these are then.
    pub fn spread_bits(&self, octets: &mut [u8], count: usize, width: u32)
        requires width { width ≤ 8 }
        requires left { width * count ≤ length self.now.bits }
        requires room { count + 8 ≤ length octets.old }
        ensures bits { low_bits_of width (take count octets.new) ≡ take (width * count) self.now.bits }
        ensures len { length octets.new ≡ length octets.old }
    {
        if width < 8 {
            spread_octets(octets, count, self.octets, self.skip, width);
        } else {
            copy_octets(octets, count, self.octets, self.skip);
        }
    }

    /// Appends the bits that are left to octets: the fewest octets, the first bit highest, and zero bits after the
    /// last. The only error is want of memory, and then the octets are as they were.
    pub fn append_octets<A: Allocator>(&self, octets: &mut Vec<u8, A>) -> Result<(), AllocError>
        ensures ok { OnOk result (octets.new.items ≡ octets.old.items ++ packed self.now.bits) }
        ensures err { OnErr result (octets.new.items ≡ octets.old.items) }
    {
        note_octets(octets.as_slice());
        octets.reserve(self.octet_room())?;
        append_from_octet(octets, self.clone().unwrap());
        Ok(())
    }

    /// Appends the octets that the bits fill, which are then no longer left.
    fn move_octets<A: Allocator>(&mut self, octets: &mut Vec<u8, A>)
        requires room { 8 * vec_len octets.old + length self.old.bits ≤ 8 * vec_capacity octets.old }
        ensures bits { unpack octets.new.items ++ self.new.bits ≡ unpack octets.old.items ++ self.old.bits }
        ensures few { length self.new.bits < 8 }
        ensures room { vec_capacity octets.old ≤ vec_capacity octets.new }
    {
        let count = (self.len / 8) as usize;
        append_octets_after(octets, self.octets, self.skip, count);
        self.take(8 * count as u128).unwrap();
    }

    /// Appends the octets that the bits fill, unless one field has them all. They are then no longer left.
    fn move_front<A: Allocator>(&mut self, octets: &mut Vec<u8, A>)
        requires room { 8 * vec_len octets.old + length self.old.bits ≤ 8 * vec_capacity octets.old }
        ensures bits { unpack octets.new.items ++ self.new.bits ≡ unpack octets.old.items ++ self.old.bits }
        ensures few { length self.new.bits ≤ FIELD_BITS }
        ensures room { vec_capacity octets.old ≤ vec_capacity octets.new }
    {
        if self.len > u128::from(FIELD_BITS) {
            self.move_octets(octets);
        }
    }

    /// How many octets of room `append_reader` wants for the bits that are left: what they fill, one that they begin,
    /// one for bits that stood there, and the word that is written before it is cut back.
    fn octet_room(&self) -> usize
        ensures { result ≡ length self.now.bits / 8 + 10 }
    {
        (self.len / 8) as usize + 10
    }
}

/// A second reader of the same bits. It takes no memory and never fails.
impl<'input> Clone for BitReader<'input> {
    ghost is_clone = { λ x y. y ≡ x };

    ghost is_infallible = { λ _. ⊤ };

    fn clone(&self) -> Result<Self, AllocError> {
        Ok(BitReader {
            octets: self.octets,
            skip: self.skip,
            len: self.len,
        })
    }
}

/// How many bits are left of `len` after the first `count`, where there are so many. Most often the low half of the
/// length alone is looked at, and changed.
#[inline(always)]
fn less(len: u128, count: u128) -> Option<u128>
    ensures { MatchOption result (len < count) (λ left. left + count ≡ len) }
{
    let high = len >> 64 << 64;
    let low = (len - high) as u64;
    if count <= u128::from(low) {
        return Some(high | u128::from(low - count as u64));
    }
    len.checked_sub(count)
}

/// Appends all bits of a reader to octets of which the last `spare` bits are spare, and answers how many are spare
/// then.
fn append_reader<A: Allocator>(octets: &mut Vec<u8, A>, spare: u32, reader: BitReader<'_>) -> u32
    requires padded { ArePadded spare octets.old.items }
    requires room { 8 * vec_len octets.old + length reader.bits + 72 ≤ 8 * vec_capacity octets.old }
    ensures { AreFilledBy (filled spare octets.old.items ++ reader.entry.bits) result octets.new.items }
{
    if spare == 0 {
        return append_from_octet(octets, reader);
    }
    let mut left = reader;
    let width = left.len().min(u128::from(spare)) as u32;
    let number = left.take_field(width);
    let unused = fill_last_octet(octets, spare, number, width);
    if unused > 0 {
        return unused;
    }
    append_from_octet(octets, left)
}

/// Appends all bits of a reader to octets of which no bit is spare, and answers how many are spare then. Those of a
/// field are one number.
fn append_from_octet<A: Allocator>(octets: &mut Vec<u8, A>, reader: BitReader<'_>) -> u32
    requires { 8 * vec_len octets.old + length reader.bits + 64 ≤ 8 * vec_capacity octets.old }
    ensures { AreFilledBy (unpack octets.old.items ++ reader.entry.bits) result octets.new.items }
{
    let mut left = reader;
    left.move_front(octets);
    let width = left.len() as u32;
    let number = left.first_field(width);
    append_field(octets, 0, number, width)
}
