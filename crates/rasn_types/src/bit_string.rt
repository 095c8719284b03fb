//! Bits kept in octets (X.680 22).

ghost use Rattle.std.specs.Prelude.{◌≡◌, ◌+◌, ◌-◌, ◌*◌, ◌^◌, ◌<◌, ◌≤◌, [], ◌∷◌, ◌++◌, length, take, slice_get, false};
ghost use Rattle.std.specs.Prelude.{get_or, replicate, IfOk, OnOk, OnErr, IsTrue, ◌↔◌};
ghost use Rattle.std.specs.Bool.{beq};
ghost use Rattle.std.specs.Cmp.{bool_eq_equiv, partial_equiv_from_equiv};
ghost use Rattle.std.specs.Cmp.Lexicographic.{lists_equiv, pointwise};
ghost use Rattle.std.specs.Iterator.{YieldsFirst, item_count};
ghost use Rattle.rasn_types.specs.Bits.{AreOctets, number_of, to_bits, unpack, filled_up, trimmed};
ghost use Rattle.rasn_types.specs.Packed.{packed, ArePacked};

use std::alloc::{AllocError, Global};
use std::fmt;
use std::marker::Model;

/// A list of bits (X.680 22), at most `usize::MAX` of them. A contract speaks of the bits alone.
#[derive(Drop)]
pub struct BitString {
    octets: Vec<u8>,
    len: usize,
}

impl Model for BitString {
    ghost use Rattle.std.specs.Prelude.{List, Bool, take};
    ghost use Rattle.rasn_types.specs.Bits.{unpack};
    ghost use Rattle.rasn_types.specs.Packed.{ArePacked};

    ghost Value = { List Bool };

    ghost view = { λ a. take a.len (unpack a.octets.items) };

    ghost invariant = { λ a. ArePacked a.len a.octets.items };
}

impl BitString {
    /// No bits, which take no memory.
    pub fn new(alloc: Global) -> BitString
        ensures { result ≡ [] }
    {
        BitString {
            octets: Vec::new(alloc),
            len: 0,
        }
    }

    /// The first `len` bits of the octets, the highest of each octet first. The only error is want of memory.
    pub fn from_octets(alloc: Global, octets: &[u8], len: usize) -> Result<BitString, AllocError>
        requires { len ≤ 8 * length octets.now }
        ensures { IfOk result (λ bits. bits ≡ take len (unpack octets.now)) }
    {
        let kept = Vec::from_slice(alloc, &octets[..len.div_ceil(8)])?;
        Ok(BitString::from_vec(kept, len))
    }

    /// The first `len` bits of the octets, the highest of each octet first, in the octets' own memory.
    pub fn from_vec(octets: Vec<u8>, len: usize) -> BitString
        requires { len ≤ 8 * length octets.items }
        ensures { result ≡ take len (unpack octets.items) }
    {
        let mut kept = octets;
        keep_bits(&mut kept, len);
        BitString { octets: kept, len }
    }

    /// These bits. The only error is want of memory.
    pub fn from_slice(alloc: Global, bits: &[bool]) -> Result<BitString, AllocError>
        ensures { IfOk result (λ kept. kept ≡ bits.now) }
    {
        let mut kept = BitString::new(alloc);
        for bit in bits {
            kept.push(*bit)?;
        }
        Ok(kept)
    }

    /// How many bits there are.
    pub fn len(&self) -> usize
        ensures { result ≡ length self.now }
    {
        self.len
    }

    /// Whether there is no bit.
    pub fn is_empty(&self) -> bool
        ensures { IsTrue result ↔ (self.now ≡ []) }
    {
        self.len == 0
    }

    /// The bit at an index, the first at 0; `None` from the length on.
    pub fn get(&self, index: usize) -> Option<bool>
        ensures { result ≡ slice_get self.now index }
    {
        if index < self.len {
            Some(self.octets[index / 8] >> (7 - index % 8) & 1 == 1)
        } else {
            None
        }
    }

    /// The bits in the fewest octets, the first bit highest. Spare bits of the last octet are zero (X.690 8.6.2).
    pub fn as_octets(&self) -> &[u8]
        ensures octets { result.now ≡ packed self.now }
        ensures bits { take (length self.now) (unpack result.now) ≡ self.now }
    {
        self.octets.as_slice()
    }

    /// Appends a bit. The only error is want of memory, and then the bits are as they were.
    pub fn push(&mut self, bit: bool) -> Result<(), AllocError>
        requires { length self.old < usize.MAX }
        ensures ok { OnOk result (self.new ≡ self.old ++ bit ∷ []) }
        ensures err { OnErr result (self.new ≡ self.old) }
    {
        append_bit(&mut self.octets, self.len, bit)?;
        self.len += 1;
        Ok(())
    }

    /// Keeps the first `len` bits, where there are more.
    pub fn truncate(&mut self, len: usize)
        ensures { self.new ≡ take len self.old }
    {
        if len < self.len {
            keep_bits(&mut self.octets, len);
            self.len = len;
        }
    }

    /// Whether the bit at an index is one, the first at 0; no bit is from the length on.
    pub fn is_set(&self, index: usize) -> bool
        ensures { result ≡ get_or self.now index false }
    {
        self.get(index).unwrap_or(false)
    }

    /// How many bits there are without the zero bits at their end, which are no part of a value whose bits are named
    /// (X.680 22.7).
    pub fn trimmed_len(&self) -> usize
        ensures { result ≡ length (trimmed self.now) }
    {
        let mut len = self.len();
        while len > 0 && !self.is_set(len - 1) {
            len -= 1;
        }
        len
    }

    /// The bits without the zero bits at their end, and then with zero bits up to `least` bits, in memory of their own
    /// (X.680 22.7; X.691 16.2). The only error is want of memory.
    pub fn trimmed_to(&self, least: usize) -> Result<BitString, AllocError>
        ensures { IfOk result (λ bits. bits ≡ filled_up least (trimmed self.now)) }
    {
        let len = self.trimmed_len();
        let mut bits = BitString::from_octets(*self.octets.allocator(), self.as_octets(), len)?;
        for _ in len..least {
            bits.push(false)?;
        }
        Ok(bits)
    }

    /// The bits in their order.
    pub fn iter(&self) -> BitIter<'_>
        ensures { result ≡ self.now }
    {
        BitIter {
            bits: self,
            index: 0,
        }
    }
}

/// Bits of a `BitString` that are still to come.
#[derive(Drop)]
pub struct BitIter<'bits> {
    bits: &'bits BitString,
    index: usize,
}

impl<'bits> Model for BitIter<'bits> {
    ghost use Rattle.std.specs.Prelude.{List, Bool, drop};

    ghost Value = { List Bool };

    ghost view = { λ a. drop a.index a.bits.now };
}

impl<'bits> Iterator for BitIter<'bits> {
    type Item = bool;

    ghost next_gives = { YieldsFirst (λ bits. bits) };

    ghost remaining = { item_count (λ bits. bits) };

    fn next(&mut self) -> Option<bool> {
        if self.bits.len() <= self.index {
            return None;
        }
        self.index += 1;
        self.bits.get(self.index - 1)
    }
}

/// The bits in memory of their own.
impl Clone for BitString {
    ghost is_clone = { λ bits copy. copy ≡ bits };

    fn clone(&self) -> Result<BitString, AllocError> {
        let octets = Vec::from_slice(*self.octets.allocator(), &self.octets)?;
        Ok(BitString {
            octets,
            len: self.len,
        })
    }
}

/// Equality of the bits.
impl PartialEq for BitString {
    ghost eq = { pointwise beq };

    ghost laws = { partial_equiv_from_equiv (lists_equiv bool_eq_equiv) };

    fn eq(&self, other: &BitString) -> bool {
        self.len == other.len && self.octets == other.octets
    }
}

impl Eq for BitString {
    ghost laws = { lists_equiv bool_eq_equiv };
}

/// Prints the bits as a value of ASN.1, such as `'0110'B` (X.680 22.9).
impl fmt::Display for BitString {
    fn fmt<W: fmt::Write>(&self, f: &mut fmt::Formatter<W>) -> fmt::Result {
        f.write_str("'")?;
        for bit in self.iter() {
            f.write_str(if bit { "1" } else { "0" })?;
        }
        f.write_str("'B")
    }
}

/// Prints the octets, and how many bits of them count.
impl fmt::Debug for BitString {
    fn fmt<W: fmt::Write>(&self, f: &mut fmt::Formatter<W>) -> fmt::Result {
        f.debug_struct("BitString")
            .field("octets", &self.octets)
            .field("len", &self.len)
            .finish()
    }
}

/// Keeps the first `len` bits of octets, in the fewest octets.
fn keep_bits(octets: &mut Vec<u8>, len: usize)
    requires { len ≤ 8 * length octets.old.items }
    ensures { octets.new.items ≡ packed (take len (unpack octets.old.items)) }
{
    note_octets(octets.as_slice());
    octets.truncate(len.div_ceil(8));
    if len % 8 > 0 {
        octets[len / 8] = first_bits(octets[len / 8], len % 8);
    }
}

/// Appends a bit to `len` bits kept in octets. After an error the octets are as they were.
fn append_bit(octets: &mut Vec<u8>, len: usize, bit: bool) -> Result<(), AllocError>
    requires { ArePacked len octets.old.items }
    ensures ok { OnOk result (octets.new.items ≡ packed (take len (unpack octets.old.items) ++ bit ∷ [])) }
    ensures err { OnErr result (octets.new.items ≡ octets.old.items) }
{
    let place = len % 8;
    if place == 0 {
        octets.push(0)?;
    }
    octets[len / 8] |= u8::from(bit) << (7 - place);
    Ok(())
}

/// Does nothing: a `u8` is below 256.
pub fn note_octets(octets: &[u8])
    ensures { AreOctets octets.now }
{
    let _ = octets;
}

/// The first `count` bits of an octet, the others zero.
fn first_bits(octet: u8, count: usize) -> u8
    requires some { 0 < count }
    requires few { count ≤ 8 }
    ensures { result ≡ number_of (take count (to_bits 8 octet) ++ replicate (8 - count) false) }
{
    octet >> (8 - count) << (8 - count)
}
