//! What is written before its place is known (ITU-T X.691, 11.1): bits, with marks where padding may stand, into which
//! the padding goes once the place of the first bit is known; whole numbers, lengths and normally small numbers as
//! they are appended to these; and the components of an open SET, each in pieces of its own. Where the place is known
//! from the start, padding is zero bits at once, and no mark is kept. A contract speaks of the pieces alone, as a list
//! of bits and marks.
#![tactic(auto)]

pub mod enclosing;
pub mod lengths;
pub mod numbers;
pub mod open_sets;
pub mod small_numbers;

ghost use Rattle.std.specs.Prelude.{◌≡◌, ◌≤◌, ◌∷◌, [], ◌++◌, false, true, length, replicate, Some, OnOk, OnErr, IfOk};
ghost use Rattle.rasn_types.specs.Bits.{to_bits, unpack};
ghost use Rattle.rasn_types.specs.Variants.{aligned};
ghost use Rattle.per_bits.specs.Octets.{low_bits_of};
ghost use Rattle.per_core.specs.Writers.{just, padding};
ghost use Rattle.per_pieces.specs.Pieces.{Appends, bit_count, bits_of, unplaced, plain, placed_bits, writer_of};
ghost use Rattle.per_pieces.specs.Pieces.{with_bit, with_bits};
ghost use Rattle.per_pieces.specs.MarkPositions.{AreInOrder, marked};

use per_bits::{BitList, BitReader};
use std::alloc::{AllocError, Allocator};
use std::marker::Model;

/// Places among bits, in ascending order.
#[derive(Drop)]
struct Marks<A: Allocator> {
    places: Vec<u128, A>,
}

impl<A: Allocator> Model for Marks<A> {
    ghost use Rattle.std.specs.Prelude.{List, ℕ};

    ghost Value = { List ℕ };

    ghost view = { λ a. a.places.items };
}

impl<A: Allocator> Marks<A> {
    /// Appends a place.
    fn push(&mut self, place: u128) -> Result<(), AllocError>
        ensures ok { OnOk result (self.new ≡ self.old ++ place ∷ []) }
        ensures err { OnErr result (self.new ≡ self.old) }
    {
        self.places.push(place)?;
        Ok(())
    }
}

/// Bits, and marks where padding may stand.
#[derive(Drop)]
pub struct Pieces<A: Allocator> {
    /// The bits. Where they begin at position 0, the padding is among them.
    bits: BitList<A>,
    /// The places of the marks; none is kept where the bits begin at position 0.
    marks: Option<Marks<A>>,
}

impl<A: Allocator> Model for Pieces<A> {
    ghost use Rattle.std.specs.Prelude.{length};
    ghost use Rattle.per_pieces.specs.Pieces.{Pieces};
    ghost use Rattle.per_pieces.specs.MarkPositions.{AreInOrder, pieces, places_of};

    ghost Value = { Pieces };

    ghost view = { λ a. pieces a.marks a.bits };

    ghost invariant = { λ a. AreInOrder 0 (places_of a.marks) (length a.bits) };
}

impl<A: Allocator> Pieces<A> {
    /// Bits that begin at position 0.
    #[inline(always)]
    pub fn from_bits(bits: BitList<A>) -> Self
        ensures { result ≡ record { list = plain bits; placed = true } }
    {
        Pieces { bits, marks: None }
    }

    /// How many bits there are. Padding whose place isn't known is none of them.
    #[inline(always)]
    pub fn len(&self) -> u128
        ensures { result ≡ bit_count self.now.list }
    {
        self.bits.len()
    }

    /// The bits, without the padding whose place isn't known.
    pub fn bits(&self) -> &BitList<A>
        ensures { result.now ≡ bits_of self.now.list }
    {
        &self.bits
    }

    /// Sets the bit at a place among the bits, the first at 0; after the last there is none. Every other piece stays,
    /// and no memory is taken.
    #[inline(always)]
    pub fn set(&mut self, place: u128, bit: bool)
        ensures { self.new ≡ with_bit self.old place bit }
    {
        self.bits.set(place, bit);
    }

    /// Appends a bit. The only error is want of memory.
    #[inline(always)]
    pub fn push(&mut self, bit: bool) -> Result<(), AllocError>
        ensures ok { OnOk result (self.new ≡ with_bits self.old (bit ∷ [])) }
        ensures appends { OnOk result (Appends self.old (just (bit ∷ [])) self.new) }
    {
        self.bits.push(bit)
    }

    /// Appends the low `width` bits of a number, highest first (X.691 11.3). The only error is want of memory.
    #[inline(always)]
    pub fn push_bits(&mut self, number: u128, width: u128) -> Result<(), AllocError>
        requires { width ≤ 128 }
        ensures ok { OnOk result (self.new ≡ with_bits self.old (to_bits width number)) }
        ensures appends { OnOk result (Appends self.old (just (to_bits width number)) self.new) }
    {
        self.bits.push_bits(number, width)
    }

    /// Appends the low `width` bits of a word, highest first (X.691 11.3). The only error is want of memory.
    #[inline(always)]
    pub fn push_field(&mut self, number: u64, width: u32) -> Result<(), AllocError>
        requires { width ≤ 56 }
        ensures { OnOk result (self.new ≡ with_bits self.old (to_bits width number)) }
    {
        self.bits.push_field(number, width)
    }

    /// Appends the bits of octets, the highest of each first. The only error is want of memory.
    pub fn push_octets(&mut self, octets: &[u8]) -> Result<(), AllocError>
        ensures ok { OnOk result (self.new ≡ with_bits self.old (unpack octets.now)) }
        ensures appends { OnOk result (Appends self.old (just (unpack octets.now)) self.new) }
    {
        self.bits.push_octets(octets)
    }

    /// Appends the low `width` bits of each octet, highest first. The only error is want of memory.
    pub fn push_low_bits(&mut self, octets: &[u8], width: u32) -> Result<(), AllocError>
        requires { width ≤ 8 }
        ensures { OnOk result (Appends self.old (just (low_bits_of width octets.now)) self.new) }
    {
        self.bits.push_low_bits(octets, width)
    }

    /// Appends the bits that a reader has left. The only error is want of memory.
    pub fn push_reader(&mut self, reader: &BitReader<'_>) -> Result<(), AllocError>
        ensures ok { OnOk result (self.new ≡ with_bits self.old reader.now.bits) }
        ensures appends { OnOk result (Appends self.old (just reader.now.bits) self.new) }
    {
        self.bits.push_reader(reader)
    }

    /// Appends zero bits. The only error is want of memory.
    #[inline(always)]
    pub fn push_zeros(&mut self, count: usize) -> Result<(), AllocError>
        ensures { OnOk result (self.new ≡ with_bits self.old (replicate count false)) }
    {
        if count == 0 {
            return Ok(());
        }
        if count <= 128 {
            return self.push_few_zeros(count as u32);
        }
        self.push_many_zeros(count)
    }

    /// Appends at most 128 zero bits. The only error is want of memory.
    #[inline(always)]
    fn push_few_zeros(&mut self, count: u32) -> Result<(), AllocError>
        requires { count ≤ 128 }
        ensures { OnOk result (self.new ≡ with_bits self.old (replicate count false)) }
    {
        self.bits.push_zeros(count)
    }

    /// Appends zero bits, some at a time. The only error is want of memory.
    fn push_many_zeros(&mut self, count: usize) -> Result<(), AllocError>
        ensures { OnOk result (self.new ≡ with_bits self.old (replicate count false)) }
    {
        let mut left = count;
        while left > 0 {
            let width = left.min(128);
            self.push_few_zeros(width as u32)?;
            left -= width;
        }
        Ok(())
    }

    /// Appends zero bits up to the next octet (X.691 11.1), or a mark for them where the place isn't known. The only
    /// error is want of memory.
    pub fn push_padding(&mut self) -> Result<(), AllocError>
        ensures { OnOk result (Appends self.old (padding aligned) self.new) }
    {
        match &mut self.marks {
            Some(marks) => marks.push(self.bits.len()),
            None => self.bits.push_bits(0, (8 - self.bits.len() % 8) % 8),
        }
    }

    /// Appends other pieces, with their padding as zero bits where the place of these pieces is known, and else with
    /// their marks. The only error is want of memory.
    pub fn push_pieces(&mut self, other: &Pieces<A>) -> Result<(), AllocError>
        ensures { OnOk result (Appends self.old (writer_of other.now.list) self.new) }
    {
        match &other.marks {
            Some(marks) => self.push_marked(marks.places.as_slice(), &other.bits),
            None => self.push_marked(&[], &other.bits),
        }
    }

    /// Appends bits with marks at some places among them.
    fn push_marked(&mut self, marks: &[u128], bits: &BitList<A>) -> Result<(), AllocError>
        requires { AreInOrder 0 marks.now (length bits.now) }
        ensures { OnOk result (Appends self.old (writer_of (marked 0 marks.now bits.now)) self.new) }
    {
        let mut rest = BitReader::new(bits);
        let mut done = 0;
        for index in 0..marks.len() {
            let mark = marks[index];
            let front = rest.take(mark - done).unwrap();
            self.push_reader(&front)?;
            self.push_padding()?;
            done = mark;
        }
        self.push_reader(&rest)
    }
}

impl<A: Allocator + Clone> Pieces<A> {
    /// No pieces, whose place isn't known. They take no memory yet. The only error is want of memory for a second
    /// allocator.
    pub fn new_unplaced(alloc: A) -> Result<Self, AllocError>
        ensures { IfOk result (λ none. none ≡ unplaced) }
    {
        let places = Vec::new(alloc.clone()?);
        Ok(Pieces {
            bits: BitList::new(alloc),
            marks: Some(Marks { places }),
        })
    }

    /// The bits that the pieces are from position 0 on, with their padding. Where there is no mark these are the bits
    /// themselves, and no memory is taken. The only error is want of memory.
    #[inline(always)]
    pub fn into_placed(self) -> Result<BitList<A>, AllocError>
        ensures { IfOk result (λ bits. bits ≡ placed_bits self.list 0) }
    {
        let Pieces { bits, marks } = self;
        match marks {
            Some(marks) => with_padding(marks.places.as_slice(), bits),
            None => Ok(bits),
        }
    }

    /// The bits that the pieces are from position 0 on, with their padding, as a list of their own: the pieces stay.
    /// The only error is want of memory.
    pub fn to_placed(&self) -> Result<BitList<A>, AllocError>
        ensures { IfOk result (λ bits. bits ≡ placed_bits self.now.list 0) }
    {
        match &self.marks {
            Some(marks) => place_marked(marks.places.as_slice(), &self.bits),
            None => place_marked(&[], &self.bits),
        }
    }
}

/// The bits from position 0 on, with padding at some places among them: where there is none, the bits themselves. The
/// only error is want of memory.
#[inline(always)]
fn with_padding<A: Allocator + Clone>(
    marks: &[u128],
    bits: BitList<A>,
) -> Result<BitList<A>, AllocError>
    requires { AreInOrder 0 marks.now (length bits) }
    ensures { IfOk result (λ all. all ≡ placed_bits (marked 0 marks.now bits) 0) }
{
    if marks.is_empty() {
        return Ok(bits);
    }
    place_marked(marks, &bits)
}

/// The bits from position 0 on, with padding at some places among them. The only error is want of memory.
fn place_marked<A: Allocator + Clone>(
    marks: &[u128],
    bits: &BitList<A>,
) -> Result<BitList<A>, AllocError>
    requires { AreInOrder 0 marks.now (length bits.now) }
    ensures { IfOk result (λ all. all ≡ placed_bits (marked 0 marks.now bits.now) 0) }
{
    let mut all = Pieces::from_bits(BitList::new(bits.allocator().clone()?));
    all.push_marked(marks, bits)?;
    Ok(all.bits)
}
