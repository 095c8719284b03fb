//! Fields of bits in octets. A field is a number of bits that one word reads or writes, at whichever bit of an octet
//! it begins; a wide field has up to 128 bits, and moves as several fields.
//!
//! Octets that are written to have spare bits at their end, which are zeros and no bits of what is kept. What is put
//! takes their place; what is appended is after fewer than eight of them, and the function answers how many bits
//! are spare then.

ghost use Rattle.std.specs.Prelude.{◌≡◌, ◌+◌, ◌-◌, ◌*◌, ◌/◌, ◌%◌, ◌^◌, ◌<◌, ◌≤◌, [], ◌∷◌, ◌++◌, length, take, drop};
ghost use Rattle.std.specs.Prelude.{set, vec_len, vec_capacity, replicate, false, IfOk, OnOk, OnErr};
ghost use Rattle.rasn_types.specs.Bits.{to_bits, number_of, unpack};
ghost use Rattle.per_bits.specs.Lanes.{low_of_each, ones_of, AreNarrow, Joined, Parted};
ghost use Rattle.per_bits.specs.Octets.{word_size, first_word, filled, low_bits_of, AreFilledBy, AreKept, ArePadded};
ghost use Rattle.per_bits.specs.Octets.{AreWithin, HaveRoom, HaveZeros};

use rasn_types::bit_string::note_octets;
use std::alloc::{AllocError, Allocator};

/// The most bits of a field: those of a word less an octet, since up to seven other bits are in its first octet.
pub(crate) const FIELD_BITS: u32 = 56;

/// The first eight octets as a word, the first the highest, zeros after them where there are fewer.
#[inline(always)]
fn load_word(octets: &[u8]) -> u64
    ensures { to_bits word_size result ≡ first_word octets.now }
{
    match octets.first_chunk::<8>() {
        Some(chunk) => u64::from_be_bytes(*chunk),
        None => load_part_of_word(octets),
    }
}

/// The same of fewer than eight octets: of four and more, the first four and the last four, which may overlap.
fn load_part_of_word(octets: &[u8]) -> u64
    requires { length octets.now < 8 }
    ensures { to_bits word_size result ≡ first_word octets.now }
{
    match (octets.first_chunk::<4>(), octets.last_chunk::<4>()) {
        (Some(first), Some(last)) => {
            let behind = load_last(u32::from_be_bytes(*last), octets.len());
            u64::from(u32::from_be_bytes(*first)) << 32 | behind >> 32
        }
        _ => load_octets(octets),
    }
}

/// The octets after the first four of `count` as a word, by the number of the last four; zeros are after them.
fn load_last(last: u32, count: usize) -> u64
    requires some { 4 ≤ count }
    requires few { count < 8 }
    ensures { result ≡ last * 2 ^ (96 - 8 * count) % 2 ^ 64 }
{
    u64::from(last) << 32 << (64 - 8 * count)
}

/// The bits of fewer than eight octets, the first the highest, zeros after them.
fn load_octets(octets: &[u8]) -> u64
    requires { length octets.now < 8 }
    ensures { to_bits word_size result ≡ first_word octets.now }
{
    let mut word: u64 = 0;
    for octet in octets {
        word = word << 8 | u64::from(*octet);
    }
    word << 8 << (56 - 8 * octets.len())
}

/// The low `width` bits of a word.
fn low_bits(word: u64, width: u32) -> u64
    requires { width < 64 }
    ensures { result ≡ word % 2 ^ width }
{
    word & ((1 << width) - 1)
}

/// As many low bits of a number as a field has at most.
fn low_field(value: u128) -> u64
    ensures { result ≡ value % 2 ^ FIELD_BITS }
{
    (value & ((1 << FIELD_BITS) - 1)) as u64
}

/// The number that `count` bits of the octets mean, behind `skip` others.
#[inline(always)]
pub(crate) fn read_field(octets: &[u8], skip: u32, count: u32) -> u64
    requires within { AreWithin skip count octets.now }
    requires few { count ≤ FIELD_BITS }
    ensures bits { to_bits count result ≡ take count (drop skip (unpack octets.now)) }
    ensures below { result < 2 ^ count }
{
    load_word(octets) << skip >> 1 >> (63 - count)
}

/// A word whose high 56 bits are those of the octets behind `skip` others; zeros stand for those that aren't there. It
/// isn't said what its low eight are.
#[inline(always)]
pub(crate) fn read_front(octets: &[u8], skip: u32) -> u64
    requires { skip < 8 }
    ensures { to_bits FIELD_BITS (result / 2 ^ 8) ≡ take FIELD_BITS (drop skip (first_word octets.now)) }
{
    let word = load_word(octets);
    word << skip
}

/// The number that `count` bits of the octets mean, behind `skip` others, more of them than a field may have.
pub(crate) fn read_wide_field(octets: &[u8], skip: u32, count: u32) -> u128
    requires within { AreWithin skip count octets.now }
    requires few { count ≤ 128 }
    ensures { result ≡ number_of (take count (drop skip (unpack octets.now))) }
{
    let mut rest = octets;
    let mut gone = skip;
    let mut left = count;
    let mut value: u128 = 0;
    while left > 0 {
        let width = left.min(FIELD_BITS);
        value = value << width | u128::from(read_field(rest, gone, width));
        let place = gone + width;
        rest = &rest[(place / 8) as usize..];
        gone = place % 8;
        left -= width;
    }
    value
}

/// Answers how many bits are spare once there are enough for 128 more, of which the last are written as a word. The
/// only error is want of memory, and then nothing changes.
#[inline(always)]
pub(crate) fn with_room<A: Allocator>(
    octets: &mut Vec<u8, A>,
    spare: u64,
) -> Result<u32, AllocError>
    requires { AreKept spare octets.old.items }
    ensures ok { IfOk result (λ more. HaveRoom (filled spare octets.old.items) more octets.new.items) }
    ensures enough { IfOk result (λ more. 192 ≤ more) }
    ensures err { OnErr result (octets.new.items ≡ octets.old.items) }
{
    let spare = spare as u32;
    if spare >= 192 {
        return Ok(spare);
    }
    add_zeros(octets)?;
    Ok(spare + 320)
}

/// How many octets memory is asked for at first: few messages take more, and these ask again.
const FIRST_OCTETS: usize = 120;

/// Appends 40 octets of zeros. The only error is want of memory, and then nothing changes.
#[inline(never)]
fn add_zeros<A: Allocator>(octets: &mut Vec<u8, A>) -> Result<(), AllocError>
    ensures ok { OnOk result (octets.new.items ≡ octets.old.items ++ replicate 40 0) }
    ensures err { OnErr result (octets.new.items ≡ octets.old.items) }
{
    if octets.capacity() == 0 {
        octets.reserve(FIRST_OCTETS)?;
    }
    octets.resize(octets.len() + 40, 0)
}

/// Cuts off the octets all bits of which are spare, and answers how many bits are spare then.
pub(crate) fn cut_back<A: Allocator>(octets: &mut Vec<u8, A>, spare: u64) -> u32
    requires { AreKept spare octets.old.items }
    ensures bits { AreFilledBy (filled spare octets.old.items) result octets.new.items }
    ensures shorter { vec_len octets.new ≤ vec_len octets.old }
    ensures room { vec_capacity octets.new ≡ vec_capacity octets.old }
{
    octets.truncate(octets.len() - (spare / 8) as usize);
    (spare % 8) as u32
}

/// Puts the low `width` bits of `value` in the place of the first spare bits. A word of eight octets is written over
/// the octet in which the first of these stands and those after it.
#[inline(always)]
pub(crate) fn put_field<A: Allocator>(octets: &mut Vec<u8, A>, spare: u32, value: u64, width: u32)
    requires kept { AreKept spare octets.old.items }
    requires enough { 64 ≤ spare }
    requires few { width ≤ FIELD_BITS }
    ensures { HaveRoom (filled spare octets.old.items ++ to_bits width value) (spare - width) octets.new.items }
{
    note_octets(octets.as_slice());
    let free = spare.div_ceil(8);
    let used = 8 * free - spare;
    let place = octets.len() - free as usize;
    let front = u64::from(octets[place]) >> (8 - used);
    let all = used + width;
    let word = (front << width | low_bits(value, width)) << 1 << (63 - all);
    octets[place..place + 8].copy_from_slice(&word.to_be_bytes());
}

/// Puts a bit in the place of the first spare one, which is zero.
#[inline(always)]
pub(crate) fn put_bit<A: Allocator>(octets: &mut Vec<u8, A>, spare: u32, bit: bool)
    requires kept { AreKept spare octets.old.items }
    requires some { 0 < spare }
    ensures { HaveRoom (filled spare octets.old.items ++ bit ∷ []) (spare - 1) octets.new.items }
{
    note_octets(octets.as_slice());
    let behind = spare - 1;
    let place = octets.len() - 1 - (behind / 8) as usize;
    octets[place] |= u8::from(bit) << (behind % 8);
}

/// Appends the low `width` bits of `value` to octets of which the last `spare` bits are spare, and answers how many are
/// spare then. A word of eight octets is written after the last full octet, and cut back to those in use.
#[inline(always)]
pub(crate) fn append_field<A: Allocator>(
    octets: &mut Vec<u8, A>,
    spare: u32,
    value: u64,
    width: u32,
) -> u32
    requires spare { spare < 8 }
    requires there { spare ≤ 8 * length octets.old.items }
    requires few { width ≤ FIELD_BITS }
    requires room { vec_len octets.old + 8 ≤ vec_capacity octets.old }
    ensures bits { AreFilledBy (filled spare octets.old.items ++ to_bits width value) result octets.new.items }
    ensures room { vec_capacity octets.old ≤ vec_capacity octets.new }
{
    let mut used = 0;
    let mut bits = 0;
    if spare > 0 {
        if let Some(last) = octets.pop() {
            used = 8 - spare;
            bits = u64::from(last >> spare);
        }
    }
    let all = used + width;
    let word = (bits << width | low_bits(value, width)) << 1 << (63 - all);
    let count = all.div_ceil(8);
    let len = octets.len() + count as usize;
    octets.extend_from_slice(&word.to_be_bytes()).unwrap();
    octets.truncate(len);
    8 * count - all
}

/// Puts the low `width` bits of `value` into the last octet, of which the last `spare` bits are spare, and answers how
/// many are spare then.
pub(crate) fn fill_last_octet<A: Allocator>(
    octets: &mut Vec<u8, A>,
    spare: u32,
    value: u64,
    width: u32,
) -> u32
    requires some { 0 < spare }
    requires spare { spare < 8 }
    requires there { 0 < length octets.old.items }
    requires few { width ≤ spare }
    ensures bits { AreFilledBy (filled spare octets.old.items ++ to_bits width value) result octets.new.items }
    ensures room { vec_capacity octets.old ≤ vec_capacity octets.new }
{
    note_octets(octets.as_slice());
    let place = octets.len() - 1;
    let used = u64::from(octets[place] >> spare);
    let left = spare - width;
    octets[place] = ((used << width | low_bits(value, width)) << left) as u8;
    left
}

/// The octet with another bit at a place, the first at 0.
pub(crate) fn with_bit(octet: u8, place: u32, bit: bool) -> u8
    requires { place < 8 }
    ensures { to_bits 8 result ≡ set (to_bits 8 octet) place bit }
{
    let below = 7 - place;
    let word = u64::from(octet);
    let front = word >> below >> 1 << 1 | u64::from(bit);
    (front << below | low_bits(word, below)) as u8
}

/// Puts as `put_field` does, of a number that may be wider.
#[inline(always)]
pub(crate) fn put_number<A: Allocator>(octets: &mut Vec<u8, A>, spare: u32, value: u128, width: u32)
    requires kept { AreKept spare octets.old.items }
    requires enough { 192 ≤ spare }
    requires few { width ≤ 128 }
    ensures { HaveRoom (filled spare octets.old.items ++ to_bits width value) (spare - width) octets.new.items }
{
    if width <= FIELD_BITS {
        put_field(octets, spare, low_field(value), width)
    } else {
        put_wide_field(octets, spare, value, width)
    }
}

/// Puts the low `width` bits of `value` field by field.
#[inline(never)]
fn put_wide_field<A: Allocator>(octets: &mut Vec<u8, A>, spare: u32, value: u128, width: u32)
    requires kept { AreKept spare octets.old.items }
    requires enough { 192 ≤ spare }
    requires few { width ≤ 128 }
    ensures { HaveRoom (filled spare octets.old.items ++ to_bits width value) (spare - width) octets.new.items }
{
    let mut left = width;
    while left > 0 {
        let count = left.min(FIELD_BITS);
        let unused = spare - (width - left);
        left -= count;
        put_field(octets, unused, low_field(value >> left), count);
    }
}

/// The low `width` bits of each octet as one number, the first octet's highest, by one loop over the octets.
#[inline]
pub(crate) fn field_of(octets: &[u8], width: u32) -> u64
    requires width { width ≤ 8 }
    requires few { width * length octets.now ≤ FIELD_BITS }
    ensures { to_bits (width * length octets.now) result ≡ low_bits_of width octets.now }
{
    let mut field: u64 = 0;
    for octet in octets {
        field = field << width | low_bits(u64::from(*octet), width);
    }
    field
}

/// The number whose bits are the low `width` ones of each octet of a word, the first octet's highest. They are moved
/// together in all octets at once: in pairs, these in pairs again, and the two that are left.
#[inline(always)]
fn squeezed(word: u64, width: u32) -> u64
    requires { width ≤ 8 }
    ensures bits { to_bits (8 * width) result ≡ low_of_each width 8 8 word }
    ensures below { result < 2 ^ (8 * width) }
{
    let octets = word & (0x0101_0101_0101_0101 * ((1 << width) - 1));
    let pairs = joined(octets, 0x00ff_00ff_00ff_00ff, 8, width);
    let fours = joined(pairs, 0x0000_ffff_0000_ffff, 16, 2 * width);
    joined(fours, 0x0000_0000_ffff_ffff, 32, 4 * width)
}

/// A word whose fields of `size` bits are moved together in pairs: the upper field of each, which is multiplied by its
/// worth, comes down to right above the `width` bits that the lower one uses. `lower` has ones in the lower fields.
#[inline(always)]
fn joined(word: u64, lower: u64, size: u32, width: u32) -> u64
    requires width { width ≤ size }
    requires size { size ≤ 32 }
    requires lower { lower ≡ ones_of size (2 * size) (32 / size) }
    requires narrow { AreNarrow width size (2 * (32 / size)) word }
    ensures { Joined width size (32 / size) word result }
{
    word - (word >> size & lower) * ((1 << size) - (1 << width))
}

/// Appends the low `width` bits of each of some octets, eight octets at a time and then those that are left, and
/// answers how many bits are spare then.
pub(crate) fn append_low_bits<A: Allocator>(
    octets: &mut Vec<u8, A>,
    spare: u32,
    from: &[u8],
    width: u32,
) -> u32
    requires padded { ArePadded spare octets.old.items }
    requires width { width < 8 }
    requires room { vec_len octets.old + length from.now + 9 ≤ vec_capacity octets.old }
    ensures { AreFilledBy (filled spare octets.old.items ++ low_bits_of width from.now) result octets.new.items }
{
    let whole = from.len() / 8 * 8;
    append_eights(octets, spare, &from[..whole], width);
    let rest = &from[whole..];
    let field = field_of(rest, width);
    append_field(octets, spare, field, width * rest.len() as u32)
}

/// Appends the low `width` bits of each octet of some eights. As many bits as before are spare then.
fn append_eights<A: Allocator>(octets: &mut Vec<u8, A>, spare: u32, from: &[u8], width: u32)
    requires padded { ArePadded spare octets.old.items }
    requires width { width < 8 }
    requires whole { length from.now % 8 ≡ 0 }
    requires room { vec_len octets.old + length from.now + 8 ≤ vec_capacity octets.old }
    ensures bits { AreFilledBy (filled spare octets.old.items ++ low_bits_of width from.now) spare octets.new.items }
    ensures room { vec_capacity octets.old ≤ vec_capacity octets.new }
{
    if from.is_empty() {
        return;
    }
    let begun = spare.div_ceil(8);
    let begin = octets.len() - begun as usize;
    let grown = begin + from.len() / 8 * width as usize;
    octets.resize(grown + 8, 0).unwrap();
    put_eights(&mut octets[begin..], 8 * begun - spare, from, width);
    octets.truncate(grown + begun as usize);
}

/// Puts the low `width` bits of each octet of some eights after the first `used` bits of others, which are followed by
/// zeros. A word is written for each eight, which ends within the next one's first octet: the bits there go on to it.
fn put_eights(octets: &mut [u8], used: u32, from: &[u8], width: u32)
    requires used { used < 8 }
    requires width { width < 8 }
    requires whole { length from.now % 8 ≡ 0 }
    requires long { length octets.old ≡ length from.now / 8 * width + 8 }
    requires zeros { HaveZeros used octets.old }
    ensures { let bits = take used (unpack octets.old) ++ low_bits_of width from.now in
        unpack octets.new ≡ bits ++ replicate (64 - used) false }
{
    let size = 8 * width;
    let up = 63 - used - size;
    let mut front = load_word(octets);
    let mut place = 0;
    let mut rest = from;
    while rest.len() >= 8 {
        let word = front | squeezed(load_word(rest), width) << 1 << up;
        octets[place..place + 8].copy_from_slice(&word.to_be_bytes());
        front = word << size;
        place += width as usize;
        rest = &rest[8..];
    }
    octets[place..place + 8].copy_from_slice(&front.to_be_bytes());
}

/// Appends `count` octets of the bits of others, from the bit after the first `skip` on.
pub(crate) fn append_octets_after<A: Allocator>(
    octets: &mut Vec<u8, A>,
    from: &[u8],
    skip: u32,
    count: usize,
)
    requires within { AreWithin skip (8 * count) from.now }
    requires room { vec_len octets.old + count ≤ vec_capacity octets.old }
    ensures bits { unpack octets.new.items ≡ unpack octets.old.items ++ take (8 * count) (drop skip (unpack from.now)) }
    ensures room { vec_capacity octets.old ≤ vec_capacity octets.new }
{
    let start = octets.len();
    octets.extend_from_slice(&from[..count]).unwrap();
    if skip > 0 {
        shift_octets(&mut octets[start..], from, skip);
    }
}

/// Fills octets with the bits of others, from the bit after the first `skip` on.
fn shift_octets(octets: &mut [u8], from: &[u8], skip: u32)
    requires few { skip < 8 }
    requires enough { length octets.old < length from.now }
    ensures { unpack octets.new ≡ take (8 * length octets.old) (drop skip (unpack from.now)) }
{
    for index in 0..octets.len() {
        let pair = u16::from(from[index]) << 8 | u16::from(from[index + 1]);
        octets[index] = ((pair >> (8 - skip)) % 256) as u8;
    }
}

/// The first eight octets as `load_word` has them, where these are read in a loop.
#[inline(always)]
fn load_next_word(octets: &[u8]) -> u64
    ensures { to_bits word_size result ≡ first_word octets.now }
{
    match octets.first_chunk::<8>() {
        Some(chunk) => u64::from_be_bytes(*chunk),
        None => load_last_word(octets),
    }
}

/// The same of fewer than eight octets: a call of its own, which leaves the loop before it short.
#[inline(never)]
fn load_last_word(octets: &[u8]) -> u64
    requires { length octets.now < 8 }
    ensures { to_bits word_size result ≡ first_word octets.now }
{
    load_part_of_word(octets)
}

/// Puts numbers of `width` bits each into the low bits of the first `count` octets: those that stand one after another
/// in other octets, after the first `skip` bits. A word is read and one written for each eight numbers, so that eight
/// octets more may change.
pub(crate) fn spread_octets(octets: &mut [u8], count: usize, from: &[u8], skip: u32, width: u32)
    requires width { width < 8 }
    requires within { AreWithin skip (width * count) from.now }
    requires room { count + 8 ≤ length octets.old }
    ensures bits { low_bits_of width (take count octets.new) ≡ take (width * count) (drop skip (unpack from.now)) }
    ensures len { length octets.new ≡ length octets.old }
{
    let gap = 63 - 8 * width;
    let mut place = 0;
    let mut at = 0;
    while at < count {
        let word = load_next_word(&from[place..]) << skip >> 1 >> gap;
        octets[at..at + 8].copy_from_slice(&spread(word, width).to_be_bytes());
        at += 8;
        place += width as usize;
    }
}

/// Puts the bits of others into the first `count` octets, from the bit after the first `skip` on.
pub(crate) fn copy_octets(octets: &mut [u8], count: usize, from: &[u8], skip: u32)
    requires within { AreWithin skip (8 * count) from.now }
    requires room { count ≤ length octets.old }
    ensures bits { unpack (take count octets.new) ≡ take (8 * count) (drop skip (unpack from.now)) }
    ensures len { length octets.new ≡ length octets.old }
{
    if skip == 0 {
        octets[..count].copy_from_slice(&from[..count]);
    } else {
        shift_octets(&mut octets[..count], from, skip);
    }
}

/// The word of eight octets whose low `width` bits are those of a number of so many, the first octet's highest. They
/// are moved apart in all octets at once: in two halves, each of these in two, and these in two again.
#[inline(always)]
fn spread(word: u64, width: u32) -> u64
    requires width { width ≤ 8 }
    requires below { word < 2 ^ (8 * width) }
    ensures { low_of_each width 8 8 result ≡ to_bits (8 * width) word }
{
    let fours = parted(word, 0x0000_0000_ffff_ffff, 32, 4 * width);
    let pairs = parted(fours, 0x0000_ffff_0000_ffff, 16, 2 * width);
    parted(pairs, 0x00ff_00ff_00ff_00ff, 8, width)
}

/// A word whose fields of twice `size` bits, which use twice `width`, are parted in two: the upper half of the bits of
/// each goes up to the upper field. `lower` has ones in the lower fields.
#[inline(always)]
fn parted(word: u64, lower: u64, size: u32, width: u32) -> u64
    requires width { width ≤ size }
    requires size { size ≤ 32 }
    requires lower { lower ≡ ones_of size (2 * size) (32 / size) }
    requires whole { size * (32 / size) ≡ 32 }
    requires narrow { AreNarrow (2 * width) (2 * size) (32 / size) word }
    ensures { Parted width size (32 / size) word result }
{
    word + (word >> width & lower) * ((1 << size) - (1 << width))
}
