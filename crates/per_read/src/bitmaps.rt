//! The bitmap of a record's additions (X.691 19.7, 19.8), and the additions that the schema doesn't know (19.9).

ghost use Rattle.std.specs.Prelude.{◌≡◌, drop, IfSome, Ok};
ghost use Rattle.std.specs.Iterator.{YieldsFirst, item_count};
ghost use Rattle.per_core.specs.Basic.{IsBitmap};
ghost use Rattle.per_read.specs.Takes.{Takes, itself, telling};
ghost use Rattle.per_core.specs.AdditionFaults.{NextFlag, IsOfBitmap, IsOfLargeBitmap, IsOfSmallBitmap, IsOfUnknown};
ghost use Rattle.per_core.specs.AdditionFaults.{skipped_unknown};
ghost use Rattle.per_read.specs.Bitmaps.{large_bitmap, large_fragments_of, small_bitmap};
ghost use Rattle.per_read.specs.Flags.{HasFlags};
ghost use Rattle.per_read.specs.declared.bitmaps.PresenceBits.TheVariants.{InPlace};
ghost use Rattle.per_read.specs.OpenTypes.{fragments_of};
ghost use Rattle.per_read.specs.Reasons.{gathering};

use crate::Reader;
use crate::ahead::ahead_of;
use crate::error::{DecodeErrorKind, ParserFailCause};
use crate::lengths::Length;
use crate::open_types::skip_open;
use per_bits::BitReader;
use rasn_schema::constraints::Constraints;
use rasn_types::bit_string::BitString;
use std::marker::Model;

/// The bitmap of a record's additions: its presence bits, in the order of the additions.
#[derive(Drop)]
pub enum PresenceBits {
    /// They stand in place, after one length alone, in front of the bits left: how many.
    InPlace(u128),
    /// Those of the fragments, one after another.
    Gathered(BitString),
}

/// The presence bits of a record's additions that are still to be read, in the order of the additions. After the last
/// of them no addition is present.
#[derive(Drop)]
pub struct Bitmap<'input> {
    flags: Flags<'input>,
}

/// Presence bits, where they stand.
#[derive(Drop)]
enum Flags<'input> {
    /// In the input.
    InPlace(BitReader<'input>),
    /// Those that were gathered, and how many of them were read.
    Gathered(BitString, usize),
}

impl<'input> Model for Bitmap<'input> {
    ghost use Rattle.std.specs.Prelude.{List, Bool};
    ghost use Rattle.per_read.specs.Flags.{flags_left};

    ghost Value = { List Bool };

    ghost view = { λ b. flags_left b.flags };
}

impl<'input> Bitmap<'input> {
    /// The presence bits that a reader has left. It takes no memory.
    pub fn in_place(bits: BitReader<'input>) -> Self
        ensures { result ≡ bits.entry.bits }
    {
        Bitmap {
            flags: Flags::InPlace(bits),
        }
    }

    /// Presence bits that were gathered, after the first `read` of them. It takes no memory.
    pub fn gathered(bits: BitString, read: usize) -> Self
        ensures { result ≡ drop read bits }
    {
        Bitmap {
            flags: Flags::Gathered(bits, read),
        }
    }
}

/// The presence bits, in turn. A further one takes no memory.
impl Iterator for Bitmap<'_> {
    type Item = bool;

    ghost next_gives = { YieldsFirst (λ b. b) };

    ghost remaining = { item_count (λ b. b) };

    fn next(&mut self) -> Option<bool> {
        match &mut self.flags {
            Flags::InPlace(bits) => take_flag(bits),
            Flags::Gathered(bits, index) => next_flag(bits, index),
        }
    }
}

/// The next of the presence bits that a reader has left, which is then no longer left.
pub fn take_flag(bits: &mut BitReader<'_>) -> Option<bool>
    ensures { NextFlag bits.old.bits result bits.new.bits }
{
    match bits.take(1) {
        Ok(bit) => Some(bit.first_bits(1) == 1),
        Err(_) => None,
    }
}

/// The presence bit at an index of gathered ones, which then is that of the next one.
pub fn next_flag(bits: &BitString, index: &mut usize) -> Option<bool>
    ensures { NextFlag (drop index.old bits.now) result (drop index.new bits.now) }
{
    if *index >= bits.len() {
        return None;
    }
    let flag = bits.get(*index);
    *index += 1;
    flag
}

/// Takes the bitmap of a record's additions (X.691 19.7, 19.8, 11.9.3.4): after a bit 0 its length less one in six
/// bits, after a bit 1 an unconstrained length, and then its bits. One of no bits is refused as `EmptyBitmap`. Only
/// one in fragments takes memory.
pub fn take_bitmap(reader: &mut Reader<'_>) -> Result<PresenceBits, DecodeErrorKind>
    ensures { let why = gathering large_fragments_of IsOfBitmap in
        Takes why IsBitmap (HasFlags reader.old.bits reader.new.bits) reader.old result reader.new }
{
    if reader.take_bit()? {
        take_large_bitmap(reader)
    } else {
        take_small_bitmap(reader)
    }
}

/// Takes a bitmap of up to 64 bits, after its length less one in six bits.
#[inline(always)]
fn take_small_bitmap(reader: &mut Reader<'_>) -> Result<PresenceBits, DecodeErrorKind>
    ensures { let why = telling (λ a. IsOfSmallBitmap) in
        Takes why (λ a. small_bitmap) (HasFlags reader.old.bits reader.new.bits) reader.old result reader.new }
{
    let more = reader.take_bits(6)?;
    reader.take_front(more + 1)?;
    Ok(PresenceBits::InPlace(more + 1))
}

/// Takes a bitmap of one bit or more after an unconstrained length (X.691 11.9.3.5 to 11.9.3.8).
fn take_large_bitmap(reader: &mut Reader<'_>) -> Result<PresenceBits, DecodeErrorKind>
    ensures { let why = gathering fragments_of IsOfLargeBitmap in
        Takes why large_bitmap (HasFlags reader.old.bits reader.new.bits) reader.old result reader.new }
{
    let mut ahead = ahead_of(reader);
    match ahead.take_unconstrained_length()? {
        Length::Last(count) => {
            if count == 0 {
                return Err(DecodeErrorKind::ParserFail(ParserFailCause::EmptyBitmap));
            }
            ahead.take_front(count)?;
            *reader = ahead;
            Ok(PresenceBits::InPlace(count))
        }
        Length::Fragment(_) => Ok(PresenceBits::Gathered(reader.take_bit_string(
            &Constraints::NONE,
        )?)),
    }
}

/// Takes a bitmap as `take_bitmap` does, where it is one of up to 64 bits, and answers how many. After `None`, which
/// says that none is there so, the reader is of no further use. No error is made, and so none needs room.
#[inline(always)]
pub fn take_short_bitmap(reader: &mut Reader<'_>) -> Option<u128>
    ensures { let why = gathering large_fragments_of IsOfBitmap in IfSome result (λ count. Takes why IsBitmap
        (HasFlags reader.old.bits reader.new.bits) reader.old (Ok (InPlace count)) reader.new) }
{
    let Ok(false) = reader.take_bit() else {
        return None;
    };
    let Ok(PresenceBits::InPlace(count)) = take_small_bitmap(reader) else {
        return None;
    };
    Some(count)
}

/// Skips the additions after those that the schema knows, of which these are the presence bits (X.691 19.9): an open
/// type for each bit 1. It takes no memory.
pub fn skip_unknown(reader: &mut Reader<'_>, bitmap: Bitmap<'_>) -> Result<(), DecodeErrorKind>
    ensures { let why = telling (IsOfUnknown bitmap.entry) in
        Takes why (skipped_unknown bitmap.entry) itself reader.old result reader.new }
{
    for is_present in bitmap {
        if is_present {
            skip_open(reader)?;
        }
    }
    Ok(())
}
