//! The index of a CHOICE (X.691 23.6). It is known after its alternative alone, so its bits are kept where the CHOICE
//! is opened.

ghost use Rattle.std.specs.Prelude.{◌≡◌, ◌+◌, ◌^◌, ◌<◌, ◌≤◌, false};
ghost use Rattle.rasn_types.specs.Variants.{variant_of};
ghost use Rattle.per_write.specs.Choices.{FillsIndexOrNot, IsFilled, OpensIndexOrNot, index_padding, index_width};
ghost use Rattle.per_write.specs.Faults.{IsMemory};
ghost use Rattle.per_write.specs.WriterState.{PutsIn};

use crate::Writer;
use crate::error::{EncodeError, EncodeErrorKind};
use crate::presences::{Frame, Presences};
use per_pieces::Pieces;
use per_pieces::lengths::push_padding;
use rasn_types::types::Codec;
use rasn_types::width::width_of;
use std::alloc::Allocator;

impl<A: Allocator + Clone> Writer<A> {
    /// Opens a CHOICE of so many root alternatives: zeros stand for the index of the one that follows. Answers what
    /// waits outside until the CHOICE is closed.
    pub fn open_index(&mut self, count: usize) -> Result<Frame<A>, EncodeError>
        requires { self.old.failed ≡ false }
        ensures { OpensIndexOrNot count self.old result self.new }
    {
        self.put_index_padding(count)?;
        let place = self.pieces.len();
        let zeros = self.pieces.push_zeros(index_width(self.codec, count));
        self.unless_out_of_memory(zeros)?;
        let index = Presences { place, left: 0 };
        Ok(self.enter(index, None))
    }

    /// Closes a CHOICE of so many root alternatives by the index of the one that was written. What waited outside is
    /// there again. Where no index is kept it refuses.
    pub fn close_index(
        &mut self,
        count: usize,
        index: usize,
        outside: Frame<A>,
    ) -> Result<(), EncodeError>
        requires { self.old.failed ≡ false }
        ensures { FillsIndexOrNot count index outside self.old result self.new }
    {
        let width = index_width(self.codec, count);
        let place = self.presences.place;
        let written = self.pieces.len();
        if written < width as u128 || written - (width as u128) < place {
            return Err(self.refuse(EncodeErrorKind::OutOfTurn));
        }
        fill(&mut self.pieces, place, width, index);
        self.leave(outside);
        Ok(())
    }

    /// Writes what is in front of the index of one of so many root alternatives: in the aligned variant zeros up to
    /// the next octet, where the index is whole octets (X.691 11.5.7).
    pub fn put_index_padding(&mut self, count: usize) -> Result<(), EncodeError>
        requires { self.old.failed ≡ false }
        ensures { PutsIn IsMemory (λ a. index_padding a count) self.old result self.new }
    {
        if count < 256 {
            return Ok(());
        }
        let pushed = push_padding(&mut self.pieces, self.codec);
        self.unless_out_of_memory(pushed)?;
        Ok(())
    }
}

/// How many bits the index of one of so many root alternatives takes (X.691 11.5.6, 11.5.7), of which there are at most
/// 65536.
pub fn index_width(codec: Codec, count: usize) -> usize
    ensures width { result ≡ index_width (variant_of codec) count }
    ensures few { result ≤ 64 }
{
    if codec == Codec::Aper && count > 256 {
        return 16;
    }
    width_of(count as u128) as usize
}

/// Writes the low `width` bits of a number, highest first, over the zeros that are at a place.
fn fill<A: Allocator>(pieces: &mut Pieces<A>, place: u128, width: usize, number: usize)
    requires within { place + width < 2 ^ 128 }
    requires few { width ≤ 64 }
    ensures place { pieces.new.placed ≡ pieces.old.placed }
    ensures filled { IsFilled place width number pieces.old.list pieces.new.list }
{
    let mut next = place;
    let mut left = width;
    while left > 0 {
        left -= 1;
        let weight = 2_u128.pow(left as u32);
        pieces.set(next, number as u128 % (2 * weight) >= weight);
        next += 1;
    }
}
