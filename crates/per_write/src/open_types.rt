//! Open types (X.691 11.2).

ghost use Rattle.std.specs.Prelude.{◌≡◌, ◌≤◌, false, length, Some, IfOk};
ghost use Rattle.rasn_types.specs.Variants.{Variant};
ghost use Rattle.per_core.specs.Counts.{open_bits};
ghost use Rattle.per_write.specs.Faults.{IsMemory};
ghost use Rattle.per_write.specs.WriterState.{PutsIn};
ghost use Rattle.per_pieces.specs.Pieces.{placed_bits};

use crate::Writer;
use crate::error::EncodeError;
use per_bits::BitList;
use per_bits::per::complete_in_place;
use per_pieces::Pieces;
use std::alloc::{AllocError, Allocator};

/// The most bits of contents that fill fewer than 128 octets, whose count takes one octet (X.691 11.9.3.6).
pub(crate) const SHORT_CONTENTS: u128 = 8 * 127;

impl<A: Allocator + Clone> Writer<A> {
    /// Writes an open type of some contents (X.691 11.2): their complete encoding, after the count of its octets.
    #[inline(always)]
    pub(crate) fn put_open_type(&mut self, contents: &BitList<A>) -> Result<(), EncodeError>
        requires { self.old.failed ≡ false }
        ensures { PutsIn IsMemory (λ a. open_bits a (Some contents.now)) self.old result self.new }
    {
        if contents.is_empty() {
            return self.put_octets(&[0]);
        }
        self.put_octets(contents.as_octets())
    }

    /// Writes an open type (X.691 11.2) whose contents were written before.
    pub fn put_open_pieces(&mut self, contents: Pieces<A>) -> Result<(), EncodeError>
        requires { self.old.failed ≡ false }
        ensures { PutsIn IsMemory (λ a. open_bits a (Some (placed_bits contents.list 0))) self.old result self.new }
    {
        let bits = contents.into_placed();
        let bits = self.unless_out_of_memory(bits)?;
        self.put_open_type(&bits)?;
        self.scratch = Some(bits);
        Ok(())
    }
}

/// The open type of contents that fill at most 127 octets (X.691 11.2, 11.9.3.6), written at position 0 in the
/// memory of the contents themselves. The only error is want of memory.
pub(crate) fn into_short_open_type<A: Allocator>(
    contents: BitList<A>,
) -> Result<BitList<A>, AllocError>
    requires { length contents ≤ SHORT_CONTENTS }
    ensures { IfOk result (λ opened. (a : Variant) → Some opened ≡ open_bits a (Some contents) 0) }
{
    let mut octets = complete_in_place(contents)?;
    octets.insert(0, octets.len() as u8)?;
    Ok(BitList::from_whole_octets(octets))
}
