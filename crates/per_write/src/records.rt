//! SEQUENCE (X.691 19): its extension bit and its presence bits stand as zeros until they are given, and its additions
//! are after its root.

ghost use Rattle.std.specs.Prelude.{◌≡◌, false, Some};
ghost use Rattle.per_write.specs.Records.{ClosesOrNot, OpensOrNot};

use crate::Writer;
use crate::error::{EncodeError, EncodeErrorKind};
use crate::presences::{Frame, Presences, exchanged};
use std::alloc::Allocator;

impl<A: Allocator + Clone> Writer<A> {
    /// Opens a SEQUENCE of so many presence bits, and, where it has an extension marker, of so many additions. The
    /// places of its extension bit and presence bits are kept, so that giving them takes no memory. Answers what waits
    /// outside until the SEQUENCE is closed.
    #[inline(always)]
    pub fn open_record(
        &mut self,
        presences: usize,
        additions: Option<usize>,
    ) -> Result<Frame<A>, EncodeError>
        requires { self.old.failed ≡ false }
        ensures { OpensOrNot presences additions self.old result self.new }
    {
        let kept = self.keep_additions(additions)?;
        let place = self.pieces.len();
        let zeros = self.pieces.push_zeros(presences);
        self.unless_out_of_memory(zeros)?;
        let first = Presences {
            place,
            left: presences,
        };
        Ok(self.enter(first, kept))
    }

    /// Closes a SEQUENCE of which each presence bit and each addition was given, else it refuses. Where an addition is
    /// there, its extension bit becomes 1, and after its root stand the bitmap and the open types. What waited outside
    /// is there again.
    #[inline(always)]
    pub fn close_record(&mut self, outside: Frame<A>) -> Result<(), EncodeError>
        requires { self.old.failed ≡ false }
        ensures { ClosesOrNot outside self.old result self.new }
    {
        if self.presences.left > 0 {
            return Err(self.refuse(EncodeErrorKind::OutOfTurn));
        }
        if let Some(additions) = exchanged(&mut self.additions, None) {
            self.put_additions(additions)?;
        }
        self.leave(outside);
        Ok(())
    }
}
