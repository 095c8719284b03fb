//! What is written before its place is known: an alternative in front of which its index will stand, a component of a
//! SET, an element of a SET OF (X.691 21, 22, 23). In the aligned variant its padding is known with its place alone.

ghost use Rattle.std.specs.Prelude.{◌≡◌, false, IfOk};
ghost use Rattle.per_pieces.specs.Pieces.{unplaced, writer_of};
ghost use Rattle.per_write.specs.Faults.{IsMemory};
ghost use Rattle.per_write.specs.Unplaced.{BeginsUnplacedOrNot};
ghost use Rattle.per_write.specs.WriterState.{Puts};

use crate::Writer;
use crate::error::EncodeError;
use crate::presences::{Frame, Presences};
use per_pieces::Pieces;
use std::alloc::{AllocError, Allocator};
use std::marker::Model;
use std::mem;

/// What waits while something is written before its place is known: what was written before, and what was open.
#[derive(Drop)]
pub struct OutsideUnplaced<A: Allocator + Clone> {
    /// What was written before.
    pub pieces: Pieces<A>,
    /// What was open.
    pub scope: Frame<A>,
}

impl<A: Allocator + Clone> Model for OutsideUnplaced<A> {
    ghost use Rattle.per_write.specs.Unplaced.{OutsideUnplaced};

    ghost Value = { OutsideUnplaced };

    ghost view = { λ a. record { pieces = a.pieces; scope = a.scope } };
}

impl<A: Allocator + Clone> Writer<A> {
    /// What is written from now on has no place yet. Answers what waits until `close_unplaced`. The only error is want
    /// of memory.
    #[inline(always)]
    pub fn open_unplaced(&mut self) -> Result<OutsideUnplaced<A>, EncodeError>
        requires { self.old.failed ≡ false }
        ensures { BeginsUnplacedOrNot self.old result self.new }
    {
        let none = no_pieces(&self.pieces);
        let none = self.unless_out_of_memory(none)?;
        let nothing = Presences { place: 0, left: 0 };
        let scope = self.enter(nothing, None);
        Ok(OutsideUnplaced {
            pieces: mem::replace(&mut self.pieces, none),
            scope,
        })
    }

    /// Takes out what was written since `open_unplaced`; what waited is there again.
    #[inline(always)]
    pub fn close_unplaced(&mut self, waiting: OutsideUnplaced<A>) -> Pieces<A>
        ensures taken { result ≡ self.old.pieces }
        ensures outside { self.new ≡ record self.old { pieces = waiting.pieces; scope = waiting.scope } }
    {
        let OutsideUnplaced { pieces, scope } = waiting;
        self.leave(scope);
        mem::replace(&mut self.pieces, pieces)
    }

    /// Writes what was written before its place was known.
    #[inline(always)]
    pub fn put_pieces(&mut self, pieces: &Pieces<A>) -> Result<(), EncodeError>
        requires { self.old.failed ≡ false }
        ensures { Puts IsMemory (writer_of pieces.now.list) self.old result self.new }
    {
        let pushed = self.pieces.push_pieces(pieces);
        self.unless_out_of_memory(pushed)?;
        Ok(())
    }
}

/// No pieces, whose place isn't known, in memory of the allocator of others.
fn no_pieces<A: Allocator + Clone>(pieces: &Pieces<A>) -> Result<Pieces<A>, AllocError>
    ensures { IfOk result (λ none. none ≡ unplaced) }
{
    Pieces::new_unplaced(pieces.bits().allocator().clone()?)
}
