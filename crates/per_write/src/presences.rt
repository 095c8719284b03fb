//! Presence bits of components that may be absent (X.691 19.2), and what is kept of the SEQUENCE or CHOICE that is
//! open.

ghost use Rattle.std.specs.Prelude.{◌≡◌, Option, true, false};
ghost use Rattle.per_write.specs.Presences.{MarksOrNot};
ghost use Rattle.per_write.specs.WriterState.{empty_scope, within};

use crate::Writer;
use crate::additions::Additions;
use crate::error::{EncodeError, EncodeErrorKind};
use std::alloc::Allocator;
use std::marker::Model;
use std::mem;

/// The presence bits of a SEQUENCE that are still to be given. Zeros stand for them among the bits written.
#[derive(Drop)]
pub struct Presences {
    /// The place of the next one among the bits written.
    pub(crate) place: u128,
    /// How many there are.
    pub(crate) left: usize,
}

/// What waits outside of a SEQUENCE or CHOICE until it is closed: the presence bits that are still to be given there,
/// the additions, and whether anything is open there.
#[derive(Drop)]
pub struct Frame<A: Allocator + Clone> {
    presences: Presences,
    additions: Option<Additions<A>>,
    is_open: bool,
}

impl<A: Allocator + Clone> Model for Frame<A> {
    ghost use Rattle.per_write.specs.WriterState.{Frame};

    ghost Value = { Frame };

    ghost view = { λ a. record { presences = a.presences; additions = a.additions; is_open = a.is_open } };
}

impl<A: Allocator + Clone> Writer<A> {
    /// Gives the next presence bit of the open SEQUENCE; where none is left it refuses.
    #[inline(always)]
    pub fn set_presence(&mut self, is_there: bool) -> Result<(), EncodeError>
        requires { self.old.failed ≡ false }
        ensures { MarksOrNot is_there self.old result self.new }
    {
        let place = self.presences.place;
        if self.presences.left == 0 || place >= self.pieces.len() {
            return Err(self.refuse(EncodeErrorKind::OutOfTurn));
        }
        self.pieces.set(place, is_there);
        self.presences.place = place + 1;
        self.presences.left -= 1;
        Ok(())
    }

    /// Goes into a SEQUENCE or CHOICE. Answers what waits outside until it is closed.
    #[inline(always)]
    pub(crate) fn enter(
        &mut self,
        presences: Presences,
        additions: Option<Additions<A>>,
    ) -> Frame<A>
        ensures waits { result ≡ self.old.scope }
        ensures inside { self.new
            ≡ record self.old { scope = record { presences = presences; additions = additions; is_open = true } } }
    {
        Frame {
            presences: mem::replace(&mut self.presences, presences),
            additions: exchanged(&mut self.additions, additions),
            is_open: mem::replace(&mut self.is_open, true),
        }
    }

    /// Goes into an alternative of a CHOICE, of which no presence bit and no addition is given. Answers what waits
    /// outside until it is closed.
    #[inline(always)]
    pub fn enter_alternative(&mut self) -> Frame<A>
        ensures waits { result ≡ self.old.scope }
        ensures inside { self.new ≡ record self.old { scope = empty_scope true } }
    {
        self.enter(Presences { place: 0, left: 0 }, None)
    }

    /// States whether anything is open from now on. Answers whether anything was until then.
    #[inline(always)]
    pub fn set_open(&mut self, is_open: bool) -> bool
        ensures before { result ≡ self.old.scope.is_open }
        ensures from_now_on { self.new ≡ within is_open self.old }
    {
        mem::replace(&mut self.is_open, is_open)
    }

    /// Goes out of a SEQUENCE or CHOICE: what waited outside is there again.
    #[inline(always)]
    pub fn leave(&mut self, outside: Frame<A>)
        ensures { self.new ≡ record self.old { scope = outside } }
    {
        let Frame {
            presences,
            additions,
            is_open,
        } = outside;
        self.presences = presences;
        exchanged(&mut self.additions, additions);
        self.is_open = is_open;
    }
}

/// Puts additions in the place of others, and answers these. Where there are none, none are moved.
#[inline(always)]
pub(crate) fn exchanged<A: Allocator + Clone>(
    place: &mut Option<Additions<A>>,
    additions: Option<Additions<A>>,
) -> Option<Additions<A>>
    ensures before { result ≡ place.old }
    ensures from_now_on { place.new ≡ additions }
{
    if place.is_none() && additions.is_none() {
        return None;
    }
    mem::replace(place, additions)
}
