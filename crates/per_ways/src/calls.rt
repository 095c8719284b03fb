//! How the trail moves when calls of a decoder or of an encoder are answered: by whether the answer was Ok, where the
//! last `bits` bits are left then. A refusal stops it.

use crate::trail::{Frame, Trail};
use rasn_types::types::Tag;
use std::alloc::AllocError;

impl Trail {
    ghost use Rattle.std.specs.Prelude.{◌≡◌, OnOk, OnErr};
    ghost use Rattle.rasn_schema.specs.Structures.{tag_of};
    ghost use Rattle.per_ways.specs.Trails.{way};
    ghost use Rattle.per_ways.specs.Ways.{addition_left, answered, begun, begun_under, entered, gone_on, left, paused};
    ghost use Rattle.per_ways.specs.Ways.{stays, stopped_at, told_of, within};

    /// After a call that moves nothing.
    pub fn seen(&mut self, is_ok: bool, bits: u128)
        ensures { way self.new ≡ answered is_ok bits stays (way self.old) }
    {
        if !is_ok {
            self.stop(bits);
        }
    }

    /// After a call with which a value begins.
    pub fn begun(&mut self, is_ok: bool, bits: u128)
        ensures { way self.new ≡ answered is_ok bits stays (begun (way self.old)) }
    {
        self.begin();
        self.seen(is_ok, bits);
    }

    /// After a call with which a value begins under a tag.
    pub fn begun_under(&mut self, tag: Tag, is_ok: bool, bits: u128)
        ensures { way self.new ≡ answered is_ok bits stays (begun_under (tag_of tag) (way self.old)) }
    {
        self.begin_under(tag);
        self.seen(is_ok, bits);
    }

    /// After a call with which a value begins, and that opens what is around what follows. The only error is want of
    /// memory: then it stops.
    pub fn opened(&mut self, frame: Frame, is_ok: bool, bits: u128) -> Result<(), AllocError>
        ensures ok { OnOk result (way self.new ≡ answered is_ok bits (entered frame) (begun (way self.old))) }
        ensures err { OnErr result (way self.new ≡ stopped_at bits (begun (way self.old))) }
    {
        self.begin();
        self.opened_now(frame, is_ok, bits)
    }

    /// After a call with which a value begins under a tag, and that opens what is around what follows. The only error
    /// is want of memory: then it stops.
    pub fn opened_under(
        &mut self,
        tag: Tag,
        frame: Frame,
        is_ok: bool,
        bits: u128,
    ) -> Result<(), AllocError>
        ensures ok { OnOk result (way self.new ≡
            answered is_ok bits (entered frame) (begun_under (tag_of tag) (way self.old))) }
        ensures err { OnErr result (way self.new ≡ stopped_at bits (begun_under (tag_of tag) (way self.old))) }
    {
        self.begin_under(tag);
        self.opened_now(frame, is_ok, bits)
    }

    /// After a call that opens what is around what follows.
    fn opened_now(&mut self, frame: Frame, is_ok: bool, bits: u128) -> Result<(), AllocError>
        ensures ok { OnOk result (way self.new ≡ answered is_ok bits (entered frame) (way self.old)) }
        ensures err { OnErr result (way self.new ≡ stopped_at bits (way self.old)) }
    {
        if is_ok {
            return self.enter(frame, bits);
        }
        self.stop(bits);
        Ok(())
    }

    /// After a call that closes the innermost of what is around.
    pub fn closed(&mut self, is_ok: bool, bits: u128)
        ensures { way self.new ≡ answered is_ok bits left (way self.old) }
    {
        if is_ok {
            self.leave();
        } else {
            self.stop(bits);
        }
    }

    /// After a call that closes the open type of an addition.
    pub fn closed_addition(&mut self, is_ok: bool, bits: u128)
        ensures { way self.new ≡ answered is_ok bits addition_left (way self.old) }
    {
        if is_ok {
            self.leave_addition();
        } else {
            self.stop(bits);
        }
    }

    /// After a call that tells whether the next component of a record's root is there.
    pub fn told_of(&mut self, is_there: bool, is_ok: bool, bits: u128)
        ensures { way self.new ≡ answered is_ok bits stays (told_of is_there (within paused (way self.old))) }
    {
        self.pause();
        if !is_there {
            self.skip();
        }
        self.seen(is_ok, bits);
    }

    /// After a call that goes on to a list's next element, or tells that there is none: `Some` of whether there is one,
    /// where it wasn't refused.
    pub fn gone_on(&mut self, answer: Option<bool>, bits: u128)
        ensures { way self.new ≡ gone_on answer bits (within paused (way self.old)) }
    {
        self.pause();
        match answer {
            Some(true) => self.begin_element(),
            Some(false) => self.leave(),
            None => self.stop(bits),
        }
    }
}
