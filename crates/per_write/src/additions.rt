//! The additions after the extension marker of a SEQUENCE (X.691 19.7 to 19.9). They are gathered while its root is
//! open, and stand after the root when it is closed.

ghost use Rattle.std.specs.Prelude.{◌≡◌, length, true, false, nat_lt, Some};
ghost use Rattle.per_core.specs.Writers.{padding};
ghost use Rattle.per_pieces.specs.Pieces.{placed_bits};
ghost use Rattle.per_write.specs.Additions.{ClosesOrNot as ClosesOpenType, GivesOrNot, is_group_there};
ghost use Rattle.per_write.specs.Additions.{OpensOrNot as OpensOpenType, PutsAddition, PutsContents};
ghost use Rattle.per_write.specs.Additions.{SkipsOrNot, TakesOrNot};
ghost use Rattle.per_write.specs.Faults.{IsMemory};
ghost use Rattle.per_write.specs.Records.{KeepsOrNot, PutsAdditions};
ghost use Rattle.per_write.specs.WriterState.{PutsIn};

use crate::error::{EncodeError, EncodeErrorKind};
use crate::flags::{GatheredFlags, has_one};
use crate::open_types::{SHORT_CONTENTS, into_short_open_type};
use crate::presences::Presences;
use crate::{Writer, cleared_or_new, no_bits};
use per_bits::{BitList, BitReader};
use per_pieces::Pieces;
use per_pieces::lengths::push_padding;
use std::alloc::Allocator;
use std::marker::Model;
use std::mem;

/// The additions of an open SEQUENCE (X.691 19.7 to 19.9).
#[derive(Drop)]
pub struct Additions<A: Allocator + Clone> {
    /// The place of the extension bit among the bits written, where a zero stands for it.
    extension: u128,
    /// How many additions the schema has.
    count: usize,
    /// A bit for each that was given so far: whether it is there.
    flags: GatheredFlags<A>,
    /// The open types of those that are there, one after another.
    opens: BitList<A>,
}

impl<A: Allocator + Clone> Model for Additions<A> {
    ghost use Rattle.per_write.specs.WriterState.{Additions};

    ghost Value = { Additions };

    ghost view = { λ a. record { extension = a.extension; count = a.count; flags = a.flags; opens = a.opens } };
}

/// What waits outside of an open type until it is closed: what was written before, and what was open.
#[derive(Drop)]
pub struct OutsideAddition<A: Allocator + Clone> {
    pieces: Pieces<A>,
    presences: Presences,
    additions: Additions<A>,
}

impl<A: Allocator + Clone> Model for OutsideAddition<A> {
    ghost use Rattle.per_write.specs.Additions.{OutsideAddition};

    ghost Value = { OutsideAddition };

    ghost view = { λ a. record { pieces = a.pieces; presences = a.presences; additions = a.additions } };
}

impl<A: Allocator + Clone> Writer<A> {
    /// Gives the next addition of the open SEQUENCE as absent. Where none is left it refuses.
    #[inline(always)]
    pub fn skip_addition(&mut self) -> Result<(), EncodeError>
        requires { self.old.failed ≡ false }
        ensures { SkipsOrNot self.old result self.new }
    {
        let pushed = match &mut self.additions {
            Some(additions) if additions.is_left() => {
                additions.flags.push(false, self.pieces.bits())
            }
            _ => return Err(self.refuse(EncodeErrorKind::TooManyAdditions)),
        };
        self.unless_out_of_memory(pushed)?;
        Ok(())
    }

    /// Opens the open type of the next addition of the open SEQUENCE: its contents are written from position 0 on.
    /// Where no addition is left it refuses. Answers what waits outside until the open type is closed.
    #[inline(always)]
    pub fn open_addition(&mut self) -> Result<OutsideAddition<A>, EncodeError>
        requires { self.old.failed ≡ false }
        ensures { OpensOpenType self.old result self.new }
    {
        let additions = self.take_additions()?;
        let empty = cleared_or_new(self.scratch.take(), self.pieces.bits());
        let empty = self.unless_out_of_memory(empty)?;
        let nothing = Presences { place: 0, left: 0 };
        Ok(OutsideAddition {
            pieces: mem::replace(&mut self.pieces, Pieces::from_bits(empty)),
            presences: mem::replace(&mut self.presences, nothing),
            additions,
        })
    }

    /// Closes the open type of an addition (X.691 11.2): what was written in it becomes whole octets, after their
    /// count. The bits from before are there again.
    #[inline(always)]
    pub fn close_addition(&mut self, outside: OutsideAddition<A>) -> Result<(), EncodeError>
        requires { self.old.failed ≡ false }
        ensures { ClosesOpenType true outside self.old result self.new }
    {
        let OutsideAddition {
            pieces,
            presences,
            additions,
        } = outside;
        let additions = self.put_addition(additions, pieces)?;
        self.presences = presences;
        self.give_addition(additions, true)
    }

    /// Closes the open type of an addition group. Where none of its parts is required, and all bits that were written
    /// are zeros, all its parts are absent: then the group is absent (X.691 19.9).
    #[inline(always)]
    pub fn close_group(
        &mut self,
        outside: OutsideAddition<A>,
        has_required: bool,
    ) -> Result<(), EncodeError>
        requires { self.old.failed ≡ false }
        ensures { ClosesOpenType (is_group_there has_required (placed_bits self.old.pieces.list 0)) outside
            self.old result self.new }
    {
        if has_required || has_one(self.pieces.bits()) {
            return self.close_addition(outside);
        }
        let OutsideAddition {
            pieces,
            presences,
            additions,
        } = outside;
        self.scratch = mem::replace(&mut self.pieces, pieces).into_placed().ok();
        self.presences = presences;
        self.give_addition(additions, false)
    }

    /// Puts what was written, as the contents of an open type (X.691 11.2), after the open types of other additions.
    /// Where there is none, short contents become it in their own memory. What was written before is there again.
    fn put_addition(
        &mut self,
        mut additions: Additions<A>,
        before: Pieces<A>,
    ) -> Result<Additions<A>, EncodeError>
        requires { self.old.failed ≡ false }
        ensures { PutsAddition additions before self.old result self.new }
    {
        let contents = mem::replace(&mut self.pieces, before).into_placed();
        let contents = self.unless_out_of_memory(contents)?;
        if !additions.opens.is_empty() || contents.len() > SHORT_CONTENTS {
            return self.put_after(additions, contents);
        }
        let opens = into_short_open_type(contents);
        additions.opens = self.unless_out_of_memory(opens)?;
        Ok(additions)
    }

    /// Puts the contents of an open type (X.691 11.2) after the open types of other additions.
    fn put_after(
        &mut self,
        additions: Additions<A>,
        contents: BitList<A>,
    ) -> Result<Additions<A>, EncodeError>
        requires { self.old.failed ≡ false }
        ensures { PutsContents additions contents self.old result self.new }
    {
        let Additions {
            extension,
            count,
            flags,
            opens,
        } = additions;
        let before = mem::replace(&mut self.pieces, Pieces::from_bits(opens));
        self.put_open_type(&contents)?;
        self.scratch = Some(contents);
        let opens = mem::replace(&mut self.pieces, before).into_placed();
        let opens = self.unless_out_of_memory(opens)?;
        Ok(Additions {
            extension,
            count,
            flags,
            opens,
        })
    }

    /// Where there is an extension marker, writes a zero for the extension bit, and keeps its place for so many
    /// additions.
    #[inline(always)]
    pub(crate) fn keep_additions(
        &mut self,
        count: Option<usize>,
    ) -> Result<Option<Additions<A>>, EncodeError>
        requires { self.old.failed ≡ false }
        ensures { KeepsOrNot count self.old result self.new }
    {
        let Some(count) = count else {
            return Ok(None);
        };
        let extension = self.pieces.len();
        let pushed = self.pieces.push(false);
        self.unless_out_of_memory(pushed)?;
        let opens = no_bits(self.pieces.bits());
        let opens = self.unless_out_of_memory(opens)?;
        Ok(Some(Additions {
            extension,
            count,
            flags: GatheredFlags::new(),
            opens,
        }))
    }

    /// The additions of the open SEQUENCE, of which one is still to be given; where none is left it refuses.
    #[inline(always)]
    fn take_additions(&mut self) -> Result<Additions<A>, EncodeError>
        requires { self.old.failed ≡ false }
        ensures { TakesOrNot self.old result self.new }
    {
        match self.additions.take() {
            Some(additions) if additions.is_left() => Ok(additions),
            _ => Err(self.refuse(EncodeErrorKind::TooManyAdditions)),
        }
    }

    /// Goes on with additions of which one more is given.
    #[inline(always)]
    fn give_addition(&mut self, additions: Additions<A>, is_there: bool) -> Result<(), EncodeError>
        requires { self.old.failed ≡ false }
        ensures { GivesOrNot is_there additions self.old result self.new }
    {
        let mut additions = additions;
        let pushed = additions.flags.push(is_there, self.pieces.bits());
        self.unless_out_of_memory(pushed)?;
        self.additions = Some(additions);
        Ok(())
    }

    /// Writes the additions after the root of a SEQUENCE (X.691 19.7 to 19.9), unless none is there. Where one wasn't
    /// given it refuses.
    #[inline(always)]
    pub(crate) fn put_additions(&mut self, additions: Additions<A>) -> Result<(), EncodeError>
        requires { self.old.failed ≡ false }
        ensures { PutsAdditions additions self.old result self.new }
    {
        if additions.flags.len() != additions.count as u128 {
            return Err(self.refuse(EncodeErrorKind::OutOfTurn));
        }
        if !additions.flags.has_one() {
            return Ok(());
        }
        self.pieces.set(additions.extension, true);
        self.put_bitmap(&additions.flags, additions.count)?;
        self.put_padding()?;
        let opens = additions.opens;
        self.put_reader(&BitReader::new(&opens))?;
        self.scratch = Some(opens);
        Ok(())
    }

    /// Writes zero bits up to the next octet in the aligned variant.
    #[inline(always)]
    fn put_padding(&mut self) -> Result<(), EncodeError>
        requires { self.old.failed ≡ false }
        ensures { PutsIn IsMemory padding self.old result self.new }
    {
        let pushed = push_padding(&mut self.pieces, self.codec);
        self.unless_out_of_memory(pushed)?;
        Ok(())
    }
}

impl<A: Allocator + Clone> Additions<A> {
    /// Whether one is still to be given.
    fn is_left(&self) -> bool
        ensures { result ≡ nat_lt (length self.now.flags) self.now.count }
    {
        self.flags.len() < self.count as u128
    }
}
