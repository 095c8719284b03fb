//! Scopes as they are entered and left where nothing is counted, and those of records that count their components.

ghost use Rattle.std.specs.Prelude.{◌≡◌, false, true};
ghost use Rattle.rasn_schema.specs.Forms.{is_size_marked, size_of};
ghost use Rattle.rasn_traits.specs.AdditionsRead.{AdditionOpenedToRead};
ghost use Rattle.rasn_traits.specs.Contents.{OpenedContentsToRead};
ghost use Rattle.rasn_traits.specs.Lists.{ListOpenedToRead};
ghost use Rattle.rasn_traits.specs.Optionals.{ReadsBit};
ghost use Rattle.rasn_traits.specs.Scopes.{ClosesRead, ClosesReadInTurn};
ghost use Rattle.per_decoding.specs.Rules.{decoder_rules, plain_rules};
ghost use Rattle.per_decoding.specs.Scopes.{with_outside_record};
ghost use Rattle.per_decoding.specs.State.{with_turn};
ghost use Rattle.per_decoding.specs.Turns.{is_uncounted};
ghost use Rattle.per_de.specs.InTurn.{GoesOn, LeavesChoice, LeavesOpen, LeavesRecord, OpensCounted, Owes, are_open};
ghost use Rattle.per_de.specs.InTurn.{closes_in_turn, closes_uncounted, is_addition_open, is_open_uncounted};
ghost use Rattle.per_de.specs.InTurn.{unended_in_turn, unended_uncounted};
ghost use Rattle.per_de.specs.Lists.{IsOpenList, outer_of};
ghost use Rattle.per_decoding.specs.Sources.{flags_in};
ghost use Rattle.per_de.specs.Steps.{SkipsRest, SkipsUnknown};
ghost use Rattle.per_de.specs.Turns.{turn_of};

use crate::turns::{Around, Turn};
use crate::{Addition, Alternative, Decoder, ListScope, OpenedList, Scope};
use per_decoding::source::Flags;
use per_read::bitmaps::skip_unknown;
use per_read::error::{DecodeError, DecodeErrorKind};
use rasn_schema::constraints::Constraints;
use rasn_schema::fields::Constructed;
use std::mem;

impl<'input> Decoder<'input> {
    /// Opens a record, a component of what is around it, and counts its own components from here on.
    #[inline(always)]
    pub(crate) fn open_counted<C: Constructed>(&mut self) -> Result<Around<Scope>, DecodeError>
        ensures { OpensCounted C.parts C.IS_EXTENSIBLE C.additions self.old result self.new }
    {
        self.begin_value()?;
        let turn = self.turn();
        let scope = self.open_record::<C>()?;
        self.set_turn(Turn::Awaiting(C::FIELDS.len()));
        Ok(Around { scope, turn })
    }

    /// Closes a record in which all came that is due.
    #[inline(always)]
    pub(crate) fn close_in_turn(&mut self, outside: Around<Scope>) -> Result<(), DecodeError>
        ensures { ClosesReadInTurn decoder_rules is_open_uncounted unended_in_turn closes_in_turn outside
            self.old result self.new }
    {
        self.check_complete()?;
        self.leave_record(outside.scope)?;
        self.set_turn(outside.turn);
        Ok(())
    }

    /// Closes a record in which nothing was counted.
    #[inline(always)]
    pub(crate) fn close_uncounted(&mut self, outside: Around<Scope>) -> Result<(), DecodeError>
        requires { is_uncounted self.old.turn ≡ true }
        ensures { ClosesRead decoder_rules unended_uncounted closes_uncounted outside self.old result self.new }
    {
        let turn = outside.turn;
        self.leave_record(outside.scope)?;
        self.set_turn(turn);
        Ok(())
    }

    /// Closes a record, whatever was counted: skips the additions that its type doesn't know (X.691 19.9), and gives
    /// its level back.
    #[inline(always)]
    fn leave_record(&mut self, scope: Scope) -> Result<(), DecodeError>
        ensures { LeavesRecord scope self.old result self.new }
    {
        self.check_unfailed()?;
        self.check_root_read()?;
        if self.expected > 0 {
            return Err(self.refuse(DecodeErrorKind::MissingTag));
        }
        self.skip_rest()?;
        self.leave(scope);
        Ok(())
    }

    /// Opens the open type of the next addition, whatever was counted, where the addition is there.
    #[inline(always)]
    pub(crate) fn enter_addition(&mut self) -> Result<Option<Addition<'input>>, DecodeError>
        ensures { Owes (AdditionOpenedToRead plain_rules is_addition_open self.old result self.new)
            self.old result self.new }
    {
        self.check_unfailed()?;
        match self.next_addition()? {
            Some(true) => Ok(Some(self.enter_open_type()?)),
            _ => Ok(None),
        }
    }

    /// Leaves an open type of which one value was read, whatever was counted.
    #[inline(always)]
    pub(crate) fn leave_open(&mut self, addition: Addition<'input>) -> Result<(), DecodeError>
        ensures { LeavesOpen addition.entry self.old result self.new }
    {
        self.check_unfailed()?;
        self.close_open_type(addition)
    }

    /// Leaves a CHOICE, whatever was counted.
    #[inline(always)]
    pub(crate) fn leave_choice(
        &mut self,
        alternative: Alternative<'input>,
    ) -> Result<(), DecodeError>
        ensures { LeavesChoice alternative.entry self.old result self.new }
    {
        self.check_unfailed()?;
        let scope = alternative.scope;
        let contents = alternative.contents;
        if let Some(contents) = contents {
            self.close_added(contents)?;
        }
        self.leave(scope);
        Ok(())
    }

    /// Enters octets that contain a value, whatever was counted.
    #[inline(always)]
    pub(crate) fn enter_containing(&mut self) -> Result<Addition<'input>, DecodeError>
        ensures { Owes (OpenedContentsToRead plain_rules are_open self.old result self.new)
            self.old result self.new }
    {
        self.check_unfailed()?;
        self.enter_open_type()
    }

    /// Opens a list, whatever was counted.
    #[inline(always)]
    pub(crate) fn enter_list(&mut self, constraints: &Constraints) -> Result<ListScope, DecodeError>
        ensures { Owes (ListOpenedToRead plain_rules IsOpenList (size_of constraints.now)
            (is_size_marked constraints.now) self.old result self.new) self.old result self.new }
    {
        self.check_unfailed()?;
        let levels = self.level_inside()?;
        let mut reader = self.reader();
        let taken = reader.open_list(constraints);
        let left = reader.bits().len();
        let list = self.answer(taken, left)?;
        let outside = mem::replace(&mut self.levels, levels);
        Ok(ListScope {
            list,
            levels: outside,
        })
    }

    /// Goes on in an open list, whatever was counted.
    #[inline(always)]
    pub(crate) fn next_item(&mut self, scope: &mut ListScope) -> Result<bool, DecodeError>
        ensures { GoesOn scope.old self.old result scope.new self.new }
    {
        self.check_unfailed()?;
        if scope.list.go_on() {
            return Ok(true);
        }
        let mut reader = self.reader();
        let taken = reader.next_element(&mut scope.list);
        let left = reader.bits().len();
        let follows = self.answer(taken, left)?;
        if !follows {
            self.levels = scope.levels;
        }
        Ok(follows)
    }

    /// Ends a list whose values were counted: what waited outside is back.
    pub(crate) fn end_list(&mut self, list: &mut Around<OpenedList>)
        requires { self.old.failed ≡ false }
        ensures { self.new ≡ with_turn (turn_of list.old.turn)
            (with_outside_record self.old (outer_of self.old.source list.old.scope.outer)) }
    {
        let outer = list.scope.outer.take().unwrap_or(Scope::without_record(0));
        self.leave(outer);
        self.set_turn(list.turn);
    }

    /// Skips the additions that the open SEQUENCE's type doesn't know, of which these are the presence bits (X.691
    /// 19.9).
    #[inline(always)]
    fn skip_additions(&mut self, flags: Flags) -> Result<(), DecodeError>
        ensures { SkipsUnknown (flags_in self.old.source.bits flags) self.old result self.new }
    {
        let bitmap = flags.into_bitmap(self.source.bits());
        let mut reader = self.reader();
        let taken = skip_unknown(&mut reader, bitmap);
        let left = reader.bits().len();
        self.answer(taken, left)
    }

    /// Skips what is left of the open SEQUENCE's additions, which its type doesn't know, after their bitmap where that
    /// is still ahead (X.691 19.7 to 19.9).
    fn skip_left(&mut self) -> Result<(), DecodeError>
        ensures { SkipsRest self.old result self.new }
    {
        let flags = self.take_extension()?;
        self.skip_additions(flags)
    }

    /// Skips what is left of the open SEQUENCE's additions, where anything may be left.
    #[inline(always)]
    fn skip_rest(&mut self) -> Result<(), DecodeError>
        ensures { SkipsRest self.old result self.new }
    {
        if self.extension.is_over() {
            return Ok(());
        }
        self.skip_left()
    }

    /// Takes off the next presence bit of the open SEQUENCE's root components, whatever was counted.
    #[inline(always)]
    pub(crate) fn take_presence(&mut self) -> Result<bool, DecodeError>
        ensures { ReadsBit plain_rules self.old result self.new }
    {
        self.check_unfailed()?;
        match self.first_presence() {
            Some(bit) => {
                self.presences = self.presences.behind(1);
                Ok(bit)
            }
            None => Err(self.refuse(DecodeErrorKind::MissingTag)),
        }
    }
}
