//! How many components are still to come in the open scope, so that none is left out and none comes twice.

ghost use Rattle.std.specs.Prelude.{◌≡◌, false, true, IfErr, IfOk, OnErr, OnOk};
ghost use Rattle.per_core.specs.declared.decode_error.DecodeErrorKind.TheVariants.{AlreadyFailed};
ghost use Rattle.per_decoding.specs.Faults.{refusal};
ghost use Rattle.per_decoding.specs.State.{noting, with_turn};
ghost use Rattle.per_decoding.specs.Turns.{is_between, is_complete, next, within_list};
ghost use Rattle.per_de.specs.Turns.{IsBetween, IsComplete, turn_of};

use crate::Decoder;
use per_read::error::{DecodeError, DecodeErrorKind};

/// How many components are still to come in a scope.
#[derive(Clone, Copy, Debug)]
pub enum Turn {
    /// Nothing is counted.
    Uncounted,
    /// So many.
    Awaiting(usize),
    /// Of an open list so many values, before it is gone on in.
    InList(usize),
    /// None is in turn: one too many came, or a list is open in which nothing is counted.
    Misplaced,
}

impl Turn {
    /// What is still to come after one component more.
    pub(crate) fn next(self) -> Turn
        ensures { turn_of result ≡ next (turn_of self) }
    {
        match self {
            Turn::Uncounted => Turn::Uncounted,
            Turn::Awaiting(left) => match left.checked_sub(1) {
                Some(others) => Turn::Awaiting(others),
                None => Turn::Misplaced,
            },
            Turn::InList(left) => match left.checked_sub(1) {
                Some(others) => Turn::InList(others),
                None => Turn::Misplaced,
            },
            Turn::Misplaced => Turn::Misplaced,
        }
    }

    /// Whether all came that is due, where what comes is counted.
    pub(crate) fn is_complete(self) -> bool
        ensures { result ≡ is_complete (turn_of self) }
    {
        match self {
            Turn::Awaiting(left) => left == 0,
            Turn::Uncounted | Turn::InList(_) | Turn::Misplaced => false,
        }
    }

    /// Whether a list is open in which no value is still to come before it is gone on in.
    pub(crate) fn is_between(self) -> bool
        ensures { result ≡ is_between (turn_of self) }
    {
        match self {
            Turn::InList(left) => left == 0,
            _ => false,
        }
    }

    /// What is counted in a list whose values aren't: where something is counted around it, nothing is in turn before
    /// its end.
    #[inline(always)]
    pub(crate) fn within_list(self) -> Turn
        ensures { turn_of result ≡ within_list (turn_of self) }
    {
        match self {
            Turn::Uncounted => Turn::Uncounted,
            _ => Turn::Misplaced,
        }
    }
}

/// How many components are still to come in the open scope, as `Turn` has it, or that a call has refused.
#[derive(Clone, Copy, Debug)]
pub(crate) enum Mode {
    Uncounted,
    Awaiting(usize),
    InList(usize),
    Misplaced,
    Failed,
}

/// What waits outside while a scope is open, and how many components are still to come there.
#[derive(Drop)]
pub struct Around<T> {
    pub(crate) scope: T,
    pub(crate) turn: Turn,
}

impl<'input> Decoder<'input> {
    /// Notes a component, as a value begins. Refuses where a call has refused before.
    #[inline(always)]
    pub(crate) fn begin_value(&mut self) -> Result<(), DecodeError>
        ensures ok { OnOk result (self.old.failed ≡ false) }
        ensures noted { OnOk result (self.new ≡ noting self.old) }
        ensures err { IfErr result (λ e. e ≡ refusal AlreadyFailed self.old) }
        ensures failed { OnErr result (self.old.failed ≡ true) }
        ensures stays { OnErr result (self.new ≡ self.old) }
    {
        if let Mode::Uncounted = self.mode {
            return Ok(());
        }
        self.check_unfailed()?;
        self.note_counted();
        Ok(())
    }

    /// Notes a component that opens a scope, and answers how many components are still to come around it. Refuses
    /// where a call has refused before.
    #[inline(always)]
    pub(crate) fn begin_scope(&mut self) -> Result<Turn, DecodeError>
        ensures ok { OnOk result (self.old.failed ≡ false) }
        ensures noted { OnOk result (self.new ≡ noting self.old) }
        ensures turn { IfOk result (λ turn. turn_of turn ≡ self.new.turn) }
        ensures err { IfErr result (λ e. e ≡ refusal AlreadyFailed self.old) }
        ensures failed { OnErr result (self.old.failed ≡ true) }
        ensures stays { OnErr result (self.new ≡ self.old) }
    {
        if let Mode::Uncounted = self.mode {
            return Ok(Turn::Uncounted);
        }
        self.check_unfailed()?;
        if let Mode::Awaiting(1) = self.mode {
            self.mode = Mode::Awaiting(0);
            return Ok(Turn::Awaiting(0));
        }
        Ok(self.turn_counted())
    }

    /// Notes a component, and answers how many are still to come then.
    #[inline(never)]
    fn turn_counted(&mut self) -> Turn
        requires { self.old.failed ≡ false }
        ensures noted { self.new ≡ noting self.old }
        ensures turn { turn_of result ≡ self.new.turn }
    {
        let turn = self.turn().next();
        self.set_turn(turn);
        turn
    }

    /// What `note` does, also where something is counted.
    #[inline(never)]
    fn note_counted(&mut self)
        requires { self.old.failed ≡ false }
        ensures { self.new ≡ noting self.old }
    {
        let turn = self.turn();
        self.set_turn(turn.next());
    }

    /// Notes a component.
    #[inline(always)]
    pub(crate) fn note(&mut self)
        requires { self.old.failed ≡ false }
        ensures { self.new ≡ noting self.old }
    {
        if let Mode::Uncounted = self.mode {
            return;
        }
        self.note_counted();
    }

    /// How many components are still to come in the open scope.
    #[inline(always)]
    pub(crate) fn turn(&self) -> Turn
        ensures { turn_of result ≡ self.now.turn }
    {
        match self.mode {
            Mode::Uncounted | Mode::Failed => Turn::Uncounted,
            Mode::Awaiting(left) => Turn::Awaiting(left),
            Mode::InList(left) => Turn::InList(left),
            Mode::Misplaced => Turn::Misplaced,
        }
    }

    /// From now on so many components are still to come.
    #[inline(always)]
    pub(crate) fn set_turn(&mut self, turn: Turn)
        requires { self.old.failed ≡ false }
        ensures { self.new ≡ with_turn (turn_of turn) self.old }
    {
        self.mode = match turn {
            Turn::Uncounted => Mode::Uncounted,
            Turn::Awaiting(left) => Mode::Awaiting(left),
            Turn::InList(left) => Mode::InList(left),
            Turn::Misplaced => Mode::Misplaced,
        };
    }

    /// Refuses where a call has refused before, and where an open list can't be gone on in.
    pub(crate) fn check_between(&mut self) -> Result<(), DecodeError>
        ensures { IsBetween self.old result self.new }
    {
        self.check_unfailed()?;
        if !self.turn().is_between() {
            return Err(self.refuse(DecodeErrorKind::MissingTag));
        }
        Ok(())
    }

    /// Refuses where a call has refused before, where not as much came in the open scope as is due, and where nothing
    /// is counted there.
    #[inline(always)]
    pub(crate) fn check_complete(&mut self) -> Result<(), DecodeError>
        ensures { IsComplete self.old result self.new }
    {
        match self.mode {
            Mode::Awaiting(0) => Ok(()),
            _ => self.check_counted(),
        }
    }

    /// What `check_complete` does, also where it refuses.
    #[inline(never)]
    pub(crate) fn check_counted(&mut self) -> Result<(), DecodeError>
        ensures { IsComplete self.old result self.new }
    {
        self.check_unfailed()?;
        if !self.turn().is_complete() {
            return Err(self.refuse(DecodeErrorKind::MissingTag));
        }
        Ok(())
    }
}
