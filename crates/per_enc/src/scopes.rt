//! What each call counts: as a value begins it is a component of what encloses it, and a scope is closed where as many
//! came as were awaited (X.691 19, 21.1, 23).

ghost use Rattle.std.specs.Prelude.{◌≡◌, true, false, OnOk, OnErr, IfOk, IfErr};
ghost use Rattle.rasn_traits.specs.Optionals.{GivesBit};
ghost use Rattle.per_enc.specs.AlternativeCounts.{counted_variants};
ghost use Rattle.per_enc.specs.Records.{counted_after};
ghost use Rattle.per_enc.specs.Rules.{encoding_rules, noting};
ghost use Rattle.per_enc.specs.Scopes.{IsAmidElement, IsUnclosed};
ghost use Rattle.per_pieces.specs.Turns.{counts, is_between, is_complete, uncounted};
ghost use Rattle.per_write.specs.Faults.{IsAlready};

use crate::Encoder;
use per_write::EnclosingSet;
use per_write::error::{EncodeError, EncodeErrorKind};
use rasn_schema::choices::Choice;
use rasn_schema::fields::Constructed;
use std::alloc::Allocator;

impl<A: Allocator + Clone> Encoder<A> {
    /// Begins a value, unless a call was refused before: it is that of a component of what encloses it.
    #[inline(always)]
    pub(crate) fn begin_value(&mut self) -> Result<(), EncodeError>
        ensures ok { OnOk result (self.old.writer.failed ≡ false) }
        ensures noted { OnOk result (self.new ≡ noting self.old) }
        ensures err { IfErr result (λ e. IsAlready e self.old.writer) }
        ensures failed { OnErr result (self.old.writer.failed ≡ true) }
        ensures stays { OnErr result (self.new ≡ self.old) }
    {
        self.writer.check_unfailed()?;
        self.note_value();
        Ok(())
    }

    /// Begins a value where no call was refused before, as `begin_value` does.
    #[inline(always)]
    pub(crate) fn note_value(&mut self)
        ensures { self.new ≡ noting self.old }
    {
        self.writer.note_value(&mut self.set);
    }

    /// Begins a value that others are in, which nothing around it takes for its components. Answers what encloses it,
    /// which waits meanwhile.
    #[inline(always)]
    pub(crate) fn begin_outer_value(&mut self) -> Result<EnclosingSet<A>, EncodeError>
        ensures ok { OnOk result (self.old.writer.failed ≡ false) }
        ensures waits { IfOk result (λ set. set ≡ (noting self.old).set) }
        ensures inside { OnOk result (self.new ≡ record { writer = (noting self.old).writer; set = counts uncounted }) }
        ensures err { IfErr result (λ e. IsAlready e self.old.writer) }
        ensures failed { OnErr result (self.old.writer.failed ≡ true) }
        ensures stays { OnErr result (self.new ≡ self.old) }
    {
        self.begin_value()?;
        Ok(self.set.take())
    }

    /// Refuses to close what is open where a call was refused before, or not as many components came as were awaited.
    #[inline(always)]
    pub(crate) fn check_scope(&mut self) -> Result<(), EncodeError>
        ensures begun { OnOk result (self.old.writer.failed ≡ false) }
        ensures complete { OnOk result (is_complete self.old.set ≡ true) }
        ensures stays { OnOk result (self.new ≡ self.old) }
        ensures err { IfErr result (λ e. IsUnclosed e self.old) }
        ensures fails { OnErr result (self.new.writer.failed ≡ true) }
        ensures kept { self.new.writer.codec ≡ self.old.writer.codec }
    {
        self.writer.check_unfailed()?;
        if self.set.is_complete() {
            return Ok(());
        }
        Err(self.writer.refuse(EncodeErrorKind::OutOfTurn))
    }

    /// Refuses to go on in an open list where a call was refused before, or not as many values came as were awaited.
    pub(crate) fn check_between(&mut self) -> Result<(), EncodeError>
        ensures begun { OnOk result (self.old.writer.failed ≡ false) }
        ensures between { OnOk result (is_between self.old.set ≡ true) }
        ensures stays { OnOk result (self.new ≡ self.old) }
        ensures err { IfErr result (λ e. IsAmidElement e self.old) }
        ensures fails { OnErr result (self.new.writer.failed ≡ true) }
        ensures kept { self.new.writer.codec ≡ self.old.writer.codec }
    {
        self.writer.check_unfailed()?;
        if self.set.is_between() {
            return Ok(());
        }
        Err(self.writer.refuse(EncodeErrorKind::OutOfTurn))
    }

    /// Gives the next presence bit where components are counted or gathered. Takes no memory. What the call answers
    /// has its room here, so that a caller needs none where nothing is counted.
    #[inline(always)]
    pub(crate) fn set_presence_within(&mut self, is_there: bool) -> Result<(), EncodeError>
        requires { self.old.writer.failed ≡ false }
        ensures { GivesBit encoding_rules is_there self.old result self.new }
    {
        self.set_counted_presence(is_there)
    }

    /// The same, as a call of its own.
    #[inline(never)]
    fn set_counted_presence(&mut self, is_there: bool) -> Result<(), EncodeError>
        requires { self.old.writer.failed ≡ false }
        ensures { GivesBit encoding_rules is_there self.old result self.new }
    {
        if !self.set.is_gathered() {
            self.writer.set_presence(is_there)?;
        }
        self.writer.begin_component(&mut self.set, is_there);
        Ok(())
    }
}

/// How many additions a type has, where it has an extension marker.
pub(crate) fn addition_count<C: Constructed>() -> Option<usize>
    ensures { result ≡ counted_after C.IS_EXTENSIBLE C.EXTENDED_FIELDS }
{
    if !C::IS_EXTENSIBLE {
        return None;
    }
    match C::EXTENDED_FIELDS {
        Some(fields) => Some(fields.len()),
        None => Some(0),
    }
}

/// How many added alternatives a choice has, where it has an extension marker.
pub(crate) fn added_count<C: Choice>() -> Option<usize>
    ensures { result ≡ counted_variants C.EXTENDED_VARIANTS }
{
    match C::EXTENDED_VARIANTS {
        Some(variants) => Some(variants.len()),
        None => None,
    }
}
