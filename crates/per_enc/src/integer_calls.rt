//! INTEGERs (X.691 13): short ones without room for an error, and any others.

ghost use Rattle.std.specs.Prelude.{◌≡◌, true, false, IsErrAnd, MatchOption};
ghost use Rattle.rasn_types.specs.Values.{whole};
ghost use Rattle.rasn_schema.specs.Forms.{number_schema};
ghost use Rattle.rasn_traits.specs.Calls.{Writes};
ghost use Rattle.per_enc.specs.Rules.{encoding_rules};
ghost use Rattle.per_enc.specs.ShortCalls.{PutsWhere};
ghost use Rattle.per_write.specs.Faults.{IsMemory};

use crate::Encoder;
use crate::integers::{Between, number_between, put_integer};
use per_write::error::EncodeError;
use rasn_schema::schema::{Constraints, IntegerType};
use std::alloc::Allocator;

impl<A: Allocator + Clone> Encoder<A> {
    /// Writes an INTEGER that an `i128` holds and that comes without an extension bit, under no bounds or within two,
    /// where no call was refused before. Answers whether memory sufficed; else the encoder has failed. `None` where it
    /// is another, and nothing has changed then. No error is made, and so none needs room.
    #[inline(always)]
    pub(crate) fn put_short_integer<I: IntegerType>(
        &mut self,
        constraints: &Constraints,
        value: &I,
    ) -> Option<bool>
        ensures { let v = whole (I.number value.now) in
            MatchOption result (self.new ≡ self.old)
            (λ suffices. PutsWhere suffices (number_schema constraints.now I.range) v self.old self.new) }
    {
        if self.writer.has_failed() {
            return None;
        }
        let Some(stated) = constraints.value() else {
            let number = value.to_i128()?;
            self.note_value();
            return Some(self.writer.put_short_whole(number));
        };
        let Between {
            lower,
            upper,
            number,
        } = number_between(&stated, value)?;
        self.note_value();
        Some(self.writer.put_between(lower, upper, number))
    }

    /// Writes an INTEGER in whichever form its constraints give it (X.691 13), or says that memory ran out before. What
    /// the call answers has its room here, so that a caller needs none for a short INTEGER.
    #[inline(always)]
    pub(crate) fn put_any_integer<I: IntegerType>(
        &mut self,
        is_out_of_memory: bool,
        constraints: &Constraints,
        value: &I,
    ) -> Result<(), EncodeError>
        ensures writes { is_out_of_memory ≡ false → Writes encoding_rules (number_schema constraints.now I.range)
            (whole (I.number value.now)) self.old result self.new }
        ensures memory { is_out_of_memory ≡ true → IsErrAnd result (λ e. IsMemory e self.old.writer) }
        ensures stays { is_out_of_memory ≡ true → self.new ≡ self.old }
    {
        self.put_other_integer(is_out_of_memory, constraints, value)
    }

    /// The same, as a call of its own.
    #[inline(never)]
    fn put_other_integer<I: IntegerType>(
        &mut self,
        is_out_of_memory: bool,
        constraints: &Constraints,
        value: &I,
    ) -> Result<(), EncodeError>
        ensures writes { is_out_of_memory ≡ false → Writes encoding_rules (number_schema constraints.now I.range)
            (whole (I.number value.now)) self.old result self.new }
        ensures memory { is_out_of_memory ≡ true → IsErrAnd result (λ e. IsMemory e self.old.writer) }
        ensures stays { is_out_of_memory ≡ true → self.new ≡ self.old }
    {
        if is_out_of_memory {
            return Err(self.writer.out_of_memory());
        }
        self.begin_value()?;
        match constraints.value() {
            Some(stated) => put_integer(&mut self.writer, stated, value),
            None => self.writer.put_unconstrained_whole(value),
        }
    }
}
