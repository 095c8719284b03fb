//! SEQUENCE and SET (X.691 19, 21): the extension bit, the presence bits, and the bitmap of the additions.

ghost use Rattle.std.specs.Prelude.{◌≡◌, ◌<◌, ◌-◌, false, length, slice_get, Some};
ghost use Rattle.rasn_schema.specs.Extensions.{fields_after};
ghost use Rattle.per_de.specs.Openings.{OpensRecord};
ghost use Rattle.per_de.specs.Steps.{AsksNext, IsRootRead, TakesBit, TakesBitmap, TakesExtensionBit};
ghost use Rattle.per_de.specs.Steps.{TakesFlags, TakesPresences};

use crate::{Decoder, Scope};
use per_decoding::source::{Extension, Flags, Span};
use per_read::bitmaps::{PresenceBits, take_bitmap, take_short_bitmap};
use per_read::error::{DecodeError, DecodeErrorKind};
use rasn_constraints::count::Count;
use rasn_schema::fields::Constructed;
use std::mem;

impl<'input> Decoder<'input> {
    /// The next presence bit of the open SEQUENCE's root components, where one is left.
    #[inline(always)]
    pub(crate) fn first_presence(&self) -> Option<bool>
        ensures { result ≡ slice_get self.now.presences 0 }
    {
        self.presences.first_of(&self.source.bits())
    }

    /// Takes so many presence bits off the bits left, and answers where they stand. Where fewer are left it refuses.
    #[inline(always)]
    pub(crate) fn take_presences(&mut self, count: u128) -> Result<Span, DecodeError>
        ensures { TakesPresences count self.old result self.new }
    {
        let left = self.bits.len();
        if left < count {
            return Err(self.refuse(DecodeErrorKind::Incomplete(Count::new(count - left))));
        }
        let begin = self.bits.begin;
        self.bits = self.bits.behind(count);
        Ok(Span {
            begin,
            end: self.bits.begin,
        })
    }

    /// Takes the next bit off the bits left. Where none is left it refuses.
    #[inline(always)]
    pub(crate) fn take_bit(&mut self) -> Result<bool, DecodeError>
        ensures { TakesBit self.old result self.new }
    {
        let bits = self.input();
        if bits.is_empty() {
            return Err(self.refuse(DecodeErrorKind::Incomplete(Count::new(1))));
        }
        let bit = bits.first_bit() == 1;
        self.bits = self.bits.behind(1);
        Ok(bit)
    }

    /// Takes the extension bit of a SEQUENCE (X.691 19.1), where its type has an extension marker.
    #[inline(always)]
    pub(crate) fn take_extension_bit(&mut self, marker: bool) -> Result<bool, DecodeError>
        ensures { TakesExtensionBit marker self.old result self.new }
    {
        if !marker {
            return Ok(false);
        }
        self.take_bit()
    }

    /// Opens a record, which takes a level: its extension bit and its presence bits are taken, and its root components
    /// follow, in whichever order. At no level left it refuses.
    #[inline(always)]
    pub(crate) fn open_record<C: Constructed>(&mut self) -> Result<Scope, DecodeError>
        ensures { OpensRecord C.parts C.IS_EXTENSIBLE C.additions self.old result self.new }
    {
        self.check_unfailed()?;
        let levels = self.level_inside()?;
        let extends = self.take_extension_bit(C::IS_EXTENSIBLE)?;
        let count = C::FIELDS.number_of_optional_and_default_fields();
        let presences = self.take_presences(count as u128)?;
        Ok(self.enter(Scope {
            presences,
            extension: Extension::of_bit(extends),
            expected: addition_count::<C>(),
            levels,
        }))
    }

    /// Takes a bitmap (X.691 19.7, 19.8), and answers its presence bits. Only one in fragments takes memory.
    pub(crate) fn take_flags(&mut self) -> Result<Flags, DecodeError>
        ensures { TakesBitmap self.old result self.new }
    {
        let outer = self.bits;
        let mut reader = self.reader();
        let taken = take_short_bitmap(&mut reader);
        let left = reader.bits().len();
        let Some(count) = taken else {
            return self.take_any_flags();
        };
        self.advance(left);
        Ok(Flags::InPlace(outer.in_front(left, count)))
    }

    /// Takes a bitmap in whichever form it is written.
    #[inline(never)]
    fn take_any_flags(&mut self) -> Result<Flags, DecodeError>
        ensures { TakesBitmap self.old result self.new }
    {
        let outer = self.bits;
        let mut reader = self.reader();
        let taken = take_bitmap(&mut reader);
        let left = reader.bits().len();
        match self.answer(taken, left)? {
            PresenceBits::InPlace(count) => Ok(Flags::InPlace(outer.in_front(left, count))),
            PresenceBits::Gathered(bits) => Ok(Flags::Gathered(bits, 0)),
        }
    }

    /// Takes out the presence bits of the open SEQUENCE's additions that are still to be read, where they are ahead off
    /// the bits left.
    #[inline(always)]
    pub(crate) fn take_extension(&mut self) -> Result<Flags, DecodeError>
        ensures { TakesFlags self.old result self.new }
    {
        match mem::replace(&mut self.extension, Extension::of_bit(false)) {
            Extension::Ahead => self.take_flags(),
            Extension::InPlace(span) => Ok(Flags::InPlace(span)),
            Extension::Gathered(bits, read) => Ok(Flags::Gathered(bits, read)),
        }
    }

    /// Refuses where a presence bit of the open SEQUENCE's root components wasn't read.
    #[inline(always)]
    pub(crate) fn check_root_read(&mut self) -> Result<(), DecodeError>
        ensures { IsRootRead self.old result self.new }
    {
        if self.presences.is_empty() || self.first_presence().is_none() {
            return Ok(());
        }
        Err(self.refuse(DecodeErrorKind::MissingTag))
    }

    /// Asks for the next addition of the open SEQUENCE (X.691 19.7, 19.8): its presence bit, or none past the end of
    /// the bitmap.
    #[inline(always)]
    pub(crate) fn next_addition(&mut self) -> Result<Option<bool>, DecodeError>
        requires { self.old.failed ≡ false }
        ensures { AsksNext self.old result self.new }
    {
        self.check_root_read()?;
        let Some(expected) = self.expected.checked_sub(1) else {
            return Err(self.refuse(DecodeErrorKind::TypeNotExtensible));
        };
        let mut flags = self.take_extension()?;
        let flag = flags.next(self.source.bits());
        self.extension = Extension::of_flags(flags);
        self.expected = expected;
        Ok(flag)
    }
}

/// How many additions a type has.
#[inline(always)]
pub(crate) fn addition_count<C: Constructed>() -> usize
    ensures { result ≡ length (fields_after C.EXTENDED_FIELDS) }
{
    match C::EXTENDED_FIELDS {
        Some(fields) => fields.len(),
        None => 0,
    }
}
