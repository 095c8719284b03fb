//! Open types (X.691 11.2) and other octets that contain a value: how they are entered and left.

ghost use Rattle.std.specs.Prelude.{◌≡◌, ◌<◌, ◌-◌, ◌*◌, ◌%◌, false, length, Some};
ghost use Rattle.rasn_types.specs.Bits.{unpack};
ghost use Rattle.rasn_types.specs.Values.{octets, whole};
ghost use Rattle.per_decoding.specs.Additions.{EntersContents, with_outside_addition};
ghost use Rattle.per_de.specs.Outsides.{outside_addition_of};
ghost use Rattle.per_decoding.specs.Sources.{IsWithin, span_of};
ghost use Rattle.per_de.specs.Steps.{ClosesContents, EndsContents, EntersOpen};

use crate::{Addition, Decoder};
use per_decoding::source::{Extension, Source, Span};
use per_read::error::{DecodeError, DecodeErrorKind};
use per_read::open_types::{Contents, end_of_open, take_open};
use rasn_constraints::count::Count;
use std::marker::Model;
use std::mem;

/// Whole octets, counted in bits.
#[derive(Clone, Copy, Debug)]
pub(crate) struct WholeOctets {
    bits: u128,
}

impl Model for WholeOctets {
    ghost use Rattle.std.specs.Prelude.{◌≡◌, ◌%◌, ℕ};

    ghost Value = { ℕ };

    ghost view = { λ o. o.bits };

    ghost inverse = { λ v. record { bits = v } };

    ghost invariant = { λ o. o.bits % 8 ≡ 0 };
}

impl WholeOctets {
    /// So many bits.
    #[inline(always)]
    pub(crate) fn new(bits: u128) -> Self
        requires { bits % 8 ≡ 0 }
        ensures { result ≡ bits }
    {
        WholeOctets { bits }
    }

    /// How many bits they have.
    #[inline(always)]
    pub(crate) fn bits(self) -> u128
        ensures is { result ≡ self }
        ensures octets { result % 8 ≡ 0 }
    {
        self.bits
    }
}

impl<'input> Decoder<'input> {
    /// Enters contents that are in the source, and answers what waits outside.
    #[inline(always)]
    pub(crate) fn enter_contents(&mut self, contents: Span, total: WholeOctets) -> Addition<'input>
        requires within { IsWithin contents self.old.source.bits }
        requires whole { total ≡ length (span_of contents self.old.source.bits) }
        ensures { EntersContents (span_of contents self.old.source.bits) self.old
            (outside_addition_of self.new.source result) self.new }
    {
        Addition {
            bits: mem::replace(&mut self.bits, contents),
            source: None,
            presences: mem::replace(&mut self.presences, Span::empty()),
            extension: mem::replace(&mut self.extension, Extension::of_bit(false)),
            expected: mem::replace(&mut self.expected, 0),
            total,
        }
    }

    /// Enters contents that were gathered, and answers what waits outside.
    pub(crate) fn enter_gathered(&mut self, octets: Vec<u8>) -> Addition<'input>
        ensures { EntersContents (unpack octets.items) self.old (outside_addition_of self.new.source result) self.new }
    {
        let end = 8 * octets.len() as u128;
        Addition {
            source: Some(mem::replace(&mut self.source, Source::Gathered(octets))),
            bits: mem::replace(&mut self.bits, Span { begin: 0, end }),
            presences: mem::replace(&mut self.presences, Span::empty()),
            extension: mem::replace(&mut self.extension, Extension::of_bit(false)),
            expected: mem::replace(&mut self.expected, 0),
            total: WholeOctets::new(end),
        }
    }

    /// Takes the length of an open type (X.691 11.2), enters its contents, and answers what waits outside. Only those
    /// in fragments take memory.
    #[inline(always)]
    pub(crate) fn enter_open_type(&mut self) -> Result<Addition<'input>, DecodeError>
        ensures { EntersOpen self.old result self.new }
    {
        let outer = self.bits;
        let mut reader = self.reader();
        let taken = take_open(&mut reader);
        let left = reader.bits().len();
        match self.answer(taken, left)? {
            Contents::InPlace(count) => {
                let contents = outer.in_front(left, count);
                Ok(self.enter_contents(contents, WholeOctets::new(count)))
            }
            Contents::Gathered(octets) => Ok(self.enter_gathered(octets)),
        }
    }

    /// Whether what is left of contents ends them (X.691 11.1).
    #[inline(always)]
    pub(crate) fn end_of_contents(&self, total: WholeOctets) -> Result<(), DecodeErrorKind>
        ensures { EndsContents self.now total result }
    {
        let reader = self.reader();
        let left = reader.bits().len();
        if left > total.bits() {
            return Err(DecodeErrorKind::UnexpectedExtraData(Count::new(left - total.bits())));
        }
        end_of_open(&reader, total.bits())
    }

    /// Leaves an open type: what waited outside is back.
    #[inline(always)]
    pub(crate) fn leave_contents(&mut self, outside: Addition<'input>)
        ensures { self.new ≡ with_outside_addition self.old (outside_addition_of self.old.source outside.entry) }
    {
        let source = outside.source;
        if let Some(source) = source {
            self.source = source;
        }
        self.bits = outside.bits.within(&self.source.bits());
        self.presences = outside.presences;
        self.extension = outside.extension;
        self.expected = outside.expected;
    }

    /// Leaves an open type where what is left of its contents ends them (X.691 11.1), and else refuses.
    #[inline(always)]
    pub(crate) fn close_open_type(&mut self, outside: Addition<'input>) -> Result<(), DecodeError>
        ensures { ClosesContents (outside_addition_of self.old.source outside.entry) self.old result self.new }
    {
        match self.end_of_contents(outside.total) {
            Ok(()) => {
                self.leave_contents(outside);
                Ok(())
            }
            Err(kind) => Err(self.refuse(kind)),
        }
    }
}
