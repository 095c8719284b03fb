//! The decoder of the packed encoding rules: it reads every basic encoding.
#![tactic(auto)]

ghost use Rattle.std.specs.Prelude.{◌≡◌, ◌≤◌, true, false, length, OnOk, OnErr, IfErr};
ghost use Rattle.rasn_types.specs.Bits.{unpack};
ghost use Rattle.rasn_types.specs.Values.{octets, whole};
ghost use Rattle.rasn_schema.specs.Forms.{number_schema};
ghost use Rattle.rasn_schema.specs.Schemas.{Schema};
ghost use Rattle.rasn_traits.specs.Calls.{Reads, freely_read};
ghost use Rattle.per_core.specs.declared.decode_error.DecodeErrorKind.TheVariants.{AlreadyFailed};
ghost use Rattle.per_decoding.specs.Faults.{refusal, Answered};
ghost use Rattle.per_decoding.specs.Rules.{plain_rules};
ghost use Rattle.per_decoding.specs.Scopes.{Enters, LevelInside, no_record, with_outside_record};
ghost use Rattle.per_decoding.specs.State.{State, fresh, fresh_of, from_octet, reader_of, refused, with_last};
ghost use Rattle.per_de.specs.Outsides.{outside_record_of};
ghost use Rattle.per_decoding.specs.Sources.{bits_of, extension_in, place_left, span_of, up_to, unread_of, IsWithin};
ghost use Rattle.per_de.specs.Steps.{HasTwoLevels};
ghost use Rattle.per_de.specs.Turns.{is_failed, turn_in};

use per_bits::{BitList, BitReader};
use per_decoding::enumerated::take_enumerated;
use per_decoding::integers::take_integer;
pub use per_decoding::options::DecoderOptions;
pub use per_read::error;
pub use per_read::error::{DecodeError, DecodeErrorKind, ParserFailCause};
use per_read::lists::UnreadElements;
use per_read::{Reader, ReaderOptions};
use rasn_schema::constraints::Constraints;
use rasn_schema::enumerated::Enumerated;
use rasn_schema::schema::IntegerType;
use rasn_types::types::Codec;
use std::alloc::{Allocator, Global};
use std::marker::Model;
use std::mem;

mod choices;
pub mod counted;
pub mod elements;
mod octets;
pub mod open_lists;
mod open_types;
mod records;
mod scopes;
pub mod taken_octets;
pub mod turns;
mod typed;

use open_types::WholeOctets;
use per_decoding::source::{Extension, Source, Span};
use turns::Mode;

/// A reader of values from the front of bits. Every basic encoding is read, canonical or not; where padding must be
/// zero, every one whose padding is.
#[derive(Drop)]
pub struct Decoder<'input> {
    source: Source<'input>,
    /// The bits that are left.
    bits: Span,
    /// The presence bits of the open SEQUENCE's root components that are still to be read.
    presences: Span,
    /// What is still to be read of the bitmap of its additions.
    extension: Extension,
    /// How many additions of its type are still to be asked for.
    expected: usize,
    options: ReaderOptions,
    alloc: Global,
    levels: u32,
    /// Whether a call has refused, and how many components are still to come in the open scope.
    mode: Mode,
}

impl<'input> Model for Decoder<'input> {
    ghost Value = { State };

    ghost view = { λ d. record {
      source = up_to d.bits d.source;
      bits = span_of d.bits (bits_of d.source);
      failed = is_failed d.mode;
      levels = d.levels;
      codec = d.options.codec;
      zero_padding = d.options.zero_padding;
      presences = span_of d.presences (bits_of d.source);
      extension = extension_in (bits_of d.source) d.extension;
      expected = d.expected;
      turn = turn_in d.mode;
    } };

    ghost invariant = { λ d. IsWithin d.bits (bits_of d.source) };
}

impl<'input> Decoder<'input> {
    /// A decoder of all bits of the list, which lends octets of it. What its values own is taken from `alloc`.
    pub fn new<A: Allocator>(
        alloc: Global,
        input: &'input BitList<A>,
        options: DecoderOptions,
    ) -> Self
        ensures { result ≡ fresh (from_octet input.now) options }
    {
        Decoder::from_reader(alloc, BitReader::new(input), options)
    }

    /// A decoder of the bits that a reader has left, which lends octets of the reader's input. What its values own is
    /// taken from `alloc`.
    #[inline(always)]
    pub fn from_reader(alloc: Global, input: BitReader<'input>, options: DecoderOptions) -> Self
        ensures { result ≡ fresh input.entry options }
    {
        Decoder::of_source(alloc, Source::Input(input), options)
    }

    /// A decoder of the bits of octets, the highest of each octet first, which lends the octets. What its values own is
    /// taken from `alloc`.
    #[inline(always)]
    pub fn from_octets(alloc: Global, octets: &'input [u8], options: DecoderOptions) -> Self
        ensures { result ≡ fresh (from_octet (unpack octets.now)) options }
    {
        Decoder::from_reader(alloc, BitReader::from_octets(octets), options)
    }

    /// A decoder of all bits of a source.
    #[inline(always)]
    fn of_source(alloc: Global, source: Source<'input>, options: DecoderOptions) -> Self
        ensures { result ≡ fresh_of (unread_of source.entry) options }
    {
        let end = source.bits().len();
        Decoder {
            source,
            bits: Span { begin: 0, end },
            presences: Span::empty(),
            extension: Extension::of_bit(false),
            expected: 0,
            options: options.reader(),
            alloc,
            levels: options.levels(),
            mode: Mode::Uncounted,
        }
    }

    /// The bits that are left, from the place of the first in its octet on. Within an open type in fragments they are
    /// those of its gathered contents, which the decoder owns.
    #[inline(always)]
    pub fn input(&self) -> BitReader<'_>
        ensures bits { result.bits ≡ self.now.bits }
        ensures place { result.place ≡ place_left self.now }
    {
        self.bits.all_of(self.source.bits())
    }

    /// How many bits are left.
    #[inline(always)]
    pub fn left(&self) -> u128
        ensures { result ≡ length self.now.bits }
    {
        self.bits.len()
    }

    /// The variant in use.
    #[inline(always)]
    pub fn codec(&self) -> Codec
        ensures { result ≡ self.now.codec }
    {
        self.options.codec
    }

    /// Reads an ENUMERATED in whichever form it is written (X.691 14).
    #[inline(never)]
    fn read_enumerated<E: Enumerated>(&mut self) -> Result<E, DecodeError>
        ensures { Reads (freely_read plain_rules) (Schema.items E.roots E.addeds E.EXTENSIBLE) E.value
            self.old result self.new }
    {
        self.check_unfailed()?;
        let mut reader = self.reader();
        let taken = take_enumerated(&mut reader);
        let left = reader.bits().len();
        self.answer(taken, left)
    }

    /// Reads an INTEGER under constraints in whichever form it is written (X.691 13).
    #[inline(never)]
    fn read_integer<I: IntegerType>(&mut self, constraints: &Constraints) -> Result<I, DecodeError>
        ensures { Reads plain_rules (number_schema constraints.now I.range) (λ i. whole (I.number i))
            self.old result self.new }
    {
        self.check_unfailed()?;
        let mut reader = self.reader();
        let taken = take_integer(&mut reader, constraints);
        let left = reader.bits().len();
        self.answer(taken, left)
    }

    /// A reader of the bits that are left.
    #[inline(always)]
    fn reader(&self) -> Reader<'_>
        ensures { result ≡ reader_of self.now }
    {
        Reader::new(self.alloc, self.input(), self.options)
    }

    /// An error of a kind, with the variant in use.
    #[inline(always)]
    fn error(&self, kind: DecodeErrorKind) -> DecodeError
        ensures { result ≡ refusal kind self.now }
    {
        DecodeError {
            kind,
            codec: self.options.codec,
        }
    }

    /// Refuses where a call has refused before.
    #[inline(always)]
    fn check_unfailed(&self) -> Result<(), DecodeError>
        ensures ok { OnOk result (self.now.failed ≡ false) }
        ensures err { IfErr result (λ e. e ≡ refusal AlreadyFailed self.now) }
        ensures failed { OnErr result (self.now.failed ≡ true) }
    {
        match self.mode {
            Mode::Failed => Err(self.error(DecodeErrorKind::AlreadyFailed)),
            _ => Ok(()),
        }
    }

    /// The error of a refused call, after which every call is refused.
    #[inline(always)]
    fn refuse(&mut self, kind: DecodeErrorKind) -> DecodeError
        ensures error { result ≡ refusal kind self.old }
        ensures state { self.new ≡ refused self.old }
    {
        self.mode = Mode::Failed;
        self.error(kind)
    }

    /// What was taken by a reader that has so many bits left, which are then left here too, unless it was refused; then
    /// the decoder has failed.
    #[inline(always)]
    fn answer<T: Drop>(
        &mut self,
        taken: Result<T, DecodeErrorKind>,
        left: u128,
    ) -> Result<T, DecodeError>
        ensures { Answered taken left self.old result self.new }
    {
        match taken {
            Ok(value) => {
                self.keep_last(left);
                Ok(value)
            }
            Err(kind) => Err(self.refuse(kind)),
        }
    }

    /// Takes off the bits left all but the last so many.
    #[inline(always)]
    fn keep_last(&mut self, left: u128)
        ensures { self.new ≡ with_last self.old left }
    {
        self.bits.begin = self.bits.begin.max(self.bits.end.saturating_sub(left));
    }

    /// Takes off the bits left all but the last so many, which are some of them.
    #[inline(always)]
    fn advance(&mut self, left: u128)
        requires { left ≤ length self.old.bits }
        ensures { self.new ≡ with_last self.old left }
    {
        self.bits.begin = self.bits.end - left;
    }

    /// How many levels may be entered one level deeper. At no level left it refuses.
    #[inline(always)]
    fn level_inside(&mut self) -> Result<u32, DecodeError>
        ensures { LevelInside self.old result self.new }
    {
        match self.levels.checked_sub(1) {
            Some(levels) => Ok(levels),
            None => Err(self.refuse(DecodeErrorKind::ExceedsMaxParseDepth)),
        }
    }

    /// Refuses where fewer levels are left than a DATE takes (X.691 32): that of its SEQUENCE, and that of its year's
    /// CHOICE.
    fn check_date_levels(&mut self) -> Result<(), DecodeError>
        ensures { HasTwoLevels self.old result self.new }
    {
        if self.levels < 2 {
            return Err(self.refuse(DecodeErrorKind::ExceedsMaxParseDepth));
        }
        Ok(())
    }

    /// Enters a scope with other levels and another SEQUENCE to read, and answers what waits outside.
    #[inline(always)]
    fn enter(&mut self, inside: Scope) -> Scope
        ensures { Enters (outside_record_of self.old.source inside) self.old
            (outside_record_of self.new.source result) self.new }
    {
        Scope {
            presences: mem::replace(&mut self.presences, inside.presences),
            extension: mem::replace(&mut self.extension, inside.extension),
            expected: mem::replace(&mut self.expected, inside.expected),
            levels: mem::replace(&mut self.levels, inside.levels),
        }
    }

    /// Leaves a scope: what waited outside is back.
    #[inline(always)]
    fn leave(&mut self, outside: Scope)
        ensures { self.new ≡ with_outside_record self.old (outside_record_of self.old.source outside) }
    {
        self.presences = outside.presences;
        self.extension = outside.extension;
        self.expected = outside.expected;
        self.levels = outside.levels;
    }
}

/// What waits outside while a scope is open: the levels that may be entered there, and what is still to be read of the
/// SEQUENCE there.
#[derive(Drop)]
pub struct Scope {
    // the wide ones first, so that no padding is between them
    presences: Span,
    extension: Extension,
    expected: usize,
    levels: u32,
}

impl Scope {
    /// So many levels, and nothing of a SEQUENCE to read.
    #[inline(always)]
    fn without_record(levels: u32) -> Self
        ensures { (s : State) → outside_record_of s.source result ≡ no_record levels }
    {
        Scope {
            presences: Span::empty(),
            extension: Extension::of_bit(false),
            expected: 0,
            levels,
        }
    }
}

/// What waits outside while the open type of an addition is open, or octets that contain a value: the bits after it,
/// and what is still to be read of the SEQUENCE there.
#[derive(Drop)]
pub struct Addition<'input> {
    bits: Span,
    /// Where the bits outside come from, if not from where the contents do.
    source: Option<Source<'input>>,
    presences: Span,
    extension: Extension,
    expected: usize,
    /// How many bits the contents had.
    total: WholeOctets,
}

/// What waits outside while a CHOICE is open: the levels that may be entered there, and what waits outside the open
/// type of an alternative after the extension marker.
#[derive(Drop)]
pub struct Alternative<'input> {
    scope: Scope,
    contents: Option<Addition<'input>>,
}

/// What is left of an open list, and what waits outside: the levels that may be entered there.
#[derive(Drop)]
pub struct ListScope {
    list: UnreadElements,
    levels: u32,
}

/// What is left of an open list, and where its values are counted what waits outside: what is still to be read of the
/// SEQUENCE there, of which nothing is read meanwhile.
#[derive(Drop)]
pub struct OpenedList {
    list: ListScope,
    outer: Option<Scope>,
}
