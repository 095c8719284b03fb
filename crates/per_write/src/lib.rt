//! What the packed encoding rules write, bit by bit (ITU-T X.691): whole numbers, lengths, counted strings, records and
//! what is between the elements of a list, in their canonical form, after what was written before.
#![tactic(auto)]

ghost use Rattle.std.specs.Prelude.{◌≡◌, ◌≤◌, ◌∷◌, [], true, false, Some, OnOk, OnErr, IfOk, IfErr};
ghost use Rattle.rasn_types.specs.Bits.{to_bits};
ghost use Rattle.rasn_types.specs.Variants.{variant_of};
ghost use Rattle.rasn_traits.specs.Absent.{WritesAbsent};
ghost use Rattle.rasn_traits.specs.Counted.{WritesOther};
ghost use Rattle.rasn_traits.specs.Reals.{WritesNoReal};
ghost use Rattle.per_bits.specs.Octets.{low_bits_of};
ghost use Rattle.per_core.specs.Writers.{just, one_by_one};
ghost use Rattle.per_core.specs.Counts.{octet_writers, unconstrained_octets};
ghost use Rattle.per_core.specs.Canon.{completed};
ghost use Rattle.per_pieces.specs.Pieces.{no_pieces};
ghost use Rattle.per_write.specs.WriterState.{fresh, view, HoldsOutput, Puts};
ghost use Rattle.per_write.specs.Rules.{encoder_rules};
ghost use Rattle.per_write.specs.Faults.{IsError, IsMemory, IsAlready, RefusesOutput};

mod additions;
mod bitmaps;
pub mod choices;
mod components;
pub mod error;
mod flags;
pub mod items;
pub mod lists;
pub mod numbers;
mod open_types;
mod presences;
mod records;
mod sizes;
mod strings;
mod unplaced;

use additions::Additions;
pub use additions::OutsideAddition;
use error::{EncodeError, EncodeErrorKind};
use items::Octets;
use per_bits::per::complete_in_place;
use per_bits::{BitList, BitReader};
use per_core::lengths::FRAGMENT;
use per_pieces::Pieces;
pub use per_pieces::enclosing::EnclosingSet;
use per_pieces::lengths::push_counted_octets;
pub use presences::Frame;
use presences::Presences;
use rasn_types::types::Codec;
use std::alloc::{AllocError, Allocator};
use std::marker::Model;
use std::mem;
pub use unplaced::OutsideUnplaced;

/// Writes numbers, lengths and strings, one after another, in their canonical bits. An error leaves it failed, and
/// nothing more is written then.
#[derive(Drop)]
pub struct Writer<A: Allocator + Clone> {
    pieces: Pieces<A>,
    failed: bool,
    codec: Codec,
    presences: Presences,
    additions: Option<Additions<A>>,
    /// Whether a SEQUENCE, a SET, a CHOICE, a list or a bag is open.
    is_open: bool,
    /// Bits that aren't in use any more, in whose memory the contents of the next open type are written. No contract
    /// speaks of them.
    scratch: Option<BitList<A>>,
}

impl<A: Allocator + Clone> Model for Writer<A> {
    ghost use Rattle.per_write.specs.WriterState.{WriterState};

    ghost Value = { WriterState };

    ghost view = { λ a. record {
      pieces = a.pieces;
      failed = a.failed;
      codec = a.codec;
      scope = record { presences = a.presences; additions = a.additions; is_open = a.is_open };
    } };
}

impl<A: Allocator + Clone> Writer<A> {
    /// A writer that has written nothing. It takes no memory yet; what it writes and puts out is kept in memory of
    /// `alloc`.
    pub fn new(alloc: A, codec: Codec) -> Self
        ensures { result ≡ fresh codec }
    {
        Writer::new_with_output(codec, BitList::new(alloc))
    }

    /// A writer that has written nothing, as `new` makes it, over a list of bits. The bits are cleared; the list's
    /// memory may be used for what is written. It takes no memory yet.
    #[inline(always)]
    pub fn new_with_output(codec: Codec, mut output: BitList<A>) -> Self
        ensures { result ≡ fresh codec }
    {
        output.clear();
        Writer {
            pieces: Pieces::from_bits(output),
            failed: false,
            codec,
            presences: Presences { place: 0, left: 0 },
            additions: None,
            is_open: false,
            scratch: None,
        }
    }

    /// The variant in use.
    pub fn codec(&self) -> Codec
        ensures { result ≡ self.now.codec }
    {
        self.codec
    }

    /// The complete encoding of what was written so far (X.691 11.1), which is then taken out: the next value is
    /// written at the start again.
    ///
    /// An error says that the writer had failed before, else `OutOfTurn`, where a SEQUENCE, a SET, a CHOICE, a list or
    /// a bag is open, of which half a value was written, and else that memory ran out. The writer has failed then.
    #[inline(always)]
    pub fn output(&mut self) -> Result<Vec<u8, A>, EncodeError>
        ensures octets { IfOk result (λ octets. completed (view self.old 0) ≡ Some octets.items) }
        ensures taken { OnOk result (self.new ≡ record self.old { pieces = no_pieces }) }
        ensures begun { OnOk result (self.old.failed ≡ false) }
        ensures outside { OnOk result (self.old.scope.is_open ≡ false) }
        ensures err { IfErr result (λ e. RefusesOutput e self.old) }
        ensures fails { OnErr result (self.new.failed ≡ true) }
        ensures kept { self.new.codec ≡ self.old.codec }
    {
        self.check_unfailed()?;
        if self.is_open {
            return Err(self.refuse(EncodeErrorKind::OutOfTurn));
        }
        let empty = no_bits(self.pieces.bits());
        let empty = self.unless_out_of_memory(empty)?;
        let bits = mem::replace(&mut self.pieces, Pieces::from_bits(empty)).into_placed();
        let bits = self.unless_out_of_memory(bits)?;
        let octets = complete_in_place(bits);
        self.unless_out_of_memory(octets)
    }

    /// Puts what `output` gives behind what a buffer holds. The next value is written in the memory that this one had.
    ///
    /// An error is that of `output`, also where the buffer finds no memory; it is as it was then.
    pub fn output_onto(&mut self, buffer: &mut Vec<u8, A>) -> Result<(), EncodeError>
        ensures octets { OnOk result (HoldsOutput buffer.old.items self.old buffer.new.items) }
        ensures same { OnErr result (buffer.new.items ≡ buffer.old.items) }
        ensures taken { OnOk result (self.new ≡ record self.old { pieces = no_pieces }) }
        ensures begun { OnOk result (self.old.failed ≡ false) }
        ensures outside { OnOk result (self.old.scope.is_open ≡ false) }
        ensures err { IfErr result (λ e. RefusesOutput e self.old) }
        ensures fails { OnErr result (self.new.failed ≡ true) }
        ensures kept { self.new.codec ≡ self.old.codec }
    {
        let octets = self.output()?;
        let appended = buffer.extend_from_slice(&octets);
        self.pieces = Pieces::from_bits(BitList::from_memory(octets));
        match appended {
            Ok(()) => Ok(()),
            Err(_) => Err(self.refuse(EncodeErrorKind::OutOfMemory)),
        }
    }

    /// What was written, and where the memory of more is from.
    pub fn pieces(&self) -> &Pieces<A>
        ensures { result.now ≡ self.now.pieces }
    {
        &self.pieces
    }

    /// The allocator of what is written, for what is made on the way to it.
    pub fn allocator(&mut self) -> Result<A, EncodeError>
        ensures kept { OnOk result (self.new ≡ self.old) }
        ensures err { IfErr result (λ e. IsMemory e self.old) }
        ensures fails { OnErr result (self.new ≡ record self.old { failed = true }) }
    {
        let alloc: Result<A, AllocError> = self.pieces.bits().allocator().clone();
        self.unless_out_of_memory(alloc)
    }

    /// An error of a kind, under the variant in use.
    fn error(&self, kind: EncodeErrorKind) -> EncodeError
        ensures { IsError kind result self.now }
    {
        EncodeError {
            kind,
            codec: self.codec,
        }
    }

    /// An error of a kind, by which the writer has failed.
    pub fn refuse(&mut self, kind: EncodeErrorKind) -> EncodeError
        ensures error { IsError kind result self.old }
        ensures failed { self.new ≡ record self.old { failed = true } }
    {
        self.failed = true;
        self.error(kind)
    }

    /// Whether it has failed.
    #[inline(always)]
    pub fn has_failed(&self) -> bool
        ensures { result ≡ self.now.failed }
    {
        self.failed
    }

    /// The error that says that memory ran out.
    pub fn out_of_memory(&self) -> EncodeError
        ensures { IsMemory result self.now }
    {
        self.error(EncodeErrorKind::OutOfMemory)
    }

    /// Fails from now on.
    pub fn fail(&mut self)
        ensures { self.new ≡ record self.old { failed = true } }
    {
        self.failed = true;
    }

    /// Refuses a REAL (X.691 15): it isn't supported. Takes no memory.
    pub fn refuse_real(&mut self) -> Result<(), EncodeError>
        requires { self.old.failed ≡ false }
        ensures { WritesNoReal encoder_rules self.old result self.new }
    {
        Err(self.refuse(EncodeErrorKind::RealNotSupported))
    }

    /// Refuses a value that is absent where one is asked for (X.680 25.6), whatever its schema. Takes no memory.
    pub fn refuse_absent(&mut self) -> Result<(), EncodeError>
        requires { self.old.failed ≡ false }
        ensures { WritesAbsent encoder_rules self.old result self.new }
    {
        Err(self.refuse(EncodeErrorKind::OutOfTurn))
    }

    /// Refuses a value that isn't of its schema's kind. Takes no memory.
    pub fn refuse_other(&mut self) -> Result<(), EncodeError>
        requires { self.old.failed ≡ false }
        ensures { WritesOther encoder_rules self.old result self.new }
    {
        Err(self.refuse(EncodeErrorKind::WrongKind))
    }

    /// Refuses where a call was refused before.
    #[inline(always)]
    pub fn check_unfailed(&self) -> Result<(), EncodeError>
        ensures ok { OnOk result (self.now.failed ≡ false) }
        ensures err { IfErr result (λ e. IsAlready e self.now) }
        ensures failed { OnErr result (self.now.failed ≡ true) }
    {
        if self.failed {
            return Err(self.error(EncodeErrorKind::AlreadyFailed));
        }
        Ok(())
    }

    /// Writes a bit.
    #[inline(always)]
    pub fn put_bit(&mut self, bit: bool) -> Result<(), EncodeError>
        requires { self.old.failed ≡ false }
        ensures { Puts IsMemory (just (bit ∷ [])) self.old result self.new }
    {
        let pushed = self.pieces.push(bit);
        self.unless_out_of_memory(pushed)?;
        Ok(())
    }

    /// Writes the low `width` bits of a number, highest first (X.691 11.3).
    #[inline(always)]
    pub fn put_bits(&mut self, number: u128, width: u128) -> Result<(), EncodeError>
        requires begun { self.old.failed ≡ false }
        requires few { width ≤ 128 }
        ensures { Puts IsMemory (just (to_bits width number)) self.old result self.new }
    {
        let pushed = self.pieces.push_bits(number, width);
        self.unless_out_of_memory(pushed)?;
        Ok(())
    }

    /// Writes the low `width` bits of each octet, highest first.
    fn put_low_bits(&mut self, octets: &[u8], width: u32) -> Result<(), EncodeError>
        requires begun { self.old.failed ≡ false }
        requires few { width ≤ 8 }
        ensures { Puts IsMemory (just (low_bits_of width octets.now)) self.old result self.new }
    {
        let pushed = self.pieces.push_low_bits(octets, width);
        self.unless_out_of_memory(pushed)?;
        Ok(())
    }

    /// Writes the bits that a reader has left.
    fn put_reader(&mut self, reader: &BitReader<'_>) -> Result<(), EncodeError>
        requires { self.old.failed ≡ false }
        ensures { Puts IsMemory (just reader.now.bits) self.old result self.new }
    {
        let pushed = self.pieces.push_reader(reader);
        self.unless_out_of_memory(pushed)?;
        Ok(())
    }

    /// Writes octets with no length.
    #[inline(always)]
    fn put_bare_octets(&mut self, octets: &[u8]) -> Result<(), EncodeError>
        requires { self.old.failed ≡ false }
        ensures { Puts IsMemory (one_by_one (octet_writers octets.now)) self.old result self.new }
    {
        let pushed = self.pieces.push_octets(octets);
        self.unless_out_of_memory(pushed)
    }

    /// Writes octets after an unconstrained length (X.691 11.9.3.5 to 11.9.3.8).
    pub fn put_octets(&mut self, octets: &[u8]) -> Result<(), EncodeError>
        requires { self.old.failed ≡ false }
        ensures { Puts IsMemory (unconstrained_octets (variant_of self.old.codec) octets.now) self.old result self.new }
    {
        if octets.len() < FRAGMENT {
            let pushed = push_counted_octets(&mut self.pieces, self.codec, octets);
            return self.unless_out_of_memory(pushed);
        }
        self.put_unconstrained_items(&Octets(octets))?;
        Ok(())
    }

    /// What was made, unless memory ran out; then the writer has failed.
    #[inline(always)]
    pub fn unless_out_of_memory<T: Drop>(
        &mut self,
        made: Result<T, AllocError>,
    ) -> Result<T, EncodeError>
        ensures ok { IfOk result (λ value. made ≡ Ok value) }
        ensures kept { OnOk result (self.new ≡ self.old) }
        ensures err { IfErr result (λ e. IsMemory e self.old) }
        ensures fails { OnErr result (self.new ≡ record self.old { failed = true }) }
    {
        match made {
            Ok(value) => Ok(value),
            Err(_) => Err(self.refuse(EncodeErrorKind::OutOfMemory)),
        }
    }
}

/// No bits, in memory of the allocator of others.
#[inline(always)]
fn no_bits<A: Allocator + Clone>(bits: &BitList<A>) -> Result<BitList<A>, AllocError>
    ensures { IfOk result (λ none. none ≡ []) }
{
    Ok(BitList::new(bits.allocator().clone()?))
}

/// No bits, in the memory of a list that isn't in use, else in memory of the allocator of others.
#[inline(always)]
fn cleared_or_new<A: Allocator + Clone>(
    scratch: Option<BitList<A>>,
    bits: &BitList<A>,
) -> Result<BitList<A>, AllocError>
    ensures { IfOk result (λ none. none ≡ []) }
{
    let Some(mut list) = scratch else {
        return no_bits(bits);
    };
    list.clear();
    Ok(list)
}
