//! The open place of an encoder: a text is taken there, a place within it is entered and left, and a refusal stays.

ghost use Rattle.std.specs.Prelude.{◌≡◌, ℕ, List, true, false, if◌then◌else◌, IfOk, IfErr};
ghost use Rattle.std.specs.Prelude.{encode_utf8_all};
ghost use Rattle.hex.specs.Hex.{encode_upper};
ghost use Rattle.json.specs.Json.{Members, object as the_object, string};
ghost use Rattle.rasn_types.specs.Values.{Value};
ghost use Rattle.rasn_schema.specs.Schemas.{Schema};
ghost use Rattle.rasn_traits.specs.Calls.{Writes};
ghost use Rattle.rasn_jer.specs.Frames.{with_addition, with_group};
ghost use Rattle.rasn_jer.specs.Rules.{AddedSo, BehavesSo, ClosesItems, ClosesFrame, CountsItem, EntersFrame};
ghost use Rattle.rasn_jer.specs.Rules.{EntersChoice, LeavesFrame, NeedsRecord};
ghost use Rattle.rasn_jer.specs.Rules.{IsUnmade, WritesJson, WritesText, jer_rules};
ghost use Rattle.rasn_jer.specs.Shown.{ShowsText};
ghost use Rattle.rasn_jer.specs.Texts.{enclosed as enclosed_text, text_of};
ghost use Rattle.rasn_jer.specs.declared.error.EncodeError.TheVariants.{AlreadyFailed};

use crate::encoder::Encoder;
use crate::error::EncodeError;
use crate::frame::{Frame, Kind};
use crate::texts::{AlternativeName, enclosed, hexadecimal, latin};
use std::alloc::{AllocError, Allocator};
use std::mem;

impl<A: Allocator + Copy> Encoder<A> {
    /// Refuses, from now on too. A failed encoder answers that it had failed.
    pub(crate) fn refuse(&mut self, error: EncodeError) -> EncodeError
        ensures answers { result ≡ if self.old.failed then AlreadyFailed else error }
        ensures fails { self.new.failed ≡ true }
    {
        if self.failed {
            return EncodeError::AlreadyFailed;
        }
        self.refuse_now(error)
    }

    /// Refuses, from now on too.
    pub(crate) fn refuse_now(&mut self, error: EncodeError) -> EncodeError
        ensures answers { result ≡ error }
        ensures fails { self.new ≡ record self.old { failed = true } }
    {
        self.failed = true;
        error
    }

    /// Writes a value's text where one is awaited.
    pub(crate) fn write(&mut self, text: Result<Vec<u8, A>, AllocError>) -> Result<(), EncodeError>
        ensures { WritesText text (λ t. t.items) self.old result self.new }
    {
        if self.failed {
            return Err(EncodeError::AlreadyFailed);
        }
        if self.place.is_full() {
            return Err(self.refuse_now(EncodeError::OutOfTurn));
        }
        match text {
            Ok(text) => match self.place.take(text.as_slice()) {
                Ok(()) => Ok(()),
                Err(_) => Err(self.refuse_now(EncodeError::OutOfMemory)),
            },
            Err(_) => Err(self.refuse_now(EncodeError::OutOfMemory)),
        }
    }

    /// Writes octets as a string of hexadecimal digits (X.697, OCTET STRING).
    pub(crate) fn write_octets(&mut self, octets: &[u8]) -> Result<(), EncodeError>
        ensures { WritesJson (string (encode_upper octets.now)) self.old result self.new }
    {
        let text = hexadecimal(self.alloc, octets);
        self.write(text)
    }

    /// Writes octets as a string, each as the character with its number.
    pub(crate) fn write_latin(&mut self, octets: &[u8]) -> Result<(), EncodeError>
        ensures { WritesJson (string (encode_utf8_all octets.now)) self.old result self.new }
    {
        let text = latin(self.alloc, octets);
        self.write(text)
    }

    /// Writes the text of a value that may have none, or refuses by the error that stands for it.
    pub(crate) fn write_made(
        &mut self,
        text: Result<Vec<u8, A>, EncodeError>,
    ) -> Result<(), EncodeError>
        ensures { (s : Schema) (v : Value) → IfOk text (λ t. ShowsText s v t.items) → IfErr text (IsUnmade s v)
            → Writes jer_rules s v self.old result self.new }
    {
        match text {
            Ok(text) => self.write(Ok(text)),
            Err(error) => Err(self.refuse(error)),
        }
    }

    /// Opens a place, and answers what was open.
    pub(crate) fn enter(
        &mut self,
        place: Result<Frame<A>, AllocError>,
    ) -> Result<Frame<A>, EncodeError>
        ensures { EntersFrame place self.old result self.new }
    {
        if self.failed {
            return Err(EncodeError::AlreadyFailed);
        }
        match place {
            Ok(place) => Ok(mem::replace(&mut self.place, place)),
            Err(_) => Err(self.refuse_now(EncodeError::OutOfMemory)),
        }
    }

    /// Opens the place of a choice's alternative, and answers what was open, beside what names the alternative.
    pub(crate) fn enter_choice(
        &mut self,
        name: AlternativeName,
    ) -> Result<(Frame<A>, AlternativeName), EncodeError>
        ensures { EntersChoice self.old result self.new }
    {
        let place = Frame::new(self.alloc, Kind::One);
        let outer = self.enter(Ok(place))?;
        Ok((outer, name))
    }

    /// Takes out what is inside a place of a kind, and opens what waited outside again.
    pub(crate) fn leave(&mut self, outer: Frame<A>, kind: Kind) -> Result<Frame<A>, EncodeError>
        ensures { LeavesFrame kind outer self.old result self.new }
    {
        if self.failed {
            return Err(EncodeError::AlreadyFailed);
        }
        if !self.place.is_of(kind) || !self.place.is_complete() {
            return Err(self.refuse_now(EncodeError::OutOfTurn));
        }
        Ok(mem::replace(&mut self.place, outer))
    }

    /// Closes a place of a kind: what was written in it is written outside, between two characters.
    pub(crate) fn close(
        &mut self,
        outer: Frame<A>,
        kind: Kind,
        opening: u8,
        closing: u8,
    ) -> Result<(), EncodeError>
        ensures { ClosesFrame kind opening closing outer self.old result self.new }
    {
        match self.leave(outer, kind) {
            Ok(inner) => {
                let text = enclosed(self.alloc, opening, inner.text(), closing);
                self.write(text)
            }
            Err(error) => Err(error),
        }
    }

    /// Goes on to the next item of an array, of which so many are left. Where none is left it refuses, and where the
    /// item before it wasn't written, or more was.
    pub(crate) fn next_item(&mut self, left: &mut usize) -> Result<(), EncodeError>
        ensures { CountsItem left.old self.old result left.new self.new }
    {
        if self.failed {
            return Err(EncodeError::AlreadyFailed);
        }
        if !self.place.is_complete() {
            return Err(self.refuse_now(EncodeError::OutOfTurn));
        }
        match left.checked_sub(1) {
            Some(others) => {
                *left = others;
                self.place.await_item();
                Ok(())
            }
            None => Err(self.refuse_now(EncodeError::OutOfTurn)),
        }
    }

    /// Closes an array of which no item is left. Where one is it refuses, and where the last one wasn't written, or
    /// more was.
    pub(crate) fn close_items(&mut self, items: (Frame<A>, usize)) -> Result<(), EncodeError>
        ensures { ClosesItems items self.old result self.new }
    {
        let (outside, left) = items;
        if left > 0 {
            return Err(self.refuse(EncodeError::OutOfTurn));
        }
        self.close(outside, Kind::Items, b'[', b']')
    }

    /// Answers an error where no record is open, or a call was refused before.
    pub(crate) fn check_members(&mut self) -> Result<(), EncodeError>
        ensures { NeedsRecord self.old result self.new }
    {
        if self.failed {
            return Err(EncodeError::AlreadyFailed);
        }
        if !self.place.is_of(Kind::Members) {
            return Err(self.refuse_now(EncodeError::OutOfTurn));
        }
        Ok(())
    }

    /// Writes the text of an addition as a member of the open record.
    pub(crate) fn add(&mut self, text: &[u8]) -> Result<(), EncodeError>
        ensures added { AddedSo (λ q. q ≡ with_addition self.old.place text.now) self.old result self.new }
        ensures behaves { BehavesSo self.old result self.new }
    {
        match self.check_members() {
            Ok(()) => match self.place.add(text) {
                Ok(()) => Ok(()),
                Err(_) => Err(self.refuse_now(EncodeError::OutOfMemory)),
            },
            Err(error) => Err(error),
        }
    }

    /// Writes the members of an object's text among those of the open record.
    pub(crate) fn add_all(&mut self, object: &[u8]) -> Result<(), EncodeError>
        ensures added { (gs : Members) → object.now ≡ text_of (the_object gs)
            → AddedSo (λ q. q ≡ with_group self.old.place gs) self.old result self.new }
        ensures behaves { BehavesSo self.old result self.new }
    {
        match self.check_members() {
            Ok(()) => match self.place.add_all(without_ends(object)) {
                Ok(()) => Ok(()),
                Err(_) => Err(self.refuse_now(EncodeError::OutOfMemory)),
            },
            Err(error) => Err(error),
        }
    }
}

/// A text without its first and its last character.
fn without_ends(text: &[u8]) -> &[u8]
    ensures { (opening closing : ℕ) (inner : List ℕ) → text.now ≡ enclosed_text opening inner closing
        → result.now ≡ inner }
{
    if text.len() < 2 {
        return text;
    }
    &text[1..text.len() - 1]
}
