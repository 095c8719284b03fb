//! Records, a CHOICE and contents that are closed before all of their components came, or behind too many, and lists
//! that are gone on in so, over any encoder and any decoder.

use crate::calls::{Part, completed, encoding_of, unaligned};
use crate::expected::{expect_octets, expect_unread, expect_unwritten};
use per_enc::{EncodeError, EncodeErrorKind, Encoder, EncoderOptions};
use per_read::error::{DecodeError, DecodeErrorKind};
use per_samples_a::pair::Pair;
use per_samples_a::six::Six;
use per_samples_b::alt1::Alt1;
use rasn_below::codec::{Decoder as AnyDecoder, Encoder as AnyEncoder};
use rasn_below::types::{Identifier, Tag};
use rasn_below::{AsnType, Constraints, ItemCounts, Place, context_tag};
use rasn_traits::counted::{CountedDecoder, CountedEncoder};
use std::alloc::Global;
use std::process::Abort;

const NONE: Identifier = Identifier::EMPTY;

/// Writes TRUE so often.
fn put_truths<E: AnyEncoder>(encoder: &mut E, count: usize) -> Result<(), E::Error> {
    for _ in 0..count {
        encoder.encode_bool(Tag::BOOL, true, NONE)?;
    }
    Ok(())
}

/// So many values in a record of two components.
#[derive(Clone, Copy)]
struct InPair(usize);

impl Part for InPair {
    fn put<E: AnyEncoder>(&self, encoder: &mut E) -> Result<(), E::Error> {
        let scope = encoder.open_sequence::<Pair>(Pair::TAG, NONE)?;
        put_truths(encoder, self.0)?;
        encoder.close_sequence::<Pair>(scope)
    }
}

/// So many values in CHOICE { a BOOLEAN, ... }.
#[derive(Clone, Copy)]
struct InChoice(usize);

impl Part for InChoice {
    fn put<E: AnyEncoder>(&self, encoder: &mut E) -> Result<(), E::Error> {
        let outside = encoder.open_choice::<Alt1>(Tag::EOC, NONE)?;
        put_truths(encoder, self.0)?;
        encoder.close_choice::<Alt1>(outside, context_tag!(0))
    }
}

/// So many values in octets that contain one.
#[derive(Clone, Copy)]
struct InContents(usize);

impl Part for InContents {
    fn put<E: AnyEncoder>(&self, encoder: &mut E) -> Result<(), E::Error> {
        let outside = encoder.open_contents(Tag::OCTET_STRING, NONE)?;
        put_truths(encoder, self.0)?;
        encoder.close_contents(outside)
    }
}

/// As many BOOLEANs in a SEQUENCE OF as are listed, of each of which so many values come.
#[derive(Clone, Copy)]
struct InList(&'static [usize]);

impl Part for InList {
    fn put<E: AnyEncoder>(&self, encoder: &mut E) -> Result<(), E::Error> {
        let mut list = encoder.open_list(Tag::SEQUENCE, &Constraints::NONE, self.0.len(), NONE)?;
        for count in self.0 {
            encoder.next_element(&mut list)?;
            put_truths(encoder, *count)?;
        }
        encoder.close_list(list)
    }
}

/// As many BOOLEANs in a SET OF as are listed, of each of which so many values come.
#[derive(Clone, Copy)]
struct InSetOf(&'static [usize]);

impl Part for InSetOf {
    fn put<E: AnyEncoder>(&self, encoder: &mut E) -> Result<(), E::Error> {
        let mut bag = encoder.open_set_of(Tag::SET, &Constraints::NONE, self.0.len(), NONE)?;
        for count in self.0 {
            encoder.next_member(&mut bag)?;
            put_truths(encoder, *count)?;
        }
        encoder.close_set_of(bag)
    }
}

/// Something else than an element of a list.
#[derive(Clone, Copy)]
enum Stray {
    /// A value in front of the first element.
    EarlyValue,
    /// A presence bit of the record around it in place of an element.
    PresenceBit,
    /// The record around it is closed.
    Close,
}

impl Part for Stray {
    fn put<E: AnyEncoder>(&self, encoder: &mut E) -> Result<(), E::Error> {
        let scope = encoder.open_sequence::<Six>(Six::TAG, NONE)?;
        let mut list = encoder.open_list(Tag::SEQUENCE, &Constraints::NONE, 1, NONE)?;
        match self {
            Stray::EarlyValue => put_truths(encoder, 1)?,
            Stray::PresenceBit => {
                encoder.next_element(&mut list)?;
                encoder.set_presence(false)?;
            }
            Stray::Close => return encoder.close_sequence::<Six>(scope),
        }
        encoder.close_list(list)
    }
}

/// The octets of what is written.
fn written_of<P: Part>(alloc: Global, part: &P) -> Result<Vec<u8>, EncodeError> {
    encoding_of(alloc, EncoderOptions::unaligned(), part)
}

#[test]
fn writes_as_many_components_as_there_are(rt: HostRuntime) -> Result<(), EncodeError> {
    let record = written_of(rt.alloc(), &InPair(2))?;
    expect_octets(&rt, record.as_slice(), &[0xc0]);
    let choice = written_of(rt.alloc(), &InChoice(1))?;
    expect_octets(&rt, choice.as_slice(), &[0x40]);
    let contents = written_of(rt.alloc(), &InContents(1))?;
    expect_octets(&rt, contents.as_slice(), &[0x01, 0x80]);
    let list = written_of(rt.alloc(), &InList(&[1, 1, 1]))?;
    expect_octets(&rt, list.as_slice(), &[0x03, 0xe0]);
    let bag = written_of(rt.alloc(), &InSetOf(&[1, 1, 1]))?;
    expect_octets(&rt, bag.as_slice(), &[0x03, 0xe0]);
    Ok(())
}

#[test]
fn writes_neither_fewer_nor_more(rt: HostRuntime) {
    for count in [0, 1, 3] {
        let refused = written_of(rt.alloc(), &InPair(count)).err();
        expect_unwritten(&rt, refused, EncodeErrorKind::OutOfTurn);
    }
    for count in [0, 2] {
        let refused = written_of(rt.alloc(), &InChoice(count)).err();
        expect_unwritten(&rt, refused, EncodeErrorKind::OutOfTurn);
        let refused = written_of(rt.alloc(), &InContents(count)).err();
        expect_unwritten(&rt, refused, EncodeErrorKind::OutOfTurn);
    }
}

#[test]
fn goes_on_in_no_list_before_its_element_or_after_two(rt: HostRuntime) {
    let lists: [&'static [usize]; 4] = [&[0], &[2], &[0, 2], &[1, 2, 0]];
    for counts in lists {
        let refused = written_of(rt.alloc(), &InList(counts)).err();
        expect_unwritten(&rt, refused, EncodeErrorKind::OutOfTurn);
        let refused = written_of(rt.alloc(), &InSetOf(counts)).err();
        expect_unwritten(&rt, refused, EncodeErrorKind::OutOfTurn);
    }
}

#[test]
fn takes_nothing_but_elements_in_a_list(rt: HostRuntime) {
    for stray in [Stray::EarlyValue, Stray::PresenceBit, Stray::Close] {
        let refused = written_of(rt.alloc(), &stray).err();
        expect_unwritten(&rt, refused, EncodeErrorKind::OutOfTurn);
    }
}

/// What is told by counts, in which so many values come.
#[derive(Clone, Copy)]
enum Counted {
    /// A record of two components.
    Pair(usize),
    /// A CHOICE of one alternative.
    Choice(usize),
}

/// Writes what is told by counts.
fn put_counted<E: CountedEncoder>(encoder: &mut E, part: Counted) -> Result<(), E::Error> {
    match part {
        Counted::Pair(count) => {
            let scope = encoder.open_record(Tag::SEQUENCE, 2, 0, None, NONE)?;
            put_truths(encoder, count)?;
            encoder.close_record(scope)
        }
        Counted::Choice(count) => {
            let alone = ItemCounts {
                roots: 1,
                addeds: None,
            };
            let outside = encoder.open_alternative_of(Tag::EOC, alone, Place::Root(0), NONE)?;
            put_truths(encoder, count)?;
            encoder.close_alternative(outside)
        }
    }
}

/// The octets of what is told by counts.
fn counted_of(alloc: Global, part: Counted) -> Result<Vec<u8>, EncodeError> {
    let mut encoder = Encoder::new(alloc, EncoderOptions::unaligned());
    let written = put_counted(&mut encoder, part);
    completed(encoder, written)
}

#[test]
fn writes_as_many_as_are_told(rt: HostRuntime) -> Result<(), EncodeError> {
    let record = counted_of(rt.alloc(), Counted::Pair(2))?;
    expect_octets(&rt, record.as_slice(), &[0xc0]);
    let choice = counted_of(rt.alloc(), Counted::Choice(1))?;
    expect_octets(&rt, choice.as_slice(), &[0x80]);
    Ok(())
}

#[test]
fn writes_neither_fewer_nor_more_than_are_told(rt: HostRuntime) {
    for count in [0, 1, 3] {
        let refused = counted_of(rt.alloc(), Counted::Pair(count)).err();
        expect_unwritten(&rt, refused, EncodeErrorKind::OutOfTurn);
    }
    for count in [0, 2] {
        let refused = counted_of(rt.alloc(), Counted::Choice(count)).err();
        expect_unwritten(&rt, refused, EncodeErrorKind::OutOfTurn);
    }
}

/// Reads so many BOOLEANs.
fn take_truths<D: AnyDecoder>(decoder: &mut D, count: usize) -> Result<(), D::Error> {
    for _ in 0..count {
        decoder.decode_bool(Tag::BOOL)?;
    }
    Ok(())
}

/// Reads a record of two components as one of so many.
fn take_pair<D: AnyDecoder>(decoder: &mut D, count: usize) -> Result<(), D::Error> {
    let scope = decoder.open_sequence::<Pair>(Pair::TAG)?;
    take_truths(decoder, count)?;
    decoder.close_sequence(scope)
}

/// Reads a record that is told to have two components as one of so many.
fn take_told_pair<D: CountedDecoder>(decoder: &mut D, count: usize) -> Result<(), D::Error> {
    let scope = decoder.open_record(Tag::SEQUENCE, 2, 0, None)?;
    take_truths(decoder, count)?;
    decoder.close_sequence(scope)
}

/// Reads CHOICE { a BOOLEAN, ... } as one of so many values.
fn take_choice<D: AnyDecoder>(decoder: &mut D, count: usize) -> Result<(), D::Error> {
    let opened = decoder.open_choice::<Alt1>()?;
    take_truths(decoder, count)?;
    decoder.close_choice(opened.1)
}

/// Reads octets that contain a value as if they contained so many.
fn take_contents<D: AnyDecoder>(decoder: &mut D, count: usize) -> Result<(), D::Error> {
    let outside = decoder.open_contents(Tag::OCTET_STRING)?;
    take_truths(decoder, count)?;
    decoder.close_contents(outside)
}

/// Reads the elements of a SEQUENCE OF BOOLEAN as so many values each.
fn take_list<D: AnyDecoder>(decoder: &mut D, counts: &[usize]) -> Result<(), D::Error> {
    let mut list = decoder.open_list(Tag::SEQUENCE, &Constraints::NONE)?;
    for count in counts {
        decoder.next_element(&mut list)?;
        take_truths(decoder, *count)?;
    }
    decoder.next_element(&mut list)?;
    Ok(())
}

/// Reads a presence bit of the record around a list in place of its element.
fn take_bit_in_list<D: AnyDecoder>(decoder: &mut D) -> Result<bool, D::Error> {
    drop(decoder.open_sequence::<Six>(Six::TAG)?);
    let mut list = decoder.open_list(Tag::SEQUENCE, &Constraints::NONE)?;
    decoder.next_element(&mut list)?;
    decoder.next_presence()
}

/// Closes a record within a list that was opened in it.
fn leave_list<D: AnyDecoder>(decoder: &mut D) -> Result<(), D::Error> {
    let scope = decoder.open_sequence::<Pair>(Pair::TAG)?;
    drop(decoder.open_list(Tag::SEQUENCE, &Constraints::NONE)?);
    decoder.close_sequence(scope)
}

/// Why a record isn't read as one of so many components.
fn refusal_of_pair(alloc: Global, count: usize) -> Option<DecodeError> {
    take_pair(&mut unaligned(alloc, &[0xc0]), count).err()
}

/// Why a record that is told to have two components isn't read as one of so many.
fn refusal_of_told_pair(alloc: Global, count: usize) -> Option<DecodeError> {
    take_told_pair(&mut unaligned(alloc, &[0xc0]), count).err()
}

/// Why a CHOICE isn't read as one of so many values.
fn refusal_of_choice(alloc: Global, count: usize) -> Option<DecodeError> {
    take_choice(&mut unaligned(alloc, &[0x40]), count).err()
}

/// Why octets that contain a value aren't read as if they contained so many.
fn refusal_of_contents(alloc: Global, count: usize) -> Option<DecodeError> {
    take_contents(&mut unaligned(alloc, &[0x01, 0x80]), count).err()
}

/// Something was asked for out of turn.
fn expect_untimely(rt: &impl Abort, found: Option<DecodeError>) {
    expect_unread(rt, found, DecodeErrorKind::MissingTag);
}

#[test]
fn reads_as_many_components_as_there_are(rt: HostRuntime) {
    assert!(rt; refusal_of_pair(rt.alloc(), 2).is_none());
    assert!(rt; refusal_of_told_pair(rt.alloc(), 2).is_none());
    assert!(rt; refusal_of_choice(rt.alloc(), 1).is_none());
    assert!(rt; refusal_of_contents(rt.alloc(), 1).is_none());
}

#[test]
fn reads_neither_fewer_nor_more(rt: HostRuntime) {
    for count in [0, 1, 3] {
        expect_untimely(&rt, refusal_of_pair(rt.alloc(), count));
        expect_untimely(&rt, refusal_of_told_pair(rt.alloc(), count));
    }
    for count in [0, 2] {
        expect_untimely(&rt, refusal_of_choice(rt.alloc(), count));
        expect_untimely(&rt, refusal_of_contents(rt.alloc(), count));
    }
}

#[test]
fn reads_an_element_after_each_call(rt: HostRuntime) {
    let octets = [0x03, 0xe0];
    assert!(rt; take_list(&mut unaligned(rt.alloc(), &octets), &[1, 1, 1]).is_ok());
    let lists: [&'static [usize]; 4] = [&[0], &[2], &[0, 2], &[1, 2, 0]];
    for counts in lists {
        let refused = take_list(&mut unaligned(rt.alloc(), &octets), counts).err();
        expect_untimely(&rt, refused);
    }
}

#[test]
fn reads_no_presence_bit_of_the_record_around_a_list(rt: HostRuntime) {
    let refused = take_bit_in_list(&mut unaligned(rt.alloc(), &[0x04, 0x04, 0x00])).err();
    expect_untimely(&rt, refused);
}

#[test]
fn closes_no_record_within_an_open_list(rt: HostRuntime) {
    let refused = leave_list(&mut unaligned(rt.alloc(), &[0x02, 0x00, 0x00])).err();
    expect_untimely(&rt, refused);
}
