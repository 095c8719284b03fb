//! After a refusal of each kind the same encoder or decoder says AlreadyFailed, also to what takes no bits.
//!
//! The calls are made over any encoder and any decoder: to prove them of one alone costs several times as much.

use crate::calls::unaligned;
use per_enc::{EncodeError, Encoder, EncoderOptions};
use per_read::error::DecodeError;
use per_samples_a::bounded::OneToTenExtensible;
use per_samples_a::half_bounded::FromMinusOne;
use per_samples_a::strings::LettersAToE;
use per_samples_b::alt1::Alt1;
use per_samples_b::grouped::Grouped;
use per_samples_b::one_needed::OneNeeded;
use per_samples_c::choice::Outer;
use per_samples_c::colors::TwoColors;
use per_samples_c::lists::Nulls;
use per_samples_c::nest::Nest;
use rasn_below::codec::{Decode, Decoder as AnyDecoder, Encoder as AnyEncoder};
use rasn_below::types::{Date, Identifier, Integer, Tag, UtcTime, Utf8String, VisibleString};
use rasn_below::{Constraints, constraints};
use std::alloc::Global;
use std::process::Abort;

/// Why a decoder refuses a type, and the call after it.
fn unread<T: Decode, D: AnyDecoder>(decoder: &mut D) -> (Option<D::Error>, Option<D::Error>) {
    let first = T::decode(decoder).err();
    (first, decoder.decode_null(Tag::NULL).err())
}

/// The name of an error's kind.
fn name_of_unread(error: Option<DecodeError>) -> Option<&'static str> {
    error.map(|e| e.kind.name())
}

/// A decoder refused with a kind of this name, and again.
fn expect_failed(rt: &impl Abort, errors: (Option<DecodeError>, Option<DecodeError>), name: &str) {
    let (first, again) = errors;
    assert_eq!(rt; name_of_unread(first), Some(name));
    assert_eq!(rt; name_of_unread(again), Some("AlreadyFailed"));
}

/// A decoder refuses octets of a type with a kind of this name, and refuses again.
fn expect_unread<T: Decode>(rt: &impl Abort, alloc: Global, octets: &[u8], name: &str) {
    let errors = unread::<T, _>(&mut unaligned(alloc, octets));
    expect_failed(rt, errors, name);
}

#[test]
fn reads_nothing_after_what_is_no_number(rt: HostRuntime) {
    expect_unread::<i128>(&rt, rt.alloc(), &[0x02, 0x10], "Incomplete");
    expect_unread::<i128>(&rt, rt.alloc(), &[0x00], "UnexpectedEmptyInput");
    expect_unread::<i128>(&rt, rt.alloc(), &[0xc0], "ParserFail");
    expect_unread::<OneToTenExtensible>(&rt, rt.alloc(), &[0x78], "ValueConstraintNotSatisfied");
    expect_unread::<FromMinusOne>(&rt, rt.alloc(), PAST_128_BITS, "IntegerOverflow");
    expect_unread::<TwoColors>(&rt, rt.alloc(), &[0x81], "EnumerationIndexNotFound");
}

/// 2 to the 127th, as its distance from -1.
const PAST_128_BITS: &[u8] = &[
    0x10, 0x80, 0x00, 0x00, 0x00, 0x00, 0x00, 0x00, 0x00, 0x00, 0x00, 0x00, 0x00, 0x00, 0x00, 0x00,
    0x01,
];

#[test]
fn reads_nothing_after_what_is_no_text_or_list(rt: HostRuntime) {
    expect_unread::<Nulls>(&rt, rt.alloc(), &[0x96, 0x00], "SizeConstraintNotSatisfied");
    expect_unread::<LettersAToE>(&rt, rt.alloc(), &[0x0f, 0x00], "PermittedAlphabet");
    expect_unread::<Utf8String>(
        &rt,
        rt.alloc(),
        &[0x02, 0xc3, 0x28],
        "StringConversionFailed",
    );
}

#[test]
fn reads_nothing_after_what_is_no_record_or_choice(rt: HostRuntime) {
    expect_unread::<Outer>(&rt, rt.alloc(), &[0xc0], "ChoiceIndexNotFound");
    expect_unread::<OneNeeded>(&rt, rt.alloc(), &[0x00], "RequiredExtensionNotPresent");
    expect_unread::<Grouped>(&rt, rt.alloc(), &[0xe0, 0x00], "ParserFail");
    expect_unread::<Grouped>(&rt, rt.alloc(), EXTRA_OCTET, "UnexpectedExtraData");
    expect_unread::<Nest>(&rt, rt.alloc(), &[0xff; 17], "ExceedsMaxParseDepth");
}

/// A group that holds nothing, in an open type of two octets.
const EXTRA_OCTET: &[u8] = &[0xc0, 0x40, 0x80, 0x00, 0x00];

#[test]
fn reads_nothing_after_what_is_no_day_or_alternative(rt: HostRuntime) {
    expect_unread::<Date>(&rt, rt.alloc(), &[0x14, 0x7a], "InvalidDate");
    expect_unread::<UtcTime>(&rt, rt.alloc(), &[0x00], "Below");
    expect_unread::<Alt1>(
        &rt,
        rt.alloc(),
        PAST_64_BITS,
        "ChoiceIndexExceedsPlatformWidth",
    );
}

/// 2 to the 64th, as the index of an added alternative.
const PAST_64_BITS: &[u8] = &[
    0xc2, 0x40, 0x40, 0x00, 0x00, 0x00, 0x00, 0x00, 0x00, 0x00, 0x00,
];

/// A call of a decoder out of turn.
#[derive(Clone, Copy)]
enum Taking {
    Presence,
    Addition,
    Real,
}

fn refusal_to_take<D: AnyDecoder>(decoder: &mut D, taking: Taking) -> Option<D::Error> {
    match taking {
        Taking::Presence => decoder.next_presence().err(),
        Taking::Addition => decoder.open_addition().err(),
        Taking::Real => decoder.decode_real(Tag::REAL, &Constraints::NONE).err(),
    }
}

/// Why a decoder refuses a call out of turn, and the call after it.
fn untaken<D: AnyDecoder>(decoder: &mut D, taking: Taking) -> (Option<D::Error>, Option<D::Error>) {
    let first = refusal_to_take(decoder, taking);
    (first, decoder.decode_null(Tag::NULL).err())
}

/// A decoder refuses a call out of turn with a kind of this name, and refuses again.
fn expect_untaken(rt: &impl Abort, alloc: Global, taking: Taking, name: &str) {
    let errors = untaken(&mut unaligned(alloc, &[0x80]), taking);
    expect_failed(rt, errors, name);
}

#[test]
fn reads_nothing_after_a_call_out_of_turn(rt: HostRuntime) {
    expect_untaken(&rt, rt.alloc(), Taking::Presence, "MissingTag");
    expect_untaken(&rt, rt.alloc(), Taking::Addition, "TypeNotExtensible");
    expect_untaken(&rt, rt.alloc(), Taking::Real, "RealNotSupported");
}

const NONE: Identifier = Identifier::EMPTY;

const ZERO_TO_SEVEN: Constraints<'static> = Constraints(constraints!(0..=7));

const SIZE_3: Constraints = Constraints(constraints!(SIZE 3..=3));

const FROM_0: Constraints = Constraints(constraints!(0..));

/// 2 to the 127th, which passes an `i128`.
const PAST_127_BITS: &[u8] = &[
    0x00, 0x80, 0x00, 0x00, 0x00, 0x00, 0x00, 0x00, 0x00, 0x00, 0x00, 0x00, 0x00, 0x00, 0x00, 0x00,
    0x00,
];

/// Why an encoder refuses 2 to the 127th under a lower bound of 0.
fn refusal_of_number<E: AnyEncoder>(alloc: Global, encoder: &mut E) -> Option<E::Error> {
    let number = Integer::from_signed_octets(alloc, PAST_127_BITS).ok()?;
    encoder
        .encode_integer::<Integer>(Tag::INTEGER, &FROM_0, &number, NONE)
        .err()
}

const A_TO_E: &[u32] = &[65, 66, 67, 68, 69];

const FROM_A_TO_E: Constraints<'static> = Constraints(constraints!(FROM A_TO_E));

/// Why an encoder refuses "F" where the characters are those from A to E.
fn refusal_of_text<E: AnyEncoder>(alloc: Global, encoder: &mut E) -> Option<E::Error> {
    let letter = Vec::from_slice(alloc, b"F").ok()?;
    let text = VisibleString::from_iso646_bytes(letter)?;
    encoder
        .encode_visible_string(Tag::VISIBLE_STRING, &FROM_A_TO_E, &text, NONE)
        .err()
}

/// TRUE in a CHOICE { a BOOLEAN, ... } by the tag of BOOLEAN, which no alternative has.
fn put_by_another_tag<E: AnyEncoder>(encoder: &mut E) -> Result<(), E::Error> {
    let outside = encoder.open_choice::<Alt1>(Tag::EOC, NONE)?;
    encoder.encode_bool(Tag::BOOL, true, NONE)?;
    encoder.close_choice::<Alt1>(outside, Tag::BOOL)
}

/// A call that an encoder refuses.
#[derive(Clone, Copy)]
enum Putting {
    Number,
    Octets,
    Real,
    LongNumber,
    Text,
    Choice,
    Object,
    Presence,
    Addition,
}

/// Why an encoder refuses a value that isn't under its constraints, or a call out of turn.
fn refusal_of_call<E: AnyEncoder>(encoder: &mut E, putting: Putting) -> Option<E::Error> {
    let unlimited = &Constraints::NONE;
    match putting {
        Putting::Number => {
            let written = encoder.encode_integer::<i128>(Tag::INTEGER, &ZERO_TO_SEVEN, &9, NONE);
            written.err()
        }
        Putting::Octets => {
            let written = encoder.encode_octet_string(Tag::OCTET_STRING, &SIZE_3, &[], NONE);
            written.err()
        }
        Putting::Real => encoder.encode_real(Tag::REAL, unlimited, NONE).err(),
        Putting::Presence => encoder.set_presence(true).err(),
        _ => encoder.skip_addition().err(),
    }
}

/// Why an encoder refuses a call.
fn refusal_to_put<E: AnyEncoder>(
    alloc: Global,
    encoder: &mut E,
    putting: Putting,
) -> Option<E::Error> {
    match putting {
        Putting::LongNumber => refusal_of_number(alloc, encoder),
        Putting::Text => refusal_of_text(alloc, encoder),
        Putting::Choice => put_by_another_tag(encoder).err(),
        Putting::Object => {
            let tag = Tag::OBJECT_IDENTIFIER;
            encoder.encode_object_identifier(tag, &[3], NONE).err()
        }
        _ => refusal_of_call(encoder, putting),
    }
}

/// Why an encoder refuses a call, and the call after it.
fn unput<E: AnyEncoder>(
    alloc: Global,
    encoder: &mut E,
    putting: Putting,
) -> (Option<E::Error>, Option<E::Error>) {
    let first = refusal_to_put(alloc, encoder, putting);
    (first, encoder.encode_null(Tag::NULL, NONE).err())
}

/// The name of an error's kind.
fn name_of_unwritten(error: Option<EncodeError>) -> Option<&'static str> {
    error.map(|e| e.kind.name())
}

/// An encoder in the UNALIGNED variant refuses a call with a kind of this name, and refuses again.
fn expect_unwritten(rt: &impl Abort, alloc: Global, putting: Putting, name: &str) {
    let mut encoder = Encoder::new(alloc, EncoderOptions::unaligned());
    let (first, again) = unput(alloc, &mut encoder, putting);
    assert_eq!(rt; name_of_unwritten(first), Some(name));
    assert_eq!(rt; name_of_unwritten(again), Some("AlreadyFailed"));
}

#[test]
fn writes_nothing_after_a_value_that_it_refused(rt: HostRuntime) {
    let alloc = rt.alloc();
    expect_unwritten(&rt, alloc, Putting::Number, "ValueConstraintNotSatisfied");
    expect_unwritten(&rt, alloc, Putting::Octets, "SizeConstraintNotSatisfied");
    expect_unwritten(&rt, alloc, Putting::Real, "RealNotSupported");
}

#[test]
fn writes_nothing_after_what_has_no_encoding(rt: HostRuntime) {
    let alloc = rt.alloc();
    expect_unwritten(
        &rt,
        alloc,
        Putting::LongNumber,
        "IntegerTypeConversionFailed",
    );
    expect_unwritten(&rt, alloc, Putting::Text, "AlphabetConstraintNotSatisfied");
    expect_unwritten(&rt, alloc, Putting::Choice, "VariantNotInChoice");
    expect_unwritten(&rt, alloc, Putting::Object, "Below");
}

#[test]
fn writes_nothing_after_a_call_out_of_turn(rt: HostRuntime) {
    expect_unwritten(&rt, rt.alloc(), Putting::Presence, "OutOfTurn");
    expect_unwritten(&rt, rt.alloc(), Putting::Addition, "TooManyAdditions");
}
