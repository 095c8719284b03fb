//! The texts of values, and of parts of them.

ghost use Rattle.std.specs.Prelude.{◌≡◌, ◌+◌, ℕ, List, ◌⊎◌, Some, false, length, map, option_map, slice_get};
ghost use Rattle.std.specs.Prelude.{◌++◌, flat_map, replicate, encode_utf8_all, string_bytes, IfOk, IfErr, OnOk};
ghost use Rattle.std.specs.Char.{encode_utf8, OutOfScalarRange};
ghost use Rattle.rasn_types.specs.Bits.{filled_up, trimmed};
ghost use Rattle.std.specs.Fmt.{decimal as decimal_of, signed_decimal};
ghost use Rattle.rasn_types.specs.Contents.{generalized, is_time, utc};
ghost use Rattle.rasn_schema.specs.Choices.{go_by, variants_on};
ghost use Rattle.rasn_schema.specs.Structures.{tag_of};
ghost use Rattle.rasn_traits.specs.Choices.{IsPlaceOf, index_in, side_of};
ghost use Rattle.hex.specs.Hex.{encode_upper};
ghost use Rattle.json.specs.Json.{boolean, null, string};
ghost use Rattle.json.specs.Print.{IsNumber};
ghost use Rattle.rasn_jer.specs.Names.{IdentifierOf, IsNameBy, NamesAlternative, item_by, number_of_item};
ghost use Rattle.rasn_jer.specs.Names.{number_of_place};
ghost use Rattle.rasn_jer.specs.Shown.{HasNoScalar, IsWhole, ShowsBits, ShowsJson};
ghost use Rattle.rasn_jer.specs.Strings.{after_dot, day_text, dotted, year_text, zero_padded};
ghost use Rattle.rasn_jer.specs.Texts.{enclosed as enclosed_text, member_text, text_of};
ghost use Rattle.rasn_jer.specs.declared.error.EncodeError.TheVariants.{NoJson, OutOfMemory};

use crate::error::EncodeError;
use crate::large::large;
use itoa::Buffer;
use json::Writer;
use rasn_schema::choices::Choice;
use rasn_schema::enumerated::Enumerated;
use rasn_schema::items::Place;
use rasn_schema::schema::IntegerType;
use rasn_strings::civil::{GeneralizedMoment, UtcMoment};
use rasn_strings::strings::StaticPermittedAlphabet;
use rasn_types::bit_string::BitString;
use rasn_types::types::{Class, Tag};
use std::alloc::{AllocError, Allocator};

/// `true` or `false` (X.697, BOOLEAN).
pub fn truth<A: Allocator>(alloc: A, value: bool) -> Result<Vec<u8, A>, AllocError>
    ensures { IfOk result (λ text. text.items ≡ text_of (boolean value)) }
{
    let text: &[u8] = if value { b"true" } else { b"false" };
    Vec::from_slice(alloc, text)
}

/// `null` (X.697, NULL).
pub fn nothing<A: Allocator>(alloc: A) -> Result<Vec<u8, A>, AllocError>
    ensures { IfOk result (λ text. text.items ≡ text_of null) }
{
    Vec::from_slice(alloc, b"null")
}

/// A string of JSON, in which quotation marks, backslashes and control characters are escaped (RFC 8259 7).
pub fn quoted<A: Allocator>(alloc: A, characters: &str) -> Result<Vec<u8, A>, AllocError>
    ensures { IfOk result (λ text. text.items ≡ text_of (string characters.now)) }
{
    let mut writer = Writer::new(Vec::new(alloc));
    writer.string(characters)?;
    Ok(writer.into_inner())
}

/// A member of an object: its name and the text of its value (RFC 8259 4).
pub fn member<A: Allocator>(alloc: A, name: &str, text: &[u8]) -> Result<Vec<u8, A>, AllocError>
    ensures { IfOk result (λ named. named.items ≡ member_text name.now text.now) }
{
    let mut writer = Writer::new(Vec::new(alloc));
    writer.key(name)?;
    let mut named = writer.into_inner();
    named.extend_from_slice(text)?;
    Ok(named)
}

/// A text between an opening and a closing character.
pub fn enclosed<A: Allocator>(
    alloc: A,
    opening: u8,
    text: &[u8],
    closing: u8,
) -> Result<Vec<u8, A>, AllocError>
    ensures { IfOk result (λ whole. whole.items ≡ enclosed_text opening text.now closing) }
{
    let mut whole = Vec::new(alloc);
    whole.push(opening)?;
    whole.extend_from_slice(text)?;
    whole.push(closing)?;
    Ok(whole)
}

/// The decimal digits of a whole number of any size (X.697, INTEGER).
pub fn whole<A: Allocator + Copy, I: IntegerType>(
    alloc: A,
    value: &I,
) -> Result<Vec<u8, A>, AllocError>
    ensures { IfOk result (λ text. IsWhole (I.number value.now) text.items) }
{
    match value.to_i128() {
        Some(number) => decimal(alloc, number),
        None => {
            let octets = value.to_signed_bytes_be(alloc)?;
            large(alloc, octets.as_slice())
        }
    }
}

/// The decimal digits of a number.
pub fn decimal<A: Allocator>(alloc: A, number: i128) -> Result<Vec<u8, A>, AllocError>
    ensures digits { IfOk result (λ text. text.items ≡ signed_decimal number) }
    ensures number { IfOk result (λ text. IsNumber text.items) }
{
    let mut buffer = Buffer::new();
    Vec::from_slice(alloc, buffer.format(number).as_bytes())
}

/// An item of an ENUMERATED by its identifier among those of its type (X.697, ENUMERATED). Where the type gives none,
/// by its number: the items before the extension marker count from 0, and those after it go on.
pub fn item<A: Allocator, E: Enumerated>(
    alloc: A,
    identifiers: &[&str],
    value: &E,
) -> Result<Vec<u8, A>, AllocError>
    ensures { IfOk result (λ text. ShowsJson
        (item_by (map (λ s. s.now) identifiers.now) (number_of_item E.roots (E.value value.now))) text.items) }
{
    let place = value.enumeration_index();
    if value.is_extended_variant() {
        item_text(alloc, identifiers, E::variance(), place)
    } else {
        item_text(alloc, identifiers, 0, place)
    }
}

/// An item by the identifiers of its type: how many items are before its list, and its place there.
fn item_text<A: Allocator>(
    alloc: A,
    identifiers: &[&str],
    before: usize,
    place: usize,
) -> Result<Vec<u8, A>, AllocError>
    ensures { IfOk result (λ text. ShowsJson (item_by (map (λ s. s.now) identifiers.now) (before + place)) text.items) }
{
    match identifier_at(identifiers, before, place) {
        Some(identifier) => quoted(alloc, identifier),
        None => decimal(alloc, before as i128 + place as i128),
    }
}

/// The identifier of what is at a place of a list, where so many are before the list.
fn identifier_at<'a>(identifiers: &[&'a str], before: usize, place: usize) -> Option<&'a str>
    ensures { option_map (λ s. s.now) result ≡ slice_get (map (λ s. s.now) identifiers.now) (before + place) }
{
    let index = before.checked_add(place)?;
    match identifiers.get(index) {
        Some(identifier) => Some(*identifier),
        None => None,
    }
}

/// Octets as a string of hexadecimal digits (X.697, OCTET STRING).
pub fn hexadecimal<A: Allocator + Copy>(alloc: A, octets: &[u8]) -> Result<Vec<u8, A>, AllocError>
    ensures { IfOk result (λ text. text.items ≡ text_of (string (encode_upper octets.now))) }
{
    let digits = hex::encode_upper(alloc, octets)?;
    quoted(alloc, digits.as_str())
}

/// Bits by the hexadecimal digits of their octets, spare bits zero: alone where there are as many as the type fixes,
/// else as an object that tells how many (X.697, BIT STRING).
pub fn bits<A: Allocator + Copy>(
    alloc: A,
    value: &BitString,
    fixed: Option<usize>,
) -> Result<Vec<u8, A>, AllocError>
    ensures { IfOk result (λ text. ShowsBits fixed value.now text.items) }
{
    if fixed == Some(value.len()) {
        return hexadecimal(alloc, value.as_octets());
    }
    let digits = hex::encode_upper(alloc, value.as_octets())?;
    let mut writer = Writer::new(Vec::new(alloc));
    writer.begin_object()?;
    writer.key("value")?;
    writer.string(digits.as_str())?;
    writer.key("length")?;
    writer.u64(value.len() as u64)?;
    writer.end_object()?;
    Ok(writer.into_inner())
}

/// Bits that have names, in their normal form: without the zero bits at their end, and then with zero bits up to
/// `least` bits (X.680 22.7; X.691 16.2).
pub fn named_bits<A: Allocator + Copy>(
    alloc: A,
    value: &BitString,
    least: usize,
    fixed: Option<usize>,
) -> Result<Vec<u8, A>, AllocError>
    ensures { IfOk result (λ text. ShowsBits fixed (filled_up least (trimmed value.now)) text.items) }
{
    let normal = value.trimmed_to(least)?;
    bits(alloc, &normal, fixed)
}

/// Octets as a string, each as the character with its number.
pub fn latin<A: Allocator + Copy>(alloc: A, octets: &[u8]) -> Result<Vec<u8, A>, AllocError>
    ensures { IfOk result (λ text. text.items ≡ text_of (string (encode_utf8_all octets.now))) }
{
    let mut text = String::new(alloc);
    for octet in octets {
        text.push(char::from(*octet))?;
    }
    quoted(alloc, text.as_str())
}

/// The characters of a string as a string. One that isn't a scalar value of Unicode has no JSON.
pub fn scalars<A: Allocator + Copy, S: StaticPermittedAlphabet>(
    alloc: A,
    value: &S,
) -> Result<Vec<u8, A>, EncodeError>
    ensures ok { IfOk result (λ text. text.items ≡ text_of (string (encode_utf8_all (S.characters value.now)))) }
    ensures err { IfErr result (λ e.
        (e ≡ OutOfMemory) ⊎ ((e ≡ NoJson) × HasNoScalar (S.characters value.now))) }
{
    let text = characters(alloc, value)?;
    let text = quoted(alloc, text.as_str())?;
    Ok(text)
}

/// The characters of a string.
fn characters<A: Allocator, S: StaticPermittedAlphabet>(
    alloc: A,
    value: &S,
) -> Result<String<A>, EncodeError>
    ensures ok { IfOk result (λ text. string_bytes text ≡ encode_utf8_all (S.characters value.now)) }
    ensures err { IfErr result (λ e.
        (e ≡ OutOfMemory) ⊎ ((e ≡ NoJson) × HasNoScalar (S.characters value.now))) }
{
    let mut text = String::new(alloc);
    for index in 0..value.len() {
        if let Some(code) = value.character(index) {
            push_scalar(&mut text, code)?;
        }
    }
    Ok(text)
}

/// Appends the character with a number. One that isn't a scalar value of Unicode has no JSON.
fn push_scalar<A: Allocator>(text: &mut String<A>, code: u32) -> Result<(), EncodeError>
    ensures ok { OnOk result (string_bytes text.new ≡ string_bytes text.old ++ encode_utf8 code) }
    ensures err { IfErr result (λ e. (e ≡ OutOfMemory) ⊎ ((e ≡ NoJson) × OutOfScalarRange code)) }
{
    match char::from_u32(code) {
        Some(character) => text.push(character)?,
        None => return Err(EncodeError::NoJson),
    }
    Ok(())
}

/// The canonical text of a UTCTime as a string (X.690 11.8). A moment that it can't hold has no JSON.
pub fn utc_time<A: Allocator + Copy, M: UtcMoment>(
    alloc: A,
    value: &M,
) -> Result<Vec<u8, A>, EncodeError>
    ensures ok { IfOk result (λ text. text.items ≡ text_of (string (encode_utf8_all (M.text value.now)))) }
    ensures err { IfErr result (λ e.
        (e ≡ OutOfMemory) ⊎ ((e ≡ NoJson) × (is_time utc (M.text value.now) ≡ false))) }
{
    let time = value.to_canonical_utc_time_bytes(alloc)?;
    let text = latin(alloc, time.as_slice())?;
    Ok(text)
}

/// The canonical text of a GeneralizedTime as a string (X.690 11.7). A moment that it can't hold has no JSON.
pub fn generalized_time<A: Allocator + Copy, M: GeneralizedMoment>(
    alloc: A,
    value: &M,
) -> Result<Vec<u8, A>, EncodeError>
    ensures ok { IfOk result (λ text. text.items ≡ text_of (string (encode_utf8_all (M.text value.now)))) }
    ensures err { IfErr result (λ e.
        (e ≡ OutOfMemory) ⊎ ((e ≡ NoJson) × (is_time generalized (M.text value.now) ≡ false))) }
{
    let time = value.to_canonical_generalized_time_bytes(alloc)?;
    let text = latin(alloc, time.as_slice())?;
    Ok(text)
}

/// Arcs as a string of numbers with full stops between them (X.697, OBJECT IDENTIFIER).
pub fn identifier<A: Allocator + Copy>(alloc: A, arcs: &[u32]) -> Result<Vec<u8, A>, AllocError>
    ensures { IfOk result (λ text. text.items ≡ text_of (string (dotted arcs.now))) }
{
    let text = dotted(alloc, arcs)?;
    quoted(alloc, text.as_str())
}

/// Arcs in decimal digits, with a full stop between two of them, such as `1.2.840` (X.697, OBJECT IDENTIFIER). The only
/// error is want of memory.
pub fn dotted<A: Allocator + Copy>(alloc: A, arcs: &[u32]) -> Result<String<A>, AllocError>
    ensures { IfOk result (λ text. string_bytes text ≡ dotted arcs.now) }
{
    let mut text = String::new(alloc);
    if let Some((first, others)) = arcs.split_first() {
        push_arc(&mut text, *first)?;
        push_others(&mut text, others)?;
    }
    Ok(text)
}

/// Appends the decimal digits of an arc.
fn push_arc<A: Allocator>(text: &mut String<A>, arc: u32) -> Result<(), AllocError>
    ensures { OnOk result (string_bytes text.new ≡ string_bytes text.old ++ decimal_of arc) }
{
    let mut buffer = Buffer::new();
    text.push_str(buffer.format(arc))
}

/// Appends arcs, each after a full stop.
fn push_others<A: Allocator>(text: &mut String<A>, arcs: &[u32]) -> Result<(), AllocError>
    ensures { OnOk result (string_bytes text.new ≡ string_bytes text.old ++ flat_map after_dot arcs.now) }
{
    for arc in arcs {
        push_other(text, *arc)?;
    }
    Ok(())
}

/// Appends an arc after a full stop.
fn push_other<A: Allocator>(text: &mut String<A>, arc: u32) -> Result<(), AllocError>
    ensures { OnOk result (string_bytes text.new ≡ string_bytes text.old ++ after_dot arc) }
{
    text.push('.')?;
    push_arc(text, arc)
}

/// A day as a string, such as `"2026-11-27"` or `"-0044-03-15"` (X.680 38.4).
pub fn day<A: Allocator + Copy>(
    alloc: A,
    year: i16,
    month: u8,
    day: u8,
) -> Result<Vec<u8, A>, AllocError>
    ensures { IfOk result (λ text. text.items ≡ text_of (string (day_text year month day))) }
{
    let text = day_of(alloc, year, month, day)?;
    quoted(alloc, text.as_str())
}

/// A day by its year, its month and its day of the month, such as `2026-11-27` or `-0044-03-15` (X.680 38.4). The only
/// error is want of memory.
pub fn day_of<A: Allocator>(
    alloc: A,
    year: i16,
    month: u8,
    day: u8,
) -> Result<String<A>, AllocError>
    ensures { IfOk result (λ text. string_bytes text ≡ day_text year month day) }
{
    let mut text = String::new(alloc);
    push_year(&mut text, year)?;
    text.push('-')?;
    push_padded(&mut text, u16::from(month), 2)?;
    text.push('-')?;
    push_padded(&mut text, u16::from(day), 2)?;
    Ok(text)
}

/// Appends a year in four digits, after a minus sign where it is below zero.
fn push_year<A: Allocator>(text: &mut String<A>, year: i16) -> Result<(), AllocError>
    ensures { OnOk result (string_bytes text.new ≡ string_bytes text.old ++ year_text year) }
{
    let size = year.unsigned_abs();
    if year >= 0 {
        return push_padded(text, size, 4);
    }
    text.push('-')?;
    push_padded(text, size, 4)
}

/// Appends the decimal digits of a number, after zeros up to a width.
fn push_padded<A: Allocator>(
    text: &mut String<A>,
    number: u16,
    width: usize,
) -> Result<(), AllocError>
    ensures { OnOk result (string_bytes text.new ≡ string_bytes text.old ++ zero_padded width number) }
{
    let mut buffer = Buffer::new();
    let digits = buffer.format(number);
    push_zeros(text, width.saturating_sub(digits.len()))?;
    text.push_str(digits)
}

/// Appends zeros.
fn push_zeros<A: Allocator>(text: &mut String<A>, count: usize) -> Result<(), AllocError>
    ensures { OnOk result (string_bytes text.new ≡ string_bytes text.old ++ replicate count 48) }
{
    for index in 0..count {
        text.push('0')?;
    }
    Ok(())
}

/// What names the alternative of a choice (X.697, CHOICE): its identifier, where its type gives one, and else the tag
/// that it goes by.
#[derive(Clone, Copy)]
pub struct AlternativeName {
    /// Its identifier, where its type gives one.
    pub identifier: Option<&'static str>,
    /// The tag that it goes by.
    pub tag: Tag,
}

/// What names the alternative at a place, by the identifiers of those of its type.
pub fn name_of_alternative<C: Choice>(identifiers: &[&'static str], place: Place) -> AlternativeName
    requires { IsPlaceOf C.VARIANTS C.EXTENDED_VARIANTS place }
    ensures identifier { option_map (λ s. s.now) result.identifier
        ≡ slice_get (map (λ s. s.now) identifiers.now) (number_of_place (length C.VARIANTS) place) }
    ensures tag { slice_get (go_by (variants_on (side_of place) C.VARIANTS C.EXTENDED_VARIANTS)) (index_in place)
        ≡ Some (tag_of result.tag) }
{
    let variants = C::VARIANTS;
    match place {
        Place::Root(index) => AlternativeName {
            identifier: identifier_at(identifiers, 0, index),
            tag: variants.tag_at(index),
        },
        Place::Added(index) => AlternativeName {
            identifier: identifier_at(identifiers, variants.len(), index),
            tag: C::EXTENDED_VARIANTS.unwrap().tag_at(index),
        },
    }
}

/// An object of one member: the text of a choice's alternative by its identifier among those of the type (X.697,
/// CHOICE), and where the type gives none, by the tag that it goes by.
pub fn chosen_member<C: Choice, A: Allocator + Copy>(
    alloc: A,
    identifiers: &[&str],
    chosen: Tag,
    text: &[u8],
) -> Result<Vec<u8, A>, AllocError>
    ensures { IfOk result (λ whole. (name : List ℕ)
        × NamesAlternative (map (λ s. s.now) identifiers.now) (tag_of chosen) C.VARIANTS C.EXTENDED_VARIANTS name
        × (whole.items ≡ enclosed_text 123 (member_text name text.now) 125)) }
{
    let identifier = identifier_of::<C>(identifiers, chosen);
    named_member(alloc, identifier, chosen, text)
}

/// An object of one member: the text of a choice's alternative by its identifier, where there is one, and else by the
/// tag that it goes by.
pub fn named_member<A: Allocator + Copy>(
    alloc: A,
    identifier: Option<&str>,
    tag: Tag,
    text: &[u8],
) -> Result<Vec<u8, A>, AllocError>
    ensures { IfOk result (λ whole. (name : List ℕ) × IsNameBy (option_map (λ s. s.now) identifier.entry) name
        × (whole.items ≡ enclosed_text 123 (member_text name text.now) 125)) }
{
    match identifier {
        Some(identifier) => one_member(alloc, identifier, text),
        None => {
            let name = tag_name(alloc, tag)?;
            one_member(alloc, name.as_str(), text)
        }
    }
}

/// An object of one member.
fn one_member<A: Allocator + Copy>(
    alloc: A,
    name: &str,
    text: &[u8],
) -> Result<Vec<u8, A>, AllocError>
    ensures { IfOk result (λ whole. whole.items ≡ enclosed_text 123 (member_text name.now text.now) 125) }
{
    let named = member(alloc, name, text)?;
    enclosed(alloc, b'{', named.as_slice(), b'}')
}

/// The identifier of the alternative that goes by a tag, among those of its type.
fn identifier_of<'a, C: Choice>(identifiers: &[&'a str], chosen: Tag) -> Option<&'a str>
    ensures { IdentifierOf (map (λ s. s.now) identifiers.now) (tag_of chosen) C.VARIANTS C.EXTENDED_VARIANTS
        (option_map (λ s. s.now) result) }
{
    let variants = C::VARIANTS;
    let added = C::EXTENDED_VARIANTS;
    match variants.place_of(&added, chosen)? {
        Place::Root(index) => identifier_at(identifiers, 0, index),
        Place::Added(index) => identifier_at(identifiers, variants.len(), index),
    }
}

/// The tag that an alternative goes by, such as `[2]` or `[UNIVERSAL 1]` (X.680 31.2).
fn tag_name<A: Allocator>(alloc: A, tag: Tag) -> Result<String<A>, AllocError> {
    match tag.class {
        Class::Context => format!(in alloc; "[{}]", tag.value),
        class => format!(in alloc; "[{} {}]", class, tag.value),
    }
}
