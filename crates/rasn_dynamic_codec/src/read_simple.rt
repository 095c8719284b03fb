//! How values are read of types in which no other type stands.

ghost use Rattle.std.specs.Prelude.{◌≡◌, ◌++◌, ◌∷◌, [], OnOk};
ghost use Rattle.rasn_types.specs.Contents.{generalized, other, utc, utf8};
ghost use Rattle.rasn_types.specs.Values.{characters};
ghost use Rattle.rasn_constraints.specs.Bounds.{unbounded};
ghost use Rattle.rasn_schema.specs.Enumerations.{items_of};
ghost use Rattle.rasn_schema.specs.Forms.{bit_schema, character_schema, named_bit_schema};
ghost use Rattle.rasn_schema.specs.Forms.{number_schema, octet_schema};
ghost use Rattle.rasn_schema.specs.Schemas.{Schema};
ghost use Rattle.rasn_traits.specs.Boxes.{Holds};
ghost use Rattle.rasn_traits.specs.Calls.{Reads};
ghost use Rattle.rasn_traits.specs.Moments.{date_at};
ghost use Rattle.rasn_dynamic_codec.specs.Reads.{PutsRead, ReadsValue};
ghost use Rattle.rasn_dynamic.specs.Types.{counts_of, of_characters, of_size, of_value, simple_schema, string_schema};

use crate::characters::StringOf;
use rasn_constraints::constraints::{Constraint, Constraints, Extensible};
use rasn_dynamic::types::{
    CharacterString, CharacterType, Items, NumberBounds, Simple, SizeBounds,
};
use rasn_dynamic::values::Value;
use rasn_strings::strings::{
    BmpKind, CharacterKind, Ia5Kind, NumericKind, PrintableKind, VisibleKind,
};
use rasn_traits::counted::CountedDecoder;
use rasn_traits::de::Octets;
use rasn_types::ber::object_identifier_as_bytes;
use rasn_types::types::{Any, Integer, Tag};
use rasn_useful::date::Date;
use rasn_useful::generalized_time::GeneralizedTime;
use rasn_useful::utc_time::UtcTime;

/// Reads a value of a type in which no other stands: the commonest in place, the others by a call.
#[inline(never)]
pub(crate) fn decode_leaf<D: CountedDecoder>(
    decoder: &mut D,
    simple: &Simple,
) -> Result<Value, D::Error>
    ensures { ReadsValue D.rules (simple_schema simple.now) decoder.old result decoder.new }
{
    match simple {
        Simple::Boolean => decode_boolean(decoder),
        Simple::Integer(bounds) => decode_integer(decoder, bounds),
        Simple::Enumerated(items) => decode_enumerated(decoder, items),
        _ => decode_simple(decoder, simple),
    }
}

/// Reads a value of a type in which no other stands.
#[inline(never)]
pub(crate) fn decode_simple<D: CountedDecoder>(
    decoder: &mut D,
    simple: &Simple,
) -> Result<Value, D::Error>
    ensures { ReadsValue D.rules (simple_schema simple.now) decoder.old result decoder.new }
{
    match simple {
        Simple::Boolean => decode_boolean(decoder),
        Simple::Null => decode_null(decoder),
        Simple::Integer(bounds) => decode_integer(decoder, bounds),
        Simple::Enumerated(items) => decode_enumerated(decoder, items),
        Simple::OctetString(size) => decode_octets(decoder, size),
        Simple::BitString(size) => decode_bits(decoder, size),
        Simple::NamedBits(size) => decode_named_bits(decoder, size),
        Simple::Characters(string) => decode_characters(decoder, string),
        Simple::Utf8 => decode_utf8(decoder),
        Simple::Text => decode_text(decoder),
        Simple::ObjectIdentifier => decode_identifier(decoder),
        Simple::UtcTime => decode_utc_time(decoder),
        Simple::GeneralizedTime => decode_generalized_time(decoder),
        Simple::Open => decode_any(decoder),
    }
}

/// Reads a value of a type in which no other stands, and puts it after others: the commonest in place.
#[inline(never)]
pub(crate) fn put_leaf<D: CountedDecoder>(
    decoder: &mut D,
    simple: &Simple,
    values: &mut Vec<Value>,
) -> Result<(), D::Error>
    ensures { PutsRead (ReadsValue D.rules (simple_schema simple.now) decoder.old)
        values.old.items result values.new.items decoder.new }
{
    match simple {
        Simple::Boolean => put_boolean(decoder, values),
        Simple::Integer(bounds) => put_integer(decoder, bounds, values),
        Simple::Enumerated(items) => put_enumerated(decoder, items, values),
        _ => put_simple(decoder, simple, values),
    }
}

/// Reads a BOOLEAN, and puts it after other values.
#[inline(always)]
fn put_boolean<D: CountedDecoder>(decoder: &mut D, values: &mut Vec<Value>) -> Result<(), D::Error>
    ensures { PutsRead (ReadsValue D.rules Schema.boolean decoder.old)
        values.old.items result values.new.items decoder.new }
{
    let value = decode_boolean(decoder)?;
    put(decoder, values, value)
}

/// Reads an INTEGER within bounds, and puts it after other values.
#[inline(always)]
fn put_integer<D: CountedDecoder>(
    decoder: &mut D,
    bounds: &NumberBounds,
    values: &mut Vec<Value>,
) -> Result<(), D::Error>
    ensures { PutsRead (ReadsValue D.rules (number_schema (of_value bounds.now) unbounded) decoder.old)
        values.old.items result values.new.items decoder.new }
{
    let value = decode_integer(decoder, bounds)?;
    put(decoder, values, value)
}

/// Reads an item of an ENUMERATED, and puts it after other values.
#[inline(always)]
fn put_enumerated<D: CountedDecoder>(
    decoder: &mut D,
    items: &Items,
    values: &mut Vec<Value>,
) -> Result<(), D::Error>
    ensures { PutsRead (ReadsValue D.rules (items_of (counts_of items.now)) decoder.old)
        values.old.items result values.new.items decoder.new }
{
    let value = decode_enumerated(decoder, items)?;
    put(decoder, values, value)
}

/// Reads a value of a type in which no other stands by itself, and puts it after others.
#[inline(always)]
fn put_simple<D: CountedDecoder>(
    decoder: &mut D,
    simple: &Simple,
    values: &mut Vec<Value>,
) -> Result<(), D::Error>
    ensures { PutsRead (ReadsValue D.rules (simple_schema simple.now) decoder.old)
        values.old.items result values.new.items decoder.new }
{
    let value = decode_simple(decoder, simple)?;
    put(decoder, values, value)
}

/// Refuses where nothing is at a place, as for a REAL, and puts nothing after other values.
#[inline(always)]
pub(crate) fn put_nothing<D: CountedDecoder>(
    decoder: &mut D,
    values: &mut Vec<Value>,
) -> Result<(), D::Error>
    ensures { PutsRead (ReadsValue D.rules Schema.real decoder.old)
        values.old.items result values.new.items decoder.new }
{
    let value = decode_nothing(decoder)?;
    put(decoder, values, value)
}

/// Puts a value that was read after others, where there is memory for it.
#[inline(always)]
pub(crate) fn put<D: CountedDecoder>(
    decoder: &mut D,
    values: &mut Vec<Value>,
    value: Value,
) -> Result<(), D::Error>
    ensures held { Holds D.rules (λ u. value) value decoder.old result decoder.new }
    ensures behind { OnOk result (values.new.items ≡ values.old.items ++ value ∷ []) }
{
    if values.push(value).is_err() {
        return Err(decoder.out_of_memory());
    }
    Ok(())
}

/// Refuses where nothing is at a place, as for a REAL.
#[inline(never)]
pub(crate) fn decode_nothing<D: CountedDecoder>(decoder: &mut D) -> Result<Value, D::Error>
    ensures { ReadsValue D.rules Schema.real decoder.old result decoder.new }
{
    decoder.decode_real(Tag::EOC, &Constraints::NONE)?;
    Ok(Value::Absent)
}

/// Reads a BOOLEAN.
#[inline(always)]
fn decode_boolean<D: CountedDecoder>(decoder: &mut D) -> Result<Value, D::Error>
    ensures { ReadsValue D.rules Schema.boolean decoder.old result decoder.new }
{
    let truth = decoder.decode_bool(Tag::BOOL)?;
    Ok(Value::Boolean(truth))
}

/// Reads a NULL.
fn decode_null<D: CountedDecoder>(decoder: &mut D) -> Result<Value, D::Error>
    ensures { ReadsValue D.rules Schema.null decoder.old result decoder.new }
{
    decoder.decode_null(Tag::NULL)?;
    Ok(Value::Null)
}

/// Reads an INTEGER within bounds.
#[inline(always)]
fn decode_integer<D: CountedDecoder>(
    decoder: &mut D,
    bounds: &NumberBounds,
) -> Result<Value, D::Error>
    ensures { ReadsValue D.rules (number_schema (of_value bounds.now) unbounded) decoder.old result decoder.new }
{
    let stated = [Constraint::Value(*bounds)];
    let number: Integer = decoder.decode_integer(Tag::INTEGER, &Constraints::new(&stated))?;
    Ok(Value::Integer(number))
}

/// Reads an item of an ENUMERATED.
#[inline(always)]
fn decode_enumerated<D: CountedDecoder>(decoder: &mut D, items: &Items) -> Result<Value, D::Error>
    ensures { ReadsValue D.rules (items_of (counts_of items.now)) decoder.old result decoder.new }
{
    let place = decoder.decode_item(Tag::ENUMERATED, items.counts())?;
    Ok(Value::Item(place))
}

/// Reads an OCTET STRING of a size.
fn decode_octets<D: CountedDecoder>(decoder: &mut D, size: &SizeBounds) -> Result<Value, D::Error>
    ensures { ReadsValue D.rules (octet_schema (of_size size.now)) decoder.old result decoder.new }
{
    let stated = [Constraint::Size(*size)];
    let octets = decoder.decode_octet_string(Tag::OCTET_STRING, &Constraints::new(&stated))?;
    match octets.into_owned(decoder.alloc()) {
        Ok(octets) => Ok(Value::Octets(Any::new(octets))),
        Err(_) => Err(decoder.out_of_memory()),
    }
}

/// Reads a BIT STRING of a size.
fn decode_bits<D: CountedDecoder>(decoder: &mut D, size: &SizeBounds) -> Result<Value, D::Error>
    ensures { ReadsValue D.rules (bit_schema (of_size size.now)) decoder.old result decoder.new }
{
    let stated = [Constraint::Size(*size)];
    let bits = decoder.decode_bit_string(Tag::BIT_STRING, &Constraints::new(&stated))?;
    Ok(Value::Bits(bits))
}

/// Reads a BIT STRING of a size whose bits have names.
fn decode_named_bits<D: CountedDecoder>(
    decoder: &mut D,
    size: &SizeBounds,
) -> Result<Value, D::Error>
    ensures { ReadsValue D.rules (named_bit_schema (of_size size.now)) decoder.old result decoder.new }
{
    let stated = [Constraint::Size(*size)];
    let bits = decoder.decode_named_bits(Tag::BIT_STRING, &Constraints::new(&stated))?;
    Ok(Value::Bits(bits))
}

/// Reads a character string.
fn decode_characters<D: CountedDecoder>(
    decoder: &mut D,
    string: &CharacterString,
) -> Result<Value, D::Error>
    ensures { ReadsValue D.rules (string_schema string.now) decoder.old result decoder.new }
{
    match string.of {
        CharacterType::Visible => {
            decode_kind_of::<D, VisibleKind>(decoder, Tag::VISIBLE_STRING, string)
        }
        CharacterType::Ia5 => decode_kind_of::<D, Ia5Kind>(decoder, Tag::IA5_STRING, string),
        CharacterType::Printable => {
            decode_kind_of::<D, PrintableKind>(decoder, Tag::PRINTABLE_STRING, string)
        }
        CharacterType::Numeric => {
            decode_kind_of::<D, NumericKind>(decoder, Tag::NUMERIC_STRING, string)
        }
        CharacterType::Bmp => decode_kind_of::<D, BmpKind>(decoder, Tag::BMP_STRING, string),
    }
}

/// Reads a character string whose characters are of a kind.
fn decode_kind_of<D: CountedDecoder, K: CharacterKind>(
    decoder: &mut D,
    tag: Tag,
    string: &CharacterString,
) -> Result<Value, D::Error>
    ensures { ReadsValue D.rules (character_schema K.alphabet (of_characters string.now))
        decoder.old result decoder.new }
{
    let read = decode_string_of::<D, K>(decoder, tag, string)?;
    Ok(Value::Characters(read.into_characters()))
}

/// Reads characters of a kind as those of a type of a size, of which some are permitted.
fn decode_string_of<D: CountedDecoder, K: CharacterKind>(
    decoder: &mut D,
    tag: Tag,
    string: &CharacterString,
) -> Result<StringOf<K>, D::Error>
    ensures { Reads D.rules (character_schema K.alphabet (of_characters string.now)) (λ x. characters x)
        decoder.old result decoder.new }
{
    match &string.alphabet {
        None => {
            let stated = [Constraint::Size(string.size)];
            decoder.decode_known_multiplier_string(tag, &Constraints::new(&stated))
        }
        Some(permitted) => {
            let stated = [
                Constraint::Size(string.size),
                Constraint::PermittedAlphabet(Extensible::new(permitted.as_slice())),
            ];
            decoder.decode_known_multiplier_string(tag, &Constraints::new(&stated))
        }
    }
}

/// Reads a UTF8String.
fn decode_utf8<D: CountedDecoder>(decoder: &mut D) -> Result<Value, D::Error>
    ensures { ReadsValue D.rules (Schema.text utf8) decoder.old result decoder.new }
{
    let text = decoder.decode_utf8_string(Tag::UTF8_STRING, &Constraints::NONE)?;
    Ok(Value::Octets(Any::new(text.into_bytes())))
}

/// Reads a character string whose octets may be any.
fn decode_text<D: CountedDecoder>(decoder: &mut D) -> Result<Value, D::Error>
    ensures { ReadsValue D.rules (Schema.text other) decoder.old result decoder.new }
{
    let text = decoder.decode_general_string(Tag::GENERAL_STRING, &Constraints::NONE)?;
    Ok(Value::Octets(Any::new(text.into_vec())))
}

/// Reads an OBJECT IDENTIFIER.
fn decode_identifier<D: CountedDecoder>(decoder: &mut D) -> Result<Value, D::Error>
    ensures { ReadsValue D.rules Schema.identifier decoder.old result decoder.new }
{
    let arcs = decoder.decode_object_identifier(Tag::OBJECT_IDENTIFIER)?;
    let mut octets = Vec::new(decoder.alloc());
    match object_identifier_as_bytes(&arcs, &mut octets) {
        Ok(()) => Ok(Value::Octets(Any::new(octets))),
        Err(_) => Err(decoder.out_of_memory()),
    }
}

/// Reads a UTCTime.
fn decode_utc_time<D: CountedDecoder>(decoder: &mut D) -> Result<Value, D::Error>
    ensures { ReadsValue D.rules (Schema.time utc) decoder.old result decoder.new }
{
    let time: UtcTime = decoder.decode_utc_time(Tag::UTC_TIME)?;
    match Value::from_utc_time(decoder.alloc(), time.to_datetime()) {
        Ok(value) => Ok(value),
        Err(_) => Err(decoder.out_of_memory()),
    }
}

/// Reads a GeneralizedTime.
fn decode_generalized_time<D: CountedDecoder>(decoder: &mut D) -> Result<Value, D::Error>
    ensures { ReadsValue D.rules (Schema.time generalized) decoder.old result decoder.new }
{
    let time: GeneralizedTime = decoder.decode_generalized_time(Tag::GENERALIZED_TIME)?;
    match Value::from_generalized_time(decoder.alloc(), time.to_datetime()) {
        Ok(value) => Ok(value),
        Err(_) => Err(decoder.out_of_memory()),
    }
}

/// Reads a DATE.
#[inline(never)]
pub(crate) fn decode_date<D: CountedDecoder>(decoder: &mut D) -> Result<Value, D::Error>
    ensures { ReadsValue D.rules (date_at (D.rules.levels decoder.old)) decoder.old result decoder.new }
{
    let date: Date = decoder.decode_date(Tag::DATE)?;
    Ok(Value::Date(date.to_civil_date()))
}

/// Reads the octets of an open type.
pub(crate) fn decode_any<D: CountedDecoder>(decoder: &mut D) -> Result<Value, D::Error>
    ensures { ReadsValue D.rules Schema.any decoder.old result decoder.new }
{
    let octets = decoder.decode_any(Tag::EOC)?;
    Ok(Value::Octets(octets))
}
