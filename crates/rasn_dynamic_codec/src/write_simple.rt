//! How values are written of types in which no other type stands.

ghost use Rattle.std.specs.Prelude.{◌≡◌, ◌==◌, ◌&&◌, Err, IfOk, false, length};
ghost use Rattle.rasn_types.specs.Contents.{generalized, is_identifier, other, utc, utf8};
ghost use Rattle.rasn_types.specs.Identifiers.{contents};
ghost use Rattle.rasn_types.specs.Values.{characters};
ghost use Rattle.rasn_constraints.specs.Bounds.{unbounded};
ghost use Rattle.rasn_schema.specs.Enumerations.{items_of};
ghost use Rattle.rasn_schema.specs.Forms.{always, bit_schema, character_schema, named_bit_schema};
ghost use Rattle.rasn_schema.specs.Forms.{number_schema, octet_schema};
ghost use Rattle.rasn_schema.specs.Schemas.{Schema};
ghost use Rattle.rasn_traits.specs.Calls.{Encodes, Writes};
ghost use Rattle.rasn_traits.specs.Counted.{stands_in};
ghost use Rattle.rasn_traits.specs.Moments.{date_at};
ghost use Rattle.rasn_dynamic.specs.Types.{counts_of, of_characters, of_size, of_value, simple_schema, string_schema};
ghost use Rattle.rasn_dynamic.specs.Values.{levels_of, NotDate, value_of};
ghost use Rattle.rasn_types.specs.declared.ber.BerError.TheVariants.{InvalidObjectIdentifier};

use crate::characters::{StringOf, has_characters};
use rasn_constraints::constraints::{Constraint, Constraints, Extensible};
use rasn_dynamic::types::{
    CharacterString, CharacterType, Items, NumberBounds, Simple, SizeBounds,
};
use rasn_dynamic::values::Value;
use rasn_schema::items::{ItemCounts, Place};
use rasn_strings::strings::{
    BmpKind, CharacterKind, Ia5Kind, NumericKind, PrintableKind, VisibleKind,
};
use rasn_traits::counted::CountedEncoder;
use rasn_types::ber::{BerError, object_identifier_from_bytes};
use rasn_types::octet_strings::GeneralString;
use rasn_types::types::{Any, Identifier, Tag};
use rasn_useful::date::Date;
use rasn_useful::generalized_time::GeneralizedTime;
use rasn_useful::utc_time::UtcTime;

/// Writes a value of a type in which no other stands: the commonest in place, the others by a call.
#[inline(never)]
pub(crate) fn encode_leaf<E: CountedEncoder>(
    encoder: &mut E,
    simple: &Simple,
    value: &Value,
) -> Result<(), E::Error>
    ensures { Encodes E.rules (always (simple_schema simple.now)) (levels_of value.now) (value_of value.now)
        encoder.old result encoder.new }
{
    match simple {
        Simple::Boolean => encode_boolean(encoder, value),
        Simple::Integer(bounds) => encode_integer(encoder, bounds, value),
        Simple::Enumerated(items) => encode_enumerated(encoder, items, value),
        _ => encode_simple(encoder, simple, value),
    }
}

/// Writes a value of a type in which no other stands.
#[inline(never)]
pub(crate) fn encode_simple<E: CountedEncoder>(
    encoder: &mut E,
    simple: &Simple,
    value: &Value,
) -> Result<(), E::Error>
    ensures { Encodes E.rules (always (simple_schema simple.now)) (levels_of value.now) (value_of value.now)
        encoder.old result encoder.new }
{
    match simple {
        Simple::Boolean => encode_boolean(encoder, value),
        Simple::Null => encode_null(encoder, value),
        Simple::Integer(bounds) => encode_integer(encoder, bounds, value),
        Simple::Enumerated(items) => encode_enumerated(encoder, items, value),
        Simple::OctetString(size) => encode_octets(encoder, size, value),
        Simple::BitString(size) => encode_bits(encoder, size, value),
        Simple::NamedBits(size) => encode_named_bits(encoder, size, value),
        Simple::Characters(string) => encode_characters(encoder, string, value),
        Simple::Utf8 => encode_utf8(encoder, value),
        Simple::Text => encode_text(encoder, value),
        Simple::ObjectIdentifier => encode_identifier(encoder, value),
        Simple::UtcTime => encode_utc_time(encoder, value),
        Simple::GeneralizedTime => encode_generalized_time(encoder, value),
        Simple::Open => encode_any(encoder, value),
    }
}

/// Writes a BOOLEAN.
#[inline(always)]
fn encode_boolean<E: CountedEncoder>(encoder: &mut E, value: &Value) -> Result<(), E::Error>
    ensures { Encodes E.rules (always Schema.boolean) (levels_of value.now) (value_of value.now)
        encoder.old result encoder.new }
{
    match value.as_boolean() {
        Some(truth) => encoder.encode_bool(Tag::BOOL, truth, Identifier::EMPTY),
        None => encoder.refuse_other(),
    }
}

/// Writes a NULL.
fn encode_null<E: CountedEncoder>(encoder: &mut E, value: &Value) -> Result<(), E::Error>
    ensures { Encodes E.rules (always Schema.null) (levels_of value.now) (value_of value.now)
        encoder.old result encoder.new }
{
    if value.is_null() {
        return encoder.encode_null(Tag::NULL, Identifier::EMPTY);
    }
    encoder.refuse_other()
}

/// Writes an INTEGER within bounds.
#[inline(always)]
fn encode_integer<E: CountedEncoder>(
    encoder: &mut E,
    bounds: &NumberBounds,
    value: &Value,
) -> Result<(), E::Error>
    ensures { Encodes E.rules (always (number_schema (of_value bounds.now) unbounded)) (levels_of value.now)
        (value_of value.now) encoder.old result encoder.new }
{
    let Some(number) = value.as_integer() else {
        return encoder.refuse_other();
    };
    let stated = [Constraint::Value(*bounds)];
    let constraints = Constraints::new(&stated);
    encoder.encode_integer(Tag::INTEGER, &constraints, number, Identifier::EMPTY)
}

/// Writes an item of an ENUMERATED.
#[inline(always)]
fn encode_enumerated<E: CountedEncoder>(
    encoder: &mut E,
    items: &Items,
    value: &Value,
) -> Result<(), E::Error>
    ensures { Encodes E.rules (always (items_of (counts_of items.now))) (levels_of value.now)
        (value_of value.now) encoder.old result encoder.new }
{
    let Some(place) = value.as_item() else {
        return encoder.refuse_other();
    };
    let counts = items.counts();
    if !stands_in(counts, place) {
        return encoder.refuse_other();
    }
    encoder.encode_item(Tag::ENUMERATED, counts, place, Identifier::EMPTY)
}

/// Whether so many items, or alternatives, have one at a place.
pub(crate) fn stands_in(counts: ItemCounts, place: Place) -> bool
    ensures { result ≡ stands_in counts place }
{
    match place {
        Place::Root(index) => index < counts.roots,
        Place::Added(index) => index < counts.addeds.unwrap_or(0),
    }
}

/// Writes an OCTET STRING of a size.
fn encode_octets<E: CountedEncoder>(
    encoder: &mut E,
    size: &SizeBounds,
    value: &Value,
) -> Result<(), E::Error>
    ensures { Encodes E.rules (always (octet_schema (of_size size.now))) (levels_of value.now)
        (value_of value.now) encoder.old result encoder.new }
{
    let Some(octets) = value.as_octets() else {
        return encoder.refuse_other();
    };
    let stated = [Constraint::Size(*size)];
    let constraints = Constraints::new(&stated);
    encoder.encode_octet_string(Tag::OCTET_STRING, &constraints, octets, Identifier::EMPTY)
}

/// Writes a BIT STRING of a size.
fn encode_bits<E: CountedEncoder>(
    encoder: &mut E,
    size: &SizeBounds,
    value: &Value,
) -> Result<(), E::Error>
    ensures { Encodes E.rules (always (bit_schema (of_size size.now))) (levels_of value.now)
        (value_of value.now) encoder.old result encoder.new }
{
    let Some(bits) = value.as_bits() else {
        return encoder.refuse_other();
    };
    let stated = [Constraint::Size(*size)];
    let constraints = Constraints::new(&stated);
    encoder.encode_bit_string(Tag::BIT_STRING, &constraints, bits, Identifier::EMPTY)
}

/// Writes a BIT STRING of a size whose bits have names.
fn encode_named_bits<E: CountedEncoder>(
    encoder: &mut E,
    size: &SizeBounds,
    value: &Value,
) -> Result<(), E::Error>
    ensures { Encodes E.rules (always (named_bit_schema (of_size size.now))) (levels_of value.now)
        (value_of value.now) encoder.old result encoder.new }
{
    let Some(bits) = value.as_bits() else {
        return encoder.refuse_other();
    };
    let stated = [Constraint::Size(*size)];
    let constraints = Constraints::new(&stated);
    encoder.encode_named_bits(Tag::BIT_STRING, &constraints, bits, Identifier::EMPTY)
}

/// Writes a character string.
fn encode_characters<E: CountedEncoder>(
    encoder: &mut E,
    string: &CharacterString,
    value: &Value,
) -> Result<(), E::Error>
    ensures { Encodes E.rules (always (string_schema string.now)) (levels_of value.now) (value_of value.now)
        encoder.old result encoder.new }
{
    match string.of {
        CharacterType::Visible => {
            encode_kind_of::<E, VisibleKind>(encoder, Tag::VISIBLE_STRING, string, value)
        }
        CharacterType::Ia5 => {
            encode_kind_of::<E, Ia5Kind>(encoder, Tag::IA5_STRING, string, value)
        }
        CharacterType::Printable => {
            encode_kind_of::<E, PrintableKind>(encoder, Tag::PRINTABLE_STRING, string, value)
        }
        CharacterType::Numeric => {
            encode_kind_of::<E, NumericKind>(encoder, Tag::NUMERIC_STRING, string, value)
        }
        CharacterType::Bmp => {
            encode_kind_of::<E, BmpKind>(encoder, Tag::BMP_STRING, string, value)
        }
    }
}

/// Writes a character string whose characters are of a kind.
fn encode_kind_of<E: CountedEncoder, K: CharacterKind>(
    encoder: &mut E,
    tag: Tag,
    string: &CharacterString,
    value: &Value,
) -> Result<(), E::Error>
    ensures { Encodes E.rules (always (character_schema K.alphabet (of_characters string.now)))
        (levels_of value.now) (value_of value.now) encoder.old result encoder.new }
{
    let Some(characters) = value.as_characters() else {
        return encoder.refuse_other();
    };
    if !has_characters::<K>(characters) {
        return encoder.refuse_other();
    }
    let Ok(copy) = characters.clone() else {
        return encoder.refuse_out_of_memory();
    };
    let held = StringOf::<K>::new(copy);
    encode_string_of(encoder, tag, string, &held)
}

/// Writes characters of a kind as those of a type of a size, of which some are permitted.
fn encode_string_of<E: CountedEncoder, K: CharacterKind>(
    encoder: &mut E,
    tag: Tag,
    string: &CharacterString,
    value: &StringOf<K>,
) -> Result<(), E::Error>
    ensures { Writes E.rules (character_schema K.alphabet (of_characters string.now)) (characters value.now)
        encoder.old result encoder.new }
{
    match &string.alphabet {
        None => {
            let stated = [Constraint::Size(string.size)];
            let constraints = Constraints::new(&stated);
            encoder.encode_known_multiplier_string(tag, &constraints, value, Identifier::EMPTY)
        }
        Some(permitted) => {
            let stated = [
                Constraint::Size(string.size),
                Constraint::PermittedAlphabet(Extensible::new(permitted.as_slice())),
            ];
            let constraints = Constraints::new(&stated);
            encoder.encode_known_multiplier_string(tag, &constraints, value, Identifier::EMPTY)
        }
    }
}

/// Writes a UTF8String. Octets that are no UTF-8 are refused.
fn encode_utf8<E: CountedEncoder>(encoder: &mut E, value: &Value) -> Result<(), E::Error>
    ensures { Encodes E.rules (always (Schema.text utf8)) (levels_of value.now) (value_of value.now)
        encoder.old result encoder.new }
{
    let Some(octets) = value.as_octets() else {
        return encoder.refuse_other();
    };
    match str::from_utf8(octets) {
        Ok(text) => {
            encoder.encode_utf8_string(
                Tag::UTF8_STRING,
                &Constraints::NONE,
                text,
                Identifier::EMPTY,
            )
        }
        Err(_) => encoder.refuse_other(),
    }
}

/// Writes a character string whose octets may be any.
fn encode_text<E: CountedEncoder>(encoder: &mut E, value: &Value) -> Result<(), E::Error>
    ensures { Encodes E.rules (always (Schema.text other)) (levels_of value.now) (value_of value.now)
        encoder.old result encoder.new }
{
    let Some(octets) = value.as_open() else {
        return encoder.refuse_other();
    };
    let Ok(copy) = octets.clone() else {
        return encoder.refuse_out_of_memory();
    };
    let text = GeneralString::new(copy.into_vec());
    encoder.encode_general_string(
        Tag::GENERAL_STRING,
        &Constraints::NONE,
        &text,
        Identifier::EMPTY,
    )
}

/// Writes an OBJECT IDENTIFIER by its contents octets. Those of no object are refused.
fn encode_identifier<E: CountedEncoder>(encoder: &mut E, value: &Value) -> Result<(), E::Error>
    ensures { Encodes E.rules (always Schema.identifier) (levels_of value.now) (value_of value.now)
        encoder.old result encoder.new }
{
    let Some(octets) = value.as_open() else {
        return encoder.refuse_other();
    };
    match arcs_in(octets) {
        Ok(arcs) => {
            encoder.encode_object_identifier(Tag::OBJECT_IDENTIFIER, &arcs, Identifier::EMPTY)
        }
        Err(BerError::InvalidObjectIdentifier) => encoder.refuse_other(),
        Err(BerError::OutOfMemory) => encoder.refuse_out_of_memory(),
    }
}

/// The arcs of the object with these contents octets, in memory of the octets' own.
fn arcs_in(octets: &Any) -> Result<Vec<u32>, BerError>
    ensures read { IfOk result (λ arcs. contents arcs.items ≡ octets.now) }
    ensures refused { result ≡ Err InvalidObjectIdentifier → is_identifier octets.now ≡ false }
{
    let copy = octets.clone()?.into_vec();
    object_identifier_from_bytes(*copy.allocator(), &copy)
}

/// Writes a UTCTime by its text. Characters that aren't its canonical text are refused.
fn encode_utc_time<E: CountedEncoder>(encoder: &mut E, value: &Value) -> Result<(), E::Error>
    ensures { Encodes E.rules (always (Schema.time utc)) (levels_of value.now) (value_of value.now)
        encoder.old result encoder.new }
{
    match value.to_utc_time() {
        Some(moment) => {
            encoder.encode_utc_time(Tag::UTC_TIME, &UtcTime::new(moment), Identifier::EMPTY)
        }
        None => encoder.refuse_other(),
    }
}

/// Writes a GeneralizedTime by its text. Characters that aren't its canonical text are refused.
fn encode_generalized_time<E: CountedEncoder>(
    encoder: &mut E,
    value: &Value,
) -> Result<(), E::Error>
    ensures { Encodes E.rules (always (Schema.time generalized)) (levels_of value.now) (value_of value.now)
        encoder.old result encoder.new }
{
    match value.to_generalized_time() {
        Some(moment) => {
            let time = GeneralizedTime::new(moment);
            encoder.encode_generalized_time(Tag::GENERALIZED_TIME, &time, Identifier::EMPTY)
        }
        None => encoder.refuse_other(),
    }
}

/// Writes a DATE.
#[inline(never)]
pub(crate) fn encode_date<E: CountedEncoder>(encoder: &mut E, value: &Value) -> Result<(), E::Error>
    ensures { Encodes E.rules date_at (levels_of value.now) (value_of value.now) encoder.old result encoder.new }
{
    match value {
        Value::Date(day) => encoder.encode_date(Tag::DATE, &Date::new(*day), Identifier::EMPTY),
        _ => refuse_no_day(encoder, value),
    }
}

/// Refuses a value that is no day where a DATE is written: a record that holds nothing as for want of memory, since
/// where a type is cut off it may stand for a group.
fn refuse_no_day<E: CountedEncoder>(encoder: &mut E, value: &Value) -> Result<(), E::Error>
    ensures { NotDate (value_of value.now)
        → Encodes E.rules date_at (levels_of value.now) (value_of value.now) encoder.old result encoder.new }
{
    let Some((root, additions)) = value.as_fields() else {
        return encoder.refuse_other();
    };
    if hold_nothing(root, additions) {
        return encoder.refuse_out_of_memory();
    }
    encoder.refuse_other()
}

/// Whether a record has neither root components nor additions.
fn hold_nothing(root: &[Value], additions: &[Value]) -> bool
    ensures { result ≡ (length root.now == 0 && length additions.now == 0) }
{
    root.is_empty() && additions.is_empty()
}

/// Writes the octets of an open type.
pub(crate) fn encode_any<E: CountedEncoder>(encoder: &mut E, value: &Value) -> Result<(), E::Error>
    ensures { Encodes E.rules (always Schema.any) (levels_of value.now) (value_of value.now)
        encoder.old result encoder.new }
{
    match value.as_open() {
        Some(octets) => encoder.encode_any(Tag::EOC, octets, Identifier::EMPTY),
        None => encoder.refuse_other(),
    }
}
