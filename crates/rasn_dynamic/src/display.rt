//! The text of values.

use crate::values::Value;
use rasn_schema::items::Place;
use rasn_strings::strings::BmpString;
use std::fmt;

/// In the value notation of X.680 as far as a value has it without its type. A component that is absent is `absent`. An
/// item is its place, and so is an alternative, before its value: an index from 0, with `+` in front of it after the
/// extension marker. A record is the list of its root components and that of its additions. A character that isn't one
/// of Unicode's scalar values is U+FFFD.
impl fmt::Display for Value {
    fn fmt<W: fmt::Write>(&self, f: &mut fmt::Formatter<W>) -> fmt::Result {
        write_value(self, f)
    }
}

/// As `Display` shows it.
impl fmt::Debug for Value {
    fn fmt<W: fmt::Write>(&self, f: &mut fmt::Formatter<W>) -> fmt::Result {
        write_value(self, f)
    }
}

/// Writes a value.
#[cycle(writing)]
fn write_value<W: fmt::Write>(value: &Value, f: &mut fmt::Formatter<W>) -> fmt::Result {
    match value {
        Value::Absent => f.write_str("absent"),
        Value::Boolean(truth) => f.write_str(if *truth { "TRUE" } else { "FALSE" }),
        Value::Null => f.write_str("NULL"),
        Value::Integer(number) => write!(f, "{number}"),
        Value::Item(place) => write_place(*place, f),
        Value::Octets(octets) => write_octets(octets.as_bytes(), f),
        Value::Bits(bits) => write!(f, "{bits}"),
        Value::Characters(characters) => write_characters(characters, f),
        Value::Date(day) => write!(f, "\"{day}\""),
        Value::Elements(values) => write_values(values, "{", f),
        Value::Bag(values) => write_values(values, "{", f),
        Value::Fields(root, additions) => {
            write_values(root, "{", f)?;
            write_values(additions, " + {", f)
        }
        Value::Alternative(place, chosen) => {
            write_place(*place, f)?;
            f.write_str(": ")?;
            write_value(chosen, f)
        }
    }
}

/// Writes values with commas between them, after what opens their list.
#[cycle(writing)]
fn write_values<W: fmt::Write>(
    values: &[Value],
    front: &str,
    f: &mut fmt::Formatter<W>,
) -> fmt::Result {
    f.write_str(front)?;
    let mut is_first = true;
    for value in values {
        if !is_first {
            f.write_str(", ")?;
        }
        is_first = false;
        write_value(value, f)?;
    }
    f.write_str("}")
}

/// Writes where an item or an alternative stands.
fn write_place<W: fmt::Write>(place: Place, f: &mut fmt::Formatter<W>) -> fmt::Result {
    match place {
        Place::Root(index) => write!(f, "{index}"),
        Place::Added(index) => write!(f, "+{index}"),
    }
}

/// Writes octets as an hstring (X.680 12.12).
fn write_octets<W: fmt::Write>(octets: &[u8], f: &mut fmt::Formatter<W>) -> fmt::Result {
    f.write_str("'")?;
    for octet in octets {
        write!(f, "{octet:02X}")?;
    }
    f.write_str("'H")
}

/// Writes characters as a cstring, of which each quotation mark is doubled (X.680 12.14).
fn write_characters<W: fmt::Write>(
    characters: &BmpString,
    f: &mut fmt::Formatter<W>,
) -> fmt::Result {
    f.write_str("\"")?;
    for unit in characters.as_units() {
        let character = char::from_u32(u32::from(*unit)).unwrap_or('\u{fffd}');
        if character == '"' {
            f.write_char(character)?;
        }
        f.write_char(character)?;
    }
    f.write_str("\"")
}
