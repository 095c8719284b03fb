//! The lines of types.

use crate::error::Reason;
use crate::parts::{choice, items, record};
use crate::values::{MOST_LEVELS, default_value, skip_value};
use crate::words::Words;
use rasn_dynamic::types::{
    CharacterString, CharacterType, DefaultValue, ElementPresence, Kind, ObjectSet, Row, Simple,
};
use std::alloc::Global;

/// What a line says of a type, in a table of so many. Places are judged later, but those of an open type's rows, of
/// which not all are kept.
pub fn kind(alloc: Global, line: &str, types: usize) -> Result<Kind, Reason> {
    let mut words = Words::new(line);
    let kind = kind_in(alloc, &mut words, types)?;
    words.end()?;
    Ok(kind)
}

/// What the words of a line say of a type.
fn kind_in(alloc: Global, words: &mut Words<'_>, types: usize) -> Result<Kind, Reason> {
    let kind = match words.word()? {
        "sequence" | "set" => Kind::Record(record(alloc, words)?),
        "choice" => Kind::Choice(choice(alloc, words)?),
        "sequence_of" => Kind::List(words.count()?, words.size()?),
        "set_of" => Kind::SetOf(words.count()?, words.size()?),
        "date" => Kind::Date,
        "containing" => Kind::Containing(words.count()?),
        "open_type" => open_type(alloc, words, types)?,
        word => Kind::Simple(simple(alloc, word, words)?),
    };
    Ok(kind)
}

/// A type in which no other stands, whose line begins with a word.
fn simple(alloc: Global, word: &str, words: &mut Words<'_>) -> Result<Simple, Reason> {
    let simple = match word {
        "boolean" => Simple::Boolean,
        "null" => Simple::Null,
        "integer" => Simple::Integer(words.bounds()?),
        "enumerated" => Simple::Enumerated(items(alloc, words)?),
        "octet_string" => Simple::OctetString(words.size()?),
        "bit_string" => Simple::BitString(words.size()?),
        "named_bits" => Simple::NamedBits(words.size()?),
        "utf8_string" => Simple::Utf8,
        "general_string" | "graphic_string" | "teletex_string" => Simple::Text,
        "videotex_string" | "object_descriptor" => Simple::Text,
        "object_identifier" => Simple::ObjectIdentifier,
        "utc_time" => Simple::UtcTime,
        "generalized_time" => Simple::GeneralizedTime,
        "universal_string" => return Err(Reason::NotHeld),
        word => Simple::Characters(characters(alloc, word, words)?),
    };
    Ok(simple)
}

/// A string of characters, whose line begins with a word.
fn characters(alloc: Global, word: &str, words: &mut Words<'_>) -> Result<CharacterString, Reason> {
    let of = match word {
        "ia5_string" => CharacterType::Ia5,
        "visible_string" => CharacterType::Visible,
        "printable_string" => CharacterType::Printable,
        "numeric_string" => CharacterType::Numeric,
        "bmp_string" => CharacterType::Bmp,
        _ => return Err(Reason::UnknownType),
    };
    let size = words.size()?;
    let alphabet = words.alphabet(alloc)?;
    Ok(CharacterString { of, size, alphabet })
}

/// An open type, whose line may say which types it may have in a table of so many.
fn open_type(alloc: Global, words: &mut Words<'_>, types: usize) -> Result<Kind, Reason> {
    if words.is_at_end() {
        return Ok(Kind::Simple(Simple::Open));
    }
    let chooser = words.count()?;
    let criticality = words.count_or_none()?;
    let count = words.count()?;
    if count == 0 {
        return Err(Reason::NotNumber);
    }
    let mut rows = Vec::new(alloc);
    for _ in 0..count {
        if let Some(row) = row(alloc, words, types, criticality.is_some())? {
            rows.push(row)?;
        }
    }
    Ok(Kind::Open(ObjectSet {
        chooser,
        criticality,
        rows,
    }))
}

/// Reads a row: a value, the name and the place of its type, the value of another component, and a presence. None is
/// kept whose value holds values.
fn row(
    alloc: Global,
    words: &mut Words<'_>,
    types: usize,
    has_criticality: bool,
) -> Result<Option<Row>, Reason> {
    let value = plain_value(alloc, words.word()?, words)?;
    let name = words.word()?;
    let of = words.count()?;
    if of >= types {
        return Err(Reason::NoSuchPlace);
    }
    let criticality = match words.word()? {
        "-" => None,
        head if has_criticality => plain_value(alloc, head, words)?,
        _ => return Err(Reason::UnknownWord),
    };
    let presence = presence_of(words.word()?);
    let Some(value) = value else {
        return Ok(None);
    };
    Ok(Some(Row {
        value,
        name: String::from_str(alloc, name)?,
        of,
        criticality,
        presence,
    }))
}

/// The value that words say, the first of which was read, where it holds no values.
fn plain_value(
    alloc: Global,
    head: &str,
    words: &mut Words<'_>,
) -> Result<Option<DefaultValue>, Reason> {
    match head {
        "list" | "record" | "chosen" => {
            skip_value(head, words, MOST_LEVELS)?;
            Ok(None)
        }
        head => Ok(Some(default_value(alloc, head, words)?)),
    }
}

/// The presence of an element that a word says, where it is one of the three that protocols use.
fn presence_of(word: &str) -> Option<ElementPresence> {
    match word {
        "optional" => Some(ElementPresence::Optional),
        "conditional" => Some(ElementPresence::Conditional),
        "mandatory" => Some(ElementPresence::Mandatory),
        _ => None,
    }
}
