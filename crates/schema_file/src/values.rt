//! Values in the words of a line.

ghost use Rattle.std.specs.Prelude.{◌≡◌, ◌+◌, IfOk};

use crate::error::Reason;
use crate::words::Words;
use rasn_dynamic::types::{DefaultTree, DefaultValue};
use rasn_strings::strings::BmpString;
use rasn_types::ber::{BerError, object_identifier_as_bytes};
use rasn_types::types::{Any, Integer};
use std::alloc::Global;

/// How deep a value holds values at most.
pub const MOST_LEVELS: usize = 255;

/// The default that words say, the first of which was read, with at most so many levels of values in it. All components
/// of a record are in its root until its type is known (`arrange`).
#[cycle(reading)]
pub fn default_tree(
    alloc: Global,
    head: &str,
    words: &mut Words<'_>,
    levels: usize,
) -> Result<DefaultTree, Reason> {
    match head {
        "list" => default_list(alloc, words, levels),
        "record" => {
            let slots = default_slots(alloc, words, levels)?;
            Ok(DefaultTree::Fields(slots, Vec::new(alloc)))
        }
        "chosen" => {
            let place = words.place()?;
            let below = level_below(levels)?;
            let head = words.word()?;
            let chosen = default_tree(alloc, head, words, below)?;
            Ok(DefaultTree::Alternative(place, Box::new(alloc, chosen)?))
        }
        head => Ok(DefaultTree::Plain(default_value(alloc, head, words)?)),
    }
}

/// The list that words say.
#[cycle(reading)]
fn default_list(
    alloc: Global,
    words: &mut Words<'_>,
    levels: usize,
) -> Result<DefaultTree, Reason> {
    let count = words.count()?;
    let mut values = Vec::new(alloc);
    for _ in 0..count {
        let below = level_below(levels)?;
        let head = words.word()?;
        values.push(default_tree(alloc, head, words, below)?)?;
    }
    if values.is_empty() {
        return Ok(DefaultTree::Plain(DefaultValue::NoElements));
    }
    Ok(DefaultTree::Elements(values))
}

/// The components of the record that words say, each absent or there.
#[cycle(reading)]
fn default_slots(
    alloc: Global,
    words: &mut Words<'_>,
    levels: usize,
) -> Result<Vec<DefaultTree>, Reason> {
    let count = words.count()?;
    let mut slots = Vec::new(alloc);
    for _ in 0..count {
        let below = level_below(levels)?;
        match words.word()? {
            "absent" => slots.push(DefaultTree::Absent)?,
            head => slots.push(default_tree(alloc, head, words, below)?)?,
        }
    }
    Ok(slots)
}

/// How many levels are left below one.
fn level_below(levels: usize) -> Result<usize, Reason>
    ensures { IfOk result (λ below. below + 1 ≡ levels) }
{
    match levels.checked_sub(1) {
        Some(below) => Ok(below),
        None => Err(Reason::NestedTooDeep),
    }
}

/// The value that words say which holds none, and the first of which was read.
pub fn default_value(
    alloc: Global,
    head: &str,
    words: &mut Words<'_>,
) -> Result<DefaultValue, Reason> {
    let value = match head {
        "true" => DefaultValue::Boolean(true),
        "false" => DefaultValue::Boolean(false),
        "null" => DefaultValue::Null,
        "int" => DefaultValue::Integer(Integer::from(words.number()?)),
        "item" => DefaultValue::Item(words.place()?),
        "octets" => DefaultValue::Octets(Any::new(words.octets(alloc)?)),
        "bits" => DefaultValue::Bits(words.bits(alloc)?),
        "characters" => DefaultValue::Characters(characters(alloc, words)?),
        "oid" => DefaultValue::Octets(identifier(alloc, words)?),
        _ => return Err(Reason::UnknownValue),
    };
    Ok(value)
}

/// The characters of a string, none past the Basic Multilingual Plane.
fn characters(alloc: Global, words: &mut Words<'_>) -> Result<BmpString, Reason> {
    let count = words.count()?;
    let mut units = Vec::new(alloc);
    for _ in 0..count {
        match u16::try_from(words.count()?) {
            Ok(unit) => units.push(unit)?,
            Err(_) => return Err(Reason::NumberTooLarge),
        }
    }
    Ok(BmpString::from_units(units))
}

/// The contents octets of an OBJECT IDENTIFIER (X.690 8.19).
fn identifier(alloc: Global, words: &mut Words<'_>) -> Result<Any, Reason> {
    let count = words.count()?;
    let mut arcs = Vec::new(alloc);
    for _ in 0..count {
        match u32::try_from(words.count()?) {
            Ok(arc) => arcs.push(arc)?,
            Err(_) => return Err(Reason::NumberTooLarge),
        }
    }
    let mut octets = Vec::new(alloc);
    match object_identifier_as_bytes(&arcs, &mut octets) {
        Ok(()) => Ok(Any::new(octets)),
        Err(BerError::InvalidObjectIdentifier) => Err(Reason::NotIdentifier),
        Err(BerError::OutOfMemory) => Err(Reason::OutOfMemory),
    }
}

/// Reads a value that begins with a word, and the values in it, at most so many levels of them, and keeps nothing.
pub fn skip_value(head: &str, words: &mut Words<'_>, levels: usize) -> Result<(), Reason> {
    let held = skip_head(head, words)?;
    for _ in 0..held {
        let Some(below) = levels.checked_sub(1) else {
            return Err(Reason::NestedTooDeep);
        };
        let head = words.word()?;
        skip_value(head, words, below)?;
    }
    Ok(())
}

/// Reads a value that begins with a word as far as the first value in it, and answers how many it holds.
fn skip_head(head: &str, words: &mut Words<'_>) -> Result<usize, Reason> {
    match head {
        "true" | "false" | "null" | "absent" => {}
        "int" => drop(words.number()?),
        "item" => drop(words.place()?),
        "octets" | "bits" => drop(words.word()?),
        "characters" | "oid" => skip_counts(words)?,
        "list" | "record" => return words.count(),
        "chosen" => drop(words.place()?),
        _ => return Err(Reason::UnknownValue),
    }
    Ok(usize::from(head == "chosen"))
}

/// Reads a count, and so many numbers.
fn skip_counts(words: &mut Words<'_>) -> Result<(), Reason> {
    let count = words.count()?;
    for _ in 0..count {
        words.count()?;
    }
    Ok(())
}
