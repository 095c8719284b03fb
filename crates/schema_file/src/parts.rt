//! Components, alternatives and items in the words of a line.

use crate::error::Reason;
use crate::values::{MOST_LEVELS, default_tree};
use crate::words::{Words, name_of};
use rasn_dynamic::types::{Alternative, Choice, Component, Items, Presence, Record};
use std::alloc::Global;

/// The components of a SEQUENCE or SET.
pub fn record(alloc: Global, words: &mut Words<'_>) -> Result<Record, Reason> {
    let roots = words.count()?;
    let addeds = words.count_or_none()?;
    let root = components(alloc, words, roots, false)?;
    let additions = match addeds {
        Some(count) => Some(components(alloc, words, count, true)?),
        None => None,
    };
    Ok(Record { root, additions })
}

/// So many components, groups among them where they are additions.
fn components(
    alloc: Global,
    words: &mut Words<'_>,
    count: usize,
    are_additions: bool,
) -> Result<Vec<Component>, Reason> {
    let mut components = Vec::new(alloc);
    for _ in 0..count {
        let component = match words.word()? {
            "[[" if are_additions => group(alloc, words)?,
            word => component(alloc, name_of(word)?, words)?,
        };
        components.push(component)?;
    }
    Ok(components)
}

/// A group of additions, which has no name.
fn group(alloc: Global, words: &mut Words<'_>) -> Result<Component, Reason> {
    let tag = words.tag()?;
    let of = words.count()?;
    Ok(Component {
        name: String::new(alloc),
        tag,
        presence: Presence::Group,
        of,
    })
}

/// A component with a name.
fn component(alloc: Global, name: &str, words: &mut Words<'_>) -> Result<Component, Reason> {
    let name = String::from_str(alloc, name)?;
    let tag = words.tag()?;
    let presence = words.word()?;
    let of = words.count()?;
    let presence = match presence {
        "r" => Presence::Required,
        "o" => Presence::Optional,
        "d" => Presence::Default(default_tree(alloc, words.word()?, words, MOST_LEVELS)?),
        _ => return Err(Reason::UnknownWord),
    };
    Ok(Component {
        name,
        tag,
        presence,
        of,
    })
}

/// The alternatives of a CHOICE.
pub fn choice(alloc: Global, words: &mut Words<'_>) -> Result<Choice, Reason> {
    let count = words.count()?;
    let added_count = words.count_or_none()?;
    let roots = alternatives(alloc, words, count)?;
    let addeds = match added_count {
        Some(count) => Some(alternatives(alloc, words, count)?),
        None => None,
    };
    Ok(Choice { roots, addeds })
}

/// So many alternatives.
fn alternatives(
    alloc: Global,
    words: &mut Words<'_>,
    count: usize,
) -> Result<Vec<Alternative>, Reason> {
    let mut alternatives = Vec::new(alloc);
    for _ in 0..count {
        let name = String::from_str(alloc, words.name()?)?;
        let tag = words.tag()?;
        let of = words.count()?;
        alternatives.push(Alternative { name, tag, of })?;
    }
    Ok(alternatives)
}

/// The items of an ENUMERATED.
pub fn items(alloc: Global, words: &mut Words<'_>) -> Result<Items, Reason> {
    let count = words.count()?;
    let added_count = words.count_or_none()?;
    let roots = names(alloc, words, count)?;
    let addeds = match added_count {
        Some(count) => Some(names(alloc, words, count)?),
        None => None,
    };
    Ok(Items { roots, addeds })
}

/// So many names.
fn names(alloc: Global, words: &mut Words<'_>, count: usize) -> Result<Vec<String>, Reason> {
    let mut names = Vec::new(alloc);
    for _ in 0..count {
        names.push(String::from_str(alloc, words.name()?)?)?;
    }
    Ok(names)
}
