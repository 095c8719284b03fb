//! Types by the words that people type.

ghost use Rattle.std.specs.Prelude.{◌≡◌, ℕ, Some};
ghost use Rattle.rasn_dynamic.specs.Names.{place_of};

use rasn_dynamic::types::{Name, Types};
use std::alloc::{AllocError, Global};
use strsim::levenshtein;

/// The place of the type that a word names: the type with this very name, `MODULE.TYPE`; or else the only one with this
/// name in any module; or else the only one whose name it is without regard to case, with its module or without.
pub fn place_of_word(types: &Types, word: &str) -> Option<usize>
    ensures { (place : ℕ) → place_of types.now.names.items word.now ≡ Some place → result ≡ Some place }
{
    if let Some(place) = types.place(word) {
        return Some(place);
    }
    match only_place(&types.names, word, false) {
        Some(place) => Some(place),
        None => only_place(&types.names, word, true),
    }
}

/// The place of the only type with a name, with its module or without, in any case or just in this.
fn only_place(names: &[Name], word: &str, any_case: bool) -> Option<usize> {
    let mut found = None;
    for entry in names {
        if is_name(entry.name.as_str(), word, any_case) {
            if found.is_some() {
                return None;
            }
            found = Some(entry.place);
        }
    }
    found
}

/// Whether a word is a type's name, with its module or without.
fn is_name(name: &str, word: &str, any_case: bool) -> bool {
    is_same(name, word, any_case) || is_same(without_module(name), word, any_case)
}

/// Whether texts are the same, in any case or just in this.
fn is_same(one: &str, other: &str, any_case: bool) -> bool {
    if any_case {
        one.eq_ignore_ascii_case(other)
    } else {
        one == other
    }
}

/// A type's name without that of its module.
fn without_module(name: &str) -> &str {
    match name.split_once('.') {
        Some((_, own)) => own,
        None => name,
    }
}

/// The type's name that is nearest to a word, without regard to case: one that has the word in it, the shortest such,
/// or else one that takes the fewest edits. There is none where the table has no names. The only error is want of
/// memory.
pub fn nearest<'types>(
    alloc: Global,
    types: &'types Types,
    word: &str,
) -> Result<Option<&'types str>, AllocError> {
    let sought = word.to_ascii_lowercase(alloc)?;
    let mut best = None;
    let mut least = u64::MAX;
    for entry in &types.names {
        let distance = distance_of(alloc, entry.name.as_str(), sought.as_str())?;
        if distance < least {
            least = distance;
            best = Some(entry.name.as_str());
        }
    }
    Ok(best)
}

/// How far a type's name is from a word in lower case.
fn distance_of(alloc: Global, name: &str, word: &str) -> Result<u64, AllocError> {
    let own = without_module(name).to_ascii_lowercase(alloc)?;
    if own.as_str().contains(word) {
        return Ok(own.as_str().len() as u64);
    }
    let edits = levenshtein(alloc, own.as_str(), word)?;
    Ok((edits as u64).saturating_add(1 << 32))
}

/// The names of a table's types, each with a line feed.
pub fn list(alloc: Global, types: &Types) -> Result<Vec<u8>, AllocError> {
    let mut text = Vec::new(alloc);
    for entry in &types.names {
        text.extend_from_slice(entry.name.as_bytes())?;
        text.push(b'\n')?;
    }
    Ok(text)
}
