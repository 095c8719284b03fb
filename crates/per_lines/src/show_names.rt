//! The type whose word is nearest to a word.

ghost use Rattle.std.specs.Prelude.{◌≡◌, ◌<◌, IfOk, length, map};
ghost use Rattle.per_lines.specs.Types.{types, word_of};
ghost use Rattle.per_lines.specs.Nearest.{edits, IsNearest, IsNearestName};

use crate::types::NamedType;
use std::alloc::{AllocError, Global};
use strsim::levenshtein;

/// The word of a type that is the fewest edits from another word, in any case: the first such.
/// The only error is want of memory.
pub fn nearest(alloc: Global, word: &str) -> Result<&'static str, AllocError>
    ensures { IfOk result (λ name. IsNearestName (map word_of types) word.now name.now) }
{
    let types = NamedType::all();
    let place = place_of_nearest(alloc, types, word)?;
    Ok(types[place].word())
}

/// Which type has a word that is the fewest edits from another, in any case: the first such.
/// The only error is want of memory.
fn place_of_nearest(alloc: Global, types: &[NamedType], word: &str) -> Result<usize, AllocError>
    requires { 0 < length types.now }
    ensures { IfOk result (λ best. IsNearest (map word_of types.now) word.now best) }
{
    let mut best = 0;
    let mut fewest = edits_between(alloc, types[0].word(), word)?;
    for place in 1..types.len() {
        let edits = edits_between(alloc, types[place].word(), word)?;
        if edits < fewest {
            best = place;
            fewest = edits;
        }
    }
    Ok(best)
}

/// How many edits make one text of another, in any case. The only error is want of memory.
fn edits_between(alloc: Global, one: &str, other: &str) -> Result<usize, AllocError>
    ensures { IfOk result (λ count. count ≡ edits one.now other.now) }
{
    let one = one.to_ascii_lowercase(alloc)?;
    let other = other.to_ascii_lowercase(alloc)?;
    levenshtein(alloc, one.as_str(), other.as_str())
}
