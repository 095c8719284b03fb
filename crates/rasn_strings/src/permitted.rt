//! The characters of a type that a list permits, in ascending order, whatever the order of the list. No call takes
//! memory; the work grows with the list and not with the type's alphabet.

ghost use Rattle.std.specs.Prelude.{◌&&◌, ◌≡◌, ◌<◌, ◌≤◌, ◌^◌, min, max, true, length, slice_get, IfSome, MatchOption};
ghost use Rattle.rasn_types.specs.Alphabets.{greatest, has_all, index_of, restricted};
ghost use Rattle.rasn_strings.specs.Intervals.{expand, ascend_from};
ghost use Rattle.rasn_strings.specs.Walks.{from_on, rises_from};

use crate::intervals::{self, Interval};

/// The lesser of two characters, where there is a first.
fn lesser(least: Option<u32>, character: u32) -> u32
    ensures { MatchOption least (result ≡ character) (λ least. result ≡ min least character) }
{
    match least {
        Some(least) => least.min(character),
        None => character,
    }
}

/// The least permitted character from `at` on, where there is one.
fn next_from(own: &[Interval], permitted: &[u32], at: u32) -> Option<u32>
    requires { ascend_from 0 own.now ≡ true }
    ensures value { result ≡ slice_get (from_on at (restricted (expand own.now) permitted.now)) 0 }
    ensures small { IfSome result (λ character. character < 2 ^ 16) }
{
    let mut next = None;
    for character in permitted {
        let character = *character;
        if at <= character && intervals::contains(own, character) {
            next = Some(lesser(next, character));
        }
    }
    next
}

/// Whether a list is in strictly ascending order and has only characters of the type, so that it is itself what is
/// permitted.
pub(crate) fn is_ascending(own: &[Interval], permitted: &[u32]) -> bool
    requires { ascend_from 0 own.now ≡ true }
    ensures { result ≡ (rises_from 0 permitted.now && has_all (expand own.now) permitted.now) }
{
    let mut at = 0;
    for character in permitted {
        let character = *character;
        if character < at || !intervals::contains(own, character) {
            return false;
        }
        at = character + 1;
    }
    true
}

/// How many characters a list in strictly ascending order has, and the greatest of them; 0 where there is none.
fn count_and_last(ascending: &[u32]) -> (u32, u32)
    requires rises { rises_from 0 ascending.now ≡ true }
    requires few { length ascending.now ≤ 2 ^ 16 }
    ensures count { result.0 ≡ length ascending.now }
    ensures greatest { result.1 ≡ greatest ascending.now }
{
    match ascending.last() {
        Some(last) => (ascending.len() as u32, *last),
        None => (0, 0),
    }
}

/// How many characters are permitted, and the greatest of them; 0 where there is none.
pub(crate) fn count_and_greatest(own: &[Interval], permitted: &[u32]) -> (u32, u32)
    requires { ascend_from 0 own.now ≡ true }
    ensures count { result.0 ≡ length (restricted (expand own.now) permitted.now) }
    ensures few { result.0 ≤ 2 ^ 16 }
    ensures greatest { result.1 ≡ greatest (restricted (expand own.now) permitted.now) }
{
    if is_ascending(own, permitted) {
        return count_and_last(permitted);
    }
    let mut count = 0;
    let mut greatest = 0;
    let mut at = 0;
    while let Some(character) = next_from(own, permitted, at) {
        count += 1;
        greatest = character;
        at = character + 1;
    }
    (count, greatest)
}

/// The place of a character among those permitted, the first at 0; `None` where it isn't permitted.
pub(crate) fn index_of(own: &[Interval], permitted: &[u32], character: u32) -> Option<u32>
    requires { ascend_from 0 own.now ≡ true }
    ensures { result ≡ index_of character (restricted (expand own.now) permitted.now) }
{
    let mut index = 0;
    let mut at = 0;
    while let Some(next) = next_from(own, permitted, at) {
        if next == character {
            return Some(index);
        }
        index += 1;
        at = next + 1;
    }
    None
}

/// The permitted character at an index, the first at 0; `None` from their count on.
pub(crate) fn get(own: &[Interval], permitted: &[u32], index: u32) -> Option<u32>
    requires { ascend_from 0 own.now ≡ true }
    ensures { result ≡ slice_get (restricted (expand own.now) permitted.now) index }
{
    let mut at = 0;
    for _ in 0..index {
        at = next_from(own, permitted, at)? + 1;
    }
    next_from(own, permitted, at)
}

/// The place of a character in a list in strictly ascending order, the first at 0; `None` where it isn't in the list.
pub(crate) fn place_in(ascending: &[u32], character: u32) -> Option<u32>
    requires rises { rises_from 0 ascending.now ≡ true }
    requires few { length ascending.now ≤ 2 ^ 16 }
    ensures { result ≡ index_of character ascending.now }
{
    match ascending.binary_search(&character) {
        Ok(place) => Some(place as u32),
        Err(_) => None,
    }
}

/// The character at an index of a list, the first at 0; `None` from its length on.
pub(crate) fn get_in(ascending: &[u32], index: u32) -> Option<u32>
    ensures { result ≡ slice_get ascending.now index }
{
    match ascending.get(index as usize) {
        Some(character) => Some(*character),
        None => None,
    }
}
