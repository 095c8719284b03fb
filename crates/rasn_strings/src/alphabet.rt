//! The permitted alphabet of a character string, and the numbers that its characters are written as (X.691 30.4, 30.5).

ghost use Rattle.std.specs.Prelude.{◌≡◌, ℕ, List, ◌^◌, ◌<◌, ◌≤◌, true, Some, length, slice_get, IsSome, IfSome, IsTrue};
ghost use Rattle.std.specs.Prelude.{◌↔◌};
ghost use Rattle.rasn_types.specs.Alphabets.{Alphabet, char_width, char_code, has, index_of, restricted_to};
ghost use Rattle.rasn_strings.specs.Prepared.{AreOwn, listed};
ghost use Rattle.rasn_types.specs.Variants.{variant_when};

use crate::intervals::{self, Interval, NO_RUN};
use crate::permitted;
use crate::strings::StaticPermittedAlphabet;
use rasn_types::width::width_of;
use std::marker::Model;

/// The characters of a type that may be in a string, and the variant in which they are written.
#[derive(Drop)]
pub struct CharacterAlphabet<'list> {
    own: &'static [Interval],
    permitted: Option<&'list [u32]>,
    aligned: bool,
    width: u32,
    own_values: bool,
    /// Characters that are all permitted, so that most are found by two comparisons.
    run: Interval,
    /// Whether the list is in strictly ascending order and has only characters of the type, so that it is searched.
    ascending: bool,
}

impl<'list> Model for CharacterAlphabet<'list> {
    ghost use Rattle.rasn_types.specs.Alphabets.{Alphabet};
    ghost use Rattle.rasn_strings.specs.Prepared.{IsPrepared, alphabet_of, listed};

    ghost Value = { Alphabet };

    ghost view = { λ a. alphabet_of a.own.now (listed a.permitted) a.aligned };

    ghost invariant = { λ a. IsPrepared a.own.now (listed a.permitted)
        (alphabet_of a.own.now (listed a.permitted) a.aligned) a.width a.own_values a.run a.ascending };
}

impl<'list> CharacterAlphabet<'list> {
    /// The alphabet of a type, restricted to the characters that are permitted, where these are given (X.691 30.4).
    /// They may be in any order, and more than once; those that the type doesn't have are dropped. `aligned` says
    /// whether the variant is ALIGNED. It takes no memory.
    pub fn new<S: StaticPermittedAlphabet>(permitted: Option<&'list [u32]>, aligned: bool) -> Self
        ensures variant { result.variant ≡ variant_when aligned }
        ensures characters { result.characters ≡ restricted_to S.alphabet (listed permitted.entry) }
        ensures own { (character : ℕ) → has result.characters character ≡ true → has S.alphabet character ≡ true }
    {
        let own = S::intervals();
        let (count, greatest) = match permitted {
            Some(permitted) => permitted::count_and_greatest(own, permitted),
            None => (intervals::count(own), intervals::greatest(own)),
        };
        let run = match permitted {
            Some(_) => NO_RUN,
            None => intervals::last(own),
        };
        let ascending = match permitted {
            Some(permitted) => permitted::is_ascending(own, permitted),
            None => false,
        };
        let width = width_of_characters(count, aligned);
        CharacterAlphabet {
            own,
            permitted,
            aligned,
            width,
            own_values: greatest < 1 << width,
            run,
            ascending,
        }
    }

    /// The bits of a character (X.691 30.5.2, 30.5.3), at most 16. An alphabet of one character or none takes none.
    pub fn width(&self) -> u32
        ensures width { result ≡ char_width self.now.variant self.now.characters }
        ensures few { result ≤ 16 }
    {
        self.width
    }

    /// The number that a character is written as (X.691 30.5.4): its own value where the greatest character fits the
    /// bits of one, else its place in ascending order. `None` where it isn't permitted.
    #[inline]
    pub fn encode(&self, character: u32) -> Option<u32>
        ensures code { result ≡ char_code self.now.variant self.now.characters character }
        ensures permitted { IsSome result ↔ (has self.now.characters character ≡ true) }
        ensures fits { IfSome result (λ code. code < 2 ^ char_width self.now.variant self.now.characters) }
    {
        if !self.own_values {
            self.index_of(character)
        } else if self.contains(character) {
            Some(character)
        } else {
            None
        }
    }

    /// The character that is written as a number; `None` where there is none.
    #[inline]
    pub fn decode(&self, code: u32) -> Option<u32>
        ensures some { IfSome result (λ character.
            char_code self.now.variant self.now.characters character ≡ Some code) }
        ensures permitted { IfSome result (λ character. has self.now.characters character ≡ true) }
        ensures every { (character : ℕ) → char_code self.now.variant self.now.characters character ≡ Some code
            → result ≡ Some character }
    {
        if !self.own_values {
            self.character_at(code)
        } else if self.contains(code) {
            Some(code)
        } else {
            None
        }
    }

    /// Whether some octets are found, by two comparisons each, to be permitted characters that are each written as
    /// their own values. Where this is false they may still be.
    #[inline]
    pub fn are_own(&self, octets: &[u8]) -> bool
        ensures { IsTrue result → AreOwn self.now octets.now }
    {
        self.own_values && self.run.contains_all(octets)
    }

    /// Whether a character is permitted.
    #[inline]
    pub fn contains(&self, character: u32) -> bool
        ensures { result ≡ has self.now.characters character }
    {
        self.run.contains(character) || self.is_listed(character)
    }

    /// Whether a character is permitted, by a search in the list where it ascends, else by a walk through the intervals
    /// and the list.
    #[inline(never)]
    fn is_listed(&self, character: u32) -> bool
        ensures { result ≡ has self.now.characters character }
    {
        if self.ascending {
            return self.index_of(character).is_some();
        }
        intervals::contains(self.own, character)
            && match self.permitted {
                Some(permitted) => permitted.contains(&character),
                None => true,
            }
    }

    /// The place of a character in ascending order, the first at 0; `None` where it isn't permitted.
    fn index_of(&self, character: u32) -> Option<u32>
        ensures { result ≡ index_of character self.now.characters }
    {
        match self.permitted {
            Some(permitted) => {
                if self.ascending {
                    permitted::place_in(permitted, character)
                } else {
                    permitted::index_of(self.own, permitted, character)
                }
            }
            None => intervals::index_of(self.own, character),
        }
    }

    /// The character at a place in ascending order, the first at 0; `None` from their count on.
    fn character_at(&self, index: u32) -> Option<u32>
        ensures { result ≡ slice_get self.now.characters index }
    {
        match self.permitted {
            Some(permitted) => {
                if self.ascending {
                    permitted::get_in(permitted, index)
                } else {
                    permitted::get(self.own, permitted, index)
                }
            }
            None => intervals::get(self.own, index),
        }
    }
}

/// The bits of a character of an alphabet of so many (X.691 30.5.2, 30.5.3).
fn width_of_characters(count: u32, aligned: bool) -> u32
    requires { count ≤ 2 ^ 16 }
    ensures width { (alphabet : List ℕ) → length alphabet ≡ count
        → result ≡ char_width (variant_when aligned) alphabet }
    ensures few { result ≤ 16 }
{
    let width = width_of(u128::from(count));
    if !aligned {
        width
    } else if count <= 1 {
        0
    } else {
        1 << width_of(u128::from(width))
    }
}
