//! An alphabet and the characters of the codes that were read with it.

ghost use Rattle.std.specs.Prelude.{◌≡◌, ◌<◌, ◌≤◌, ℕ, true, Some, IfSome, IfNone, IsTrue};
ghost use Rattle.rasn_types.specs.Alphabets.{Alphabet, char_code, char_width, has};
ghost use Rattle.rasn_strings.specs.Prepared.{AreOwn};

use rasn_strings::alphabet::CharacterAlphabet;
use std::marker::Model;

/// An alphabet that remembers the characters of small codes, so that one that comes again is found at once.
#[derive(Drop)]
pub(crate) struct ReadAlphabet<'list> {
    alphabet: CharacterAlphabet<'list>,
    /// The characters of the codes from 0 on; 0 where one is not known.
    known: [u8; 128],
}

impl<'list> Model for ReadAlphabet<'list> {
    ghost use Rattle.rasn_types.specs.Alphabets.{Alphabet};
    ghost use Rattle.per_read.specs.Strings.{AreKnown};

    ghost Value = { Alphabet };

    ghost view = { λ a. a.alphabet };

    ghost invariant = { λ a. AreKnown a.alphabet a.known };
}

impl<'list> ReadAlphabet<'list> {
    /// The alphabet, with no code read. It takes no memory.
    pub(crate) fn from_alphabet(alphabet: CharacterAlphabet<'list>) -> Self
        ensures { result ≡ alphabet.entry }
    {
        ReadAlphabet {
            alphabet,
            known: [0; 128],
        }
    }

    /// The bits of a character, at most 16.
    pub(crate) fn width(&self) -> u32
        ensures width { result ≡ char_width self.now.variant self.now.characters }
        ensures few { result ≤ 16 }
    {
        self.alphabet.width()
    }

    /// Whether some octets are found to be permitted characters that are each written as their own values. Where this
    /// is false they may still be.
    pub(crate) fn are_own(&self, octets: &[u8]) -> bool
        ensures { IsTrue result → AreOwn self.now octets.now }
    {
        self.alphabet.are_own(octets)
    }

    /// The character that is written as a number, where it is known; else 0.
    pub(crate) fn known(&self, code: u32) -> u32
        ensures code { 0 < result → char_code self.now.variant self.now.characters result ≡ Some code }
        ensures permitted { 0 < result → has self.now.characters result ≡ true }
    {
        let index = code as usize;
        if index < self.known.len() {
            u32::from(self.known[index])
        } else {
            0
        }
    }

    /// The character that is written as a number; `None` where there is none. It is known then.
    #[inline(never)]
    pub(crate) fn decode(&mut self, code: u32) -> Option<u32>
        ensures some { IfSome result (λ character.
            char_code self.old.variant self.old.characters character ≡ Some code) }
        ensures permitted { IfSome result (λ character. has self.old.characters character ≡ true) }
        ensures none { IfNone result ((character : ℕ)
            → char_code self.old.variant self.old.characters character ≡ Some code → ⊥) }
        ensures kept { self.new ≡ self.old }
    {
        let character = self.alphabet.decode(code)?;
        let index = code as usize;
        if index < self.known.len() && character < 256 {
            self.known[index] = character as u8;
        }
        Some(character)
    }
}
