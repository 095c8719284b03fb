//! Strings of characters of a kind, which hold these as a BMPString does.

ghost use Rattle.std.specs.Prelude.{◌≡◌, ℕ, true};
ghost use Rattle.rasn_types.specs.Alphabets.{bmp, has, has_all};

use rasn_strings::intervals::Interval;
use rasn_strings::strings::{BmpString, CharacterKind, CharactersOf, StaticPermittedAlphabet};
use std::alloc::{AllocError, Global};
use std::marker::{Model, PhantomData};

/// A string of characters of a kind.
#[derive(Drop)]
pub(crate) struct StringOf<K: CharacterKind> {
    string: BmpString,
    kind: PhantomData<K>,
}

impl<K: CharacterKind> Model for StringOf<K> {
    ghost use Rattle.std.specs.Prelude.{◌≡◌, ℕ, List, true};
    ghost use Rattle.rasn_types.specs.Alphabets.{has_all};

    ghost Value = { List ℕ };

    ghost view = { λ a. a.string };

    ghost invariant = { λ a. has_all K.alphabet a.string ≡ true };
}

impl<K: CharacterKind> StringOf<K> {
    /// The string of characters that are of the kind.
    pub(crate) fn new(string: BmpString) -> Self
        requires { has_all K.alphabet string ≡ true }
        ensures { result ≡ string }
    {
        StringOf {
            string,
            kind: PhantomData::<K>,
        }
    }

    /// The characters.
    pub(crate) fn into_characters(self) -> BmpString
        ensures { result ≡ self }
    {
        self.string
    }
}

impl<K: CharacterKind> StaticPermittedAlphabet for StringOf<K> {
    ghost alphabet = { K.alphabet };

    ghost characters = { λ s. s };

    fn intervals() -> &'static [Interval] {
        K::intervals()
    }

    fn new(alloc: Global) -> Self {
        StringOf {
            string: <BmpString as StaticPermittedAlphabet>::new(alloc),
            kind: PhantomData::<K>,
        }
    }

    fn push(&mut self, character: u32) -> Result<(), AllocError> {
        are_wide::<K>();
        self.string.push(character)?;
        Ok(())
    }

    fn push_octets(&mut self, octets: &[u8]) -> Result<(), AllocError> {
        are_wide::<K>();
        self.string.push_octets(octets)?;
        Ok(())
    }

    fn octets(&self) -> Option<&[u8]> {
        // each character takes two
        None
    }

    fn len(&self) -> usize {
        self.string.len()
    }

    fn character(&self, index: usize) -> Option<u32> {
        self.string.character(index)
    }
}

/// Whether all characters are of a kind.
pub(crate) fn has_characters<K: CharacterKind>(string: &BmpString) -> bool
    ensures { result ≡ has_all K.alphabet string.now }
{
    for unit in string.as_units() {
        let character = u32::from(*unit);
        if !<CharactersOf<K> as StaticPermittedAlphabet>::contains_character(character) {
            return false;
        }
    }
    true
}

/// States that the characters of a kind are characters of BMPString.
fn are_wide<K: CharacterKind>()
    ensures { (character : ℕ) → has K.alphabet character ≡ true → has bmp character ≡ true }
{
    let _ = K::intervals();
}
