//! The character strings whose characters all take as many bits, the known-multiplier strings (X.691 30.1), and their
//! alphabets (X.680 41).

ghost use Rattle.std.specs.Prelude.{◌≡◌, ◌↔◌, ◌==◌, ℕ, List, [], ◌∷◌, ◌++◌, true, false, nat_lt, refl, Some, length};
ghost use Rattle.std.specs.Prelude.{map, slice_get, IfSome, IfNone, IfOk, Err, OnOk, OnErr, IsTrue};
ghost use Rattle.std.specs.Cmp.Lexicographic.{nat_list_cmp_total, pointwise, slice_cmp, texts_po, texts_ties};
ghost use Rattle.std.specs.Cmp.Rules.{comparing, hashing};
ghost use Rattle.std.specs.Hash as fed;
ghost use Rattle.std.specs.Ordering.{nat_cmp};
ghost use Rattle.std.specs.Str.{chars};
ghost use Rattle.std.proofs.Common.{rules};
ghost use Rattle.rasn_types.specs.Alphabets.{greatest, has, has_all, visible, ia5, printable, numeric, bmp};
ghost use Rattle.rasn_strings.specs.Intervals.{expand, ascend_from};
ghost use Rattle.rasn_strings.specs.Laws.{bmp_held, ia5_ascii};
ghost use Rattle.rasn_strings.specs.Foreign.{IsFirstForeign};
ghost use Rattle.rasn_strings.specs.declared.strings.StringError.TheVariants.{ForeignCharacter};

use crate::intervals::{self, Interval};
use crate::units::CharacterUnit;
use std::alloc::{AllocError, Global};
use std::cmp::Ordering;
use std::fmt;
use std::hash::{Hash, Hasher};
use std::marker::{Model, PhantomData};
use thiserror::Error;

/// A character string type with a fixed alphabet. A character is given by its value.
pub trait StaticPermittedAlphabet: Drop {
    // The type's characters in ascending order, each once (X.680 41).
    ghost alphabet: { List ℕ };

    // The characters of a string.
    ghost characters: { Self → List ℕ };

    /// The type's characters, as intervals in ascending order.
    fn intervals() -> &'static [Interval]
        ensures expands { expand result.now ≡ alphabet }
        ensures ascends { ascend_from 0 result.now ≡ true };

    /// A string of no characters, which takes no memory.
    fn new(alloc: Global) -> Self
        ensures { characters result ≡ [] };

    /// Appends a character of the type. The only error is want of memory, and then the string is as it was.
    fn push(&mut self, character: u32) -> Result<(), AllocError>
        requires { has alphabet character ≡ true }
        ensures ok { OnOk result (characters self.new ≡ characters self.old ++ character ∷ []) }
        ensures err { OnErr result (characters self.new ≡ characters self.old) };

    /// Appends octets, each of which is a character of the type. The only error is want of memory, and then the string
    /// is as it was.
    fn push_octets(&mut self, octets: &[u8]) -> Result<(), AllocError>
        requires { has_all alphabet octets.now ≡ true }
        ensures ok { OnOk result (characters self.new ≡ characters self.old ++ octets.now) }
        ensures err { OnErr result (characters self.new ≡ characters self.old) };

    /// The characters as one slice of octets; `None` of a type that holds them otherwise.
    fn octets(&self) -> Option<&[u8]>
        ensures { IfSome result (λ octets. octets.now ≡ characters self.now) };

    /// How many characters there are.
    fn len(&self) -> usize
        ensures { result ≡ length (characters self.now) };

    /// The character at an index, the first at 0; `None` from the string's length on.
    fn character(&self, index: usize) -> Option<u32>
        ensures value { result ≡ slice_get (characters self.now) index }
        ensures own { IfSome result (λ character. has alphabet character ≡ true) };

    /// Whether there is no character.
    final fn is_empty(&self) -> bool
        ensures { IsTrue result ↔ (characters self.now ≡ []) }
    {
        self.len() == 0
    }

    /// Whether the type has a character.
    final fn contains_character(character: u32) -> bool
        ensures { result ≡ has alphabet character }
    {
        intervals::contains(Self::intervals(), character)
    }
}

/// A VisibleString (X.680 41): the characters 32 to 126.
pub type VisibleString = CharactersOf<VisibleKind>;

/// An IA5String (X.680 41): the characters 0 to 127.
pub type Ia5String = CharactersOf<Ia5Kind>;

/// A PrintableString (X.680 41): space, `' ( ) + , - . / : = ?`, digits and letters.
pub type PrintableString = CharactersOf<PrintableKind>;

/// A NumericString (X.680 41): space and digits.
pub type NumericString = CharactersOf<NumericKind>;

/// A BMPString (X.680 41): the characters 0 to 65535, surrogates among them (this project's choice).
pub type BmpString = CharactersOf<BmpKind>;

/// Why a text is no string of a type.
#[derive(Clone, Copy, Debug, PartialEq, Error)]
pub enum StringError {
    /// A character that isn't one of the type, and its index among the text's, from 0.
    #[error("{character:?} at index {index} is not a character of the type")]
    ForeignCharacter {
        /// The character.
        character: char,
        /// Its index.
        index: usize,
    },
    /// Memory ran out.
    #[error("out of memory")]
    OutOfMemory,
}

impl From<AllocError> for StringError {
    ghost use Rattle.rasn_strings.specs.declared.strings.StringError.TheVariants.{OutOfMemory};

    ghost from_gives = { λ _ error. error ≡ OutOfMemory };

    fn from(_: AllocError) -> StringError {
        StringError::OutOfMemory
    }
}

/// A type of character strings.
pub trait CharacterKind {
    /// What holds one of its characters.
    type Unit: CharacterUnit;

    /// The name of the type, as `Debug` writes it.
    const NAME: &'static str;

    // The type's characters in ascending order, each once (X.680 41).
    ghost alphabet: { List ℕ };

    /// The type's characters, as intervals in ascending order.
    fn intervals() -> &'static [Interval]
        ensures expands { expand result.now ≡ alphabet }
        ensures ascends { ascend_from 0 result.now ≡ true };

    // Each character can be held.
    ghost are_held: { nat_lt (greatest alphabet) Self.Unit.limit ≡ true };
}

const VISIBLE: &[Interval] = &[Interval {
    first: 32,
    last: 126,
}];

/// The kind of VisibleString (X.680 41).
pub struct VisibleKind {}

impl CharacterKind for VisibleKind {
    type Unit = u8;

    const NAME: &'static str = "VisibleString";

    ghost alphabet = { visible };

    fn intervals() -> &'static [Interval] {
        VISIBLE
    }

    ghost are_held = { refl };
}

const IA5: &[Interval] = &[Interval {
    first: 0,
    last: 127,
}];

/// The kind of IA5String (X.680 41).
pub struct Ia5Kind {}

impl CharacterKind for Ia5Kind {
    type Unit = u8;

    const NAME: &'static str = "Ia5String";

    ghost alphabet = { ia5 };

    fn intervals() -> &'static [Interval] {
        IA5
    }

    ghost are_held = { ia5_ascii };
}

const PRINTABLE: &[Interval] = &[
    Interval {
        first: 32,
        last: 32,
    },
    Interval {
        first: 39,
        last: 41,
    },
    Interval {
        first: 43,
        last: 58,
    },
    Interval {
        first: 61,
        last: 61,
    },
    Interval {
        first: 63,
        last: 63,
    },
    Interval {
        first: 65,
        last: 90,
    },
    Interval {
        first: 97,
        last: 122,
    },
];

/// The kind of PrintableString (X.680 41).
pub struct PrintableKind {}

impl CharacterKind for PrintableKind {
    type Unit = u8;

    const NAME: &'static str = "PrintableString";

    ghost alphabet = { printable };

    fn intervals() -> &'static [Interval] {
        PRINTABLE
    }

    ghost are_held = { refl };
}

const NUMERIC: &[Interval] = &[
    Interval {
        first: 32,
        last: 32,
    },
    Interval {
        first: 48,
        last: 57,
    },
];

/// The kind of NumericString (X.680 41).
pub struct NumericKind {}

impl CharacterKind for NumericKind {
    type Unit = u8;

    const NAME: &'static str = "NumericString";

    ghost alphabet = { numeric };

    fn intervals() -> &'static [Interval] {
        NUMERIC
    }

    ghost are_held = { refl };
}

const BMP: &[Interval] = &[Interval {
    first: 0,
    last: 65535,
}];

/// The kind of BMPString (X.680 41).
pub struct BmpKind {}

impl CharacterKind for BmpKind {
    type Unit = u16;

    const NAME: &'static str = "BmpString";

    ghost alphabet = { bmp };

    fn intervals() -> &'static [Interval] {
        BMP
    }

    ghost are_held = { bmp_held };
}

/// A kind whose characters are those of ISO 646, by which name they are given and taken.
pub trait Iso646Kind: CharacterKind<Unit = u8> {}

impl Iso646Kind for VisibleKind {}

impl Iso646Kind for Ia5Kind {}

/// A string of characters of a kind.
#[derive(Drop)]
pub struct CharactersOf<K: CharacterKind> {
    characters: Vec<K::Unit>,
    kind: PhantomData<K>,
}

impl<K: CharacterKind> Model for CharactersOf<K> {
    ghost use Rattle.std.specs.Prelude.{◌≡◌, ℕ, List, map, true};
    ghost use Rattle.rasn_types.specs.Alphabets.{has_all};

    ghost Value = { List ℕ };

    ghost view = { λ a. map K.Unit.value a.characters.items };

    ghost invariant = { λ a. has_all K.alphabet (map K.Unit.value a.characters.items) ≡ true };
}

impl<K: CharacterKind> CharactersOf<K> {
    /// The string of a text's characters.
    pub fn from_str(alloc: Global, text: &str) -> Result<Self, StringError>
        ensures ok { IfOk result (λ string. string ≡ chars text.now) }
        ensures foreign { (character index : ℕ) → result ≡ Err (ForeignCharacter character index)
            → IsFirstForeign K.alphabet (chars text.now) character index }
    {
        let intervals = K::intervals();
        let mut string = <Self as StaticPermittedAlphabet>::new(alloc);
        for character in text.chars() {
            let value = u32::from(character);
            if !intervals::contains(intervals, value) {
                let index = string.len();
                return Err(StringError::ForeignCharacter { character, index });
            }
            string.push(value)?;
        }
        Ok(string)
    }
}

impl<K: CharacterKind<Unit = u8>> CharactersOf<K> {
    /// The string of these characters; `None` where one of them isn't a character of the type.
    pub fn from_bytes(characters: Vec<u8>) -> Option<Self>
        ensures some { IfSome result (λ string. string ≡ characters.items) }
        ensures none { IfNone result (has_all K.alphabet characters.items ≡ false) }
    {
        if are_characters(K::intervals(), &characters) {
            Some(CharactersOf {
                characters,
                kind: PhantomData::<K>,
            })
        } else {
            None
        }
    }

    /// The characters.
    pub fn as_bytes(&self) -> &[u8]
        ensures characters { result.now ≡ self.now }
        ensures own { has_all K.alphabet self.now ≡ true }
    {
        self.characters.as_slice()
    }

    /// The characters as text.
    pub fn as_str(&self) -> &str
        ensures { result.now ≡ self.now }
    {
        str::from_utf8(self.characters.as_slice()).unwrap()
    }
}

impl CharactersOf<BmpKind> {
    /// The string of these characters.
    pub fn from_units(units: Vec<u16>) -> Self
        ensures { result ≡ units.items }
    {
        all_are_own(&units);
        CharactersOf {
            characters: units,
            kind: PhantomData::<BmpKind>,
        }
    }

    /// The characters.
    pub fn as_units(&self) -> &[u16]
        ensures characters { result.now ≡ self.now }
        ensures own { has_all bmp self.now ≡ true }
    {
        self.characters.as_slice()
    }
}

impl<K: Iso646Kind> CharactersOf<K> {
    /// The string of these characters; `None` where one of them isn't a character of the type.
    pub fn from_iso646_bytes(characters: Vec<u8>) -> Option<Self>
        ensures some { IfSome result (λ string. string ≡ characters.items) }
        ensures none { IfNone result (has_all K.alphabet characters.items ≡ false) }
    {
        CharactersOf::from_bytes(characters)
    }

    /// The characters.
    pub fn as_iso646_bytes(&self) -> &[u8]
        ensures characters { result.now ≡ self.now }
        ensures own { has_all K.alphabet self.now ≡ true }
    {
        self.as_bytes()
    }
}

impl<K: CharacterKind> StaticPermittedAlphabet for CharactersOf<K> {
    ghost alphabet = { K.alphabet };

    ghost characters = { λ s. s };

    fn intervals() -> &'static [Interval] {
        K::intervals()
    }

    fn new(alloc: Global) -> Self {
        CharactersOf {
            characters: Vec::new(alloc),
            kind: PhantomData::<K>,
        }
    }

    fn push(&mut self, character: u32) -> Result<(), AllocError> {
        self.characters.push(K::Unit::holding(character))?;
        Ok(())
    }

    fn push_octets(&mut self, octets: &[u8]) -> Result<(), AllocError> {
        K::Unit::append(&mut self.characters, octets)?;
        Ok(())
    }

    fn octets(&self) -> Option<&[u8]> {
        K::Unit::as_octets(&self.characters)
    }

    fn len(&self) -> usize {
        self.characters.len()
    }

    fn character(&self, index: usize) -> Option<u32> {
        character_at(&self.characters, index)
    }
}

/// The characters as text.
impl<K: CharacterKind<Unit = u8>> fmt::Display for CharactersOf<K> {
    ghost output = { λ string. Some string };

    fn fmt<W: fmt::Write>(&self, f: &mut fmt::Formatter<W>) -> fmt::Result {
        f.write_str(self.as_str())
    }
}

impl<K: CharacterKind> fmt::Debug for CharactersOf<K> {
    fn fmt<W: fmt::Write>(&self, f: &mut fmt::Formatter<W>) -> fmt::Result {
        f.debug_struct(K::NAME)
            .field("characters", &self.characters)
            .finish()
    }
}

impl<K: CharacterKind> PartialEq for CharactersOf<K> {
    ghost eq = { pointwise ◌==◌ };

    ghost laws = { Prim.search (comparing, rules) };

    fn eq(&self, other: &Self) -> bool {
        self.characters == other.characters
    }
}

impl<K: CharacterKind> Eq for CharactersOf<K> {
    ghost laws = { Prim.search (comparing, rules) };
}

/// The characters, one by one: what begins another is before it.
impl<K: CharacterKind> PartialOrd for CharactersOf<K> {
    ghost partial_cmp = { λ a b. Some (slice_cmp nat_cmp a b) };

    ghost laws = { texts_po };

    fn partial_cmp(&self, other: &Self) -> Option<Ordering> {
        Some(self.cmp(other))
    }
}

impl<K: CharacterKind> Ord for CharactersOf<K> {
    ghost cmp = { slice_cmp nat_cmp };

    ghost total = { nat_list_cmp_total };

    ghost matches_partial_cmp = { λ _ _. refl };

    ghost matches_eq = { texts_ties };

    fn cmp(&self, other: &Self) -> Ordering {
        self.characters.as_slice().cmp(other.characters.as_slice())
    }
}

/// The hash of the characters.
impl<K: CharacterKind> Hash for CharactersOf<K> {
    ghost hash_input = { fed.slice K.Unit.fed };

    ghost respects_eq = { Prim.search (hashing, rules) };

    fn hash<H: Hasher>(&self, state: &mut H) {
        self.characters.as_slice().hash(state);
    }
}

/// The same characters, in memory of their own.
impl<K: CharacterKind> Clone for CharactersOf<K> {
    ghost is_clone = { λ held copy. copy ≡ held };

    fn clone(&self) -> Result<Self, AllocError> {
        Ok(CharactersOf {
            characters: Vec::from_slice(*self.characters.allocator(), &self.characters)?,
            kind: PhantomData::<K>,
        })
    }
}

/// Whether all octets are within intervals.
fn are_characters(intervals: &[Interval], octets: &[u8]) -> bool
    ensures { result ≡ has_all (expand intervals.now) octets.now }
{
    for octet in octets {
        if !intervals::contains(intervals, u32::from(*octet)) {
            return false;
        }
    }
    true
}

/// The character that is held at an index; `None` from the count on.
fn character_at<U: CharacterUnit>(units: &[U], index: usize) -> Option<u32>
    ensures { result ≡ slice_get (map U.value units.now) index }
{
    Some(units.get(index)?.held())
}

/// States that any 16 bits are a character of BMPString.
fn all_are_own(units: &[u16])
    ensures { has_all bmp units.now ≡ true }
{}
