//! The words of a line.

use crate::error::Reason;
use hex::FromHexError;
use rasn_constraints::constraints::{Bounded, Extensible};
use rasn_dynamic::types::{NumberBounds, SizeBounds};
use rasn_schema::items::Place;
use rasn_types::types::{BitString, Class, Tag};
use std::alloc::Global;

/// How many characters an alphabet has at most.
const MOST_CHARACTERS: usize = 256;

/// The words of a line that are still to be read.
#[derive(Drop)]
pub struct Words<'text> {
    /// What is after the words that were read, and after a blank.
    rest: Option<&'text str>,
}

impl<'text> Words<'text> {
    /// All words of a line.
    pub fn new(line: &'text str) -> Self {
        Words { rest: Some(line) }
    }

    /// Whether no word is left.
    pub fn is_at_end(&self) -> bool {
        self.rest.is_none()
    }

    /// Refuses a line in which words are left.
    pub fn end(&self) -> Result<(), Reason> {
        if self.is_at_end() {
            Ok(())
        } else {
            Err(Reason::WordTooMany)
        }
    }

    /// The next word.
    pub fn word(&mut self) -> Result<&'text str, Reason> {
        let Some(rest) = self.rest else {
            return Err(Reason::WordLacks);
        };
        let (word, behind) = match rest.split_once(' ') {
            Some((word, behind)) => (word, Some(behind)),
            None => (rest, None),
        };
        self.rest = behind;
        if word.is_empty() {
            return Err(Reason::WordLacks);
        }
        Ok(word)
    }

    /// Reads one word, which has to be this.
    pub fn expect(&mut self, expected: &str) -> Result<(), Reason> {
        if self.word()? == expected {
            Ok(())
        } else {
            Err(Reason::UnknownWord)
        }
    }

    /// A number.
    pub fn number(&mut self) -> Result<i128, Reason> {
        number_of(self.word()?)
    }

    /// A number from 0: a count, a place or a code point.
    pub fn count(&mut self) -> Result<usize, Reason> {
        count_of(self.word()?)
    }

    /// A count; `None` where `-` stands.
    pub fn count_or_none(&mut self) -> Result<Option<usize>, Reason> {
        match self.word()? {
            "-" => Ok(None),
            word => Ok(Some(count_of(word)?)),
        }
    }

    /// A number; `None` where `-` stands.
    fn number_or_none(&mut self) -> Result<Option<i128>, Reason> {
        match self.word()? {
            "-" => Ok(None),
            word => Ok(Some(number_of(word)?)),
        }
    }

    /// Whether an extension marker stands.
    fn mark(&mut self) -> Result<bool, Reason> {
        match self.word()? {
            "..." => Ok(true),
            "-" => Ok(false),
            _ => Err(Reason::UnknownWord),
        }
    }

    /// The bounds of an INTEGER.
    pub fn bounds(&mut self) -> Result<NumberBounds, Reason> {
        let start = self.number_or_none()?;
        let end = self.number_or_none()?;
        if start.is_some_and(|start| end.is_some_and(|end| end < start)) {
            return Err(Reason::CrossedBounds);
        }
        let extensible = self.mark()?;
        let constraint = match (start, end) {
            (None, None) => Bounded::None,
            _ => Bounded::Range { start, end },
        };
        Ok(Extensible {
            constraint,
            extensible,
        })
    }

    /// The bounds of a size.
    pub fn size(&mut self) -> Result<SizeBounds, Reason> {
        let start = self.count()?;
        let end = self.count_or_none()?;
        if end.is_some_and(|end| end < start) {
            return Err(Reason::CrossedBounds);
        }
        let extensible = self.mark()?;
        let constraint = if start == 0 && end.is_none() {
            Bounded::None
        } else {
            let start = Some(start);
            Bounded::Range { start, end }
        };
        Ok(Extensible {
            constraint,
            extensible,
        })
    }

    /// The characters of a permitted alphabet, ascending; `None` where there is none.
    pub fn alphabet(&mut self, alloc: Global) -> Result<Option<Vec<u32>>, Reason> {
        let Some(ranges) = self.count_or_none()? else {
            return Ok(None);
        };
        let mut characters = Vec::new(alloc);
        for _ in 0..ranges {
            self.range(&mut characters)?;
        }
        if characters.is_empty() {
            return Err(Reason::UnorderedAlphabet);
        }
        Ok(Some(characters))
    }

    /// Puts the characters of a range after those of the ranges before it.
    fn range(&mut self, characters: &mut Vec<u32>) -> Result<(), Reason> {
        let low = self.code()?;
        let high = self.code()?;
        let is_above = match characters.last() {
            Some(last) => low.checked_sub(*last).is_some_and(|gap| gap > 1),
            None => true,
        };
        if !is_above || high < low {
            return Err(Reason::UnorderedAlphabet);
        }
        for character in low..=high {
            if characters.len() >= MOST_CHARACTERS {
                return Err(Reason::LargeAlphabet);
            }
            characters.push(character)?;
        }
        Ok(())
    }

    /// A code point.
    fn code(&mut self) -> Result<u32, Reason> {
        match u32::try_from(self.count()?) {
            Ok(code) => Ok(code),
            Err(_) => Err(Reason::NumberTooLarge),
        }
    }

    /// A name.
    pub fn name(&mut self) -> Result<&'text str, Reason> {
        name_of(self.word()?)
    }

    /// A tag; that of no type where `-` stands.
    pub fn tag(&mut self) -> Result<Tag, Reason> {
        match self.word()? {
            "-" => Ok(Tag::EOC),
            word => tag_of(word),
        }
    }

    /// Octets as hexadecimal digits, in lower case; none where `-` stands.
    pub fn octets(&mut self, alloc: Global) -> Result<Vec<u8>, Reason> {
        let word = self.word()?;
        if word == "-" {
            return Ok(Vec::new(alloc));
        }
        if word.bytes().any(|octet| octet.is_ascii_uppercase()) {
            return Err(Reason::NotHexadecimal);
        }
        match hex::decode(alloc, word) {
            Ok(octets) => Ok(octets),
            Err(FromHexError::OutOfMemory) => Err(Reason::OutOfMemory),
            Err(_) => Err(Reason::NotHexadecimal),
        }
    }

    /// Bits as digits; none where `-` stands.
    pub fn bits(&mut self, alloc: Global) -> Result<BitString, Reason> {
        let word = self.word()?;
        let mut bits = Vec::new(alloc);
        if word != "-" {
            for digit in word.bytes() {
                match digit {
                    b'0' => bits.push(false)?,
                    b'1' => bits.push(true)?,
                    _ => return Err(Reason::NotBits),
                }
            }
        }
        Ok(BitString::from_slice(alloc, &bits)?)
    }

    /// The place of an item or an alternative.
    pub fn place(&mut self) -> Result<Place, Reason> {
        match self.word()? {
            "root" => Ok(Place::Root(self.count()?)),
            "added" => Ok(Place::Added(self.count()?)),
            _ => Err(Reason::UnknownWord),
        }
    }
}

/// The word, which has to be a name.
pub fn name_of(word: &str) -> Result<&str, Reason> {
    let begins = word
        .bytes()
        .next()
        .is_some_and(|octet| octet.is_ascii_alphabetic());
    if begins
        && word
            .bytes()
            .all(|octet| octet.is_ascii_alphanumeric() || octet == b'-')
    {
        Ok(word)
    } else {
        Err(Reason::NotName)
    }
}

/// The tag that a word is.
fn tag_of(word: &str) -> Result<Tag, Reason> {
    let mut characters = word.chars();
    let class = match characters.next() {
        Some('u') => Class::Universal,
        Some('a') => Class::Application,
        Some('c') => Class::Context,
        Some('p') => Class::Private,
        _ => return Err(Reason::NotTag),
    };
    let digits = characters.as_str();
    if !is_number(digits) {
        return Err(Reason::NotTag);
    }
    let Ok(value) = digits.parse::<u32>() else {
        return Err(Reason::NumberTooLarge);
    };
    let tag = Tag { class, value };
    if tag == Tag::EOC {
        return Err(Reason::NotTag);
    }
    Ok(tag)
}

/// The number that a word is.
fn number_of(word: &str) -> Result<i128, Reason> {
    let is_negative = word.starts_with('-');
    let digits = word.strip_prefix('-').unwrap_or(word);
    if !is_number(digits) || is_negative && digits == "0" {
        return Err(Reason::NotNumber);
    }
    match word.parse::<i128>() {
        Ok(number) => Ok(number),
        Err(_) => Err(Reason::NumberTooLarge),
    }
}

/// The number from 0 that a word is.
fn count_of(word: &str) -> Result<usize, Reason> {
    if !is_number(word) {
        return Err(Reason::NotNumber);
    }
    match word.parse::<usize>() {
        Ok(count) => Ok(count),
        Err(_) => Err(Reason::NumberTooLarge),
    }
}

/// Whether a word is digits with no zero in front, or one zero.
fn is_number(word: &str) -> bool {
    let is_zero = word == "0";
    let begins = word.bytes().next().is_some_and(|octet| octet != b'0');
    is_zero || begins && word.bytes().all(|octet| octet.is_ascii_digit())
}
