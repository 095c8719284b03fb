//! Hexadecimal as people have it.

ghost use Rattle.std.specs.Prelude.{◌≡◌, ◌⊎◌, IfErr, IfOk, None, Some};
ghost use Rattle.std.specs.List.{list_any};
ghost use Rattle.hex.specs.declared.error.FromHexError.TheVariants.{OutOfMemory};
ghost use Rattle.message_lines.specs.Digits.{is_between, octets_in, octets_of, without_prefix};

use hex::FromHexError;
use std::alloc::Global;

/// The octets of hexadecimal digits in either case. Blanks, tabs, commas and colons may be between octets, and `0x` at
/// the front of some.
pub fn octets_in(alloc: Global, text: &[u8]) -> Result<Vec<u8>, FromHexError>
    ensures ok { IfOk result (λ octets. octets_in text.now ≡ Some octets.items) }
    ensures err { IfErr result (λ e. (e ≡ OutOfMemory) ⊎ (octets_in text.now ≡ None)) }
{
    if has_between(text) {
        octets_of_words(alloc, text)
    } else {
        octets_of(alloc, text)
    }
}

/// Whether a text has a character that may be between octets.
fn has_between(text: &[u8]) -> bool
    ensures { result ≡ list_any is_between text.now }
{
    text.iter().any(|octet| is_between(*octet))
}

/// The octets of the words of a text.
fn octets_of_words(alloc: Global, text: &[u8]) -> Result<Vec<u8>, FromHexError>
    ensures ok { IfOk result (λ octets. octets_in text.now ≡ Some octets.items) }
    ensures err { IfErr result (λ e. (e ≡ OutOfMemory) ⊎ (octets_in text.now ≡ None)) }
{
    let mut octets = Vec::new(alloc);
    for word in text.split(|octet| is_between(*octet)) {
        let more = octets_of(alloc, word)?;
        octets.extend_from_slice(more.as_slice())?;
    }
    Ok(octets)
}

/// The octets of a word of hexadecimal digits, with `0x` at its front or without.
fn octets_of(alloc: Global, word: &[u8]) -> Result<Vec<u8>, FromHexError>
    ensures ok { IfOk result (λ octets. octets_of word.now ≡ Some octets.items) }
    ensures err { IfErr result (λ e. (e ≡ OutOfMemory) ⊎ (octets_of word.now ≡ None)) }
{
    hex::decode(alloc, without_prefix(word))
}

/// Whether an octet is a character that may be between octets.
fn is_between(octet: u8) -> bool
    ensures { result ≡ is_between octet }
{
    matches!(octet, b' ' | b'\t' | b',' | b':')
}

/// A word without `0x` at its front.
fn without_prefix(word: &[u8]) -> &[u8]
    ensures { result.now ≡ without_prefix word.now }
{
    match word {
        [b'0', b'x' | b'X', digits @ ..] => digits,
        _ => word,
    }
}

/// Which column of a text, from 1 on, the first character is at that is no hexadecimal there; of a text in which each
/// is, the column after its end.
pub fn column_of_fault(text: &[u8]) -> usize {
    let mut column: usize = 1;
    for word in text.split(|octet| is_between(*octet)) {
        let digits = without_prefix(word);
        if let Some(index) = digits.iter().position(|octet| !octet.is_ascii_hexdigit()) {
            let front = word.len().saturating_sub(digits.len());
            return column.saturating_add(front).saturating_add(index);
        }
        column = column.saturating_add(word.len());
        if digits.len() % 2 == 1 {
            return column;
        }
        column = column.saturating_add(1);
    }
    column
}
