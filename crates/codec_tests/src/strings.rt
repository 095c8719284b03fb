//! The character strings of known multiplier: the characters of each type, that it takes them, and how it is printed.

use crate::expected::{expect_equal, expect_text};
use rasn_strings::strings::{
    BmpString, Ia5String, NumericString, PrintableString, StaticPermittedAlphabet, StringError,
    VisibleString,
};
use std::alloc::{AllocError, Global};
use std::process::Abort;
use std::test::Fail;

/// The string of one character, or of none where it is foreign to the type.
fn built<S: StaticPermittedAlphabet>(alloc: Global, character: u32) -> Result<S, AllocError> {
    let mut string = S::new(alloc);
    if S::contains_character(character) {
        string.push(character)?;
    }
    Ok(string)
}

/// How many characters the string of one has.
fn count_of<S: StaticPermittedAlphabet>(
    alloc: Global,
    character: u32,
) -> Result<usize, AllocError> {
    let string: S = built(alloc, character)?;
    Ok(string.len())
}

#[test]
fn each_type_takes_characters(rt: HostRuntime) {
    let alloc = rt.alloc();
    expect_equal(&rt, &count_of::<VisibleString>(alloc, 126), &Ok(1));
    expect_equal(&rt, &count_of::<Ia5String>(alloc, 127), &Ok(1));
    expect_equal(&rt, &count_of::<PrintableString>(alloc, 63), &Ok(1));
    expect_equal(&rt, &count_of::<NumericString>(alloc, 32), &Ok(1));
    expect_equal(&rt, &count_of::<BmpString>(alloc, 0xffff), &Ok(1));
}

/// A type has so many characters, and these are some of them.
fn expect_characters<S: StaticPermittedAlphabet>(rt: &impl Abort, count: usize, some: &[u8]) {
    let counted = (0..70000)
        .filter(|character| S::contains_character(*character))
        .count();
    expect_equal(rt, &counted, &count);
    for character in some {
        assert!(rt; S::contains_character(u32::from(*character)));
    }
}

#[test]
fn the_types_have_their_characters(rt: HostRuntime) {
    // as X.680 41 lists them
    let printable = b"ABCDEFGHIJKLMNOPQRSTUVWXYZabcdefghijklmnopqrstuvwxyz0123456789 '()+,-./:=?";
    expect_characters::<PrintableString>(&rt, 74, printable);
    expect_characters::<NumericString>(&rt, 11, b"0123456789 ");
    expect_characters::<VisibleString>(&rt, 95, b" ~");
    expect_characters::<Ia5String>(&rt, 128, b"\x00\x7f");
    expect_characters::<BmpString>(&rt, 65536, b"\x00\xff");
}

#[test]
fn prints_strings(rt: HostRuntime) -> Result<(), Fail> {
    let one: NumericString = built(rt.alloc(), 49)?;
    let text = format!(in rt.alloc(); "{one:?}")?;
    expect_text(&rt, text.as_str(), "NumericString { characters: [49] }");
    Ok(())
}

#[test]
fn makes_strings_of_texts(rt: HostRuntime) -> Result<(), Fail> {
    let alloc = rt.alloc();
    let name = PrintableString::from_str(alloc, "Ann-Marie")?;
    let copy = name.clone()?;
    expect_equal(&rt, &copy, &name);
    let text = format!(in alloc; "{copy}")?;
    expect_text(&rt, text.as_str(), "Ann-Marie");
    Ok(())
}

/// Why a text is no NumericString.
fn refusal(alloc: Global, text: &str) -> Option<StringError> {
    NumericString::from_str(alloc, text).err()
}

#[test]
fn names_foreign_characters(rt: HostRuntime) -> Result<(), Fail> {
    let alloc = rt.alloc();
    let foreign = StringError::ForeignCharacter {
        character: 'ä',
        index: 2,
    };
    expect_equal(&rt, &refusal(alloc, "12ä4"), &Some(foreign));
    let text = format!(in alloc; "{foreign}, {}", StringError::OutOfMemory)?;
    expect_text(
        &rt,
        text.as_str(),
        "'ä' at index 2 is not a character of the type, out of memory",
    );
    Ok(())
}
