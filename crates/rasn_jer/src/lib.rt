//! Values as JSON, by the JSON Encoding Rules (ITU-T X.697).
//!
//! Each type that implements `Encode` is shown with no line in its crate: `Encoder` is one more implementation of the
//! trait of encoders. The definitions are `specs/Shown.antt`, which JSON value shows a value, and `specs/Texts.antt`,
//! its text.
//!
//! **Proved**: a call returns. What `encode` answers is the text of one JSON value, which shows the normal form of the
//! value by its schema, and which the toolchain's reader (`json`) reads back as that JSON value where it nests no
//! deeper than 128 levels. It refuses, memory aside, only a value in which the fault stands that its error names.
//!
//! How a value is shown:
//! - SEQUENCE and SET: an object. What is absent, or at its default, is left out. An addition is a member, and the
//!   components of a group stand among the others, as a group has no name in ASN.1.
//! - SEQUENCE OF and SET OF: an array, in the order of the value.
//! - CHOICE: an object of one member, named by its alternative's identifier.
//! - BOOLEAN, NULL and INTEGER: these of JSON, a number in its decimal digits.
//! - ENUMERATED: the item's identifier as a string.
//! - OCTET STRING and open types: a string of hexadecimal digits.
//! - BIT STRING: such a string where the size is one number without an extension marker, and else an object of `value`
//!   and `length`, which also shows bits that are more or fewer than that number; bits that have names in their normal
//!   form.
//! - Strings of characters: a string. In GeneralString, GraphicString and TeletexString each octet is the character
//!   with its number.
//! - OBJECT IDENTIFIER: a string, such as `"1.2.840"`. Times: their canonical text. DATE: such as `"2026-11-27"`, with
//!   a minus sign in front of four digits where the year is below zero.
//!
//! Where a type's list of identifiers is too short, an item is its number (those before the extension marker count from
//! 0, and those after it go on), and an alternative goes by its tag, as `[2]` or `[UNIVERSAL 1]`.
//!
//! **Only tested**: that lists of names are the type's, as a schema has none: those of `FIELDS` and `EXTENDED_FIELDS`,
//! and `IDENTIFIERS` (that a component, there or not, has its own name of a list, and an item the one at its number,
//! is proved); the digits of a number that no `i128` holds; that the text is UTF-8; and that two values of a type with
//! equal JSON have equal normal forms.
#![tactic(auto)]

pub mod encoder;
pub mod error;
pub mod frame;
mod large;
mod opened;
mod schemas;
pub mod texts;

ghost use Rattle.std.specs.Prelude.{IfOk, IfErr};
ghost use Rattle.rasn_jer.specs.Calls.{AreText, IsRefusedBy};

pub use crate::encoder::Encoder;
pub use crate::error::EncodeError;
use rasn_codec::codec::Encode;
use std::alloc::Allocator;

/// The JSON text of a value, in UTF-8 and without spaces (X.697).
///
/// Refuses with `OutOfMemory` where memory ran out, and else only a value that has no JSON.
pub fn encode<T: Encode, A: Allocator + Copy>(
    alloc: A,
    value: &T,
) -> Result<Vec<u8, A>, EncodeError>
    ensures ok { IfOk result (λ text.
        AreText (T.schema T.CONSTRAINTS) (T.levels value.now) (T.value value.now) text.items) }
    ensures err { IfErr result (IsRefusedBy (T.schema T.CONSTRAINTS) (T.levels value.now) (T.value value.now)) }
{
    let mut encoder = Encoder::new(alloc);
    match value.encode(&mut encoder) {
        Ok(()) => encoder.output(),
        Err(error) => Err(error),
    }
}
