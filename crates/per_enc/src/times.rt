//! UTCTime and GeneralizedTime, whose texts are written as a VisibleString (X.691 30).

ghost use Rattle.std.specs.Prelude.{◌≡◌, false, true, Ok, slice_get, IfOk, OnOk, OnErr, IfErr};
ghost use Rattle.rasn_types.specs.Contents.{utc, generalized};
ghost use Rattle.rasn_types.specs.Values.{characters};
ghost use Rattle.rasn_traits.specs.Calls.{Writes};
ghost use Rattle.rasn_schema.specs.Schemas.{Schema};
ghost use Rattle.per_write.specs.Items.{PutsItems, unconstrained_items};
ghost use Rattle.per_write.specs.Characters.{text_characters};
ghost use Rattle.per_enc.specs.Times.{Unwritten};
ghost use Rattle.per_write.specs.Rules.{encoder_rules};

use crate::bit_fields::{BitField, push_to_field, put_bit_field};
use per_core::items::Item;
use per_write::Writer;
use per_write::error::{EncodeError, EncodeErrorKind};
use per_write::items::ItemsToWrite;
use rasn_schema::schema::Constraints;
use rasn_schema::strings::alphabet_under;
use rasn_strings::alphabet::CharacterAlphabet;
use rasn_strings::civil::{GeneralizedMoment, UtcMoment};
use rasn_strings::strings::VisibleString;
use rasn_strings::time_error::TimeError;
use std::alloc::Allocator;

/// The characters of a text, in the alphabet of VisibleString (X.691 30.5).
#[derive(Drop)]
struct Text<'a> {
    characters: &'a [u8],
    alphabet: CharacterAlphabet<'a>,
}

impl ItemsToWrite for Text<'_> {
    ghost use Rattle.per_write.specs.Characters.{counted_characters};

    ghost counted = { λ x. counted_characters x.alphabet x.characters.now };

    fn len(&self) -> usize {
        self.characters.len()
    }

    fn item(&self) -> Item {
        Item::Character(self.alphabet.width())
    }

    fn put<A: Allocator + Clone>(
        &self,
        writer: &mut Writer<A>,
        start: usize,
        end: usize,
    ) -> Result<(), EncodeError> {
        let width = self.alphabet.width();
        let mut gathered = BitField::new();
        for index in start..end {
            let character = character_at(self.characters, index).unwrap();
            let Some(code) = self.alphabet.encode(character) else {
                return Err(writer.refuse(EncodeErrorKind::AlphabetConstraintNotSatisfied));
            };
            push_to_field(writer, &mut gathered, code, width)?;
        }
        put_bit_field(writer, &gathered)
    }
}

/// The character at an index; `None` from the count on.
fn character_at(characters: &[u8], index: usize) -> Option<u32>
    ensures { result ≡ slice_get characters.now index }
{
    characters.get(index).map(|character| u32::from(*character))
}

/// Writes a UTCTime by its moment in UTC (X.691 30, X.690 11.8). A moment that the text can't hold is refused.
pub fn put_utc_time<A: Allocator + Clone, M: UtcMoment>(
    writer: &mut Writer<A>,
    moment: &M,
) -> Result<(), EncodeError>
    requires { writer.old.failed ≡ false }
    ensures { Writes encoder_rules (Schema.time utc) (characters (M.text moment.now)) writer.old result writer.new }
{
    let alloc = writer.allocator()?;
    let text = moment.to_canonical_utc_time_bytes(alloc);
    let text = unless_unwritten(writer, text)?;
    put_text(writer, &text)
}

/// Writes a GeneralizedTime by its moment in UTC (X.691 30, X.690 11.7). A moment that the text can't hold is
/// refused.
pub fn put_generalized_time<A: Allocator + Clone, M: GeneralizedMoment>(
    writer: &mut Writer<A>,
    moment: &M,
) -> Result<(), EncodeError>
    requires { writer.old.failed ≡ false }
    ensures { Writes encoder_rules (Schema.time generalized) (characters (M.text moment.now))
        writer.old result writer.new }
{
    let alloc = writer.allocator()?;
    let text = moment.to_canonical_generalized_time_bytes(alloc);
    let text = unless_unwritten(writer, text)?;
    put_text(writer, &text)
}

/// The text of a time, unless it has none or memory ran out; then the writer has failed.
fn unless_unwritten<A: Allocator + Clone>(
    writer: &mut Writer<A>,
    text: Result<Vec<u8, A>, TimeError>,
) -> Result<Vec<u8, A>, EncodeError>
    ensures ok { IfOk result (λ written. text ≡ Ok written) }
    ensures kept { OnOk result (writer.new ≡ writer.old) }
    ensures err { IfErr result (λ e. Unwritten text e writer.old) }
    ensures fails { OnErr result (writer.new ≡ record writer.old { failed = true }) }
{
    match text {
        Ok(text) => Ok(text),
        Err(TimeError::Unrepresentable) => Err(writer.refuse(EncodeErrorKind::Below)),
        Err(_) => Err(writer.refuse(EncodeErrorKind::OutOfMemory)),
    }
}

/// Writes the characters of a text after an unconstrained length, each by its code among those of VisibleString
/// (X.691 30.5).
fn put_text<A: Allocator + Clone>(writer: &mut Writer<A>, text: &[u8]) -> Result<(), EncodeError>
    requires { writer.old.failed ≡ false }
    ensures { PutsItems (text_characters writer.old.codec text.now) unconstrained_items writer.old result writer.new }
{
    let text = Text {
        characters: text,
        alphabet: alphabet_under::<VisibleString>(&Constraints::NONE, writer.codec()),
    };
    writer.put_unconstrained_items(&text)
}
