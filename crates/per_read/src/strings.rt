//! OCTET STRING, BIT STRING and the character strings (X.691 16, 17 and 30).

ghost use Rattle.std.specs.Prelude.{◌≡◌};
ghost use Rattle.std.specs.String.{string_bytes};
ghost use Rattle.rasn_types.specs.Contents.{utf8, is_text};
ghost use Rattle.rasn_schema.specs.Forms.{size_of, is_size_marked, alphabet_of};
ghost use Rattle.per_core.specs.Basic.{Octets, Counted, String, Proper, octet, bit};
ghost use Rattle.per_core.specs.Counts.{octet_items, bit_items};
ghost use Rattle.per_core.specs.Spellings.{Settings};
ghost use Rattle.per_core.specs.declared.items.Item.TheVariants.{Octet, Bit};
ghost use Rattle.per_read.specs.Items.{HasCount};
ghost use Rattle.per_core.specs.SizeFaults.{IsOfItems, IsOfString, IsOfText};
ghost use Rattle.per_read.specs.Takes.{Takes, memory_or, itself};

use crate::Reader;
use crate::alphabet::ReadAlphabet;
use crate::error::DecodeErrorKind;
use crate::items::{Characters, Skipped};
use per_bits::BitList;
use rasn_schema::constraints::Constraints;
use rasn_schema::strings::alphabet_under;
use rasn_strings::strings::StaticPermittedAlphabet;
use rasn_types::bit_string::BitString;
use rasn_types::octet_strings::Utf8String;

impl Reader<'_> {
    /// Takes an OCTET STRING under the first size constraint (X.691 17).
    #[inline(always)]
    pub fn take_octet_string(
        &mut self,
        constraints: &Constraints,
    ) -> Result<Vec<u8>, DecodeErrorKind>
        ensures { let size = size_of constraints.now in let mark = is_size_marked constraints.now in
            let why = λ (a : Settings). IsOfItems a size mark Octet in
            let form = λ (a : Settings). Counted a size mark octet_items octet in
            Takes (memory_or why) form (λ P octets. P octets.items) self.old result self.new }
    {
        let mut octets = Vec::new(self.alloc);
        self.take_items(constraints.size(), &mut octets)?;
        Ok(octets)
    }

    /// Skips an OCTET STRING under the first size constraint (X.691 17), and answers how many octets it has. It takes
    /// no memory.
    #[inline(always)]
    pub fn skip_octet_string(&mut self, constraints: &Constraints) -> Result<usize, DecodeErrorKind>
        ensures { let size = size_of constraints.now in let mark = is_size_marked constraints.now in
            let why = λ (a : Settings). IsOfItems a size mark Octet in
            let form = λ (a : Settings). Counted a size mark octet_items octet in
            Takes (memory_or why) form HasCount self.old result self.new }
    {
        self.take_items(constraints.size(), &mut Skipped)
    }

    /// Takes a BIT STRING under the first size constraint (X.691 16).
    #[inline(always)]
    pub fn take_bit_string(
        &mut self,
        constraints: &Constraints,
    ) -> Result<BitString, DecodeErrorKind>
        ensures { let size = size_of constraints.now in let mark = is_size_marked constraints.now in
            let why = λ (a : Settings). IsOfItems a size mark Bit in
            let form = λ (a : Settings). Counted a size mark bit_items bit in
            Takes (memory_or why) form itself self.old result self.new }
    {
        let mut list = BitList::new(self.alloc);
        let count = self.take_items(constraints.size(), &mut list)?;
        Ok(BitString::from_vec(list.into_octets(), count))
    }

    /// Takes a known-multiplier string under the first size constraint and the first permitted alphabet (X.691 30.5). A
    /// code without a character is refused after all characters and their count.
    pub fn take_characters<S: StaticPermittedAlphabet>(
        &mut self,
        constraints: &Constraints,
    ) -> Result<S, DecodeErrorKind>
        ensures { let size = size_of constraints.now in let mark = is_size_marked constraints.now in
            let alphabet = alphabet_of S.alphabet constraints.now in
            let why = λ (a : Settings). IsOfString a alphabet size mark in
            let form = λ (a : Settings). String a alphabet size mark in
            Takes (memory_or why) form (λ P string. P (S.characters string)) self.old result self.new }
    {
        let mut characters = Characters {
            alphabet: ReadAlphabet::from_alphabet(alphabet_under::<S>(
                constraints,
                self.options.codec,
            )),
            string: S::new(self.alloc),
            has_unknown: false,
        };
        self.take_items(constraints.size(), &mut characters)?;
        if characters.has_unknown {
            return Err(DecodeErrorKind::PermittedAlphabet);
        }
        Ok(characters.string)
    }

    /// Takes a UTF8String (X.691 30.6).
    pub fn take_utf8(&mut self) -> Result<Utf8String, DecodeErrorKind>
        ensures { let form = λ (a : Settings). Proper (is_text utf8) (Octets a) in
            Takes (memory_or (λ a. IsOfText a utf8)) form (λ P text. P (string_bytes text)) self.old result self.new }
    {
        let octets = self.take_octets()?;
        match Utf8String::from_utf8(octets) {
            Ok(text) => Ok(text),
            Err(_) => Err(DecodeErrorKind::StringConversionFailed),
        }
    }
}
