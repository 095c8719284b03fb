//! What is counted in strings and lists: items that are written one after another (X.691 11.9).

ghost use Rattle.std.specs.Prelude.{◌≡◌, ◌-◌, ◌*◌, ◌≤◌, false, length, IfNone, IfSome};
ghost use Rattle.rasn_types.specs.Alphabets.{char_width};
ghost use Rattle.rasn_types.specs.Variants.{Variant};
ghost use Rattle.per_core.specs.Counts.{counted_of};
ghost use Rattle.per_write.specs.Characters.{AreOwnBetween, IsBitField, IsRefused};
ghost use Rattle.per_write.specs.Items.{CountedItems, PutsItems, items_between};

use crate::Writer;
use crate::error::{EncodeError, EncodeErrorKind};
use per_bits::{BitList, BitReader};
use per_core::items::Item;
use rasn_strings::alphabet::CharacterAlphabet;
use rasn_strings::strings::StaticPermittedAlphabet;
use rasn_types::bit_string::BitString;
use std::alloc::Allocator;

/// The most bits of a field that is written at once, behind up to seven other bits of an octet.
pub const FIELD_BITS: u32 = 56;

/// Items that a length counts.
pub trait ItemsToWrite {
    // What is counted, how each item is written, and the fault that an error names in them.
    ghost counted: { Self → CountedItems };

    /// How many items there are.
    fn len(&self) -> usize
        ensures { (a : Variant) → result ≡ length ((counted self.now).writers a) };

    /// What is counted.
    fn item(&self) -> Item
        ensures { counted_of result ≡ (counted self.now).kind };

    /// Writes the items from an index on and before another. An error says that memory ran out, or that an item has no
    /// encoding.
    fn put<A: Allocator + Clone>(
        &self,
        writer: &mut Writer<A>,
        start: usize,
        end: usize,
    ) -> Result<(), EncodeError>
        requires begun { writer.old.failed ≡ false }
        requires ordered { start ≤ end }
        requires within { (a : Variant) → end ≤ length ((counted self.now).writers a) }
        ensures { PutsItems (counted self.now) (items_between start end) writer.old result writer.new };
}

/// Octets (X.691 17).
#[derive(Drop)]
pub(crate) struct Octets<'a>(pub(crate) &'a [u8]);

impl ItemsToWrite for Octets<'_> {
    ghost use Rattle.per_core.specs.Counts.{octet_items, octet_writers};

    ghost counted = { λ x. record { kind = octet_items; writers = λ a. octet_writers x.0.now; fault = λ k. ⊥ } };

    fn len(&self) -> usize {
        self.0.len()
    }

    fn item(&self) -> Item {
        Item::Octet
    }

    fn put<A: Allocator + Clone>(
        &self,
        writer: &mut Writer<A>,
        start: usize,
        end: usize,
    ) -> Result<(), EncodeError> {
        writer.put_bare_octets(&self.0[start..end])
    }
}

impl ItemsToWrite for BitString {
    ghost use Rattle.per_core.specs.Counts.{bit_items, bit_writers};

    ghost counted = { λ x. record { kind = bit_items; writers = λ a. bit_writers x; fault = λ k. ⊥ } };

    fn len(&self) -> usize {
        BitString::len(self)
    }

    fn item(&self) -> Item {
        Item::Bit
    }

    fn put<A: Allocator + Clone>(
        &self,
        writer: &mut Writer<A>,
        start: usize,
        end: usize,
    ) -> Result<(), EncodeError> {
        let mut rest = BitReader::from_octets(self.as_octets());
        rest.take(start as u128).unwrap();
        let bits = rest.take((end - start) as u128).unwrap();
        writer.put_reader(&bits)
    }
}

/// The bits of a bitmap (X.691 19.8).
#[derive(Drop)]
pub(crate) struct Flags<'a, B: Allocator> {
    pub(crate) bits: &'a BitList<B>,
    /// How many there are.
    pub(crate) count: usize,
    ghost counted: { length bits.now ≡ count },
}

impl<B: Allocator> ItemsToWrite for Flags<'_, B> {
    ghost use Rattle.per_core.specs.Counts.{bit_items, bit_writers};

    ghost counted = { λ x. record { kind = bit_items; writers = λ a. bit_writers x.bits.now; fault = λ k. ⊥ } };

    fn len(&self) -> usize {
        self.count
    }

    fn item(&self) -> Item {
        Item::Bit
    }

    fn put<A: Allocator + Clone>(
        &self,
        writer: &mut Writer<A>,
        start: usize,
        end: usize,
    ) -> Result<(), EncodeError> {
        let mut rest = BitReader::new(self.bits);
        rest.take(start as u128).unwrap();
        let bits = rest.take((end - start) as u128).unwrap();
        writer.put_reader(&bits)
    }
}

/// Characters, in an alphabet that may permit some of those of their type (X.691 30.5).
#[derive(Drop)]
pub(crate) struct Characters<'a, S> {
    pub(crate) string: &'a S,
    pub(crate) alphabet: CharacterAlphabet<'a>,
}

impl<S: StaticPermittedAlphabet> ItemsToWrite for Characters<'_, S> {
    ghost use Rattle.per_write.specs.Characters.{counted_characters};

    ghost counted = { λ x. counted_characters x.alphabet (S.characters x.string.now) };

    fn len(&self) -> usize {
        self.string.len()
    }

    fn item(&self) -> Item {
        Item::Character(self.alphabet.width())
    }

    fn put<A: Allocator + Clone>(
        &self,
        writer: &mut Writer<A>,
        start: usize,
        end: usize,
    ) -> Result<(), EncodeError> {
        let width = self.alphabet.width();
        if let Some(octets) = self.own_octets(start, end) {
            return writer.put_low_bits(octets, width);
        }
        let most = (FIELD_BITS / width.max(1)) as usize;
        let mut at = start;
        while at < end {
            let next = at + most.min(end - at);
            let Some(number) = self.field(at, next) else {
                return Err(writer.refuse(EncodeErrorKind::AlphabetConstraintNotSatisfied));
            };
            writer.put_bits(u128::from(number), (next - at) as u128 * u128::from(width))?;
            at = next;
        }
        Ok(())
    }
}

impl<S: StaticPermittedAlphabet> Characters<'_, S> {
    /// The characters from an index on and before another, where they are octets and found to be written as such.
    fn own_octets(&self, start: usize, end: usize) -> Option<&[u8]>
        requires ordered { start ≤ end }
        requires within { end ≤ length (S.characters self.now.string.now) }
        ensures { IfSome result (λ octets.
            AreOwnBetween self.now.alphabet (S.characters self.now.string.now) start end octets.now) }
    {
        let all = self.string.octets()?;
        let octets = &all[start..end];
        if self.alphabet.width() <= 8 && self.alphabet.are_own(octets) {
            Some(octets)
        } else {
            None
        }
    }

    /// The number whose bits are the codes of the characters from an index on and before another, as many as one field
    /// has at most; `None` where one of them isn't permitted.
    fn field(&self, start: usize, end: usize) -> Option<u64>
        requires ordered { start ≤ end }
        requires within { end ≤ length (S.characters self.now.string.now) }
        requires few { (end - start) * char_width self.now.alphabet.variant self.now.alphabet.characters ≤ FIELD_BITS }
        ensures some { IfSome result (λ number.
            IsBitField self.now.alphabet (S.characters self.now.string.now) start end number) }
        ensures none { IfNone result (IsRefused self.now.alphabet (S.characters self.now.string.now)) }
    {
        let width = self.alphabet.width();
        let mut number: u64 = 0;
        for index in start..end {
            let character = self.string.character(index).unwrap();
            number = number << width | u64::from(self.alphabet.encode(character)?);
        }
        Some(number)
    }
}
