//! Numbers in few octets, which are read as one field and take no memory (X.691 11.3, 11.4).

ghost use Rattle.std.specs.Prelude.{◌≡◌, ◌≤◌, ◌↔◌, ℕ, List, None, IsTrue};
ghost use Rattle.rasn_types.specs.Bits.{signed};
ghost use Rattle.per_core.specs.Spellings.{bit_offset, NoneIn};
ghost use Rattle.per_core.specs.Writers.{pad};
ghost use Rattle.per_read.specs.OctetFields.{AreOctetsOf, AtOnce, OfOctetField, TakesOctetField};
ghost use Rattle.per_read.specs.ReaderState.{settings_of};

use crate::Reader;
use crate::error::DecodeErrorKind;
use crate::lengths::Length;
use rasn_types::types::Codec;

/// From 1 to 16 octets of a number.
#[derive(Drop)]
pub struct OctetField {
    /// The number that they mean without sign.
    pub number: u128,
    /// How many there are.
    count: u128,
}

impl OctetField {
    /// The number that the octets mean in two's complement (X.691 11.4).
    #[inline(always)]
    pub fn signed(&self) -> i128
        requires { (octets : List ℕ) × AreOctetsOf octets self.now }
        ensures { (octets : List ℕ) → AreOctetsOf octets self.now → result ≡ signed octets }
    {
        if self.count <= 6 {
            return i128::from(self.signed_word());
        }
        let half = 1 << (8 * self.count as u32 - 1);
        if self.number < half {
            self.number as i128
        } else {
            -1 - (half - 1 - (self.number - half)) as i128
        }
    }

    /// The number that up to 6 octets mean in two's complement, by words.
    #[inline(always)]
    fn signed_word(&self) -> i64
        requires octets { (octets : List ℕ) × AreOctetsOf octets self.now }
        requires few { self.now.count ≤ 6 }
        ensures { (octets : List ℕ) → AreOctetsOf octets self.now → result ≡ signed octets }
    {
        let number = self.number as u64;
        let width = 8 * self.count as u32;
        if number << 1 >> width == 0 {
            return number as i64;
        }
        let half = 1 << (width - 1);
        -1 - (half - 1 - (number - half)) as i64
    }
}

impl Reader<'_> {
    /// Takes octets after an unconstrained length (X.691 11.9.3.5 to 11.9.3.7), where there are from 1 to 16. Else
    /// `None`, and nothing is taken.
    #[inline(always)]
    pub fn take_octet_field(&mut self) -> Result<Option<OctetField>, DecodeErrorKind>
        ensures { TakesOctetField self.old result self.new }
    {
        if let Some(octets) = self.take_octets_at_once() {
            return Ok(Some(octets));
        }
        self.take_octets_after_length()
    }

    /// Takes octets and their length as one word, where no padding precedes them, there are from 1 to 6, and their
    /// length has one octet (X.691 11.9.3.6). Else `None`, and nothing is taken.
    #[inline(always)]
    pub fn take_octets_at_once(&mut self) -> Option<OctetField>
        ensures took { OfOctetField (settings_of self.old) self.old.bits self.new.bits result }
        ensures none { result ≡ None → NoneIn (AtOnce (settings_of self.old)) self.old.bits }
        ensures kept { self.new.options ≡ self.old.options }
    {
        if !self.is_unpadded() {
            return None;
        }
        let word = self.bits.front();
        let count = word >> 56;
        // how far it is above one: none is the farthest
        let above = count.wrapping_sub(1);
        if above >= 6 {
            return None;
        }
        let Ok(_) = self.bits.take(u128::from(8 + 8 * count)) else {
            return None;
        };
        let number = word << 8 >> (64 - 8 * count);
        Some(OctetField {
            number: u128::from(number),
            count: u128::from(count),
        })
    }

    /// Whether no padding precedes what begins on an octet in the aligned variant.
    #[inline(always)]
    fn is_unpadded(&self) -> bool
        ensures { IsTrue result ↔ (pad (settings_of self.now).variant (bit_offset self.now.bits) ≡ 0) }
    {
        match self.options.codec {
            Codec::Aper => self.bits.len() % 8 == 0,
            Codec::Uper => true,
        }
    }

    /// Takes what `take_octet_field` does, the length first.
    fn take_octets_after_length(&mut self) -> Result<Option<OctetField>, DecodeErrorKind>
        ensures { TakesOctetField self.old result self.new }
    {
        let start = self.bits();
        match self.take_unconstrained_length()? {
            Length::Last(count @ 1..=16) => {
                let number = self.take_bits(8 * count)?;
                Ok(Some(OctetField { number, count }))
            }
            _ => {
                self.bits = start;
                Ok(None)
            }
        }
    }
}
