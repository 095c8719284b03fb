//! Counts in front of items: unconstrained lengths and the padding before them (X.691 11.9.3.5 to 11.9.3.8).

ghost use Rattle.std.specs.Prelude.{◌≡◌, None, IfSome};
ghost use Rattle.per_core.specs.Basic.{LastCount};
ghost use Rattle.per_core.specs.Spellings.{AnyPadding, Took};
ghost use Rattle.per_core.specs.BitFieldFaults.{IsOfCount, IsOfLength, IsOfPadding};
ghost use Rattle.per_core.specs.Lengths.{LengthOf, CountOf};
ghost use Rattle.per_read.specs.Takes.{Takes, alone, itself, telling};

use crate::Reader;
use crate::error::{DecodeErrorKind, ParserFailCause};
use per_core::lengths::FRAGMENT;
pub use per_core::lengths::Length;
use rasn_types::types::Codec;

impl Reader<'_> {
    /// Takes the padding before what begins on an octet in the aligned variant: the bits that are left beyond whole
    /// octets. Where padding must be zero, other bits are refused.
    #[inline(always)]
    pub(crate) fn take_padding(&mut self) -> Result<(), DecodeErrorKind>
        ensures { Takes (telling IsOfPadding) (alone AnyPadding) itself self.old result self.new }
    {
        if let Codec::Uper = self.options.codec {
            return Ok(());
        }
        let odd = self.bits.len() % 8;
        let padding = self.bits.take(odd).unwrap();
        if self.options.zero_padding && padding.first_bits(odd) != 0 {
            return Err(DecodeErrorKind::ParserFail(ParserFailCause::NonzeroPadding));
        }
        Ok(())
    }

    /// Takes how many items follow, which begins on an octet in the aligned variant (X.691 11.9.3.5 to 11.9.3.8).
    #[inline(always)]
    pub fn take_unconstrained_length(&mut self) -> Result<Length, DecodeErrorKind>
        ensures { Takes (telling IsOfLength) LengthOf itself self.old result self.new }
    {
        self.take_padding()?;
        self.take_determinant()
    }

    /// Takes how many items follow: a count below 128 in one octet, one below 16384 in two, or how many times 16384
    /// (X.691 11.9.3.6 to 11.9.3.8).
    #[inline(always)]
    fn take_determinant(&mut self) -> Result<Length, DecodeErrorKind>
        ensures { Takes (telling (λ a. IsOfCount)) (λ a. CountOf) itself self.old result self.new }
    {
        if let Some(count) = self.take_last_count() {
            return Ok(Length::Last(u128::from(count)));
        }
        self.take_determinant_by_bits()
    }

    /// Takes a count below 16384, where its one or two octets are left (X.691 11.9.3.6, 11.9.3.7). Else `None`, and
    /// nothing is taken.
    #[inline(always)]
    fn take_last_count(&mut self) -> Option<u64>
        ensures took { IfSome result (λ count. Took (LastCount count) self.old.bits self.new.bits) }
        ensures none { result ≡ None → self.new.bits ≡ self.old.bits }
        ensures kept { self.new.options ≡ self.old.options }
    {
        let word = self.bits.front();
        if word >> 63 == 0 {
            let Ok(_) = self.bits.take(8) else {
                return None;
            };
            return Some(word >> 56);
        }
        if word >> 62 != 2 {
            return None;
        }
        let Ok(_) = self.bits.take(16) else {
            return None;
        };
        Some((word >> 48) - 0x8000)
    }

    /// Takes what `take_determinant` does, its first bits one by one.
    #[inline(always)]
    fn take_determinant_by_bits(&mut self) -> Result<Length, DecodeErrorKind>
        ensures { Takes (telling (λ a. IsOfCount)) (λ a. CountOf) itself self.old result self.new }
    {
        if !self.take_bit()? {
            return Ok(Length::Last(self.take_bits(7)?));
        }
        if !self.take_bit()? {
            return Ok(Length::Last(self.take_bits(14)?));
        }
        match self.take_bits(6)? {
            times @ 1..=4 => Ok(Length::Fragment(FRAGMENT as u128 * times)),
            _ => Err(DecodeErrorKind::ParserFail(ParserFailCause::FragmentCode)),
        }
    }
}
