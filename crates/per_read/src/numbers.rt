//! Whole numbers as their bounds have them written, before these bounds are asked (X.691 11.5, 11.7, 11.8 and 13.2).

ghost use Rattle.std.specs.Prelude.{◌≡◌, ◌+◌, ◌/◌, ◌^◌, ◌<◌, ◌≤◌, Some, None, Ok, MatchOption, IfOk, IfSome};
ghost use Rattle.rasn_types.specs.Bits.{signed, unsigned};
ghost use Rattle.rasn_types.specs.Variants.{aligned};
ghost use Rattle.rasn_constraints.specs.Bounds.{above};
ghost use Rattle.per_core.specs.Basic.{InOctets, IsSemiConstrainedWhole, IsUnconstrainedWhole, constrained_by};
ghost use Rattle.per_core.specs.Basic.{constrained_form};
ghost use Rattle.per_core.specs.Spellings.{Settings, BitField, NoneIn};
ghost use Rattle.per_core.specs.BitFieldFaults.{IsOfPadded};
ghost use Rattle.per_read.specs.Numbers.{OfNatural, OfRead, IsAbove, padded_field, between_in_field, in_one_field};
ghost use Rattle.per_core.specs.NumberFaults.{IsOfOctets, IsOfForm, count_width, IsOfConstrained, IsOfConstrainedBy};
ghost use Rattle.per_core.specs.NumberFaults.{IsOfCounted, under_bounds};
ghost use Rattle.per_read.specs.ReaderState.{settings_of};
ghost use Rattle.per_read.specs.Takes.{Takes, itself, lacking, memory_or, telling, tested};

use crate::Reader;
use crate::error::DecodeErrorKind;
use per_core::number_forms::NumberForm;
use rasn_types::integer::whole_of_octets;
use rasn_types::types::Codec;
use rasn_types::width::{width_of, width_to};

/// A whole number that was read.
#[derive(Drop)]
pub enum ReadNumber {
    /// One that an `i128` holds.
    Held(i128),
    /// One below all that an `i128` holds.
    Below,
    /// One above all that an `i128` holds.
    Above,
}

impl Reader<'_> {
    /// Takes a number in the form that bounds give it (X.691 13.2). It may be outside the bounds.
    #[inline(always)]
    pub fn take_number(
        &mut self,
        lower: Option<i128>,
        upper: Option<i128>,
    ) -> Result<ReadNumber, DecodeErrorKind>
        ensures { let form = λ (a : Settings). under_bounds a lower upper in
            Takes (memory_or (λ a. IsOfForm a lower upper)) form OfRead self.old result self.new }
    {
        match (lower, upper) {
            (None, _) => self.take_unconstrained_whole(),
            (Some(lower), None) => self.take_from(lower),
            (Some(lower), Some(upper)) => self.take_between(lower, upper),
        }
    }

    /// Takes a number with both bounds: how far it is above the lower one (X.691 11.5).
    #[inline(always)]
    fn take_between(&mut self, lower: i128, upper: i128) -> Result<ReadNumber, DecodeErrorKind>
        ensures { let why = λ (a : Settings). IsOfConstrained a (above lower upper + 1) in
            let form = λ (a : Settings). under_bounds a (Some lower) (Some upper) in
            Takes (telling why) form OfRead self.old result self.new }
    {
        let offset = self.take_constrained_whole(distance_above(lower, upper))?;
        Ok(number_above(lower, offset))
    }

    /// Takes a number with both bounds, as `take_number` does, where it is written in one field. After `None`, which
    /// says that none is there so, the reader is of no further use. No error is made, and so none needs room.
    #[inline(always)]
    pub fn take_short_between(&mut self, lower: i128, upper: i128) -> Option<ReadNumber>
        ensures took { let form = λ (a : Settings). under_bounds a (Some lower) (Some upper) in
            IfSome result (λ number. Takes tested form OfRead self.old (Ok number) self.new) }
        ensures none { result ≡ None → NoneIn (between_in_field (settings_of self.old) lower upper) self.old.bits }
    {
        let offset = self.take_short_whole(distance_above(lower, upper))?;
        Some(number_above(lower, offset))
    }

    /// Takes a number with a lower bound alone: how far it is above the bound (X.691 11.7).
    #[inline(always)]
    fn take_from(&mut self, lower: i128) -> Result<ReadNumber, DecodeErrorKind>
        ensures { Takes (memory_or IsOfOctets) (λ a. under_bounds a (Some lower) None) OfRead self.old result self.new }
    {
        match self.take_semi_constrained_whole()? {
            Some(offset) => Ok(number_above(lower, offset)),
            None => Ok(ReadNumber::Above),
        }
    }

    /// Takes a number without a lower bound: an unconstrained length and octets in two's complement (X.691 11.8).
    /// Superfluous leading octets are taken.
    fn take_unconstrained_whole(&mut self) -> Result<ReadNumber, DecodeErrorKind>
        ensures { Takes (memory_or IsOfOctets) IsUnconstrainedWhole OfRead self.old result self.new }
    {
        match self.take_octet_field()? {
            Some(octets) => Ok(ReadNumber::Held(octets.signed())),
            None => self.take_long_whole(),
        }
    }

    /// Takes an unconstrained whole number of any count of octets, which are kept in memory (X.691 11.8).
    fn take_long_whole(&mut self) -> Result<ReadNumber, DecodeErrorKind>
        ensures { Takes (memory_or IsOfOctets) IsUnconstrainedWhole OfRead self.old result self.new }
    {
        let octets = self.take_octets()?;
        if octets.is_empty() {
            return Err(DecodeErrorKind::UnexpectedEmptyInput);
        }
        Ok(number_of_octets(&octets))
    }

    /// Takes a number above a lower bound: an unconstrained length and the octets of the number without sign, one or
    /// more (X.691 11.7). Superfluous leading octets are taken. `None` is a number that no `u128` holds.
    fn take_semi_constrained_whole(&mut self) -> Result<Option<u128>, DecodeErrorKind>
        ensures { Takes (memory_or IsOfOctets) IsSemiConstrainedWhole OfNatural self.old result self.new }
    {
        match self.take_octet_field()? {
            Some(octets) => Ok(Some(octets.number)),
            None => self.take_long_natural(),
        }
    }

    /// Takes a semi-constrained whole number above its lower bound, of any count of octets, which are kept in memory
    /// (X.691 11.7).
    fn take_long_natural(&mut self) -> Result<Option<u128>, DecodeErrorKind>
        ensures { Takes (memory_or IsOfOctets) IsSemiConstrainedWhole OfNatural self.old result self.new }
    {
        let octets = self.take_octets()?;
        if octets.is_empty() {
            return Err(DecodeErrorKind::UnexpectedEmptyInput);
        }
        Ok(natural_of_octets(&octets))
    }

    /// Takes one of the numbers from 0 to `greatest`, a constrained whole number above its lower bound (X.691 11.5). A
    /// code past `greatest` has no meaning: it is answered as it stands, since its caller names what it would be.
    #[inline(always)]
    pub fn take_constrained_whole(&mut self, greatest: u128) -> Result<u128, DecodeErrorKind>
        ensures { let form = λ (a : Settings). constrained_form a (greatest + 1) in
            Takes (telling (λ a. IsOfConstrained a (greatest + 1))) form itself self.old result self.new }
    {
        match self.options.codec {
            Codec::Aper => self.take_constrained_whole_aligned(greatest),
            Codec::Uper => self.take_bits(width_to(greatest)),
        }
    }

    /// Takes one of the numbers from 0 to `greatest`, as `take_constrained_whole` does, where it is written in one
    /// field. After `None`, which says that none is there in one field, the reader is of no further use.
    #[inline(always)]
    pub fn take_short_whole(&mut self, greatest: u128) -> Option<u128>
        ensures took { let form = λ (a : Settings). constrained_form a (greatest + 1) in
            IfSome result (λ number. Takes tested form itself self.old (Ok number) self.new) }
        ensures none { result ≡ None → NoneIn (in_one_field (settings_of self.old) (greatest + 1)) self.old.bits }
    {
        match (self.options.codec, NumberForm::of(greatest)) {
            (Codec::Uper, _) => self.take_bits(width_to(greatest)).ok(),
            (Codec::Aper, NumberForm::Bits) => self.take_bits(width_to(greatest)).ok(),
            (Codec::Aper, NumberForm::Octet) => self.take_on_octet(8).ok(),
            (Codec::Aper, NumberForm::TwoOctets) => self.take_on_octet(16).ok(),
            (Codec::Aper, NumberForm::Counted) => None,
        }
    }

    /// Takes one of the numbers from 0 to `greatest` in the aligned variant (X.691 11.5.7): of 255 numbers or fewer in
    /// bits, of 256 in an octet, of 65536 or fewer in two, and of more in octets, which their count precedes.
    fn take_constrained_whole_aligned(&mut self, greatest: u128) -> Result<u128, DecodeErrorKind>
        ensures { let why = λ (a : Settings). IsOfConstrainedBy aligned a (greatest + 1) in
            let form = λ (a : Settings). constrained_by aligned a (greatest + 1) in
            Takes (telling why) form itself self.old result self.new }
    {
        match NumberForm::of(greatest) {
            NumberForm::Bits => self.take_bits(width_to(greatest)),
            NumberForm::Octet => self.take_on_octet(8),
            NumberForm::TwoOctets => self.take_on_octet(16),
            NumberForm::Counted => self.take_in_octets(greatest),
        }
    }

    /// Takes one of the numbers from 0 to `greatest` in counted octets (X.691 11.5.7.4).
    fn take_in_octets(&mut self, greatest: u128) -> Result<u128, DecodeErrorKind>
        ensures { let form = λ (a : Settings). InOctets a (greatest + 1) in
            Takes (telling (λ a. IsOfCounted a (greatest + 1))) form itself self.old result self.new }
    {
        let more = self.take_octet_count(greatest)?;
        self.take_on_octet(8 * (more + 1))
    }

    /// Takes the count, less one, of the octets of one of the numbers from 0 to `greatest` (X.691 11.5.7.4): any code
    /// of its field, up to 15.
    fn take_octet_count(&mut self, greatest: u128) -> Result<u128, DecodeErrorKind>
        ensures taken { let width = count_width (greatest + 1) in
            Takes (lacking width) (λ a. BitField width) itself self.old result self.new }
        ensures few { IfOk result (λ more. more < 16) }
    {
        let most = width_of((width_to(greatest) + 7) / 8);
        self.take_bits(u128::from(most))
    }

    /// Takes `width` bits from the next octet on, in the aligned variant.
    #[inline(always)]
    fn take_on_octet(&mut self, width: u128) -> Result<u128, DecodeErrorKind>
        requires { width ≤ 128 }
        ensures { let form = λ (a : Settings). padded_field a width in
            Takes (telling (λ a. IsOfPadded a width)) form itself self.old result self.new }
    {
        self.take_padding()?;
        self.take_bits(width)
    }
}

/// The number that two's complement octets mean, highest first (X.691 11.4).
fn number_of_octets(octets: &[u8]) -> ReadNumber
    ensures { OfRead (λ z. z ≡ signed octets.now) result }
{
    if let Some(number) = whole_of_octets(octets) {
        return ReadNumber::Held(number);
    }
    match octets {
        [first, ..] if *first >= 128 => ReadNumber::Below,
        _ => ReadNumber::Above,
    }
}

/// The number that octets without sign mean, highest first, where a `u128` holds it (X.691 11.3).
fn natural_of_octets(octets: &[u8]) -> Option<u128>
    ensures { MatchOption result (2 ^ 128 ≤ unsigned octets.now) (λ number. number ≡ unsigned octets.now) }
{
    let mut number: u128 = 0;
    for octet in octets {
        number = number.checked_mul(256)? + u128::from(*octet);
    }
    Some(number)
}

/// The number that stands `offset` above `lower`.
fn number_above(lower: i128, offset: u128) -> ReadNumber
    ensures { OfRead (IsAbove lower offset) result }
{
    match lower.checked_add_unsigned(offset) {
        Some(number) => ReadNumber::Held(number),
        None => ReadNumber::Above,
    }
}

/// How far `upper` is above `lower` (X.691 11.5.3); 0 where it isn't.
fn distance_above(lower: i128, upper: i128) -> u128
    ensures { result ≡ above lower upper }
{
    if lower <= upper {
        upper.abs_diff(lower)
    } else {
        0
    }
}
