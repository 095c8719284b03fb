//! OCTET STRING (X.691 17): its octets are lent where they are on octets of what is read.

ghost use Rattle.std.specs.Prelude.{◌≡◌, ◌≤◌, ◌+◌, ◌-◌, ◌*◌, ◌↔◌, true, false, length, IfOk};
ghost use Rattle.std.specs.Cow.{cow_slice_items, IsBorrowedSlice, IsOwnedSlice};
ghost use Rattle.rasn_types.specs.Values.{octets};
ghost use Rattle.rasn_schema.specs.Forms.{octet_schema, size_of, is_size_marked};
ghost use Rattle.rasn_traits.specs.Calls.{Reads};
ghost use Rattle.per_decoding.specs.Rules.{decoder_rules, plain_rules};
ghost use Rattle.per_de.specs.Lending.{AreCountedOnce, AreLent, CanBeLent, ComeAlone, SkipsOctets};
ghost use Rattle.per_decoding.specs.Sources.{AreOctetsOf};

use crate::Decoder;
use per_bits::BitReader;
use per_core::lengths::FRAGMENT;
use per_read::error::{DecodeError, DecodeErrorKind};
use rasn_schema::constraints::Constraints;
use rasn_types::types::Tag;
use std::alloc::AllocError;
use std::borrow::CowSlice;

impl<'input> Decoder<'input> {
    /// Reads an OCTET STRING under constraints (X.691 17), as the call of the trait does. The octets are `Borrowed`
    /// exactly where they are octets of the input, at least one, and come with one count alone or with none; they may
    /// be kept as long as the input. Those of an open type in fragments are `Owned`.
    #[inline(always)]
    pub fn decode_octet_string(
        &mut self,
        _tag: Tag,
        constraints: &Constraints,
    ) -> Result<CowSlice<'input, u8>, DecodeError>
        ensures read { Reads decoder_rules (octet_schema constraints.now) (λ x. octets (cow_slice_items x))
            self.old result self.new }
        ensures lent { let size = size_of constraints.now in let mark = is_size_marked constraints.now in
            let left = length self.new.bits in
            IfOk result (λ x. IsBorrowedSlice x ↔ AreLent size mark self.old left (length (cow_slice_items x))) }
    {
        self.begin_value()?;
        self.read_octet_string(constraints)
    }

    /// What `decode_octet_string` answers, after what it notes.
    #[inline(always)]
    pub(crate) fn read_octet_string(
        &mut self,
        constraints: &Constraints,
    ) -> Result<CowSlice<'input, u8>, DecodeError>
        ensures read { Reads plain_rules (octet_schema constraints.now) (λ x. octets (cow_slice_items x))
            self.old result self.new }
        ensures lent { let size = size_of constraints.now in let mark = is_size_marked constraints.now in
            let left = length self.new.bits in
            IfOk result (λ x. IsBorrowedSlice x ↔ AreLent size mark self.old left (length (cow_slice_items x))) }
    {
        self.check_unfailed()?;
        let (count, left) = self.skip_octets(constraints)?;
        if !self.come_alone(constraints, count) {
            return self.gathered(constraints);
        }
        let octets = match self.octets_before(left, count) {
            Ok(octets) => octets,
            Err(_) => return Err(self.refuse(DecodeErrorKind::OutOfMemory)),
        };
        self.advance(left);
        Ok(octets)
    }

    /// How many octets an OCTET STRING has, and how many bits are left after it. They are still left here.
    #[inline(always)]
    pub(crate) fn skip_octets(
        &mut self,
        constraints: &Constraints,
    ) -> Result<(usize, u128), DecodeError>
        requires { self.old.failed ≡ false }
        ensures { SkipsOctets (size_of constraints.now) (is_size_marked constraints.now) self.old result self.new }
    {
        let mut reader = self.reader();
        let skipped = reader.skip_short_octet_string(constraints);
        let left = reader.bits().len();
        match skipped {
            Some(count) => Ok((count, left)),
            None => self.skip_any_octets(constraints),
        }
    }

    /// What `skip_octets` answers, of an OCTET STRING in whichever form it is written.
    #[inline(never)]
    pub(crate) fn skip_any_octets(
        &mut self,
        constraints: &Constraints,
    ) -> Result<(usize, u128), DecodeError>
        requires { self.old.failed ≡ false }
        ensures { SkipsOctets (size_of constraints.now) (is_size_marked constraints.now) self.old result self.new }
    {
        let mut reader = self.reader();
        let skipped = reader.skip_octet_string(constraints);
        let left = reader.bits().len();
        match skipped {
            Ok(count) => Ok((count, left)),
            Err(kind) => Err(self.refuse(kind)),
        }
    }

    /// Whether so many octets under a size, which are at the front of the bits that are left, come with one count
    /// alone or with none (X.691 11.9.3.3 to 11.9.3.8).
    #[inline(always)]
    pub(crate) fn come_alone(&self, constraints: &Constraints, count: usize) -> bool
        ensures { let size = size_of constraints.now in let mark = is_size_marked constraints.now in
            (result ≡ true) ↔ ComeAlone size mark self.now.bits count }
    {
        count < FRAGMENT || are_counted_once(constraints, &self.input())
    }

    /// Reads an OCTET STRING under constraints, and answers a copy of its octets, which may come in fragments.
    pub(crate) fn gathered(
        &mut self,
        constraints: &Constraints,
    ) -> Result<CowSlice<'static, u8>, DecodeError>
        ensures read { Reads plain_rules (octet_schema constraints.now) (λ x. octets (cow_slice_items x))
            self.old result self.new }
        ensures owned { IfOk result (λ x. IsOwnedSlice x) }
    {
        let octets = self.copy_octets(constraints)?;
        Ok(CowSlice::Owned(octets))
    }

    /// The `count` octets in front of the last `left` bits: those of the input, at least one, are lent, and others are
    /// copied. The only error is want of memory.
    #[inline(always)]
    pub(crate) fn octets_before(
        &self,
        left: u128,
        count: usize,
    ) -> Result<CowSlice<'input, u8>, AllocError>
        requires { 8 * count + left ≤ length self.now.bits }
        ensures octets { let bits = self.now.bits in
            IfOk result (λ x. AreOctetsOf bits (length bits - left) count (cow_slice_items x)) }
        ensures lent { IfOk result (λ x. IsBorrowedSlice x ↔ CanBeLent self.now left count) }
    {
        let place = self.bits.end - left;
        self.source.octets_before(self.alloc, place, count)
    }
}

/// Whether octets under a size, which are at the front of bits, come with one count or with none, however many they
/// are (X.691 11.9.3.3, 11.9.4.1, 17.3).
pub(crate) fn are_counted_once(constraints: &Constraints, bits: &BitReader<'_>) -> bool
    ensures { let size = size_of constraints.now in let mark = is_size_marked constraints.now in
        (result ≡ true) ↔ AreCountedOnce size mark bits.now.bits }
{
    let Some(size) = constraints.size() else {
        return false;
    };
    let (Some(_), Some(upper)) = size.constraint.start_and_end() else {
        return false;
    };
    upper < 65536 && !(size.extensible && !bits.is_empty() && bits.first_bit() == 1)
}
