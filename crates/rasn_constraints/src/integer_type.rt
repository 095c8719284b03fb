//! The number types that an INTEGER is held in (X.680 19).

ghost use Rattle.std.specs.Prelude.{◌≡◌, ℕ, ℤ, pos, true, false, int_lt, IfOk, MatchOption};
ghost use Rattle.std.specs.Ordering.{int_cmp};
ghost use Rattle.rasn_types.specs.Bits.{signed_octets, signed};
ghost use Rattle.rasn_constraints.specs.Bounds.{Bounds, holds, fits_i128, unbounded};
ghost use Rattle.rasn_constraints.specs.Ranges.{i128_range, signed_range, unsigned_range};

use rasn_types::big::Integer;
use rasn_types::integer::{signed_octets_of, whole_of_octets};
use std::alloc::{AllocError, Allocator, Global};
use std::cmp::Ordering;

/// A type of whole numbers that an INTEGER is held in (X.680 19).
pub trait IntegerType: Sized + Drop {
    /// The width of the type in bits.
    const WIDTH: u32;

    ghost WIDTH: { ℕ };

    // The whole number that a value is.
    ghost number: { Self → ℤ };

    // The numbers that the type holds.
    ghost range: { Bounds };

    /// The number as an `i128`, where that holds it.
    fn to_i128(&self) -> Option<i128>
        ensures number { MatchOption result (fits_i128 (number self.now) ≡ false) (λ value. value ≡ number self.now) }
        ensures held { holds range (number self.now) ≡ true };

    /// The value that a number is, where the type holds it.
    fn try_from_i128(value: i128) -> Option<Self>
        ensures { MatchOption result (holds range value ≡ false)
            (λ x. (number x ≡ value) × (holds range (number x) ≡ true)) };

    /// How the number compares with an `i128`, be it one that an `i128` holds or not.
    fn cmp_i128(&self, other: i128) -> Ordering
        ensures { result ≡ int_cmp (number self.now) other };

    /// Whether the number is below 0.
    fn is_negative(&self) -> bool
        ensures { result ≡ int_lt (number self.now) (pos 0) }
    {
        self.cmp_i128(0).is_lt()
    }

    /// The fewest octets of the number in two's complement, highest first (X.690 8.3.2).
    fn to_signed_bytes_be<A: Allocator>(&self, alloc: A) -> Result<Vec<u8, A>, AllocError>
        ensures octets { IfOk result (λ octets. octets.items ≡ signed_octets (number self.now)) }
        ensures held { IfOk result (λ octets. holds range (number self.now) ≡ true) };

    /// The number that octets mean in two's complement, highest first, where the type holds it. Superfluous leading
    /// octets are taken. Memory is taken only for a type that keeps octets.
    fn try_from_signed_bytes(alloc: Global, octets: &[u8]) -> Result<Option<Self>, AllocError>
        ensures { IfOk result (λ number_read. MatchOption number_read (holds range (signed octets.now) ≡ false)
            (λ x. (number x ≡ signed octets.now) × (holds range (number x) ≡ true))) };
}

impl IntegerType for i8 {
    const WIDTH: u32 = 8;

    ghost WIDTH = { 8 };

    ghost number = { λ z. z };

    ghost range = { signed_range 8 };

    fn to_i128(&self) -> Option<i128> {
        Some(i128::from(*self))
    }

    fn try_from_i128(value: i128) -> Option<i8> {
        i8::try_from(value).ok()
    }

    fn cmp_i128(&self, other: i128) -> Ordering {
        i128::from(*self).cmp(&other)
    }

    fn to_signed_bytes_be<A: Allocator>(&self, alloc: A) -> Result<Vec<u8, A>, AllocError> {
        signed_octets_of(alloc, i128::from(*self))
    }

    fn try_from_signed_bytes(alloc: Global, octets: &[u8]) -> Result<Option<i8>, AllocError> {
        let _ = alloc;
        Ok(whole_of_octets(octets).and_then(|number| i8::try_from(number).ok()))
    }
}

impl IntegerType for i16 {
    const WIDTH: u32 = 16;

    ghost WIDTH = { 16 };

    ghost number = { λ z. z };

    ghost range = { signed_range 16 };

    fn to_i128(&self) -> Option<i128> {
        Some(i128::from(*self))
    }

    fn try_from_i128(value: i128) -> Option<i16> {
        i16::try_from(value).ok()
    }

    fn cmp_i128(&self, other: i128) -> Ordering {
        i128::from(*self).cmp(&other)
    }

    fn to_signed_bytes_be<A: Allocator>(&self, alloc: A) -> Result<Vec<u8, A>, AllocError> {
        signed_octets_of(alloc, i128::from(*self))
    }

    fn try_from_signed_bytes(alloc: Global, octets: &[u8]) -> Result<Option<i16>, AllocError> {
        let _ = alloc;
        Ok(whole_of_octets(octets).and_then(|number| i16::try_from(number).ok()))
    }
}

impl IntegerType for i32 {
    const WIDTH: u32 = 32;

    ghost WIDTH = { 32 };

    ghost number = { λ z. z };

    ghost range = { signed_range 32 };

    fn to_i128(&self) -> Option<i128> {
        Some(i128::from(*self))
    }

    fn try_from_i128(value: i128) -> Option<i32> {
        i32::try_from(value).ok()
    }

    fn cmp_i128(&self, other: i128) -> Ordering {
        i128::from(*self).cmp(&other)
    }

    fn to_signed_bytes_be<A: Allocator>(&self, alloc: A) -> Result<Vec<u8, A>, AllocError> {
        signed_octets_of(alloc, i128::from(*self))
    }

    fn try_from_signed_bytes(alloc: Global, octets: &[u8]) -> Result<Option<i32>, AllocError> {
        let _ = alloc;
        Ok(whole_of_octets(octets).and_then(|number| i32::try_from(number).ok()))
    }
}

impl IntegerType for i64 {
    const WIDTH: u32 = 64;

    ghost WIDTH = { 64 };

    ghost number = { λ z. z };

    ghost range = { signed_range 64 };

    fn to_i128(&self) -> Option<i128> {
        Some(i128::from(*self))
    }

    fn try_from_i128(value: i128) -> Option<i64> {
        i64::try_from(value).ok()
    }

    fn cmp_i128(&self, other: i128) -> Ordering {
        i128::from(*self).cmp(&other)
    }

    fn to_signed_bytes_be<A: Allocator>(&self, alloc: A) -> Result<Vec<u8, A>, AllocError> {
        signed_octets_of(alloc, i128::from(*self))
    }

    fn try_from_signed_bytes(alloc: Global, octets: &[u8]) -> Result<Option<i64>, AllocError> {
        let _ = alloc;
        Ok(whole_of_octets(octets).and_then(|number| i64::try_from(number).ok()))
    }
}

impl IntegerType for i128 {
    const WIDTH: u32 = 128;

    ghost WIDTH = { 128 };

    ghost number = { λ z. z };

    ghost range = { i128_range };

    fn to_i128(&self) -> Option<i128> {
        Some(*self)
    }

    fn try_from_i128(value: i128) -> Option<i128> {
        Some(value)
    }

    fn cmp_i128(&self, other: i128) -> Ordering {
        self.cmp(&other)
    }

    fn to_signed_bytes_be<A: Allocator>(&self, alloc: A) -> Result<Vec<u8, A>, AllocError> {
        signed_octets_of(alloc, *self)
    }

    fn try_from_signed_bytes(alloc: Global, octets: &[u8]) -> Result<Option<i128>, AllocError> {
        let _ = alloc;
        Ok(whole_of_octets(octets))
    }
}

impl IntegerType for u8 {
    const WIDTH: u32 = 8;

    ghost WIDTH = { 8 };

    ghost number = { pos };

    ghost range = { unsigned_range 8 };

    fn to_i128(&self) -> Option<i128> {
        Some(i128::from(*self))
    }

    fn try_from_i128(value: i128) -> Option<u8> {
        u8::try_from(value).ok()
    }

    fn cmp_i128(&self, other: i128) -> Ordering {
        i128::from(*self).cmp(&other)
    }

    fn to_signed_bytes_be<A: Allocator>(&self, alloc: A) -> Result<Vec<u8, A>, AllocError> {
        signed_octets_of(alloc, i128::from(*self))
    }

    fn try_from_signed_bytes(alloc: Global, octets: &[u8]) -> Result<Option<u8>, AllocError> {
        let _ = alloc;
        Ok(whole_of_octets(octets).and_then(|number| u8::try_from(number).ok()))
    }
}

impl IntegerType for u16 {
    const WIDTH: u32 = 16;

    ghost WIDTH = { 16 };

    ghost number = { pos };

    ghost range = { unsigned_range 16 };

    fn to_i128(&self) -> Option<i128> {
        Some(i128::from(*self))
    }

    fn try_from_i128(value: i128) -> Option<u16> {
        u16::try_from(value).ok()
    }

    fn cmp_i128(&self, other: i128) -> Ordering {
        i128::from(*self).cmp(&other)
    }

    fn to_signed_bytes_be<A: Allocator>(&self, alloc: A) -> Result<Vec<u8, A>, AllocError> {
        signed_octets_of(alloc, i128::from(*self))
    }

    fn try_from_signed_bytes(alloc: Global, octets: &[u8]) -> Result<Option<u16>, AllocError> {
        let _ = alloc;
        Ok(whole_of_octets(octets).and_then(|number| u16::try_from(number).ok()))
    }
}

impl IntegerType for u32 {
    const WIDTH: u32 = 32;

    ghost WIDTH = { 32 };

    ghost number = { pos };

    ghost range = { unsigned_range 32 };

    fn to_i128(&self) -> Option<i128> {
        Some(i128::from(*self))
    }

    fn try_from_i128(value: i128) -> Option<u32> {
        u32::try_from(value).ok()
    }

    fn cmp_i128(&self, other: i128) -> Ordering {
        i128::from(*self).cmp(&other)
    }

    fn to_signed_bytes_be<A: Allocator>(&self, alloc: A) -> Result<Vec<u8, A>, AllocError> {
        signed_octets_of(alloc, i128::from(*self))
    }

    fn try_from_signed_bytes(alloc: Global, octets: &[u8]) -> Result<Option<u32>, AllocError> {
        let _ = alloc;
        Ok(whole_of_octets(octets).and_then(|number| u32::try_from(number).ok()))
    }
}

impl IntegerType for u64 {
    const WIDTH: u32 = 64;

    ghost WIDTH = { 64 };

    ghost number = { pos };

    ghost range = { unsigned_range 64 };

    fn to_i128(&self) -> Option<i128> {
        Some(i128::from(*self))
    }

    fn try_from_i128(value: i128) -> Option<u64> {
        u64::try_from(value).ok()
    }

    fn cmp_i128(&self, other: i128) -> Ordering {
        i128::from(*self).cmp(&other)
    }

    fn to_signed_bytes_be<A: Allocator>(&self, alloc: A) -> Result<Vec<u8, A>, AllocError> {
        signed_octets_of(alloc, i128::from(*self))
    }

    fn try_from_signed_bytes(alloc: Global, octets: &[u8]) -> Result<Option<u64>, AllocError> {
        let _ = alloc;
        Ok(whole_of_octets(octets).and_then(|number| u64::try_from(number).ok()))
    }
}

/// Every whole number. The width stands for what is read under bounds, which is within an `i128`.
impl IntegerType for Integer {
    const WIDTH: u32 = 128;

    ghost WIDTH = { 128 };

    ghost number = { λ z. z };

    ghost range = { unbounded };

    fn to_i128(&self) -> Option<i128> {
        Integer::to_i128(self)
    }

    fn try_from_i128(value: i128) -> Option<Integer> {
        Some(Integer::from(value))
    }

    fn cmp_i128(&self, other: i128) -> Ordering {
        self.cmp(&Integer::from(other))
    }

    fn to_signed_bytes_be<A: Allocator>(&self, alloc: A) -> Result<Vec<u8, A>, AllocError> {
        Integer::to_signed_bytes_be(self, alloc)
    }

    fn try_from_signed_bytes(alloc: Global, octets: &[u8]) -> Result<Option<Integer>, AllocError> {
        if octets.is_empty() {
            return Ok(Some(Integer::from(0)));
        }
        Ok(Some(Integer::from_signed_octets(alloc, octets)?))
    }
}
