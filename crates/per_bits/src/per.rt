//! Complete encodings.

ghost use Rattle.std.specs.Prelude.{◌≡◌, IfOk};
ghost use Rattle.per_core.specs.Writers as writers;

use crate::{BitList, BitReader};
use std::alloc::{AllocError, Allocator};

/// The octets of a complete encoding (X.691 11.1): the bits, first bit highest, and zero bits up to a whole octet; of
/// no bits one zero octet.
pub fn complete<A: Allocator>(alloc: A, bits: BitReader<'_>) -> Result<Vec<u8, A>, AllocError>
    ensures { IfOk result (λ octets. octets.items ≡ writers.complete bits.entry.bits) }
{
    let mut octets = Vec::new(alloc);
    if bits.is_empty() {
        octets.push(0)?;
    } else {
        bits.append_octets(&mut octets)?;
    }
    Ok(octets)
}

/// The octets of a complete encoding (X.691 11.1), as `complete` gives them, in the memory of the bits themselves.
#[inline(always)]
pub fn complete_in_place<A: Allocator>(bits: BitList<A>) -> Result<Vec<u8, A>, AllocError>
    ensures { IfOk result (λ octets. octets.items ≡ writers.complete bits) }
{
    let mut octets = bits.into_octets();
    if octets.is_empty() {
        octets.push(0)?;
    }
    Ok(octets)
}
