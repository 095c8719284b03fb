//! Rows of more than 64 octets, and two of 16384 and 65536 characters of no bits.

use crate::each_call::is_any_refused;
use per_samples_a::strings::OnlyX;
use per_samples_b::outer1::Outer1;
use per_samples_c::before_nest::BeforeNest;
use per_samples_c::lists::Bytes;
use rasn_below::codec::{Decode, Encode};
use rasn_below::types::Codec::{Aper, Uper};
use rasn_below::types::{BitString, Codec, OctetString};
use std::alloc::{AllocError, Global};
use std::process::Abort;

/// What is at the front of an encoding, how many octets of `55` stand after it, and what is at its end.
type Long = (&'static [u8], usize, &'static [u8]);

/// The octets of an encoding.
fn octets_of(alloc: Global, (front, count, end): Long) -> Result<Vec<u8>, AllocError> {
    let mut octets = Vec::new(alloc);
    octets.extend_from_slice(front)?;
    for _ in 0..count {
        octets.push(0x55)?;
    }
    octets.extend_from_slice(end)?;
    Ok(octets)
}

/// Whether a call for an encoding was refused, or the room for its octets.
fn is_refused<T: Encode + Decode>(rt: &impl Abort, alloc: Global, codec: Codec, row: Long) -> bool {
    match octets_of(alloc, row) {
        Ok(octets) => is_any_refused::<T>(rt, alloc, codec, octets.as_slice()),
        Err(_) => true,
    }
}

/// A length of 128.
const ONE_COUNT: Long = (&[0x80, 0x80], 128, &[]);

/// A fragment of 16384 octets, and one more octet.
const FRAGMENT: Long = (&[0xc1], 16384, &[0x01, 0x55]);

/// A fragment of 16384 bits, and none more.
const BITS: Long = (&[0xc1], 2048, &[0x00]);

/// An addition that isn't known, in an open type of a fragment of 16384 octets.
const ALIGNED_ADDITION: Long = (&[0xc0, 0x20, 0xc1], 16384, &[0x00]);

/// An addition that isn't known, in an open type of a fragment of 16384 octets, in the UNALIGNED variant, where no part
/// of it is on the boundary of an octet.
const ADDITION: Long = (&[0xc0, 0x70], 16384, &[0x40, 0x00]);

/// A fragment of 16384 characters, and none more.
const CHARACTERS: Long = (&[0xc1, 0x00], 0, &[]);

/// A fragment of 65536 characters, and none more.
const MORE_CHARACTERS: Long = (&[0xc4, 0x00], 0, &[]);

/// 99,000 records of eight BOOLEAN, in fragments of 65536 and 32768 and a rest of 696.
fn records(alloc: Global) -> Result<Vec<u8>, AllocError> {
    let mut octets = octets_of(alloc, (&[0xc4], 65536, &[0xc2]))?;
    let fragment = octets_of(alloc, (&[], 32768, &[0x82, 0xb8]))?;
    octets.extend_from_slice(fragment.as_slice())?;
    let rest = octets_of(alloc, (&[], 696, &[]))?;
    octets.extend_from_slice(rest.as_slice())?;
    Ok(octets)
}

/// Whether a call for these records was refused, or the room for their octets.
fn are_records_refused(rt: &impl Abort, alloc: Global) -> bool {
    match records(alloc) {
        Ok(octets) => is_any_refused::<Bytes>(rt, alloc, Uper, octets.as_slice()),
        Err(_) => true,
    }
}

/// Whether a call for one of the rows was refused.
fn is_one_refused(rt: &impl Abort, alloc: Global) -> bool {
    is_refused::<OctetString>(rt, alloc, Uper, ONE_COUNT)
        || is_refused::<OctetString>(rt, alloc, Uper, FRAGMENT)
        || is_refused::<Bytes>(rt, alloc, Uper, ONE_COUNT)
        || are_records_refused(rt, alloc)
        || is_refused::<BitString>(rt, alloc, Aper, BITS)
        || is_refused::<Outer1>(rt, alloc, Aper, ALIGNED_ADDITION)
        || is_refused::<BeforeNest>(rt, alloc, Uper, ADDITION)
        || is_refused::<OnlyX>(rt, alloc, Uper, CHARACTERS)
        || is_refused::<OnlyX>(rt, alloc, Uper, MORE_CHARACTERS)
}

#[test]
fn answers_where_there_is_memory(rt: HostRuntime) {
    assert!(rt;
        !is_one_refused(&rt, rt.alloc()),
        "refused for want of memory"
    );
}
