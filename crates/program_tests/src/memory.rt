//! That want of memory is named so, and which calls take none.

use linked_list_allocator::LocalHeap;
use rasn_below::codec::Encoder as _;
use rasn_below::types::{Codec, Identifier, OctetString, Tag};
use rasn_per::per::{Encoder, EncoderOptions};
use rasn_per::uper::{EncodeError, EncodeErrorKind, decode, encode, encode_buf};
use std::alloc::{AllocError, Allocator, Global};
use std::test::Fail;

const NO_MEMORY: EncodeError = EncodeError {
    kind: EncodeErrorKind::OutOfMemory,
    codec: Codec::Uper,
};

/// Why an INTEGER is not written into a heap of so many octets, or none where it is.
fn refusal_within(alloc: Global, size: usize) -> Result<Option<EncodeError>, AllocError> {
    let heap = LocalHeap::new(alloc, size)?;
    Ok(encode(&heap, &4096_i128).err())
}

#[test]
fn names_want_of_memory(rt: HostRuntime) -> Result<(), Fail> {
    let (mut refused, mut written) = (0, 0);
    for size in 1..64_usize {
        let error = refusal_within(rt.alloc(), 16 * size)?;
        if error.is_none() {
            written = size;
        } else {
            assert_eq!(rt; error, Some(NO_MEMORY));
            refused = size;
        }
    }
    assert!(rt; 0 < refused && refused < written);
    Ok(())
}

/// Whether octets are written in a buffer of 112 octets that leaves its heap no room for them.
fn is_written_in_its_buffer(alloc: Global, octets: &OctetString) -> Result<bool, AllocError> {
    let heap = LocalHeap::new(alloc, 144)?;
    let mut buffer = Vec::with_capacity(&heap, 112)?;
    Ok(encode_buf(octets, &mut buffer).is_ok() && buffer.len() == 33)
}

#[test]
fn writes_in_the_memory_of_a_buffer(rt: HostRuntime) -> Result<(), Fail> {
    let octets = OctetString::new(Vec::from_slice(rt.alloc(), &[0x55; 32])?);
    let is_written = is_written_in_its_buffer(rt.alloc(), &octets)?;
    assert!(rt; is_written);
    Ok(())
}

/// Puts the octets of TRUE behind what a buffer holds.
fn put_onto<A: Allocator + Clone>(
    encoder: &mut Encoder<A>,
    buffer: &mut Vec<u8, A>,
) -> Result<(), EncodeError> {
    encoder.encode_bool(Tag::BOOL, true, Identifier::EMPTY)?;
    encoder.output_onto(buffer)
}

/// Octets, each in memory of its own, that leave a heap no room.
fn filled<A: Allocator + Clone>(alloc: Global, heap: A) -> Result<Vec<Vec<u8, A>>, AllocError> {
    let mut octets = Vec::new(alloc);
    for _ in 0..512 {
        let Ok(octet) = Vec::from_slice(heap.clone()?, &[0]) else {
            break;
        };
        octets.push(octet)?;
    }
    Ok(octets)
}

/// What a buffer holds after an encoder was used twice, the second time where its heap has no room left, and why
/// another writes nothing there.
fn used_twice<A: Allocator + Clone>(
    alloc: Global,
    heap: A,
) -> Result<(Vec<u8, A>, Option<EncodeError>), Fail> {
    let mut buffer = Vec::from_slice(heap.clone()?, &[0x01])?;
    let mut encoder = Encoder::new(heap.clone()?, EncoderOptions::unaligned());
    put_onto(&mut encoder, &mut buffer)?;
    let _octets = filled(alloc, heap.clone()?)?;
    let refused = encode(heap, &true).err();
    put_onto(&mut encoder, &mut buffer)?;
    Ok((buffer, refused))
}

#[test]
fn an_encoder_that_is_used_again_asks_for_no_memory(rt: HostRuntime) -> Result<(), Fail> {
    let heap = LocalHeap::new(rt.alloc(), 512)?;
    let (buffer, refused) = used_twice(rt.alloc(), &heap)?;
    assert_eq!(rt; buffer.as_slice(), [0x01, 0x80, 0x80].as_slice());
    assert_eq!(rt; refused, Some(NO_MEMORY));
    Ok(())
}

// `tools/refuse_memory` runs this test with its first request for memory refused, and it passes there too.
#[test]
fn reads_plain_values_without_memory(rt: HostRuntime) -> Result<(), Fail> {
    let first: bool = decode(rt.alloc(), &[0x80])?;
    let second: bool = decode(rt.alloc(), &[0x00])?;
    decode::<()>(rt.alloc(), &[0x00])?;
    assert_eq!(rt; (first, second), (true, false));
    Ok(())
}

// And this one, which fails there.
#[test]
fn reads_octets_into_memory(rt: HostRuntime) -> Result<(), Fail> {
    let octets: OctetString = decode(rt.alloc(), &[0x01, 0xaa])?;
    assert_eq!(rt; octets.as_bytes(), [0xaa].as_slice());
    Ok(())
}
