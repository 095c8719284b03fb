//! The memory of an encoder and of a decoder: a list of bits that is there already, a heap of another type that runs
//! out, and the allocator that a decoder hands out.

use crate::calls::unaligned;
use crate::expected::{expect_octets, expect_unwritten};
use linked_list_allocator::LocalHeap;
use per_bits::BitList;
use per_enc::{EncodeError, EncodeErrorKind, Encoder, EncoderOptions};
use rasn_below::codec::{Decoder as _, Encoder as AnyEncoder};
use rasn_below::types::{Identifier, Tag};
use std::alloc::{AllocError, Allocator, Global};
use std::test::Fail;

/// Writes TRUE.
fn put<E: AnyEncoder>(encoder: &mut E) -> Result<(), E::Error> {
    encoder.encode_bool(Tag::BOOL, true, Identifier::EMPTY)
}

/// The octets of TRUE by an encoder over a list, and those of what is left after it.
fn outputs_of(list: BitList<Global>) -> Result<(Vec<u8>, Vec<u8>), EncodeError> {
    let mut encoder = Encoder::new_with_output(EncoderOptions::unaligned(), list);
    put(&mut encoder)?;
    let first = encoder.output()?;
    Ok((first, encoder.output()?))
}

#[test]
fn writes_over_a_list_of_bits(rt: HostRuntime) -> Result<(), Fail> {
    let list = BitList::from_octets(rt.alloc(), &[0xff, 0xff])?;
    let (first, second) = outputs_of(list)?;
    expect_octets(&rt, first.as_slice(), &[0x80]);
    expect_octets(&rt, second.as_slice(), &[0x00]);
    Ok(())
}

/// The first refusal of one of many truth values.
fn until_refused<E: AnyEncoder>(encoder: &mut E) -> Option<E::Error> {
    for _ in 0..4096 {
        if let Err(refused) = put(encoder) {
            return Some(refused);
        }
    }
    None
}

/// Why an encoder writes no more truth values in memory that runs out, and why it has no output then.
fn refusals_in<A: Allocator + Clone>(alloc: A) -> (Option<EncodeError>, Option<EncodeError>) {
    let mut encoder = Encoder::new(alloc, EncoderOptions::unaligned());
    let first = until_refused(&mut encoder);
    (first, encoder.output_into_vec().err())
}

#[test]
fn refuses_once_memory_ran_out(rt: HostRuntime) -> Result<(), AllocError> {
    let heap = LocalHeap::new(rt.alloc(), 512)?;
    let (first, second) = refusals_in(&heap);
    expect_unwritten(&rt, first, EncodeErrorKind::OutOfMemory);
    expect_unwritten(&rt, second, EncodeErrorKind::AlreadyFailed);
    Ok(())
}

#[test]
fn a_decoder_hands_out_its_allocator(rt: HostRuntime) -> Result<(), AllocError> {
    let decoder = unaligned(rt.alloc(), &[]);
    let octets = Vec::from_slice(decoder.alloc(), &[0x01, 0x02])?;
    expect_octets(&rt, octets.as_slice(), &[0x01, 0x02]);
    Ok(())
}
