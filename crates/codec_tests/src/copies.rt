//! Copies of a message that holds values of ASN.1's types: `Clone` is derived.

use crate::expected::expect_equal;
use rasn_below::types::{BitString, Integer, ObjectIdentifier, SetOf};
use std::alloc::Global;
use std::process::Abort;

/// A message whose parts take memory.
#[derive(Clone, PartialEq, Debug, Drop)]
struct Message {
    number: Integer,
    object: ObjectIdentifier,
    bits: BitString,
    bag: SetOf<Integer>,
}

/// 2^127, which no `i128` holds.
const LARGE: &[u8] = &[0x00, 0x80, 0, 0, 0, 0, 0, 0, 0, 0, 0, 0, 0, 0, 0, 0, 0];

fn large(rt: &impl Abort, alloc: Global) -> Integer {
    Integer::from_signed_octets(alloc, LARGE).expect(rt, "memory")
}

/// A bag of a small number and a large one.
fn bag(rt: &impl Abort, alloc: Global) -> SetOf<Integer> {
    let members = [Integer::from(7u8), large(rt, alloc)];
    SetOf::from_vec(Vec::from_array(alloc, members).expect(rt, "memory"))
}

/// A message.
fn make_message(rt: &impl Abort, alloc: Global) -> Message {
    Message {
        number: large(rt, alloc),
        object: ObjectIdentifier::from_slice(alloc, &[2, 999, 3]).expect(rt, "memory"),
        bits: BitString::from_slice(alloc, &[true, false, true]).expect(rt, "memory"),
        bag: bag(rt, alloc),
    }
}

#[test]
fn copies_a_message(rt: HostRuntime) {
    let message = make_message(&rt, rt.alloc());
    let copy = message.clone().expect(&rt, "memory");
    expect_equal(&rt, &copy, &message);
}
