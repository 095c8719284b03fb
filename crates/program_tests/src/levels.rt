//! A value of more levels than a decoder reads is written.

use per_samples_c::nest::Nest;
use rasn_per::uper::encode;
use std::alloc::{AllocError, Global};
use std::process::Abort;

/// A value with so many levels inside the first one.
fn nest_with(alloc: Global, further: usize) -> Result<Nest, AllocError> {
    let mut nest = Nest { inner: None };
    for _ in 0..further {
        nest = Nest {
            inner: Some(Box::new(alloc, nest)?),
        };
    }
    Ok(nest)
}

/// Whether a value is written as these octets of the UNALIGNED variant.
fn is_written_as(alloc: Global, value: &Nest, octets: &[u8]) -> bool {
    match encode(alloc, value) {
        Ok(written) => written.as_slice() == octets,
        Err(_) => false,
    }
}

/// A value with so many levels inside the first one is written as these octets of the UNALIGNED variant.
fn expect_written(rt: &impl Abort, alloc: Global, further: usize, octets: &[u8]) {
    match nest_with(alloc, further) {
        Ok(nest) => assert!(rt; is_written_as(alloc, &nest, octets)),
        Err(_) => assert!(rt; false),
    }
}

/// A bit for each of 128 levels inside, and one for the last, which has none (X.691 19.2).
const LEVELS_129: &[u8] = &[
    0xff, 0xff, 0xff, 0xff, 0xff, 0xff, 0xff, 0xff, 0xff, 0xff, 0xff, 0xff, 0xff, 0xff, 0xff, 0xff,
    0x00,
];

// reading them is refused: `per_tests::failures` and `rows/` have them
#[test]
fn writes_a_level_more_than_is_read(rt: HostRuntime) {
    expect_written(&rt, rt.alloc(), 128, LEVELS_129);
}
