//! Worked encodings of each type of the program. `tools/refuse_memory` runs the test of each module below with each
//! request for memory refused in turn: it fails each time, and says that this is for want of memory.

mod additions;
mod choices;
mod groups;
mod levels;
mod lists;
mod long;
mod numbers;
mod records;
mod strings;

use crate::each_call::is_any_refused;
use rasn_below::codec::{Decode, Encode};
use rasn_below::types::Codec;
use std::alloc::Global;
use std::process::Abort;

/// Encodings of one type, and the variant of each.
type Rows = &'static [(Codec, &'static [u8])];

/// Whether a call for one of the encodings was refused. None is made after the first row where one was.
fn is_any_row_refused<T: Encode + Decode>(rt: &impl Abort, alloc: Global, rows: Rows) -> bool {
    for (codec, octets) in rows {
        if is_any_refused::<T>(rt, alloc, *codec, octets) {
            return true;
        }
    }
    false
}
