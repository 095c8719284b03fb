//! Normally small non-negative whole numbers (X.691 11.6).

ghost use Rattle.std.specs.Prelude.{OnOk};
ghost use Rattle.rasn_types.specs.Variants.{variant_of};
ghost use Rattle.per_core.specs.Counts.{small};
ghost use Rattle.per_pieces.specs.Pieces.{Appends};

use crate::Pieces;
use crate::numbers::push_above;
use rasn_types::types::Codec;
use std::alloc::{AllocError, Allocator};

/// Writes a normally small number: below 64 as a bit 0 and six bits, else as a bit 1 and a number with the lower
/// bound 0.
pub fn push_small<A: Allocator>(
    pieces: &mut Pieces<A>,
    codec: Codec,
    number: usize,
) -> Result<(), AllocError>
    ensures { OnOk result (Appends pieces.old (small (variant_of codec) number) pieces.new) }
{
    if number < 64 {
        return pieces.push_bits(number as u128, 7);
    }
    pieces.push(true)?;
    push_above(pieces, codec, 0, None, number as i128)
}
