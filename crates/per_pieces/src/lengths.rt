//! Counts in front of items: unconstrained lengths, and counts within bounds (X.691 11.9.3 and 11.9.4).

ghost use Rattle.std.specs.Prelude.{◌≤◌, ◌<◌, length, OnOk};
ghost use Rattle.rasn_types.specs.Variants.{variant_of};
ghost use Rattle.per_core.specs.Writers.{just, padding};
ghost use Rattle.per_core.specs.Counts.{determinant, unconstrained_octets};
ghost use Rattle.per_pieces.specs.Fragments.{constrained_length, unconstrained_length};
ghost use Rattle.per_pieces.specs.Pieces.{Appends};

use crate::Pieces;
use crate::numbers::push_constrained_whole;
use per_core::lengths::FRAGMENT;
use rasn_types::types::Codec;
use std::alloc::{AllocError, Allocator};

/// Writes how many items follow, which begins on an octet in the aligned variant (X.691 11.9.3.5 to 11.9.3.8).
pub fn push_unconstrained_length<A: Allocator>(
    pieces: &mut Pieces<A>,
    codec: Codec,
    count: usize,
) -> Result<(), AllocError>
    ensures { OnOk result (Appends pieces.old (unconstrained_length (variant_of codec) count) pieces.new) }
{
    push_padding(pieces, codec)?;
    push_determinant(pieces, count)
}

/// Writes octets in one fragment, after their count as an unconstrained length (X.691 11.9.3.6, 11.9.3.7).
pub fn push_counted_octets<A: Allocator>(
    pieces: &mut Pieces<A>,
    codec: Codec,
    octets: &[u8],
) -> Result<(), AllocError>
    requires { length octets.now < 16384 }
    ensures { OnOk result (Appends pieces.old (unconstrained_octets (variant_of codec) octets.now) pieces.new) }
{
    push_unconstrained_length(pieces, codec, octets.len())?;
    pieces.push_octets(octets)
}

/// Writes how many items follow, as a constrained whole number, and the padding in front of items that begin on an
/// octet (X.691 11.9.4.1).
pub fn push_constrained_length<A: Allocator>(
    pieces: &mut Pieces<A>,
    codec: Codec,
    lower: usize,
    upper: usize,
    count: usize,
    on_octet: bool,
) -> Result<(), AllocError>
    requires lower { lower ≤ count }
    requires upper { count ≤ upper }
    ensures { let a = variant_of codec in
        OnOk result (Appends pieces.old (constrained_length a lower upper count on_octet) pieces.new) }
{
    push_constrained_whole(
        pieces,
        codec,
        (upper - lower) as u128,
        (count - lower) as u128,
    )?;
    if on_octet {
        push_padding(pieces, codec)?;
    }
    Ok(())
}

/// Writes zero bits up to a multiple of eight in the aligned variant.
pub fn push_padding<A: Allocator>(pieces: &mut Pieces<A>, codec: Codec) -> Result<(), AllocError>
    ensures { OnOk result (Appends pieces.old (padding (variant_of codec)) pieces.new) }
{
    match codec {
        Codec::Aper => pieces.push_padding(),
        Codec::Uper => Ok(()),
    }
}

/// Writes how many items follow: to 127 in one octet, below 16384 in two, and else how many times 16384 (X.691
/// 11.9.3.6 to 11.9.3.8).
pub fn push_determinant<A: Allocator>(
    pieces: &mut Pieces<A>,
    count: usize,
) -> Result<(), AllocError>
    ensures { OnOk result (Appends pieces.old (just (determinant count)) pieces.new) }
{
    if count < 128 {
        pieces.push_bits(count as u128, 8)
    } else if count < FRAGMENT {
        pieces.push_bits(0b10, 2)?;
        pieces.push_bits(count as u128, 14)
    } else {
        pieces.push_bits(0b1100_0000 + (count / FRAGMENT) as u128, 8)
    }
}
