//! Whole numbers under bounds (X.691 11.5, 11.7 and 13.2).

ghost use Rattle.std.specs.Prelude.{◌≡◌, ◌+◌, ◌*◌, ◌%◌, ◌^◌, ◌<◌, ◌≤◌, ◌≤ℤ◌, ℤ, true, Some, OnOk};
ghost use Rattle.rasn_types.specs.Bits.{to_bits, natural_bits, octets_of_natural, octets_of_whole, whole_bits, width};
ghost use Rattle.rasn_types.specs.Variants.{variant_of, aligned};
ghost use Rattle.per_core.specs.Writers.{just, padding, ◌▹◌};
ghost use Rattle.per_core.specs.Counts.{constrained_whole, counted_octets, number_under};
ghost use Rattle.rasn_constraints.specs.Bounds.{above, not_above};
ghost use Rattle.per_pieces.specs.Fragments.{counted_number};
ghost use Rattle.per_pieces.specs.Pieces.{Appends, with_bits};

use crate::Pieces;
use crate::lengths::push_padding;
use per_core::number_forms::NumberForm;
use rasn_types::types::Codec;
use rasn_types::width::{width_of, width_to};
use std::alloc::{AllocError, Allocator};

/// Writes a number within bounds of which the lower one is there (X.691 13.2.2, 13.2.3).
#[inline(always)]
pub fn push_above<A: Allocator>(
    pieces: &mut Pieces<A>,
    codec: Codec,
    lower: i128,
    upper: Option<i128>,
    number: i128,
) -> Result<(), AllocError>
    requires lower { lower ≤ℤ number }
    requires upper { not_above upper number ≡ true }
    ensures { OnOk result (Appends pieces.old (number_under (variant_of codec) (Some lower) upper number) pieces.new) }
{
    let offset = distance_above(lower, number);
    match upper {
        Some(upper) => push_constrained_whole(pieces, codec, distance_above(lower, upper), offset),
        None => push_semi_constrained_whole(pieces, codec, offset),
    }
}

/// How far a number is above another, which is no greater (X.691 11.5.3, 11.7.3).
fn distance_above(lower: i128, number: i128) -> u128
    requires { lower ≤ℤ number }
    ensures { result ≡ above lower number }
{
    number.abs_diff(lower)
}

/// Writes one of the numbers from 0 to `greatest`, a constrained whole number above its lower bound (X.691 11.5): in
/// the unaligned variant in the fewest bits that tell these numbers apart.
#[inline(always)]
pub fn push_constrained_whole<A: Allocator>(
    pieces: &mut Pieces<A>,
    codec: Codec,
    greatest: u128,
    offset: u128,
) -> Result<(), AllocError>
    requires { offset ≤ greatest }
    ensures { OnOk result (Appends pieces.old (constrained_whole (variant_of codec) (greatest + 1) offset) pieces.new) }
{
    match codec {
        Codec::Aper => push_constrained_whole_aligned(pieces, greatest, offset),
        Codec::Uper => push_in_fewest_bits(pieces, greatest, offset),
    }
}

/// Writes one of the numbers from 0 to `greatest` in the fewest bits that tell these numbers apart.
#[inline(always)]
fn push_in_fewest_bits<A: Allocator>(
    pieces: &mut Pieces<A>,
    greatest: u128,
    offset: u128,
) -> Result<(), AllocError>
    requires { offset ≤ greatest }
    ensures { OnOk result (pieces.new ≡ with_bits pieces.old (to_bits (width (greatest + 1)) offset)) }
{
    if greatest < 1 << 56 {
        let width = width_to(u128::from(greatest as u64));
        return pieces.push_field(offset as u64, width as u32);
    }
    pieces.push_bits(offset, width_to(greatest))
}

/// Writes one of the numbers from 0 to `greatest` in the aligned variant (X.691 11.5.7): of 255 numbers or fewer in
/// bits, of 256 in an octet, of 65536 or fewer in two, and of more in its fewest octets, which their count precedes.
#[inline(never)]
fn push_constrained_whole_aligned<A: Allocator>(
    pieces: &mut Pieces<A>,
    greatest: u128,
    offset: u128,
) -> Result<(), AllocError>
    requires { offset ≤ greatest }
    ensures { OnOk result (Appends pieces.old (constrained_whole aligned (greatest + 1) offset) pieces.new) }
{
    match NumberForm::of(greatest) {
        NumberForm::Bits => pieces.push_bits(offset, width_to(greatest)),
        NumberForm::Octet => push_on_octet(pieces, offset, 8),
        NumberForm::TwoOctets => push_on_octet(pieces, offset, 16),
        NumberForm::Counted => {
            let octets = octet_count(offset);
            pieces.push_bits(octets - 1, u128::from(width_of(octet_count(greatest))))?;
            push_on_octet(pieces, offset, 8 * octets)
        }
    }
}

/// Writes the low `width` bits of a number from the next octet on, in the aligned variant.
fn push_on_octet<A: Allocator>(
    pieces: &mut Pieces<A>,
    number: u128,
    width: u128,
) -> Result<(), AllocError>
    requires { width ≤ 128 }
    ensures { OnOk result (Appends pieces.old (padding aligned ▹ just (to_bits width number)) pieces.new) }
{
    push_padding(pieces, Codec::Aper)?;
    pieces.push_bits(number, width)
}

/// Writes a number that has a lower bound alone, by how far it is above that (X.691 11.7): its fewest octets without
/// sign, after an unconstrained length.
pub fn push_semi_constrained_whole<A: Allocator>(
    pieces: &mut Pieces<A>,
    codec: Codec,
    offset: u128,
) -> Result<(), AllocError>
    ensures { OnOk result (Appends pieces.old (counted_octets (variant_of codec) (natural_bits offset)) pieces.new) }
{
    push_counted(pieces, codec, octet_count(offset) as u32, offset)
}

/// Writes a number without bounds (X.691 11.8): its fewest octets in two's complement, after an unconstrained length.
#[inline(always)]
pub fn push_unconstrained_whole<A: Allocator>(
    pieces: &mut Pieces<A>,
    codec: Codec,
    number: i128,
) -> Result<(), AllocError>
    ensures { OnOk result (Appends pieces.old (counted_octets (variant_of codec) (whole_bits number)) pieces.new) }
{
    push_counted(
        pieces,
        codec,
        whole_octet_count(number),
        number.cast_unsigned(),
    )
}

/// Writes so many octets of a number, after their count as an unconstrained length (X.691 11.9.3.6): up to 6 of them
/// in one field with the octet of their count, which is then of 56 bits at most.
#[inline(always)]
fn push_counted<A: Allocator>(
    pieces: &mut Pieces<A>,
    codec: Codec,
    octets: u32,
    number: u128,
) -> Result<(), AllocError>
    requires few { octets ≤ 16 }
    ensures { OnOk result (Appends pieces.old (counted_number (variant_of codec) octets number) pieces.new) }
{
    push_padding(pieces, codec)?;
    if octets <= 6 {
        return pieces.push_field(after_count(octets, number), 8 + 8 * octets);
    }
    push_in_two_fields(pieces, octets, number)
}

/// Writes so many octets of a number, after their count in an octet.
#[inline(never)]
fn push_in_two_fields<A: Allocator>(
    pieces: &mut Pieces<A>,
    octets: u32,
    number: u128,
) -> Result<(), AllocError>
    requires { octets ≤ 16 }
    ensures { OnOk result (pieces.new
        ≡ with_bits (with_bits pieces.old (to_bits 8 octets)) (to_bits (8 * octets) number)) }
{
    pieces.push_bits(u128::from(octets), 8)?;
    pieces.push_bits(number, u128::from(8 * octets))
}

/// So many octets of a number, after their count in an octet.
#[inline(always)]
fn after_count(octets: u32, number: u128) -> u64
    requires { octets ≤ 6 }
    ensures { result ≡ octets * 2 ^ (8 * octets) + number % 2 ^ (8 * octets) }
{
    let weight: u64 = 1 << (8 * octets);
    let low = (number & u128::from(weight - 1)) as u64;
    u64::from(octets) * weight + low
}

/// How many octets are the fewest for a number without sign (X.691 11.3.6), from 1 to 16.
fn octet_count(number: u128) -> u128
    ensures count { result ≡ octets_of_natural number }
    ensures some { 0 < result }
    ensures few { result ≤ 16 }
{
    width_to(number).div_ceil(8).max(1)
}

/// How many octets are the fewest for a number in two's complement (X.691 11.4.6), from 1 to 16.
#[inline(always)]
fn whole_octet_count(number: i128) -> u32
    ensures count { result ≡ octets_of_whole number }
    ensures few { result ≤ 16 }
{
    let beyond = if number < 0 {
        distance_above(number, -1)
    } else {
        distance_above(0, number)
    };
    width_to(beyond) as u32 / 8 + 1
}
