//! Whole numbers as two's complement octets (X.690 8.3).

ghost use Rattle.std.specs.Prelude.{◌≡◌, ◌≤◌, false, IfNone, IfOk, IfSome};
ghost use Rattle.rasn_types.specs.Integers.{AreFewest, is_i128};
ghost use Rattle.rasn_types.specs.Bits.{octets_of_whole, signed, signed_octets};

use std::alloc::{AllocError, Allocator};

/// The fewest two's complement octets of a number, highest first (X.690 8.3.2): from 1 to 16 octets.
pub fn signed_octets_of<A: Allocator>(alloc: A, value: i128) -> Result<Vec<u8, A>, AllocError>
    ensures octets { IfOk result (λ octets. octets.items ≡ signed_octets value) }
    ensures fewest { IfOk result (λ octets. AreFewest value octets.items) }
{
    let octets = value.to_be_bytes();
    let skipped = octets.len() - octet_count(value);
    Vec::from_slice(alloc, &octets[skipped..])
}

/// How many octets are the fewest for a number, from 1 to 16: the bits at its front that equal the sign take no room,
/// but for one.
fn octet_count(value: i128) -> usize
    ensures value { result ≡ octets_of_whole value }
    ensures few { result ≤ 16 }
{
    let sign_bits = if value < 0 {
        value.leading_ones()
    } else {
        value.leading_zeros()
    };
    (128 - sign_bits as usize) / 8 + 1
}

/// The number that two's complement octets mean, highest first (X.690 8.3.3), where an `i128` holds it, and else
/// `None`. Octets at the front that only repeat the sign are taken. No octets mean 0.
pub fn whole_of_octets(octets: &[u8]) -> Option<i128>
    ensures some { IfSome result (λ number. number ≡ signed octets.now) }
    ensures none { IfNone result (is_i128 (signed octets.now) ≡ false) }
{
    let mut number: i128 = match octets {
        [first, ..] if *first >= 128 => -1,
        _ => 0,
    };
    for octet in octets {
        number = number.checked_mul(256)? + i128::from(*octet);
    }
    Some(number)
}
