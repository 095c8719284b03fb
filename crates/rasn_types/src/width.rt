//! How many bits tell numbers apart.

ghost use Rattle.std.specs.Prelude.{◌≡◌, ◌+◌, ◌≤◌};
ghost use Rattle.rasn_types.specs.Bits.{width};

/// The bits that tell `count` values apart: the least w with 2^w at least `count` (X.691 11.5.6). None and one value
/// take no bits, 2^128 - 1 take 128.
pub fn width_of(count: u128) -> u32
    ensures width { result ≡ width count }
    ensures few { result ≤ 128 }
{
    match count.checked_sub(1) {
        Some(last) => 128 - last.leading_zeros(),
        None => 0,
    }
}

/// The bits that tell the numbers from 0 to `greatest` apart (X.691 11.5.6), at most 128.
pub fn width_to(greatest: u128) -> u128
    ensures width { result ≡ width (greatest + 1) }
    ensures few { result ≤ 128 }
{
    128 - u128::from(greatest.leading_zeros())
}
