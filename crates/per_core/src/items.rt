//! What is counted: octets, bits and characters, each of as many bits (X.691 11.9, 16, 17, 30.5).

ghost use Rattle.std.specs.Prelude.{◌≡◌};
ghost use Rattle.per_core.specs.Counts.{is_aligned, counted_of, bits_of};

/// What is counted.
#[derive(Clone, Copy)]
pub enum Item {
    /// Octets.
    Octet,
    /// Bits.
    Bit,
    /// Characters of so many bits each.
    Character(u32),
}

impl Item {
    /// How many bits an item has.
    pub fn width(self) -> u128
        ensures { result ≡ bits_of self }
    {
        match self {
            Item::Octet => 8,
            Item::Bit => 1,
            Item::Character(width) => u128::from(width),
        }
    }

    /// Whether items begin on an octet in the aligned variant, after a count above 0 from `least` to `most`
    /// (X.691 16.9 to 16.11, 17.6 to 17.8, 30.5.6, 30.5.7).
    pub fn is_aligned(self, least: usize, most: usize) -> bool
        ensures { result ≡ is_aligned (counted_of self) least most }
    {
        let is_fixed = least == most;
        match self {
            Item::Octet => !(is_fixed && most <= 2),
            Item::Bit => !(is_fixed && most <= 16),
            Item::Character(width) => {
                let bits = most as u128 * u128::from(width);
                if is_fixed { 16 < bits } else { 16 <= bits }
            }
        }
    }
}
