//! Why bits are no complete encoding (X.691 11.1).

/// Why bits that were read are no complete encoding.
#[derive(Clone, Copy, Debug, PartialEq, Eq)]
pub enum Surplus {
    /// There are no bits, where a value of no bits takes one octet: the number of bits missing.
    Missing(u128),
    /// The one octet of a value of no bits isn't zero.
    NonzeroOctet,
    /// The spare bits after a value aren't zero, where they must be.
    NonzeroSpareBits,
    /// Whole octets are left over: their number.
    ExtraOctets(u128),
}
