//! What is told of octets and of values that are refused.

use per_read::error::DecodeErrorKind;
use per_ways::Path;
use per_write::error::EncodeErrorKind;
use rasn_types::types::Codec;
use std::fmt;

/// Why octets were refused, and where. Where memory ran out on the way there, path and bit are those where that
/// happened; where it ran out for the path, that is empty.
#[derive(Debug, Drop, PartialEq, Eq)]
pub struct Refusal {
    /// What was wrong.
    pub kind: DecodeErrorKind,
    /// The variant in which they were read.
    pub codec: Codec,
    /// The component that was refused: the innermost one that had begun.
    pub path: Path,
    /// How many bits are in front of where the reader stood: of the field that was refused, of what is left over
    /// after the last one, or of the end of a list whose size doesn't allow its count. Within an open type in
    /// fragments, which is nowhere as a whole, they are those in front of its first length.
    pub bit: u128,
    /// How many bits the octets have.
    pub bits: u128,
}

/// Prints the kind's name and the place, such as `Incomplete at nas-PDU, bit 1190 of 1200`.
impl fmt::Display for Refusal {
    fn fmt<W: fmt::Write>(&self, f: &mut fmt::Formatter<W>) -> fmt::Result {
        let (bit, bits) = (self.bit, self.bits);
        f.write_str(self.kind.name())?;
        f.write_str(" at ")?;
        if !self.path.steps.is_empty() {
            write!(f, "{}, ", self.path)?;
        }
        write!(f, "bit {bit} of {bits}")
    }
}

/// Why a value was refused, and where. Where memory ran out on the way there, the path is that to where it did; where
/// it ran out for the path, that is empty.
#[derive(Debug, Drop, PartialEq)]
pub struct EncodeRefusal {
    /// What was wrong.
    pub kind: EncodeErrorKind,
    /// The variant in which it was written.
    pub codec: Codec,
    /// The component that was refused: the innermost one that had begun.
    pub path: Path,
}

/// Prints what was wrong and the path, such as `17 is not in 0..16 at lane`.
impl fmt::Display for EncodeRefusal {
    fn fmt<W: fmt::Write>(&self, f: &mut fmt::Formatter<W>) -> fmt::Result {
        write!(f, "{}", self.kind)?;
        if !self.path.steps.is_empty() {
            write!(f, " at {}", self.path)?;
        }
        Ok(())
    }
}
