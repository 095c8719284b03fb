//! Bits that have names (X.680 22.1).

ghost use Rattle.std.specs.Prelude.{◌≡◌, false, get_or};
ghost use Rattle.std.specs.Bool.{beq};
ghost use Rattle.std.specs.Cmp.{bool_eq_equiv, partial_equiv_from_equiv};
ghost use Rattle.std.specs.Cmp.Lexicographic.{lists_equiv, pointwise};

use crate::bit_string::BitString;
use std::marker::Model;

/// The bits of a BIT STRING whose bits have names, each name a bit's place from 0 on (X.680 22.1). Zero bits at their
/// end are no part of the value (22.7): they are kept as they were read, and written as far as the size asks for them
/// (X.691 16.2); `bits().trimmed_to(0)` are the bits without them. A contract speaks of the bits alone.
#[derive(Debug, Drop)]
pub struct NamedBits {
    bits: BitString,
}

impl Model for NamedBits {
    ghost use Rattle.std.specs.Prelude.{List, Bool};

    ghost Value = { List Bool };

    ghost view = { λ a. a.bits };
}

impl NamedBits {
    /// These bits.
    pub fn new(bits: BitString) -> NamedBits
        ensures { result ≡ bits }
    {
        NamedBits { bits }
    }

    /// The bits.
    pub fn bits(&self) -> &BitString
        ensures { result.now ≡ self.now }
    {
        &self.bits
    }

    /// Whether the bit at a place is set, which none is from the length on.
    pub fn is_set(&self, place: usize) -> bool
        ensures { result ≡ get_or self.now place false }
    {
        self.bits.is_set(place)
    }
}

/// Equality of the bits, also of the zero bits at their end.
impl PartialEq for NamedBits {
    ghost eq = { pointwise beq };

    ghost laws = { partial_equiv_from_equiv (lists_equiv bool_eq_equiv) };

    fn eq(&self, other: &NamedBits) -> bool {
        self.bits == other.bits
    }
}
