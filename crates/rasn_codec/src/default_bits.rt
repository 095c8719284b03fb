//! Defaults of BIT STRING (X.680 22).

ghost use Rattle.std.specs.Prelude.{◌≡◌};
ghost use Rattle.std.specs.Bool.{beq};
ghost use Rattle.std.specs.Cmp.Lexicographic.{pointwise};
ghost use Rattle.std.specs.Option.{unwrap_or};
ghost use Rattle.rasn_types.specs.Bits.{filled_up, trimmed};
ghost use Rattle.rasn_types.specs.Values.{bits};
ghost use Rattle.rasn_schema.specs.Forms.{size_of};

use crate::defaults::DefaultOf;
use rasn_constraints::constraints::{Bounded, Extensible};
use rasn_schema::schema::Constraints;
use rasn_types::bit_string::BitString;
use rasn_types::named_bits::NamedBits;
use std::alloc::{AllocError, Global};

/// Bits, as a default of BIT STRING: `Bits([true, false])`. Of one whose bits have names they are those of the normal
/// form: without zero bits at their end, but as many as the size asks for (X.680 22.7; X.691 16.2).
#[derive(Clone, Copy, Debug)]
pub struct Bits<const N: usize>(pub [bool; N]);

impl<const N: usize> DefaultOf<BitString> for Bits<N> {
    ghost default = { λ d. bits d.0 };

    fn stands_for(&self, component: &BitString, _constraints: &Constraints) -> bool {
        are_bits(component, &self.0)
    }

    fn made(&self, alloc: Global) -> Result<BitString, AllocError> {
        BitString::from_slice(alloc, &self.0)
    }
}

impl<const N: usize> DefaultOf<NamedBits> for Bits<N> {
    ghost default = { λ d. bits d.0 };

    fn stands_for(&self, component: &NamedBits, constraints: &Constraints) -> bool {
        are_filled_up(component.bits(), least_count(constraints), &self.0)
    }

    fn made(&self, alloc: Global) -> Result<NamedBits, AllocError> {
        let bits = BitString::from_slice(alloc, &self.0[..])?;
        Ok(NamedBits::new(bits))
    }
}

/// Whether a bit string holds these bits and no others.
fn are_bits(string: &BitString, bits: &[bool]) -> bool
    ensures { result ≡ pointwise beq string.now bits.now }
{
    if string.len() != bits.len() {
        return false;
    }
    for (index, bit) in bits.iter().enumerate() {
        if string.is_set(index) != *bit {
            return false;
        }
    }
    true
}

/// Whether a bit string without the zero bits at its end, and then with zero bits up to `least` bits, holds these bits
/// and no others.
fn are_filled_up(string: &BitString, least: usize, bits: &[bool]) -> bool
    ensures { result ≡ pointwise beq (filled_up least (trimmed string.now)) bits.now }
{
    if string.trimmed_len().max(least) != bits.len() {
        return false;
    }
    for (place, bit) in bits.iter().enumerate() {
        if string.is_set(place) != *bit {
            return false;
        }
    }
    true
}

/// The lower bound of the size, 0 where there is none.
fn least_count(constraints: &Constraints) -> usize
    ensures { result ≡ unwrap_or (size_of constraints.now).least 0 }
{
    let stated = constraints.size().unwrap_or(Extensible::new(Bounded::None));
    stated.constraint.start_and_end().0.unwrap_or(0)
}
