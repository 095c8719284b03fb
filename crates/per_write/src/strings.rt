//! Strings (X.691 16, 17 and 30).

ghost use Rattle.std.specs.Prelude.{◌≡◌, IsTrue, false};
ghost use Rattle.std.specs.Option.{unwrap_or};
ghost use Rattle.rasn_types.specs.Values.{bits, characters, octets};
ghost use Rattle.rasn_traits.specs.Calls.{Writes};
ghost use Rattle.rasn_constraints.specs.Constraints.{size_in};
ghost use Rattle.rasn_schema.specs.Forms.{bit_schema, character_schema, named_bit_schema, octet_schema};
ghost use Rattle.rasn_schema.specs.Normal.{normal};
ghost use Rattle.rasn_schema.specs.Schemas.{Schema};
ghost use Rattle.per_write.specs.Items.{IsOnlySize};
ghost use Rattle.per_write.specs.Rules.{encoder_rules};

use crate::Writer;
use crate::error::EncodeError;
use crate::items::{Characters, Octets};
use rasn_schema::constraints::{Bounded, Extensible};
use rasn_schema::schema::Constraints;
use rasn_schema::strings::alphabet_under;
use rasn_strings::strings::StaticPermittedAlphabet;
use rasn_types::bit_string::BitString;
use rasn_types::types::Codec;
use std::alloc::Allocator;

impl<A: Allocator + Clone> Writer<A> {
    /// Writes an OCTET STRING under constraints (X.691 17).
    #[inline(always)]
    pub fn put_octet_string(
        &mut self,
        constraints: &Constraints,
        value: &[u8],
    ) -> Result<(), EncodeError>
        requires { self.old.failed ≡ false }
        ensures { Writes encoder_rules (octet_schema constraints.now) (octets value.now) self.old result self.new }
    {
        let size = constraints.size();
        if self.codec == Codec::Uper && is_only_size(size, value.len()) {
            return self.put_bare_octets(value);
        }
        if size.is_none() {
            return self.put_octets(value);
        }
        self.put_counted(size, &Octets(value))
    }

    /// Writes a BIT STRING under constraints (X.691 16).
    pub fn put_bit_string(
        &mut self,
        constraints: &Constraints,
        value: &BitString,
    ) -> Result<(), EncodeError>
        requires { self.old.failed ≡ false }
        ensures { Writes encoder_rules (bit_schema constraints.now) (bits value.now) self.old result self.new }
    {
        self.put_counted(constraints.size(), value)
    }

    /// Writes a BIT STRING under constraints whose bits have names (X.691 16.2): without the zero bits at its end, and
    /// then with zero bits up to the size's lower bound.
    pub fn put_named_bits(
        &mut self,
        constraints: &Constraints,
        value: &BitString,
    ) -> Result<(), EncodeError>
        requires { self.old.failed ≡ false }
        ensures { let schema = named_bit_schema constraints.now in
            Writes encoder_rules schema (normal schema (bits value.now)) self.old result self.new }
    {
        let size = constraints.size();
        let bits = value.trimmed_to(least_count(size));
        let bits = self.unless_out_of_memory(bits)?;
        self.put_counted(size, &bits)
    }

    /// Writes a string of a known-multiplier type under constraints (X.691 30.5).
    pub fn put_characters<S: StaticPermittedAlphabet>(
        &mut self,
        constraints: &Constraints,
        value: &S,
    ) -> Result<(), EncodeError>
        requires { self.old.failed ≡ false }
        ensures { Writes encoder_rules (character_schema S.alphabet constraints.now)
            (characters (S.characters value.now)) self.old result self.new }
    {
        let characters = Characters {
            string: value,
            alphabet: alphabet_under::<S>(constraints, self.codec),
        };
        self.put_counted(constraints.size(), &characters)
    }
}

/// The lower bound of a size, 0 where there is none.
fn least_count(size: Option<Extensible<Bounded<usize>>>) -> usize
    ensures { result ≡ unwrap_or (size_in size).least 0 }
{
    let stated = size.unwrap_or(Extensible::new(Bounded::None));
    stated.constraint.start_and_end().0.unwrap_or(0)
}

/// Whether a size is this count alone, and below 65536: no bits of the unaligned variant say then how many there are
/// (X.691 17.6, 17.7). Where the constraints are a constant, so is the answer, but for the count.
#[inline(always)]
fn is_only_size(size: Option<Extensible<Bounded<usize>>>, count: usize) -> bool
    ensures { IsTrue result → IsOnlySize size count }
{
    let Some(size) = size else {
        return false;
    };
    let (Some(lower), Some(upper)) = size.constraint.start_and_end() else {
        return false;
    };
    !size.extensible && lower == count && upper == count && count < 65536
}
