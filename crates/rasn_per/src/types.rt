//! What values are written and read as, as a whole: a type of Rust under constraints, or a type that is data.

ghost use Rattle.std.specs.Prelude.{ℕ};
ghost use Rattle.rasn_types.specs.Values.{Value};
ghost use Rattle.rasn_schema.specs.Schemas.{Schema};
ghost use Rattle.rasn_traits.specs.Calls.{Encodes, Reads};
ghost use Rattle.per_decoding.specs.Rules.{decoder_rules};
ghost use Rattle.per_enc.specs.Rules.{encoding_rules};

use per_de::{DecodeError, Decoder};
use per_enc::{EncodeError, Encoder};
use rasn_codec::codec::{Decode, Encode};
use rasn_schema::constraints::Constraints;
use std::alloc::Allocator;

/// A type that values of `T` are written as.
pub trait EncodeAs<T> {
    // The schema, to a number of levels.
    ghost schema: { Self → ℕ → Schema };

    // How many levels a value takes.
    ghost levels_of: { T → ℕ };

    // The value that is written.
    ghost value_of: { T → Value };

    /// Writes a value of the type by the calls of an encoder.
    fn encode_as<A: Allocator + Clone>(
        &self,
        encoder: &mut Encoder<A>,
        value: &T,
    ) -> Result<(), EncodeError>
        ensures { Encodes encoding_rules (schema self.now) (levels_of value.now) (value_of value.now)
            encoder.old result encoder.new };
}

/// A type that values of `T` are read as.
pub trait DecodeAs<T> {
    // The schema, to a number of levels.
    ghost schema: { Self → ℕ → Schema };

    // The value that is read.
    ghost value_of: { T → Value };

    /// Reads a value of the type by the calls of a decoder.
    fn decode_as(&self, decoder: &mut Decoder<'_>) -> Result<T, DecodeError>
        ensures { Reads decoder_rules (schema self.now (decoder_rules.levels decoder.old)) value_of
            decoder.old result decoder.new };
}

/// A type of Rust, under these constraints.
impl<T: Encode> EncodeAs<T> for Constraints<'_> {
    ghost schema = { λ constraints. T.schema constraints };

    ghost levels_of = { T.levels };

    ghost value_of = { T.value };

    fn encode_as<A: Allocator + Clone>(
        &self,
        encoder: &mut Encoder<A>,
        value: &T,
    ) -> Result<(), EncodeError> {
        value.encode_with_constraints(encoder, self)
    }
}

/// A type of Rust, under these constraints.
impl<T: Decode> DecodeAs<T> for Constraints<'_> {
    ghost schema = { λ constraints. T.schema constraints };

    ghost value_of = { T.value };

    fn decode_as(&self, decoder: &mut Decoder<'_>) -> Result<T, DecodeError> {
        T::decode_with_constraints(decoder, self)
    }
}
