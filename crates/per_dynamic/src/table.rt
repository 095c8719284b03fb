//! A type at a place of a table, as what values are written and read as.

ghost use Rattle.std.specs.Prelude.{◌≡◌};
ghost use Rattle.rasn_dynamic.specs.Types.{schema_at};
ghost use Rattle.rasn_dynamic.specs.Values.{levels_of, value_of};

use per_de::{DecodeError, Decoder};
use per_enc::{EncodeError, Encoder};
use rasn_dynamic::types::{Kind, Types};
use rasn_dynamic::values::Value;
use rasn_dynamic_codec::read::decode_value;
use rasn_dynamic_codec::write::encode_value;
use rasn_per::types::{DecodeAs, EncodeAs};
use std::alloc::Allocator;

/// The type at a place of a table.
#[derive(Drop)]
pub struct TypeAt<'types> {
    /// The table.
    pub kinds: &'types [Kind],
    /// The place.
    pub place: usize,
}

impl<'types> TypeAt<'types> {
    /// The type at a place of a table.
    pub fn new(types: &'types Types, place: usize) -> Self
        ensures table { result.kinds.now ≡ types.now.kinds.items }
        ensures place { result.place ≡ place }
    {
        TypeAt {
            kinds: types.kinds.as_slice(),
            place,
        }
    }
}

impl<'types> EncodeAs<Value> for TypeAt<'types> {
    ghost schema = { λ at. schema_at at.kinds.now at.place };

    ghost levels_of = { levels_of };

    ghost value_of = { value_of };

    fn encode_as<A: Allocator + Clone>(
        &self,
        encoder: &mut Encoder<A>,
        value: &Value,
    ) -> Result<(), EncodeError> {
        encode_value(encoder, self.kinds, self.place, value)
    }
}

impl<'types> DecodeAs<Value> for TypeAt<'types> {
    ghost schema = { λ at. schema_at at.kinds.now at.place };

    ghost value_of = { value_of };

    fn decode_as(&self, decoder: &mut Decoder<'_>) -> Result<Value, DecodeError> {
        decode_value(decoder, self.kinds, self.place)
    }
}
