//! Both variants, by a codec that is known at run time.

ghost use Rattle.rasn_dynamic.specs.Types.{schema_at};
ghost use Rattle.rasn_dynamic.specs.Values.{levels_of, value_of};
ghost use Rattle.rasn_per.specs.Calls.{Decoded, Encoded};

use crate::{aper, uper};
use per_de::DecodeError;
use per_enc::EncodeError;
use rasn_dynamic::types::Types;
use rasn_dynamic::values::Value;
use rasn_types::types::Codec;
use std::alloc::Global;

/// The value of the type at a place of a table that all octets spell, in the variant of a codec, as its `decode` says.
pub fn decode(
    alloc: Global,
    codec: Codec,
    types: &Types,
    place: usize,
    octets: &[u8],
) -> Result<Value, DecodeError>
    ensures { Decoded codec (schema_at types.now.kinds.items place) value_of octets.now result }
{
    match codec {
        Codec::Aper => aper::decode(alloc, types, place, octets),
        Codec::Uper => uper::decode(alloc, types, place, octets),
    }
}

/// The canonical octets of a value of the type at a place of a table, in the variant of a codec, as its `encode` says.
pub fn encode(
    alloc: Global,
    codec: Codec,
    types: &Types,
    place: usize,
    value: &Value,
) -> Result<Vec<u8>, EncodeError>
    ensures { Encoded codec (schema_at types.now.kinds.items place) (levels_of value.now) (value_of value.now) result }
{
    match codec {
        Codec::Aper => aper::encode(alloc, types, place, value),
        Codec::Uper => uper::encode(alloc, types, place, value),
    }
}
