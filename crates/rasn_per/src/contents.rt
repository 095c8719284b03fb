//! Values within octets that are read and written as they are (`EncodingOf`): what they are meant to contain, as an
//! OCTET STRING (CONTAINING T) under a size (X.682 11), and what is put there. The octets are a complete encoding
//! (X.691 11.1) in the variant of the message.

ghost use Rattle.rasn_per.specs.Calls.{Decoded};
ghost use Rattle.rasn_per.specs.Within.{Wraps};

use crate::aper;
use crate::uper::{self, DecodeError, EncodeError};
use rasn_codec::codec::{Decode, Encode};
pub use rasn_codec::contents::{EncodingOf, HoldsOctets};
use rasn_types::types::Codec;
use std::alloc::Global;

/// The octets of a value in a variant, for a component that contains it.
///
/// Refuses with `OutOfMemory` where memory ran out, and else only a value that has no encoding.
pub fn wrap<T: Encode, O: HoldsOctets>(
    alloc: Global,
    codec: Codec,
    value: &T,
) -> Result<EncodingOf<T, O>, EncodeError>
    ensures { Wraps (λ x. O.octets x.octets) codec (T.schema T.CONSTRAINTS) (T.levels value.now) (T.value value.now)
        result }
{
    let octets = match codec {
        Codec::Aper => aper::encode(alloc, value)?,
        Codec::Uper => uper::encode(alloc, value)?,
    };
    Ok(EncodingOf::new(octets))
}

/// The value that a component contains, in the variant of its message: the one of which its octets are an encoding.
///
/// Refuses with `OutOfMemory` where memory ran out, and else only octets that are no encoding of a `T`.
pub fn unwrap<T: Decode, O: HoldsOctets>(
    alloc: Global,
    codec: Codec,
    component: &EncodingOf<T, O>,
) -> Result<T, DecodeError>
    ensures { Decoded codec (T.schema T.CONSTRAINTS) T.value (O.octets component.now.octets) result }
{
    match codec {
        Codec::Aper => aper::decode(alloc, component.as_bytes()),
        Codec::Uper => uper::decode(alloc, component.as_bytes()),
    }
}
