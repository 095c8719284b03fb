//! The UNALIGNED variant.

ghost use Rattle.std.specs.Prelude.{◌≡◌, ◌≤◌, ◌*◌, length, IfErr};
ghost use Rattle.rasn_types.specs.declared.types.Codec.TheVariants.{Uper};
ghost use Rattle.rasn_per.specs.Calls.{Decoded, Encoded, AnswersFew};
ghost use Rattle.per_located.specs.LocatedRefusals.{IsPlaced, pathless, unplaced};

use crate::refusal::{EncodeRefusal, Refusal};
use crate::tracing::{encode_refusal, refusal};
use per_de::DecoderOptions;
use per_enc::EncoderOptions;
use rasn_codec::codec::{Decode, Encode};
use rasn_per::uper;
use std::alloc::Global;

/// The canonical octets of a value, as `rasn_per::uper::encode` answers them; or why it was refused, and where.
pub fn encode<T: Encode>(alloc: Global, value: &T) -> Result<Vec<u8>, EncodeRefusal>
    ensures { Encoded Uper (T.schema T.CONSTRAINTS) (T.levels value.now) (T.value value.now) (pathless result) }
{
    match uper::encode(alloc, value) {
        Ok(octets) => Ok(octets),
        Err(error) => Err(encode_refusal(alloc, EncoderOptions::unaligned(), value, error.kind)),
    }
}

/// The value that all octets spell, as `rasn_per::uper::decode` answers it; or why they were refused, and where.
pub fn decode<T: Decode>(alloc: Global, octets: &[u8]) -> Result<T, Refusal>
    ensures decoded { Decoded Uper (T.schema T.CONSTRAINTS) T.value octets.now (unplaced result) }
    ensures few { AnswersFew (T.schema T.CONSTRAINTS) T.value octets.now (unplaced result) }
    ensures place { IfErr result (IsPlaced octets.now) }
{
    match uper::decode::<T>(alloc, octets) {
        Ok(value) => Ok(value),
        Err(error) => Err(refusal::<T>(alloc, DecoderOptions::unaligned(), octets, error.kind)),
    }
}
