//! What both variants share.

ghost use Rattle.std.specs.Prelude.{◌≡◌, ◌≤◌, ◌*◌, length};

use crate::decoder::Located;
use crate::encoder;
use crate::refusal::{EncodeRefusal, Refusal};
use per_bits::BitReader;
use per_de::{Decoder, DecoderOptions};
use per_enc::{EncodeErrorKind, Encoder, EncoderOptions};
use per_read::error::DecodeErrorKind;
use rasn_codec::codec::{Decode, Encode};
use rasn_traits::decoder;
use std::alloc::Global;

/// The refusal of octets for what was wrong with them, with the variant and the place in which a decoder stands when it
/// refuses them.
pub(crate) fn refusal<T: Decode>(
    alloc: Global,
    options: DecoderOptions,
    octets: &[u8],
    kind: DecodeErrorKind,
) -> Refusal
    ensures kind { result.kind ≡ kind }
    ensures codec { result.codec ≡ options.codec }
    ensures bits { result.bits ≡ 8 * length octets.now }
    ensures within { result.bit ≤ result.bits }
{
    let bits = BitReader::from_octets(octets).len();
    let inner = Decoder::from_octets(alloc, octets, options);
    let mut located = Located::new(inner, bits);
    let _ = T::decode(&mut located);
    let codec = decoder::Decoder::codec(&located);
    let (path, bit) = located.into_place();
    Refusal {
        kind,
        codec,
        path,
        bit: bit.min(bits),
        bits,
    }
}

/// The refusal of a value for what was wrong with it, with the variant and the component in which an encoder refuses
/// it.
pub(crate) fn encode_refusal<T: Encode>(
    alloc: Global,
    options: EncoderOptions,
    value: &T,
    kind: EncodeErrorKind,
) -> EncodeRefusal
    ensures kind { result.kind ≡ kind }
    ensures codec { result.codec ≡ options }
{
    let inner = Encoder::new(alloc, options);
    let mut located = encoder::Located::new(alloc, inner);
    let _ = value.encode(&mut located);
    let codec = rasn_traits::encoder::Encoder::codec(&located);
    let path = located.into_path(alloc);
    EncodeRefusal { kind, codec, path }
}
