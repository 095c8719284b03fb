//! The traits of values that are encoded and decoded, and those of encoders and decoders.

pub use rasn_additions::{AdditionValue, ExtensionDecoder, ExtensionEncoder};
pub use rasn_codec::boxed::boxed;
pub use rasn_codec::codec::{
    Decode, DecodeChoice, Decoder, DecoderExt, Encode, Encoder, EncoderExt, FromTag,
};
pub use rasn_sets::codec::{SetOfDecoder, SetOfEncoder};
pub use rasn_sets::set_decoder::SetDecoder;
pub use rasn_traits::parts::{DecodeAdditions, EncodeAdditions};
