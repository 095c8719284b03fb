//! The parts that both variants share: complete encodings (X.691 11.1), the encoder and the decoder.

pub use per_bits::ended::{Surplus, ended};
pub use per_bits::per::complete;
pub use per_de as de;
pub use per_de::{Decoder, DecoderOptions};
pub use per_enc as enc;
pub use per_enc::{Encoder, EncoderOptions};
