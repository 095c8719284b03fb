//! How an encoder writes.

ghost use Rattle.std.specs.Prelude.{◌≡◌};
ghost use Rattle.rasn_types.specs.declared.types.Codec.TheVariants.{Aper, Uper};

use rasn_types::types::Codec;
use std::marker::Model;

/// How an encoder writes: the variant in use.
#[derive(Clone, Copy, Debug)]
pub struct EncoderOptions {
    pub(crate) codec: Codec,
}

impl Model for EncoderOptions {
    ghost use Rattle.rasn_types.specs.declared.types.Codec.{Codec};

    ghost Value = { Codec };

    ghost view = { λ a. a.codec };

    ghost inverse = { λ c. record { codec = c } };
}

impl EncoderOptions {
    /// The ALIGNED variant (X.691 7).
    pub const fn aligned() -> Self
        ensures { result ≡ Aper }
    {
        EncoderOptions { codec: Codec::Aper }
    }

    /// The UNALIGNED variant (X.691 7).
    pub const fn unaligned() -> Self
        ensures { result ≡ Uper }
    {
        EncoderOptions { codec: Codec::Uper }
    }
}

impl Default for EncoderOptions {
    ghost is_default = { λ o. o ≡ Uper };

    fn default() -> Self {
        EncoderOptions::unaligned()
    }
}
