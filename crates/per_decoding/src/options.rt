//! What a decoder is told.

ghost use Rattle.std.specs.Prelude.{◌≡◌, true, false};
ghost use Rattle.rasn_types.specs.declared.types.Codec.TheVariants.{Aper, Uper};
ghost use Rattle.per_decoding.specs.State.{Options};

use per_read::ReaderOptions;
use rasn_types::types::Codec;
use std::marker::Model;

/// What a decoder is told: the variant of the rules, how deep values may be inside one another, and whether padding
/// must be zero.
#[derive(Clone, Copy, Debug)]
pub struct DecoderOptions {
    codec: Codec,
    levels: u32,
    zero_padding: bool,
}

impl Model for DecoderOptions {
    ghost Value = { Options };

    ghost view = { λ o. record { codec = o.codec; levels = o.levels; zero_padding = o.zero_padding } };

    ghost inverse = { λ v. record { codec = v.codec; levels = v.levels; zero_padding = v.zero_padding } };
}

impl DecoderOptions {
    /// The ALIGNED variant (X.691 7), 128 levels, and any padding.
    pub const fn aligned() -> Self
        ensures { result ≡ record { codec = Aper; levels = 128; zero_padding = false } }
    {
        DecoderOptions::of_codec(Codec::Aper)
    }

    /// The UNALIGNED variant (X.691 7), 128 levels, and any padding.
    pub const fn unaligned() -> Self
        ensures { result ≡ record { codec = Uper; levels = 128; zero_padding = false } }
    {
        DecoderOptions::of_codec(Codec::Uper)
    }

    /// The variant of a codec, 128 levels, and any padding.
    const fn of_codec(codec: Codec) -> Self
        ensures { result ≡ record { codec = codec; levels = 128; zero_padding = false } }
    {
        DecoderOptions {
            codec,
            levels: 128,
            zero_padding: false,
        }
    }

    /// These options, but padding and spare bits must be zero (X.691 11.1, 11.2), and others are refused with
    /// `ParserFail`.
    pub const fn zero_padding(self) -> Self
        ensures { result ≡ record self { zero_padding = true } }
    {
        DecoderOptions {
            zero_padding: true,
            ..self
        }
    }

    /// Whether padding and spare bits must be zero.
    pub const fn needs_zero_padding(self) -> bool
        ensures { result ≡ self.zero_padding }
    {
        self.zero_padding
    }

    /// How deep values may be inside one another.
    pub const fn levels(self) -> u32
        ensures { result ≡ self.levels }
    {
        self.levels
    }

    /// What its reader is told.
    pub fn reader(self) -> ReaderOptions
        ensures { result ≡ record { codec = self.codec; zero_padding = self.zero_padding } }
    {
        ReaderOptions {
            codec: self.codec,
            zero_padding: self.zero_padding,
        }
    }
}
