//! The traits of values that can be encoded and decoded, and those of encoders and decoders.

ghost use Rattle.std.specs.Prelude.{◌≡◌, false};
ghost use Rattle.rasn_traits.specs.Calls.{Encodes, Reads};
ghost use Rattle.rasn_schema.specs.Structures.{no_value, tag_of};
ghost use Rattle.rasn_schema.specs.Choices.{choices_of};
ghost use Rattle.rasn_traits.specs.Choices.{TakesAlternative};

pub use crate::decoder_ext::DecoderExt;
pub use crate::encoder_ext::EncoderExt;
use rasn_schema::choices::Choice;
use rasn_schema::schema::{AsnType, Constraints};
pub use rasn_traits::decoder::Decoder;
pub use rasn_traits::encoder::Encoder;
use rasn_types::types::{Identifier, Tag};

/// A value that can be encoded. A call that answers Ok presents the normal form of the value by its schema, and a
/// call refuses, memory and earlier refusals aside, exactly where that has no encoding.
pub trait Encode: AsnType {
    /// Writes the value under a tag, constraints and a name.
    fn encode_with_tag_and_constraints<E: Encoder>(
        &self,
        encoder: &mut E,
        tag: Tag,
        constraints: &Constraints,
        identifier: Identifier,
    ) -> Result<(), E::Error>
        ensures { Encodes E.rules (Self.schema constraints.now) (Self.levels self.now) (Self.value self.now)
            encoder.old result encoder.new };

    /// Whether there is a value to write: of an `Option`, whether it holds one, and of each other type true.
    fn is_present(&self) -> bool
        ensures { result ≡ false → Self.value self.now ≡ no_value }
    {
        true
    }

    /// Writes the value under its type's own tag, constraints and name.
    final fn encode<E: Encoder>(&self, encoder: &mut E) -> Result<(), E::Error>
        ensures { Encodes E.rules (Self.schema Self.CONSTRAINTS) (Self.levels self.now) (Self.value self.now)
            encoder.old result encoder.new }
    {
        self.encode_with_tag_and_constraints(
            encoder,
            Self::TAG,
            &Self::CONSTRAINTS,
            Self::IDENTIFIER,
        )
    }

    /// Writes the value under a tag, and its type's own constraints and name.
    final fn encode_with_tag<E: Encoder>(&self, encoder: &mut E, tag: Tag) -> Result<(), E::Error>
        ensures { Encodes E.rules (Self.schema Self.CONSTRAINTS) (Self.levels self.now) (Self.value self.now)
            encoder.old result encoder.new }
    {
        self.encode_with_tag_and_constraints(encoder, tag, &Self::CONSTRAINTS, Self::IDENTIFIER)
    }

    /// Writes the value under constraints, and its type's own tag and name.
    final fn encode_with_constraints<E: Encoder>(
        &self,
        encoder: &mut E,
        constraints: &Constraints,
    ) -> Result<(), E::Error>
        ensures { Encodes E.rules (Self.schema constraints.now) (Self.levels self.now) (Self.value self.now)
            encoder.old result encoder.new }
    {
        self.encode_with_tag_and_constraints(encoder, Self::TAG, constraints, Self::IDENTIFIER)
    }
}

/// A value that can be decoded. A call that answers Ok has taken what spells the value by its schema, to the levels
/// left, and a call refuses, memory and earlier refusals aside, exactly where nothing does.
pub trait Decode: AsnType + Sized + Drop {
    /// Reads a value under a tag and constraints.
    fn decode_with_tag_and_constraints<D: Decoder>(
        decoder: &mut D,
        tag: Tag,
        constraints: &Constraints,
    ) -> Result<Self, D::Error>
        ensures { Reads D.rules (Self.schema constraints.now (D.rules.levels decoder.old)) Self.value
            decoder.old result decoder.new };

    /// Reads a value under its type's own tag and constraints.
    final fn decode<D: Decoder>(decoder: &mut D) -> Result<Self, D::Error>
        ensures { Reads D.rules (Self.schema Self.CONSTRAINTS (D.rules.levels decoder.old)) Self.value
            decoder.old result decoder.new }
    {
        Self::decode_with_tag_and_constraints(decoder, Self::TAG, &Self::CONSTRAINTS)
    }

    /// Reads a value under a tag and its type's own constraints.
    final fn decode_with_tag<D: Decoder>(decoder: &mut D, tag: Tag) -> Result<Self, D::Error>
        ensures { Reads D.rules (Self.schema Self.CONSTRAINTS (D.rules.levels decoder.old)) Self.value
            decoder.old result decoder.new }
    {
        Self::decode_with_tag_and_constraints(decoder, tag, &Self::CONSTRAINTS)
    }

    /// Reads a value under its type's own tag and under constraints.
    final fn decode_with_constraints<D: Decoder>(
        decoder: &mut D,
        constraints: &Constraints,
    ) -> Result<Self, D::Error>
        ensures { Reads D.rules (Self.schema constraints.now (D.rules.levels decoder.old)) Self.value
            decoder.old result decoder.new }
    {
        Self::decode_with_tag_and_constraints(decoder, Self::TAG, constraints)
    }
}

/// A CHOICE whose alternatives can be read, each by its tag.
pub trait FromTag: Choice + Sized + Drop {
    /// Reads the alternative that goes by a tag: its own, or the smallest of a nested untagged choice, which is read
    /// whole. The tag is one of `VARIANTS` or of `EXTENDED_VARIANTS`.
    fn from_tag<D: Decoder>(decoder: &mut D, tag: Tag) -> Result<Self, D::Error>
        ensures { TakesAlternative D.rules (choices_of Self.alternatives Self.EXTENDED_VARIANTS Self.added)
            Self.VARIANTS Self.EXTENDED_VARIANTS (tag_of tag) Self.value decoder.old result decoder.new };
}

/// A CHOICE that can be decoded, also by the tag of an alternative: each type that has `FromTag` and `Decode`.
pub trait DecodeChoice: FromTag + Decode {}

impl<T: FromTag + Decode> DecodeChoice for T {}
