//! Records that are stated by one list of their components: they are written and read by it.

ghost use Rattle.rasn_schema.specs.Components.{added_parts, root_parts};
ghost use Rattle.rasn_traits.specs.Scopes.{TakesFields, WritesFields};

use crate::codec::{Decoder, Encoder};
use crate::kinds::{DecodeKind, EncodeKind};
use rasn_schema::components::{Components, SequenceKind};
use rasn_types::types::{Identifier, Tag};

/// The components of a SEQUENCE that can be encoded and decoded.
pub trait Record: Components + Sized + Drop {
    /// Writes the root components in turn, and then gives the additions.
    fn encode_components<E: Encoder>(&self, encoder: &mut E) -> Result<(), E::Error>
        ensures { WritesFields E.rules (root_parts Self.components.0) (added_parts Self.components.0)
            (Self.depth self.now) (Self.Components.contents self.now) (Self.Components.added self.now)
            encoder.old result encoder.new };

    /// Reads the root components in turn, and then the additions.
    fn decode_components<D: Decoder>(decoder: &mut D) -> Result<Self, D::Error>
        ensures { TakesFields D.rules (root_parts Self.components.0) (added_parts Self.components.0)
            Self.Components.contents Self.Components.added decoder.old result decoder.new };
}

impl<T: Record> EncodeKind<T> for SequenceKind {
    fn encode_value<E: Encoder>(
        value: &T,
        encoder: &mut E,
        tag: Tag,
        identifier: Identifier,
    ) -> Result<(), E::Error> {
        let outside = encoder.open_fields::<T>(tag, identifier)?;
        value.encode_components(encoder)?;
        encoder.close_fields::<T>(outside)
    }
}

impl<T: Record> DecodeKind<T> for SequenceKind {
    fn decode_value<D: Decoder>(decoder: &mut D, tag: Tag) -> Result<T, D::Error> {
        let outside = decoder.open_fields::<T>(tag)?;
        let decoded = T::decode_components(decoder);
        if decoded.is_err() {
            return decoded;
        }
        decoder.close_fields::<T>(outside)?;
        decoded
    }
}
