//! How types that state on one page what they list are written and read: by their kind.

ghost use Rattle.rasn_traits.specs.Calls.{Encodes, Reads};

use crate::codec::{Decode, Decoder, Encode, Encoder};
use crate::record::Record;
use rasn_schema::kinds::{Kind, OfKind};
use rasn_schema::schema::Constraints;
use rasn_types::types::{Identifier, Tag};

/// A kind of which a type `T` can be encoded.
pub trait EncodeKind<T>: Kind<T> {
    /// Writes a value under a tag and a name.
    fn encode_value<E: Encoder>(
        value: &T,
        encoder: &mut E,
        tag: Tag,
        identifier: Identifier,
    ) -> Result<(), E::Error>
        ensures { Encodes E.rules Self.schema (Self.levels value.now) (Self.value value.now)
            encoder.old result encoder.new };
}

/// A kind of which a type `T` can be decoded.
pub trait DecodeKind<T>: Kind<T> {
    /// Reads a value under a tag.
    fn decode_value<D: Decoder>(decoder: &mut D, tag: Tag) -> Result<T, D::Error>
        ensures { Reads D.rules (Self.schema (D.rules.levels decoder.old)) Self.value decoder.old result decoder.new };
}

/// A type that is written and read as its kind is: a SEQUENCE by its `Record`, others say so.
pub trait ByKind: OfKind {}

impl<T: Record> ByKind for T {}

impl<T: ByKind> Encode for T
where
    T::Kind: EncodeKind<T>,
{
    fn encode_with_tag_and_constraints<E: Encoder>(
        &self,
        encoder: &mut E,
        tag: Tag,
        _: &Constraints,
        identifier: Identifier,
    ) -> Result<(), E::Error> {
        <T::Kind as EncodeKind<T>>::encode_value(self, encoder, tag, identifier)
    }
}

impl<T: ByKind + Drop> Decode for T
where
    T::Kind: DecodeKind<T>,
{
    fn decode_with_tag_and_constraints<D: Decoder>(
        decoder: &mut D,
        tag: Tag,
        _: &Constraints,
    ) -> Result<T, D::Error> {
        <T::Kind as DecodeKind<T>>::decode_value(decoder, tag)
    }
}
