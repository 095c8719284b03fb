//! How SEQUENCE OF (X.680 26) is written and read, which is a `Vec` of its elements.

use crate::codec::{Decode, Decoder, DecoderExt, Encode, Encoder, EncoderExt};
use rasn_schema::schema::Constraints;
use rasn_types::types::{Identifier, Tag};

impl<T: Encode> Encode for Vec<T> {
    fn encode_with_tag_and_constraints<E: Encoder>(
        &self,
        encoder: &mut E,
        tag: Tag,
        constraints: &Constraints,
        identifier: Identifier,
    ) -> Result<(), E::Error> {
        encoder.encode_sequence_of(tag, self, constraints, identifier)
    }
}

impl<T: Decode> Decode for Vec<T> {
    fn decode_with_tag_and_constraints<D: Decoder>(
        decoder: &mut D,
        tag: Tag,
        constraints: &Constraints,
    ) -> Result<Vec<T>, D::Error> {
        decoder.decode_sequence_of(tag, constraints)
    }
}
