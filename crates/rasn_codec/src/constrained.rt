//! How types under constraints of their own are written and read: as without them, and the constraints come in by
//! `encode` and `decode`.

use crate::codec::{Decode, Decoder, Encode, Encoder};
use rasn_schema::constrained::{Constrained, Limits};
use rasn_schema::schema::Constraints;
use rasn_types::types::{Identifier, Tag};

impl<T: Encode, L: Limits> Encode for Constrained<T, L> {
    fn encode_with_tag_and_constraints<E: Encoder>(
        &self,
        encoder: &mut E,
        tag: Tag,
        constraints: &Constraints,
        identifier: Identifier,
    ) -> Result<(), E::Error> {
        self.value
            .encode_with_tag_and_constraints(encoder, tag, constraints, identifier)
    }
}

impl<T: Decode, L: Limits + Drop> Decode for Constrained<T, L> {
    fn decode_with_tag_and_constraints<D: Decoder>(
        decoder: &mut D,
        tag: Tag,
        constraints: &Constraints,
    ) -> Result<Constrained<T, L>, D::Error> {
        let value = T::decode_with_tag_and_constraints(decoder, tag, constraints)?;
        Ok(Constrained::new(value))
    }
}
