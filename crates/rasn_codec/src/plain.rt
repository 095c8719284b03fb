//! How the plain types are written and read: BOOLEAN and NULL as Rust's own types.

use crate::codec::{Decode, Decoder, Encode, Encoder};
use rasn_schema::schema::Constraints;
use rasn_types::types::{Identifier, Tag};

impl Encode for bool {
    #[inline(always)]
    #[tactic(auto, unfolding(rasn_schema::specs::Normal::normal))]
    fn encode_with_tag_and_constraints<E: Encoder>(
        &self,
        encoder: &mut E,
        tag: Tag,
        constraints: &Constraints,
        identifier: Identifier,
    ) -> Result<(), E::Error> {
        let _ = constraints;
        encoder.encode_bool(tag, *self, identifier)
    }
}

impl Decode for bool {
    #[inline(always)]
    fn decode_with_tag_and_constraints<D: Decoder>(
        decoder: &mut D,
        tag: Tag,
        constraints: &Constraints,
    ) -> Result<bool, D::Error> {
        let _ = constraints;
        decoder.decode_bool(tag)
    }
}

impl Encode for () {
    #[inline(always)]
    #[tactic(auto, unfolding(rasn_schema::specs::Normal::normal))]
    fn encode_with_tag_and_constraints<E: Encoder>(
        &self,
        encoder: &mut E,
        tag: Tag,
        constraints: &Constraints,
        identifier: Identifier,
    ) -> Result<(), E::Error> {
        let _ = constraints;
        encoder.encode_null(tag, identifier)
    }
}

impl Decode for () {
    #[inline(always)]
    fn decode_with_tag_and_constraints<D: Decoder>(
        decoder: &mut D,
        tag: Tag,
        constraints: &Constraints,
    ) -> Result<(), D::Error> {
        let _ = constraints;
        decoder.decode_null(tag)
    }
}
