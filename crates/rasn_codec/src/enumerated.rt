//! How ENUMERATED types that are stated by one list of their items are written and read.

use crate::codec::{Decoder, Encoder};
use crate::kinds::{DecodeKind, EncodeKind};
use rasn_schema::items::{EnumeratedKind, Items};
use rasn_schema::kinds::OfKind;
use rasn_types::types::{Identifier, Tag};

impl<T: Items + OfKind<Kind = EnumeratedKind>> EncodeKind<T> for EnumeratedKind {
    #[tactic(auto, unfolding(rasn_schema::specs::Normal::normal))]
    fn encode_value<E: Encoder>(
        value: &T,
        encoder: &mut E,
        tag: Tag,
        identifier: Identifier,
    ) -> Result<(), E::Error> {
        encoder.encode_enumerated(tag, value, identifier)
    }
}

impl<T: Items + OfKind<Kind = EnumeratedKind>> DecodeKind<T> for EnumeratedKind {
    fn decode_value<D: Decoder>(decoder: &mut D, tag: Tag) -> Result<T, D::Error> {
        decoder.decode_enumerated(tag)
    }
}
