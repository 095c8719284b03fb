//! How character strings are written and read (X.680 41).

use crate::codec::{Decode, Decoder, Encode, Encoder};
use rasn_schema::schema::Constraints;
use rasn_schema::strings::TaggedCharacters;
use rasn_strings::strings::CharactersOf;
use rasn_types::octet_strings::{GeneralString, GraphicString, TeletexString, Utf8String};
use rasn_types::types::{Identifier, Tag};

impl<K: TaggedCharacters> Encode for CharactersOf<K> {
    #[tactic(auto, unfolding(rasn_schema::specs::Normal::normal))]
    fn encode_with_tag_and_constraints<E: Encoder>(
        &self,
        encoder: &mut E,
        tag: Tag,
        constraints: &Constraints,
        identifier: Identifier,
    ) -> Result<(), E::Error> {
        encoder.encode_known_multiplier_string(tag, constraints, self, identifier)
    }
}

impl<K: TaggedCharacters> Decode for CharactersOf<K> {
    fn decode_with_tag_and_constraints<D: Decoder>(
        decoder: &mut D,
        tag: Tag,
        constraints: &Constraints,
    ) -> Result<CharactersOf<K>, D::Error> {
        decoder.decode_known_multiplier_string(tag, constraints)
    }
}

impl Encode for Utf8String {
    #[tactic(auto, unfolding(rasn_schema::specs::Normal::normal))]
    fn encode_with_tag_and_constraints<E: Encoder>(
        &self,
        encoder: &mut E,
        tag: Tag,
        constraints: &Constraints,
        identifier: Identifier,
    ) -> Result<(), E::Error> {
        encoder.encode_utf8_string(tag, constraints, self.as_str(), identifier)
    }
}

impl Decode for Utf8String {
    fn decode_with_tag_and_constraints<D: Decoder>(
        decoder: &mut D,
        tag: Tag,
        constraints: &Constraints,
    ) -> Result<Utf8String, D::Error> {
        decoder.decode_utf8_string(tag, constraints)
    }
}

impl Encode for GeneralString {
    #[tactic(auto, unfolding(rasn_schema::specs::Normal::normal))]
    fn encode_with_tag_and_constraints<E: Encoder>(
        &self,
        encoder: &mut E,
        tag: Tag,
        constraints: &Constraints,
        identifier: Identifier,
    ) -> Result<(), E::Error> {
        encoder.encode_general_string(tag, constraints, self, identifier)
    }
}

impl Decode for GeneralString {
    fn decode_with_tag_and_constraints<D: Decoder>(
        decoder: &mut D,
        tag: Tag,
        constraints: &Constraints,
    ) -> Result<GeneralString, D::Error> {
        decoder.decode_general_string(tag, constraints)
    }
}

impl Encode for GraphicString {
    #[tactic(auto, unfolding(rasn_schema::specs::Normal::normal))]
    fn encode_with_tag_and_constraints<E: Encoder>(
        &self,
        encoder: &mut E,
        tag: Tag,
        constraints: &Constraints,
        identifier: Identifier,
    ) -> Result<(), E::Error> {
        encoder.encode_graphic_string(tag, constraints, self, identifier)
    }
}

impl Decode for GraphicString {
    fn decode_with_tag_and_constraints<D: Decoder>(
        decoder: &mut D,
        tag: Tag,
        constraints: &Constraints,
    ) -> Result<GraphicString, D::Error> {
        decoder.decode_graphic_string(tag, constraints)
    }
}

impl Encode for TeletexString {
    #[tactic(auto, unfolding(rasn_schema::specs::Normal::normal))]
    fn encode_with_tag_and_constraints<E: Encoder>(
        &self,
        encoder: &mut E,
        tag: Tag,
        constraints: &Constraints,
        identifier: Identifier,
    ) -> Result<(), E::Error> {
        encoder.encode_teletex_string(tag, constraints, self, identifier)
    }
}

impl Decode for TeletexString {
    fn decode_with_tag_and_constraints<D: Decoder>(
        decoder: &mut D,
        tag: Tag,
        constraints: &Constraints,
    ) -> Result<TeletexString, D::Error> {
        decoder.decode_teletex_string(tag, constraints)
    }
}
