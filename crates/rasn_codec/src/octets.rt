//! How OCTET STRING (X.680 23), BIT STRING (X.680 22) and values whose types aren't known are written and read.

use crate::codec::{Decode, Decoder, Encode, Encoder};
use rasn_schema::schema::Constraints;
use rasn_traits::de::Octets;
use rasn_types::bit_string::BitString;
use rasn_types::named_bits::NamedBits;
use rasn_types::octet_strings::{Any, OctetString};
use rasn_types::types::{Identifier, Tag};

impl Encode for OctetString {
    #[inline(always)]
    #[tactic(auto, unfolding(rasn_schema::specs::Normal::normal))]
    fn encode_with_tag_and_constraints<E: Encoder>(
        &self,
        encoder: &mut E,
        tag: Tag,
        constraints: &Constraints,
        identifier: Identifier,
    ) -> Result<(), E::Error> {
        encoder.encode_octet_string(tag, constraints, self.as_bytes(), identifier)
    }
}

impl Decode for OctetString {
    #[inline(always)]
    fn decode_with_tag_and_constraints<D: Decoder>(
        decoder: &mut D,
        tag: Tag,
        constraints: &Constraints,
    ) -> Result<OctetString, D::Error> {
        let octets = decoder.decode_octet_string(tag, constraints)?;
        match octets.into_owned(decoder.alloc()) {
            Ok(octets) => Ok(OctetString::from(octets)),
            Err(_) => Err(decoder.out_of_memory()),
        }
    }
}

impl Encode for BitString {
    #[inline(always)]
    #[tactic(auto, unfolding(rasn_schema::specs::Normal::normal))]
    fn encode_with_tag_and_constraints<E: Encoder>(
        &self,
        encoder: &mut E,
        tag: Tag,
        constraints: &Constraints,
        identifier: Identifier,
    ) -> Result<(), E::Error> {
        encoder.encode_bit_string(tag, constraints, self, identifier)
    }
}

impl Decode for BitString {
    #[inline(always)]
    fn decode_with_tag_and_constraints<D: Decoder>(
        decoder: &mut D,
        tag: Tag,
        constraints: &Constraints,
    ) -> Result<BitString, D::Error> {
        decoder.decode_bit_string(tag, constraints)
    }
}

impl Encode for NamedBits {
    #[inline(always)]
    fn encode_with_tag_and_constraints<E: Encoder>(
        &self,
        encoder: &mut E,
        tag: Tag,
        constraints: &Constraints,
        identifier: Identifier,
    ) -> Result<(), E::Error> {
        encoder.encode_named_bits(tag, constraints, self.bits(), identifier)
    }
}

impl Decode for NamedBits {
    #[inline(always)]
    fn decode_with_tag_and_constraints<D: Decoder>(
        decoder: &mut D,
        tag: Tag,
        constraints: &Constraints,
    ) -> Result<NamedBits, D::Error> {
        let bits = decoder.decode_named_bits(tag, constraints)?;
        Ok(NamedBits::new(bits))
    }
}

impl Encode for Any {
    #[inline(always)]
    #[tactic(auto, unfolding(rasn_schema::specs::Normal::normal))]
    fn encode_with_tag_and_constraints<E: Encoder>(
        &self,
        encoder: &mut E,
        tag: Tag,
        constraints: &Constraints,
        identifier: Identifier,
    ) -> Result<(), E::Error> {
        let _ = constraints;
        encoder.encode_any(tag, self, identifier)
    }
}

impl Decode for Any {
    #[inline(always)]
    fn decode_with_tag_and_constraints<D: Decoder>(
        decoder: &mut D,
        tag: Tag,
        constraints: &Constraints,
    ) -> Result<Any, D::Error> {
        let _ = constraints;
        decoder.decode_any(tag)
    }
}
