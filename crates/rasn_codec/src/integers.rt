//! How INTEGER is written and read, as Rust's own number types and as one that holds every number.

use crate::codec::{Decode, Decoder, Encode, Encoder};
use rasn_schema::schema::Constraints;
use rasn_types::big::Integer;
use rasn_types::types::{Identifier, Tag};

impl Encode for i8 {
    #[inline(always)]
    #[tactic(auto, unfolding(rasn_schema::specs::Normal::normal))]
    fn encode_with_tag_and_constraints<E: Encoder>(
        &self,
        encoder: &mut E,
        tag: Tag,
        constraints: &Constraints,
        identifier: Identifier,
    ) -> Result<(), E::Error> {
        encoder.encode_integer::<i8>(tag, constraints, self, identifier)
    }
}

impl Decode for i8 {
    #[inline(always)]
    fn decode_with_tag_and_constraints<D: Decoder>(
        decoder: &mut D,
        tag: Tag,
        constraints: &Constraints,
    ) -> Result<i8, D::Error> {
        decoder.decode_integer::<i8>(tag, constraints)
    }
}

impl Encode for i16 {
    #[inline(always)]
    #[tactic(auto, unfolding(rasn_schema::specs::Normal::normal))]
    fn encode_with_tag_and_constraints<E: Encoder>(
        &self,
        encoder: &mut E,
        tag: Tag,
        constraints: &Constraints,
        identifier: Identifier,
    ) -> Result<(), E::Error> {
        encoder.encode_integer::<i16>(tag, constraints, self, identifier)
    }
}

impl Decode for i16 {
    #[inline(always)]
    fn decode_with_tag_and_constraints<D: Decoder>(
        decoder: &mut D,
        tag: Tag,
        constraints: &Constraints,
    ) -> Result<i16, D::Error> {
        decoder.decode_integer::<i16>(tag, constraints)
    }
}

impl Encode for i32 {
    #[inline(always)]
    #[tactic(auto, unfolding(rasn_schema::specs::Normal::normal))]
    fn encode_with_tag_and_constraints<E: Encoder>(
        &self,
        encoder: &mut E,
        tag: Tag,
        constraints: &Constraints,
        identifier: Identifier,
    ) -> Result<(), E::Error> {
        encoder.encode_integer::<i32>(tag, constraints, self, identifier)
    }
}

impl Decode for i32 {
    #[inline(always)]
    fn decode_with_tag_and_constraints<D: Decoder>(
        decoder: &mut D,
        tag: Tag,
        constraints: &Constraints,
    ) -> Result<i32, D::Error> {
        decoder.decode_integer::<i32>(tag, constraints)
    }
}

impl Encode for i64 {
    #[inline(always)]
    #[tactic(auto, unfolding(rasn_schema::specs::Normal::normal))]
    fn encode_with_tag_and_constraints<E: Encoder>(
        &self,
        encoder: &mut E,
        tag: Tag,
        constraints: &Constraints,
        identifier: Identifier,
    ) -> Result<(), E::Error> {
        encoder.encode_integer::<i64>(tag, constraints, self, identifier)
    }
}

impl Decode for i64 {
    #[inline(always)]
    fn decode_with_tag_and_constraints<D: Decoder>(
        decoder: &mut D,
        tag: Tag,
        constraints: &Constraints,
    ) -> Result<i64, D::Error> {
        decoder.decode_integer::<i64>(tag, constraints)
    }
}

impl Encode for i128 {
    #[inline(always)]
    #[tactic(auto, unfolding(rasn_schema::specs::Normal::normal))]
    fn encode_with_tag_and_constraints<E: Encoder>(
        &self,
        encoder: &mut E,
        tag: Tag,
        constraints: &Constraints,
        identifier: Identifier,
    ) -> Result<(), E::Error> {
        encoder.encode_integer::<i128>(tag, constraints, self, identifier)
    }
}

impl Decode for i128 {
    #[inline(always)]
    fn decode_with_tag_and_constraints<D: Decoder>(
        decoder: &mut D,
        tag: Tag,
        constraints: &Constraints,
    ) -> Result<i128, D::Error> {
        decoder.decode_integer::<i128>(tag, constraints)
    }
}

impl Encode for u8 {
    #[inline(always)]
    #[tactic(auto, unfolding(rasn_schema::specs::Normal::normal))]
    fn encode_with_tag_and_constraints<E: Encoder>(
        &self,
        encoder: &mut E,
        tag: Tag,
        constraints: &Constraints,
        identifier: Identifier,
    ) -> Result<(), E::Error> {
        encoder.encode_integer::<u8>(tag, constraints, self, identifier)
    }
}

impl Decode for u8 {
    #[inline(always)]
    fn decode_with_tag_and_constraints<D: Decoder>(
        decoder: &mut D,
        tag: Tag,
        constraints: &Constraints,
    ) -> Result<u8, D::Error> {
        decoder.decode_integer::<u8>(tag, constraints)
    }
}

impl Encode for u16 {
    #[inline(always)]
    #[tactic(auto, unfolding(rasn_schema::specs::Normal::normal))]
    fn encode_with_tag_and_constraints<E: Encoder>(
        &self,
        encoder: &mut E,
        tag: Tag,
        constraints: &Constraints,
        identifier: Identifier,
    ) -> Result<(), E::Error> {
        encoder.encode_integer::<u16>(tag, constraints, self, identifier)
    }
}

impl Decode for u16 {
    #[inline(always)]
    fn decode_with_tag_and_constraints<D: Decoder>(
        decoder: &mut D,
        tag: Tag,
        constraints: &Constraints,
    ) -> Result<u16, D::Error> {
        decoder.decode_integer::<u16>(tag, constraints)
    }
}

impl Encode for u32 {
    #[inline(always)]
    #[tactic(auto, unfolding(rasn_schema::specs::Normal::normal))]
    fn encode_with_tag_and_constraints<E: Encoder>(
        &self,
        encoder: &mut E,
        tag: Tag,
        constraints: &Constraints,
        identifier: Identifier,
    ) -> Result<(), E::Error> {
        encoder.encode_integer::<u32>(tag, constraints, self, identifier)
    }
}

impl Decode for u32 {
    #[inline(always)]
    fn decode_with_tag_and_constraints<D: Decoder>(
        decoder: &mut D,
        tag: Tag,
        constraints: &Constraints,
    ) -> Result<u32, D::Error> {
        decoder.decode_integer::<u32>(tag, constraints)
    }
}

impl Encode for u64 {
    #[inline(always)]
    #[tactic(auto, unfolding(rasn_schema::specs::Normal::normal))]
    fn encode_with_tag_and_constraints<E: Encoder>(
        &self,
        encoder: &mut E,
        tag: Tag,
        constraints: &Constraints,
        identifier: Identifier,
    ) -> Result<(), E::Error> {
        encoder.encode_integer::<u64>(tag, constraints, self, identifier)
    }
}

impl Decode for u64 {
    #[inline(always)]
    fn decode_with_tag_and_constraints<D: Decoder>(
        decoder: &mut D,
        tag: Tag,
        constraints: &Constraints,
    ) -> Result<u64, D::Error> {
        decoder.decode_integer::<u64>(tag, constraints)
    }
}

impl Encode for Integer {
    #[inline(always)]
    #[tactic(auto, unfolding(rasn_schema::specs::Normal::normal))]
    fn encode_with_tag_and_constraints<E: Encoder>(
        &self,
        encoder: &mut E,
        tag: Tag,
        constraints: &Constraints,
        identifier: Identifier,
    ) -> Result<(), E::Error> {
        encoder.encode_integer::<Integer>(tag, constraints, self, identifier)
    }
}

impl Decode for Integer {
    #[inline(always)]
    fn decode_with_tag_and_constraints<D: Decoder>(
        decoder: &mut D,
        tag: Tag,
        constraints: &Constraints,
    ) -> Result<Integer, D::Error> {
        decoder.decode_integer::<Integer>(tag, constraints)
    }
}
