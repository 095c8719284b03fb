//! How values in boxes are written and read: as what they hold.

ghost use Rattle.rasn_traits.specs.Boxes.{Holds};

use crate::codec::{Decode, Decoder, Encode, Encoder};
use rasn_schema::schema::Constraints;
use rasn_types::types::{Identifier, Tag};

/// The box of a value that was read, in memory of the decoder's.
pub fn boxed<T: Drop, D: Decoder>(decoder: &mut D, value: T) -> Result<Box<T>, D::Error>
    ensures { Holds D.rules (λ b. b.value) value decoder.old result decoder.new }
{
    match Box::new(decoder.alloc(), value) {
        Ok(boxed) => Ok(boxed),
        Err(_) => Err(decoder.out_of_memory()),
    }
}

impl<T: Encode> Encode for Box<T> {
    fn encode_with_tag_and_constraints<E: Encoder>(
        &self,
        encoder: &mut E,
        tag: Tag,
        constraints: &Constraints,
        identifier: Identifier,
    ) -> Result<(), E::Error> {
        (**self).encode_with_tag_and_constraints(encoder, tag, constraints, identifier)
    }
}

impl<T: Decode> Decode for Box<T> {
    fn decode_with_tag_and_constraints<D: Decoder>(
        decoder: &mut D,
        tag: Tag,
        constraints: &Constraints,
    ) -> Result<Box<T>, D::Error> {
        let value = T::decode_with_tag_and_constraints(decoder, tag, constraints)?;
        boxed(decoder, value)
    }
}
