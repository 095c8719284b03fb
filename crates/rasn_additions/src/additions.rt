//! The additions of a record, after its extension marker: how one is given and read, and addition groups.

ghost use Rattle.rasn_types.specs.Values;
ghost use Rattle.rasn_schema.specs.Schemas.{group};
ghost use Rattle.rasn_traits.specs.Presences.{slot_of};
ghost use Rattle.rasn_record.specs.Slots.{slot_asked, slot_levels, slot_within};

use crate::{ExtensionDecoder, ExtensionEncoder};
use rasn_codec::codec::{Decode, Decoder, DecoderExt, Encode, Encoder};
use rasn_codec::defaults::DefaultOf;
use rasn_record::cells::ByType;
use rasn_record::components::{DecodeComponent, EncodeComponent};
use rasn_record::sides::{DecodeSide, EncodeSide};
use rasn_schema::fields::AdditionGroup;
use rasn_schema::schema::Constraints;
use rasn_types::types::Tag;
use std::marker::PhantomData;

/// The additions of a record: what is after its extension marker (X.691 19.7 to 19.9).
pub struct Added {}

/// An addition group (X.680 25.1), whose components are a SEQUENCE: to write, a reference to it; to read, `PhantomData`
/// of its type.
#[derive(Clone, Copy)]
pub struct Group<V>(pub V);

impl<H> ByType for Group<PhantomData<H>> {
    const VALUE: Group<PhantomData<H>> = Group(PhantomData);
}

impl EncodeSide for Added {
    ghost side = { Values.added };

    fn encode_required<H: Encode, E: Encoder>(
        encoder: &mut E,
        tag: Tag,
        constraints: &Constraints,
        value: &H,
    ) -> Result<(), E::Error> {
        encoder.encode_extension_addition(tag, constraints, value, H::IDENTIFIER)
    }

    fn encode_optional<H: Encode, E: Encoder>(
        encoder: &mut E,
        tag: Tag,
        constraints: &Constraints,
        value: &Option<H>,
    ) -> Result<(), E::Error> {
        match value {
            Some(there) => {
                encoder.encode_extension_addition(tag, constraints, there, H::IDENTIFIER)
            }
            None => encoder.skip_addition(),
        }
    }

    fn encode_default<H: Encode, K: DefaultOf<H>, E: Encoder>(
        encoder: &mut E,
        tag: Tag,
        constraints: &Constraints,
        component: &H,
        default: &K,
    ) -> Result<(), E::Error> {
        if default.stands_for(component, constraints) {
            return encoder.skip_addition();
        }
        encoder.encode_extension_addition(tag, constraints, component, H::IDENTIFIER)
    }
}

impl DecodeSide for Added {
    ghost side = { Values.added };

    fn decode_required<H: Decode, D: Decoder>(
        decoder: &mut D,
        tag: Tag,
        constraints: &Constraints,
    ) -> Result<H, D::Error> {
        let read: Option<H> = decoder.decode_extension_addition_with_tag_and_constraints(
            tag,
            constraints,
        )?;
        match read {
            Some(value) => Ok(value),
            None => Err(decoder.required_extension_not_present(tag)),
        }
    }

    fn decode_optional<H: Decode, D: Decoder>(
        decoder: &mut D,
        tag: Tag,
        constraints: &Constraints,
    ) -> Result<Option<H>, D::Error> {
        decoder.decode_extension_addition_with_tag_and_constraints::<H>(tag, constraints)
    }

    fn decode_default<H: Decode, K: DefaultOf<H>, D: Decoder>(
        decoder: &mut D,
        tag: Tag,
        constraints: &Constraints,
        default: &K,
    ) -> Result<H, D::Error> {
        let read: Option<H> = decoder.decode_extension_addition_with_tag_and_constraints(
            tag,
            constraints,
        )?;
        match read {
            Some(value) => Ok(value),
            None => match default.made(decoder.alloc()) {
                Ok(value) => Ok(value),
                Err(_) => Err(decoder.out_of_memory()),
            },
        }
    }
}

impl<'a, H: Encode + AdditionGroup> EncodeComponent<Added> for Group<&'a Option<H>> {
    type Of = H;

    ghost presence = { λ c. group };

    ghost slot = { λ c. slot_of H.value c.0.now };

    ghost levels = { λ c. slot_levels H.levels c.0.now };

    fn encode_component<E: Encoder>(
        &self,
        encoder: &mut E,
        _tag: Tag,
        _constraints: &Constraints,
    ) -> Result<(), E::Error> {
        match self.0 {
            Some(value) => encoder.encode_extension_addition_group(Some(value), H::IDENTIFIER),
            None => encoder.skip_addition(),
        }
    }

    ghost is_component = { λ c. tt };

    ghost asked = { λ c. slot_asked H.levels c.0.now };

    ghost within = { λ c. slot_within H.levels c.0.now };
}

impl<H: Decode + AdditionGroup> DecodeComponent<Added> for Group<PhantomData<Option<H>>> {
    type Of = H;

    type Value = Option<H>;

    ghost presence = { λ c. group };

    ghost slot = { λ x. slot_of H.value x };

    fn decode_component<D: Decoder>(
        &self,
        decoder: &mut D,
        _tag: Tag,
        _constraints: &Constraints,
    ) -> Result<Option<H>, D::Error> {
        decoder.decode_extension_addition_group()
    }
}
