//! The two sides of a record's extension marker: what is before it, the root, and what is after it, the additions. What
//! a component is, and a list of them, is stated once for both.

ghost use Rattle.std.specs.Prelude.{Some};
ghost use Rattle.rasn_types.specs.Values.{Side};
ghost use Rattle.rasn_types.specs.Values;
ghost use Rattle.rasn_schema.specs.Fields.{tagged};
ghost use Rattle.rasn_schema.specs.Schemas.{Presence, required, optional};
ghost use Rattle.rasn_traits.specs.Presences.{slot_of};
ghost use Rattle.rasn_record.specs.Sides.{ReadsAt, WritesAt};
ghost use Rattle.rasn_record.specs.Slots.{slot_levels};

use rasn_codec::codec::{Decode, Decoder, DecoderExt, Encode, Encoder, EncoderExt};
use rasn_codec::defaults::DefaultOf;
use rasn_schema::schema::Constraints;
use rasn_types::types::Tag;

/// How a component is written on one side of the extension marker.
pub trait EncodeSide {
    // Which side it is.
    ghost side: { Side };

    /// Writes a required component under a tag and constraints.
    fn encode_required<H: Encode, E: Encoder>(
        encoder: &mut E,
        tag: Tag,
        constraints: &Constraints,
        value: &H,
    ) -> Result<(), E::Error>
        ensures { WritesAt side E.rules required (H.schema constraints.now) (H.levels value.now)
            (Some (H.value value.now)) encoder.old result encoder.new };

    /// Writes an optional component under a tag and constraints.
    fn encode_optional<H: Encode, E: Encoder>(
        encoder: &mut E,
        tag: Tag,
        constraints: &Constraints,
        value: &Option<H>,
    ) -> Result<(), E::Error>
        ensures { WritesAt side E.rules optional (H.schema constraints.now) (slot_levels H.levels value.now)
            (slot_of H.value value.now) encoder.old result encoder.new };

    /// Writes a component with a default under a tag and constraints.
    fn encode_default<H: Encode, K: DefaultOf<H>, E: Encoder>(
        encoder: &mut E,
        tag: Tag,
        constraints: &Constraints,
        component: &H,
        default: &K,
    ) -> Result<(), E::Error>
        ensures { WritesAt side E.rules (Presence.default (K.default default.now)) (H.schema constraints.now)
            (H.levels component.now) (Some (H.value component.now)) encoder.old result encoder.new };
}

/// How a component is read on one side of the extension marker.
pub trait DecodeSide {
    // Which side it is.
    ghost side: { Side };

    /// Reads a required component under a tag and constraints.
    fn decode_required<H: Decode, D: Decoder>(
        decoder: &mut D,
        tag: Tag,
        constraints: &Constraints,
    ) -> Result<H, D::Error>
        ensures { ReadsAt side D.rules (tagged tag) required (H.schema constraints.now (D.rules.levels decoder.old))
            (λ x. Some (H.value x)) decoder.old result decoder.new };

    /// Reads an optional component under a tag and constraints.
    fn decode_optional<H: Decode, D: Decoder>(
        decoder: &mut D,
        tag: Tag,
        constraints: &Constraints,
    ) -> Result<Option<H>, D::Error>
        ensures { ReadsAt side D.rules (tagged tag) optional (H.schema constraints.now (D.rules.levels decoder.old))
            (slot_of H.value) decoder.old result decoder.new };

    /// Reads a component with a default under a tag and constraints.
    fn decode_default<H: Decode, K: DefaultOf<H>, D: Decoder>(
        decoder: &mut D,
        tag: Tag,
        constraints: &Constraints,
        default: &K,
    ) -> Result<H, D::Error>
        ensures { ReadsAt side D.rules (tagged tag) (Presence.default (K.default default.now))
            (H.schema constraints.now (D.rules.levels decoder.old)) (λ x. Some (H.value x))
            decoder.old result decoder.new };
}

/// The root of a record: what is before its extension marker.
pub struct Root {}

impl EncodeSide for Root {
    ghost side = { Values.root };

    #[inline(always)]
    fn encode_required<H: Encode, E: Encoder>(
        encoder: &mut E,
        tag: Tag,
        constraints: &Constraints,
        value: &H,
    ) -> Result<(), E::Error> {
        value.encode_with_tag_and_constraints(encoder, tag, constraints, H::IDENTIFIER)
    }

    #[inline(always)]
    fn encode_optional<H: Encode, E: Encoder>(
        encoder: &mut E,
        tag: Tag,
        constraints: &Constraints,
        value: &Option<H>,
    ) -> Result<(), E::Error> {
        match value {
            Some(there) => encoder.encode_some_with_tag_and_constraints(
                tag,
                constraints,
                there,
                H::IDENTIFIER,
            ),
            None => encoder.encode_none_with_tag(tag, H::IDENTIFIER),
        }
    }

    #[inline(always)]
    fn encode_default<H: Encode, K: DefaultOf<H>, E: Encoder>(
        encoder: &mut E,
        tag: Tag,
        constraints: &Constraints,
        component: &H,
        default: &K,
    ) -> Result<(), E::Error> {
        if default.stands_for(component, constraints) {
            return encoder.set_presence(false);
        }
        encoder.encode_some_with_tag_and_constraints(tag, constraints, component, H::IDENTIFIER)
    }
}

impl DecodeSide for Root {
    ghost side = { Values.root };

    #[inline(always)]
    fn decode_required<H: Decode, D: Decoder>(
        decoder: &mut D,
        tag: Tag,
        constraints: &Constraints,
    ) -> Result<H, D::Error> {
        H::decode_with_tag_and_constraints(decoder, tag, constraints)
    }

    #[inline(always)]
    fn decode_optional<H: Decode, D: Decoder>(
        decoder: &mut D,
        tag: Tag,
        constraints: &Constraints,
    ) -> Result<Option<H>, D::Error> {
        decoder.decode_optional_with_tag_and_constraints(tag, constraints)
    }

    #[inline(always)]
    fn decode_default<H: Decode, K: DefaultOf<H>, D: Decoder>(
        decoder: &mut D,
        tag: Tag,
        constraints: &Constraints,
        default: &K,
    ) -> Result<H, D::Error> {
        if decoder.next_presence()? {
            return H::decode_with_tag_and_constraints(decoder, tag, constraints);
        }
        match default.made(decoder.alloc()) {
            Ok(value) => Ok(value),
            Err(_) => Err(decoder.out_of_memory()),
        }
    }
}
