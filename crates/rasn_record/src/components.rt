//! One component of a record, in its root or among its additions: required, optional, or with a default.

ghost use Rattle.std.specs.Prelude.{◌≤◌, ℕ, Option, Some};
ghost use Rattle.rasn_types.specs.Values.{Value};
ghost use Rattle.rasn_schema.specs.Fields.{tagged};
ghost use Rattle.rasn_schema.specs.Schemas.{Presence, required, optional};
ghost use Rattle.rasn_traits.specs.Presences.{slot_of};
ghost use Rattle.rasn_record.specs.Sides.{MayBeAt, ReadsAt, WritesAt, on_each};
ghost use Rattle.rasn_record.specs.Slots.{slot_asked, slot_levels, slot_within};
ghost use Rattle.rasn_record.specs.Lists.{Asked, at_least};

use crate::sides::{DecodeSide, EncodeSide};
use rasn_codec::codec::{Decode, Decoder, Encode, Encoder};
use rasn_codec::defaults::DefaultOf;
use rasn_schema::schema::{AsnType, Constraints};
use rasn_types::types::Tag;
use std::marker::PhantomData;

/// A component of a record that is still to be written, on a side of the extension marker.
pub trait EncodeComponent<S: EncodeSide> {
    /// The type of the component.
    type Of: AsnType;

    // Whether it may be absent.
    ghost presence: { Self → Presence };

    // What it is.
    ghost slot: { Self → Option Value };

    // How many levels it takes.
    ghost levels: { Self → ℕ };

    // What is asked of a number of levels that holds it.
    ghost asked: { Self → Asked };

    /// Writes the component under a tag and constraints.
    fn encode_component<E: Encoder>(
        &self,
        encoder: &mut E,
        tag: Tag,
        constraints: &Constraints,
    ) -> Result<(), E::Error>
        ensures { WritesAt S.side E.rules (presence self.now) (Self.Of.schema constraints.now) (levels self.now)
            (slot self.now) encoder.old result encoder.new };

    // In the root it is no addition group.
    ghost is_component: { (c : Self) → MayBeAt S.side (presence c) };

    // That is enough.
    ghost within: { (c : Self) (n : ℕ) → (asked c).Of n → levels c ≤ n };
}

/// A component of a record that is still to be read, on a side of the extension marker.
pub trait DecodeComponent<S: DecodeSide> {
    /// The type of the component.
    type Of: AsnType;

    /// What the component is, absent or there.
    type Value: Drop;

    // Whether it may be absent.
    ghost presence: { Self → Presence };

    // What a value of it is.
    ghost slot: { Self.Value → Option Value };

    /// Reads the component under a tag and constraints. A required addition that isn't there is refused by its tag.
    fn decode_component<D: Decoder>(
        &self,
        decoder: &mut D,
        tag: Tag,
        constraints: &Constraints,
    ) -> Result<Self::Value, D::Error>
        ensures { ReadsAt S.side D.rules (tagged tag) (presence self.now)
            (Self.Of.schema constraints.now (D.rules.levels decoder.old)) slot decoder.old result decoder.new };
}

/// An optional component: to write, a reference to it; to read, `PhantomData` of its type.
#[derive(Clone, Copy)]
pub struct Optional<V>(pub V);

/// A component with a default.
#[derive(Clone, Copy)]
pub struct Default<V, K> {
    /// To write, a reference to the component; to read, `PhantomData` of its type.
    pub value: V,
    /// What stands for it where it is absent.
    pub default: K,
}

/// A required component is a reference to it.
impl<'a, S: EncodeSide, H: Encode> EncodeComponent<S> for &'a H {
    type Of = H;

    ghost presence = { λ c. required };

    ghost slot = { λ c. Some (H.value c.now) };

    ghost levels = { λ c. H.levels c.now };

    #[inline(always)]
    fn encode_component<E: Encoder>(
        &self,
        encoder: &mut E,
        tag: Tag,
        constraints: &Constraints,
    ) -> Result<(), E::Error> {
        let value: &H = *self;
        S::encode_required(encoder, tag, constraints, value)
    }

    ghost is_component = { λ c. on_each S.side required tt };

    ghost asked = { λ c. at_least (H.levels c.now) };

    ghost within = { λ c n h. h };
}

impl<'a, S: EncodeSide, H: Encode> EncodeComponent<S> for Optional<&'a Option<H>> {
    type Of = H;

    ghost presence = { λ c. optional };

    ghost slot = { λ c. slot_of H.value c.0.now };

    ghost levels = { λ c. slot_levels H.levels c.0.now };

    #[inline(always)]
    fn encode_component<E: Encoder>(
        &self,
        encoder: &mut E,
        tag: Tag,
        constraints: &Constraints,
    ) -> Result<(), E::Error> {
        S::encode_optional(encoder, tag, constraints, self.0)
    }

    ghost is_component = { λ c. on_each S.side optional tt };

    ghost asked = { λ c. slot_asked H.levels c.0.now };

    ghost within = { λ c. slot_within H.levels c.0.now };
}

impl<'a, S: EncodeSide, H: Encode, K: DefaultOf<H>> EncodeComponent<S> for Default<&'a H, K> {
    type Of = H;

    ghost presence = { λ c. Presence.default (K.default c.default) };

    ghost slot = { λ c. Some (H.value c.value.now) };

    ghost levels = { λ c. H.levels c.value.now };

    #[inline(always)]
    fn encode_component<E: Encoder>(
        &self,
        encoder: &mut E,
        tag: Tag,
        constraints: &Constraints,
    ) -> Result<(), E::Error> {
        S::encode_default(encoder, tag, constraints, self.value, &self.default)
    }

    ghost is_component = { λ c. on_each S.side (Presence.default (K.default c.default)) tt };

    ghost asked = { λ c. at_least (H.levels c.value.now) };

    ghost within = { λ c n h. h };
}

/// A required component is read by `PhantomData` of its type.
impl<S: DecodeSide, H: Decode> DecodeComponent<S> for PhantomData<H> {
    type Of = H;

    type Value = H;

    ghost presence = { λ c. required };

    ghost slot = { λ x. Some (H.value x) };

    #[inline(always)]
    fn decode_component<D: Decoder>(
        &self,
        decoder: &mut D,
        tag: Tag,
        constraints: &Constraints,
    ) -> Result<H, D::Error> {
        S::decode_required(decoder, tag, constraints)
    }
}

impl<S: DecodeSide, H: Decode> DecodeComponent<S> for Optional<PhantomData<Option<H>>> {
    type Of = H;

    type Value = Option<H>;

    ghost presence = { λ c. optional };

    ghost slot = { λ x. slot_of H.value x };

    #[inline(always)]
    fn decode_component<D: Decoder>(
        &self,
        decoder: &mut D,
        tag: Tag,
        constraints: &Constraints,
    ) -> Result<Option<H>, D::Error> {
        S::decode_optional(decoder, tag, constraints)
    }
}

impl<S: DecodeSide, H: Decode, K: DefaultOf<H>> DecodeComponent<S> for Default<PhantomData<H>, K> {
    type Of = H;

    type Value = H;

    ghost presence = { λ c. Presence.default (K.default c.default) };

    ghost slot = { λ x. Some (H.value x) };

    #[inline(always)]
    fn decode_component<D: Decoder>(
        &self,
        decoder: &mut D,
        tag: Tag,
        constraints: &Constraints,
    ) -> Result<H, D::Error> {
        S::decode_default(decoder, tag, constraints, &self.default)
    }
}
