//! Octets that are meant to be the complete encoding of a value of another type, and that aren't looked into while
//! their message is read or written.
ghost use Rattle.std.specs.Prelude.{◌≡◌, ℕ, List};

use crate::codec::{Decode, Decoder, Encode, Encoder};
use rasn_schema::fields::TypeTree;
use rasn_schema::schema::{AsnType, Constraints};
use rasn_types::octet_strings::OctetsOf;
use rasn_types::types::{Identifier, Tag};
use std::marker::PhantomData;

/// Octets that are meant to be the complete encoding of a `T` (X.691 11.1). They are written and read as the octets
/// that they are, whether they are one or not; `rasn_per::contents` looks into them.
#[derive(Debug, Drop, PartialEq, Eq)]
pub struct EncodingOf<T, O> {
    /// The octets.
    pub octets: O,
    /// The type whose encoding they are meant to be.
    pub of: PhantomData<T>,
}

/// What holds octets, any of them: an `OctetString`, or `Any`.
pub trait HoldsOctets {
    // The octets.
    ghost octets: { Self → List ℕ };

    /// What holds these octets.
    fn holding(list: Vec<u8>) -> Self
        ensures { octets result ≡ list.items };

    /// The octets.
    fn held(&self) -> &[u8]
        ensures { result.now ≡ octets self.now };
}

impl<K> HoldsOctets for OctetsOf<K> {
    ghost octets = { λ o. o };

    fn holding(list: Vec<u8>) -> OctetsOf<K> {
        OctetsOf::new(list)
    }

    fn held(&self) -> &[u8] {
        self.as_bytes()
    }
}

impl<T, O: HoldsOctets> EncodingOf<T, O> {
    /// These octets, whether they are an encoding of a `T` or not.
    pub fn new(octets: Vec<u8>) -> Self
        ensures { O.octets result.octets ≡ octets.items }
    {
        EncodingOf {
            octets: O::holding(octets),
            of: PhantomData::<T>,
        }
    }

    /// The octets.
    pub fn as_bytes(&self) -> &[u8]
        ensures { result.now ≡ O.octets self.now.octets }
    {
        self.octets.held()
    }
}

impl<T, O: AsnType> AsnType for EncodingOf<T, O> {
    const TAG: Tag = O::TAG;

    ghost TAG = { O.TAG };

    const TAG_TREE: TypeTree = O::TAG_TREE;

    ghost TAG_TREE = { O.TAG_TREE };

    const IS_CHOICE: bool = O::IS_CHOICE;

    ghost IS_CHOICE = { O.IS_CHOICE };

    const CONSTRAINTS: Constraints<'static> = O::CONSTRAINTS;

    ghost CONSTRAINTS = { O.CONSTRAINTS };

    ghost schema = { O.schema };

    ghost value = { λ x. O.value x.octets };

    ghost levels = { λ x. O.levels x.octets };

    ghost levelled = { O.levelled };

    ghost tag_fits = { O.tag_fits };

    ghost tree_fits = { O.tree_fits };
}

impl<T, O: Encode> Encode for EncodingOf<T, O> {
    fn encode_with_tag_and_constraints<E: Encoder>(
        &self,
        encoder: &mut E,
        tag: Tag,
        constraints: &Constraints,
        identifier: Identifier,
    ) -> Result<(), E::Error> {
        self.octets
            .encode_with_tag_and_constraints(encoder, tag, constraints, identifier)
    }
}

impl<T: Drop, O: Decode> Decode for EncodingOf<T, O> {
    fn decode_with_tag_and_constraints<D: Decoder>(
        decoder: &mut D,
        tag: Tag,
        constraints: &Constraints,
    ) -> Result<EncodingOf<T, O>, D::Error> {
        let octets = O::decode_with_tag_and_constraints(decoder, tag, constraints)?;
        Ok(EncodingOf {
            octets,
            of: PhantomData::<T>,
        })
    }
}
