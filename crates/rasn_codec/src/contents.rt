//! Types whose values are octets that contain a value of another type, as its complete encoding: OCTET STRING
//! (CONTAINING T) (X.682 11), and open types of which an object set tells the type (X.682 10).

ghost use Rattle.std.specs.Prelude.{◌≡◌, false, refl, Some, true};
ghost use Rattle.rasn_types.specs.declared.types.TheConstants.Tag.{EOC, OCTET_STRING};
ghost use Rattle.rasn_constraints.specs.Ranges.{no_constraints};
ghost use Rattle.rasn_schema.specs.Fields.{tagged};
ghost use Rattle.rasn_schema.specs.Levels.{containing_levelled};
ghost use Rattle.rasn_schema.specs.Schemas.{Schema};
ghost use Rattle.rasn_schema.specs.Tags.{is_tag_of, IsStatedOf};

use crate::codec::{Decode, Decoder, Encode, Encoder};
pub use crate::encoding_of::{EncodingOf, HoldsOctets};
use rasn_schema::fields::{TagTree, TypeTree};
use rasn_schema::schema::{AsnType, Constraints};
use rasn_types::types::{Identifier, Tag};
use std::marker::PhantomData;

/// OCTET STRING (CONTAINING T) (X.682 11): a value of `T`.
pub type Contains<T> = Containing<T, InOctetString>;

/// An open type (X.681 14) whose values are of a type `T`.
pub type OpenType<T> = Containing<T, InOpenType>;

/// A value that stands as its complete encoding (X.691 11.1) in octets of a kind, after an unconstrained length.
/// Octets that are no encoding of a `T` are refused. No constraint on the octets is visible: of octets under a size,
/// `EncodingOf` says what they are meant to be.
#[derive(Debug, Drop, PartialEq, Eq)]
pub struct Containing<T, K> {
    /// The value.
    pub value: T,
    /// What the octets are.
    pub kind: PhantomData<K>,
}

impl<T, K> Containing<T, K> {
    /// This value, in octets.
    pub fn new(value: T) -> Self
        ensures { result.value ≡ value }
    {
        Containing {
            value,
            kind: PhantomData::<K>,
        }
    }
}

/// The octets are an OCTET STRING.
#[derive(Clone, Copy, Debug, PartialEq, Eq)]
pub struct InOctetString;

/// The octets are an open type.
#[derive(Clone, Copy, Debug, PartialEq, Eq)]
pub struct InOpenType;

/// What octets are that contain a value.
pub trait Container {
    ghost use Rattle.rasn_types.specs.declared.types.Tag.{Tag};

    /// The tag of the type (X.680 8.4).
    const TAG: Tag;

    ghost TAG: { Tag };

    // The tag is one of octets that contain a value.
    ghost tag_fits: { (s : Schema) → is_tag_of TAG (Schema.containing s) ≡ true };

    // The tag is the whole tag tree.
    ghost tree_fits: { (s : Schema) → IsStatedOf TAG (Some (tagged TAG)) false (Schema.containing s) };
}

impl Container for InOctetString {
    const TAG: Tag = Tag::OCTET_STRING;

    ghost TAG = { OCTET_STRING };

    ghost tag_fits = { λ _. refl };

    ghost tree_fits = { λ _. (refl, refl) };
}

impl Container for InOpenType {
    const TAG: Tag = Tag::EOC;

    ghost TAG = { EOC };

    ghost tag_fits = { λ _. refl };

    ghost tree_fits = { λ _. (refl, refl) };
}

impl<T: AsnType, K: Container> AsnType for Containing<T, K> {
    const TAG: Tag = K::TAG;

    ghost TAG = { K.TAG };

    const TAG_TREE: TypeTree = TypeTree(TagTree::Leaf(K::TAG));

    ghost TAG_TREE = { Some (tagged K.TAG) };

    const IS_CHOICE: bool = false;

    const CONSTRAINTS: Constraints<'static> = Constraints::NONE;

    ghost CONSTRAINTS = { no_constraints };

    ghost schema = { λ _ n. Schema.containing (T.schema T.CONSTRAINTS n) };

    ghost value = { λ x. T.value x.value };

    ghost levels = { λ x. T.levels x.value };

    ghost levelled = { λ _. containing_levelled (T.levelled T.CONSTRAINTS) };

    ghost tag_fits = { λ _ n. K.tag_fits (T.schema T.CONSTRAINTS n) };

    ghost tree_fits = { λ _ n. K.tree_fits (T.schema T.CONSTRAINTS n) };
}

impl<T: Encode, K: Container> Encode for Containing<T, K> {
    fn encode_with_tag_and_constraints<E: Encoder>(
        &self,
        encoder: &mut E,
        tag: Tag,
        constraints: &Constraints,
        identifier: Identifier,
    ) -> Result<(), E::Error> {
        let outside = encoder.open_contents(tag, identifier)?;
        self.value.encode(encoder)?;
        encoder.close_contents(outside)
    }
}

impl<T: Decode, K: Container> Decode for Containing<T, K> {
    fn decode_with_tag_and_constraints<D: Decoder>(
        decoder: &mut D,
        tag: Tag,
        constraints: &Constraints,
    ) -> Result<Containing<T, K>, D::Error> {
        let outside = decoder.open_contents(tag)?;
        let value = T::decode(decoder)?;
        decoder.close_contents(outside)?;
        Ok(Containing::new(value))
    }
}
