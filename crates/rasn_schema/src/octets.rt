//! The schemas of octets and bits: OCTET STRING (X.680 23), BIT STRING (X.680 22), strings of any octets (X.680 41),
//! and values whose types aren't known.

ghost use Rattle.std.specs.Prelude.{false, refl, Some};
ghost use Rattle.rasn_types.specs.Contents.{other};
ghost use Rattle.rasn_types.specs.Values.{bits, octets};
ghost use Rattle.rasn_types.specs.declared.types.TheConstants.Tag.{BIT_STRING, EOC, GENERAL_STRING, GRAPHIC_STRING};
ghost use Rattle.rasn_types.specs.declared.types.TheConstants.Tag.{OCTET_STRING, TELETEX_STRING};
ghost use Rattle.rasn_schema.specs.Fields.{tagged};
ghost use Rattle.rasn_schema.specs.Schemas.{Schema};
ghost use Rattle.rasn_constraints.specs.Ranges.{no_constraints};
ghost use Rattle.rasn_schema.specs.Forms.{octet_schema, bit_schema, named_bit_schema, always};
ghost use Rattle.rasn_schema.specs.Levels.{TakesNone, simple_levelled};
ghost use Rattle.rasn_schema.specs.Tags.{AreTagsOf, IsTagOf};

use crate::fields::{TagTree, TypeTree};
use crate::schema::{AsnType, Constraints};
use rasn_types::bit_string::BitString;
use rasn_types::named_bits::NamedBits;
use rasn_types::octet_strings::{
    AnyKind, GeneralKind, GraphicKind, OctetStringKind, OctetsOf, TeletexKind,
};
use rasn_types::types::Tag;

/// The kind of a type of octets, with what the type states.
pub trait TaggedOctets {
    ghost use Rattle.rasn_types.specs.declared.types.Tag.{Tag};
    ghost use Rattle.rasn_constraints.specs.declared.constraints.Constraints.{Constraints};

    /// The tag of the type (X.680 8.4).
    const TAG: Tag;

    ghost TAG: { Tag };

    // The schema under constraints.
    ghost schema: { Constraints → Schema };

    // It takes no level.
    ghost takes_none: { (c : Constraints) → TakesNone (schema c) };

    // A universal tag is one of the schema's kind.
    ghost tag_fits: { (c : Constraints) → IsTagOf TAG (always (schema c)) };

    // The tag is the whole tag tree.
    ghost tree_fits: { (c : Constraints) → AreTagsOf TAG (Some (tagged TAG)) false (always (schema c)) };
}

impl TaggedOctets for OctetStringKind {
    const TAG: Tag = Tag::OCTET_STRING;

    ghost TAG = { OCTET_STRING };

    ghost schema = { octet_schema };

    ghost takes_none = { λ _. tt };

    ghost tag_fits = { λ _ _. refl };

    ghost tree_fits = { λ _ _. (refl, refl) };
}

impl TaggedOctets for GeneralKind {
    const TAG: Tag = Tag::GENERAL_STRING;

    ghost TAG = { GENERAL_STRING };

    ghost schema = { λ _. Schema.text other };

    ghost takes_none = { λ _. tt };

    ghost tag_fits = { λ _ _. refl };

    ghost tree_fits = { λ _ _. (refl, refl) };
}

impl TaggedOctets for GraphicKind {
    const TAG: Tag = Tag::GRAPHIC_STRING;

    ghost TAG = { GRAPHIC_STRING };

    ghost schema = { λ _. Schema.text other };

    ghost takes_none = { λ _. tt };

    ghost tag_fits = { λ _ _. refl };

    ghost tree_fits = { λ _ _. (refl, refl) };
}

impl TaggedOctets for TeletexKind {
    const TAG: Tag = Tag::TELETEX_STRING;

    ghost TAG = { TELETEX_STRING };

    ghost schema = { λ _. Schema.text other };

    ghost takes_none = { λ _. tt };

    ghost tag_fits = { λ _ _. refl };

    ghost tree_fits = { λ _ _. (refl, refl) };
}

impl TaggedOctets for AnyKind {
    const TAG: Tag = Tag::EOC;

    ghost TAG = { EOC };

    ghost schema = { λ _. Schema.any };

    ghost takes_none = { λ _. tt };

    ghost tag_fits = { λ _ _. refl };

    ghost tree_fits = { λ _ _. (refl, refl) };
}

impl<K: TaggedOctets> AsnType for OctetsOf<K> {
    const TAG: Tag = K::TAG;

    ghost TAG = { K.TAG };

    const TAG_TREE: TypeTree = TypeTree(TagTree::Leaf(K::TAG));

    ghost TAG_TREE = { Some (tagged K.TAG) };

    const IS_CHOICE: bool = false;

    const CONSTRAINTS: Constraints<'static> = Constraints::NONE;

    ghost CONSTRAINTS = { no_constraints };

    ghost schema = { λ c. always (K.schema c) };

    ghost value = { octets };

    ghost levelled = { λ c. simple_levelled (K.schema c) (K.takes_none c) };

    ghost tag_fits = { K.tag_fits };

    ghost tree_fits = { K.tree_fits };
}

impl AsnType for BitString {
    const TAG: Tag = Tag::BIT_STRING;

    ghost TAG = { BIT_STRING };

    const TAG_TREE: TypeTree = TypeTree(TagTree::Leaf(Tag::BIT_STRING));

    ghost TAG_TREE = { Some (tagged BIT_STRING) };

    const IS_CHOICE: bool = false;

    const CONSTRAINTS: Constraints<'static> = Constraints::NONE;

    ghost CONSTRAINTS = { no_constraints };

    ghost schema = { λ c. always (bit_schema c) };

    ghost value = { bits };

    ghost levelled = { λ c. simple_levelled (bit_schema c) tt };

    ghost tag_fits = { λ _ _. refl };

    ghost tree_fits = { λ _ _. (refl, refl) };
}

impl AsnType for NamedBits {
    const TAG: Tag = Tag::BIT_STRING;

    ghost TAG = { BIT_STRING };

    const TAG_TREE: TypeTree = TypeTree(TagTree::Leaf(Tag::BIT_STRING));

    ghost TAG_TREE = { Some (tagged BIT_STRING) };

    const IS_CHOICE: bool = false;

    const CONSTRAINTS: Constraints<'static> = Constraints::NONE;

    ghost CONSTRAINTS = { no_constraints };

    ghost schema = { λ c. always (named_bit_schema c) };

    ghost value = { bits };

    ghost levelled = { λ c. simple_levelled (named_bit_schema c) tt };

    ghost tag_fits = { λ _ _. refl };

    ghost tree_fits = { λ _ _. (refl, refl) };
}
