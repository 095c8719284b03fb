//! What the layers below the packed encoding rules give to those who write types: values, schemas, the traits of types
//! and codecs, contents octets and texts; and at the root all that a page of an author's types names, macros included.
//! With `rasn_per` this is all that a user's crate names.
#![tactic(auto)]

pub mod ber;
mod choices;
pub mod codec;
mod items;
mod macros;
pub mod own_tags;
pub mod page;
pub mod schema;
mod sets;
pub mod types;

pub use rasn_additions::{added, additions};
pub use rasn_codec::alternatives::CodedAlternatives;
pub use rasn_codec::codec::{Decode, Decoder, Encode, Encoder};
pub use rasn_codec::default_bits::Bits;
pub use rasn_codec::default_items::Item;
pub use rasn_codec::default_lists::EmptyList;
pub use rasn_codec::default_octets::Octets;
pub use rasn_codec::default_texts::{Text, Utf8Text};
pub use rasn_codec::defaults::DefaultOf;
pub use rasn_codec::kinds::ByKind;
pub use rasn_codec::record::Record;
pub use rasn_record::bounds::{BoundLists, Bounds};
pub use rasn_record::{
    alternatives, by_place, cells, components, few, fours, read, sides, sixteen, write,
};
pub use rasn_schema::alternatives::{Alternatives, ChoiceKind};
pub use rasn_schema::choices::{VariantLists, Variants};
pub use rasn_schema::components::Components;
pub use rasn_schema::constrained::{Constrained, Limits};
pub use rasn_schema::constraints::{Bounded, Constraint, Extensible};
pub use rasn_schema::fields::{
    AdditionGroup, Constructed, Field, FieldLists, Fields, Presence, TagTree, TypeTree,
};
pub use rasn_schema::items::{EnumeratedKind, ItemCounts, ItemLists, Items, Place};
pub use rasn_schema::kinds::OfKind;
pub use rasn_schema::schema::{AsnType, Constraints};
pub use rasn_schema::types::{Class, Tag};
pub use rasn_sets::{SetComponents, SetKind, SetRecord, ordered};
pub use rasn_traits::de;
pub use rasn_traits::parts::NoAdditions;
pub use rasn_useful::defaults::Arcs;
