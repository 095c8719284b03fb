//! What a SEQUENCE of two required components states: its schema, its tags and its fields.

ghost use Rattle.std.specs.Prelude.{refl, None, Some, [], false};
ghost use Rattle.rasn_below.specs.Values.{record_value};
ghost use Rattle.rasn_below.specs.Types.{SEQUENCE, listed, no_constraints, unextended, shapes_from};
ghost use Rattle.rasn_below.specs.Types.{record_at, no_additions, sequence_levelled, sequence_stated, sequence_tag};
ghost use Rattle.rasn_below.specs.Types.{tagged};
ghost use Rattle.per_samples_a.specs.Pairs.{pair, pair_parts, pair_contents};

use crate::pair::Pair;
use rasn_below::schema::{
    AsnType, Constraints, Constructed, Field, Fields, Presence, TagTree, TypeTree,
};
use rasn_below::types::{Class, Tag};

impl AsnType for Pair {
    const TAG: Tag = Tag::SEQUENCE;

    ghost TAG = { SEQUENCE };

    const TAG_TREE: TypeTree = TypeTree(TagTree::Leaf(Tag::SEQUENCE));

    ghost TAG_TREE = { Some (tagged SEQUENCE) };

    const IS_CHOICE: bool = false;

    const CONSTRAINTS: Constraints<'static> = Constraints::NONE;

    ghost CONSTRAINTS = { no_constraints };

    ghost schema = { λ _. record_at listed pair_parts false no_additions };

    ghost value = { λ x. record_value (pair_contents x.a x.b) [] };

    ghost levels = { λ _. 1 };

    ghost levelled = { λ _. sequence_levelled pair };

    ghost tag_fits = { λ _. sequence_tag pair_parts false no_additions };

    ghost tree_fits = { λ _. sequence_stated pair_parts false no_additions };
}

/// The tags of the components (AUTOMATIC TAGS).
pub(crate) const A: Tag = Tag {
    class: Class::Context,
    value: 0,
};

pub(crate) const B: Tag = Tag {
    class: Class::Context,
    value: 1,
};

const FIELDS: &[Field] = &[
    Field {
        index: 0,
        tag: A,
        tag_tree: TagTree::Leaf(A),
        presence: Presence::Required,
        name: "a",
    },
    Field {
        index: 1,
        tag: B,
        tag_tree: TagTree::Leaf(B),
        presence: Presence::Required,
        name: "b",
    },
];

impl Constructed for Pair {
    const FIELDS: Fields = Fields { list: FIELDS };

    ghost FIELDS = { shapes_from 0 (pair_parts 0) };

    const EXTENDED_FIELDS: Option<Fields> = None;

    ghost EXTENDED_FIELDS = { None };

    const IS_EXTENSIBLE: bool = false;

    ghost IS_EXTENSIBLE = { false };

    ghost parts = { pair_parts };

    ghost contents = { λ x. pair_contents x.a x.b };

    ghost described = { λ _. refl };

    ghost extends = { unextended };

    ghost is_record = { λ _. refl };
}
