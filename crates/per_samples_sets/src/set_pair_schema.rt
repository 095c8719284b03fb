//! What a SET of two required components states: its schema, its tags and its fields.
#![tactic(auto, unfolding(rasn_below::specs::Types::smallest))]

ghost use Rattle.std.specs.Prelude.{false, None, Some, refl};
ghost use Rattle.rasn_below.specs.Values.{set_value};
ghost use Rattle.rasn_below.specs.Components.{fields_in, own_tags};
ghost use Rattle.rasn_below.specs.Types.{SET, no_constraints, unextended, by_tag, set_at, set_levelled};
ghost use Rattle.rasn_below.specs.Types.{set_stated, set_tag, tagged};
ghost use Rattle.per_samples_sets.specs.SetPairs.{set_pair, set_pair_parts, set_pair_contents};

use crate::set_pair::SetPair;
use rasn_below::{
    AsnType, Constraints, Constructed, Field, Fields, Presence, Tag, TagTree, TypeTree, context_tag,
};

/// The tags of the components.
pub(crate) const B: Tag = context_tag!(1);

pub(crate) const A: Tag = context_tag!(0);

const COMPONENTS: Fields = Fields {
    list: &[
        Field {
            index: 0,
            tag: B,
            tag_tree: TagTree::Leaf(B),
            presence: Presence::Required,
            name: "b",
        },
        Field {
            index: 1,
            tag: A,
            tag_tree: TagTree::Leaf(A),
            presence: Presence::Required,
            name: "a",
        },
    ],
};

impl AsnType for SetPair {
    const TAG: Tag = Tag::SET;

    ghost TAG = { SET };

    const TAG_TREE: TypeTree = TypeTree(TagTree::Leaf(Tag::SET));

    ghost TAG_TREE = { Some (tagged SET) };

    const IS_CHOICE: bool = false;

    const CONSTRAINTS: Constraints<'static> = Constraints::NONE;

    ghost CONSTRAINTS = { no_constraints };

    ghost schema = { λ _. set_at (own_tags set_pair) };

    ghost value = { λ x. set_value (set_pair_contents x.b x.a) };

    ghost levels = { λ _. 1 };

    ghost levelled = { λ _. set_levelled (own_tags set_pair) };

    ghost tag_fits = { λ _. set_tag (own_tags set_pair) };

    ghost tree_fits = { λ _. set_stated (own_tags set_pair) };
}

impl Constructed for SetPair {
    const FIELDS: Fields = COMPONENTS;

    ghost FIELDS = { fields_in set_pair };

    const EXTENDED_FIELDS: Option<Fields> = None;

    ghost EXTENDED_FIELDS = { None };

    const IS_EXTENSIBLE: bool = false;

    ghost IS_EXTENSIBLE = { false };

    ghost order = { by_tag };

    ghost parts = { set_pair_parts };

    ghost contents = { λ x. set_pair_contents x.b x.a };

    ghost described = { λ _. refl };

    ghost extends = { unextended };

    ghost is_record = { λ _. refl };
}
