//! What a SET by a function for each component states: its schema, its tags and its fields.
#![tactic(auto, unfolding(rasn_below::specs::Types::smallest))]

ghost use Rattle.std.specs.Prelude.{[], false, None, Some, refl};
ghost use Rattle.rasn_below.specs.Values.{set_value};
ghost use Rattle.rasn_below.specs.Components.{fields_in, own_tags, parts_of};
ghost use Rattle.rasn_below.specs.Types.{SET, no_constraints, unextended, by_tag, set_at, set_levelled};
ghost use Rattle.rasn_below.specs.Types.{set_stated, set_tag, tagged};
ghost use Rattle.per_samples_sets.specs.Each.{set_each, set_each_contents};

use crate::set_each::SetEach;
use rasn_below::{
    AsnType, Class, Constraints, Constructed, Field, Fields, Presence, Tag, TagTree, TypeTree,
};

/// A component that may be absent.
macro_rules! field {
    ($index:literal $class:ident $number:literal $name:literal) => {
        Field {
            index: $index,
            tag: Tag { class: Class::$class, value: $number },
            tag_tree: TagTree::Leaf(Tag { class: Class::$class, value: $number }),
            presence: Presence::Optional,
            name: $name,
        }
    };
}

const COMPONENTS: Fields = Fields {
    list: &[
        field!(0 Private 0 "p"),
        field!(1 Context 0 "q"),
        field!(2 Context 1 "r"),
    ],
};

impl AsnType for SetEach {
    const TAG: Tag = Tag::SET;

    ghost TAG = { SET };

    const TAG_TREE: TypeTree = TypeTree(TagTree::Leaf(Tag::SET));

    ghost TAG_TREE = { Some (tagged SET) };

    const IS_CHOICE: bool = false;

    const CONSTRAINTS: Constraints<'static> = Constraints::NONE;

    ghost CONSTRAINTS = { no_constraints };

    ghost schema = { λ _. set_at (own_tags set_each) };

    ghost value = { λ x. set_value (set_each_contents x) };

    ghost levels = { λ _. 1 };

    ghost levelled = { λ _. set_levelled (own_tags set_each) };

    ghost tag_fits = { λ _. set_tag (own_tags set_each) };

    ghost tree_fits = { λ _. set_stated (own_tags set_each) };
}

impl Constructed for SetEach {
    const FIELDS: Fields = COMPONENTS;

    ghost FIELDS = { fields_in set_each };

    const EXTENDED_FIELDS: Option<Fields> = None;

    ghost EXTENDED_FIELDS = { None };

    const IS_EXTENSIBLE: bool = false;

    ghost IS_EXTENSIBLE = { false };

    ghost order = { by_tag };

    ghost parts = { parts_of set_each };

    ghost contents = { set_each_contents };

    ghost described = { λ _. refl };

    ghost extends = { unextended };

    ghost is_record = { λ _. refl };
}
