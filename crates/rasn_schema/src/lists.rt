//! The schemas of SEQUENCE OF (X.680 26), which is a `Vec` of its elements.

ghost use Rattle.std.specs.Prelude.{suc, map, Some};
ghost use Rattle.rasn_types.specs.declared.types.TheConstants.Tag.{SEQUENCE};
ghost use Rattle.rasn_constraints.specs.Ranges.{no_constraints};
ghost use Rattle.rasn_schema.specs.Fields.{tagged};
ghost use Rattle.rasn_schema.specs.Forms.{is_size_marked, size_of};
ghost use Rattle.rasn_schema.specs.Lists.{deepest, list_at, list_levelled, list_tag, list_stated};
ghost use Rattle.rasn_schema.specs.Structures.{list_value};

use crate::fields::{TagTree, TypeTree};
use crate::schema::{AsnType, Constraints};
use rasn_types::types::Tag;

impl<T: AsnType> AsnType for Vec<T> {
    const TAG: Tag = Tag::SEQUENCE;

    ghost TAG = { SEQUENCE };

    const TAG_TREE: TypeTree = TypeTree(TagTree::Leaf(Tag::SEQUENCE));

    ghost TAG_TREE = { Some (tagged SEQUENCE) };

    const IS_CHOICE: bool = false;

    const CONSTRAINTS: Constraints<'static> = Constraints::NONE;

    ghost CONSTRAINTS = { no_constraints };

    ghost schema = { λ c. list_at (T.schema T.CONSTRAINTS) (size_of c) (is_size_marked c) };

    ghost value = { λ xs. list_value (map T.value xs.items) };

    ghost levels = { λ xs. suc (deepest T.levels xs.items) };

    ghost levelled = { λ c. list_levelled (size_of c) (is_size_marked c) (T.levelled T.CONSTRAINTS) };

    ghost tag_fits = { λ c. list_tag (T.schema T.CONSTRAINTS) (size_of c) (is_size_marked c) };

    ghost tree_fits = { λ c. list_stated (T.schema T.CONSTRAINTS) (size_of c) (is_size_marked c) };
}
