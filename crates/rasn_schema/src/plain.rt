//! The schemas of the plain types: BOOLEAN and NULL as Rust's own types.

ghost use Rattle.std.specs.Prelude.{refl, Some};
ghost use Rattle.rasn_types.specs.Values.{truth, nothing};
ghost use Rattle.rasn_types.specs.declared.types.TheConstants.Tag.{BOOL, NULL};
ghost use Rattle.rasn_schema.specs.Fields.{tagged};
ghost use Rattle.rasn_schema.specs.Schemas.{Schema};
ghost use Rattle.rasn_constraints.specs.Ranges.{no_constraints};
ghost use Rattle.rasn_schema.specs.Forms.{always};
ghost use Rattle.rasn_schema.specs.Levels.{simple_levelled};

use crate::fields::{TagTree, TypeTree};
use crate::schema::{AsnType, Constraints};
use rasn_types::types::Tag;

impl AsnType for bool {
    const TAG: Tag = Tag::BOOL;

    ghost TAG = { BOOL };

    const TAG_TREE: TypeTree = TypeTree(TagTree::Leaf(Tag::BOOL));

    ghost TAG_TREE = { Some (tagged BOOL) };

    const IS_CHOICE: bool = false;

    const CONSTRAINTS: Constraints<'static> = Constraints::NONE;

    ghost CONSTRAINTS = { no_constraints };

    ghost schema = { λ _. always Schema.boolean };

    ghost value = { truth };

    ghost levelled = { λ _. simple_levelled Schema.boolean tt };

    ghost tag_fits = { λ _ _. refl };

    ghost tree_fits = { λ _ _. (refl, refl) };
}

impl AsnType for () {
    const TAG: Tag = Tag::NULL;

    ghost TAG = { NULL };

    const TAG_TREE: TypeTree = TypeTree(TagTree::Leaf(Tag::NULL));

    ghost TAG_TREE = { Some (tagged NULL) };

    const IS_CHOICE: bool = false;

    const CONSTRAINTS: Constraints<'static> = Constraints::NONE;

    ghost CONSTRAINTS = { no_constraints };

    ghost schema = { λ _. always Schema.null };

    ghost value = { λ _. nothing };

    ghost levelled = { λ _. simple_levelled Schema.null tt };

    ghost tag_fits = { λ _ _. refl };

    ghost tree_fits = { λ _ _. (refl, refl) };
}
