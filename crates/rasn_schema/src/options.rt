//! What an `Option` states: the schema of what it may hold. `None` is no value of any schema.

ghost use Rattle.rasn_schema.specs.Absent.{levels_if, value_if};

use crate::fields::TypeTree;
use crate::schema::{AsnType, Constraints};
use rasn_types::types::{Identifier, Tag};

impl<T: AsnType> AsnType for Option<T> {
    const TAG: Tag = T::TAG;

    ghost TAG = { T.TAG };

    const TAG_TREE: TypeTree = T::TAG_TREE;

    ghost TAG_TREE = { T.TAG_TREE };

    const IS_CHOICE: bool = T::IS_CHOICE;

    ghost IS_CHOICE = { T.IS_CHOICE };

    const CONSTRAINTS: Constraints<'static> = T::CONSTRAINTS;

    ghost CONSTRAINTS = { T.CONSTRAINTS };

    const IDENTIFIER: Identifier = T::IDENTIFIER;

    ghost schema = { T.schema };

    ghost value = { value_if T.value };

    ghost levels = { levels_if T.levels };

    ghost levelled = { T.levelled };

    ghost tag_fits = { T.tag_fits };

    ghost tree_fits = { T.tree_fits };
}
