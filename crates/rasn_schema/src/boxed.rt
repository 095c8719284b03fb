//! Values in boxes, which have the schema of what they hold: by them a type reaches itself.

use crate::fields::TypeTree;
use crate::schema::{AsnType, Constraints};
use rasn_types::types::{Identifier, Tag};

impl<T: AsnType> AsnType for Box<T> {
    const TAG: Tag = T::TAG;

    ghost TAG = { T.TAG };

    const TAG_TREE: TypeTree = T::TAG_TREE;

    ghost TAG_TREE = { T.TAG_TREE };

    const IS_CHOICE: bool = T::IS_CHOICE;

    ghost IS_CHOICE = { T.IS_CHOICE };

    const CONSTRAINTS: Constraints<'static> = T::CONSTRAINTS;

    ghost CONSTRAINTS = { T.CONSTRAINTS };

    const IDENTIFIER: Identifier = T::IDENTIFIER;

    ghost schema = { T.schema };

    ghost value = { λ x. T.value x.value };

    ghost levels = { λ x. T.levels x.value };

    ghost levelled = { T.levelled };

    ghost tag_fits = { T.tag_fits };

    ghost tree_fits = { T.tree_fits };
}
