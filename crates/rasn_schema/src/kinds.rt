//! Types that state on one page what they list: what is alike in all types of a kind follows from their kind.

ghost use Rattle.std.specs.Prelude.{ℕ};
ghost use Rattle.rasn_constraints.specs.Ranges.{no_constraints};
ghost use Rattle.rasn_schema.specs.Levels.{Levelled};
ghost use Rattle.rasn_schema.specs.Schemas.{Schema};
ghost use Rattle.rasn_schema.specs.Tags.{AreTagsOf, IsTagOf};
ghost use Rattle.rasn_types.specs.Values.{Value};

use crate::fields::TypeTree;
use crate::schema::{AsnType, Constraints};
use rasn_types::types::Tag;

/// A type of one of the kinds.
pub trait OfKind {
    /// `SequenceKind`, for a type with `Components`.
    type Kind;
}

/// What a type `T` of a kind is.
pub trait Kind<T> {
    ghost use Rattle.std.specs.Prelude.{Bool, false, Option};
    ghost use Rattle.rasn_schema.specs.Schemas.{TagTree};
    ghost use Rattle.rasn_types.specs.declared.types.Tag.{Tag};

    /// The tag of the types of this kind (X.680 8.4).
    const TAG: Tag;

    ghost TAG: { Tag };

    /// The tags under which a component of the type stands (X.680 29).
    const TAG_TREE: TypeTree;

    ghost TAG_TREE: { Option TagTree };

    /// Whether this is the kind of a CHOICE (X.680 29).
    const IS_CHOICE: bool;

    ghost IS_CHOICE: { Bool } = { false };

    // The schema, to a number of levels.
    ghost schema: { ℕ → Schema };

    // The value that a value of the type is.
    ghost value: { T → Value };

    // How many levels a value takes.
    ghost levels: { T → ℕ };

    // Each unfolding is the next one to its number of levels.
    ghost levelled: { Levelled schema };

    // A universal tag is one of the schema's kind.
    ghost tag_fits: { IsTagOf TAG schema };

    // The tag tree is that of the tag and the schema, and the schema is a choice's where the kind is one.
    ghost tree_fits: { AreTagsOf TAG TAG_TREE IS_CHOICE schema };
}

impl<T: OfKind> AsnType for T
where
    T::Kind: Kind<T>,
{
    const TAG: Tag = <T::Kind as Kind<T>>::TAG;

    ghost TAG = { T.Kind.TAG };

    const TAG_TREE: TypeTree = <T::Kind as Kind<T>>::TAG_TREE;

    ghost TAG_TREE = { T.Kind.TAG_TREE };

    const IS_CHOICE: bool = <T::Kind as Kind<T>>::IS_CHOICE;

    ghost IS_CHOICE = { T.Kind.IS_CHOICE };

    const CONSTRAINTS: Constraints<'static> = Constraints::NONE;

    ghost CONSTRAINTS = { no_constraints };

    ghost schema = { λ _. T.Kind.schema };

    ghost value = { T.Kind.value };

    ghost levels = { T.Kind.levels };

    ghost levelled = { λ _. T.Kind.levelled };

    ghost tag_fits = { λ _. T.Kind.tag_fits };

    ghost tree_fits = { λ _. T.Kind.tree_fits };
}
