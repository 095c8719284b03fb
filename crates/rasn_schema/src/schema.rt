//! What a type states of its schema.

ghost use Rattle.std.specs.Prelude.{ℕ};
ghost use Rattle.rasn_types.specs.Values.{Value};
ghost use Rattle.rasn_schema.specs.Schemas.{Schema};
ghost use Rattle.rasn_schema.specs.Levels.{Levelled};
ghost use Rattle.rasn_schema.specs.Tags.{AreTagsOf, IsTagOf};

use crate::fields::TypeTree;
pub use rasn_constraints::constraints::Constraints;
pub use rasn_constraints::integer_type::IntegerType;
use rasn_types::types::{Identifier, Tag};

/// A type of ASN.1: its tag, its constraints and its schema.
pub trait AsnType {
    ghost use Rattle.std.specs.Prelude.{Bool, false, Option};
    ghost use Rattle.rasn_schema.specs.Schemas.{TagTree};
    ghost use Rattle.rasn_types.specs.declared.types.Tag.{Tag};
    ghost use Rattle.rasn_constraints.specs.declared.constraints.Constraints.{Constraints};

    /// The tag of the type: where its class is universal, the one of its kind (X.680 8.4).
    const TAG: Tag;

    ghost TAG: { Tag };

    /// The tags under which a component of the type stands: its own, or those of the root alternatives of an untagged
    /// CHOICE (X.680 29).
    const TAG_TREE: TypeTree;

    ghost TAG_TREE: { Option TagTree };

    /// Whether the type is a CHOICE (X.680 29).
    const IS_CHOICE: bool;

    ghost IS_CHOICE: { Bool } = { false };

    /// The constraints of the type.
    const CONSTRAINTS: Constraints<'static>;

    ghost CONSTRAINTS: { Constraints };

    /// The name of the type, where it has one: none, if the type says nothing.
    const IDENTIFIER: Identifier = Identifier::EMPTY;

    // The schema under constraints, to a number of levels.
    ghost schema: { Constraints → ℕ → Schema };

    // The value that a value of the type is.
    ghost value: { Self → Value };

    // How many levels a value takes: at each unfolding that is as deep, none of it is cut off. A type with no parts
    // takes none.
    ghost levels: { Self → ℕ } = { λ _. 0 };

    // Each unfolding is the next one to its number of levels: a list, a record and a choice take one each. So every
    // value is held by some unfolding.
    ghost levelled: { (c : Constraints) → Levelled (schema c) };

    // A universal tag is one of the schema's kind.
    ghost tag_fits: { (c : Constraints) → IsTagOf TAG (schema c) };

    // The tag tree is that of the tag and the schema, and the schema is a choice's where the type says so.
    ghost tree_fits: { (c : Constraints) → AreTagsOf TAG TAG_TREE IS_CHOICE (schema c) };
}
