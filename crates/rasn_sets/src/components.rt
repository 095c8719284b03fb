//! SETs that are stated by one list of their components.

ghost use Rattle.std.specs.Prelude.{◌≡◌, ℕ, suc, List, [], length, Option, Some, refl};
ghost use Rattle.std.proofs.Common.{◌∙◌, ap};
ghost use Rattle.rasn_types.specs.Values.{Value};
ghost use Rattle.rasn_types.specs.declared.types.TheConstants.Tag.{SET};
ghost use Rattle.rasn_constraints.specs.Ranges.{no_constraints};
ghost use Rattle.rasn_schema.specs.Components.{TypeLists, added_parts, fields_described, fields_of, has_marker};
ghost use Rattle.rasn_schema.specs.Components.{root_parts};
ghost use Rattle.rasn_schema.specs.Fields.{Shapes, tagged};
ghost use Rattle.rasn_schema.specs.Laws.Fields.{lists_extend};
ghost use Rattle.rasn_schema.specs.Structures.{record_value};
ghost use Rattle.rasn_schema.specs.Schemas.{by_tag};
ghost use Rattle.rasn_sets.specs.SetRecords.{set_at, set_levelled, set_stated, set_tag};

use rasn_schema::fields::{Constructed, FieldLists, Fields, TagTree, TypeTree};
use rasn_schema::kinds::Kind;
use rasn_schema::schema::{AsnType, Constraints};
use rasn_types::types::Tag;

/// The components of a SET (X.680 27), with an extension marker or without one.
pub trait SetComponents {
    /// The components, in the order of the type.
    const COMPONENTS: FieldLists;

    ghost COMPONENTS: { Shapes };

    // The components, in the order of the type, and that the fields are theirs.
    ghost components: { (cs : TypeLists) × (COMPONENTS ≡ fields_of cs) };

    // What the root components of a value are, each absent or there.
    ghost contents: { Self → List (Option Value) };

    // What its additions are, each absent or there.
    ghost added: { Self → List (Option Value) } = { λ _. [] };

    // How many levels the deepest component takes.
    ghost depth: { Self → ℕ } = { λ _. 0 };

    // There are as many as there are root components.
    ghost counted: { (x : Self) → length (contents x) ≡ length components.0.before };
}

/// The kind of a SET (X.680 27).
pub struct SetKind {}

impl<T: SetComponents> Kind<T> for SetKind {
    const TAG: Tag = Tag::SET;

    ghost TAG = { SET };

    const TAG_TREE: TypeTree = TypeTree(TagTree::Leaf(Tag::SET));

    ghost TAG_TREE = { Some (tagged SET) };

    const IS_CHOICE: bool = false;

    ghost schema = { set_at T.components.0 };

    ghost value = { λ x. record_value (T.contents x) (T.added x) };

    ghost levels = { λ x. suc (T.depth x) };

    ghost levelled = { set_levelled T.components.0 };

    ghost tag_fits = { set_tag T.components.0 };

    ghost tree_fits = { set_stated T.components.0 };
}

/// A SET of the components of `T`.
#[derive(Drop)]
pub struct AsSet<T>(pub T);

impl<T: SetComponents> AsnType for AsSet<T> {
    const TAG: Tag = Tag::SET;

    ghost TAG = { SET };

    const TAG_TREE: TypeTree = TypeTree(TagTree::Leaf(Tag::SET));

    ghost TAG_TREE = { Some (tagged SET) };

    const IS_CHOICE: bool = false;

    const CONSTRAINTS: Constraints<'static> = Constraints::NONE;

    ghost CONSTRAINTS = { no_constraints };

    ghost schema = { λ _. set_at T.components.0 };

    ghost value = { λ x. record_value (T.contents x.0) (T.added x.0) };

    ghost levels = { λ x. suc (T.depth x.0) };

    ghost levelled = { λ _. set_levelled T.components.0 };

    ghost tag_fits = { λ _. set_tag T.components.0 };

    ghost tree_fits = { λ _. set_stated T.components.0 };
}

impl<T: SetComponents> Constructed for AsSet<T> {
    const FIELDS: Fields = Fields {
        list: T::COMPONENTS.root,
    };

    ghost FIELDS = { T.COMPONENTS.before };

    const EXTENDED_FIELDS: Option<Fields> = match T::COMPONENTS.added {
        Some(list) => Some(Fields { list }),
        None => None,
    };

    ghost EXTENDED_FIELDS = { T.COMPONENTS.behind };

    const IS_EXTENSIBLE: bool = match T::COMPONENTS.added {
        Some(_) => true,
        None => false,
    };

    ghost IS_EXTENSIBLE = { has_marker T.components.0.behind };

    ghost order = { by_tag };

    ghost parts = { root_parts T.components.0 };

    ghost additions = { added_parts T.components.0 };

    ghost contents = { λ x. T.contents x.0 };

    ghost added = { λ x. T.added x.0 };

    ghost described = { λ n. ap (λ (s : Shapes). s.before) T.components.1
        ∙ fields_described T.components.0.before n };

    ghost extends = { lists_extend T.components.0 T.components.1 };

    ghost is_record = { λ _. refl };
}
