//! Records that are stated by one list of their components.

ghost use Rattle.std.specs.Prelude.{◌≡◌, ℕ, suc, List, [], Option, refl, Some};
ghost use Rattle.std.proofs.Common.{◌∙◌, ap};
ghost use Rattle.rasn_types.specs.Values.{Value};
ghost use Rattle.rasn_types.specs.declared.types.TheConstants.Tag.{SEQUENCE};
ghost use Rattle.rasn_schema.specs.Fields.{Shapes, tagged};
ghost use Rattle.rasn_schema.specs.Structures.{record_value};
ghost use Rattle.rasn_schema.specs.Tags.{sequence_tag, sequence_stated};
ghost use Rattle.rasn_schema.specs.Components.{TypeLists, added_parts, has_marker, root_parts, sequence_at};
ghost use Rattle.rasn_schema.specs.Components.{sequence_levelled};
ghost use Rattle.rasn_schema.specs.Components.{fields_of, fields_described};
ghost use Rattle.rasn_schema.specs.Laws.Fields.{lists_extend};

use crate::fields::{AdditionGroup, Constructed, FieldLists, Fields, TagTree, TypeTree};
use crate::kinds::{Kind, OfKind};
use rasn_types::types::Tag;

/// The components of a SEQUENCE (X.680 25), with an extension marker or without one.
pub trait Components {
    /// The components, in their order.
    const COMPONENTS: FieldLists;

    ghost COMPONENTS: { Shapes };

    // The components, and that the fields are theirs.
    ghost components: { (cs : TypeLists) × (COMPONENTS ≡ fields_of cs) };

    // What the root components of a value are, each absent or there.
    ghost contents: { Self → List (Option Value) };

    // What its additions are, each absent or there.
    ghost added: { Self → List (Option Value) } = { λ _. [] };

    // How many levels the deepest component takes.
    ghost depth: { Self → ℕ } = { λ _. 0 };
}

/// The kind of a SEQUENCE (X.680 25).
pub struct SequenceKind {}

impl<T: Components> OfKind for T {
    type Kind = SequenceKind;
}

impl<T: Components> Kind<T> for SequenceKind {
    const TAG: Tag = Tag::SEQUENCE;

    ghost TAG = { SEQUENCE };

    const TAG_TREE: TypeTree = TypeTree(TagTree::Leaf(Tag::SEQUENCE));

    ghost TAG_TREE = { Some (tagged SEQUENCE) };

    const IS_CHOICE: bool = false;

    ghost schema = { sequence_at T.components.0 };

    ghost value = { λ x. record_value (T.contents x) (T.added x) };

    ghost levels = { λ x. suc (T.depth x) };

    ghost levelled = { sequence_levelled T.components.0 };

    ghost tag_fits = { let cs = T.components.0 in
        sequence_tag (root_parts cs) (has_marker cs.behind) (added_parts cs) };

    ghost tree_fits = { let cs = T.components.0 in
        sequence_stated (root_parts cs) (has_marker cs.behind) (added_parts cs) };
}

impl<T: Components> Constructed for T {
    const FIELDS: Fields = Fields {
        list: T::COMPONENTS.root,
    };

    ghost FIELDS = { T.COMPONENTS.before };

    const EXTENDED_FIELDS: Option<Fields> = match T::COMPONENTS.added {
        Some(list) => Some(Fields { list }),
        None => None,
    };

    ghost EXTENDED_FIELDS = { T.COMPONENTS.behind };

    const IS_EXTENSIBLE: bool = match T::COMPONENTS.added {
        Some(_) => true,
        None => false,
    };

    ghost IS_EXTENSIBLE = { has_marker T.components.0.behind };

    ghost parts = { root_parts T.components.0 };

    ghost additions = { added_parts T.components.0 };

    ghost contents = { T.Components.contents };

    ghost added = { T.Components.added };

    ghost described = { λ n. ap (λ (s : Shapes). s.before) T.components.1
        ∙ fields_described T.components.0.before n };

    ghost extends = { lists_extend T.components.0 T.components.1 };

    ghost is_record = { λ _. refl };
}

impl<T: Components> AdditionGroup for T {
    ghost is_sequence = { λ _. refl };
}
