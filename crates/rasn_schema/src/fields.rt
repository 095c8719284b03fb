//! What a record states of its components: their tags, in which order they stand, and whether they may be absent.

ghost use Rattle.std.specs.Prelude.{◌≡◌, ℕ, Bool, List, [], length, Option, count_by};
ghost use Rattle.rasn_types.specs.Values.{Value};
ghost use Rattle.rasn_schema.specs.Schemas.{Parts, Order, listed};
ghost use Rattle.rasn_schema.specs.Records.{record_at, no_additions};

use crate::schema::AsnType;
use rasn_types::types::Tag;
use std::alloc::{AllocError, Allocator};
use std::marker::Model;

/// The tags of a type: its own, or those of the root alternatives of an untagged choice (X.680 29).
#[derive(Clone, Copy)]
pub enum TagTree {
    /// The tag of the type.
    Leaf(Tag),
    /// The trees of the root alternatives of an untagged choice. There is at least one.
    Choice(&'static [TagTree]),
}

/// The tags of a type, as it states them.
#[derive(Drop)]
pub struct TypeTree(pub TagTree);

impl Model for TypeTree {
    ghost use Rattle.std.specs.Prelude.{Option};
    ghost use Rattle.std.specs.Coded.{codes};
    ghost use Rattle.rasn_schema.specs.Fields.{tree_of};
    ghost use Rattle.rasn_schema.specs.Schemas.{TagTree};
    ghost use Rattle.rasn_schema.specs.Laws.TagCodes.{tree_code};

    ghost Value = { Option TagTree };

    ghost coded = { Prim.hlevel (codes, tree_code) };

    ghost view = { λ t. tree_of t.0 };
}

/// Whether a component of a record may be absent (X.680 25.4).
#[derive(Clone, Copy, Debug, PartialEq, Eq)]
pub enum Presence {
    /// It is always there.
    Required,
    /// It may be absent.
    Optional,
    /// Where it is absent its default stands for it.
    Default,
}

/// A component of a record.
#[derive(Clone, Copy)]
pub struct Field {
    /// Its place in its list, from 0.
    pub index: usize,
    /// The smallest tag of its tag tree.
    pub tag: Tag,
    /// Its tags.
    pub tag_tree: TagTree,
    /// Whether it may be absent.
    pub presence: Presence,
    /// Its name.
    pub name: &'static str,
}

/// The components of a record, in the order in which its type lists them.
#[derive(Drop)]
pub struct Fields {
    /// The fields, each at its index.
    pub list: &'static [Field],
}

impl Model for Fields {
    ghost use Rattle.std.specs.Prelude.{List, map};
    ghost use Rattle.std.specs.Coded.{codes};
    ghost use Rattle.rasn_schema.specs.Fields.{Shape, shape_of};
    ghost use Rattle.rasn_schema.specs.Laws.TagCodes.{tree_code};

    ghost Value = { List Shape };

    ghost coded = { Prim.hlevel (codes, tree_code) };

    ghost view = { λ fields. map shape_of fields.list.now };
}

/// The components of a record as its type lists them (X.680 25.1).
#[derive(Drop)]
pub struct FieldLists {
    /// The root components, each at its index.
    pub root: &'static [Field],
    /// The additions after the extension marker, each at its index. There is a marker exactly where this is `Some`.
    pub added: Option<&'static [Field]>,
}

impl Model for FieldLists {
    ghost use Rattle.std.specs.Prelude.{map, option_map};
    ghost use Rattle.std.specs.Coded.{codes};
    ghost use Rattle.rasn_schema.specs.Fields.{Shapes, shape_of};
    ghost use Rattle.rasn_schema.specs.Laws.TagCodes.{tree_code};

    ghost Value = { Shapes };

    ghost coded = { Prim.hlevel (codes, tree_code) };

    ghost view = { λ fields. record {
      before = map shape_of fields.root.now;
      behind = option_map (λ list. map shape_of list.now) fields.added;
    } };
}

impl Fields {
    ghost use Rattle.std.specs.Prelude.{map, IfOk};
    ghost use Rattle.rasn_schema.specs.Fields.{in_tag_order, may_be_absent, shape_of};

    /// How many components there are.
    pub fn len(&self) -> usize
        ensures { result ≡ length self.now }
    {
        self.list.len()
    }

    /// How many of the components may be absent: each has a presence bit (X.691 19.2).
    #[inline(always)]
    pub fn number_of_optional_and_default_fields(&self) -> usize
        ensures { result ≡ count_by may_be_absent self.now }
    {
        let mut count = 0;
        for field in self.list {
            if field.presence != Presence::Required {
                count += 1;
            }
        }
        count
    }

    /// The components in ascending order of their smallest tags, in which those of a SET are written (X.691 21.1);
    /// those of one tag stay in the order of the type. The only error is want of memory.
    pub fn canonised<A: Allocator>(&self, alloc: A) -> Result<Vec<Field, A>, AllocError>
        ensures { IfOk result (λ fields. map shape_of fields.items ≡ in_tag_order self.now) }
    {
        let mut fields = self.list.to_vec(alloc)?;
        fields.sort_by_key(|field| field.tag)?;
        Ok(fields)
    }
}

/// A record: a SEQUENCE, or a SET (X.680 25, 27).
pub trait Constructed: AsnType {
    ghost use Rattle.rasn_types.specs.declared.types.Tag.{Tag};
    ghost use Rattle.rasn_schema.specs.Extensions.{Extends};
    ghost use Rattle.rasn_schema.specs.Fields.{Shape, shapes_from};
    ghost use Rattle.rasn_constraints.specs.declared.constraints.Constraints.{Constraints};

    /// The root components, in the order of the type.
    const FIELDS: Fields;

    ghost FIELDS: { List Shape };

    /// The additions after the extension marker, in the order of the type: an addition group is one of them.
    const EXTENDED_FIELDS: Option<Fields>;

    ghost EXTENDED_FIELDS: { Option (List Shape) };

    /// Whether the type has an extension marker (X.680 25.1).
    const IS_EXTENSIBLE: bool;

    ghost IS_EXTENSIBLE: { Bool };

    // The order in which the root components are written: as listed in a SEQUENCE, by their tags in a SET.
    ghost order: { Order } = { listed };

    // The root components, to a number of levels.
    ghost parts: { ℕ → Parts };

    // The additions, to a number of levels.
    ghost additions: { ℕ → Parts } = { no_additions };

    // What the root components of a value are, each absent or there.
    ghost contents: { Self → List (Option Value) };

    // What its additions are, each absent or there.
    ghost added: { Self → List (Option Value) } = { λ _. [] };

    // The fields are those of the components.
    ghost described: { (n : ℕ) → FIELDS ≡ shapes_from 0 (parts n) };

    // The fields after the marker are those of the additions, which are after a marker alone.
    ghost extends: { Extends IS_EXTENSIBLE EXTENDED_FIELDS additions };

    // The schema is the record of the components.
    ghost is_record: { (c : Constraints) → Self.schema c ≡ record_at order parts IS_EXTENSIBLE additions };
}

/// A SEQUENCE that may be an addition group of another one (X.680 25.1).
pub trait AdditionGroup: Constructed {
    ghost use Rattle.rasn_constraints.specs.declared.constraints.Constraints.{Constraints};

    // The schema is the SEQUENCE of the components.
    ghost is_sequence: { (c : Constraints)
        → Self.schema c ≡ record_at listed Self.parts Self.IS_EXTENSIBLE Self.additions };
}
