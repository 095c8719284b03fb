//! A SEQUENCE of two required components of any types, by the cells of them.

ghost use Rattle.std.specs.Prelude.{refl, None, Some, [], false, suc, max};
ghost use Rattle.rasn_below.specs.Values.{record_value};
ghost use Rattle.rasn_below.specs.Types.{SEQUENCE, no_constraints, unextended, shapes_from, no_additions};
ghost use Rattle.rasn_below.specs.Types.{sequence_stated, sequence_tag, tagged};
ghost use Rattle.per_samples_a.specs.Boths.{both_parts, both_schema, both_levelled, both_contents};

use rasn_below::NoAdditions;
use rasn_below::cells::{Cell, End, Listed};
use rasn_below::codec::{Decode, Decoder, Encode, Encoder};
use rasn_below::schema::{
    AsnType, Constraints, Constructed, Field, Fields, Presence, TagTree, TypeTree,
};
use rasn_below::types::{Class, Identifier, Tag};
use std::marker::PhantomData;

/// SEQUENCE { a A, b B }
#[derive(Drop)]
pub struct Both<A, B> {
    pub a: A,
    pub b: B,
}

impl<A: AsnType, B: AsnType> AsnType for Both<A, B> {
    const TAG: Tag = Tag::SEQUENCE;

    ghost TAG = { SEQUENCE };

    const TAG_TREE: TypeTree = TypeTree(TagTree::Leaf(Tag::SEQUENCE));

    ghost TAG_TREE = { Some (tagged SEQUENCE) };

    const IS_CHOICE: bool = false;

    const CONSTRAINTS: Constraints<'static> = Constraints::NONE;

    ghost CONSTRAINTS = { no_constraints };

    ghost schema = { λ _. both_schema (A.schema A.CONSTRAINTS) (B.schema B.CONSTRAINTS) };

    ghost value = { λ x. record_value (both_contents (A.value x.a) (B.value x.b)) [] };

    ghost levels = { λ x. suc (max (A.levels x.a) (max (B.levels x.b) 0)) };

    ghost levelled = { λ _. both_levelled (A.levelled A.CONSTRAINTS) (B.levelled B.CONSTRAINTS) };

    ghost tag_fits = { λ _.
        sequence_tag (both_parts (A.schema A.CONSTRAINTS) (B.schema B.CONSTRAINTS)) false no_additions };

    ghost tree_fits = { λ _.
        sequence_stated (both_parts (A.schema A.CONSTRAINTS) (B.schema B.CONSTRAINTS)) false no_additions };
}

/// The tags of the components (AUTOMATIC TAGS).
const A_TAG: Tag = Tag {
    class: Class::Context,
    value: 0,
};

const B_TAG: Tag = Tag {
    class: Class::Context,
    value: 1,
};

const FIELDS: &[Field] = &[
    Field {
        index: 0,
        tag: A_TAG,
        tag_tree: TagTree::Leaf(A_TAG),
        presence: Presence::Required,
        name: "a",
    },
    Field {
        index: 1,
        tag: B_TAG,
        tag_tree: TagTree::Leaf(B_TAG),
        presence: Presence::Required,
        name: "b",
    },
];

impl<A: AsnType, B: AsnType> Constructed for Both<A, B> {
    const FIELDS: Fields = Fields { list: FIELDS };

    ghost FIELDS = { shapes_from 0 (both_parts (A.schema A.CONSTRAINTS) (B.schema B.CONSTRAINTS) 0) };

    const EXTENDED_FIELDS: Option<Fields> = None;

    ghost EXTENDED_FIELDS = { None };

    const IS_EXTENSIBLE: bool = false;

    ghost IS_EXTENSIBLE = { false };

    ghost parts = { both_parts (A.schema A.CONSTRAINTS) (B.schema B.CONSTRAINTS) };

    ghost contents = { λ x. both_contents (A.value x.a) (B.value x.b) };

    ghost described = { λ _. refl };

    ghost extends = { unextended };

    ghost is_record = { λ _. refl };
}

impl<A: Encode, B: Encode> Encode for Both<A, B> {
    fn encode_with_tag_and_constraints<E: Encoder>(
        &self,
        encoder: &mut E,
        tag: Tag,
        constraints: &Constraints,
        identifier: Identifier,
    ) -> Result<(), E::Error> {
        let _ = constraints;
        let parts = Listed {
            fields: FIELDS,
            constraints: &[],
            cells: Cell {
                component: &self.a,
                next: Cell {
                    component: &self.b,
                    next: End {},
                },
            },
        };
        encoder.encode_record::<Both<A, B>, _, _, _>(tag, &parts, &NoAdditions, identifier)
    }
}

impl<A: Decode, B: Decode> Decode for Both<A, B> {
    fn decode_with_tag_and_constraints<D: Decoder>(
        decoder: &mut D,
        tag: Tag,
        constraints: &Constraints,
    ) -> Result<Both<A, B>, D::Error> {
        let _ = constraints;
        let parts = Listed {
            fields: FIELDS,
            constraints: &[],
            cells: Cell {
                component: PhantomData::<A>,
                next: Cell {
                    component: PhantomData::<B>,
                    next: End {},
                },
            },
        };
        let ((a, (b, ())), ()) = decoder.decode_record::<Both<A, B>, _, _>(
            tag,
            &parts,
            &NoAdditions,
        )?;
        Ok(Both { a, b })
    }
}
