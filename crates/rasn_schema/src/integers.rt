//! The schemas of INTEGER as Rust's own number types, and as one that holds every number.

ghost use Rattle.std.specs.Prelude.{pos, refl, Some};
ghost use Rattle.rasn_types.specs.Values.{whole};
ghost use Rattle.rasn_types.specs.declared.types.TheConstants.Tag.{INTEGER};
ghost use Rattle.rasn_constraints.specs.Bounds.{unbounded};
ghost use Rattle.rasn_constraints.specs.Ranges.{no_constraints, within, i128_range, signed_range, unsigned_range};
ghost use Rattle.rasn_schema.specs.Fields.{tagged};
ghost use Rattle.rasn_schema.specs.Forms.{number_schema, always};
ghost use Rattle.rasn_schema.specs.Levels.{simple_levelled};

use crate::fields::{TagTree, TypeTree};
use crate::schema::AsnType;
use rasn_constraints::constraints::{Bounded, Constraint, Constraints, Extensible};
use rasn_types::big::Integer;
use rasn_types::types::Tag;

const I8_RANGE: &[Constraint] = &[Constraint::Value(Extensible {
    constraint: Bounded::Range {
        start: Some(i8::MIN as i128),
        end: Some(i8::MAX as i128),
    },
    extensible: false,
})];

impl AsnType for i8 {
    const TAG: Tag = Tag::INTEGER;

    ghost TAG = { INTEGER };

    const TAG_TREE: TypeTree = TypeTree(TagTree::Leaf(Tag::INTEGER));

    ghost TAG_TREE = { Some (tagged INTEGER) };

    const IS_CHOICE: bool = false;

    const CONSTRAINTS: Constraints<'static> = Constraints(I8_RANGE);

    ghost CONSTRAINTS = { within (signed_range 8) };

    ghost schema = { λ c. always (number_schema c (signed_range 8)) };

    ghost value = { whole };

    ghost levelled = { λ c. simple_levelled (number_schema c (signed_range 8)) tt };

    ghost tag_fits = { λ _ _. refl };

    ghost tree_fits = { λ _ _. (refl, refl) };
}

const I16_RANGE: &[Constraint] = &[Constraint::Value(Extensible {
    constraint: Bounded::Range {
        start: Some(i16::MIN as i128),
        end: Some(i16::MAX as i128),
    },
    extensible: false,
})];

impl AsnType for i16 {
    const TAG: Tag = Tag::INTEGER;

    ghost TAG = { INTEGER };

    const TAG_TREE: TypeTree = TypeTree(TagTree::Leaf(Tag::INTEGER));

    ghost TAG_TREE = { Some (tagged INTEGER) };

    const IS_CHOICE: bool = false;

    const CONSTRAINTS: Constraints<'static> = Constraints(I16_RANGE);

    ghost CONSTRAINTS = { within (signed_range 16) };

    ghost schema = { λ c. always (number_schema c (signed_range 16)) };

    ghost value = { whole };

    ghost levelled = { λ c. simple_levelled (number_schema c (signed_range 16)) tt };

    ghost tag_fits = { λ _ _. refl };

    ghost tree_fits = { λ _ _. (refl, refl) };
}

const I32_RANGE: &[Constraint] = &[Constraint::Value(Extensible {
    constraint: Bounded::Range {
        start: Some(i32::MIN as i128),
        end: Some(i32::MAX as i128),
    },
    extensible: false,
})];

impl AsnType for i32 {
    const TAG: Tag = Tag::INTEGER;

    ghost TAG = { INTEGER };

    const TAG_TREE: TypeTree = TypeTree(TagTree::Leaf(Tag::INTEGER));

    ghost TAG_TREE = { Some (tagged INTEGER) };

    const IS_CHOICE: bool = false;

    const CONSTRAINTS: Constraints<'static> = Constraints(I32_RANGE);

    ghost CONSTRAINTS = { within (signed_range 32) };

    ghost schema = { λ c. always (number_schema c (signed_range 32)) };

    ghost value = { whole };

    ghost levelled = { λ c. simple_levelled (number_schema c (signed_range 32)) tt };

    ghost tag_fits = { λ _ _. refl };

    ghost tree_fits = { λ _ _. (refl, refl) };
}

const I64_RANGE: &[Constraint] = &[Constraint::Value(Extensible {
    constraint: Bounded::Range {
        start: Some(i64::MIN as i128),
        end: Some(i64::MAX as i128),
    },
    extensible: false,
})];

impl AsnType for i64 {
    const TAG: Tag = Tag::INTEGER;

    ghost TAG = { INTEGER };

    const TAG_TREE: TypeTree = TypeTree(TagTree::Leaf(Tag::INTEGER));

    ghost TAG_TREE = { Some (tagged INTEGER) };

    const IS_CHOICE: bool = false;

    const CONSTRAINTS: Constraints<'static> = Constraints(I64_RANGE);

    ghost CONSTRAINTS = { within (signed_range 64) };

    ghost schema = { λ c. always (number_schema c (signed_range 64)) };

    ghost value = { whole };

    ghost levelled = { λ c. simple_levelled (number_schema c (signed_range 64)) tt };

    ghost tag_fits = { λ _ _. refl };

    ghost tree_fits = { λ _ _. (refl, refl) };
}

impl AsnType for i128 {
    const TAG: Tag = Tag::INTEGER;

    ghost TAG = { INTEGER };

    const TAG_TREE: TypeTree = TypeTree(TagTree::Leaf(Tag::INTEGER));

    ghost TAG_TREE = { Some (tagged INTEGER) };

    const IS_CHOICE: bool = false;

    const CONSTRAINTS: Constraints<'static> = Constraints::NONE;

    ghost CONSTRAINTS = { no_constraints };

    ghost schema = { λ c. always (number_schema c i128_range) };

    ghost value = { whole };

    ghost levelled = { λ c. simple_levelled (number_schema c i128_range) tt };

    ghost tag_fits = { λ _ _. refl };

    ghost tree_fits = { λ _ _. (refl, refl) };
}

const U8_RANGE: &[Constraint] = &[Constraint::Value(Extensible {
    constraint: Bounded::Range {
        start: Some(u8::MIN as i128),
        end: Some(u8::MAX as i128),
    },
    extensible: false,
})];

impl AsnType for u8 {
    const TAG: Tag = Tag::INTEGER;

    ghost TAG = { INTEGER };

    const TAG_TREE: TypeTree = TypeTree(TagTree::Leaf(Tag::INTEGER));

    ghost TAG_TREE = { Some (tagged INTEGER) };

    const IS_CHOICE: bool = false;

    const CONSTRAINTS: Constraints<'static> = Constraints(U8_RANGE);

    ghost CONSTRAINTS = { within (unsigned_range 8) };

    ghost schema = { λ c. always (number_schema c (unsigned_range 8)) };

    ghost value = { λ n. whole (pos n) };

    ghost levelled = { λ c. simple_levelled (number_schema c (unsigned_range 8)) tt };

    ghost tag_fits = { λ _ _. refl };

    ghost tree_fits = { λ _ _. (refl, refl) };
}

const U16_RANGE: &[Constraint] = &[Constraint::Value(Extensible {
    constraint: Bounded::Range {
        start: Some(u16::MIN as i128),
        end: Some(u16::MAX as i128),
    },
    extensible: false,
})];

impl AsnType for u16 {
    const TAG: Tag = Tag::INTEGER;

    ghost TAG = { INTEGER };

    const TAG_TREE: TypeTree = TypeTree(TagTree::Leaf(Tag::INTEGER));

    ghost TAG_TREE = { Some (tagged INTEGER) };

    const IS_CHOICE: bool = false;

    const CONSTRAINTS: Constraints<'static> = Constraints(U16_RANGE);

    ghost CONSTRAINTS = { within (unsigned_range 16) };

    ghost schema = { λ c. always (number_schema c (unsigned_range 16)) };

    ghost value = { λ n. whole (pos n) };

    ghost levelled = { λ c. simple_levelled (number_schema c (unsigned_range 16)) tt };

    ghost tag_fits = { λ _ _. refl };

    ghost tree_fits = { λ _ _. (refl, refl) };
}

const U32_RANGE: &[Constraint] = &[Constraint::Value(Extensible {
    constraint: Bounded::Range {
        start: Some(u32::MIN as i128),
        end: Some(u32::MAX as i128),
    },
    extensible: false,
})];

impl AsnType for u32 {
    const TAG: Tag = Tag::INTEGER;

    ghost TAG = { INTEGER };

    const TAG_TREE: TypeTree = TypeTree(TagTree::Leaf(Tag::INTEGER));

    ghost TAG_TREE = { Some (tagged INTEGER) };

    const IS_CHOICE: bool = false;

    const CONSTRAINTS: Constraints<'static> = Constraints(U32_RANGE);

    ghost CONSTRAINTS = { within (unsigned_range 32) };

    ghost schema = { λ c. always (number_schema c (unsigned_range 32)) };

    ghost value = { λ n. whole (pos n) };

    ghost levelled = { λ c. simple_levelled (number_schema c (unsigned_range 32)) tt };

    ghost tag_fits = { λ _ _. refl };

    ghost tree_fits = { λ _ _. (refl, refl) };
}

const U64_RANGE: &[Constraint] = &[Constraint::Value(Extensible {
    constraint: Bounded::Range {
        start: Some(u64::MIN as i128),
        end: Some(u64::MAX as i128),
    },
    extensible: false,
})];

impl AsnType for u64 {
    const TAG: Tag = Tag::INTEGER;

    ghost TAG = { INTEGER };

    const TAG_TREE: TypeTree = TypeTree(TagTree::Leaf(Tag::INTEGER));

    ghost TAG_TREE = { Some (tagged INTEGER) };

    const IS_CHOICE: bool = false;

    const CONSTRAINTS: Constraints<'static> = Constraints(U64_RANGE);

    ghost CONSTRAINTS = { within (unsigned_range 64) };

    ghost schema = { λ c. always (number_schema c (unsigned_range 64)) };

    ghost value = { λ n. whole (pos n) };

    ghost levelled = { λ c. simple_levelled (number_schema c (unsigned_range 64)) tt };

    ghost tag_fits = { λ _ _. refl };

    ghost tree_fits = { λ _ _. (refl, refl) };
}

impl AsnType for Integer {
    const TAG: Tag = Tag::INTEGER;

    ghost TAG = { INTEGER };

    const TAG_TREE: TypeTree = TypeTree(TagTree::Leaf(Tag::INTEGER));

    ghost TAG_TREE = { Some (tagged INTEGER) };

    const IS_CHOICE: bool = false;

    const CONSTRAINTS: Constraints<'static> = Constraints::NONE;

    ghost CONSTRAINTS = { no_constraints };

    ghost schema = { λ c. always (number_schema c unbounded) };

    ghost value = { whole };

    ghost levelled = { λ c. simple_levelled (number_schema c unbounded) tt };

    ghost tag_fits = { λ _ _. refl };

    ghost tree_fits = { λ _ _. (refl, refl) };
}
