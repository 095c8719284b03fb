//! A few components in one call, so that a page names no cells, whose types a check would spell out at each step.

ghost use Rattle.std.specs.Prelude.{◌≡◌, ℕ, [], ◌∷◌};
ghost use Rattle.rasn_schema.specs.Components.{added_parts, root_parts};
ghost use Rattle.rasn_schema.specs.Schemas.{no_parts};
ghost use Rattle.rasn_traits.specs.Scopes.{TakesFields, WritesFields};
ghost use Rattle.rasn_record.specs.Lists.{AreWithin};
ghost use Rattle.rasn_record.specs.StatedComponents.{kept, kept_parts};

use crate::bounds::Bounds;
use crate::cells::{Cell, End, OfRecord, behind, read_first};
use crate::components::{DecodeComponent, EncodeComponent};
use crate::fields::root;
use crate::sides::Root;
use crate::write;
use rasn_codec::codec::{Decoder, Encoder};
use rasn_schema::components::Components;
use std::marker::PhantomData;

/// Writes all components of a record: one. Its tag is that of the record's own field.
#[inline(always)]
pub fn one_to_write<T: Components, A: EncodeComponent<Root> + Drop, X: Encoder>(
    of: &T,
    a: A,
    bounds: Bounds,
    encoder: &mut X,
) -> Result<(), X::Error>
    requires components { (n : ℕ) → root_parts T.components.0 n ≡ kept_parts (
        kept A.Of.TAG (A.presence a) A.Of.CONSTRAINTS A.Of.schema ∷ [])
        T.COMPONENTS.before bounds.lists.now.root.now n }
    requires additions { (n : ℕ) → added_parts T.components.0 n ≡ no_parts }
    requires added { T.added of.now ≡ [] }
    requires values { T.contents of.now ≡ A.slot a ∷ [] }
    requires depth { AreWithin (T.depth of.now) (A.levels a ∷ []) }
    ensures { WritesFields X.rules (root_parts T.components.0) (added_parts T.components.0) (T.depth of.now)
        (T.contents of.now) (T.added of.now) encoder.old result encoder.new }
{
    let of_record = OfRecord {
        of: PhantomData::<T>,
        constraints: bounds.lists.root,
        cells: Cell {
            component: a,
            next: End {},
        },
    };
    write::plain(of, &of_record, encoder)
}

/// Reads all components of a record: one. Its tag is that of the record's own field, its constraints those of a list.
#[inline(always)]
pub fn one_to_read<T, A, X>(a: A, bounds: Bounds, decoder: &mut X) -> Result<A::Value, X::Error>
where
    T: Components,
    A: DecodeComponent<Root> + Drop,
    X: Decoder,
    requires components { (n : ℕ) → root_parts T.components.0 n ≡ kept_parts (
        kept A.Of.TAG (A.presence a) A.Of.CONSTRAINTS A.Of.schema ∷ [])
        T.COMPONENTS.before bounds.lists.now.root.now n }
    requires additions { (n : ℕ) → added_parts T.components.0 n ≡ no_parts }
    ensures { TakesFields X.rules (root_parts T.components.0) (added_parts T.components.0)
        (λ xs. A.slot xs ∷ []) (λ _. []) decoder.old result decoder.new }
{
    let fields = root::<T>();
    let limits = bounds.lists.root;
    let first = read_first::<Root, _, _>(&a, fields, limits, decoder)?;
    Ok(first)
}

/// Writes all components of a record: two. Their tags are those of the record's own fields.
#[inline(always)]
pub fn two_to_write<
    T: Components,
    A: EncodeComponent<Root> + Drop,
    B: EncodeComponent<Root> + Drop,
    X: Encoder,
>(of: &T, a: A, b: B, bounds: Bounds, encoder: &mut X) -> Result<(), X::Error>
    requires components { (n : ℕ) → root_parts T.components.0 n ≡ kept_parts (
        kept A.Of.TAG (A.presence a) A.Of.CONSTRAINTS A.Of.schema ∷
        kept B.Of.TAG (B.presence b) B.Of.CONSTRAINTS B.Of.schema ∷ [])
        T.COMPONENTS.before bounds.lists.now.root.now n }
    requires additions { (n : ℕ) → added_parts T.components.0 n ≡ no_parts }
    requires added { T.added of.now ≡ [] }
    requires values { T.contents of.now ≡ A.slot a ∷ B.slot b ∷ [] }
    requires depth { AreWithin (T.depth of.now) (A.levels a ∷ B.levels b ∷ []) }
    ensures { WritesFields X.rules (root_parts T.components.0) (added_parts T.components.0) (T.depth of.now)
        (T.contents of.now) (T.added of.now) encoder.old result encoder.new }
{
    let of_record = OfRecord {
        of: PhantomData::<T>,
        constraints: bounds.lists.root,
        cells: Cell {
            component: a,
            next: Cell {
                component: b,
                next: End {},
            },
        },
    };
    write::plain(of, &of_record, encoder)
}

/// Reads all components of a record: two. Their tags are those of the record's own fields, their constraints those of a
/// list.
#[inline(always)]
pub fn two_to_read<T, A, B, X>(
    a: A,
    b: B,
    bounds: Bounds,
    decoder: &mut X,
) -> Result<(A::Value, B::Value), X::Error>
where
    T: Components,
    A: DecodeComponent<Root> + Drop,
    B: DecodeComponent<Root> + Drop,
    X: Decoder,
    requires components { (n : ℕ) → root_parts T.components.0 n ≡ kept_parts (
        kept A.Of.TAG (A.presence a) A.Of.CONSTRAINTS A.Of.schema ∷
        kept B.Of.TAG (B.presence b) B.Of.CONSTRAINTS B.Of.schema ∷ [])
        T.COMPONENTS.before bounds.lists.now.root.now n }
    requires additions { (n : ℕ) → added_parts T.components.0 n ≡ no_parts }
    ensures { TakesFields X.rules (root_parts T.components.0) (added_parts T.components.0)
        (λ xs. A.slot xs.0 ∷ B.slot xs.1 ∷ []) (λ _. []) decoder.old result decoder.new }
{
    let fields = root::<T>();
    let limits = bounds.lists.root;
    let first = read_first::<Root, _, _>(&a, fields, limits, decoder)?;
    let fields_2 = behind(fields);
    let limits_2 = behind(limits);
    let second = read_first::<Root, _, _>(&b, fields_2, limits_2, decoder)?;
    Ok((first, second))
}

/// Writes all components of a record: three. Their tags are those of the record's own fields.
#[inline(always)]
pub fn three_to_write<
    T: Components,
    A: EncodeComponent<Root> + Drop,
    B: EncodeComponent<Root> + Drop,
    C: EncodeComponent<Root> + Drop,
    X: Encoder,
>(of: &T, a: A, b: B, c: C, bounds: Bounds, encoder: &mut X) -> Result<(), X::Error>
    requires components { (n : ℕ) → root_parts T.components.0 n ≡ kept_parts (
        kept A.Of.TAG (A.presence a) A.Of.CONSTRAINTS A.Of.schema ∷
        kept B.Of.TAG (B.presence b) B.Of.CONSTRAINTS B.Of.schema ∷
        kept C.Of.TAG (C.presence c) C.Of.CONSTRAINTS C.Of.schema ∷ [])
        T.COMPONENTS.before bounds.lists.now.root.now n }
    requires additions { (n : ℕ) → added_parts T.components.0 n ≡ no_parts }
    requires added { T.added of.now ≡ [] }
    requires values { T.contents of.now ≡ A.slot a ∷ B.slot b ∷ C.slot c ∷ [] }
    requires depth { AreWithin (T.depth of.now) (A.levels a ∷ B.levels b ∷ C.levels c ∷ []) }
    ensures { WritesFields X.rules (root_parts T.components.0) (added_parts T.components.0) (T.depth of.now)
        (T.contents of.now) (T.added of.now) encoder.old result encoder.new }
{
    let of_record = OfRecord {
        of: PhantomData::<T>,
        constraints: bounds.lists.root,
        cells: Cell {
            component: a,
            next: Cell {
                component: b,
                next: Cell {
                    component: c,
                    next: End {},
                },
            },
        },
    };
    write::plain(of, &of_record, encoder)
}

/// Reads all components of a record: three. Their tags are those of the record's own fields, their constraints those of
/// a list.
#[inline(always)]
pub fn three_to_read<T, A, B, C, X>(
    a: A,
    b: B,
    c: C,
    bounds: Bounds,
    decoder: &mut X,
) -> Result<(A::Value, B::Value, C::Value), X::Error>
where
    T: Components,
    A: DecodeComponent<Root> + Drop,
    B: DecodeComponent<Root> + Drop,
    C: DecodeComponent<Root> + Drop,
    X: Decoder,
    requires components { (n : ℕ) → root_parts T.components.0 n ≡ kept_parts (
        kept A.Of.TAG (A.presence a) A.Of.CONSTRAINTS A.Of.schema ∷
        kept B.Of.TAG (B.presence b) B.Of.CONSTRAINTS B.Of.schema ∷
        kept C.Of.TAG (C.presence c) C.Of.CONSTRAINTS C.Of.schema ∷ [])
        T.COMPONENTS.before bounds.lists.now.root.now n }
    requires additions { (n : ℕ) → added_parts T.components.0 n ≡ no_parts }
    ensures { TakesFields X.rules (root_parts T.components.0) (added_parts T.components.0)
        (λ xs. A.slot xs.0 ∷ B.slot xs.1 ∷ C.slot xs.2 ∷ []) (λ _. []) decoder.old result decoder.new }
{
    let fields = root::<T>();
    let limits = bounds.lists.root;
    let first = read_first::<Root, _, _>(&a, fields, limits, decoder)?;
    let fields_2 = behind(fields);
    let limits_2 = behind(limits);
    let second = read_first::<Root, _, _>(&b, fields_2, limits_2, decoder)?;
    let fields_3 = behind(fields_2);
    let limits_3 = behind(limits_2);
    let third = read_first::<Root, _, _>(&c, fields_3, limits_3, decoder)?;
    Ok((first, second, third))
}

/// Writes all components of a record: four. Their tags are those of the record's own fields.
#[inline(always)]
pub fn four_to_write<
    T: Components,
    A: EncodeComponent<Root> + Drop,
    B: EncodeComponent<Root> + Drop,
    C: EncodeComponent<Root> + Drop,
    D: EncodeComponent<Root> + Drop,
    X: Encoder,
>(of: &T, a: A, b: B, c: C, d: D, bounds: Bounds, encoder: &mut X) -> Result<(), X::Error>
    requires components { (n : ℕ) → root_parts T.components.0 n ≡ kept_parts (
        kept A.Of.TAG (A.presence a) A.Of.CONSTRAINTS A.Of.schema ∷
        kept B.Of.TAG (B.presence b) B.Of.CONSTRAINTS B.Of.schema ∷
        kept C.Of.TAG (C.presence c) C.Of.CONSTRAINTS C.Of.schema ∷
        kept D.Of.TAG (D.presence d) D.Of.CONSTRAINTS D.Of.schema ∷ [])
        T.COMPONENTS.before bounds.lists.now.root.now n }
    requires additions { (n : ℕ) → added_parts T.components.0 n ≡ no_parts }
    requires added { T.added of.now ≡ [] }
    requires values { T.contents of.now ≡ A.slot a ∷ B.slot b ∷ C.slot c ∷ D.slot d ∷ [] }
    requires depth { AreWithin (T.depth of.now) (A.levels a ∷ B.levels b ∷ C.levels c ∷ D.levels d ∷ []) }
    ensures { WritesFields X.rules (root_parts T.components.0) (added_parts T.components.0) (T.depth of.now)
        (T.contents of.now) (T.added of.now) encoder.old result encoder.new }
{
    let of_record = OfRecord {
        of: PhantomData::<T>,
        constraints: bounds.lists.root,
        cells: Cell {
            component: a,
            next: Cell {
                component: b,
                next: Cell {
                    component: c,
                    next: Cell {
                        component: d,
                        next: End {},
                    },
                },
            },
        },
    };
    write::plain(of, &of_record, encoder)
}

/// Reads all components of a record: four. Their tags are those of the record's own fields, their constraints those of
/// a list.
#[inline(always)]
pub fn four_to_read<T, A, B, C, D, X>(
    a: A,
    b: B,
    c: C,
    d: D,
    bounds: Bounds,
    decoder: &mut X,
) -> Result<(A::Value, B::Value, C::Value, D::Value), X::Error>
where
    T: Components,
    A: DecodeComponent<Root> + Drop,
    B: DecodeComponent<Root> + Drop,
    C: DecodeComponent<Root> + Drop,
    D: DecodeComponent<Root> + Drop,
    X: Decoder,
    requires components { (n : ℕ) → root_parts T.components.0 n ≡ kept_parts (
        kept A.Of.TAG (A.presence a) A.Of.CONSTRAINTS A.Of.schema ∷
        kept B.Of.TAG (B.presence b) B.Of.CONSTRAINTS B.Of.schema ∷
        kept C.Of.TAG (C.presence c) C.Of.CONSTRAINTS C.Of.schema ∷
        kept D.Of.TAG (D.presence d) D.Of.CONSTRAINTS D.Of.schema ∷ [])
        T.COMPONENTS.before bounds.lists.now.root.now n }
    requires additions { (n : ℕ) → added_parts T.components.0 n ≡ no_parts }
    ensures { TakesFields X.rules (root_parts T.components.0) (added_parts T.components.0)
        (λ xs. A.slot xs.0 ∷ B.slot xs.1 ∷ C.slot xs.2 ∷ D.slot xs.3 ∷ []) (λ _. []) decoder.old result decoder.new }
{
    let fields = root::<T>();
    let limits = bounds.lists.root;
    let first = read_first::<Root, _, _>(&a, fields, limits, decoder)?;
    let fields_2 = behind(fields);
    let limits_2 = behind(limits);
    let second = read_first::<Root, _, _>(&b, fields_2, limits_2, decoder)?;
    let fields_3 = behind(fields_2);
    let limits_3 = behind(limits_2);
    let third = read_first::<Root, _, _>(&c, fields_3, limits_3, decoder)?;
    let fields_4 = behind(fields_3);
    let limits_4 = behind(limits_3);
    let fourth = read_first::<Root, _, _>(&d, fields_4, limits_4, decoder)?;
    Ok((first, second, third, fourth))
}
