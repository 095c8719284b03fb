//! Cells, of which the list of a record's components is made. Their tags and constraints are in lists beside them.

ghost use Rattle.std.specs.Prelude.{◌≡◌, ◌≤◌, ℕ, List, [], ◌∷◌, Option, map, refl};
ghost use Rattle.std.proofs.Common.{arith};
ghost use Rattle.std.specs.Borrow.{Bor};
ghost use Rattle.rasn_types.specs.Values.{Value};
ghost use Rattle.rasn_constraints.specs.declared.constraints.Constraint.{Constraint};
ghost use Rattle.rasn_schema.specs.Schemas.{Parts, no_parts, part};
ghost use Rattle.rasn_schema.specs.Records.{own_or};
ghost use Rattle.rasn_schema.specs.Fields.{Shape, shape_of};
ghost use Rattle.rasn_schema.specs.Structures.{tag_of};
ghost use Rattle.rasn_record.specs.Lists.{Asked, behind, both_asked, both_within, deepest, first_given};
ghost use Rattle.rasn_record.specs.Lists.{first_tag, given, nothing_asked};
ghost use Rattle.rasn_record.specs.Sides.{ReadsAllAt, ReadsAt, WritesAllAt, WritesAt, tree_at};

use crate::bounds::Bounds;
use crate::components::{DecodeComponent, EncodeComponent, Optional};
use crate::fields::root;
use crate::sides::{DecodeSide, EncodeSide, Root};
use rasn_codec::codec::{Decoder, Encoder};
use rasn_schema::components::Components;
use rasn_schema::constraints::Constraint;
use rasn_schema::fields::Field;
use rasn_schema::schema::{AsnType, Constraints};
use rasn_traits::parts::{DecodeParts, EncodeAdditions, EncodeParts};
use rasn_types::types::Tag;
use std::marker::PhantomData;

/// Components of a record that are still to be written, on a side of the extension marker, of which lists state the
/// tags and the constraints.
pub trait EncodeCells<S: EncodeSide> {
    // The components, by what the lists state of them, to a number of levels.
    ghost parts: { Self → List Shape → List (Bor (List Constraint)) → ℕ → Parts };

    // What they are.
    ghost contents: { Self → List (Option Value) };

    // How many levels each takes.
    ghost levels: { Self → List ℕ };

    // What is asked of a number of levels that holds each.
    ghost asked: { Self → Asked };

    /// Writes the components in turn.
    fn encode_cells<E: Encoder>(
        &self,
        fields: &[Field],
        constraints: &[&'static [Constraint<'static>]],
        encoder: &mut E,
    ) -> Result<(), E::Error>
        ensures { WritesAllAt S.side E.rules (Self.parts self.now (map shape_of fields.now) constraints.now)
            (deepest (Self.levels self.now)) (Self.contents self.now) encoder.old result encoder.new };

    // That is enough.
    ghost within: { (p : Self) (n : ℕ) → (asked p).Of n → deepest (levels p) ≤ n };
}

/// Components of a record that are still to be written, of which each says how many levels it takes.
pub trait EncodeEach: EncodeParts {
    // How many levels each takes.
    ghost each: { Self → List ℕ };

    // They take as many as the deepest.
    ghost is_deepest: { (p : Self) → Self.levels p ≡ deepest (each p) };

    // What is asked of a number of levels that holds each.
    ghost asked: { Self → Asked };

    // That is enough.
    ghost within: { (p : Self) (n : ℕ) → (asked p).Of n → Self.levels p ≤ n };
}

/// Additions of a record that are still to be given, of which each says how many levels it takes.
pub trait EncodeEachAddition: EncodeAdditions {
    // What is asked of a number of levels that holds each.
    ghost asked: { Self → Asked };

    // That is enough.
    ghost within: { (p : Self) (n : ℕ) → (asked p).Of n → Self.levels p ≤ n };
}

/// Components of a record that are still to be read, on a side of the extension marker, of which lists state the tags
/// and the constraints.
pub trait DecodeCells<S: DecodeSide> {
    /// What they are: a pair of the first and of those after it, and `()` at the end.
    type Values: Drop;

    // The components, by what the lists state of them, to a number of levels.
    ghost parts: { Self → List Shape → List (Bor (List Constraint)) → ℕ → Parts };

    // What values of them are.
    ghost contents: { Self.Values → List (Option Value) };

    /// Reads the components in turn.
    fn decode_cells<D: Decoder>(
        &self,
        fields: &[Field],
        constraints: &[&'static [Constraint<'static>]],
        decoder: &mut D,
    ) -> Result<Self::Values, D::Error>
        ensures { ReadsAllAt S.side D.rules (Self.parts self.now (map shape_of fields.now) constraints.now)
            Self.contents decoder.old result decoder.new };
}

/// The end of the components.
#[derive(Clone, Copy)]
pub struct End {}

/// A component, and those after it.
#[derive(Clone, Copy)]
pub struct Cell<C, N> {
    /// The component.
    pub component: C,
    /// The components after it.
    pub next: N,
}

/// Cells to read that hold no value, so that their type says all of them: none has a default.
pub trait ByType: Sized {
    /// The only value.
    const VALUE: Self;
}

/// Components of a record, and the lists that state their tags and constraints. A component that isn't in a list has
/// its type's own tag; one that isn't in a list, or has none there, has its type's own constraints.
#[derive(Clone, Copy)]
pub struct Listed<P> {
    /// The fields of the components, in their order.
    pub fields: &'static [Field],
    /// The constraints of the components, in their order.
    pub constraints: &'static [&'static [Constraint<'static>]],
    /// The components.
    pub cells: P,
}

/// Components of a record as cells, and the list that states their constraints. Their tags are those of the record's
/// own fields.
#[derive(Clone, Copy)]
pub struct OfRecord<T, P> {
    /// The record.
    pub of: PhantomData<T>,
    /// The constraints of the components, in their order.
    pub constraints: &'static [&'static [Constraint<'static>]],
    /// The components.
    pub cells: P,
}

/// What gives the constraints of a record's components: `Bounds`, for a call whose other types name references.
pub trait GivesBounds {
    // The constraints.
    ghost list: { Self → List (Bor (List Constraint)) };

    /// The constraints.
    fn list(&self) -> &'static [&'static [Constraint<'static>]]
        ensures { result.now ≡ list self.now };
}

impl GivesBounds for Bounds {
    ghost list = { λ b. b.lists.now.root.now };

    fn list(&self) -> &'static [&'static [Constraint<'static>]] {
        self.lists.root
    }
}

/// The tag of the first field, or else a type's own.
pub fn first_tag(fields: &[Field], own: Tag) -> Tag
    ensures { tag_of result ≡ first_tag (tag_of own) (map shape_of fields.now) }
{
    match fields {
        [first, ..] => first.tag,
        [] => own,
    }
}

/// Constraints that are given, or else a type's own.
pub(crate) fn given(
    constraints: &'static [Constraint<'static>],
    own: Constraints<'static>,
) -> Constraints<'static>
    ensures { result ≡ own_or own.entry (given constraints.now) }
{
    match constraints {
        [] => own,
        _ => Constraints(constraints),
    }
}

/// The constraints that the first component is given, or else a type's own.
pub fn given_or_own(
    constraints: &[&'static [Constraint<'static>]],
    own: Constraints<'static>,
) -> Constraints<'static>
    ensures { result ≡ own_or own.entry (first_given constraints.now) }
{
    match constraints {
        [] => own,
        [first, ..] => given(first, own),
    }
}

/// Those after the first of a list.
pub fn behind<T>(list: &[T]) -> &[T]
    ensures { result.now ≡ behind list.now }
{
    match list {
        [_, behind @ ..] => behind,
        [] => list,
    }
}

/// Writes a component by the first field's tag and under the first constraints, where lists state them.
#[inline(always)]
pub(crate) fn write_first<S: EncodeSide, C: EncodeComponent<S>, E: Encoder>(
    component: &C,
    fields: &[Field],
    constraints: &[&'static [Constraint<'static>]],
    encoder: &mut E,
) -> Result<(), E::Error>
    ensures { WritesAt S.side E.rules (C.presence component.now)
        (C.Of.schema (own_or C.Of.CONSTRAINTS (first_given constraints.now))) (C.levels component.now)
        (C.slot component.now) encoder.old result encoder.new }
{
    let tag = first_tag(fields, <C::Of as AsnType>::TAG);
    let in_use = given_or_own(constraints, <C::Of as AsnType>::CONSTRAINTS);
    component.encode_component(encoder, tag, &in_use)
}

/// Reads a component by the first field's tag and under the first constraints, where lists state them.
#[inline(always)]
pub(crate) fn read_first<S: DecodeSide, C: DecodeComponent<S>, D: Decoder>(
    component: &C,
    fields: &[Field],
    constraints: &[&'static [Constraint<'static>]],
    decoder: &mut D,
) -> Result<C::Value, D::Error>
    ensures { ReadsAt S.side D.rules (tree_at S.side (tag_of C.Of.TAG) (map shape_of fields.now))
        (C.presence component.now)
        (C.Of.schema (own_or C.Of.CONSTRAINTS (first_given constraints.now)) (D.rules.levels decoder.old)) C.slot
        decoder.old result decoder.new }
{
    let tag = first_tag(fields, <C::Of as AsnType>::TAG);
    let in_use = given_or_own(constraints, <C::Of as AsnType>::CONSTRAINTS);
    component.decode_component(decoder, tag, &in_use)
}

impl ByType for End {
    const VALUE: End = End {};
}

impl<C: ByType, N: ByType> ByType for Cell<C, N> {
    const VALUE: Cell<C, N> = Cell {
        component: C::VALUE,
        next: N::VALUE,
    };
}

impl<H> ByType for PhantomData<H> {
    const VALUE: PhantomData<H> = PhantomData;
}

impl<H> ByType for Optional<PhantomData<H>> {
    const VALUE: Optional<PhantomData<H>> = Optional(PhantomData);
}

impl<S: EncodeSide> EncodeCells<S> for End {
    ghost parts = { λ p fs cs n. no_parts };

    ghost contents = { λ p. [] };

    ghost levels = { λ p. [] };

    fn encode_cells<E: Encoder>(
        &self,
        _: &[Field],
        _: &[&'static [Constraint<'static>]],
        encoder: &mut E,
    ) -> Result<(), E::Error> {
        let _ = encoder;
        Ok(())
    }

    ghost asked = { λ p. nothing_asked };

    ghost within = { λ p n h. omega arith };
}

impl<S: EncodeSide, C: EncodeComponent<S>, N: EncodeCells<S>> EncodeCells<S> for Cell<C, N> {
    ghost parts = { λ p fs cs n. part (tree_at S.side (tag_of C.Of.TAG) fs) (C.presence p.component)
        (C.Of.schema (own_or C.Of.CONSTRAINTS (first_given cs)) n) (N.parts p.next (behind fs) (behind cs) n) };

    ghost contents = { λ p. C.slot p.component ∷ N.contents p.next };

    ghost levels = { λ p. C.levels p.component ∷ N.levels p.next };

    #[inline(always)]
    fn encode_cells<E: Encoder>(
        &self,
        fields: &[Field],
        constraints: &[&'static [Constraint<'static>]],
        encoder: &mut E,
    ) -> Result<(), E::Error> {
        write_first::<S, C, E>(&self.component, fields, constraints, encoder)?;
        self.next
            .encode_cells(behind(fields), behind(constraints), encoder)
    }

    ghost asked = { λ p. both_asked (C.asked p.component) (N.asked p.next) };

    ghost within = { λ p n h. both_within (C.within p.component n h.0) (N.within p.next n h.1) };
}

impl<'a, S: EncodeSide, N: EncodeCells<S>> EncodeCells<S> for &'a N {
    ghost parts = { λ p. N.parts p.now };

    ghost contents = { λ p. N.contents p.now };

    ghost levels = { λ p. N.levels p.now };

    #[inline(always)]
    fn encode_cells<E: Encoder>(
        &self,
        fields: &[Field],
        constraints: &[&'static [Constraint<'static>]],
        encoder: &mut E,
    ) -> Result<(), E::Error> {
        let cells: &N = *self;
        cells.encode_cells(fields, constraints, encoder)
    }

    ghost asked = { λ p. N.asked p.now };

    ghost within = { λ p n h. N.within p.now n h };
}

impl<P: EncodeCells<Root>> EncodeParts for Listed<P> {
    ghost parts = { λ p. P.parts p.cells (map shape_of p.fields.now) p.constraints.now };

    ghost contents = { λ p. P.contents p.cells };

    ghost levels = { λ p. deepest (P.levels p.cells) };

    fn encode_parts<E: Encoder>(&self, encoder: &mut E) -> Result<(), E::Error> {
        self.cells
            .encode_cells(self.fields, self.constraints, encoder)
    }
}

impl<T: Components, P: EncodeCells<Root>> EncodeParts for OfRecord<T, P> {
    ghost parts = { λ p. P.parts p.cells T.COMPONENTS.before p.constraints.now };

    ghost contents = { λ p. P.contents p.cells };

    ghost levels = { λ p. deepest (P.levels p.cells) };

    fn encode_parts<E: Encoder>(&self, encoder: &mut E) -> Result<(), E::Error> {
        self.cells
            .encode_cells(root::<T>(), self.constraints, encoder)
    }
}

impl<T: Components, P: EncodeCells<Root>> EncodeEach for OfRecord<T, P> {
    ghost each = { λ p. P.levels p.cells };

    ghost is_deepest = { λ p. refl };

    ghost asked = { λ p. P.asked p.cells };

    ghost within = { λ p n h. P.within p.cells n h };
}

impl<S: DecodeSide> DecodeCells<S> for End {
    type Values = ();

    ghost parts = { λ p fs cs n. no_parts };

    ghost contents = { λ values. [] };

    fn decode_cells<D: Decoder>(
        &self,
        _: &[Field],
        _: &[&'static [Constraint<'static>]],
        decoder: &mut D,
    ) -> Result<(), D::Error> {
        let _ = decoder;
        Ok(())
    }
}

impl<S: DecodeSide, C: DecodeComponent<S>, N: DecodeCells<S>> DecodeCells<S> for Cell<C, N> {
    type Values = (C::Value, N::Values);

    ghost parts = { λ p fs cs n. part (tree_at S.side (tag_of C.Of.TAG) fs) (C.presence p.component)
        (C.Of.schema (own_or C.Of.CONSTRAINTS (first_given cs)) n) (N.parts p.next (behind fs) (behind cs) n) };

    ghost contents = { λ values. C.slot values.0 ∷ N.contents values.1 };

    #[inline(always)]
    fn decode_cells<D: Decoder>(
        &self,
        fields: &[Field],
        constraints: &[&'static [Constraint<'static>]],
        decoder: &mut D,
    ) -> Result<(C::Value, N::Values), D::Error> {
        let value = read_first::<S, C, D>(&self.component, fields, constraints, decoder)?;
        let next = self
            .next
            .decode_cells(behind(fields), behind(constraints), decoder)?;
        Ok((value, next))
    }
}

impl<'a, S: DecodeSide, N: DecodeCells<S>> DecodeCells<S> for &'a N {
    type Values = N::Values;

    ghost parts = { λ p. N.parts p.now };

    ghost contents = { N.contents };

    #[inline(always)]
    fn decode_cells<D: Decoder>(
        &self,
        fields: &[Field],
        constraints: &[&'static [Constraint<'static>]],
        decoder: &mut D,
    ) -> Result<N::Values, D::Error> {
        let cells: &N = *self;
        cells.decode_cells(fields, constraints, decoder)
    }
}

impl<P: DecodeCells<Root>> DecodeParts for Listed<P> {
    type Values = P::Values;

    ghost parts = { λ p. P.parts p.cells (map shape_of p.fields.now) p.constraints.now };

    ghost contents = { P.contents };

    #[inline(always)]
    fn decode_parts<D: Decoder>(&self, decoder: &mut D) -> Result<P::Values, D::Error> {
        self.cells
            .decode_cells(self.fields, self.constraints, decoder)
    }
}
