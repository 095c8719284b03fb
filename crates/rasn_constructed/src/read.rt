//! How types that hold themselves, or one another, are read: what such a type holds is read by a function that it is
//! lent, and the two functions `decode` and `decode_other` lend one another.

ghost use Rattle.std.specs.Prelude.{◌≡◌, ℕ, suc, List, [], ◌∷◌, Option, Some, refl};
ghost use Rattle.rasn_types.specs.Values.{Value};
ghost use Rattle.rasn_constraints.specs.declared.constraints.Constraints.{Constraints};
ghost use Rattle.rasn_schema.specs.Choices.{choice_at, choices_of};
ghost use Rattle.rasn_schema.specs.Components.{sequence_at, sequence_value};
ghost use Rattle.rasn_schema.specs.Schemas.{Parts, Presence, leaf, no_parts, optional, part, required};
ghost use Rattle.rasn_schema.specs.Records.{own_or};
ghost use Rattle.rasn_schema.specs.Structures.{tag_of};
ghost use Rattle.rasn_traits.specs.Calls.{Reads};
ghost use Rattle.rasn_traits.specs.Choices.{TakesAlternative};
ghost use Rattle.rasn_traits.specs.Optionals.{ReadsComponent};
ghost use Rattle.rasn_traits.specs.Presences.{slot_of};
ghost use Rattle.rasn_traits.specs.Scopes.{TakesParts};
ghost use Rattle.rasn_record.specs.Lists.{ArePlain, given};
ghost use Rattle.rasn_constructed.specs.HeldTypes.{ReadsHeld};

use rasn_codec::boxed::boxed;
use rasn_codec::codec::Decoder;
use rasn_record::cells::{Cell, End, given_or_own};
use rasn_record::components::{DecodeComponent, Optional};
use rasn_record::sides::Root;
use rasn_schema::choices::Choice;
use rasn_schema::components::Components;
use rasn_schema::constraints::Constraint;
use rasn_schema::kinds::{Kind, OfKind};
use rasn_schema::schema::{AsnType, Constraints};
use rasn_types::types::Tag;
use std::marker::PhantomData;

/// A type whose schema is the same under each constraint: one of a kind, as a SEQUENCE and a CHOICE are.
pub trait Unconstrained: AsnType {
    // Its schema is that under its own constraints.
    ghost same_schema: { (c : Constraints) (n : ℕ) → Self.schema c n ≡ Self.schema Self.CONSTRAINTS n };
}

impl<T: OfKind> Unconstrained for T
where
    T::Kind: Kind<T>,
{
    ghost same_schema = { λ _ _. refl };
}

/// A type that is `T`. It stands for this where a function reads it, whose result can't name the type that an `impl`
/// gives for `T`.
pub trait Same<T: AsnType>: AsnType + Sized {
    /// The value.
    fn same(self) -> T
        ensures { T.value result ≡ Self.value self };

    // The schemas are one.
    ghost same_trees: { (n : ℕ) → Self.schema Self.CONSTRAINTS n ≡ T.schema T.CONSTRAINTS n };
}

impl<T: AsnType> Same<T> for T {
    fn same(self) -> T {
        self
    }

    ghost same_trees = { λ _. refl };
}

/// A type that holds values of `T`: itself, or one that holds it.
pub trait Holds<T: AsnType>: AsnType + Sized + Drop {
    /// Reads a value under a tag, and what it holds, with fewer levels left, by `held`.
    fn decode_holding<H: Same<T>, D: Decoder, F: Fn(&mut D, Tag) -> Result<H, D::Error>>(
        decoder: &mut D,
        tag: Tag,
        held: &F,
    ) -> Result<Self, D::Error>
        requires { (n : ℕ) → D.rules.levels decoder.old ≡ suc n
            → ReadsHeld D.rules (H.schema H.CONSTRAINTS) H.value F.Fn held.now n }
        ensures { Reads D.rules (Self.schema Self.CONSTRAINTS (D.rules.levels decoder.old)) Self.value
            decoder.old result decoder.new };
}

/// Reads a value under a tag of a type that holds itself; or of one that holds another, which holds
/// the first.
#[cycle(held)]
pub fn decode<T: Holds<U>, U: Holds<T>, D: Decoder>(
    decoder: &mut D,
    tag: Tag,
) -> Result<T, D::Error>
    ensures { Reads D.rules (T.schema T.CONSTRAINTS (D.rules.levels decoder.old)) T.value
        decoder.old result decoder.new }
{
    by_function::<T, U, D, _>(
        decoder,
        tag,
        &|inside: &mut D, tag: Tag| -> Result<U, D::Error>
            ensures { Reads D.rules (U.schema U.CONSTRAINTS (D.rules.levels inside.old)) U.value
                inside.old result inside.new }
        { decode_other::<T, U, D>(inside, tag) },
    )
}

/// Reads a value under a tag of a type that holds the first of the two.
#[cycle(held)]
pub fn decode_other<T: Holds<U>, U: Holds<T>, D: Decoder>(
    decoder: &mut D,
    tag: Tag,
) -> Result<U, D::Error>
    ensures { Reads D.rules (U.schema U.CONSTRAINTS (D.rules.levels decoder.old)) U.value
        decoder.old result decoder.new }
{
    by_function::<U, T, D, _>(
        decoder,
        tag,
        &|inside: &mut D, tag: Tag| -> Result<T, D::Error>
            ensures { Reads D.rules (T.schema T.CONSTRAINTS (D.rules.levels inside.old)) T.value
                inside.old result inside.new }
        { decode::<T, U, D>(inside, tag) },
    )
}

/// Reads a value of a type that holds another, by the function for that.
fn by_function<T: Holds<U>, U: AsnType, D: Decoder, F: Fn(&mut D, Tag) -> Result<U, D::Error>>(
    decoder: &mut D,
    tag: Tag,
    held: &F,
) -> Result<T, D::Error>
    requires { (n : ℕ) → D.rules.levels decoder.old ≡ suc n
        → ReadsHeld D.rules (U.schema U.CONSTRAINTS) U.value F.Fn held.now n }
    ensures { Reads D.rules (T.schema T.CONSTRAINTS (D.rules.levels decoder.old)) T.value
        decoder.old result decoder.new }
{
    T::decode_holding::<U, D, F>(decoder, tag, held)
}

/// Reads a value that is held, by the function for it.
fn read_held<T: AsnType, D: Decoder, F: Fn(&mut D, Tag) -> Result<T, D::Error>>(
    decoder: &mut D,
    tag: Tag,
    held: &F,
) -> Result<T, D::Error>
    requires { ReadsHeld D.rules (T.schema T.CONSTRAINTS) T.value F.Fn held.now (D.rules.levels decoder.old) }
    ensures { Reads D.rules (T.schema T.CONSTRAINTS (D.rules.levels decoder.old)) T.value
        decoder.old result decoder.new }
{
    held(decoder, tag)
}

/// Reads a value that is held, by a function for a type that is its own.
fn read_same<T: AsnType, H: Same<T>, D: Decoder, F: Fn(&mut D, Tag) -> Result<H, D::Error>>(
    decoder: &mut D,
    tag: Tag,
    held: &F,
) -> Result<T, D::Error>
    requires { ReadsHeld D.rules (H.schema H.CONSTRAINTS) H.value F.Fn held.now (D.rules.levels decoder.old) }
    ensures { Reads D.rules (T.schema T.CONSTRAINTS (D.rules.levels decoder.old)) T.value
        decoder.old result decoder.new }
{
    let value = read_held::<H, D, F>(decoder, tag, held)?;
    Ok(value.same())
}

/// Reads a value that is held in a box.
fn read_boxed<T: AsnType + Drop, D: Decoder, F: Fn(&mut D, Tag) -> Result<T, D::Error>>(
    decoder: &mut D,
    tag: Tag,
    held: &F,
) -> Result<Box<T>, D::Error>
    requires { ReadsHeld D.rules (T.schema T.CONSTRAINTS) T.value F.Fn held.now (D.rules.levels decoder.old) }
    ensures { Reads D.rules (T.schema T.CONSTRAINTS (D.rules.levels decoder.old)) (λ b. T.value b.value)
        decoder.old result decoder.new }
{
    let value = read_held::<T, D, F>(decoder, tag, held)?;
    boxed(decoder, value)
}

/// A type of values of `T`: a box of one, or a list of them.
pub trait Wraps<T: AsnType>: AsnType + Sized + Drop {
    /// Reads a value under a tag and constraints, those of `T` by `held`.
    fn decode_wrapped<D: Decoder, F: Fn(&mut D, Tag) -> Result<T, D::Error>>(
        decoder: &mut D,
        tag: Tag,
        constraints: &Constraints,
        held: &F,
    ) -> Result<Self, D::Error>
        requires { ReadsHeld D.rules (T.schema T.CONSTRAINTS) T.value F.Fn held.now (D.rules.levels decoder.old) }
        ensures { Reads D.rules (Self.schema constraints.now (D.rules.levels decoder.old)) Self.value
            decoder.old result decoder.new };
}

impl<T: Unconstrained + Drop> Wraps<T> for Box<T> {
    fn decode_wrapped<D: Decoder, F: Fn(&mut D, Tag) -> Result<T, D::Error>>(
        decoder: &mut D,
        tag: Tag,
        _constraints: &Constraints,
        held: &F,
    ) -> Result<Box<T>, D::Error> {
        read_boxed::<T, D, F>(decoder, tag, held)
    }
}

impl<T: AsnType + Drop> Wraps<T> for Vec<T> {
    fn decode_wrapped<D: Decoder, F: Fn(&mut D, Tag) -> Result<T, D::Error>>(
        decoder: &mut D,
        tag: Tag,
        constraints: &Constraints,
        held: &F,
    ) -> Result<Vec<T>, D::Error> {
        let mut list = decoder.open_elements(tag, constraints)?;
        let mut values = Vec::new(decoder.alloc());
        while decoder.next_element_in_turn(&mut list)? {
            let value = read_held::<T, D, F>(decoder, T::TAG, held)?;
            if values.push(value).is_err() {
                return Err(decoder.out_of_memory());
            }
        }
        Ok(values)
    }
}

/// A component that is still to be read of a record that holds values of `T`.
pub trait DecodeHolding<T: AsnType> {
    /// The type of the component.
    type Of: AsnType;

    /// What the component is, absent or there.
    type Value: Drop;

    // Whether it may be absent.
    ghost presence: { Self → Presence };

    // What a value of it is.
    ghost slot: { Self.Value → Option Value };

    /// Reads the component under a tag and constraints, values of `T` by `held`.
    fn decode_component<D: Decoder, F: Fn(&mut D, Tag) -> Result<T, D::Error>>(
        &self,
        decoder: &mut D,
        tag: Tag,
        constraints: &Constraints,
        held: &F,
    ) -> Result<Self::Value, D::Error>
        requires { ReadsHeld D.rules (T.schema T.CONSTRAINTS) T.value F.Fn held.now (D.rules.levels decoder.old) }
        ensures { ReadsComponent D.rules (presence self.now)
            (Self.Of.schema constraints.now (D.rules.levels decoder.old)) slot decoder.old result decoder.new };
}

/// A component that holds no value of the type.
#[derive(Clone, Copy)]
pub struct Plain<C>(pub C);

/// A component that holds values of the type.
#[derive(Clone, Copy)]
pub struct Holding<C>(pub C);

impl<T: AsnType, C: DecodeComponent<Root>> DecodeHolding<T> for Plain<C> {
    type Of = C::Of;

    type Value = C::Value;

    ghost presence = { λ c. C.presence c.0 };

    ghost slot = { C.slot };

    fn decode_component<D: Decoder, F: Fn(&mut D, Tag) -> Result<T, D::Error>>(
        &self,
        decoder: &mut D,
        tag: Tag,
        constraints: &Constraints,
        _: &F,
    ) -> Result<C::Value, D::Error> {
        self.0.decode_component(decoder, tag, constraints)
    }
}

impl<T: AsnType, H: Wraps<T>> DecodeHolding<T> for Holding<PhantomData<H>> {
    type Of = H;

    type Value = H;

    ghost presence = { λ c. required };

    ghost slot = { λ x. Some (H.value x) };

    fn decode_component<D: Decoder, F: Fn(&mut D, Tag) -> Result<T, D::Error>>(
        &self,
        decoder: &mut D,
        tag: Tag,
        constraints: &Constraints,
        held: &F,
    ) -> Result<H, D::Error> {
        H::decode_wrapped::<D, F>(decoder, tag, constraints, held)
    }
}

impl<T: AsnType, H: Wraps<T>> DecodeHolding<T> for Holding<Optional<PhantomData<Option<H>>>> {
    type Of = H;

    type Value = Option<H>;

    ghost presence = { λ c. optional };

    ghost slot = { λ x. slot_of H.value x };

    fn decode_component<D: Decoder, F: Fn(&mut D, Tag) -> Result<T, D::Error>>(
        &self,
        decoder: &mut D,
        tag: Tag,
        constraints: &Constraints,
        held: &F,
    ) -> Result<Option<H>, D::Error> {
        if !decoder.next_presence()? {
            return Ok(None);
        }
        let value = H::decode_wrapped::<D, F>(decoder, tag, constraints, held)?;
        Ok(Some(value))
    }
}

/// A component with its tag and its constraints: none where its type's own hold.
#[derive(Clone, Copy)]
pub struct Tagged<C> {
    /// The tag.
    pub tag: Tag,
    /// The constraints.
    pub constraints: &'static [Constraint<'static>],
    /// The component.
    pub component: C,
}

/// Components that are still to be read of a record that holds values of `T`.
pub trait DecodeHoldingCells<T: AsnType> {
    /// What they are: a pair of the first and of those after it, and `()` at the end.
    type Values: Drop;

    // The components, to a number of levels.
    ghost parts: { Self → ℕ → Parts };

    // What values of them are.
    ghost contents: { Self.Values → List (Option Value) };

    /// Reads the components in turn, values of `T` by `held`.
    fn decode_cells<D: Decoder, F: Fn(&mut D, Tag) -> Result<T, D::Error>>(
        &self,
        decoder: &mut D,
        held: &F,
    ) -> Result<Self::Values, D::Error>
        requires { ReadsHeld D.rules (T.schema T.CONSTRAINTS) T.value F.Fn held.now (D.rules.levels decoder.old) }
        ensures { TakesParts D.rules (Self.parts self.now) Self.contents decoder.old result decoder.new };
}

impl<T: AsnType> DecodeHoldingCells<T> for End {
    type Values = ();

    ghost parts = { λ p n. no_parts };

    ghost contents = { λ values. [] };

    fn decode_cells<D: Decoder, F: Fn(&mut D, Tag) -> Result<T, D::Error>>(
        &self,
        decoder: &mut D,
        _: &F,
    ) -> Result<(), D::Error> {
        let _ = decoder;
        Ok(())
    }
}

/// Reads a component by its tag and constraints.
fn first<T: AsnType, C: DecodeHolding<T>, D: Decoder, F: Fn(&mut D, Tag) -> Result<T, D::Error>>(
    first: &Tagged<C>,
    decoder: &mut D,
    held: &F,
) -> Result<C::Value, D::Error>
    requires { ReadsHeld D.rules (T.schema T.CONSTRAINTS) T.value F.Fn held.now (D.rules.levels decoder.old) }
    ensures { ReadsComponent D.rules (C.presence first.now.component)
        (C.Of.schema (own_or C.Of.CONSTRAINTS (given first.now.constraints.now)) (D.rules.levels decoder.old)) C.slot
        decoder.old result decoder.new }
{
    let in_use = given_or_own(&[first.constraints], <C::Of as AsnType>::CONSTRAINTS);
    first
        .component
        .decode_component::<D, F>(decoder, first.tag, &in_use, held)
}

impl<T: AsnType, C: DecodeHolding<T>, N: DecodeHoldingCells<T>> DecodeHoldingCells<T>
    for Cell<Tagged<C>, N> {
    type Values = (C::Value, N::Values);

    ghost parts = { λ p n. part (leaf (tag_of p.component.tag)) (C.presence p.component.component)
        (C.Of.schema (own_or C.Of.CONSTRAINTS (given p.component.constraints.now)) n) (N.parts p.next n) };

    ghost contents = { λ values. C.slot values.0 ∷ N.contents values.1 };

    fn decode_cells<D: Decoder, F: Fn(&mut D, Tag) -> Result<T, D::Error>>(
        &self,
        decoder: &mut D,
        held: &F,
    ) -> Result<(C::Value, N::Values), D::Error> {
        let value = first::<T, C, D, F>(&self.component, decoder, held)?;
        let next = self.next.decode_cells::<D, F>(decoder, held)?;
        Ok((value, next))
    }
}

/// Reads a SEQUENCE that holds values of `T`, by the function for these.
fn record_of<
    C: Components,
    T: AsnType,
    P: DecodeHoldingCells<T>,
    D: Decoder,
    F: Fn(&mut D, Tag) -> Result<T, D::Error>,
>(cells: &P, decoder: &mut D, tag: Tag, held: &F) -> Result<P::Values, D::Error>
    requires components { ArePlain C.components.0 (P.parts cells.now) }
    requires held { (n : ℕ) → D.rules.levels decoder.old ≡ suc n
        → ReadsHeld D.rules (T.schema T.CONSTRAINTS) T.value F.Fn held.now n }
    ensures { Reads D.rules (sequence_at C.components.0 (D.rules.levels decoder.old))
        (λ values. sequence_value (P.contents values)) decoder.old result decoder.new }
{
    let outside = decoder.open_fields::<C>(tag)?;
    let values = cells.decode_cells::<D, F>(decoder, held)?;
    decoder.close_fields::<C>(outside)?;
    Ok(values)
}

/// Reads a SEQUENCE that holds values of `T`, without additions, by cells of its components, and answers these.
pub fn record<
    C: Components,
    T: AsnType,
    P: DecodeHoldingCells<T>,
    H: Same<T>,
    D: Decoder,
    F: Fn(&mut D, Tag) -> Result<H, D::Error>,
>(cells: &P, decoder: &mut D, tag: Tag, held: &F) -> Result<P::Values, D::Error>
    requires components { ArePlain C.components.0 (P.parts cells.now) }
    requires held { (n : ℕ) → D.rules.levels decoder.old ≡ suc n
        → ReadsHeld D.rules (H.schema H.CONSTRAINTS) H.value F.Fn held.now n }
    ensures { Reads D.rules (sequence_at C.components.0 (D.rules.levels decoder.old))
        (λ values. sequence_value (P.contents values)) decoder.old result decoder.new }
{
    record_of::<C, T, P, D, _>(
        cells,
        decoder,
        tag,
        &|inside: &mut D, tag: Tag| -> Result<T, D::Error>
            requires { ReadsHeld D.rules (H.schema H.CONSTRAINTS) H.value F.Fn held.now (D.rules.levels inside.old) }
            ensures { Reads D.rules (T.schema T.CONSTRAINTS (D.rules.levels inside.old)) T.value
                inside.old result inside.new }
        { read_same::<T, H, D, F>(inside, tag, held) },
    )
}

/// A CHOICE of which alternatives hold values of `T`.
pub trait HoldsAlternatives<T: AsnType>: Choice + Sized + Drop {
    /// Reads the alternative that goes by a tag, values of `T` by `held`. The tag is one of `VARIANTS` or of
    /// `EXTENDED_VARIANTS`.
    fn decode_alternative<H: Same<T>, D: Decoder, F: Fn(&mut D, Tag) -> Result<H, D::Error>>(
        decoder: &mut D,
        tag: Tag,
        held: &F,
    ) -> Result<Self, D::Error>
        requires { ReadsHeld D.rules (H.schema H.CONSTRAINTS) H.value F.Fn held.now (D.rules.levels decoder.old) }
        ensures { TakesAlternative D.rules (choices_of Self.alternatives Self.EXTENDED_VARIANTS Self.added)
            Self.VARIANTS Self.EXTENDED_VARIANTS (tag_of tag) Self.value decoder.old result decoder.new };
}

/// Reads a value under a tag that holds values of `T`, by the function for these.
fn wrapped<W: Wraps<T>, T: AsnType, D: Decoder, F: Fn(&mut D, Tag) -> Result<T, D::Error>>(
    decoder: &mut D,
    tag: Tag,
    held: &F,
) -> Result<W, D::Error>
    requires { ReadsHeld D.rules (T.schema T.CONSTRAINTS) T.value F.Fn held.now (D.rules.levels decoder.old) }
    ensures { Reads D.rules (W.schema W.CONSTRAINTS (D.rules.levels decoder.old)) W.value
        decoder.old result decoder.new }
{
    W::decode_wrapped::<D, F>(decoder, tag, &W::CONSTRAINTS, held)
}

/// Reads an alternative that holds values of `T`, under a tag and its type's own constraints.
pub fn alternative<
    W: Wraps<T>,
    T: AsnType,
    H: Same<T>,
    D: Decoder,
    F: Fn(&mut D, Tag) -> Result<H, D::Error>,
>(decoder: &mut D, tag: Tag, held: &F) -> Result<W, D::Error>
    requires { ReadsHeld D.rules (H.schema H.CONSTRAINTS) H.value F.Fn held.now (D.rules.levels decoder.old) }
    ensures { Reads D.rules (W.schema W.CONSTRAINTS (D.rules.levels decoder.old)) W.value
        decoder.old result decoder.new }
{
    wrapped::<W, T, D, _>(
        decoder,
        tag,
        &|inside: &mut D, tag: Tag| -> Result<T, D::Error>
            requires { ReadsHeld D.rules (H.schema H.CONSTRAINTS) H.value F.Fn held.now (D.rules.levels inside.old) }
            ensures { Reads D.rules (T.schema T.CONSTRAINTS (D.rules.levels inside.old)) T.value
                inside.old result inside.new }
        { read_same::<T, H, D, F>(inside, tag, held) },
    )
}

/// Reads a CHOICE that holds values of `T`: its index, and the alternative that goes by the tag at its place.
fn choice<
    C: HoldsAlternatives<T>,
    T: AsnType,
    H: Same<T>,
    D: Decoder,
    F: Fn(&mut D, Tag) -> Result<H, D::Error>,
>(decoder: &mut D, held: &F) -> Result<C, D::Error>
    requires { (n : ℕ) → D.rules.levels decoder.old ≡ suc n
        → ReadsHeld D.rules (H.schema H.CONSTRAINTS) H.value F.Fn held.now n }
    ensures { Reads D.rules (choice_at C.alternatives C.EXTENDED_VARIANTS C.added (D.rules.levels decoder.old)) C.value
        decoder.old result decoder.new }
{
    let (tag, outside) = decoder.open_choice::<C>()?;
    let value = C::decode_alternative::<H, D, F>(decoder, tag, held)?;
    decoder.close_choice(outside)?;
    Ok(value)
}

impl<T: AsnType, C: HoldsAlternatives<T>> Holds<T> for C {
    fn decode_holding<H: Same<T>, D: Decoder, F: Fn(&mut D, Tag) -> Result<H, D::Error>>(
        decoder: &mut D,
        _: Tag,
        held: &F,
    ) -> Result<C, D::Error> {
        choice::<C, T, H, D, F>(decoder, held)
    }
}
