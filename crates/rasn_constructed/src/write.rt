//! How types that hold themselves are written: a CHOICE by the alternative that is chosen, and a SEQUENCE with a list
//! of the type itself by a reference of its own, beside the other components.

ghost use Rattle.std.specs.Prelude.{◌≡◌, ℕ, suc, List, [], ◌∷◌, Option, Some, map};
ghost use Rattle.std.specs.Borrow.{Bor};
ghost use Rattle.rasn_types.specs.Values.{Value, alternative, root};
ghost use Rattle.rasn_constraints.specs.declared.constraints.Constraint.{Constraint};
ghost use Rattle.rasn_schema.specs.Structures.{alternative_at, tag_of};
ghost use Rattle.rasn_schema.specs.Choices.{place_of};
ghost use Rattle.rasn_schema.specs.Components.{sequence_at, sequence_value};
ghost use Rattle.rasn_schema.specs.Schemas.{Parts, no_parts, part, required};
ghost use Rattle.rasn_schema.specs.Records.{own_or};
ghost use Rattle.rasn_schema.specs.Fields.{Shape, shape_of, tagged};
ghost use Rattle.rasn_traits.specs.Calls.{Encodes};
ghost use Rattle.rasn_traits.specs.Scopes.{WritesParts};
ghost use Rattle.rasn_record.specs.Lists.{ArePlain, at_least, behind, deepest, first_given, first_tree};

use crate::read::Plain;
use rasn_codec::codec::{Encode, Encoder, EncoderExt};
use rasn_record::cells::{Cell, EncodeCells, End, GivesBounds, OfRecord};
use rasn_record::components::EncodeComponent;
use rasn_record::sides::Root;
use rasn_schema::choices::Choice;
use rasn_schema::components::Components;
use rasn_schema::constraints::Constraint;
use rasn_schema::fields::Field;
use rasn_traits::parts::NoAdditions;
use rasn_types::types::{Identifier, Tag};
use std::marker::PhantomData;

/// Writes a CHOICE under a tag and a name by the value of one alternative, which is at a place before the extension
/// marker and goes by the tag `by`.
pub fn write_alternative<C: Choice, H: Encode, E: Encoder>(
    value: &H,
    place: usize,
    by: Tag,
    encoder: &mut E,
    tag: Tag,
    identifier: Identifier,
) -> Result<(), E::Error>
    requires tag { place_of (tag_of by) C.VARIANTS ≡ Some place }
    requires schema { (n : ℕ) → alternative_at (C.alternatives n) place ≡ Some (H.schema H.CONSTRAINTS n) }
    ensures { Encodes E.rules (C.schema C.CONSTRAINTS) (suc (H.levels value.now))
        (alternative root place (H.value value.now)) encoder.old result encoder.new }
{
    let _ = place;
    encoder.encode_alternative::<C, H>(tag, by, value, identifier)
}

/// In a list of components to write, the place of the one that holds values of the record's type.
#[derive(Clone, Copy)]
pub struct Held {}

/// Components of a record that are still to be written, of which one, of a type `H`, holds values of the record's type:
/// this is beside the list, since the toolchain refuses a list with a reference to it.
pub trait EncodeHoldingCells<H> {
    // The components, by what the lists state of them, to a number of levels.
    ghost parts: { Self → List Shape → List (Bor (List Constraint)) → ℕ → Parts };

    // What they are.
    ghost contents: { Self → H → List (Option Value) };

    // How many levels each takes.
    ghost levels: { Self → H → List ℕ };

    /// Writes the components in turn.
    fn encode_holding<E: Encoder>(
        &self,
        held: &H,
        fields: &[Field],
        constraints: &[&'static [Constraint<'static>]],
        encoder: &mut E,
    ) -> Result<(), E::Error>
        ensures { WritesParts E.rules (Self.parts self.now (map shape_of fields.now) constraints.now)
            (deepest (Self.levels self.now held.now)) (Self.contents self.now held.now)
            encoder.old result encoder.new };
}

/// Components that are still to be written, and the one among them that holds values of the record's type.
#[derive(Clone, Copy)]
struct Beside<'a, P, H> {
    cells: &'a P,
    held: &'a H,
}

impl<'a, H, P: EncodeHoldingCells<H>> EncodeCells<Root> for Beside<'a, P, H> {
    ghost parts = { λ p. P.parts p.cells.now };

    ghost contents = { λ p. P.contents p.cells.now p.held.now };

    ghost levels = { λ p. P.levels p.cells.now p.held.now };

    fn encode_cells<E: Encoder>(
        &self,
        fields: &[Field],
        constraints: &[&'static [Constraint<'static>]],
        encoder: &mut E,
    ) -> Result<(), E::Error> {
        self.cells
            .encode_holding(self.held, fields, constraints, encoder)
    }

    ghost asked = { λ p. at_least (deepest (P.levels p.cells.now p.held.now)) };

    ghost within = { λ p n h. h };
}

impl<H> EncodeHoldingCells<H> for End {
    ghost parts = { λ p fs cs n. no_parts };

    ghost contents = { λ p h. [] };

    ghost levels = { λ p h. [] };

    fn encode_holding<E: Encoder>(
        &self,
        _: &H,
        fields: &[Field],
        constraints: &[&'static [Constraint<'static>]],
        encoder: &mut E,
    ) -> Result<(), E::Error> {
        EncodeCells::<Root>::encode_cells(self, fields, constraints, encoder)
    }
}

impl<H, C: EncodeComponent<Root> + Copy, N: EncodeHoldingCells<H>> EncodeHoldingCells<H>
    for Cell<Plain<C>, N> {
    ghost parts = { λ p fs cs n. part (first_tree (tagged C.Of.TAG) fs) (C.presence p.component.0)
        (C.Of.schema (own_or C.Of.CONSTRAINTS (first_given cs)) n) (N.parts p.next (behind fs) (behind cs) n) };

    ghost contents = { λ p h. C.slot p.component.0 ∷ N.contents p.next h };

    ghost levels = { λ p h. C.levels p.component.0 ∷ N.levels p.next h };

    fn encode_holding<E: Encoder>(
        &self,
        held: &H,
        fields: &[Field],
        constraints: &[&'static [Constraint<'static>]],
        encoder: &mut E,
    ) -> Result<(), E::Error> {
        let cell = Cell {
            component: self.component.0,
            next: Beside {
                cells: &self.next,
                held,
            },
        };
        cell.encode_cells(fields, constraints, encoder)
    }
}

impl<H: Encode, N: EncodeHoldingCells<H>> EncodeHoldingCells<H> for Cell<Held, N> {
    ghost parts = { λ p fs cs n. part (first_tree (tagged H.TAG) fs) required
        (H.schema (own_or H.CONSTRAINTS (first_given cs)) n) (N.parts p.next (behind fs) (behind cs) n) };

    ghost contents = { λ p h. Some (H.value h) ∷ N.contents p.next h };

    ghost levels = { λ p h. H.levels h ∷ N.levels p.next h };

    fn encode_holding<E: Encoder>(
        &self,
        held: &H,
        fields: &[Field],
        constraints: &[&'static [Constraint<'static>]],
        encoder: &mut E,
    ) -> Result<(), E::Error> {
        let cell = Cell {
            component: held,
            next: Beside {
                cells: &self.next,
                held,
            },
        };
        cell.encode_cells(fields, constraints, encoder)
    }
}

/// Writes a SEQUENCE without additions under a tag and a name, of which the component `held` holds values of its type.
pub fn write_record<C: Components, P: EncodeHoldingCells<H>, H: Encode, B: GivesBounds, E: Encoder>(
    cells: &P,
    held: &H,
    bounds: &B,
    encoder: &mut E,
    tag: Tag,
    identifier: Identifier,
) -> Result<(), E::Error>
    requires { ArePlain C.components.0 (P.parts cells.now C.COMPONENTS.before (B.list bounds.now)) }
    ensures { Encodes E.rules (sequence_at C.components.0) (suc (deepest (P.levels cells.now held.now)))
        (sequence_value (P.contents cells.now held.now)) encoder.old result encoder.new }
{
    let parts = OfRecord::<C, _> {
        of: PhantomData,
        constraints: bounds.list(),
        cells: Beside { cells, held },
    };
    encoder.encode_record::<C, _, _, _>(tag, &parts, &NoAdditions, identifier)
}
