//! Four components at a time, so that the types of long lists stay short.

ghost use Rattle.std.specs.Prelude.{ℕ, List, ◌∷◌, Option};
ghost use Rattle.std.specs.Borrow.{Bor};
ghost use Rattle.rasn_types.specs.Values.{Value};
ghost use Rattle.rasn_constraints.specs.declared.constraints.Constraint.{Constraint};
ghost use Rattle.rasn_schema.specs.Schemas.{Parts, part};
ghost use Rattle.rasn_schema.specs.Records.{own_or};
ghost use Rattle.rasn_schema.specs.Fields.{Shape, tagged};
ghost use Rattle.rasn_traits.specs.Scopes.{TakesParts, WritesParts};
ghost use Rattle.rasn_record.specs.Lists.{behind, both_asked, both_within, first_given, first_tree};

use crate::cells::{ByType, DecodeCells, EncodeCells, behind, read_first, write_first};
use crate::components::{DecodeComponent, EncodeComponent};
use crate::sides::Root;
use rasn_codec::codec::{Decoder, Encoder};
use rasn_schema::constraints::Constraint;
use rasn_schema::fields::Field;

/// Four components, and those after them.
#[derive(Clone, Copy)]
pub struct FourCells<A, B, C, D, N> {
    /// The first component.
    pub first: A,
    /// The second one.
    pub second: B,
    /// The third one.
    pub third: C,
    /// The fourth one.
    pub fourth: D,
    /// The components after them.
    pub next: N,
}

impl<A: ByType, B: ByType, C: ByType, D: ByType, N: ByType> ByType for FourCells<A, B, C, D, N> {
    const VALUE: FourCells<A, B, C, D, N> = FourCells {
        first: A::VALUE,
        second: B::VALUE,
        third: C::VALUE,
        fourth: D::VALUE,
        next: N::VALUE,
    };
}

impl<A, B, C, D, N> EncodeCells<Root> for FourCells<A, B, C, D, N>
where
    A: EncodeComponent<Root>,
    B: EncodeComponent<Root>,
    C: EncodeComponent<Root>,
    D: EncodeComponent<Root>,
    N: EncodeCells<Root>,
{
    ghost parts = { λ p fs cs n.
        part (first_tree (tagged A.Of.TAG) fs) (A.presence p.first)
        (A.Of.schema (own_or A.Of.CONSTRAINTS (first_given cs)) n)
        (part (first_tree (tagged B.Of.TAG) (behind fs)) (B.presence p.second)
        (B.Of.schema (own_or B.Of.CONSTRAINTS (first_given (behind cs))) n)
        (part (first_tree (tagged C.Of.TAG) (behind (behind fs))) (C.presence p.third)
        (C.Of.schema (own_or C.Of.CONSTRAINTS (first_given (behind (behind cs)))) n)
        (part (first_tree (tagged D.Of.TAG) (behind (behind (behind fs)))) (D.presence p.fourth)
        (D.Of.schema (own_or D.Of.CONSTRAINTS (first_given (behind (behind (behind cs))))) n)
        (N.parts p.next (behind (behind (behind (behind fs)))) (behind (behind (behind (behind cs)))) n)))) };

    ghost contents = { λ p. A.slot p.first ∷ B.slot p.second ∷ C.slot p.third ∷ D.slot p.fourth ∷ N.contents p.next };

    ghost levels = { λ p.
        A.levels p.first ∷ B.levels p.second ∷ C.levels p.third ∷ D.levels p.fourth ∷ N.levels p.next };

    #[inline(always)]
    fn encode_cells<E: Encoder>(
        &self,
        fields: &[Field],
        constraints: &[&'static [Constraint<'static>]],
        encoder: &mut E,
    ) -> Result<(), E::Error> {
        write_first::<Root, _, _>(&self.first, fields, constraints, encoder)?;
        let fields_2 = behind(fields);
        let constraints_2 = behind(constraints);
        write_first::<Root, _, _>(&self.second, fields_2, constraints_2, encoder)?;
        let fields_3 = behind(fields_2);
        let constraints_3 = behind(constraints_2);
        write_first::<Root, _, _>(&self.third, fields_3, constraints_3, encoder)?;
        let fields_4 = behind(fields_3);
        let constraints_4 = behind(constraints_3);
        write_first::<Root, _, _>(&self.fourth, fields_4, constraints_4, encoder)?;
        let fields_5 = behind(fields_4);
        let constraints_5 = behind(constraints_4);
        self.next.encode_cells(fields_5, constraints_5, encoder)
    }

    ghost asked = { λ p. both_asked (A.asked p.first) (both_asked (B.asked p.second) (both_asked (C.asked p.third)
        (both_asked (D.asked p.fourth) (N.asked p.next)))) };

    ghost within = { λ p n h. both_within (A.within p.first n h.0) (both_within (B.within p.second n h.1.0)
        (both_within (C.within p.third n h.1.1.0) (both_within (D.within p.fourth n h.1.1.1.0)
        (N.within p.next n h.1.1.1.1)))) };
}

impl<A, B, C, D, N> DecodeCells<Root> for FourCells<A, B, C, D, N>
where
    A: DecodeComponent<Root>,
    B: DecodeComponent<Root>,
    C: DecodeComponent<Root>,
    D: DecodeComponent<Root>,
    N: DecodeCells<Root>,
{
    type Values = (A::Value, B::Value, C::Value, D::Value, N::Values);

    ghost parts = { λ p fs cs n.
        part (first_tree (tagged A.Of.TAG) fs) (A.presence p.first)
        (A.Of.schema (own_or A.Of.CONSTRAINTS (first_given cs)) n)
        (part (first_tree (tagged B.Of.TAG) (behind fs)) (B.presence p.second)
        (B.Of.schema (own_or B.Of.CONSTRAINTS (first_given (behind cs))) n)
        (part (first_tree (tagged C.Of.TAG) (behind (behind fs))) (C.presence p.third)
        (C.Of.schema (own_or C.Of.CONSTRAINTS (first_given (behind (behind cs)))) n)
        (part (first_tree (tagged D.Of.TAG) (behind (behind (behind fs)))) (D.presence p.fourth)
        (D.Of.schema (own_or D.Of.CONSTRAINTS (first_given (behind (behind (behind cs))))) n)
        (N.parts p.next (behind (behind (behind (behind fs)))) (behind (behind (behind (behind cs)))) n)))) };

    ghost contents = { λ xs. A.slot xs.0 ∷ B.slot xs.1 ∷ C.slot xs.2 ∷ D.slot xs.3 ∷ N.contents xs.4 };

    #[inline(always)]
    fn decode_cells<R: Decoder>(
        &self,
        fields: &[Field],
        constraints: &[&'static [Constraint<'static>]],
        decoder: &mut R,
    ) -> Result<(A::Value, B::Value, C::Value, D::Value, N::Values), R::Error> {
        let a = read_first::<Root, _, _>(&self.first, fields, constraints, decoder)?;
        let fields_2 = behind(fields);
        let constraints_2 = behind(constraints);
        let b = read_first::<Root, _, _>(&self.second, fields_2, constraints_2, decoder)?;
        let fields_3 = behind(fields_2);
        let constraints_3 = behind(constraints_2);
        let c = read_first::<Root, _, _>(&self.third, fields_3, constraints_3, decoder)?;
        let fields_4 = behind(fields_3);
        let constraints_4 = behind(constraints_3);
        let d = read_first::<Root, _, _>(&self.fourth, fields_4, constraints_4, decoder)?;
        let fields_5 = behind(fields_4);
        let constraints_5 = behind(constraints_4);
        let rest = self.next.decode_cells(fields_5, constraints_5, decoder)?;
        Ok((a, b, c, d, rest))
    }
}
