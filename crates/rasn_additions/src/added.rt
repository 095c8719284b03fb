//! The list of a record's additions, as cells. Their tags and constraints are in lists beside them.

ghost use Rattle.std.specs.Prelude.{◌≡◌, map};
ghost use Rattle.rasn_schema.specs.Extensions.{fields_after};
ghost use Rattle.rasn_schema.specs.Fields.{shape_of};
ghost use Rattle.rasn_record.specs.Lists.{deepest};

use crate::additions::Added;
use rasn_codec::codec::{Decoder, Encoder};
use rasn_record::cells::{DecodeCells, EncodeCells, EncodeEachAddition};
use rasn_record::fields::added;
use rasn_schema::components::Components;
use rasn_schema::constraints::Constraint;
use rasn_schema::fields::{Field, FieldLists};
use rasn_traits::parts::{DecodeAdditions, EncodeAdditions};
use std::marker::PhantomData;

/// Additions of a record as cells, and the list that states their constraints. Their tags are those of the record's own
/// fields. One that has no constraints in the list has its type's own.
#[derive(Clone, Copy)]
pub struct AddedTo<T, P> {
    /// The record.
    pub of: PhantomData<T>,
    /// The constraints of the additions, in their order.
    pub constraints: &'static [&'static [Constraint<'static>]],
    /// The additions.
    pub cells: P,
}

/// Additions of a record, and the lists that state their tags and constraints. One that has no constraints in the list
/// has its type's own.
#[derive(Drop)]
pub struct ListedAdditions<P> {
    /// The lists of the record's fields.
    pub fields: FieldLists,
    /// The constraints of the additions, in their order.
    pub constraints: &'static [&'static [Constraint<'static>]],
    /// The additions.
    pub cells: P,
}

/// The fields after the extension marker, of which there are none without one.
fn after_marker(fields: &FieldLists) -> &'static [Field]
    ensures { map shape_of result.now ≡ fields_after fields.now.behind }
{
    match fields.added {
        Some(list) => list,
        None => &[],
    }
}

impl<T: Components, P: EncodeCells<Added>> EncodeAdditions for AddedTo<T, P> {
    ghost additions = { λ p. P.parts p.cells (fields_after T.COMPONENTS.behind) p.constraints.now };

    ghost contents = { λ p. P.contents p.cells };

    ghost levels = { λ p. deepest (P.levels p.cells) };

    fn encode_additions<E: Encoder>(&self, encoder: &mut E) -> Result<(), E::Error> {
        self.cells
            .encode_cells(added::<T>(), self.constraints, encoder)
    }
}

impl<T: Components, P: EncodeCells<Added>> EncodeEachAddition for AddedTo<T, P> {
    ghost asked = { λ p. P.asked p.cells };

    ghost within = { λ p n h. P.within p.cells n h };
}

impl<P: EncodeCells<Added>> EncodeAdditions for ListedAdditions<P> {
    ghost additions = { λ p. P.parts p.cells (fields_after p.fields.behind) p.constraints.now };

    ghost contents = { λ p. P.contents p.cells };

    ghost levels = { λ p. deepest (P.levels p.cells) };

    fn encode_additions<E: Encoder>(&self, encoder: &mut E) -> Result<(), E::Error> {
        self.cells
            .encode_cells(after_marker(&self.fields), self.constraints, encoder)
    }
}

impl<T: Components, P: DecodeCells<Added>> DecodeAdditions for AddedTo<T, P> {
    type Values = P::Values;

    ghost additions = { λ p. P.parts p.cells (fields_after T.COMPONENTS.behind) p.constraints.now };

    ghost contents = { P.contents };

    fn decode_additions<D: Decoder>(&self, decoder: &mut D) -> Result<P::Values, D::Error> {
        self.cells
            .decode_cells(added::<T>(), self.constraints, decoder)
    }
}

impl<P: DecodeCells<Added>> DecodeAdditions for ListedAdditions<P> {
    type Values = P::Values;

    ghost additions = { λ p. P.parts p.cells (fields_after p.fields.behind) p.constraints.now };

    ghost contents = { P.contents };

    fn decode_additions<D: Decoder>(&self, decoder: &mut D) -> Result<P::Values, D::Error> {
        self.cells
            .decode_cells(after_marker(&self.fields), self.constraints, decoder)
    }
}
