//! The components of a record as cells to read, and each stated at its place.

ghost use Rattle.std.specs.Prelude.{◌≡◌, ℕ, [], Some, drop};
ghost use Rattle.rasn_schema.specs.Schemas.{required};
ghost use Rattle.rasn_schema.specs.Records.{own_or};
ghost use Rattle.rasn_schema.specs.Components.{added_parts, root_parts, tags_at, presence_at, schema_at, content_at};
ghost use Rattle.rasn_schema.specs.Components.{at};
ghost use Rattle.rasn_traits.specs.Scopes.{TakesFields};
ghost use Rattle.rasn_record.specs.Lists.{ArePlain, first_given};

use crate::bounds::Bounds;
use crate::cells::{DecodeCells, Listed};
use crate::fields::root;
use crate::sides::Root;
use rasn_codec::codec::Decoder;
use rasn_schema::components::Components;
use rasn_schema::constraints::Constraint;
use rasn_schema::schema::AsnType;
use rasn_traits::parts::{DecodeAdditions, DecodeParts};

/// A required component of a record, as a list states it at its place.
pub fn component<T: Components, H: AsnType>(
    place: usize,
    tag: u32,
    constraints: &[&'static [Constraint<'static>]],
)
    requires tag { tags_at T.components.0.before place ≡ Some (at tag) }
    requires presence { presence_at T.components.0.before place ≡ Some required }
    requires schema { (n : ℕ) → schema_at T.components.0.before place n
        ≡ Some (H.schema (own_or H.CONSTRAINTS (first_given (drop place constraints.now))) n) }
{
    let _ = place;
    let _ = tag;
    let _ = constraints;
}

/// A required component of a record that was read, as a list states it at its place.
pub fn value<T: Components, H: AsnType>(of: &T, place: usize, value: &H)
    requires value { content_at (T.contents of.now) place ≡ Some (Some (H.value value.now)) }
{
    let _ = of;
    let _ = place;
    let _ = value;
}

/// Reads components in turn, those that the cells state, and then the additions, and answers both. An error is a
/// decoder's, and leaves this one failed.
#[inline(always)]
pub fn cells_and_additions<P: DecodeParts, Q: DecodeAdditions, D: Decoder>(
    cells: &P,
    additions: &Q,
    decoder: &mut D,
) -> Result<(P::Values, Q::Values), D::Error>
    ensures { TakesFields D.rules (P.parts cells.now) (Q.additions additions.now)
        (λ values. P.contents values.0) (λ values. Q.contents values.1) decoder.old result decoder.new }
{
    let before = cells.decode_parts(decoder)?;
    let behind = additions.decode_additions(decoder)?;
    Ok((before, behind))
}

/// Reads all components of a record in turn, by the record's own fields and the constraints of a list, and then its
/// additions.
#[inline(always)]
pub fn all<T: Components, P: DecodeCells<Root>, Q: DecodeAdditions, D: Decoder>(
    cells: &P,
    constraints: &'static [&'static [Constraint<'static>]],
    additions: &Q,
    decoder: &mut D,
) -> Result<(P::Values, Q::Values), D::Error>
    requires components { (n : ℕ) → root_parts T.components.0 n
        ≡ P.parts cells.now T.COMPONENTS.before constraints.now n }
    requires additions { (n : ℕ) → added_parts T.components.0 n ≡ Q.additions additions.now n }
    ensures { TakesFields D.rules (root_parts T.components.0) (added_parts T.components.0)
        (λ values. P.contents values.0) (λ values. Q.contents values.1) decoder.old result decoder.new }
{
    let listed = Listed {
        fields: root::<T>(),
        constraints,
        cells,
    };
    cells_and_additions(&listed, additions, decoder)
}

/// Reads all components of a record without additions in turn, by the record's own fields and the constraints of a
/// list. It takes no references beside the decoder, each of which costs a page's check.
#[inline(always)]
pub fn plain<T: Components, P: DecodeCells<Root> + Drop, D: Decoder>(
    cells: P,
    bounds: Bounds,
    decoder: &mut D,
) -> Result<P::Values, D::Error>
    requires { ArePlain T.components.0 (P.parts cells T.COMPONENTS.before bounds.lists.now.root.now) }
    ensures { TakesFields D.rules (root_parts T.components.0) (added_parts T.components.0) P.contents (λ _. [])
        decoder.old result decoder.new }
{
    cells.decode_cells(root::<T>(), bounds.lists.root, decoder)
}
