//! The components of a record as cells to write, and each stated at its place.

ghost use Rattle.std.specs.Prelude.{◌≡◌, ◌≤◌, ℕ, [], Some, drop};
ghost use Rattle.rasn_schema.specs.Schemas.{no_parts, required};
ghost use Rattle.rasn_schema.specs.Records.{own_or};
ghost use Rattle.rasn_schema.specs.Components.{added_parts, root_parts, tags_at, presence_at, schema_at, content_at};
ghost use Rattle.rasn_schema.specs.Components.{at};
ghost use Rattle.rasn_traits.specs.Scopes.{WritesFields};
ghost use Rattle.rasn_record.specs.Lists.{AreWithin, Holds, deeper_of, first_given};

use crate::cells::{EncodeEach, EncodeEachAddition};
use rasn_codec::codec::Encoder;
use rasn_schema::components::Components;
use rasn_schema::constraints::Constraint;
use rasn_schema::schema::AsnType;
use rasn_traits::parts::{EncodeAdditions, EncodeParts, NoAdditions};

/// A required component of a record, as a list states it at its place.
pub fn component<T: Components, H: AsnType>(
    of: &T,
    place: usize,
    tag: u32,
    constraints: &[&'static [Constraint<'static>]],
    value: &H,
)
    requires tag { tags_at T.components.0.before place ≡ Some (at tag) }
    requires presence { presence_at T.components.0.before place ≡ Some required }
    requires schema { (n : ℕ) → schema_at T.components.0.before place n
        ≡ Some (H.schema (own_or H.CONSTRAINTS (first_given (drop place constraints.now))) n) }
    requires value { content_at (T.contents of.now) place ≡ Some (Some (H.value value.now)) }
    requires levels { H.levels value.now ≤ T.depth of.now }
{
    let _ = of;
    let _ = place;
    let _ = tag;
    let _ = constraints;
    let _ = value;
}

/// Writes components in turn, those that the cells state, and then gives the additions. An error is an encoder's, and
/// leaves this one failed.
pub fn cells_and_additions<P: EncodeParts, Q: EncodeAdditions, E: Encoder>(
    cells: &P,
    additions: &Q,
    encoder: &mut E,
) -> Result<(), E::Error>
    ensures { WritesFields E.rules (P.parts cells.now) (Q.additions additions.now)
        (deeper_of (P.levels cells.now) (Q.levels additions.now)) (P.contents cells.now) (Q.contents additions.now)
        encoder.old result encoder.new }
{
    cells.encode_parts(encoder)?;
    additions.encode_additions(encoder)
}

/// Writes all components of a record in turn, and then gives its additions.
pub fn all<T: Components, P: EncodeParts, Q: EncodeAdditions, E: Encoder>(
    of: &T,
    cells: &P,
    additions: &Q,
    encoder: &mut E,
) -> Result<(), E::Error>
    requires components { (n : ℕ) → root_parts T.components.0 n ≡ P.parts cells.now n }
    requires additions { (n : ℕ) → added_parts T.components.0 n ≡ Q.additions additions.now n }
    requires values { T.contents of.now ≡ P.contents cells.now }
    requires added { T.added of.now ≡ Q.contents additions.now }
    requires depth { deeper_of (P.levels cells.now) (Q.levels additions.now) ≤ T.depth of.now }
    ensures { WritesFields E.rules (root_parts T.components.0) (added_parts T.components.0) (T.depth of.now)
        (T.contents of.now) (T.added of.now) encoder.old result encoder.new }
{
    let _ = of;
    cells_and_additions(cells, additions, encoder)
}

/// Writes all components of a record in turn, and then gives its additions. A record that doesn't state the levels of
/// the deepest of them states enough for each by itself.
pub fn extended<T: Components, P: EncodeEach, Q: EncodeEachAddition, E: Encoder>(
    of: &T,
    cells: &P,
    additions: &Q,
    encoder: &mut E,
) -> Result<(), E::Error>
    requires components { (n : ℕ) → root_parts T.components.0 n ≡ P.parts cells.now n }
    requires additions { (n : ℕ) → added_parts T.components.0 n ≡ Q.additions additions.now n }
    requires values { T.contents of.now ≡ P.contents cells.now }
    requires added { T.added of.now ≡ Q.contents additions.now }
    requires depth { Holds (T.depth of.now) (deeper_of (P.levels cells.now) (Q.levels additions.now))
        ((P.asked cells.now).Of (T.depth of.now) × (Q.asked additions.now).Of (T.depth of.now)) }
    ensures { WritesFields E.rules (root_parts T.components.0) (added_parts T.components.0) (T.depth of.now)
        (T.contents of.now) (T.added of.now) encoder.old result encoder.new }
{
    all(of, cells, additions, encoder)
}

/// Writes all components of a record without additions in turn. A record that doesn't state the levels of the deepest
/// of them states enough for each by itself.
pub fn without_additions<T: Components, P: EncodeEach, E: Encoder>(
    of: &T,
    cells: &P,
    encoder: &mut E,
) -> Result<(), E::Error>
    requires components { (n : ℕ) → root_parts T.components.0 n ≡ P.parts cells.now n }
    requires additions { (n : ℕ) → added_parts T.components.0 n ≡ no_parts }
    requires values { T.contents of.now ≡ P.contents cells.now }
    requires added { T.added of.now ≡ [] }
    requires depth { Holds (T.depth of.now) (P.levels cells.now) ((P.asked cells.now).Of (T.depth of.now)) }
    ensures { WritesFields E.rules (root_parts T.components.0) (added_parts T.components.0) (T.depth of.now)
        (T.contents of.now) (T.added of.now) encoder.old result encoder.new }
{
    all(of, cells, &NoAdditions, encoder)
}

/// Writes all components of a record without additions in turn. That the record states enough levels is asked of each
/// component by itself.
pub fn plain<T: Components, P: EncodeEach, E: Encoder>(
    of: &T,
    cells: &P,
    encoder: &mut E,
) -> Result<(), E::Error>
    requires components { (n : ℕ) → root_parts T.components.0 n ≡ P.parts cells.now n }
    requires additions { (n : ℕ) → added_parts T.components.0 n ≡ no_parts }
    requires values { T.contents of.now ≡ P.contents cells.now }
    requires added { T.added of.now ≡ [] }
    requires depth { AreWithin (T.depth of.now) (P.each cells.now) }
    ensures { WritesFields E.rules (root_parts T.components.0) (added_parts T.components.0) (T.depth of.now)
        (T.contents of.now) (T.added of.now) encoder.old result encoder.new }
{
    all(of, cells, &NoAdditions, encoder)
}
