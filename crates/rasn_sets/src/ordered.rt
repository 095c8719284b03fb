//! The components of a SET as cells, those of the root in ascending order of their smallest tags (X.691 21.1).

ghost use Rattle.std.specs.Prelude.{◌≡◌, ◌≤◌, ℕ};
ghost use Rattle.rasn_schema.specs.Components.{added_parts};
ghost use Rattle.rasn_traits.specs.Scopes.{TakesFields, WritesFields};
ghost use Rattle.rasn_record.specs.Lists.{deeper_of};
ghost use Rattle.rasn_sets.specs.SetRecords.{parts_in_order, slots_in_order};

use crate::components::SetComponents;
use rasn_codec::codec::{Decoder, Encoder};
use rasn_record::{read, write};
use rasn_traits::parts::{DecodeAdditions, DecodeParts, EncodeAdditions, EncodeParts};

/// Writes all root components of a SET in turn, and then gives its additions.
pub fn write_all<T: SetComponents, P: EncodeParts, Q: EncodeAdditions, E: Encoder>(
    of: &T,
    cells: &P,
    additions: &Q,
    encoder: &mut E,
) -> Result<(), E::Error>
    requires components { (n : ℕ) → parts_in_order T.components.0 n ≡ P.parts cells.now n }
    requires additions { (n : ℕ) → added_parts T.components.0 n ≡ Q.additions additions.now n }
    requires values { slots_in_order T.components.0 (T.contents of.now) ≡ P.contents cells.now }
    requires added { T.added of.now ≡ Q.contents additions.now }
    requires depth { deeper_of (P.levels cells.now) (Q.levels additions.now) ≤ T.depth of.now }
    ensures { WritesFields E.rules (parts_in_order T.components.0) (added_parts T.components.0) (T.depth of.now)
        (slots_in_order T.components.0 (T.contents of.now)) (T.added of.now) encoder.old result encoder.new }
{
    let _ = of;
    write::cells_and_additions(cells, additions, encoder)
}

/// Reads all root components of a SET in turn, and then its additions.
pub fn read_all<T: SetComponents, P: DecodeParts, Q: DecodeAdditions, D: Decoder>(
    cells: &P,
    additions: &Q,
    decoder: &mut D,
) -> Result<(P::Values, Q::Values), D::Error>
    requires components { (n : ℕ) → parts_in_order T.components.0 n ≡ P.parts cells.now n }
    requires additions { (n : ℕ) → added_parts T.components.0 n ≡ Q.additions additions.now n }
    ensures { TakesFields D.rules (parts_in_order T.components.0) (added_parts T.components.0)
        (λ values. P.contents values.0) (λ values. Q.contents values.1) decoder.old result decoder.new }
{
    read::cells_and_additions(cells, additions, decoder)
}
