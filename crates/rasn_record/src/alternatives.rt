//! One alternative of a CHOICE, as a list states it.

ghost use Rattle.std.specs.Prelude.{◌≡◌, ◌≤◌, ℕ, Some};
ghost use Rattle.rasn_schema.specs.Structures.{alternative_at, tag_of};
ghost use Rattle.rasn_schema.specs.Choices.{choices_of, place_of, variants_after};
ghost use Rattle.rasn_schema.specs.Components.{added_parts, chosen, chosen_behind, root_parts};
ghost use Rattle.rasn_schema.specs.Records.{own_or};
ghost use Rattle.rasn_traits.specs.Calls.{Reads};
ghost use Rattle.rasn_traits.specs.Choices.{WritesChosen};
ghost use Rattle.rasn_record.specs.Lists.{given};

use crate::cells::given;
use rasn_codec::codec::{Decode, Decoder, Encode, Encoder};
use rasn_schema::alternatives::Alternatives;
use rasn_schema::constraints::Constraint;
use rasn_types::types::Tag;

/// Writes the value of the alternative at a place before the extension marker, which goes by a tag. Its constraints are
/// its type's own where none are given.
pub fn write<T: Alternatives, H: Encode, E: Encoder>(
    of: &T,
    place: usize,
    tag: Tag,
    constraints: &'static [Constraint<'static>],
    value: &H,
    encoder: &mut E,
) -> Result<(), E::Error>
    requires tag { place_of (tag_of tag) T.ALTERNATIVES.before ≡ Some place }
    requires schema { (n : ℕ) → alternative_at (root_parts T.alternatives.0 n) place
        ≡ Some (H.schema (own_or H.CONSTRAINTS (given constraints.now)) n) }
    requires value { T.chosen of.now ≡ chosen place (H.value value.now) }
    requires levels { H.levels value.now ≤ T.depth of.now }
    ensures { WritesChosen E.rules
        (choices_of (root_parts T.alternatives.0) T.ALTERNATIVES.behind (added_parts T.alternatives.0))
        (T.chosen of.now) (T.depth of.now) encoder.old result encoder.new }
{
    let _ = of;
    let _ = place;
    let in_use = given(constraints, H::CONSTRAINTS);
    value.encode_with_tag_and_constraints(encoder, tag, &in_use, H::IDENTIFIER)
}

/// Writes the value of the alternative at a place after the extension marker, which goes by a tag. Its constraints are
/// its type's own where none are given.
pub fn write_after<T: Alternatives, H: Encode, E: Encoder>(
    of: &T,
    place: usize,
    tag: Tag,
    constraints: &'static [Constraint<'static>],
    value: &H,
    encoder: &mut E,
) -> Result<(), E::Error>
    requires tag { place_of (tag_of tag) (variants_after T.ALTERNATIVES.behind) ≡ Some place }
    requires schema { (n : ℕ) → alternative_at (added_parts T.alternatives.0 n) place
        ≡ Some (H.schema (own_or H.CONSTRAINTS (given constraints.now)) n) }
    requires value { T.chosen of.now ≡ chosen_behind place (H.value value.now) }
    requires levels { H.levels value.now ≤ T.depth of.now }
    ensures { WritesChosen E.rules
        (choices_of (root_parts T.alternatives.0) T.ALTERNATIVES.behind (added_parts T.alternatives.0))
        (T.chosen of.now) (T.depth of.now) encoder.old result encoder.new }
{
    let _ = of;
    let _ = place;
    let in_use = given(constraints, H::CONSTRAINTS);
    let identifier = H::IDENTIFIER;
    value.encode_with_tag_and_constraints(encoder, tag, &in_use, identifier)
}

/// Reads an alternative under a tag. Its constraints are its type's own where none are given.
pub fn read<H: Decode, D: Decoder>(
    decoder: &mut D,
    tag: Tag,
    constraints: &'static [Constraint<'static>],
) -> Result<H, D::Error>
    ensures { Reads D.rules (H.schema (own_or H.CONSTRAINTS (given constraints.now)) (D.rules.levels decoder.old))
        H.value decoder.old result decoder.new }
{
    let in_use = given(constraints, H::CONSTRAINTS);
    H::decode_with_tag_and_constraints(decoder, tag, &in_use)
}
