//! One alternative of a CHOICE, as a list states it, whose constraints are at its place in another.

ghost use Rattle.std.specs.Prelude.{◌≡◌, ◌<◌, ◌≤◌, ℕ, [], Some, length};
ghost use Rattle.rasn_schema.specs.Structures.{alternative_at, tag_of};
ghost use Rattle.rasn_schema.specs.Choices.{choices_of, place_of, variants_after};
ghost use Rattle.rasn_schema.specs.declared.items.Place.TheVariants.{Root};
ghost use Rattle.rasn_schema.specs.Components.{added_parts, chosen, chosen_behind, root_parts};
ghost use Rattle.rasn_schema.specs.Records.{own_or};
ghost use Rattle.rasn_traits.specs.Calls.{Reads};
ghost use Rattle.rasn_traits.specs.Choices.{IsPlaceOf, WritesChosen};
ghost use Rattle.rasn_record.specs.Lists.{given};
ghost use Rattle.rasn_record.specs.ConstraintsAt.{given_at};

use crate::alternatives;
use crate::bounds::Bounds;
use rasn_codec::codec::{Decode, Decoder, Encode, Encoder};
use rasn_schema::alternatives::Alternatives;
use rasn_schema::constraints::Constraint;
use rasn_schema::items::Place;
use rasn_types::types::Tag;

/// The constraints at a place of a list: none where it has none there.
fn limits_at(
    list: &[&'static [Constraint<'static>]],
    place: usize,
) -> &'static [Constraint<'static>]
    ensures { given result.now ≡ given_at list.now place }
{
    let Some(limits) = list.get(place) else {
        return &[];
    };
    *limits
}

/// Writes the value of the alternative at a place before the extension marker, which goes by a tag. Its constraints
/// are at its place in a list, or are its type's own where none are given.
#[inline(always)]
pub fn write<T: Alternatives, H: Encode, E: Encoder>(
    of: &T,
    place: usize,
    tag: Tag,
    bounds: Bounds,
    value: &H,
    encoder: &mut E,
) -> Result<(), E::Error>
    requires tag { place_of (tag_of tag) T.ALTERNATIVES.before ≡ Some place }
    requires schema { (n : ℕ) → alternative_at (root_parts T.alternatives.0 n) place
        ≡ Some (H.schema (own_or H.CONSTRAINTS (given_at bounds.lists.now.root.now place)) n) }
    requires value { T.chosen of.now ≡ chosen place (H.value value.now) }
    requires levels { H.levels value.now ≤ T.depth of.now }
    ensures { WritesChosen E.rules
        (choices_of (root_parts T.alternatives.0) T.ALTERNATIVES.behind (added_parts T.alternatives.0))
        (T.chosen of.now) (T.depth of.now) encoder.old result encoder.new }
{
    let limits = limits_at(bounds.lists.root, place);
    alternatives::write(of, place, tag, limits, value, encoder)
}

/// Writes the value of the alternative at a place after the extension marker, which goes by a tag. Its constraints
/// are at its place in a list, or are its type's own where none are given.
#[inline(always)]
pub fn write_after<T: Alternatives, H: Encode, E: Encoder>(
    of: &T,
    place: usize,
    tag: Tag,
    bounds: Bounds,
    value: &H,
    encoder: &mut E,
) -> Result<(), E::Error>
    requires tag { place_of (tag_of tag) (variants_after T.ALTERNATIVES.behind) ≡ Some place }
    requires schema { (n : ℕ) → alternative_at (added_parts T.alternatives.0 n) place
        ≡ Some (H.schema (own_or H.CONSTRAINTS (given_at bounds.lists.now.added.now place)) n) }
    requires value { T.chosen of.now ≡ chosen_behind place (H.value value.now) }
    requires levels { H.levels value.now ≤ T.depth of.now }
    ensures { WritesChosen E.rules
        (choices_of (root_parts T.alternatives.0) T.ALTERNATIVES.behind (added_parts T.alternatives.0))
        (T.chosen of.now) (T.depth of.now) encoder.old result encoder.new }
{
    let limits = limits_at(bounds.lists.added, place);
    alternatives::write_after(of, place, tag, limits, value, encoder)
}

/// Reads the alternative at a place before the extension marker under a tag. Its constraints are at its place in a
/// list, or are its type's own where none are given.
#[inline(always)]
pub fn read<H: Decode, D: Decoder>(
    decoder: &mut D,
    tag: Tag,
    bounds: Bounds,
    place: usize,
) -> Result<H, D::Error>
    ensures { Reads D.rules (H.schema (own_or H.CONSTRAINTS (given_at bounds.lists.now.root.now place))
        (D.rules.levels decoder.old)) H.value decoder.old result decoder.new }
{
    let limits = limits_at(bounds.lists.root, place);
    alternatives::read::<H, D>(decoder, tag, limits)
}

/// Reads the alternative at a place after the extension marker under a tag. Its constraints are at its place in a
/// list, or are its type's own where none are given.
#[inline(always)]
pub fn read_after<H: Decode, D: Decoder>(
    decoder: &mut D,
    tag: Tag,
    bounds: Bounds,
    place: usize,
) -> Result<H, D::Error>
    ensures { Reads D.rules (H.schema (own_or H.CONSTRAINTS (given_at bounds.lists.now.added.now place))
        (D.rules.levels decoder.old)) H.value decoder.old result decoder.new }
{
    let limits = limits_at(bounds.lists.added, place);
    alternatives::read::<H, D>(decoder, tag, limits)
}

/// The index of the alternative at a place of a list without one after an extension marker.
#[inline(always)]
pub fn index_before<T: Alternatives>(place: Place) -> usize
    requires none { variants_after T.ALTERNATIVES.behind ≡ [] }
    requires there { IsPlaceOf T.ALTERNATIVES.before T.ALTERNATIVES.behind place }
    ensures stands { place ≡ Root result }
    ensures within { result < length T.ALTERNATIVES.before }
{
    match place {
        Place::Root(index) => index,
        Place::Added(index) => index,
    }
}

/// The place is the last.
#[inline(always)]
pub fn is_last(place: usize, last: usize)
    requires { place ≡ last }
    ensures { place ≡ last }
{}
