//! Whether components and alternatives are newer versions of others, wherever their types are.

ghost use Rattle.std.specs.Prelude.{◌≡◌, ◌≤◌, IfOk, false, is_some, slice_get, true};
ghost use Rattle.rasn_schema.specs.Structures.{tag_of};
ghost use Rattle.rasn_schema.specs.Lawful.{same_tag};
ghost use Rattle.rasn_dynamic.specs.Types.{required_in, tree_value};
ghost use Rattle.lawful_types.specs.TypeRules.{is_default_tree_of};
ghost use Rattle.lawful_types.specs.OneLevel.{AreNewerAlternatives, AreNewerComponents, IsFront};
ghost use Rattle.lawful_types.specs.OneLevel.{IsNewerAlternative, IsNewerComponent, IsNewerPresence};

use crate::default_trees::is_default_tree_at;
use crate::not_newer::Reason;
use crate::pairs::{Pair, list};
use crate::same_defaults::are_same;
use rasn_dynamic::types::{Alternative, Component, DefaultTree, Kind, Presence, required_in};
use rasn_types::types::Tag;

/// Compares the components of two records, each with the one in its place, and lists the pairs of their types. After
/// an extension marker the newer one may have more.
pub(crate) fn compare_components(
    behind: bool,
    newer_kinds: &[Kind],
    older_kinds: &[Kind],
    newer: &[Component],
    older: &[Component],
    pairs: &mut Vec<Pair>,
) -> Result<(), Reason>
    ensures front { IsFront pairs.old.items pairs.new.items }
    ensures newer { IfOk result (λ done.
        AreNewerComponents behind newer_kinds.now older_kinds.now pairs.new.items newer.now older.now) }
{
    compare_counts(behind, newer.len(), older.len())?;
    for (index, component) in older.iter().enumerate() {
        let own = &newer[index];
        compare_component(behind, newer_kinds, older_kinds, own, component, pairs)?;
    }
    Ok(())
}

/// Compares how many components or alternatives there are: no fewer, and more only after an extension marker.
fn compare_counts(behind: bool, newer: usize, older: usize) -> Result<(), Reason>
    ensures none_left_out { IfOk result (λ done. older ≤ newer) }
    ensures none_put_in { IfOk result (λ done. behind ≡ false → newer ≤ older) }
{
    if newer < older {
        return Err(Reason::LeftOut);
    }
    if newer > older && !behind {
        return Err(Reason::PutIn);
    }
    Ok(())
}

/// Compares two components, and lists the pair of their types.
fn compare_component(
    behind: bool,
    newer_kinds: &[Kind],
    older_kinds: &[Kind],
    newer: &Component,
    older: &Component,
    pairs: &mut Vec<Pair>,
) -> Result<(), Reason>
    ensures front { IsFront pairs.old.items pairs.new.items }
    ensures newer { IfOk result (λ done.
        IsNewerComponent behind newer_kinds.now older_kinds.now pairs.new.items newer.now older.now) }
{
    if !are_same_tag(newer.tag, older.tag) {
        return Err(Reason::Tag);
    }
    list(pairs, newer.of, older.of)?;
    compare_presences(behind, newer_kinds, older_kinds, newer, older)
}

/// Whether two tags are the same.
fn are_same_tag(newer: Tag, older: Tag) -> bool
    ensures { result ≡ same_tag (tag_of newer) (tag_of older) }
{
    newer.class as u8 == older.class as u8 && newer.value == older.value
}

/// Compares whether two components have to be there, and their defaults. The type of a group after an extension marker
/// is a SEQUENCE (X.680 25.1).
fn compare_presences(
    behind: bool,
    newer_kinds: &[Kind],
    older_kinds: &[Kind],
    newer: &Component,
    older: &Component,
) -> Result<(), Reason>
    ensures { IfOk result (λ done. IsNewerPresence behind newer_kinds.now older_kinds.now newer.now older.now) }
{
    let group = behind && is_record(newer_kinds, newer.of);
    let old_group = behind && is_record(older_kinds, older.of);
    match (&newer.presence, &older.presence) {
        (Presence::Required, Presence::Required) => Ok(()),
        (Presence::Default(default), Presence::Default(old)) => {
            compare_defaults(newer_kinds, older_kinds, newer.of, older.of, default, old)
        }
        (Presence::Optional, Presence::Optional) => Ok(()),
        (Presence::Group, Presence::Group) if group == old_group => Ok(()),
        (Presence::Group, Presence::Optional) if !group => Ok(()),
        (Presence::Optional, Presence::Group) if !old_group => Ok(()),
        _ => Err(Reason::Presence),
    }
}

/// Whether a SEQUENCE is at a place of a table.
fn is_record(kinds: &[Kind], place: usize) -> bool
    ensures { result ≡ is_some (required_in (slice_get kinds.now place)) }
{
    required_in(kinds, place).is_some()
}

/// Compares two defaults, of which each has to be a value of its type.
fn compare_defaults(
    newer_kinds: &[Kind],
    older_kinds: &[Kind],
    newer_of: usize,
    older_of: usize,
    newer: &DefaultTree,
    older: &DefaultTree,
) -> Result<(), Reason>
    ensures same { IfOk result (λ done. tree_value newer.now ≡ tree_value older.now) }
    ensures newer_lawful { IfOk result (λ done. is_default_tree_of newer_kinds.now newer_of newer.now ≡ true) }
    ensures lawful { IfOk result (λ done. is_default_tree_of older_kinds.now older_of older.now ≡ true) }
{
    if !is_default_tree_at(newer_kinds, newer_of, newer) {
        return Err(Reason::UnlawfulDefault);
    }
    if !is_default_tree_at(older_kinds, older_of, older) {
        return Err(Reason::UnlawfulDefault);
    }
    if !are_same(newer, older) {
        return Err(Reason::Default);
    }
    Ok(())
}

/// Compares the alternatives of two choices, each with the one in its place, and lists the pairs of their types. After
/// an extension marker the newer one may have more.
pub(crate) fn compare_alternatives(
    behind: bool,
    newer: &[Alternative],
    older: &[Alternative],
    pairs: &mut Vec<Pair>,
) -> Result<(), Reason>
    ensures front { IsFront pairs.old.items pairs.new.items }
    ensures newer { IfOk result (λ done.
        AreNewerAlternatives behind pairs.new.items newer.now older.now) }
{
    compare_counts(behind, newer.len(), older.len())?;
    for (index, alternative) in older.iter().enumerate() {
        let own = &newer[index];
        compare_alternative(own, alternative, pairs)?;
    }
    Ok(())
}

/// Compares two alternatives, and lists the pair of their types.
fn compare_alternative(
    newer: &Alternative,
    older: &Alternative,
    pairs: &mut Vec<Pair>,
) -> Result<(), Reason>
    ensures front { IsFront pairs.old.items pairs.new.items }
    ensures newer { IfOk result (λ done. IsNewerAlternative pairs.new.items newer.now older.now) }
{
    if !are_same_tag(newer.tag, older.tag) {
        return Err(Reason::Tag);
    }
    list(pairs, newer.of, older.of)
}
