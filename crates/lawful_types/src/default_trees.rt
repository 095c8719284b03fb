//! Whether defaults that may hold values are values of their components' types.

ghost use Rattle.std.specs.Prelude.{◌≡◌, ℕ, ◌+◌, ◌≤◌, ◌&&◌, List, None, is_some, map, option_map, slice_get, suc, true};
ghost use Rattle.rasn_schema.specs.Normal.{AtDepths, is_idle, is_vacant};
ghost use Rattle.rasn_schema.specs.Lawful.{all_pass, slot_passes};
ghost use Rattle.rasn_schema.specs.Lists.{deepest};
ghost use Rattle.rasn_schema.specs.Structures.{list_value};
ghost use Rattle.per_laws.specs.Levels.{levels_of};
ghost use Rattle.rasn_dynamic.specs.declared.types.Kind.{Kind};
ghost use Rattle.rasn_dynamic.specs.Defaults.{all_pairs, group_of, record_of};
ghost use Rattle.rasn_dynamic.specs.Types.{presence_of, record_schema, schema_at, tree_slot};
ghost use Rattle.rasn_dynamic.specs.Types.{tree_value, within};
ghost use Rattle.lawful_types.specs.TypeRules.{is_default_tree_of, is_right, list_of, is_right_slot, tree_levels};

use crate::defaults::is_default_at;
use crate::same_defaults::are_same;
use rasn_dynamic::default_trees::{chosen_place, group_of};
use rasn_dynamic::types::{
    Component, DefaultTree, DefaultValue, Kind, Presence, Record, kind_within,
};

/// Whether a default is a value of the type at a place of a table (X.680 25.9), and in normal form. Of octets that
/// contain a value it is one of what they contain.
pub fn is_default_tree_at(kinds: &[Kind], place: usize, told: &DefaultTree) -> bool
    ensures { result ≡ is_default_tree_of kinds.now place told.now }
{
    is_right_at(kinds, place, told)
}

/// Whether a default is a value of the type at a place, and in normal form.
#[cycle(judging)]
fn is_right_at(kinds: &[Kind], place: usize, told: &DefaultTree) -> bool
    ensures { AtDepths (schema_at kinds.now place) (levels_of (tree_value told.now) + 2)
        (λ s. result ≡ is_right s (tree_value told.now)) }
{
    match told {
        DefaultTree::Absent => is_default_at(kinds, place, &DefaultValue::Null),
        DefaultTree::Plain(told) => is_default_at(kinds, place, told),
        DefaultTree::Elements(tolds) => {
            let elements: &[DefaultTree] = tolds;
            is_list(kinds, place, elements)
        }
        DefaultTree::Fields(root, additions) => match record_within(kinds, place) {
            Some(record) => {
                let components = record.root();
                let behind = record.behind();
                let root_tolds: &[DefaultTree] = root;
                let added_tolds: &[DefaultTree] = additions;
                let root_fits = are_parts(kinds, components, false, root_tolds);
                if !root_fits {
                    return false;
                }
                are_parts(kinds, behind, true, added_tolds)
            }
            None => false,
        },
        DefaultTree::Alternative(at, chosen) => {
            let of = chosen_place(kinds, place, *at);
            let value: &DefaultTree = chosen;
            is_right_at(kinds, of, value)
        }
    }
}

/// Whether the list of these elements is a value of the type at a place, and in normal form.
#[cycle(judging)]
fn is_list(kinds: &[Kind], place: usize, tolds: &[DefaultTree]) -> bool
    ensures { AtDepths (schema_at kinds.now place) (deepest tree_levels tolds.now + 3)
        (λ s. result ≡ is_right s (list_value (map tree_value tolds.now))) }
{
    match list_within(kinds, place) {
        Some(of) => are_elements(kinds, of, tolds),
        None => false,
    }
}

/// Whether each of some defaults is a value of the type at a place, and in normal form.
#[cycle(judging)]
fn are_elements(kinds: &[Kind], place: usize, tolds: &[DefaultTree]) -> bool
    ensures { AtDepths (schema_at kinds.now place) (deepest tree_levels tolds.now + 2)
        (λ s. result ≡ all_pass (λ d. is_right s (tree_value d)) tolds.now) }
{
    for told in tolds {
        if !is_right_at(kinds, place, told) {
            return false;
        }
    }
    true
}

/// Whether defaults fit the components of a record after its extension marker or before it, one for one.
#[cycle(judging)]
fn are_parts(
    kinds: &[Kind],
    components: &[Component],
    are_added: bool,
    tolds: &[DefaultTree],
) -> bool
    ensures { (n : ℕ) → deepest tree_levels tolds.now + 2 ≤ n → result ≡ all_pairs
        (λ c d. is_right_slot are_added kinds.now n c (tree_slot d)) components.now tolds.now }
{
    if components.len() != tolds.len() {
        return false;
    }
    for (index, told) in tolds.iter().enumerate() {
        if !is_part(kinds, &components[index], are_added, told) {
            return false;
        }
    }
    true
}

/// Whether a default fits a component: absent where that may be, and else a value of its type, in normal form, and no
/// addition group that holds nothing (X.691 19.9).
#[cycle(judging)]
fn is_part(kinds: &[Kind], component: &Component, is_added: bool, told: &DefaultTree) -> bool
    ensures { (n : ℕ) → tree_levels told.now + 2 ≤ n →
        result ≡ is_right_slot is_added kinds.now n component.now (tree_slot told.now) }
{
    let there = told.is_there();
    if !there {
        return may_be_absent(&component.presence);
    }
    if !is_right_at(kinds, component.of, told) {
        return false;
    }
    !is_vacant_group(kinds, component, is_added, told)
}

/// Whether a component may be absent. One with a default is always there.
fn may_be_absent(presence: &Presence) -> bool
    ensures { result ≡ slot_passes (presence_of true presence.now) (λ v. true) None }
{
    match presence {
        Presence::Required => false,
        Presence::Optional => true,
        Presence::Group => true,
        Presence::Default(_) => false,
    }
}

/// Whether a default of a component is an addition group that holds nothing (X.691 19.9).
fn is_vacant_group(
    kinds: &[Kind],
    component: &Component,
    is_added: bool,
    told: &DefaultTree,
) -> bool
    ensures { (n : ℕ) → result ≡ (is_some (group_of kinds.now is_added component.now)
        && is_vacant (schema_at kinds.now component.now.of (suc n)) (tree_value told.now)) }
{
    match group_of(kinds, component, is_added) {
        Some(record) => is_vacant(record, told),
        None => false,
    }
}

/// Whether a default is a record of which each component is absent or its default.
fn is_vacant(record: &Record, told: &DefaultTree) -> bool
    ensures { (ts : List Kind) (n : ℕ) →
        result ≡ is_vacant (record_schema ts record.now (suc n)) (tree_value told.now) }
{
    match told {
        DefaultTree::Fields(root, additions) => {
            let root_tolds: &[DefaultTree] = root;
            let added_tolds: &[DefaultTree] = additions;
            let components = record.root();
            let behind = record.behind();
            let root_idle = are_idle(components, root_tolds);
            if !root_idle {
                return false;
            }
            are_idle(behind, added_tolds)
        }
        _ => false,
    }
}

/// Whether defaults are each absent or what their components have by default.
fn are_idle(components: &[Component], tolds: &[DefaultTree]) -> bool
    ensures { result ≡ all_pairs (λ c d. is_idle (presence_of true c.presence) (tree_slot d)) components.now tolds.now }
{
    if components.len() != tolds.len() {
        return false;
    }
    for (index, told) in tolds.iter().enumerate() {
        if !is_idle(&components[index], told) {
            return false;
        }
    }
    true
}

/// Whether a default is absent or what its component has by default.
fn is_idle(component: &Component, told: &DefaultTree) -> bool
    ensures { result ≡ is_idle (presence_of true component.now.presence) (tree_slot told.now) }
{
    let there = told.is_there();
    match &component.presence {
        Presence::Required => false,
        Presence::Optional => !there,
        Presence::Group => !there,
        Presence::Default(otherwise) => {
            if !there {
                return true;
            }
            are_same(told, otherwise)
        }
    }
}

/// The place of the elements' type of the list that is at a place, or is contained there, where one does.
fn list_within(kinds: &[Kind], place: usize) -> Option<usize>
    ensures { result ≡ list_of (within kinds.now (slice_get kinds.now place)) }
{
    match kind_within(kinds, place) {
        Some(Kind::List(of, _)) => Some(*of),
        _ => None,
    }
}

/// The record that is at a place, or is contained there, where one does.
fn record_within(kinds: &[Kind], place: usize) -> Option<&Record>
    ensures { option_map (λ r. r.now) result ≡ record_of (within kinds.now (slice_get kinds.now place)) }
{
    match kind_within(kinds, place) {
        Some(Kind::Record(record)) => Some(record),
        _ => None,
    }
}
