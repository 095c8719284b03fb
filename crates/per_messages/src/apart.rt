//! Whether names tell apart the parts of the types of a table.

ghost use Rattle.std.specs.Prelude.{◌≡◌, ◌&&◌, ◌++◌, flat_map, map, string_bytes};
ghost use Rattle.std.specs.List.{list_all};
ghost use Rattle.rasn_dynamic_jer.specs.DistinctNames.{addition_names, are_rows_apart, component_names, differ};
ghost use Rattle.rasn_dynamic_jer.specs.DistinctNames.{is_among};
ghost use Rattle.rasn_dynamic_jer.specs.DistinctNames.{is_kind_apart, is_named_apart, is_row_apart, is_simple_apart};
ghost use Rattle.rasn_dynamic_jer.specs.Shown.{group_in};

use rasn_dynamic::types::{Alternative, Component, Kind, ObjectSet, Row, Simple, Types};
use rasn_dynamic_jer::names::{is_added, is_component, row_place};
use rasn_dynamic_jer::table::group_in;

/// Whether names tell apart the parts of each type of a table, as the laws of `laws` ask: no two items of an ENUMERATED
/// have one name, no two alternatives of a CHOICE, and no two components of a SEQUENCE, those of its addition groups
/// among them; and rows of an object set that have one name are of one type. It takes the square of the time that the
/// longest list of names does.
pub fn is_named_apart(types: &Types) -> bool
    ensures { result ≡ is_named_apart types.now.kinds.items }
{
    are_kinds_apart(&types.kinds)
}

/// Whether names tell the parts of each type apart.
fn are_kinds_apart(kinds: &[Kind]) -> bool
    ensures { result ≡ is_named_apart kinds.now }
{
    kinds.iter().all(|kind| is_kind_apart(kinds, kind))
}

/// Whether names tell the parts of a type apart.
fn is_kind_apart(kinds: &[Kind], kind: &Kind) -> bool
    ensures { result ≡ is_kind_apart kinds.now kind.now }
{
    match kind {
        Kind::Simple(simple) => is_simple_apart(simple),
        Kind::Record(record) => {
            let additions = record.behind();
            are_components_apart(kinds, record.root(), additions)
                && are_additions_apart(kinds, additions)
        }
        Kind::Choice(choice) => {
            let addeds = choice.behind();
            are_alternatives_apart(&choice.roots, addeds) && are_alternatives_apart(addeds, &[])
        }
        Kind::Open(set) => are_rows_apart(set),
        Kind::Date | Kind::List(_, _) | Kind::SetOf(_, _) | Kind::Containing(_) => true,
    }
}

/// Whether the items of an ENUMERATED differ by name.
fn is_simple_apart(simple: &Simple) -> bool
    ensures { result ≡ is_simple_apart simple.now }
{
    match simple {
        Simple::Enumerated(items) => {
            let addeds = items.behind();
            are_items_apart(&items.roots, addeds) && are_items_apart(addeds, &[])
        }
        _ => true,
    }
}

/// Whether each item has another name than those after it and than others.
fn are_items_apart(items: &[String], others: &[String]) -> bool
    ensures { (result && differ (map (λ n. string_bytes n) others.now))
        ≡ differ (map (λ n. string_bytes n) items.now ++ map (λ n. string_bytes n) others.now) }
{
    match items {
        [] => true,
        [item, rest @ ..] => {
            if is_item(rest, item.as_str()) || is_item(others, item.as_str()) {
                return false;
            }
            are_items_apart(rest, others)
        }
    }
}

/// Whether a name is one of some items.
fn is_item(items: &[String], name: &str) -> bool
    ensures { result ≡ is_among (map (λ n. string_bytes n) items.now) name.now }
{
    items.iter().any(|own| own.as_str() == name)
}

/// Whether each alternative has another name than those after it and than others.
fn are_alternatives_apart(alternatives: &[Alternative], others: &[Alternative]) -> bool
    ensures { (result && differ (map (λ a. string_bytes a.name) others.now))
        ≡ differ (map (λ a. string_bytes a.name) alternatives.now ++ map (λ a. string_bytes a.name) others.now) }
{
    match alternatives {
        [] => true,
        [alternative, rest @ ..] => {
            let name = alternative.name.as_str();
            if is_alternative(rest, name) || is_alternative(others, name) {
                return false;
            }
            are_alternatives_apart(rest, others)
        }
    }
}

/// Whether a name is that of one of some alternatives.
fn is_alternative(alternatives: &[Alternative], name: &str) -> bool
    ensures { result ≡ is_among (map (λ a. string_bytes a.name) alternatives.now) name.now }
{
    alternatives.iter().any(|own| own.name.as_str() == name)
}

/// Whether each component has another name than those after it and than additions.
fn are_components_apart(kinds: &[Kind], components: &[Component], additions: &[Component]) -> bool
    ensures { (result && differ (flat_map (λ c. addition_names (group_in kinds.now c) c) additions.now))
        ≡ differ (component_names components.now
        ++ flat_map (λ c. addition_names (group_in kinds.now c) c) additions.now) }
{
    match components {
        [] => true,
        [component, rest @ ..] => {
            let name = component.name.as_str();
            if is_component(rest, name) || is_added(kinds, additions, name) {
                return false;
            }
            are_components_apart(kinds, rest, additions)
        }
    }
}

/// Whether additions differ by name, those of groups by the names of their components.
fn are_additions_apart(kinds: &[Kind], additions: &[Component]) -> bool
    ensures { result ≡ differ (flat_map (λ c. addition_names (group_in kinds.now c) c) additions.now) }
{
    match additions {
        [] => true,
        [addition, rest @ ..] => {
            is_addition_apart(kinds, addition, rest) && are_additions_apart(kinds, rest)
        }
    }
}

/// Whether the names of an addition differ, and from those after it.
fn is_addition_apart(kinds: &[Kind], addition: &Component, rest: &[Component]) -> bool
    ensures { (result && differ (flat_map (λ c. addition_names (group_in kinds.now c) c) rest.now))
        ≡ differ (addition_names (group_in kinds.now addition.now) addition.now
        ++ flat_map (λ c. addition_names (group_in kinds.now c) c) rest.now) }
{
    match group_in(kinds, addition) {
        Some(group) => are_components_apart(kinds, group.root(), rest),
        None => !is_added(kinds, rest, addition.name.as_str()),
    }
}

/// Whether rows of one name are of one type.
fn are_rows_apart(set: &ObjectSet) -> bool
    ensures { result ≡ are_rows_apart set.now }
{
    set.rows.iter().all(|row| is_row_apart(set, row))
}

/// Whether the first row with the name of a row is of its type.
fn is_row_apart(set: &ObjectSet, row: &Row) -> bool
    ensures { result ≡ is_row_apart set.now row.now }
{
    let Some(place) = row_place(set, row.name.as_str()) else {
        return false;
    };
    match set.row(place) {
        Some(first) => first.of == row.of,
        None => false,
    }
}
