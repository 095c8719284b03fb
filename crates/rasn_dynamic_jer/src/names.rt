//! What members and names of JSON stand for.

ghost use Rattle.std.specs.Prelude.{◌≡◌, position, string_bytes};
ghost use Rattle.std.specs.List.{list_all, list_any};
ghost use Rattle.std.specs.Str.{bytes_eq};
ghost use Rattle.json.specs.Strict.{keys};
ghost use Rattle.json.specs.Value.{members_view, value_view};
ghost use Rattle.rasn_dynamic_jer.specs.Shown.{group_in};
ghost use Rattle.rasn_dynamic_jer.specs.FromJson.{alternative_place, has_member, is_addition, is_component, is_member};
ghost use Rattle.rasn_dynamic_jer.specs.FromJson.{row_place};

use crate::table::group_in;
use json::Value as Json;
use rasn_dynamic::types::{Alternative, Choice, Component, Kind, ObjectSet, Record, Row};
use rasn_schema::items::Place;

/// Whether one of some components has a member.
pub fn has_member(json: &Json<'_>, components: &[Component]) -> bool
    ensures { result ≡ has_member (value_view json.now) components.now }
{
    components
        .iter()
        .any(|component| json.get(component.name.as_str()).is_some())
}

/// Whether each member of an object has a name of a record's members.
pub fn are_members(kinds: &[Kind], sequence: &Record, members: &[(&str, Json<'_>)]) -> bool
    ensures { result ≡ list_all (is_member kinds.now sequence.now) (keys (members_view members.now)) }
{
    members
        .iter()
        .all(|member| is_member(kinds, sequence, member.0))
}

/// Whether a name is that of a record's member.
fn is_member(kinds: &[Kind], sequence: &Record, name: &str) -> bool
    ensures { result ≡ is_member kinds.now sequence.now name.now }
{
    is_component(sequence.root(), name) || is_added(kinds, sequence.behind(), name)
}

/// Whether a name is that of one of some components.
pub fn is_component(components: &[Component], name: &str) -> bool
    ensures { result ≡ is_component components.now name.now }
{
    components
        .iter()
        .any(|component| component.name.as_str() == name)
}

/// Whether a name is that of a member of one of some additions.
pub fn is_added(kinds: &[Kind], components: &[Component], name: &str) -> bool
    ensures { result ≡ list_any (λ c. is_addition (group_in kinds.now c) c name.now) components.now }
{
    components
        .iter()
        .any(|component| is_addition(kinds, component, name))
}

/// Whether a name is that of a member of an addition: of a group, one of its components.
fn is_addition(kinds: &[Kind], component: &Component, name: &str) -> bool
    ensures { result ≡ is_addition (group_in kinds.now component.now) component.now name.now }
{
    match group_in(kinds, component) {
        Some(group) => is_component(group.root(), name),
        None => component.name.as_str() == name,
    }
}

/// Where the first alternative with a name stands.
pub fn alternative_place(choice: &Choice, name: &str) -> Option<Place>
    ensures { result ≡ alternative_place choice.now name.now }
{
    match alternative_index(&choice.roots, name) {
        Some(index) => Some(Place::Root(index)),
        None => Some(Place::Added(alternative_index(choice.behind(), name)?)),
    }
}

/// The index of the first of some alternatives that has a name.
fn alternative_index(alternatives: &[Alternative], name: &str) -> Option<usize>
    ensures { result ≡ position (λ a. bytes_eq (string_bytes a.name) name.now) alternatives.now }
{
    alternatives
        .iter()
        .position(|own| own.name.as_str() == name)
}

/// Where the first row with a name is.
pub fn row_place(set: &ObjectSet, name: &str) -> Option<Place>
    ensures { result ≡ row_place set.now name.now }
{
    Some(Place::Root(row_index(&set.rows, name)?))
}

/// The index of the first of some rows that has a name.
fn row_index(rows: &[Row], name: &str) -> Option<usize>
    ensures { result ≡ position (λ r. bytes_eq (string_bytes r.name) name.now) rows.now }
{
    rows.iter().position(|own| own.name.as_str() == name)
}
