//! The rows of object sets that records tell.

ghost use Rattle.std.specs.Prelude.{◌≡◌, IfOk, IfSome, Some, option_map, position, slice_get, string_bytes};
ghost use Rattle.std.specs.List.{list_any};
ghost use Rattle.std.specs.Option.{option_and_then};
ghost use Rattle.std.specs.Str.{bytes_eq};
ghost use Rattle.rasn_types.specs.Values.{same, whole};
ghost use Rattle.rasn_dynamic.specs.Types.{default_value};
ghost use Rattle.per_dynamic.specs.OpenTypes.{AreTold, first_named, has_value, is_open, IsRowAt, of_one_type, row_of};
ghost use Rattle.per_dynamic.specs.OpenTypes.{row_told, set_of, told_at, told_in};

use rasn_dynamic::types::{Component, DefaultValue, Kind, ObjectSet, Row, kind_at};
use rasn_dynamic::values::Value;
use rasn_schema::items::Place;
use rasn_types::types::Integer;
use std::alloc::{AllocError, Global};

/// By each component of a record that is an open type, the index of the row of its object set that the record tells, by
/// its root components and their values. Where no component is an open type there are none.
pub(crate) fn rows_told(
    alloc: Global,
    kinds: &[Kind],
    root: &[Component],
    root_values: &[Value],
    components: &[Component],
) -> Result<Vec<Option<usize>>, AllocError>
    ensures { IfOk result (λ rows. AreTold kinds.now root.now root_values.now components.now rows.items) }
{
    let mut rows = Vec::new(alloc);
    if !has_open(kinds, components) {
        return Ok(rows);
    }
    for component in components {
        rows.push(row_of(kinds, root, root_values, component))?;
    }
    Ok(rows)
}

/// Whether one of some components is an open type by an object set.
fn has_open(kinds: &[Kind], components: &[Component]) -> bool
    ensures { result ≡ list_any (is_open kinds.now) components.now }
{
    components
        .iter()
        .any(|component| set_at(kinds, component.of).is_some())
}

/// The index of the row that is told of a component, where it is an open type by an object set.
fn row_of(
    kinds: &[Kind],
    root: &[Component],
    root_values: &[Value],
    component: &Component,
) -> Option<usize>
    ensures { result ≡ row_of kinds.now root.now root_values.now component.now }
{
    let set = set_at(kinds, component.of)?;
    told_in(kinds, root, root_values, set)
}

/// The index of a row that is at an index of some, none where none does.
pub(crate) fn told_at(rows: &[Option<usize>], index: usize) -> Option<usize>
    ensures { result ≡ told_at rows.now index }
{
    *rows.get(index)?
}

/// The index of the row of an object set that a record tells, by its root components and their values.
fn told_in(
    kinds: &[Kind],
    components: &[Component],
    values: &[Value],
    set: &ObjectSet,
) -> Option<usize>
    ensures { result ≡ told_in kinds.now components.now values.now set.now }
{
    let component = components.get(set.chooser)?;
    let value = values.get(set.chooser)?;
    row_told(kinds, &set.rows, component.of, value)
}

/// The index of the row that a component's value tells, by the name of the row's type.
fn row_told(kinds: &[Kind], rows: &[Row], of: usize, value: &Value) -> Option<usize>
    ensures { result ≡ row_told kinds.now rows.now of value.now }
{
    let index = row_with(kinds, rows, of, value)?;
    first_named(rows, index)
}

/// The index of the first row with the name of the one at an index, where both are of one type.
fn first_named(rows: &[Row], index: usize) -> Option<usize>
    ensures { result ≡ option_and_then (first_named rows.now) (slice_get rows.now index) }
{
    let row = rows.get(index)?;
    let (front, _) = rows.split_at(index);
    match index_named(front, &row.name) {
        Some(before) => of_one_type(rows, row, before),
        None => Some(index),
    }
}

/// The index of a row, where it is of the type of another.
fn of_one_type(rows: &[Row], row: &Row, index: usize) -> Option<usize>
    ensures { result ≡ of_one_type rows.now row.now (Some index) }
{
    match rows.get(index) {
        Some(own) if own.of == row.of => Some(index),
        _ => None,
    }
}

/// The index of the first row whose value a component has, of the type at a place.
fn row_with(kinds: &[Kind], rows: &[Row], of: usize, value: &Value) -> Option<usize>
    ensures { result ≡ position (has_value kinds.now of value.now) rows.now }
{
    match value.as_integer() {
        Some(number) => row_of_number(rows, number),
        None => rows
            .iter()
            .position(|row| value.is_default_at(kinds, of, &row.value)),
    }
}

/// The index of the first row whose value is a number.
fn row_of_number(rows: &[Row], number: &Integer) -> Option<usize>
    ensures { result ≡ position (λ r. same (whole number.now) (default_value r.value)) rows.now }
{
    rows.iter().position(|row| is_number(&row.value, number))
}

/// Whether the value of a row is a number.
fn is_number(told: &DefaultValue, number: &Integer) -> bool
    ensures { result ≡ same (whole number.now) (default_value told.now) }
{
    match told {
        DefaultValue::Integer(own) => number == own,
        _ => false,
    }
}

/// The index of the first row with a name.
fn index_named(rows: &[Row], name: &str) -> Option<usize>
    ensures { result ≡ position (λ q. bytes_eq (string_bytes q.name) name.now) rows.now }
{
    rows.iter().position(|row| is_named(row, name))
}

/// Whether a row has a name. Most names differ in their lengths.
fn is_named(row: &Row, name: &str) -> bool
    ensures { result ≡ bytes_eq (string_bytes row.now.name) name.now }
{
    row.name.len() == name.len() && row.name.as_str() == name
}

/// The object set of the open type at a place, where one is there.
pub fn set_at(kinds: &[Kind], place: usize) -> Option<&ObjectSet>
    ensures { option_map (λ s. s.now) result ≡ set_of (slice_get kinds.now place) }
{
    match kind_at(kinds, place)? {
        Kind::Open(set) => Some(set),
        _ => None,
    }
}

/// The component at an index.
pub fn component_at(components: &[Component], index: usize) -> Option<&Component>
    ensures { option_map (λ c. c.now) result ≡ slice_get components.now index }
{
    components.get(index)
}

/// The row at an index.
pub(crate) fn row_at_index(rows: &[Row], index: usize) -> Option<&Row>
    ensures { option_map (λ r. r.now) result ≡ slice_get rows.now index }
{
    rows.get(index)
}

/// The row that a place is the index of, where it is the one that is told.
pub(crate) fn row_at(set: &ObjectSet, told: Option<usize>, place: Place) -> Option<&Row>
    ensures { IfSome result (λ r. IsRowAt set.now told place r.now) }
{
    match place {
        Place::Root(index) if told == Some(index) => row_at_index(&set.rows, index),
        _ => None,
    }
}
