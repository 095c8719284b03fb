//! Where records depart from the object set of their open type.

ghost use Rattle.std.specs.Prelude.{◌≡◌, ◌||◌, IfOk, Some, option_map, slice_get, string_bytes};
ghost use Rattle.std.specs.List.{list_any};
ghost use Rattle.rasn_dynamic.specs.Types.{within};
ghost use Rattle.per_dynamic.specs.OpenTypes.{set_of};
ghost use Rattle.per_messages.specs.Remarks.{Adds, again_at, departs, element_path, holds, is_mandatory, is_told};
ghost use Rattle.per_messages.specs.Remarks.{joined, of_all, of_criticality, of_records, of_repeated, of_row, of_rows};
ghost use Rattle.per_messages.specs.Remarks.{of_set, one_remark, root_values, row_held, tells};

use crate::remarks::{Remark, RemarkKind};
use per_dynamic::rows::set_at;
use rasn_dynamic::types::{
    Component, DefaultValue, ElementPresence, Kind, ObjectSet, Row, kind_within,
};
use rasn_dynamic::values::Value;
use std::alloc::{AllocError, Global};

/// Appends a remark.
fn push_one(
    alloc: Global,
    kind: RemarkKind,
    name: &str,
    path: &str,
    remarks: &mut Vec<Remark>,
) -> Result<(), AllocError>
    ensures { IfOk result (λ u. Adds remarks.old.items remarks.new.items (one_remark kind name.now path.now)) }
{
    let name = String::from_str(alloc, name)?;
    let path = String::from_str(alloc, path)?;
    remarks.push(Remark { kind, name, path })?;
    Ok(())
}

/// Appends the remarks on the elements of a list together, of the type at a place.
pub(crate) fn push_on_all(
    alloc: Global,
    kinds: &[Kind],
    path: &str,
    of: usize,
    values: &[Value],
    remarks: &mut Vec<Remark>,
) -> Result<(), AllocError>
    ensures { IfOk result (λ u. Adds remarks.old.items remarks.new.items
        (of_all kinds.now path.now (within kinds.now (slice_get kinds.now of)) values.now)) }
{
    match kind_within(kinds, of) {
        Some(kind) => push_on_kind(alloc, kinds, path, kind, values, remarks),
        None => Ok(()),
    }
}

/// Appends the remarks on the elements of a list together, by what their type is.
fn push_on_kind(
    alloc: Global,
    kinds: &[Kind],
    path: &str,
    kind: &Kind,
    values: &[Value],
    remarks: &mut Vec<Remark>,
) -> Result<(), AllocError>
    ensures { IfOk result (λ u. Adds remarks.old.items remarks.new.items
        (of_all kinds.now path.now (Some kind.now) values.now)) }
{
    match kind {
        Kind::Record(record) => push_on_records(alloc, kinds, path, record.root(), values, remarks),
        _ => Ok(()),
    }
}

/// Appends the remarks on records together, by each of their root components.
fn push_on_records(
    alloc: Global,
    kinds: &[Kind],
    path: &str,
    root: &[Component],
    values: &[Value],
    remarks: &mut Vec<Remark>,
) -> Result<(), AllocError>
    ensures { IfOk result (λ u. Adds remarks.old.items remarks.new.items
        (of_records kinds.now path.now root.now values.now)) }
{
    for component in root {
        push_on_component(alloc, kinds, path, root, component.of, values, remarks)?;
    }
    Ok(())
}

/// Appends the remarks on records together, by a component of the type at a place.
fn push_on_component(
    alloc: Global,
    kinds: &[Kind],
    path: &str,
    root: &[Component],
    of: usize,
    values: &[Value],
    remarks: &mut Vec<Remark>,
) -> Result<(), AllocError>
    ensures { IfOk result (λ u. Adds remarks.old.items remarks.new.items
        (of_set kinds.now path.now root.now values.now (set_of (slice_get kinds.now of)))) }
{
    match set_at(kinds, of) {
        Some(set) => push_on_rows(
            alloc,
            kinds,
            path,
            root,
            set.chooser,
            &set.rows,
            values,
            remarks,
        ),
        None => Ok(()),
    }
}

/// Appends the remarks on records together, by each row of an object set.
fn push_on_rows(
    alloc: Global,
    kinds: &[Kind],
    path: &str,
    root: &[Component],
    chooser: usize,
    rows: &[Row],
    values: &[Value],
    remarks: &mut Vec<Remark>,
) -> Result<(), AllocError>
    ensures { IfOk result (λ u. Adds remarks.old.items remarks.new.items
        (of_rows kinds.now path.now root.now values.now chooser rows.now)) }
{
    for row in rows {
        push_on_row(alloc, kinds, path, root, chooser, row, values, remarks)?;
    }
    Ok(())
}

/// Appends the remarks on records together, by a row of an object set.
fn push_on_row(
    alloc: Global,
    kinds: &[Kind],
    path: &str,
    root: &[Component],
    chooser: usize,
    row: &Row,
    values: &[Value],
    remarks: &mut Vec<Remark>,
) -> Result<(), AllocError>
    ensures { IfOk result (λ u. Adds remarks.old.items remarks.new.items
        (of_row kinds.now path.now root.now values.now chooser row.now)) }
{
    let is_there = push_repeated(alloc, kinds, path, root, chooser, row, values, remarks)?;
    if is_mandatory(row) && !is_there {
        return push_one(alloc, RemarkKind::Missing, row.name.as_str(), path, remarks);
    }
    Ok(())
}

/// Appends a remark on each record that tells a row and isn't the first. Answers whether one tells it.
fn push_repeated(
    alloc: Global,
    kinds: &[Kind],
    path: &str,
    root: &[Component],
    chooser: usize,
    row: &Row,
    values: &[Value],
    remarks: &mut Vec<Remark>,
) -> Result<bool, AllocError>
    ensures any { IfOk result (λ b. b ≡ list_any (tells kinds.now root.now chooser row.now) values.now) }
    ensures added { IfOk result (λ b. Adds remarks.old.items remarks.new.items
        (of_repeated (tells kinds.now root.now chooser row.now) (string_bytes row.now.name) path.now values.now)) }
{
    let mut is_there = false;
    for (index, value) in values.iter().enumerate() {
        let is_one = tells(kinds, root, chooser, row, value);
        push_again(
            alloc,
            is_there,
            is_one,
            row.name.as_str(),
            path,
            index,
            remarks,
        )?;
        is_there = either(is_there, is_one);
    }
    Ok(is_there)
}

/// Appends a remark on the record at an index, where it tells a row and one before it does.
fn push_again(
    alloc: Global,
    was_there: bool,
    is_one: bool,
    name: &str,
    path: &str,
    index: usize,
    remarks: &mut Vec<Remark>,
) -> Result<(), AllocError>
    ensures { IfOk result (λ u. Adds remarks.old.items remarks.new.items
        (again_at was_there is_one name.now path.now index)) }
{
    if !was_there || !is_one {
        return Ok(());
    }
    let own = element_path(alloc, path, index)?;
    push_one(alloc, RemarkKind::Repeated, name, own.as_str(), remarks)
}

/// Whether one of two is true.
fn either(one: bool, other: bool) -> bool
    ensures { result ≡ (one || other) }
{
    one || other
}

/// Whether an element of a type has to be there.
fn is_mandatory(row: &Row) -> bool
    ensures { result ≡ is_mandatory row.now.presence }
{
    matches!(row.presence, Some(ElementPresence::Mandatory))
}

/// Whether a record, by its root components, tells a row of an object set.
fn tells(kinds: &[Kind], root: &[Component], chooser: usize, row: &Row, value: &Value) -> bool
    ensures { result ≡ tells kinds.now root.now chooser row.now value.now }
{
    holds(kinds, root, root_values(value), chooser, &row.value)
}

/// Whether the component at an index has a value.
fn holds(
    kinds: &[Kind],
    components: &[Component],
    values: &[Value],
    index: usize,
    told: &DefaultValue,
) -> bool
    ensures { result ≡ holds kinds.now components.now values.now index told.now }
{
    component_is(kinds, components, values, index, told).unwrap_or(false)
}

/// Whether the component at an index has a value, where there is one.
fn component_is(
    kinds: &[Kind],
    components: &[Component],
    values: &[Value],
    index: usize,
    told: &DefaultValue,
) -> Option<bool>
    ensures { result ≡ is_told kinds.now (slice_get components.now index) (slice_get values.now index) told.now }
{
    let component = components.get(index)?;
    let value = values.get(index)?;
    Some(value.is_default_at(kinds, component.of, told))
}

/// Appends a remark where a record's criticality isn't the one of the row that it tells, by its root components and
/// their values.
pub(crate) fn push_criticality(
    alloc: Global,
    kinds: &[Kind],
    path: &str,
    root: &[Component],
    values: &[Value],
    set: &ObjectSet,
    remarks: &mut Vec<Remark>,
) -> Result<(), AllocError>
    ensures { IfOk result (λ u. Adds remarks.old.items remarks.new.items (of_criticality kinds.now path.now root.now
        values.now set.now (row_held kinds.now root.now values.now set.now))) }
{
    match row_held(kinds, root, values, set) {
        Some(row) if departs(kinds, root, values, set, row) => {
            push_one(
                alloc,
                RemarkKind::Criticality,
                row.name.as_str(),
                path,
                remarks,
            )
        }
        _ => Ok(()),
    }
}

/// The row of an object set that a record tells, by its root components and their values.
fn row_held<'set>(
    kinds: &[Kind],
    root: &[Component],
    values: &[Value],
    set: &'set ObjectSet,
) -> Option<&'set Row>
    ensures { option_map (λ r. r.now) result ≡ row_held kinds.now root.now values.now set.now }
{
    set.rows
        .iter()
        .find(|row| holds(kinds, root, values, set.chooser, &row.value))
}

/// Whether a record's criticality isn't the one of a row, where both are there.
fn departs(kinds: &[Kind], root: &[Component], values: &[Value], set: &ObjectSet, row: &Row) -> bool
    ensures { result ≡ departs kinds.now root.now values.now set.now.criticality row.now.criticality }
{
    let Some(index) = set.criticality else {
        return false;
    };
    match &row.criticality {
        Some(told) => !component_is(kinds, root, values, index, told).unwrap_or(true),
        None => false,
    }
}

/// The values of a record's root components.
pub(crate) fn root_values(value: &Value) -> &[Value]
    ensures { result.now ≡ root_values value.now }
{
    match value {
        Value::Fields(values, _) => values,
        _ => &[],
    }
}

/// The path to an element, by its index.
pub(crate) fn element_path(alloc: Global, path: &str, index: usize) -> Result<String, AllocError>
    ensures { IfOk result (λ text. string_bytes text ≡ element_path path.now index) }
{
    let number = index as u128 + 1;
    let step = format!(in alloc; "{number}")?;
    joined(alloc, path, step.as_str())
}

/// The path to a part by its identifier, empty where it has none.
pub(crate) fn joined(alloc: Global, path: &str, step: &str) -> Result<String, AllocError>
    ensures { IfOk result (λ text. string_bytes text ≡ joined path.now step.now) }
{
    if step.is_empty() {
        return String::from_str(alloc, path);
    }
    if path.is_empty() {
        return String::from_str(alloc, step);
    }
    format!(in alloc; "{path}.{step}")
}
