//! Where values depart from the object sets of their open types (X.681 14, X.682 10): what no decoder refuses.

ghost use Rattle.std.specs.Prelude.{◌≡◌, [], IfOk, Some, map, option_map, slice_get};
ghost use Rattle.rasn_dynamic.specs.Types.{within};
ghost use Rattle.per_messages.specs.Remarks.{Adds, added_values, chosen_of, elements_of, of_choice, of_elements};
ghost use Rattle.per_messages.specs.Remarks.{of_field, of_fields, of_list, of_open, of_record, of_type, remarks_at};
ghost use Rattle.per_messages.specs.Remarks.{told};

use crate::departures::{element_path, joined, push_criticality, push_on_all, root_values};
use per_dynamic::rows::{component_at, set_at};
use rasn_dynamic::types::{Choice, Component, Kind, ObjectSet, Record, Types, kind_within};
use rasn_dynamic::values::Value;
use rasn_schema::items::Place;
use std::alloc::{AllocError, Global};

/// How many levels of values, and of open types in them, are looked through.
const MOST_LEVELS: usize = 128;

/// What departs from an object set.
#[derive(Clone, Copy, Debug, PartialEq, Eq)]
pub enum RemarkKind {
    /// A list has no element of a type that the set says has to be there.
    Missing,
    /// An element of a list is of a type that an element before it is of.
    Repeated,
    /// A criticality isn't the one that the set tells beside the type.
    Criticality,
}

/// Where a value departs from an object set.
#[derive(Drop)]
pub struct Remark {
    /// What departs.
    pub kind: RemarkKind,
    /// The name of the type in the object set.
    pub name: String,
    /// The identifiers and the numbers of elements from the whole value to what departs, with a full stop between two
    /// of them (X.680 15): to the list where an element lacks, to the second of two elements, and to the SEQUENCE whose
    /// criticality it is. A group has no identifier.
    pub path: String,
}

/// Where a value of the type at a place of a table, in which the octets of open types are read as values
/// (`read_open_types`), departs from the object sets of these, in the order of the value, to 128 levels.
///
/// An element of a list is of the type that the set tells by the value of its chooser. The only error is want of
/// memory.
pub fn remarks_on(
    alloc: Global,
    types: &Types,
    place: usize,
    value: &Value,
) -> Result<Vec<Remark>, AllocError>
    ensures { IfOk result (λ all. map told all.items ≡ remarks_at types.now.kinds.items 128 [] place value.now) }
{
    let mut remarks = Vec::new(alloc);
    push_remarks(
        alloc,
        &types.kinds,
        MOST_LEVELS,
        "",
        place,
        value,
        &mut remarks,
    )?;
    Ok(remarks)
}

/// Appends the remarks on a value of the type at a place, within so many levels.
#[cycle(walking)]
fn push_remarks(
    alloc: Global,
    kinds: &[Kind],
    levels: usize,
    path: &str,
    place: usize,
    value: &Value,
    remarks: &mut Vec<Remark>,
) -> Result<(), AllocError>
    ensures { IfOk result (λ u. Adds remarks.old.items remarks.new.items
        (remarks_at kinds.now levels path.now place value.now)) }
{
    match levels.checked_sub(1) {
        Some(below) => push_within(alloc, kinds, below, path, place, value, remarks),
        None => Ok(()),
    }
}

/// Appends the remarks on a value of the type at a place, those on its parts within so many levels.
#[cycle(walking)]
fn push_within(
    alloc: Global,
    kinds: &[Kind],
    levels: usize,
    path: &str,
    place: usize,
    value: &Value,
    remarks: &mut Vec<Remark>,
) -> Result<(), AllocError>
    ensures { IfOk result (λ u. Adds remarks.old.items remarks.new.items
        (of_type kinds.now (remarks_at kinds.now levels) path.now (within kinds.now (slice_get kinds.now place))
        value.now)) }
{
    match kind_within(kinds, place) {
        Some(kind) => push_parts(alloc, kinds, levels, path, kind, value, remarks),
        None => Ok(()),
    }
}

/// Appends the remarks on a value by what its type is.
#[cycle(walking)]
fn push_parts(
    alloc: Global,
    kinds: &[Kind],
    levels: usize,
    path: &str,
    kind: &Kind,
    value: &Value,
    remarks: &mut Vec<Remark>,
) -> Result<(), AllocError>
    ensures { IfOk result (λ u. Adds remarks.old.items remarks.new.items
        (of_type kinds.now (remarks_at kinds.now levels) path.now (Some kind.now) value.now)) }
{
    match kind {
        Kind::List(of, _) => push_list(alloc, kinds, levels, path, *of, value, remarks),
        Kind::SetOf(of, _) => push_list(alloc, kinds, levels, path, *of, value, remarks),
        Kind::Record(record) => push_record(alloc, kinds, levels, path, record, value, remarks),
        Kind::Choice(choice) => push_choice(alloc, kinds, levels, path, choice, value, remarks),
        Kind::Simple(_) => Ok(()),
        Kind::Date => Ok(()),
        Kind::Containing(_) => Ok(()),
        Kind::Open(_) => Ok(()),
    }
}

/// Appends the remarks on a SEQUENCE OF or a SET OF, of elements of the type at a place.
#[cycle(walking)]
fn push_list(
    alloc: Global,
    kinds: &[Kind],
    levels: usize,
    path: &str,
    of: usize,
    value: &Value,
    remarks: &mut Vec<Remark>,
) -> Result<(), AllocError>
    ensures { IfOk result (λ u. Adds remarks.old.items remarks.new.items
        (of_list kinds.now (remarks_at kinds.now levels) path.now of (elements_of value.now))) }
{
    let Some(values) = elements_of(value) else {
        return Ok(());
    };
    push_on_all(alloc, kinds, path, of, values, remarks)?;
    push_elements(alloc, kinds, levels, path, of, values, remarks)
}

/// Appends the remarks on each element of a list.
#[cycle(walking)]
fn push_elements(
    alloc: Global,
    kinds: &[Kind],
    levels: usize,
    path: &str,
    of: usize,
    values: &[Value],
    remarks: &mut Vec<Remark>,
) -> Result<(), AllocError>
    ensures { IfOk result (λ u. Adds remarks.old.items remarks.new.items
        (of_elements (remarks_at kinds.now levels) path.now of values.now)) }
{
    for (index, value) in values.iter().enumerate() {
        let own = element_path(alloc, path, index)?;
        push_remarks(alloc, kinds, levels, own.as_str(), of, value, remarks)?;
    }
    Ok(())
}

/// Appends the remarks on a record.
#[cycle(walking)]
fn push_record(
    alloc: Global,
    kinds: &[Kind],
    levels: usize,
    path: &str,
    sequence: &Record,
    value: &Value,
    remarks: &mut Vec<Remark>,
) -> Result<(), AllocError>
    ensures { IfOk result (λ u. Adds remarks.old.items remarks.new.items
        (of_record kinds.now (remarks_at kinds.now levels) path.now sequence.now value.now)) }
{
    let (own, values) = (sequence.root(), root_values(value));
    push_fields(
        alloc, kinds, levels, path, own, values, own, values, remarks,
    )?;
    let (added, behind) = (sequence.behind(), added_values(value));
    push_fields(
        alloc, kinds, levels, path, own, values, added, behind, remarks,
    )
}

/// Appends the remarks on components, by the root components of their record and the values of these.
#[cycle(walking)]
fn push_fields(
    alloc: Global,
    kinds: &[Kind],
    levels: usize,
    path: &str,
    root: &[Component],
    root_values: &[Value],
    components: &[Component],
    values: &[Value],
    remarks: &mut Vec<Remark>,
) -> Result<(), AllocError>
    ensures { IfOk result (λ u. Adds remarks.old.items remarks.new.items (of_fields kinds.now
        (remarks_at kinds.now levels) path.now root.now root_values.now components.now values.now)) }
{
    for (index, value) in values.iter().enumerate() {
        let component = component_at(components, index);
        push_field(
            alloc,
            kinds,
            levels,
            path,
            root,
            root_values,
            component,
            value,
            remarks,
        )?;
    }
    Ok(())
}

/// Appends the remarks on a component, where there is one.
#[cycle(walking)]
fn push_field(
    alloc: Global,
    kinds: &[Kind],
    levels: usize,
    path: &str,
    root: &[Component],
    root_values: &[Value],
    component: Option<&Component>,
    value: &Value,
    remarks: &mut Vec<Remark>,
) -> Result<(), AllocError>
    ensures { IfOk result (λ u. Adds remarks.old.items remarks.new.items (of_field kinds.now
        (remarks_at kinds.now levels) path.now root.now root_values.now (option_map (λ c. c.now) component.entry)
        value.now)) }
{
    let Some(component) = component else {
        return Ok(());
    };
    match set_at(kinds, component.of) {
        Some(set) => {
            push_criticality(alloc, kinds, path, root, root_values, set, remarks)?;
            let own = joined(alloc, path, component.name.as_str())?;
            push_open(alloc, kinds, levels, own.as_str(), set, value, remarks)
        }
        None => {
            let own = joined(alloc, path, component.name.as_str())?;
            push_remarks(
                alloc,
                kinds,
                levels,
                own.as_str(),
                component.of,
                value,
                remarks,
            )
        }
    }
}

/// Appends the remarks on the value that the octets of an open type were read as, where they were.
#[cycle(walking)]
fn push_open(
    alloc: Global,
    kinds: &[Kind],
    levels: usize,
    path: &str,
    set: &ObjectSet,
    value: &Value,
    remarks: &mut Vec<Remark>,
) -> Result<(), AllocError>
    ensures { IfOk result (λ u. Adds remarks.old.items remarks.new.items
        (of_open (remarks_at kinds.now levels) path.now set.now (chosen_of value.now))) }
{
    let Some((place, chosen)) = chosen_of(value) else {
        return Ok(());
    };
    match set.row(place) {
        Some(row) => push_remarks(alloc, kinds, levels, path, row.of, chosen, remarks),
        None => Ok(()),
    }
}

/// Appends the remarks on a CHOICE.
#[cycle(walking)]
fn push_choice(
    alloc: Global,
    kinds: &[Kind],
    levels: usize,
    path: &str,
    choice: &Choice,
    value: &Value,
    remarks: &mut Vec<Remark>,
) -> Result<(), AllocError>
    ensures { IfOk result (λ u. Adds remarks.old.items remarks.new.items
        (of_choice (remarks_at kinds.now levels) path.now choice.now (chosen_of value.now))) }
{
    let Some((place, chosen)) = chosen_of(value) else {
        return Ok(());
    };
    match choice.at(place) {
        Some(alternative) => {
            let own = joined(alloc, path, alternative.name.as_str())?;
            push_remarks(
                alloc,
                kinds,
                levels,
                own.as_str(),
                alternative.of,
                chosen,
                remarks,
            )
        }
        None => Ok(()),
    }
}

/// The elements of a SEQUENCE OF or a SET OF.
fn elements_of(value: &Value) -> Option<&[Value]>
    ensures { option_map (λ s. s.now) result ≡ elements_of value.now }
{
    match value {
        Value::Elements(values) => Some(values),
        Value::Bag(values) => Some(values),
        _ => None,
    }
}

/// The values of a record's additions.
fn added_values(value: &Value) -> &[Value]
    ensures { result.now ≡ added_values value.now }
{
    match value {
        Value::Fields(_, values) => values,
        _ => &[],
    }
}

/// The place and the value of an alternative, or of an open type that its octets were read as.
fn chosen_of(value: &Value) -> Option<(Place, &Value)>
    ensures { option_map (λ c. (c.0, c.1.now)) result ≡ chosen_of value.now }
{
    match value {
        Value::Alternative(place, chosen) => Some((*place, chosen)),
        _ => None,
    }
}
