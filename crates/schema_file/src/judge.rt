//! What can be judged only after the last line of a type.

ghost use Rattle.std.specs.Prelude.{◌<◌, length, OnOk};
ghost use Rattle.schema_file.specs.PlacesInside.{ComponentsAreInside, AlternativesAreInside, RecordIsInside};
ghost use Rattle.schema_file.specs.PlacesInside.{ChoiceIsInside};
ghost use Rattle.schema_file.specs.PlacesInside.{KindIsInside, RowsAreInside};

use crate::error::Reason;
use crate::lists::{names_differ, push_names, tags_ascend, tags_differ};
use rasn_dynamic::types::{
    Alternative, Choice, Component, Items, Kind, Presence, Record, Row, Simple,
};
use rasn_types::types::Tag;
use std::alloc::Global;

/// Judges a type of a table: that each place is one of the table; that no name stands twice in a list, groups' parts
/// counted in, and tags of a SET and of a CHOICE ascend; that groups are such, and defaults values of their types.
///
/// `names` is how many names of groups' parts may still be looked at.
pub fn judge(alloc: Global, kinds: &[Kind], kind: &Kind, names: &mut usize) -> Result<(), Reason>
    ensures { OnOk result (KindIsInside (length kinds.now) kind.now) }
{
    match kind {
        Kind::Simple(Simple::Enumerated(items)) => judge_items(alloc, items),
        Kind::Simple(_) | Kind::Date => Ok(()),
        Kind::List(of, _) | Kind::SetOf(of, _) | Kind::Containing(of) => judge_place(kinds, *of),
        Kind::Record(record) => judge_record(alloc, kinds, record, names),
        Kind::Choice(choice) => judge_choice(alloc, kinds, choice),
        Kind::Open(set) => judge_rows(kinds, &set.rows),
    }
}

/// Refuses a place past the table.
fn judge_place(kinds: &[Kind], place: usize) -> Result<(), Reason>
    ensures { OnOk result (place < length kinds.now) }
{
    if place < kinds.len() {
        Ok(())
    } else {
        Err(Reason::NoSuchPlace)
    }
}

/// Refuses a place past the table in a row of an object set.
fn judge_rows(kinds: &[Kind], rows: &[Row]) -> Result<(), Reason>
    ensures { OnOk result (RowsAreInside (length kinds.now) rows.now) }
{
    for row in rows {
        judge_row(kinds, row)?;
    }
    Ok(())
}

/// Refuses a place past the table in a row.
fn judge_row(kinds: &[Kind], row: &Row) -> Result<(), Reason>
    ensures { OnOk result (row.now.of < length kinds.now) }
{
    judge_place(kinds, row.of)
}

/// Refuses a place past the table, and a CHOICE whose tag is that of no type.
fn judge_tag(kinds: &[Kind], place: usize, tag: Tag) -> Result<(), Reason>
    ensures { OnOk result (place < length kinds.now) }
{
    match kinds.get(place) {
        None => Err(Reason::NoSuchPlace),
        Some(Kind::Choice(_)) if tag == Tag::EOC => Err(Reason::TagLacks),
        Some(_) => Ok(()),
    }
}

/// Judges the items of an ENUMERATED.
fn judge_items(alloc: Global, items: &Items) -> Result<(), Reason> {
    let mut names = Vec::new(alloc);
    for name in items.roots.iter() {
        names.push(name.as_str())?;
    }
    if let Some(addeds) = &items.addeds {
        for name in addeds.iter() {
            names.push(name.as_str())?;
        }
    }
    names_differ(names)
}

/// Judges the components of a SEQUENCE or SET.
fn judge_record(
    alloc: Global,
    kinds: &[Kind],
    record: &Record,
    names: &mut usize,
) -> Result<(), Reason>
    ensures { OnOk result (RecordIsInside (length kinds.now) record.now) }
{
    judge_components(kinds, &record.root)?;
    if let Some(additions) = &record.additions {
        judge_components(kinds, additions)?;
    }
    judge_names(alloc, kinds, record, names)
}

/// Judges the places of components, and their defaults.
fn judge_components(kinds: &[Kind], components: &[Component]) -> Result<(), Reason>
    ensures { OnOk result (ComponentsAreInside (length kinds.now) components.now) }
{
    for component in components {
        judge_component(kinds, component)?;
    }
    Ok(())
}

/// Judges the place of a component, and its default.
fn judge_component(kinds: &[Kind], component: &Component) -> Result<(), Reason>
    ensures { OnOk result (component.now.of < length kinds.now) }
{
    let Some(of) = kinds.get(component.of) else {
        return Err(Reason::NoSuchPlace);
    };
    judge_tag(kinds, component.of, component.tag)?;
    match &component.presence {
        Presence::Group if !is_group(of) => Err(Reason::NotGroup),
        _ => Ok(()),
    }
}

/// Whether a type may be a group of additions: a SEQUENCE without a marker.
fn is_group(kind: &Kind) -> bool {
    match kind {
        Kind::Record(record) => record.additions.is_none(),
        _ => false,
    }
}

/// Refuses a record in which a name stands twice, or with which too many names of groups' parts were looked at.
fn judge_names(
    alloc: Global,
    kinds: &[Kind],
    record: &Record,
    names: &mut usize,
) -> Result<(), Reason> {
    let mut found = Vec::new(alloc);
    for component in record.root.iter() {
        found.push(component.name.as_str())?;
    }
    if let Some(additions) = &record.additions {
        for component in additions.iter() {
            match (&component.presence, kinds.get(component.of)) {
                (Presence::Group, Some(Kind::Record(group))) => {
                    push_names(&mut found, &group.root, names)?;
                }
                _ => found.push(component.name.as_str())?,
            }
        }
    }
    names_differ(found)
}

/// Refuses a SET of which two components have one tag (X.680 27.3).
pub fn judge_set(alloc: Global, record: &Record) -> Result<(), Reason> {
    let mut tags = Vec::new(alloc);
    for component in record.root.iter() {
        tags.push(component.tag)?;
    }
    for component in record.behind() {
        tags.push(component.tag)?;
    }
    tags_differ(tags)
}

/// Judges the alternatives of a CHOICE.
fn judge_choice(alloc: Global, kinds: &[Kind], choice: &Choice) -> Result<(), Reason>
    ensures { OnOk result (ChoiceIsInside (length kinds.now) choice.now) }
{
    let mut names = Vec::new(alloc);
    let mut tags = Vec::new(alloc);
    judge_alternatives(kinds, &choice.roots, &mut names, &mut tags)?;
    tags_ascend(&tags)?;
    if let Some(addeds) = &choice.addeds {
        judge_alternatives(kinds, addeds, &mut names, &mut tags)?;
        tags_differ(tags)?;
    }
    names_differ(names)
}

/// Judges the places of alternatives, and puts their names and tags after those of others.
fn judge_alternatives<'a>(
    kinds: &[Kind],
    alternatives: &'a [Alternative],
    names: &mut Vec<&'a str>,
    tags: &mut Vec<Tag>,
) -> Result<(), Reason>
    ensures { OnOk result (AlternativesAreInside (length kinds.now) alternatives.now) }
{
    for alternative in alternatives {
        judge_tag(kinds, alternative.of, alternative.tag)?;
        names.push(alternative.name.as_str())?;
        tags.push(alternative.tag)?;
    }
    Ok(())
}
