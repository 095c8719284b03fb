//! Values from JSON by a table of types.

ghost use Rattle.std.specs.Prelude.{◌≡◌, ◌⊎◌, IfOk, IfErr, MatchResult, None, Some, option_map, map};
ghost use Rattle.std.specs.Option.{option_and_then};
ghost use Rattle.json.specs.Find.{as_object, as_str};
ghost use Rattle.json.specs.Value.{members_view, value_view};
ghost use Rattle.rasn_types.specs.AllOf.{all_of};
ghost use Rattle.rasn_types.specs.Values.{alternative, bag_of};
ghost use Rattle.rasn_traits.specs.Counted.{index_in, side_of};
ghost use Rattle.rasn_schema.specs.Structures.{list_value};
ghost use Rattle.rasn_dynamic.specs.Values.{slot_of, value_of};
ghost use Rattle.rasn_dynamic_jer.specs.Shown.{group_in};
ghost use Rattle.rasn_dynamic_jer.specs.FromJson.{absent_told, addition_told, additions_told, alternative_place};
ghost use Rattle.rasn_dynamic_jer.specs.FromJson.{component_told, components_told, group_told, IsNoText, IsTextOf};
ghost use Rattle.rasn_dynamic_jer.specs.FromJson.{IsUntold, told_alone, TellsSlot, TellsSlots, TellsValue, TellsValues};
ghost use Rattle.rasn_dynamic_jer.specs.FromJson.{told_at, told_by, alternative_told, choice_told, members_told};
ghost use Rattle.rasn_dynamic_jer.specs.FromJson.{one_told};
ghost use Rattle.rasn_dynamic_jer.specs.FromJson.{Parses, one_row_told, open_told, record_told, row_place, row_told};
ghost use Rattle.rasn_dynamic_jer.specs.FromJson.{told_in, values_told};

use crate::dates::read_date;
use crate::from_json_error::FromJsonError;
use crate::json_parts::{items_of, members_of};
use crate::names::{alternative_place, are_members, has_member, row_place};
use crate::read_simple::{read_octets, read_simple};
use crate::table::group_in;
use json::{Error, MAX_DEPTH, Scratch, Value as Json};
use rasn_dynamic::types::{
    Choice, Component, Kind, ObjectSet, Presence, Record, Types, kind_within,
};
use rasn_dynamic::values::Value;
use rasn_schema::items::Place;
use std::alloc::Global;

/// The value of the type at a place of a table that a text of JSON tells (ITU-T X.697). The text is in UTF-8, and none
/// of its objects has a member twice.
pub fn from_json(
    alloc: Global,
    types: &Types,
    place: usize,
    text: &[u8],
) -> Result<Value, FromJsonError>
    ensures { MatchResult result (IsTextOf types.now.kinds.items place text.now)
        (IsNoText types.now.kinds.items place text.now) }
{
    let mut scratch = Scratch::new(alloc);
    let json = parse(alloc, text, &mut scratch)?;
    read_at(alloc, &types.kinds, MAX_DEPTH, place, &json)
}

/// The JSON that octets are.
pub fn parse<'text>(
    alloc: Global,
    text: &'text [u8],
    scratch: &'text mut Scratch,
) -> Result<Json<'text>, FromJsonError>
    ensures { Parses text.now result }
{
    match str::from_utf8(text) {
        Ok(text) => parse_text(alloc, text, scratch),
        Err(_) => Err(FromJsonError::NotJson),
    }
}

/// The JSON that a text is.
fn parse_text<'text>(
    alloc: Global,
    text: &'text str,
    scratch: &'text mut Scratch,
) -> Result<Json<'text>, FromJsonError>
    ensures { Parses text.now result }
{
    match Json::parse_strict(alloc, text, scratch) {
        Ok(json) => Ok(json),
        Err(Error::Invalid) => Err(FromJsonError::NotJson),
        Err(Error::DuplicateKey) => Err(FromJsonError::DuplicateMember),
        Err(_) => Err(FromJsonError::OutOfMemory),
    }
}

/// Reads a value of the type at a place of a table, within so many levels of arrays and objects.
#[cycle(reading)]
pub fn read_at(
    alloc: Global,
    kinds: &[Kind],
    levels: usize,
    place: usize,
    json: &Json<'_>,
) -> Result<Value, FromJsonError>
    ensures { TellsValue (told_at kinds.now levels place (value_view json.now)) result }
{
    match kind_within(kinds, place) {
        Some(kind) => read_kind(alloc, kinds, levels, kind, json),
        None => Err(FromJsonError::NoType),
    }
}

/// Reads a value by what its type is, within so many levels.
#[cycle(reading)]
fn read_kind(
    alloc: Global,
    kinds: &[Kind],
    levels: usize,
    kind: &Kind,
    json: &Json<'_>,
) -> Result<Value, FromJsonError>
    ensures { TellsValue (told_by kinds.now levels (Some kind.now) (value_view json.now)) result }
{
    match levels.checked_sub(1) {
        Some(below) => read_within(alloc, kinds, below, kind, json),
        None => read_alone(alloc, kind, json),
    }
}

/// Reads a value of a type in which no other is, or an open type by its octets.
fn read_alone(alloc: Global, kind: &Kind, json: &Json<'_>) -> Result<Value, FromJsonError>
    ensures { TellsValue (told_alone (Some kind.now) (value_view json.now)) result }
{
    match kind {
        Kind::Simple(simple) => read_simple(alloc, simple, json),
        Kind::Date => read_date(alloc, json),
        Kind::Open(_) => read_octets(alloc, json),
        _ => Err(FromJsonError::WrongKind),
    }
}

/// Reads a value of a type in which others may be, each of these within so many levels.
#[cycle(reading)]
fn read_within(
    alloc: Global,
    kinds: &[Kind],
    levels: usize,
    kind: &Kind,
    json: &Json<'_>,
) -> Result<Value, FromJsonError>
    ensures { TellsValue (told_in kinds.now (told_at kinds.now levels) (Some kind.now) (value_view json.now)) result }
{
    match kind {
        Kind::Simple(simple) => read_simple(alloc, simple, json),
        Kind::Date => read_date(alloc, json),
        Kind::List(of, _) => read_list(alloc, kinds, levels, *of, json),
        Kind::SetOf(of, _) => read_set_of(alloc, kinds, levels, *of, json),
        Kind::Record(record) => read_record(alloc, kinds, levels, record, json),
        Kind::Choice(choice) => read_choice(alloc, kinds, levels, choice, json),
        Kind::Open(set) => read_open(alloc, kinds, levels, set, json),
        Kind::Containing(_) => Err(FromJsonError::WrongKind),
    }
}

/// Reads a SEQUENCE OF.
#[cycle(reading)]
fn read_list(
    alloc: Global,
    kinds: &[Kind],
    levels: usize,
    of: usize,
    json: &Json<'_>,
) -> Result<Value, FromJsonError>
    ensures { TellsValue (option_map list_value (values_told (told_at kinds.now levels of) (value_view json.now)))
        result }
{
    let values = read_array(alloc, kinds, levels, of, json)?;
    Ok(Value::Elements(values))
}

/// Reads a SET OF.
#[cycle(reading)]
fn read_set_of(
    alloc: Global,
    kinds: &[Kind],
    levels: usize,
    of: usize,
    json: &Json<'_>,
) -> Result<Value, FromJsonError>
    ensures { TellsValue (option_map bag_of (values_told (told_at kinds.now levels of) (value_view json.now)))
        result }
{
    let values = read_array(alloc, kinds, levels, of, json)?;
    Ok(Value::Bag(values))
}

/// Reads the values that an array has.
#[cycle(reading)]
fn read_array(
    alloc: Global,
    kinds: &[Kind],
    levels: usize,
    of: usize,
    json: &Json<'_>,
) -> Result<Vec<Value>, FromJsonError>
    ensures { TellsValues (values_told (told_at kinds.now levels of) (value_view json.now)) result }
{
    match items_of(json) {
        Some(items) => read_items(alloc, kinds, levels, of, items),
        None => Err(FromJsonError::WrongKind),
    }
}

/// Reads a value of each of some items.
#[cycle(reading)]
fn read_items(
    alloc: Global,
    kinds: &[Kind],
    levels: usize,
    of: usize,
    items: &[Json<'_>],
) -> Result<Vec<Value>, FromJsonError>
    ensures { TellsValues (all_of (λ x. told_at kinds.now levels of (value_view x)) items.now) result }
{
    let mut values = Vec::new(alloc);
    for item in items {
        let value = read_at(alloc, kinds, levels, of, item)?;
        values.push(value)?;
    }
    Ok(values)
}

/// Reads a SEQUENCE.
#[cycle(reading)]
fn read_record(
    alloc: Global,
    kinds: &[Kind],
    levels: usize,
    sequence: &Record,
    json: &Json<'_>,
) -> Result<Value, FromJsonError>
    ensures { TellsValue (record_told kinds.now (told_at kinds.now levels) sequence.now (value_view json.now)) result }
{
    match members_of(json) {
        Some(members) => read_members(alloc, kinds, levels, sequence, json, members),
        None => Err(FromJsonError::WrongKind),
    }
}

/// Reads a SEQUENCE by an object and its members.
#[cycle(reading)]
fn read_members(
    alloc: Global,
    kinds: &[Kind],
    levels: usize,
    sequence: &Record,
    json: &Json<'_>,
    members: &[(&str, Json<'_>)],
) -> Result<Value, FromJsonError>
    ensures { TellsValue (members_told kinds.now (told_at kinds.now levels) sequence.now (value_view json.now)
        (members_view members.now)) result }
{
    if !are_members(kinds, sequence, members) {
        return Err(FromJsonError::UnknownMember);
    }
    let components = sequence.root();
    let additions = sequence.behind();
    let root = read_components(alloc, kinds, levels, components, json)?;
    let added = read_additions(alloc, kinds, levels, additions, json)?;
    Ok(Value::Fields(root, added))
}

/// Reads components by the object of their record.
#[cycle(reading)]
fn read_components(
    alloc: Global,
    kinds: &[Kind],
    levels: usize,
    components: &[Component],
    json: &Json<'_>,
) -> Result<Vec<Value>, FromJsonError>
    ensures { TellsSlots (components_told (told_at kinds.now levels) (value_view json.now) components.now) result }
{
    let mut values = Vec::new(alloc);
    for component in components {
        let value = read_component(alloc, kinds, levels, component, json)?;
        values.push(value)?;
    }
    Ok(values)
}

/// Reads a component by the object of its record.
#[cycle(reading)]
fn read_component(
    alloc: Global,
    kinds: &[Kind],
    levels: usize,
    component: &Component,
    json: &Json<'_>,
) -> Result<Value, FromJsonError>
    ensures { TellsSlot (component_told (told_at kinds.now levels) (value_view json.now) component.now) result }
{
    match json.get(component.name.as_str()) {
        Some(own) => read_at(alloc, kinds, levels, component.of, own),
        None => absent(alloc, &component.presence),
    }
}

/// What a component is that no member tells.
fn absent(alloc: Global, presence: &Presence) -> Result<Value, FromJsonError>
    ensures { TellsSlot (absent_told presence.now) result }
{
    match presence {
        Presence::Required => Err(FromJsonError::MissingMember),
        Presence::Optional => Ok(Value::Absent),
        Presence::Group => Ok(Value::Absent),
        Presence::Default(otherwise) => Ok(otherwise.value(alloc)?),
    }
}

/// Reads additions by the object of their record.
#[cycle(reading)]
fn read_additions(
    alloc: Global,
    kinds: &[Kind],
    levels: usize,
    components: &[Component],
    json: &Json<'_>,
) -> Result<Vec<Value>, FromJsonError>
    ensures { TellsSlots (additions_told kinds.now (told_at kinds.now levels) (value_view json.now) components.now)
        result }
{
    let mut values = Vec::new(alloc);
    for component in components {
        let value = read_addition(alloc, kinds, levels, component, json)?;
        values.push(value)?;
    }
    Ok(values)
}

/// Reads an addition by the object of its record.
#[cycle(reading)]
fn read_addition(
    alloc: Global,
    kinds: &[Kind],
    levels: usize,
    component: &Component,
    json: &Json<'_>,
) -> Result<Value, FromJsonError>
    ensures { TellsSlot (addition_told (told_at kinds.now levels) (value_view json.now)
        (group_in kinds.now component.now) component.now) result }
{
    match group_in(kinds, component) {
        Some(group) => read_group(alloc, kinds, levels, group, json),
        None => read_component(alloc, kinds, levels, component, json),
    }
}

/// Reads a group by the object of the record that it is an addition of.
#[cycle(reading)]
fn read_group(
    alloc: Global,
    kinds: &[Kind],
    levels: usize,
    group: &Record,
    json: &Json<'_>,
) -> Result<Value, FromJsonError>
    ensures { TellsSlot (group_told (told_at kinds.now levels) (value_view json.now) group.now) result }
{
    let components = group.root();
    if !has_member(json, components) {
        return Ok(Value::Absent);
    }
    let root = read_components(alloc, kinds, levels, components, json)?;
    Ok(Value::Fields(root, Vec::new(alloc)))
}

/// Reads a CHOICE.
#[cycle(reading)]
fn read_choice(
    alloc: Global,
    kinds: &[Kind],
    levels: usize,
    choice: &Choice,
    json: &Json<'_>,
) -> Result<Value, FromJsonError>
    ensures { TellsValue (choice_told (told_at kinds.now levels) choice.now (value_view json.now)) result }
{
    match members_of(json) {
        Some(members) => read_one(alloc, kinds, levels, choice, members),
        None => Err(FromJsonError::WrongKind),
    }
}

/// Reads a CHOICE by the only member of an object.
#[cycle(reading)]
fn read_one(
    alloc: Global,
    kinds: &[Kind],
    levels: usize,
    choice: &Choice,
    members: &[(&str, Json<'_>)],
) -> Result<Value, FromJsonError>
    ensures { TellsValue (one_told (told_at kinds.now levels) choice.now (members_view members.now)) result }
{
    match members {
        [] => Err(FromJsonError::WrongKind),
        [member] => read_named(alloc, kinds, levels, choice, member.0, &member.1),
        [_, _, ..] => Err(FromJsonError::WrongKind),
    }
}

/// Reads the value of an alternative by its name.
#[cycle(reading)]
fn read_named(
    alloc: Global,
    kinds: &[Kind],
    levels: usize,
    choice: &Choice,
    name: &str,
    json: &Json<'_>,
) -> Result<Value, FromJsonError>
    ensures { TellsValue (alternative_told (told_at kinds.now levels) choice.now
        (alternative_place choice.now name.now) (value_view json.now)) result }
{
    match alternative_place(choice, name) {
        Some(place) => read_alternative(alloc, kinds, levels, choice, place, json),
        None => Err(FromJsonError::UnknownAlternative),
    }
}

/// Reads the value of the alternative at a place.
#[cycle(reading)]
fn read_alternative(
    alloc: Global,
    kinds: &[Kind],
    levels: usize,
    choice: &Choice,
    place: Place,
    json: &Json<'_>,
) -> Result<Value, FromJsonError>
    ensures { TellsValue (alternative_told (told_at kinds.now levels) choice.now (Some place) (value_view json.now))
        result }
{
    match choice.at(place) {
        Some(alternative) => read_chosen(alloc, kinds, levels, alternative.of, place, json),
        None => Err(FromJsonError::UnknownAlternative),
    }
}

/// Reads the value of an alternative of a type that is at a place.
#[cycle(reading)]
fn read_chosen(
    alloc: Global,
    kinds: &[Kind],
    levels: usize,
    of: usize,
    place: Place,
    json: &Json<'_>,
) -> Result<Value, FromJsonError>
    ensures { TellsValue (option_map (alternative (side_of place) (index_in place))
        (told_at kinds.now levels of (value_view json.now))) result }
{
    let value = read_at(alloc, kinds, levels, of, json)?;
    let chosen = Box::new(alloc, value)?;
    Ok(Value::Alternative(place, chosen))
}

/// Reads an open type: its octets by their digits, or a value by the name of its type.
#[cycle(reading)]
fn read_open(
    alloc: Global,
    kinds: &[Kind],
    levels: usize,
    set: &ObjectSet,
    json: &Json<'_>,
) -> Result<Value, FromJsonError>
    ensures { TellsValue (open_told (told_at kinds.now levels) set.now (as_str (value_view json.now))
        (value_view json.now)) result }
{
    match json.as_str() {
        Some(_) => read_octets(alloc, json),
        None => read_opened(alloc, kinds, levels, set, json),
    }
}

/// Reads an open type by an object.
#[cycle(reading)]
fn read_opened(
    alloc: Global,
    kinds: &[Kind],
    levels: usize,
    set: &ObjectSet,
    json: &Json<'_>,
) -> Result<Value, FromJsonError>
    ensures { TellsValue (option_and_then (one_row_told (told_at kinds.now levels) set.now)
        (as_object (value_view json.now))) result }
{
    match members_of(json) {
        Some(members) => read_row(alloc, kinds, levels, set, members),
        None => Err(FromJsonError::WrongKind),
    }
}

/// Reads an open type by the only member of an object.
#[cycle(reading)]
fn read_row(
    alloc: Global,
    kinds: &[Kind],
    levels: usize,
    set: &ObjectSet,
    members: &[(&str, Json<'_>)],
) -> Result<Value, FromJsonError>
    ensures { TellsValue (one_row_told (told_at kinds.now levels) set.now (members_view members.now)) result }
{
    match members {
        [] => Err(FromJsonError::WrongKind),
        [member] => read_row_named(alloc, kinds, levels, set, member.0, &member.1),
        [_, _, ..] => Err(FromJsonError::WrongKind),
    }
}

/// Reads an open type by the name of its type.
#[cycle(reading)]
fn read_row_named(
    alloc: Global,
    kinds: &[Kind],
    levels: usize,
    set: &ObjectSet,
    name: &str,
    json: &Json<'_>,
) -> Result<Value, FromJsonError>
    ensures { TellsValue (row_told (told_at kinds.now levels) set.now (row_place set.now name.now)
        (value_view json.now)) result }
{
    match row_place(set, name) {
        Some(place) => read_row_at(alloc, kinds, levels, set, place, json),
        None => Err(FromJsonError::UnknownAlternative),
    }
}

/// Reads an open type as a value of the type of a row.
#[cycle(reading)]
fn read_row_at(
    alloc: Global,
    kinds: &[Kind],
    levels: usize,
    set: &ObjectSet,
    place: Place,
    json: &Json<'_>,
) -> Result<Value, FromJsonError>
    ensures { TellsValue (row_told (told_at kinds.now levels) set.now (Some place) (value_view json.now)) result }
{
    match set.row(place) {
        Some(row) => read_chosen(alloc, kinds, levels, row.of, place, json),
        None => Err(FromJsonError::UnknownAlternative),
    }
}
