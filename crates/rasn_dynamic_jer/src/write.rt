//! Values as JSON, by a table of types (X.697).

ghost use Rattle.std.specs.Prelude.{◌≡◌, ℕ, IfOk, IfErr, Some, map, option_map};
ghost use Rattle.json.specs.Json.{max_depth};
ghost use Rattle.rasn_dynamic.specs.Types.{row_at, standing};
ghost use Rattle.rasn_dynamic.specs.Values.{value_of};
ghost use Rattle.rasn_dynamic.specs.declared.types.Kind.TheVariants.{Choice as ChoiceKind, List as ListKind};
ghost use Rattle.rasn_dynamic.specs.declared.types.Kind.TheVariants.{Open as OpenKind, Record as RecordKind, SetOf};
ghost use Rattle.rasn_dynamic.specs.declared.types.Kind.TheVariants.{Date as DateKind, Simple as SimpleKind};
ghost use Rattle.rasn_dynamic_jer.specs.Leaves.{below};
ghost use Rattle.rasn_dynamic_jer.specs.Puts.{IsRefused, IsJsonText, Puts, PutsAll, PutsMembers};
ghost use Rattle.rasn_dynamic_jer.specs.Shown.{alternative_json, array_json, json_at, json_by, known};
ghost use Rattle.rasn_dynamic_jer.specs.Shown.{component_members, group_among, is_default, is_optional, list_members};
ghost use Rattle.rasn_dynamic_jer.specs.Shown.{members_there, named, one_member, row_json, values_json};

use crate::dates::put_day;
use crate::error::ToJsonError;
use crate::leaves::{
    put_bits, put_characters, put_digits, put_item, put_null, put_number, put_octets, put_token,
    put_truth,
};
use crate::table::group_in;
use json::{Token, Writer};
use rasn_dynamic::types::{
    Choice, Component, Kind, ObjectSet, Presence, Record, Simple, Types, kind_within,
};
use rasn_dynamic::values::Value;
use rasn_schema::items::Place;
use std::alloc::Global;

/// How deep arrays and objects may nest.
const MOST_LEVELS: usize = 128;
/// How many octets of a text there is room for at first.
const FIRST_ROOM: usize = 4096;

/// A value as JSON in UTF-8, without white space, by the type at a place of a table. Members are in the order of the
/// type's components; one that is absent, or whose value is the default, isn't there.
pub fn to_json(
    alloc: Global,
    types: &Types,
    place: usize,
    value: &Value,
) -> Result<Vec<u8>, ToJsonError>
    ensures text { IfOk result (λ text.
        IsJsonText (json_at types.now.kinds.items max_depth place value.now) text.items) }
    ensures refused { IfErr result (IsRefused (json_at types.now.kinds.items max_depth place value.now)) }
{
    let mut writer = Writer::new(Vec::with_capacity(alloc, FIRST_ROOM)?);
    put_at(&mut writer, alloc, &types.kinds, place, value, MOST_LEVELS)?;
    Ok(writer.into_inner())
}

/// Writes a value by the type at a place of a table, within so many levels of arrays and objects.
#[cycle(showing)]
fn put_at(
    writer: &mut Writer,
    alloc: Global,
    kinds: &[Kind],
    place: usize,
    value: &Value,
    levels: usize,
) -> Result<(), ToJsonError>
    ensures { Puts (json_at kinds.now levels place value.now) levels writer.old result writer.new }
{
    match kind_within(kinds, place) {
        Some(kind) => put_kind(writer, alloc, kinds, kind, value, levels),
        None => Err(ToJsonError::NoJson),
    }
}

/// Writes a value by what its type is.
#[cycle(showing)]
fn put_kind(
    writer: &mut Writer,
    alloc: Global,
    kinds: &[Kind],
    kind: &Kind,
    value: &Value,
    levels: usize,
) -> Result<(), ToJsonError>
    ensures { Puts (json_by kinds.now levels (Some kind.now) value.now) levels writer.old result writer.new }
{
    match kind {
        Kind::Simple(simple) => put_simple(writer, alloc, simple, value, levels),
        Kind::Date => put_date(writer, alloc, value),
        Kind::List(of, _) => put_list(writer, alloc, kinds, *of, value, levels),
        Kind::SetOf(of, _) => put_set_of(writer, alloc, kinds, *of, value, levels),
        Kind::Record(record) => put_record(writer, alloc, kinds, record, value, levels),
        Kind::Choice(choice) => put_choice(writer, alloc, kinds, choice, value, levels),
        Kind::Open(set) => put_open(writer, alloc, kinds, set, value, levels),
        Kind::Containing(_) => Err(ToJsonError::NoJson),
    }
}

/// Writes a value of a type in which no other is.
fn put_simple(
    writer: &mut Writer,
    alloc: Global,
    simple: &Simple,
    value: &Value,
    levels: usize,
) -> Result<(), ToJsonError>
    ensures { (ts : _) → Puts (json_by ts levels (Some (SimpleKind simple.now)) value.now) levels
        writer.old result writer.new }
{
    match value {
        Value::Boolean(truth) => put_truth(writer, simple, *truth),
        Value::Null => put_null(writer, simple),
        Value::Integer(number) => put_number(writer, simple, number),
        Value::Item(place) => put_item(writer, simple, *place),
        Value::Octets(octets) => put_octets(writer, alloc, simple, octets),
        Value::Bits(bits) => put_bits(writer, alloc, simple, bits, levels),
        Value::Characters(characters) => put_characters(writer, alloc, simple, characters),
        _ => Err(ToJsonError::NoJson),
    }
}

/// Writes a DATE, such as `"2026-11-27"`.
fn put_date(writer: &mut Writer, alloc: Global, value: &Value) -> Result<(), ToJsonError>
    ensures { (ts : _) → (n : _) → Puts (json_by ts n (Some DateKind) value.now) n writer.old result writer.new }
{
    match value {
        Value::Date(date) => put_day(writer, alloc, *date),
        _ => Err(ToJsonError::NoJson),
    }
}

/// Writes a SEQUENCE OF as an array.
#[cycle(showing)]
fn put_list(
    writer: &mut Writer,
    alloc: Global,
    kinds: &[Kind],
    of: usize,
    value: &Value,
    levels: usize,
) -> Result<(), ToJsonError>
    ensures { (c : _) → Puts (json_by kinds.now levels (Some (ListKind of c)) value.now) levels
        writer.old result writer.new }
{
    match value {
        Value::Elements(values) => put_array(writer, alloc, kinds, of, values, levels),
        _ => Err(ToJsonError::NoJson),
    }
}

/// Writes a SET OF as an array.
#[cycle(showing)]
fn put_set_of(
    writer: &mut Writer,
    alloc: Global,
    kinds: &[Kind],
    of: usize,
    value: &Value,
    levels: usize,
) -> Result<(), ToJsonError>
    ensures { (c : _) → Puts (json_by kinds.now levels (Some (SetOf of c)) value.now) levels
        writer.old result writer.new }
{
    match value {
        Value::Bag(values) => put_array(writer, alloc, kinds, of, values, levels),
        _ => Err(ToJsonError::NoJson),
    }
}

/// Writes an array of values of the type at a place.
#[cycle(showing)]
fn put_array(
    writer: &mut Writer,
    alloc: Global,
    kinds: &[Kind],
    of: usize,
    values: &[Value],
    levels: usize,
) -> Result<(), ToJsonError>
    ensures { Puts (below levels (λ m. array_json kinds.now m of (map (known kinds.now) values.now))) levels
        writer.old result writer.new }
{
    if levels == 0 {
        return Err(ToJsonError::NoJson);
    }
    put_token(writer, Token::BeginArray)?;
    put_values(writer, alloc, kinds, of, values, levels - 1)?;
    put_token(writer, Token::EndArray)
}

/// Writes values of the type at a place, one after another.
#[cycle(showing)]
fn put_values(
    writer: &mut Writer,
    alloc: Global,
    kinds: &[Kind],
    of: usize,
    values: &[Value],
    levels: usize,
) -> Result<(), ToJsonError>
    ensures { PutsAll (values_json kinds.now levels of values.now) levels writer.old result writer.new }
{
    for value in values {
        put_at(writer, alloc, kinds, of, value, levels)?;
    }
    Ok(())
}

/// Writes a record as an object.
#[cycle(showing)]
fn put_record(
    writer: &mut Writer,
    alloc: Global,
    kinds: &[Kind],
    record: &Record,
    value: &Value,
    levels: usize,
) -> Result<(), ToJsonError>
    ensures { Puts (json_by kinds.now levels (Some (RecordKind record.now)) value.now) levels
        writer.old result writer.new }
{
    if levels == 0 {
        return Err(ToJsonError::NoJson);
    }
    put_token(writer, Token::BeginObject)?;
    put_members(writer, alloc, kinds, record, value, levels - 1)?;
    put_token(writer, Token::EndObject)
}

/// Writes the members of a record.
#[cycle(showing)]
fn put_members(
    writer: &mut Writer,
    alloc: Global,
    kinds: &[Kind],
    record: &Record,
    value: &Value,
    levels: usize,
) -> Result<(), ToJsonError>
    ensures { PutsMembers ((known kinds.now value.now).members levels record.now) levels
        writer.old result writer.new }
{
    let Value::Fields(root, additions) = value else {
        return Err(ToJsonError::NoJson);
    };
    put_components(writer, alloc, kinds, record.root(), false, root, levels)?;
    put_components(
        writer,
        alloc,
        kinds,
        record.behind(),
        true,
        additions,
        levels,
    )
}

/// Writes the members of components, which may be additions.
#[cycle(showing)]
fn put_components(
    writer: &mut Writer,
    alloc: Global,
    kinds: &[Kind],
    components: &[Component],
    are_added: bool,
    values: &[Value],
    levels: usize,
) -> Result<(), ToJsonError>
    ensures { PutsMembers (list_members kinds.now are_added levels components.now (map (known kinds.now) values.now))
        levels writer.old result writer.new }
{
    if components.len() != values.len() {
        return Err(ToJsonError::NoJson);
    }
    for (index, value) in values.iter().enumerate() {
        put_component(
            writer,
            alloc,
            kinds,
            &components[index],
            are_added,
            value,
            levels,
        )?;
    }
    Ok(())
}

/// The record of a component's type, where the component is a group.
fn group_among<'kinds>(
    kinds: &'kinds [Kind],
    are_added: bool,
    component: &Component,
) -> Option<&'kinds Record>
    ensures { option_map (λ r. r.now) result ≡ group_among kinds.now are_added component.now }
{
    if !are_added {
        return None;
    }
    group_in(kinds, component)
}

/// Writes the members of a component, which may be an addition.
#[cycle(showing)]
fn put_component(
    writer: &mut Writer,
    alloc: Global,
    kinds: &[Kind],
    component: &Component,
    are_added: bool,
    value: &Value,
    levels: usize,
) -> Result<(), ToJsonError>
    ensures { PutsMembers (component_members kinds.now are_added levels component.now (known kinds.now value.now))
        levels writer.old result writer.new }
{
    if !value.is_there() {
        return if is_optional(&component.presence) {
            Ok(())
        } else {
            Err(ToJsonError::NoJson)
        };
    }
    if is_default(kinds, component, value) {
        return Ok(());
    }
    put_there(writer, alloc, kinds, component, are_added, value, levels)
}

/// Whether a component may be absent.
fn is_optional(presence: &Presence) -> bool
    ensures { result ≡ is_optional presence.now }
{
    matches!(presence, Presence::Optional | Presence::Group)
}

/// Whether a value is the default of its component.
fn is_default(kinds: &[Kind], component: &Component, value: &Value) -> bool
    ensures { result ≡ is_default kinds.now component.now (value_of value.now) }
{
    match &component.presence {
        Presence::Default(otherwise) => value.is_default_tree_at(kinds, component.of, otherwise),
        _ => false,
    }
}

/// Writes the members of a component that is there.
#[cycle(showing)]
fn put_there(
    writer: &mut Writer,
    alloc: Global,
    kinds: &[Kind],
    component: &Component,
    are_added: bool,
    value: &Value,
    levels: usize,
) -> Result<(), ToJsonError>
    ensures { PutsMembers (members_there kinds.now levels (group_among kinds.now are_added component.now)
        component.now (known kinds.now value.now)) levels writer.old result writer.new }
{
    match group_among(kinds, are_added, component) {
        Some(record) => put_members(writer, alloc, kinds, record, value, levels),
        None => put_named(
            writer,
            alloc,
            kinds,
            &component.name,
            component.of,
            value,
            levels,
        ),
    }
}

/// Writes a member: a name, and a value of the type at a place.
#[cycle(showing)]
fn put_named(
    writer: &mut Writer,
    alloc: Global,
    kinds: &[Kind],
    name: &str,
    of: usize,
    value: &Value,
    levels: usize,
) -> Result<(), ToJsonError>
    ensures { PutsMembers (named name.now (json_at kinds.now levels of value.now)) levels
        writer.old result writer.new }
{
    put_token(writer, Token::Key(name))?;
    put_at(writer, alloc, kinds, of, value, levels)
}

/// Writes a choice as an object of one member.
#[cycle(showing)]
fn put_choice(
    writer: &mut Writer,
    alloc: Global,
    kinds: &[Kind],
    choice: &Choice,
    value: &Value,
    levels: usize,
) -> Result<(), ToJsonError>
    ensures { Puts (json_by kinds.now levels (Some (ChoiceKind choice.now)) value.now) levels
        writer.old result writer.new }
{
    match value {
        Value::Alternative(place, chosen) => {
            put_alternative(writer, alloc, kinds, choice, *place, chosen, levels)
        }
        _ => Err(ToJsonError::NoJson),
    }
}

/// Writes the value of the alternative at a place as an object of one member.
#[cycle(showing)]
fn put_alternative(
    writer: &mut Writer,
    alloc: Global,
    kinds: &[Kind],
    choice: &Choice,
    place: Place,
    value: &Value,
    levels: usize,
) -> Result<(), ToJsonError>
    ensures { Puts (below levels (λ m. alternative_json kinds.now m (standing choice.now place)
        (known kinds.now value.now))) levels writer.old result writer.new }
{
    match choice.at(place) {
        Some(alternative) => put_one(
            writer,
            alloc,
            kinds,
            &alternative.name,
            alternative.of,
            value,
            levels,
        ),
        None => Err(ToJsonError::NoJson),
    }
}

/// Writes an open type: its octets, or the value that was read from them, by the name of its type.
#[cycle(showing)]
fn put_open(
    writer: &mut Writer,
    alloc: Global,
    kinds: &[Kind],
    set: &ObjectSet,
    value: &Value,
    levels: usize,
) -> Result<(), ToJsonError>
    ensures { Puts (json_by kinds.now levels (Some (OpenKind set.now)) value.now) levels
        writer.old result writer.new }
{
    match value {
        Value::Octets(octets) => put_digits(writer, alloc, octets.as_bytes()),
        Value::Alternative(place, read) => {
            put_row(writer, alloc, kinds, set, *place, read, levels)
        }
        _ => Err(ToJsonError::NoJson),
    }
}

/// Writes the value of the type that a row of an object set tells as an object of one member.
#[cycle(showing)]
fn put_row(
    writer: &mut Writer,
    alloc: Global,
    kinds: &[Kind],
    set: &ObjectSet,
    place: Place,
    value: &Value,
    levels: usize,
) -> Result<(), ToJsonError>
    ensures { Puts (below levels (λ m. row_json kinds.now m (row_at set.now place) (known kinds.now value.now))) levels
        writer.old result writer.new }
{
    match set.row(place) {
        Some(row) => put_one(writer, alloc, kinds, &row.name, row.of, value, levels),
        None => Err(ToJsonError::NoJson),
    }
}

/// Writes an object of one member: a name, and a value of the type at a place.
#[cycle(showing)]
fn put_one(
    writer: &mut Writer,
    alloc: Global,
    kinds: &[Kind],
    name: &str,
    of: usize,
    value: &Value,
    levels: usize,
) -> Result<(), ToJsonError>
    ensures { Puts (below levels (λ m. one_member kinds.now m name.now of (known kinds.now value.now))) levels
        writer.old result writer.new }
{
    if levels == 0 {
        return Err(ToJsonError::NoJson);
    }
    put_token(writer, Token::BeginObject)?;
    put_named(writer, alloc, kinds, name, of, value, levels - 1)?;
    put_token(writer, Token::EndObject)
}
