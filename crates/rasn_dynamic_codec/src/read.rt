//! How values are read by a table of types.

ghost use Rattle.std.specs.Prelude.{◌≡◌, ◌++◌, ◌∷◌, [], true, false, map, slice_get, IfSome, Some};
ghost use Rattle.rasn_schema.specs.Bags.{set_at};
ghost use Rattle.rasn_schema.specs.Choices.{one_level_in};
ghost use Rattle.rasn_schema.specs.Structures.{tag_of, list_value};
ghost use Rattle.rasn_schema.specs.Forms.{is_size_marked, size_of};
ghost use Rattle.rasn_schema.specs.Lists.{list_at};
ghost use Rattle.rasn_schema.specs.Schemas.{default, leaf, optional, Schema};
ghost use Rattle.rasn_traits.specs.AdditionsRead.{TakesAddition, TakesAdditions};
ghost use Rattle.rasn_traits.specs.Boxes.{Holds};
ghost use Rattle.rasn_traits.specs.Calls.{Reads};
ghost use Rattle.rasn_traits.specs.Optionals.{ReadsComponent};
ghost use Rattle.rasn_dynamic_codec.specs.OneAddition.{ReadsOneAddition};
ghost use Rattle.rasn_dynamic_codec.specs.Reads.{OpensNext, OpensWithin, PutsRead, ReadsBoxed, ReadsValue, TakesRoot};
ghost use Rattle.rasn_dynamic.specs.Types.{choice_of, contained_at, grouped, in_root, of_size, tree_value};
ghost use Rattle.rasn_dynamic.specs.Types.{parts_at, plain_at, presence_of, record_schema, schema_at, standing};
ghost use Rattle.rasn_dynamic.specs.Values.{slot_of, value_of};

use crate::read_simple::{
    decode_any, decode_date, decode_leaf, decode_nothing, decode_simple, put, put_leaf, put_nothing,
};
use rasn_constraints::constraints::{Constraint, Constraints};
use rasn_dynamic::types::{
    Choice, Component, DefaultTree, Kind, Presence, Record, SizeBounds, kind_at, presence_bit_count,
};
use rasn_dynamic::values::Value;
use rasn_schema::items::Place;
use rasn_traits::counted::CountedDecoder;
use rasn_types::types::Tag;
use std::alloc::Global;

/// Reads a value of the type at a place of a table. Where nothing is there it refuses.
#[cycle(reading)]
#[inline(always)]
pub fn decode_value<D: CountedDecoder>(
    decoder: &mut D,
    kinds: &[Kind],
    place: usize,
) -> Result<Value, D::Error>
    ensures { ReadsValue D.rules (schema_at kinds.now place (D.rules.levels decoder.old))
        decoder.old result decoder.new }
{
    match kind_at(kinds, place) {
        None => decode_nothing(decoder),
        Some(kind) => decode_kind(decoder, kinds, place, kind),
    }
}

/// Reads a value of what is at a place of a table.
#[cycle(reading)]
#[inline(always)]
fn decode_kind<D: CountedDecoder>(
    decoder: &mut D,
    kinds: &[Kind],
    place: usize,
    kind: &Kind,
) -> Result<Value, D::Error>
    requires { slice_get kinds.now place ≡ Some kind.now }
    ensures { ReadsValue D.rules (schema_at kinds.now place (D.rules.levels decoder.old))
        decoder.old result decoder.new }
{
    match kind {
        Kind::Simple(simple) => decode_leaf(decoder, simple),
        Kind::Containing(of) => decode_containing(decoder, kinds, *of),
        _ => decode_plain(decoder, kinds, kind),
    }
}

/// Reads octets that contain a value: that value, by itself.
#[cycle(reading)]
#[inline(never)]
fn decode_containing<D: CountedDecoder>(
    decoder: &mut D,
    kinds: &[Kind],
    of: usize,
) -> Result<Value, D::Error>
    ensures { ReadsValue D.rules (Schema.containing (contained_at kinds.now of (D.rules.levels decoder.old)))
        decoder.old result decoder.new }
{
    let outside = open_octets(decoder)?;
    let value = decode_contained(decoder, kinds, of)?;
    decoder.close_contents(outside)?;
    Ok(value)
}

/// Reads the value that is within octets which contain it.
#[cycle(reading)]
fn decode_contained<D: CountedDecoder>(
    decoder: &mut D,
    kinds: &[Kind],
    place: usize,
) -> Result<Value, D::Error>
    ensures { ReadsValue D.rules (contained_at kinds.now place (D.rules.levels decoder.old))
        decoder.old result decoder.new }
{
    match kind_at(kinds, place) {
        None => decode_nothing(decoder),
        Some(kind) => decode_plain(decoder, kinds, kind),
    }
}

/// Reads a value of a type that isn't octets which contain one.
#[cycle(reading)]
#[inline(never)]
fn decode_plain<D: CountedDecoder>(
    decoder: &mut D,
    kinds: &[Kind],
    kind: &Kind,
) -> Result<Value, D::Error>
    ensures { ReadsValue D.rules (plain_at kinds.now kind.now (D.rules.levels decoder.old))
        decoder.old result decoder.new }
{
    match kind {
        Kind::Simple(simple) => decode_simple(decoder, simple),
        Kind::Date => decode_date(decoder),
        Kind::List(of, size) => decode_list(decoder, kinds, *of, size),
        Kind::SetOf(of, size) => decode_set_of(decoder, kinds, *of, size),
        Kind::Record(record) => decode_record(decoder, kinds, record),
        Kind::Choice(choice) => decode_choice(decoder, kinds, choice),
        Kind::Containing(_) => decode_nothing(decoder),
        Kind::Open(_) => decode_any(decoder),
    }
}

/// Reads a SEQUENCE OF.
#[cycle(reading)]
#[inline(never)]
fn decode_list<D: CountedDecoder>(
    decoder: &mut D,
    kinds: &[Kind],
    of: usize,
    size: &SizeBounds,
) -> Result<Value, D::Error>
    ensures { let constraints = of_size size.now in
        ReadsValue D.rules (list_at (schema_at kinds.now of) (size_of constraints) (is_size_marked constraints)
        (D.rules.levels decoder.old)) decoder.old result decoder.new }
{
    let values = decode_elements(decoder, kinds, of, size)?;
    Ok(Value::Elements(values))
}

/// Reads a SET OF: its members in whatever order (X.691 22).
#[cycle(reading)]
#[inline(never)]
fn decode_set_of<D: CountedDecoder>(
    decoder: &mut D,
    kinds: &[Kind],
    of: usize,
    size: &SizeBounds,
) -> Result<Value, D::Error>
    ensures { let constraints = of_size size.now in
        ReadsValue D.rules (set_at (schema_at kinds.now of) (size_of constraints) (is_size_marked constraints)
        (D.rules.levels decoder.old)) decoder.old result decoder.new }
{
    let values = decode_elements(decoder, kinds, of, size)?;
    Ok(Value::Bag(values))
}

/// Reads the elements of a SEQUENCE OF.
#[cycle(reading)]
fn decode_elements<D: CountedDecoder>(
    decoder: &mut D,
    kinds: &[Kind],
    of: usize,
    size: &SizeBounds,
) -> Result<Vec<Value>, D::Error>
    ensures { let constraints = of_size size.now in
        Reads D.rules (list_at (schema_at kinds.now of) (size_of constraints) (is_size_marked constraints)
        (D.rules.levels decoder.old)) (λ xs. list_value (map value_of xs.items)) decoder.old result decoder.new }
{
    let stated = [Constraint::Size(*size)];
    let mut list = decoder.open_elements(Tag::SEQUENCE, &Constraints::new(&stated))?;
    let mut values = Vec::new(decoder.alloc());
    while decoder.next_element_in_turn(&mut list)? {
        let value = decode_value(decoder, kinds, of)?;
        if values.push(value).is_err() {
            return Err(decoder.out_of_memory());
        }
    }
    Ok(values)
}

/// Reads a SEQUENCE.
#[cycle(reading)]
#[inline(never)]
fn decode_record<D: CountedDecoder>(
    decoder: &mut D,
    kinds: &[Kind],
    sequence: &Record,
) -> Result<Value, D::Error>
    ensures { ReadsValue D.rules (record_schema kinds.now sequence.now (D.rules.levels decoder.old))
        decoder.old result decoder.new }
{
    let components = sequence.root();
    let additions = sequence.behind();
    let bits = presence_bit_count(components);
    let count = sequence.added_count();
    let outside = decoder.open_fields_of(Tag::SEQUENCE, bits, count)?;
    let root = decode_components(decoder, kinds, components)?;
    let added = decode_additions(decoder, kinds, additions)?;
    decoder.close_fields_of(outside)?;
    Ok(Value::Fields(root, added))
}

/// Reads the root components of a SEQUENCE in turn.
#[cycle(reading)]
#[inline(always)]
fn decode_components<D: CountedDecoder>(
    decoder: &mut D,
    kinds: &[Kind],
    components: &[Component],
) -> Result<Vec<Value>, D::Error>
    ensures { TakesRoot D.rules (parts_at in_root kinds.now components.now) decoder.old result decoder.new }
{
    let mut values = room_for(decoder.alloc(), components.len());
    for component in components {
        put_component(decoder, kinds, component, &mut values)?;
    }
    Ok(values)
}

/// A list with room for so many values; without where memory ran out, which the values then tell.
#[inline(always)]
fn room_for(alloc: Global, count: usize) -> Vec<Value>
    ensures { result.items ≡ [] }
{
    let mut values = Vec::new(alloc);
    drop(values.reserve(count));
    values
}

/// Reads a root component, and puts it after others: one that may be absent by its presence bit, and its value after
/// a bit 1.
#[cycle(reading)]
#[inline(always)]
fn put_component<D: CountedDecoder>(
    decoder: &mut D,
    kinds: &[Kind],
    component: &Component,
    values: &mut Vec<Value>,
) -> Result<(), D::Error>
    ensures { PutsRead (ReadsComponent D.rules (presence_of false component.now.presence)
        (schema_at kinds.now component.now.of (D.rules.levels decoder.old)) slot_of decoder.old)
        values.old.items result values.new.items decoder.new }
{
    match &component.presence {
        Presence::Required => put_value(decoder, kinds, component.of, values),
        Presence::Optional => put_optional(decoder, kinds, component.of, values),
        Presence::Group => put_optional(decoder, kinds, component.of, values),
        Presence::Default(otherwise) => {
            put_default(decoder, kinds, component.of, otherwise, values)
        },
    }
}

/// Reads a component that may be absent, and puts it after others.
#[cycle(reading)]
#[inline(always)]
fn put_optional<D: CountedDecoder>(
    decoder: &mut D,
    kinds: &[Kind],
    place: usize,
    values: &mut Vec<Value>,
) -> Result<(), D::Error>
    ensures { PutsRead (ReadsComponent D.rules optional (schema_at kinds.now place (D.rules.levels decoder.old))
        slot_of decoder.old) values.old.items result values.new.items decoder.new }
{
    if !decoder.next_presence()? {
        return put(decoder, values, Value::Absent);
    }
    put_value(decoder, kinds, place, values)
}

/// Reads a component with a default, and puts it after others.
#[cycle(reading)]
#[inline(always)]
fn put_default<D: CountedDecoder>(
    decoder: &mut D,
    kinds: &[Kind],
    place: usize,
    otherwise: &DefaultTree,
    values: &mut Vec<Value>,
) -> Result<(), D::Error>
    ensures { PutsRead (ReadsComponent D.rules (default (tree_value otherwise.now))
        (schema_at kinds.now place (D.rules.levels decoder.old)) slot_of decoder.old)
        values.old.items result values.new.items decoder.new }
{
    let value = decode_default(decoder, kinds, place, otherwise)?;
    put(decoder, values, value)
}

/// Reads a value of the type at a place of a table, and puts it after others.
#[cycle(reading)]
#[inline(always)]
fn put_value<D: CountedDecoder>(
    decoder: &mut D,
    kinds: &[Kind],
    place: usize,
    values: &mut Vec<Value>,
) -> Result<(), D::Error>
    ensures { PutsRead (ReadsValue D.rules (schema_at kinds.now place (D.rules.levels decoder.old)) decoder.old)
        values.old.items result values.new.items decoder.new }
{
    match kind_at(kinds, place) {
        None => put_nothing(decoder, values),
        Some(kind) => put_kind(decoder, kinds, place, kind, values),
    }
}

/// Reads a value of what is at a place of a table, and puts it after others.
#[cycle(reading)]
#[inline(always)]
fn put_kind<D: CountedDecoder>(
    decoder: &mut D,
    kinds: &[Kind],
    place: usize,
    kind: &Kind,
    values: &mut Vec<Value>,
) -> Result<(), D::Error>
    requires { slice_get kinds.now place ≡ Some kind.now }
    ensures { PutsRead (ReadsValue D.rules (schema_at kinds.now place (D.rules.levels decoder.old)) decoder.old)
        values.old.items result values.new.items decoder.new }
{
    match kind {
        Kind::Simple(simple) => put_leaf(decoder, simple, values),
        Kind::Record(record) => put_record(decoder, kinds, record, values),
        _ => put_other(decoder, kinds, place, kind, values),
    }
}

/// Reads a SEQUENCE, and puts it after other values.
#[cycle(reading)]
#[inline(always)]
fn put_record<D: CountedDecoder>(
    decoder: &mut D,
    kinds: &[Kind],
    sequence: &Record,
    values: &mut Vec<Value>,
) -> Result<(), D::Error>
    ensures { PutsRead (ReadsValue D.rules (record_schema kinds.now sequence.now (D.rules.levels decoder.old))
        decoder.old) values.old.items result values.new.items decoder.new }
{
    let value = decode_record(decoder, kinds, sequence)?;
    put(decoder, values, value)
}

/// Reads a value of what is at a place of a table by itself, and puts it after others.
#[cycle(reading)]
#[inline(always)]
fn put_other<D: CountedDecoder>(
    decoder: &mut D,
    kinds: &[Kind],
    place: usize,
    kind: &Kind,
    values: &mut Vec<Value>,
) -> Result<(), D::Error>
    requires { slice_get kinds.now place ≡ Some kind.now }
    ensures { PutsRead (ReadsValue D.rules (schema_at kinds.now place (D.rules.levels decoder.old)) decoder.old)
        values.old.items result values.new.items decoder.new }
{
    let value = decode_kind(decoder, kinds, place, kind)?;
    put(decoder, values, value)
}

/// Reads a component with a default, which it is where it isn't there.
#[cycle(reading)]
#[inline(never)]
fn decode_default<D: CountedDecoder>(
    decoder: &mut D,
    kinds: &[Kind],
    place: usize,
    otherwise: &DefaultTree,
) -> Result<Value, D::Error>
    ensures { ReadsComponent D.rules (default (tree_value otherwise.now))
        (schema_at kinds.now place (D.rules.levels decoder.old)) slot_of decoder.old result decoder.new }
{
    let there = decoder.next_presence()?;
    if !there {
        return made(decoder, otherwise);
    }
    decode_value(decoder, kinds, place)
}

/// The value of a default, in memory of the decoder's.
#[inline(never)]
fn made<D: CountedDecoder>(decoder: &mut D, otherwise: &DefaultTree) -> Result<Value, D::Error>
    ensures { Holds D.rules slot_of (Some (tree_value otherwise.now)) decoder.old result decoder.new }
{
    match otherwise.value(decoder.alloc()) {
        Ok(value) => Ok(value),
        Err(_) => Err(decoder.out_of_memory()),
    }
}

/// Reads a CHOICE.
#[cycle(reading)]
#[inline(never)]
fn decode_choice<D: CountedDecoder>(
    decoder: &mut D,
    kinds: &[Kind],
    choice: &Choice,
) -> Result<Value, D::Error>
    ensures { ReadsValue D.rules (one_level_in (choice_of kinds.now choice.now) (D.rules.levels decoder.old))
        decoder.old result decoder.new }
{
    let counts = choice.counts();
    let (place, outside) = decoder.open_alternative_of(Tag::EOC, counts)?;
    let value = decode_chosen(decoder, kinds, choice, place)?;
    decoder.close_choice(outside)?;
    Ok(Value::Alternative(place, value))
}

/// Reads the value of the alternative at a place, where one is there.
#[cycle(reading)]
fn decode_chosen<D: CountedDecoder>(
    decoder: &mut D,
    kinds: &[Kind],
    choice: &Choice,
    place: Place,
) -> Result<Box<Value>, D::Error>
    ensures { IfSome (standing choice.now place) (λ a. ReadsBoxed D.rules
        (schema_at kinds.now a.of (D.rules.levels decoder.old)) decoder.old result decoder.new) }
{
    match choice.at(place) {
        Some(alternative) => decode_boxed(decoder, kinds, alternative.of),
        None => Err(decoder.out_of_memory()),
    }
}

/// Reads a value into a box.
#[cycle(reading)]
fn decode_boxed<D: CountedDecoder>(
    decoder: &mut D,
    kinds: &[Kind],
    place: usize,
) -> Result<Box<Value>, D::Error>
    ensures { ReadsBoxed D.rules (schema_at kinds.now place (D.rules.levels decoder.old))
        decoder.old result decoder.new }
{
    let value = decode_value(decoder, kinds, place)?;
    boxed(decoder, value)
}

/// The box of a value that was read, in memory of the decoder's.
fn boxed<D: CountedDecoder>(decoder: &mut D, value: Value) -> Result<Box<Value>, D::Error>
    ensures { Holds D.rules (λ b. b.value) value decoder.old result decoder.new }
{
    match Box::new(decoder.alloc(), value) {
        Ok(boxed) => Ok(boxed),
        Err(_) => Err(decoder.out_of_memory()),
    }
}

/// Reads the additions of a SEQUENCE in turn.
#[cycle(reading)]
#[inline(always)]
fn decode_additions<D: CountedDecoder>(
    decoder: &mut D,
    kinds: &[Kind],
    components: &[Component],
) -> Result<Vec<Value>, D::Error>
    ensures { TakesAdditions D.rules (parts_at (grouped kinds.now) kinds.now components.now)
        (λ xs. map slot_of xs.items) decoder.old result decoder.new }
{
    let mut values = room_for(decoder.alloc(), components.len());
    for component in components {
        let value = decode_addition(decoder, kinds, component)?;
        if !push_value(&mut values, value) {
            return Err(decoder.out_of_memory());
        }
    }
    Ok(values)
}

/// Reads an addition: its value in an open type, or as absent.
#[cycle(reading)]
#[inline(never)]
fn decode_addition<D: CountedDecoder>(
    decoder: &mut D,
    kinds: &[Kind],
    component: &Component,
) -> Result<Value, D::Error>
    ensures { ReadsOneAddition D.rules (leaf (tag_of component.now.tag))
        (presence_of (grouped kinds.now component.now) component.now.presence)
        (schema_at kinds.now component.now.of (D.rules.levels decoder.old)) slot_of decoder.old result decoder.new }
{
    let value = decode_open(decoder, kinds, component.of)?;
    if value.is_there() {
        return Ok(value);
    }
    match &component.presence {
        Presence::Required => Err(decoder.required_extension_not_present(component.tag)),
        Presence::Optional => Ok(value),
        Presence::Group => Ok(value),
        Presence::Default(otherwise) => made(decoder, otherwise),
    }
}

/// Reads the value of the next addition in its open type, or that it isn't there.
#[cycle(reading)]
fn decode_open<D: CountedDecoder>(
    decoder: &mut D,
    kinds: &[Kind],
    place: usize,
) -> Result<Value, D::Error>
    ensures { TakesAddition D.rules (schema_at kinds.now place (D.rules.levels decoder.old)) slot_of
        decoder.old result decoder.new }
{
    let Some(outside) = open_next(decoder)? else {
        return Ok(Value::Absent);
    };
    let value = decode_value(decoder, kinds, place)?;
    decoder.close_addition(outside)?;
    Ok(value)
}

/// Opens the open type of the next addition, which takes no level, where it is there.
#[inline(never)]
fn open_next<D: CountedDecoder>(decoder: &mut D) -> Result<Option<D::Addition>, D::Error>
    ensures { OpensNext D.rules D.opens_addition decoder.old result decoder.new }
{
    decoder.open_addition()
}

/// Opens octets that contain a value, which takes no level.
#[inline(never)]
fn open_octets<D: CountedDecoder>(decoder: &mut D) -> Result<D::Contents, D::Error>
    ensures { OpensWithin D.rules D.opens_contents decoder.old result decoder.new }
{
    decoder.open_contents(Tag::OCTET_STRING)
}

/// Puts a value after others, where there is memory for it.
#[inline(always)]
fn push_value(values: &mut Vec<Value>, value: Value) -> bool
    ensures { result ≡ true → values.new.items ≡ values.old.items ++ value ∷ [] }
{
    values.push(value).is_ok()
}
