//! The open types of a value by their object sets (X.681 14, X.682 10): their octets read as values, and written.

ghost use Rattle.std.specs.Prelude.{◌≡◌, ◌≢◌, IfErr, IfNone, IfOk, IfSome, List, None, Some, ℕ};
ghost use Rattle.std.specs.Prelude.{false, option_map, slice_get, true};
ghost use Rattle.per_core.specs.declared.decode_error.DecodeErrorKind.TheVariants.{OutOfMemory as no_room_to_read};
ghost use Rattle.rasn_dynamic.specs.Types.{within};
ghost use Rattle.rasn_dynamic.specs.declared.values.Value.TheVariants.{Alternative, Bag, Elements, Fields, Octets};
ghost use Rattle.per_dynamic.specs.OpenTypes.{AreRowOctets, Each, IsFaultOf, IsOpenRead, IsOpenWritten, IsRowValue};
ghost use Rattle.per_dynamic.specs.OpenTypes.{IsUntaken, set_of, Takes, TakesBag, TakesChoice, TakesFieldBy, TakesList};
ghost use Rattle.per_dynamic.specs.OpenTypes.{TakesOneBy, TakesOpen, TakesParts, TakesRecord, TakesTold};
ghost use Rattle.per_dynamic.specs.declared.open_types.OpenTypeError.TheVariants.{OutOfMemory};

use crate::codecs::{decode, encode};
use crate::rows::{component_at, row_at, row_at_index, rows_told, set_at, told_at};
use per_de::{DecodeError, DecodeErrorKind};
use per_enc::{EncodeError, EncodeErrorKind};
use rasn_dynamic::types::{Choice, Component, Kind, ObjectSet, Record, Row, Types, kind_within};
use rasn_dynamic::values::Value;
use rasn_schema::items::Place;
use rasn_types::types::{Any, Codec};
use std::alloc::{AllocError, AllocFailed, Global};
use std::mem;
use thiserror::Error;

/// How many levels of values, and of open types in them, are looked through.
const MOST_LEVELS: usize = 128;

/// Why the open types of a value aren't taken.
#[derive(Clone, Copy, Debug, PartialEq, Error)]
pub enum OpenTypeError {
    /// An open type has a value of another type than the one that its object set tells.
    #[error("an open type has a value of another type than its object set tells")]
    OtherType,
    /// The value of an open type has no canonical encoding.
    #[error("the value of an open type has no encoding")]
    Encode(EncodeErrorKind),
    /// Memory ran out.
    #[error("out of memory")]
    OutOfMemory,
}

/// The variant of open types' octets, and whether these are read or written.
#[derive(Clone, Copy)]
pub(crate) struct Way {
    codec: Codec,
    reads: bool,
}

/// A value of the type at a place of a table with the octets of its open types read as values: where a row of their
/// object set says of which type they are, and they are an encoding of one (`decode`). Such a value is the alternative
/// at the row's place. Other octets are left. The only error is want of memory.
pub fn read_open_types(
    alloc: Global,
    codec: Codec,
    types: &Types,
    place: usize,
    value: Value,
) -> Result<Value, OpenTypeError>
    ensures read { IfOk result (Takes (record { codec = codec; reads = true }) types.now.kinds.items 128 place
        value) }
    ensures memory { IfErr result (λ e. e ≡ OutOfMemory) }
{
    let way = Way { codec, reads: true };
    take_at(alloc, types, way, MOST_LEVELS, place, value)
}

/// A value of the type at a place of a table with the values of its open types written as their canonical octets.
///
/// Refuses where a row of the object set tells another type for one, where one has no encoding, and where memory ran
/// out.
pub fn write_open_types(
    alloc: Global,
    codec: Codec,
    types: &Types,
    place: usize,
    value: Value,
) -> Result<Value, OpenTypeError>
    ensures written { IfOk result (Takes (record { codec = codec; reads = false }) types.now.kinds.items 128 place
        value) }
    ensures refused { IfErr result (IsUntaken (record { codec = codec; reads = false }) types.now.kinds.items) }
{
    let way = Way {
        codec,
        reads: false,
    };
    take_at(alloc, types, way, MOST_LEVELS, place, value)
}

/// Takes the open types of a value of the type at a place, within so many levels.
#[cycle(taking)]
fn take_at(
    alloc: Global,
    types: &Types,
    way: Way,
    levels: usize,
    place: usize,
    value: Value,
) -> Result<Value, OpenTypeError>
    ensures taken { IfOk result (Takes way types.now.kinds.items levels place value) }
    ensures refused { IfErr result (IsUntaken way types.now.kinds.items) }
{
    match levels.checked_sub(1) {
        Some(below) => take_within(alloc, types, way, below, place, value),
        None => Ok(value),
    }
}

/// Takes the open types of a value of the type at a place, those in its parts within so many levels.
#[cycle(taking)]
fn take_within(
    alloc: Global,
    types: &Types,
    way: Way,
    levels: usize,
    place: usize,
    value: Value,
) -> Result<Value, OpenTypeError>
    ensures taken { IfOk result (TakesParts way types.now.kinds.items (Takes way types.now.kinds.items levels)
        (within types.now.kinds.items (slice_get types.now.kinds.items place)) value) }
    ensures refused { IfErr result (IsUntaken way types.now.kinds.items) }
{
    match kind_within(&types.kinds, place) {
        Some(kind) => take_parts(alloc, types, way, levels, kind, value),
        None => Ok(value),
    }
}

/// Takes the open types of a value by what its type is.
#[cycle(taking)]
fn take_parts(
    alloc: Global,
    types: &Types,
    way: Way,
    levels: usize,
    kind: &Kind,
    value: Value,
) -> Result<Value, OpenTypeError>
    ensures taken { IfOk result (TakesParts way types.now.kinds.items (Takes way types.now.kinds.items levels)
        (Some kind.now) value) }
    ensures refused { IfErr result (IsUntaken way types.now.kinds.items) }
{
    match kind {
        Kind::List(of, _) => take_list(alloc, types, way, levels, *of, value),
        Kind::SetOf(of, _) => take_set_of(alloc, types, way, levels, *of, value),
        Kind::Record(record) => take_record(alloc, types, way, levels, record, value),
        Kind::Choice(choice) => take_choice(alloc, types, way, levels, choice, value),
        Kind::Simple(_) | Kind::Date | Kind::Containing(_) | Kind::Open(_) => Ok(value),
    }
}

/// Takes the open types of a SEQUENCE OF.
#[cycle(taking)]
fn take_list(
    alloc: Global,
    types: &Types,
    way: Way,
    levels: usize,
    of: usize,
    value: Value,
) -> Result<Value, OpenTypeError>
    ensures taken { IfOk result (TakesList (Takes way types.now.kinds.items levels of) value) }
    ensures refused { IfErr result (IsUntaken way types.now.kinds.items) }
{
    match value {
        Value::Elements(mut values) => {
            take_values(alloc, types, way, levels, of, &mut values)?;
            Ok(Value::Elements(values))
        }
        _ => Ok(value),
    }
}

/// Takes the open types of a SET OF.
#[cycle(taking)]
fn take_set_of(
    alloc: Global,
    types: &Types,
    way: Way,
    levels: usize,
    of: usize,
    value: Value,
) -> Result<Value, OpenTypeError>
    ensures taken { IfOk result (TakesBag (Takes way types.now.kinds.items levels of) value) }
    ensures refused { IfErr result (IsUntaken way types.now.kinds.items) }
{
    match value {
        Value::Bag(mut values) => {
            take_values(alloc, types, way, levels, of, &mut values)?;
            Ok(Value::Bag(values))
        }
        _ => Ok(value),
    }
}

/// Takes the open types of values of the type at a place.
#[cycle(taking)]
fn take_values(
    alloc: Global,
    types: &Types,
    way: Way,
    levels: usize,
    of: usize,
    values: &mut [Value],
) -> Result<(), OpenTypeError>
    ensures taken { IfOk result (λ u. Each (λ k. Takes way types.now.kinds.items levels of) values.old values.new) }
    ensures refused { IfErr result (IsUntaken way types.now.kinds.items) }
{
    for value in values.iter_mut() {
        let own = mem::replace(value, Value::Absent);
        *value = take_at(alloc, types, way, levels, of, own)?;
    }
    Ok(())
}

/// Takes the open types of a record.
#[cycle(taking)]
fn take_record(
    alloc: Global,
    types: &Types,
    way: Way,
    levels: usize,
    sequence: &Record,
    value: Value,
) -> Result<Value, OpenTypeError>
    ensures taken { IfOk result (TakesRecord way types.now.kinds.items (Takes way types.now.kinds.items levels)
        sequence.now value) }
    ensures refused { IfErr result (IsUntaken way types.now.kinds.items) }
{
    match value {
        Value::Fields(mut root, mut additions) => {
            let own = sequence.root();
            let added = sequence.behind();
            let rows = rows_told(alloc, &types.kinds, own, &root, own)?;
            let added_rows = rows_told(alloc, &types.kinds, own, &root, added)?;
            take_fields(alloc, types, way, levels, own, &rows, &mut root)?;
            take_fields(
                alloc,
                types,
                way,
                levels,
                added,
                &added_rows,
                &mut additions,
            )?;
            Ok(Value::Fields(root, additions))
        }
        _ => Ok(value),
    }
}

/// Takes the open types of components, by the rows of object sets that their record tells.
#[cycle(taking)]
fn take_fields(
    alloc: Global,
    types: &Types,
    way: Way,
    levels: usize,
    components: &[Component],
    rows: &[Option<usize>],
    values: &mut [Value],
) -> Result<(), OpenTypeError>
    ensures taken { IfOk result (λ u. TakesTold way types.now.kinds.items (Takes way types.now.kinds.items levels)
        components.now rows.now values.old values.new) }
    ensures refused { IfErr result (IsUntaken way types.now.kinds.items) }
{
    for (index, value) in values.iter_mut().enumerate() {
        let told = told_at(rows, index);
        let component = component_at(components, index);
        let own = mem::replace(value, Value::Absent);
        *value = take_field(alloc, types, way, levels, component, told, own)?;
    }
    Ok(())
}

/// Takes the open types of a component, where there is one, by the row of its object set that is told.
#[cycle(taking)]
fn take_field(
    alloc: Global,
    types: &Types,
    way: Way,
    levels: usize,
    component: Option<&Component>,
    told: Option<usize>,
    value: Value,
) -> Result<Value, OpenTypeError>
    ensures taken { IfOk result (TakesFieldBy way types.now.kinds.items (Takes way types.now.kinds.items levels)
        told (option_map (λ c. c.now) component.entry) value) }
    ensures refused { IfErr result (IsUntaken way types.now.kinds.items) }
{
    if !has_parts(&value) {
        return Ok(value);
    }
    match component {
        Some(component) => take_one(alloc, types, way, levels, component.of, told, value),
        None => Ok(value),
    }
}

/// Whether a value is octets, or others are in it.
fn has_parts(value: &Value) -> bool
    ensures octets { result ≡ false → (os : _) → value.now ≡ Octets os → ⊥ }
    ensures elements { result ≡ false → (v : _) → value.now ≡ Elements v → ⊥ }
    ensures bag { result ≡ false → (v : _) → value.now ≡ Bag v → ⊥ }
    ensures fields { result ≡ false → (v : _) → (w : _) → value.now ≡ Fields v w → ⊥ }
    ensures alternative { result ≡ false → (p : _) → (b : _) → value.now ≡ Alternative p b → ⊥ }
{
    match value {
        Value::Octets(_) => true,
        Value::Elements(_) => true,
        Value::Bag(_) => true,
        Value::Fields(_, _) => true,
        Value::Alternative(_, _) => true,
        _ => false,
    }
}

/// Takes the open types of a component, of the type at a place.
#[cycle(taking)]
fn take_one(
    alloc: Global,
    types: &Types,
    way: Way,
    levels: usize,
    of: usize,
    told: Option<usize>,
    value: Value,
) -> Result<Value, OpenTypeError>
    ensures taken { IfOk result (TakesOneBy way types.now.kinds.items (Takes way types.now.kinds.items levels)
        told of (set_of (slice_get types.now.kinds.items of)) value) }
    ensures refused { IfErr result (IsUntaken way types.now.kinds.items) }
{
    match set_at(&types.kinds, of) {
        Some(set) => take_open(alloc, types, way, levels, set, told, value),
        None => take_at(alloc, types, way, levels, of, value),
    }
}

/// Takes the open types of a CHOICE.
#[cycle(taking)]
fn take_choice(
    alloc: Global,
    types: &Types,
    way: Way,
    levels: usize,
    choice: &Choice,
    value: Value,
) -> Result<Value, OpenTypeError>
    ensures taken { IfOk result (TakesChoice (Takes way types.now.kinds.items levels) choice.now
        value) }
    ensures refused { IfErr result (IsUntaken way types.now.kinds.items) }
{
    match value {
        Value::Alternative(place, mut chosen) => match choice.at(place) {
            Some(alternative) => {
                let own = mem::replace(&mut *chosen, Value::Absent);
                *chosen = take_at(alloc, types, way, levels, alternative.of, own)?;
                Ok(Value::Alternative(place, chosen))
            }
            None => Ok(Value::Alternative(place, chosen)),
        },
        _ => Ok(value),
    }
}

/// Takes an open type, and those in its value, by the row that is told.
#[cycle(taking)]
fn take_open(
    alloc: Global,
    types: &Types,
    way: Way,
    levels: usize,
    set: &ObjectSet,
    told: Option<usize>,
    value: Value,
) -> Result<Value, OpenTypeError>
    ensures taken { IfOk result (TakesOpen way types.now.kinds.items (Takes way types.now.kinds.items levels)
        set.now told value) }
    ensures refused { IfErr result (IsUntaken way types.now.kinds.items) }
{
    if way.reads {
        read_open(alloc, types, way, levels, set, told, value)
    } else {
        write_open(alloc, types, way, levels, set, told, value)
    }
}

/// Reads an open type's octets as a value of the type of the row that is told, and the open types in it.
#[cycle(taking)]
fn read_open(
    alloc: Global,
    types: &Types,
    way: Way,
    levels: usize,
    set: &ObjectSet,
    told: Option<usize>,
    value: Value,
) -> Result<Value, OpenTypeError>
    ensures taken { IfOk result (IsOpenRead way types.now.kinds.items (Takes way types.now.kinds.items levels)
        set.now told value) }
    ensures refused { IfErr result (IsUntaken way types.now.kinds.items) }
{
    let Some(index) = told else {
        return Ok(value);
    };
    let Some(row) = row_at_index(&set.rows, index) else {
        return Ok(value);
    };
    let Some(octets) = octets_of(&value) else {
        return Ok(value);
    };
    match row_value(alloc, types, way, levels, row, octets)? {
        Some(read) => Ok(Value::Alternative(Place::Root(index), Box::new(alloc, read)?)),
        None => Ok(value),
    }
}

/// The octets of a value that is octets.
fn octets_of(value: &Value) -> Option<&[u8]>
    ensures some { IfSome result (λ os. value.now ≡ Octets os.now) }
    ensures none { IfNone result ((os : List ℕ) → value.now ≡ Octets os → ⊥) }
{
    match value {
        Value::Octets(octets) => Some(octets.as_bytes()),
        _ => None,
    }
}

/// The value of a row's type that octets spell, in which open types are read; none where they are no encoding of one.
#[cycle(taking)]
fn row_value(
    alloc: Global,
    types: &Types,
    way: Way,
    levels: usize,
    row: &Row,
    octets: &[u8],
) -> Result<Option<Value>, OpenTypeError>
    ensures taken { IfOk result (λ read. IsRowValue way types.now.kinds.items (Takes way types.now.kinds.items levels)
        row.now octets.now read) }
    ensures refused { IfErr result (IsUntaken way types.now.kinds.items) }
{
    match decode(alloc, way.codec, types, row.of, octets) {
        Ok(read) => {
            let taken = take_at(alloc, types, way, levels, row.of, read)?;
            Ok(Some(taken))
        }
        Err(error) => unread(error),
    }
}

/// No value, where octets were refused, and not for want of memory.
fn unread(error: DecodeError) -> Result<Option<Value>, OpenTypeError>
    ensures none { IfOk result (λ read. (error.kind ≢ no_room_to_read) × (read ≡ None)) }
    ensures memory { IfErr result (λ e. e ≡ OutOfMemory) }
{
    match error.kind {
        DecodeErrorKind::OutOfMemory => Err(OpenTypeError::OutOfMemory),
        _ => Ok(None),
    }
}

/// Writes the value of an open type, of the type of the row that is told, as its octets, and the open types in it.
#[cycle(taking)]
fn write_open(
    alloc: Global,
    types: &Types,
    way: Way,
    levels: usize,
    set: &ObjectSet,
    told: Option<usize>,
    value: Value,
) -> Result<Value, OpenTypeError>
    ensures taken { IfOk result (IsOpenWritten way types.now.kinds.items (Takes way types.now.kinds.items levels)
        set.now told value) }
    ensures refused { way.reads ≡ false → IfErr result (IsUntaken way types.now.kinds.items) }
{
    match value {
        Value::Alternative(place, mut chosen) => match row_at(set, told, place) {
            Some(row) => {
                let own = mem::replace(&mut *chosen, Value::Absent);
                let octets = row_octets(alloc, types, way, levels, row, own)?;
                Ok(Value::Octets(Any::new(octets)))
            }
            None => Err(OpenTypeError::OtherType),
        },
        _ => Ok(value),
    }
}

/// The canonical octets of a value of the type of a row, whose open types are written.
#[cycle(taking)]
fn row_octets(
    alloc: Global,
    types: &Types,
    way: Way,
    levels: usize,
    row: &Row,
    value: Value,
) -> Result<Vec<u8>, OpenTypeError>
    ensures taken { IfOk result (λ octets. AreRowOctets way types.now.kinds.items
        (Takes way types.now.kinds.items levels) row.now value octets.items) }
    ensures refused { way.reads ≡ false → IfErr result (IsUntaken way types.now.kinds.items) }
{
    let taken = take_at(alloc, types, way, levels, row.of, value)?;
    Ok(encode(alloc, way.codec, types, row.of, &taken)?)
}

impl From<AllocError> for OpenTypeError {
    ghost from_gives = { λ e r. r ≡ OutOfMemory };

    fn from(_error: AllocError) -> OpenTypeError {
        OpenTypeError::OutOfMemory
    }
}

impl<T: Drop> From<AllocFailed<T>> for OpenTypeError {
    ghost from_gives = { λ e r. r ≡ OutOfMemory };

    fn from(_error: AllocFailed<T>) -> OpenTypeError {
        OpenTypeError::OutOfMemory
    }
}

impl From<EncodeError> for OpenTypeError {
    ghost from_gives = { λ e r. IsFaultOf e.kind r };

    fn from(error: EncodeError) -> OpenTypeError {
        match error.kind {
            EncodeErrorKind::OutOfMemory => OpenTypeError::OutOfMemory,
            kind => OpenTypeError::Encode(kind),
        }
    }
}
