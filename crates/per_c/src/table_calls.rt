//! The calls that `include/per.h` declares over tables of types.

ghost use Rattle.std.specs.Prelude.{◌≡◌, ◌≢◌, ◌≤◌, ◌<◌, ◌*◌, ◌+◌, IfNone, IfOk, IfSome, List, None, Some, length, ℕ};
ghost use Rattle.std.specs.Arc.{arc_value};
ghost use Rattle.std.specs.Str.{IsUtf8};
ghost use Rattle.rasn_dynamic.specs.Names.{place_of};
ghost use Rattle.per_c.specs.Answers.{IsUnputBy, Puts};
ghost use Rattle.per_c.specs.Tables.{Holds, IsAnswered, IsBy, IsFirstOf, IsFound, IsHandle, IsLoaded, IsUnanswered};
ghost use Rattle.per_c.specs.Tables.{IsPathOf, IsPut, IsUnfirst, IsUnfound, IsUnloaded, IsUnlocated, IsUnshared};
ghost use Rattle.per_c.specs.Tables.{IsUntold};
ghost use Rattle.per_c.specs.declared.handle.Table.{Table as a_table};
ghost use Rattle.per_c.specs.declared.tables.Task.TheVariants.{FromJson, Recode, ToJson};

use crate::calls::put_answer;
use crate::handle::Table;
use crate::refusal::Refusal;
use crate::tables::{PerTypes, Task, answer, first, located, text_fault};
use rasn_dynamic::types::Types;
use schema_file::error::Reason;
use schema_file::load::load;
use std::alloc::{AllocError, Global};
use std::mem;
use std::sync::Arc;

/// Loads the table of a schema file's text into a handle that holds none. Answers 0, or the code of a refusal, and in
/// `line` the number of the line that is wrong, or 0 where none is.
#[unsafe(no_mangle)]
pub extern "C" fn per_load(
    alloc: Global,
    text: &[u8],
    types: &mut PerTypes,
    line: &mut usize,
) -> u32
    requires { IsHandle types.old }
    ensures loaded { result ≡ 0 → IsLoaded types.new × (line.new ≡ 0) }
    ensures refused { result ≢ 0 → IsBy (IsUnloaded types.old.handle.table text.now line.new) result }
    ensures same { result ≢ 0 → Holds types.new types.old.handle.table }
{
    *line = 0;
    if types.is_loaded {
        return Refusal::AlreadyLoaded.code();
    }
    match load(alloc, text) {
        Ok(found) => match boxed(alloc, found) {
            Ok(table) => {
                types.put(table);
                0
            }
            Err(_) => Refusal::OutOfMemory.code(),
        },
        Err(error) => match error.reason {
            Reason::OutOfMemory => Refusal::OutOfMemory.code(),
            _ => {
                *line = error.line;
                Refusal::BadSchema.code()
            }
        },
    }
}

/// A table of types in memory that is counted.
fn boxed(alloc: Global, types: Types) -> Result<Box<Table>, AllocError>
    ensures { IfOk result (λ table. arc_value table.value.types ≡ types) }
{
    let Ok(types) = Arc::new(alloc, types) else {
        return Err(AllocError);
    };
    match Box::new(alloc, Table { types }) {
        Ok(table) => Ok(table),
        Err(_) => Err(AllocError),
    }
}

/// Takes the table from a handle, and frees it where no other handle has it. The handle holds none then.
#[unsafe(no_mangle)]
pub extern "C" fn per_free(alloc: Global, types: &mut PerTypes)
    requires { IsHandle types.old }
    ensures { Holds types.new None }
{
    let held = mem::replace(types, PerTypes::none(alloc));
    drop(held.into_table());
}

/// Gives the table of a handle to another handle too, which holds none. Answers 0, or the code of a refusal.
#[unsafe(no_mangle)]
pub extern "C" fn per_share(alloc: Global, types: &mut PerTypes, other: &mut PerTypes) -> u32
    requires handle { IsHandle types.old }
    requires other { IsHandle other.old }
    ensures same { Holds types.new types.old.handle.table }
    ensures shared { result ≡ 0 → (table : a_table) × (other_table : a_table) × (types.old.handle.table ≡ Some table)
        × Holds other.new (Some other_table) × (arc_value other_table.types ≡ arc_value table.types) }
    ensures refused { result ≢ 0 → IsBy (IsUnshared types.old.handle.table other.old.handle.table) result }
    ensures kept { result ≢ 0 → Holds other.new other.old.handle.table }
{
    if other.is_loaded {
        return Refusal::AlreadyLoaded.code();
    }
    let held = mem::replace(types, PerTypes::none(alloc));
    let Some(table) = held.into_table() else {
        return Refusal::NoTypes.code();
    };
    let second = another(alloc, &table);
    types.put(table);
    match second {
        Ok(second) => {
            other.put(second);
            0
        }
        Err(_) => Refusal::OutOfMemory.code(),
    }
}

/// Another owner of a table.
fn another(alloc: Global, table: &Table) -> Result<Box<Table>, AllocError>
    ensures { IfOk result (λ second. arc_value second.value.types ≡ arc_value table.now.types) }
{
    let types = Arc::try_clone(&table.types)?;
    match Box::new(alloc, Table { types }) {
        Ok(second) => Ok(second),
        Err(_) => Err(AllocError),
    }
}

/// The place of the type with a name, `MODULE.TYPE`. Answers 0, or the code of a refusal.
#[unsafe(no_mangle)]
pub extern "C" fn per_find(
    alloc: Global,
    types: &mut PerTypes,
    name: &[u8],
    place: &mut usize,
) -> u32
    requires { IsHandle types.old }
    ensures same { Holds types.new types.old.handle.table }
    ensures found { result ≡ 0 → IsFound types.old.handle.table name.now place.new }
    ensures refused { result ≢ 0 → IsBy (IsUnfound types.old.handle.table name.now) result }
    ensures kept { result ≢ 0 → place.new ≡ place.old }
{
    let held = mem::replace(types, PerTypes::none(alloc));
    let Some(table) = held.into_table() else {
        return Refusal::NoTypes.code();
    };
    let found = place_in(&table.types, name);
    types.put(table);
    match found {
        Some(found) => {
            *place = found;
            0
        }
        None => Refusal::UnknownType.code(),
    }
}

/// The place of the type with a name.
fn place_in(types: &Types, name: &[u8]) -> Option<usize>
    ensures some { IfSome result (λ place. place_of types.now.names.items name.now ≡ Some place) }
    ensures none { IfNone result (IsUtf8 name.now → place_of types.now.names.items name.now ≡ None) }
{
    match str::from_utf8(name) {
        Ok(name) => types.place(name),
        Err(_) => None,
    }
}

/// Whether octets spell a value of the type at a place that has a canonical encoding: 0, or the code of a refusal.
#[unsafe(no_mangle)]
pub extern "C" fn per_check_by(
    alloc: Global,
    types: &mut PerTypes,
    options: u32,
    place: usize,
    octets: &[u8],
) -> u32
    requires { IsHandle types.old }
    ensures same { Holds types.new types.old.handle.table }
    ensures answered { result ≡ 0 → (canonical : List ℕ)
        × IsAnswered Recode types.old.handle.table options place octets.now canonical }
    ensures refused { result ≢ 0 →
        IsBy (IsUnanswered Recode types.old.handle.table options place octets.now) result }
{
    match answer(alloc, Task::Recode, types, options, place, octets) {
        Ok(_) => 0,
        Err(refusal) => refusal.code(),
    }
}

/// Puts the canonical encoding of the value of the type at a place that octets spell in `out`, and how many octets it
/// has in `written`. Where `out` is too small, it stays as it is. Answers 0, or the code of a refusal.
#[unsafe(no_mangle)]
pub extern "C" fn per_recode_by(
    alloc: Global,
    types: &mut PerTypes,
    options: u32,
    place: usize,
    octets: &[u8],
    out: &mut [u8],
    written: &mut usize,
) -> u32
    requires { IsHandle types.old }
    ensures same { Holds types.new types.old.handle.table }
    ensures answered { result ≡ 0 → Puts (IsAnswered Recode types.old.handle.table options place octets.now)
        out.old out.new written.new }
    ensures refused { result ≢ 0 → IsUnputBy (IsAnswered Recode types.old.handle.table options place octets.now)
        (IsUnanswered Recode types.old.handle.table options place octets.now) (length out.old) written.new result }
    ensures kept { result ≢ 0 → out.new ≡ out.old }
{
    let canonical = answer(alloc, Task::Recode, types, options, place, octets);
    put_answer(canonical, out, written)
}

/// Puts the JSON text (X.697) of the value of the type at a place that octets spell in `out`, and how many octets it
/// has in `written`. Where `out` is too small, it stays as it is. Answers 0, or the code of a refusal.
#[unsafe(no_mangle)]
pub extern "C" fn per_to_json(
    alloc: Global,
    types: &mut PerTypes,
    options: u32,
    place: usize,
    octets: &[u8],
    out: &mut [u8],
    written: &mut usize,
) -> u32
    requires { IsHandle types.old }
    ensures same { Holds types.new types.old.handle.table }
    ensures answered { result ≡ 0 → Puts (IsAnswered ToJson types.old.handle.table options place octets.now)
        out.old out.new written.new }
    ensures refused { result ≢ 0 → IsUnputBy (IsAnswered ToJson types.old.handle.table options place octets.now)
        (IsUnanswered ToJson types.old.handle.table options place octets.now) (length out.old) written.new result }
    ensures kept { result ≢ 0 → out.new ≡ out.old }
{
    let text = answer(alloc, Task::ToJson, types, options, place, octets);
    put_answer(text, out, written)
}

/// Puts the canonical encoding of the value of the type at a place that a JSON text tells in `out`, and how many octets
/// it has in `written`. Where `out` is too small, it stays as it is. Answers 0, or the code of a refusal.
#[unsafe(no_mangle)]
pub extern "C" fn per_from_json(
    alloc: Global,
    types: &mut PerTypes,
    options: u32,
    place: usize,
    text: &[u8],
    out: &mut [u8],
    written: &mut usize,
) -> u32
    requires { IsHandle types.old }
    ensures same { Holds types.new types.old.handle.table }
    ensures answered { result ≡ 0 → Puts (IsAnswered FromJson types.old.handle.table options place text.now)
        out.old out.new written.new }
    ensures refused { result ≢ 0 → IsUnputBy (IsAnswered FromJson types.old.handle.table options place text.now)
        (IsUnanswered FromJson types.old.handle.table options place text.now) (length out.old) written.new result }
    ensures kept { result ≢ 0 → out.new ≡ out.old }
{
    let canonical = answer(alloc, Task::FromJson, types, options, place, text);
    put_answer(canonical, out, written)
}

/// How many octets the encoding has, of one value of the type at a place, that octets begin with, in `size`; any
/// others may follow. Answers 0, or the code of a refusal, and then 0 is in `size`.
#[unsafe(no_mangle)]
pub extern "C" fn per_first_length(
    alloc: Global,
    types: &mut PerTypes,
    options: u32,
    place: usize,
    octets: &[u8],
    size: &mut usize,
) -> u32
    requires { IsHandle types.old }
    ensures same { Holds types.new types.old.handle.table }
    ensures found { result ≡ 0 → IsFirstOf types.old.handle.table options place octets.now size.new }
    ensures refused { result ≢ 0 → IsBy (IsUnfirst types.old.handle.table options place octets.now) result }
    ensures none { result ≢ 0 → size.new ≡ 0 }
{
    match first(alloc, types, options, place, octets) {
        Ok(count) => {
            *size = count;
            0
        }
        Err(refusal) => {
            *size = 0;
            refusal.code()
        }
    }
}

/// A bit of octets: of the octet at an index, counted from its first bit, which is the highest.
#[repr(C)]
pub struct PerBit {
    /// How many octets are in front.
    pub octet: usize,
    /// How many bits of its octet do, at most 7.
    pub bit: u32,
}

/// Where octets are refused by the type at a place: the path in `path`, how many octets it has in `written`, and how
/// many bits are in front in `bit`. Where `path` is too small, it stays as it is. Answers 0, or the code of a
/// refusal.
#[unsafe(no_mangle)]
pub extern "C" fn per_refused_at(
    alloc: Global,
    types: &mut PerTypes,
    options: u32,
    place: usize,
    octets: &[u8],
    path: &mut [u8],
    written: &mut usize,
    bit: &mut PerBit,
) -> u32
    requires { IsHandle types.old }
    ensures same { Holds types.new types.old.handle.table }
    ensures put { result ≡ 0 → Puts (λ _. Unit {0}) path.old path.new written.new }
    ensures within { result ≡ 0 → 8 * bit.new.octet + bit.new.bit ≤ 8 * length octets.now }
    ensures bit { result ≡ 0 → bit.new.bit < 8 }
    ensures refused { result ≢ 0 → IsUnputBy (λ _. Unit {0}) (IsUnlocated types.old.handle.table options)
        (length path.old) written.new result }
    ensures kept { result ≢ 0 → path.new ≡ path.old }
{
    match located(alloc, types, options, place, octets) {
        Ok(at) => {
            bit.octet = (at.bit / 8) as usize;
            bit.bit = (at.bit % 8) as u32;
            put_answer(Ok(at.path.into_bytes()), path, written)
        }
        Err(refusal) => put_answer(Err(refusal), path, written),
    }
}

/// Where a text of JSON tells no value of the type at a place: the path in `path`, how many octets it has in `written`,
/// and in `octet` how many octets of the text stand in front of where it stops to be JSON, all of them where it is.
/// Where `path` is too small, it stays as it is. Answers 0, or the code of a refusal.
#[unsafe(no_mangle)]
pub extern "C" fn per_json_refused_at(
    alloc: Global,
    types: &mut PerTypes,
    place: usize,
    text: &[u8],
    path: &mut [u8],
    written: &mut usize,
    octet: &mut usize,
) -> u32
    requires { IsHandle types.old }
    ensures same { Holds types.new types.old.handle.table }
    ensures put { result ≡ 0 → IsPut types.old.handle.table place text.now path.old path.new written.new octet.new }
    ensures within { result ≡ 0 → octet.new ≤ length text.now }
    ensures refused { result ≢ 0 → IsUnputBy (IsPathOf types.old.handle.table place text.now)
        (IsUntold types.old.handle.table) (length path.old) written.new result }
    ensures kept { result ≢ 0 → path.new ≡ path.old }
{
    match text_fault(alloc, types, place, text) {
        Ok(Some(fault)) => {
            *octet = fault.octet.unwrap_or(text.len());
            put_answer(Ok(fault.path.into_bytes()), path, written)
        }
        Ok(None) => {
            *octet = text.len();
            put_answer(Ok(Vec::new(alloc)), path, written)
        }
        Err(refusal) => put_answer(Err(refusal), path, written),
    }
}
