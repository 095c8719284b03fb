//! Handles of tables of types, and what is answered by them.

ghost use Rattle.std.specs.Prelude.{◌≡◌, ◌≤◌, ◌*◌, ◌⊎◌, IfOk, IfErr, None, Some, length};
ghost use Rattle.std.specs.Arc.{arc_value};
ghost use Rattle.per_messages.specs.Messages.{AreWithoutFirst, IsFirst};
ghost use Rattle.per_c.specs.Tables.{Answers, Holds, IsAnswered, IsFirstOf, IsHandle, IsRefusal, IsTable};
ghost use Rattle.per_c.specs.Tables.{IsTextFault, IsUnanswered, IsUnfirst, IsUnlocated, IsUntold, Refuses};

use crate::handle::{Handle, Table};
use crate::loose::Loose;
use crate::refusal::Refusal;
use crate::request::codec_of;
use per_dynamic::located::{RefusedAt, refused_at};
use per_messages::calls::{first_length, make, recode, show};
use per_messages::located::{Fault, from_json_located};
use rasn_dynamic::types::Types;
use rasn_dynamic_jer::from_json_error::FromJsonError;
use rasn_types::types::Codec;
use std::alloc::Global;
use std::mem;

/// A handle as C has it: whether it holds a table, and which.
#[repr(C)]
pub struct PerTypes {
    /// The table.
    pub handle: Handle,
    /// Whether there is one.
    pub is_loaded: bool,
}

/// What is done with a message.
#[derive(Clone, Copy)]
pub enum Task {
    /// Octets are read, and written as the canonical ones.
    Recode,
    /// Octets are read, and shown as JSON.
    ToJson,
    /// JSON is read, and written as the canonical octets.
    FromJson,
}

impl PerTypes {
    /// A handle of no table.
    pub fn none(alloc: Global) -> PerTypes
        ensures { Holds result None }
    {
        PerTypes {
            handle: Handle::none(alloc),
            is_loaded: false,
        }
    }

    /// The handle of a table.
    fn of(table: Box<Table>) -> PerTypes
        ensures { Holds result (Some table.value) }
    {
        PerTypes {
            handle: Handle::of(Loose::of(table)),
            is_loaded: true,
        }
    }

    /// The table of a handle.
    pub fn into_table(self) -> Option<Box<Table>>
        requires { IsHandle self }
        ensures { IsTable self.handle.table result }
    {
        let PerTypes { handle, is_loaded } = self;
        if is_loaded {
            Some(handle.into_loose().into_box())
        } else {
            handle.end();
            None
        }
    }

    /// Lets go of a handle of no table.
    fn end(self)
        requires { Holds self None }
    {
        let PerTypes {
            handle,
            is_loaded: _,
        } = self;
        handle.end();
    }

    /// Puts a table in a handle of none.
    pub fn put(&mut self, table: Box<Table>)
        requires { Holds self.old None }
        ensures { Holds self.new (Some table.value) }
    {
        mem::replace(self, PerTypes::of(table)).end();
    }
}

/// What is answered to a message, by the type at a place of a handle's table, which stays in it.
pub fn answer(
    alloc: Global,
    task: Task,
    types: &mut PerTypes,
    options: u32,
    place: usize,
    given: &[u8],
) -> Result<Vec<u8>, Refusal>
    requires { IsHandle types.old }
    ensures same { Holds types.new types.old.handle.table }
    ensures ok { IfOk result (λ found. IsAnswered task types.old.handle.table options place given.now found.items) }
    ensures err { IfErr result (IsUnanswered task types.old.handle.table options place given.now) }
{
    let codec = codec_of(options).ok_or(Refusal::UnknownOptions)?;
    let held = mem::replace(types, PerTypes::none(alloc));
    let Some(table) = held.into_table() else {
        return Err(Refusal::NoTypes);
    };
    let found = answer_by(alloc, task, &table.types, codec, place, given);
    types.put(table);
    found
}

/// What is answered to a message, by the type at a place of a table.
fn answer_by(
    alloc: Global,
    task: Task,
    types: &Types,
    codec: Codec,
    place: usize,
    given: &[u8],
) -> Result<Vec<u8>, Refusal>
    ensures ok { IfOk result (λ found. Answers task types.now codec place given.now found.items) }
    ensures err { IfErr result (IsRefusal (Refuses task types.now codec place given.now)) }
{
    match task {
        Task::Recode => Ok(recode(alloc, codec, types, place, given)?),
        Task::ToJson => Ok(show(alloc, codec, types, place, given)?),
        Task::FromJson => Ok(make(alloc, codec, types, place, given)?),
    }
}

/// How many octets the encoding has that octets begin with, by the type at a place of a handle's table, which stays in
/// it.
pub fn first(
    alloc: Global,
    types: &mut PerTypes,
    options: u32,
    place: usize,
    octets: &[u8],
) -> Result<usize, Refusal>
    requires { IsHandle types.old }
    ensures same { Holds types.new types.old.handle.table }
    ensures ok { IfOk result (IsFirstOf types.old.handle.table options place octets.now) }
    ensures err { IfErr result (IsUnfirst types.old.handle.table options place octets.now) }
{
    let codec = codec_of(options).ok_or(Refusal::UnknownOptions)?;
    let held = mem::replace(types, PerTypes::none(alloc));
    let Some(table) = held.into_table() else {
        return Err(Refusal::NoTypes);
    };
    let found = first_by(alloc, &table.types, codec, place, octets);
    types.put(table);
    found
}

/// How many octets the encoding has that octets begin with, by the type at a place of a table.
fn first_by(
    alloc: Global,
    types: &Types,
    codec: Codec,
    place: usize,
    octets: &[u8],
) -> Result<usize, Refusal>
    ensures ok { IfOk result (IsFirst types.now codec place octets.now) }
    ensures err { IfErr result (IsRefusal (AreWithoutFirst types.now codec place octets.now)) }
{
    Ok(first_length(alloc, codec, types, place, octets)?)
}

/// Where octets are refused by the type at a place of a handle's table, which stays in it.
pub fn located(
    alloc: Global,
    types: &mut PerTypes,
    options: u32,
    place: usize,
    octets: &[u8],
) -> Result<RefusedAt, Refusal>
    requires { IsHandle types.old }
    ensures same { Holds types.new types.old.handle.table }
    ensures ok { IfOk result (λ at. at.bit ≤ 8 * length octets.now) }
    ensures err { IfErr result (IsUnlocated types.old.handle.table options) }
{
    let codec = codec_of(options).ok_or(Refusal::UnknownOptions)?;
    let held = mem::replace(types, PerTypes::none(alloc));
    let Some(table) = held.into_table() else {
        return Err(Refusal::NoTypes);
    };
    let found = refused_at(alloc, codec, &table.types, place, octets);
    types.put(table);
    match found {
        Ok(at) => Ok(at),
        Err(_) => Err(Refusal::OutOfMemory),
    }
}

/// Where a text of JSON tells no value of the type at a place of a handle's table, which stays in it; none where it
/// tells one.
pub fn text_fault(
    alloc: Global,
    types: &mut PerTypes,
    place: usize,
    text: &[u8],
) -> Result<Option<Fault>, Refusal>
    requires { IsHandle types.old }
    ensures same { Holds types.new types.old.handle.table }
    ensures ok { IfOk result (IsTextFault types.old.handle.table place text.now) }
    ensures err { IfErr result (IsUntold types.old.handle.table) }
{
    let held = mem::replace(types, PerTypes::none(alloc));
    let Some(table) = held.into_table() else {
        return Err(Refusal::NoTypes);
    };
    let found = from_json_located(alloc, &table.types, place, text);
    types.put(table);
    match found {
        Ok(_) => Ok(None),
        Err(fault) => match fault.error {
            FromJsonError::OutOfMemory => Err(Refusal::OutOfMemory),
            _ => Ok(Some(fault)),
        },
    }
}
