//! A table of types behind a pointer that C has.
ghost use Rattle.std.specs.Coded.{coded_option};
ghost use Rattle.std.specs.Prelude.{◌≡◌, Some, None, Option};
ghost use Rattle.per_c.specs.contracts.handle.Table.{the_row as table_row};
ghost use Rattle.per_c.specs.Handles.{IsHeld, may_own};
ghost use Rattle.per_c.specs.declared.handle.Table.{Table as a_table};

use crate::loose::Loose;
use rasn_dynamic::types::Types;
use std::alloc::Global;
use std::marker::Model;
use std::sync::Arc;

/// A table of types, which several handles may have.
#[derive(Drop)]
pub struct Table {
    /// The table.
    pub types: Arc<Types>,
}

/// A pointer to a table, which it owns, or none. It has to be taken apart: nothing else frees the table.
#[repr(C)]
pub struct Handle {
    at: *mut u8,
    alloc: Global,
    /// The table.
    pub ghost table: { Option a_table } by { coded_option table_row.coded },
}

impl Model for Handle {
    ghost also_owns = { λ h. may_own h.alloc h.at h.table };
}

/// A thread may pass a handle on to another, since threads may share a table.
unsafe impl Send for Handle {}

impl Handle {
    /// A handle of no table.
    pub fn none(alloc: Global) -> Handle
        ensures { result.table ≡ None }
    {
        Handle {
            at: std::ptr::null_mut(),
            alloc,
        }
    }

    /// The handle of a table.
    pub fn of(table: Loose<Table, Global>) -> Handle
        ensures { result.table ≡ Some table.value }
    {
        let Loose { at, alloc } = table;
        Handle {
            at: at as *mut u8,
            alloc,
        }
    }

    /// The table of a handle that has one.
    pub fn into_loose(self) -> Loose<Table, Global>
        requires { IsHeld self.table }
        ensures { self.table ≡ Some result.value }
    {
        let Handle { at, alloc } = self;
        Loose {
            at: at as *mut Table,
            alloc,
        }
    }

    /// Lets go of a handle of no table.
    pub fn end(self)
        requires { self.table ≡ None }
        ensures { self.table ≡ None }
    {
        let Handle { at: _, alloc: _ } = self;
    }
}
