//! What encloses the values that are written: a scope of which the components are counted, or a SET (X.691 21) of which
//! the root components are presented in the order of its fields, each is written before its place is known, and they
//! are put in ascending order of their smallest tags where the SET is closed.

ghost use Rattle.std.specs.Prelude.{◌≡◌, false, IfOk};
ghost use Rattle.per_write.specs.Components.{begun_within, noted, OpensComponents, PutsComponents};

use crate::Writer;
use crate::error::{EncodeError, EncodeErrorKind};
use per_pieces::enclosing::{Enclosed, EnclosingSet};
use per_pieces::open_sets::{OpenSet, push_set_root};
use rasn_schema::fields::Fields;
use std::alloc::{AllocError, Allocator};

impl<A: Allocator + Clone> Writer<A> {
    /// Opens a SET of so many root components. What was written so far is before it, and what follows has no place
    /// yet. All memory that the SET needs beside its components is taken here.
    pub fn open_components(&mut self, count: usize) -> Result<EnclosingSet<A>, EncodeError>
        requires { self.old.failed ≡ false }
        ensures { OpensComponents count self.old result self.new }
    {
        let alloc = self.allocator()?;
        let set = OpenSet::open(&mut self.pieces, count);
        let set = self.unless_out_of_memory(set)?;
        let boxed = boxed(alloc, set);
        let boxed = self.unless_out_of_memory(boxed)?;
        Ok(EnclosingSet {
            inner: Enclosed::Gathered(boxed),
        })
    }

    /// Begins a value, which is that of a component: it is counted, or gathered. Takes no memory.
    #[inline(always)]
    pub fn note_value(&mut self, set: &mut EnclosingSet<A>)
        ensures { record { writer = self.new; set = set.new } ≡ noted set.old self.old }
    {
        if !set.is_uncounted() {
            self.note_enclosed(set);
        }
    }

    /// The same, where something may be counted or gathered.
    #[inline(never)]
    fn note_enclosed(&mut self, set: &mut EnclosingSet<A>)
        ensures { record { writer = self.new; set = set.new } ≡ noted set.old self.old }
    {
        match &mut set.inner {
            Enclosed::Gathered(open) => open.begin_value(&mut self.pieces),
            _ => set.count(),
        }
    }

    /// Begins a component with its presence bit (X.691 19.2): one of a SET is gathered, and of others one that is left
    /// out is counted. Takes no memory.
    pub fn begin_component(&mut self, set: &mut EnclosingSet<A>, is_there: bool)
        ensures { record { writer = self.new; set = set.new } ≡ begun_within is_there set.old self.old }
    {
        match &mut set.inner {
            Enclosed::Gathered(open) => open.begin(&mut self.pieces, Some(is_there)),
            _ => {
                if !is_there {
                    set.count();
                }
            }
        }
    }

    /// Puts the components of an open SET with some fields after what is before it, in ascending order of their
    /// smallest tags: their presence bits, and then their values. Where the SET isn't complete it refuses.
    pub fn put_components(&mut self, set: OpenSet<A>, fields: &Fields) -> Result<(), EncodeError>
        requires { self.old.failed ≡ false }
        ensures { PutsComponents fields.now set self.old result self.new }
    {
        let Some(components) = set.close(&mut self.pieces, fields) else {
            return Err(self.refuse(EncodeErrorKind::OutOfTurn));
        };
        let pushed = push_set_root(&mut self.pieces, fields, &components);
        self.unless_out_of_memory(pushed)
    }
}

/// The box of a value. The only error is want of memory.
fn boxed<A: Allocator, T: Drop>(alloc: A, value: T) -> Result<Box<T, A>, AllocError>
    ensures { IfOk result (λ b. b.value ≡ value) }
{
    let boxed = Box::new(alloc, value)?;
    Ok(boxed)
}
