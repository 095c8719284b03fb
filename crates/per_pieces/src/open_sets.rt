//! What is kept of a SET that is open for writing. Its root components are presented in the order of its fields, each
//! is written before its place is known, and when it closes they are put in ascending order of their smallest tags
//! (X.691 21.1).

ghost use Rattle.std.specs.Prelude.{◌≡◌, [], ◌<◌, get_or, length, map, replicate, vec_capacity};
ghost use Rattle.std.specs.Prelude.{IfOk, IfSome, OnErr, OnOk};
ghost use Rattle.rasn_schema.specs.Fields.{shape_of, shapes_from};
ghost use Rattle.rasn_schema.specs.Schemas.{count, Parts};
ghost use Rattle.per_core.specs.PlacedSets.{placed};
ghost use Rattle.per_core.specs.Writers.{just, one_by_one, ◌▹◌};
ghost use Rattle.per_pieces.specs.OpenSets.{are_of, begins, begins_value, bit_writers, closed, in_order, is_of, opened};
ghost use Rattle.per_pieces.specs.OpenSets.{value_writers, with_begun};
ghost use Rattle.per_pieces.specs.Pieces.{Appends, unplaced};

use crate::Pieces;
use rasn_schema::fields::{Field, Fields, Presence};
use std::alloc::{AllocError, Allocator};
use std::marker::Model;
use std::mem;

/// What was written of a root component of a SET.
#[derive(Drop)]
struct Component<A: Allocator> {
    /// Its presence bit (X.691 19.2); none where it has none.
    bit: Option<bool>,
    /// Its value, by itself; nothing where it isn't there.
    value: Pieces<A>,
}

impl<A: Allocator> Model for Component<A> {
    ghost use Rattle.per_pieces.specs.OpenSets.{Component};

    ghost Value = { Component };

    ghost view = { λ a. record { bit = a.bit; value = a.value } };
}

/// The root components of a SET, each as it was written by itself, in the order of its fields.
#[derive(Drop)]
pub struct Components<A: Allocator> {
    list: Vec<Component<A>, A>,
}

impl<A: Allocator> Model for Components<A> {
    ghost use Rattle.std.specs.Prelude.{List};
    ghost use Rattle.per_pieces.specs.OpenSets.{Component};

    ghost Value = { List Component };

    ghost view = { λ a. a.list.items };
}

/// A SET that is open for writing.
#[derive(Drop)]
pub struct OpenSet<A: Allocator> {
    /// What is before the SET.
    outer: Pieces<A>,
    /// The components before the last one begun, in memory for all.
    done: Vec<Component<A>, A>,
    /// The presence bit of the last one begun; nothing where none was begun.
    begun: Option<Option<bool>>,
    /// Whether the presence bit that was given last says that a value follows.
    awaits: bool,
    /// No pieces, whose place isn't known, for each component that is still to be begun.
    spare: Vec<Pieces<A>, A>,
    /// Whether more components were begun than there are, or one while a value was awaited.
    misplaced: bool,
}

impl<A: Allocator> Model for OpenSet<A> {
    ghost use Rattle.std.specs.Prelude.{length, vec_capacity};
    ghost use Rattle.per_pieces.specs.OpenSets.{HasMemory, OpenSet};

    ghost Value = { OpenSet };

    ghost view = { λ a. record {
      outer = a.outer;
      done = a.done.items;
      begun = a.begun;
      awaits = a.awaits;
      room = length a.spare.items;
      misplaced = a.misplaced;
    } };

    ghost invariant = { λ a. HasMemory a.done.items (vec_capacity a.done) a.begun a.spare.items };
}

impl<A: Allocator + Clone> OpenSet<A> {
    /// Opens a SET of so many root components after some pieces, which wait until it closes: what is written from now
    /// on has no place yet. All memory that the SET needs beside its components' pieces is taken here. The only error
    /// is want of memory, and the pieces stay then.
    pub fn open(pieces: &mut Pieces<A>, count: usize) -> Result<Self, AllocError>
        ensures ok { IfOk result
            (λ set. record { set = set; pieces = pieces.new } ≡ opened count pieces.old) }
        ensures err { OnErr result (pieces.new ≡ pieces.old) }
    {
        let done = Vec::with_capacity(pieces.bits().allocator().clone()?, count)?;
        let spare = spare_pieces(pieces.bits().allocator(), count)?;
        let none = Pieces::new_unplaced(pieces.bits().allocator().clone()?)?;
        Ok(OpenSet {
            outer: mem::replace(pieces, none),
            done,
            begun: None,
            awaits: false,
            spare,
            misplaced: false,
        })
    }
}

/// No pieces, whose place isn't known, so many times. The only error is want of memory.
fn spare_pieces<A: Allocator + Clone>(
    alloc: &A,
    count: usize,
) -> Result<Vec<Pieces<A>, A>, AllocError>
    ensures { IfOk result (λ spare. spare.items ≡ replicate count unplaced) }
{
    let mut spare = Vec::with_capacity(alloc.clone()?, count)?;
    while spare.len() < count {
        let none = Pieces::new_unplaced(alloc.clone()?)?;
        spare.push(none)?;
    }
    Ok(spare)
}

impl<A: Allocator> OpenSet<A> {
    /// Begins a further component with its presence bit, if it has one; the pieces of the one before are kept. Takes no
    /// memory. Where all components were begun, or the value of the one before is awaited, the SET is never complete.
    pub fn begin(&mut self, pieces: &mut Pieces<A>, bit: Option<bool>)
        ensures { record { set = self.new; pieces = pieces.new }
            ≡ begins bit (record { set = self.old; pieces = pieces.old }) }
    {
        if self.awaits {
            self.misplaced = true;
            return;
        }
        match self.spare.pop() {
            Some(none) => {
                let value = mem::replace(pieces, none);
                keep(&mut self.done, self.begun, value);
                self.begun = Some(bit);
                self.awaits = bit.unwrap_or(false);
            }
            None => self.misplaced = true,
        }
    }

    /// Begins a value: that of the component whose presence bit was given last, or of a further component that has no
    /// presence bit. Takes no memory.
    pub fn begin_value(&mut self, pieces: &mut Pieces<A>)
        ensures { record { set = self.new; pieces = pieces.new }
            ≡ begins_value (record { set = self.old; pieces = pieces.old }) }
    {
        if self.awaits {
            self.awaits = false;
        } else {
            self.begin(pieces, None);
        }
    }

    /// Closes a SET with some fields: what is before it is there again. Answers its components, and none where the
    /// SET isn't complete: a component for each field, in turn, with a presence bit exactly where it may be absent
    /// (X.691 19.2). Takes no memory.
    pub fn close(self, pieces: &mut Pieces<A>, fields: &Fields) -> Option<Components<A>>
        ensures components { result ≡ closed fields.now (record { set = self; pieces = pieces.old }) }
        ensures outer { pieces.new ≡ self.outer }
    {
        let OpenSet {
            outer,
            mut done,
            begun,
            awaits,
            misplaced,
            ..
        } = self;
        let value = mem::replace(pieces, outer);
        keep(&mut done, begun, value);
        if misplaced || awaits || !are_components_of(fields.list, done.as_slice()) {
            return None;
        }
        Some(Components { list: done })
    }
}

/// Keeps the pieces of the component that was begun, after those before it. Where none was begun they are dropped.
fn keep<A: Allocator>(
    done: &mut Vec<Component<A>, A>,
    begun: Option<Option<bool>>,
    value: Pieces<A>,
)
    requires { IfSome begun (λ _. length done.old.items < vec_capacity done.old) }
    ensures components { done.new.items ≡ with_begun done.old.items begun value }
    ensures capacity { vec_capacity done.new ≡ vec_capacity done.old }
{
    if let Some(bit) = begun {
        done.push_reserved(Component { bit, value });
    }
}

/// Whether there is a component for each field, with a presence bit exactly where it may be absent (X.691 19.2).
fn are_components_of<A: Allocator>(fields: &[Field], components: &[Component<A>]) -> bool
    ensures { result ≡ are_of (map shape_of fields.now) components.now }
{
    if fields.len() != components.len() {
        return false;
    }
    for index in 0..fields.len() {
        if !is_component_of(&fields[index], &components[index]) {
            return false;
        }
    }
    true
}

/// Whether a component has a presence bit exactly where its field may be absent (X.691 19.2).
fn is_component_of<A: Allocator>(field: &Field, component: &Component<A>) -> bool
    ensures { result ≡ is_of (shape_of field.now) component.now }
{
    match field.presence {
        Presence::Required => component.bit.is_none(),
        Presence::Optional | Presence::Default => component.bit.is_some(),
    }
}

/// Appends the root of a SET with some fields: the presence bits of its components, and then their values, both in
/// ascending order of the components' smallest tags (X.691 21.1). The only error is want of memory.
pub fn push_set_root<A: Allocator + Clone>(
    pieces: &mut Pieces<A>,
    fields: &Fields,
    components: &Components<A>,
) -> Result<(), AllocError>
    ensures { (ps : Parts) → fields.now ≡ shapes_from 0 ps → length components.now ≡ count ps
        → OnOk result (Appends pieces.old
        (placed ps (bit_writers components.now) ▹ placed ps (value_writers components.now)) pieces.new) }
{
    let sorted = fields.canonised(pieces.bits().allocator().clone()?)?;
    let ordered = sorted.as_slice();
    let list = components.list.as_slice();
    push_bits(pieces, ordered, list)?;
    push_values(pieces, ordered, list)
}

/// Appends the presence bits of components in the order of some fields.
fn push_bits<A: Allocator>(
    pieces: &mut Pieces<A>,
    fields: &[Field],
    components: &[Component<A>],
) -> Result<(), AllocError>
    ensures { OnOk result
        (Appends pieces.old (one_by_one (in_order fields.now (bit_writers components.now))) pieces.new) }
{
    for field in fields {
        push_bit(pieces, components, field.index)?;
    }
    Ok(())
}

/// Appends the values of components in the order of some fields.
fn push_values<A: Allocator>(
    pieces: &mut Pieces<A>,
    fields: &[Field],
    components: &[Component<A>],
) -> Result<(), AllocError>
    ensures { OnOk result
        (Appends pieces.old (one_by_one (in_order fields.now (value_writers components.now))) pieces.new) }
{
    for field in fields {
        push_value(pieces, components, field.index)?;
    }
    Ok(())
}

/// Appends the presence bit of the component at an index, if it has one.
fn push_bit<A: Allocator>(
    pieces: &mut Pieces<A>,
    components: &[Component<A>],
    index: usize,
) -> Result<(), AllocError>
    ensures { OnOk result (Appends pieces.old (get_or (bit_writers components.now) index (just [])) pieces.new) }
{
    if index >= components.len() {
        return Ok(());
    }
    let component = &components[index];
    match component.bit {
        Some(bit) => pieces.push(bit),
        None => Ok(()),
    }
}

/// Appends the value of the component at an index.
fn push_value<A: Allocator>(
    pieces: &mut Pieces<A>,
    components: &[Component<A>],
    index: usize,
) -> Result<(), AllocError>
    ensures { OnOk result (Appends pieces.old (get_or (value_writers components.now) index (just [])) pieces.new) }
{
    if index >= components.len() {
        return Ok(());
    }
    let component = &components[index];
    pieces.push_pieces(&component.value)
}
