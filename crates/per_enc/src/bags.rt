//! SET OF (ITU-T X.691 22), whose members are written one after another from outside, each before its place is known,
//! and stand in ascending order of their complete encodings.

ghost use Rattle.std.specs.Prelude.{◌≡◌, ◌<◌, ◌≤◌, false, length, true};
ghost use Rattle.rasn_schema.specs.Forms.{is_size_marked, size_of};
ghost use Rattle.rasn_traits.specs.Bags.{ClosesBag};
ghost use Rattle.per_enc.specs.Members.{writers_of};
ghost use Rattle.per_enc.specs.Bags.{BeginsBag, IsOpenBag, KeepsMember, NextMember, PutsMembers};
ghost use Rattle.per_write.specs.Lists.{count_left};
ghost use Rattle.per_write.specs.Rules.{encoder_rules};

use crate::members::Members;
use per_write::error::{EncodeError, EncodeErrorKind};
use per_write::lists::{UnwrittenElements, begin_list, close_list, next_element};
use per_write::{OutsideUnplaced, Writer};
use rasn_schema::schema::Constraints;
use std::alloc::Allocator;
use std::marker::Model;

/// What is kept of an open SET OF.
#[derive(Drop)]
pub struct OpenBag<A: Allocator + Clone> {
    /// The list that the members are to be in.
    list: UnwrittenElements,
    /// The members that were written.
    members: Members<A>,
    /// What waits outside, once a member is begun.
    waiting: Option<OutsideUnplaced<A>>,
}

impl<A: Allocator + Clone> Model for OpenBag<A> {
    ghost use Rattle.per_enc.specs.Bags.{OpenBag};

    ghost Value = { OpenBag };

    ghost view = { λ a. record { list = a.list; members = a.members; waiting = a.waiting } };
}

impl<A: Allocator + Clone> OpenBag<A> {
    /// Opens a SET OF so many members under constraints (X.691 22): writes what is in front of the first.
    pub fn open(
        writer: &mut Writer<A>,
        constraints: &Constraints,
        count: usize,
    ) -> Result<Self, EncodeError>
        requires { writer.old.failed ≡ false }
        ensures { BeginsBag (size_of constraints.now) (is_size_marked constraints.now) count
            writer.old result writer.new }
    {
        let alloc = writer.allocator()?;
        let list = begin_list(writer, constraints.size(), count)?;
        Ok(OpenBag {
            list,
            members: Members::new(alloc),
            waiting: None,
        })
    }

    /// Goes on to the next member, which is written before its place is known. Where all were written it refuses.
    pub fn next_member(&mut self, writer: &mut Writer<A>) -> Result<(), EncodeError>
        requires { writer.old.failed ≡ false }
        ensures { NextMember self.old writer.old result self.new writer.new }
    {
        self.keep_member(writer)?;
        if self.has_all() {
            return Err(writer.refuse(EncodeErrorKind::OutOfTurn));
        }
        let waiting = writer.open_unplaced()?;
        self.waiting = Some(waiting);
        Ok(())
    }

    /// Closes a SET OF of which all members were written: they are put in ascending order of their complete encodings.
    /// Where a member is left it refuses.
    pub fn close(mut self, writer: &mut Writer<A>) -> Result<(), EncodeError>
        requires { writer.old.failed ≡ false }
        ensures { ClosesBag encoder_rules IsOpenBag self writer.old result writer.new }
    {
        self.keep_member(writer)?;
        if !self.has_all() {
            return Err(writer.refuse(EncodeErrorKind::OutOfTurn));
        }
        let sorted = self.members.sort();
        writer.unless_out_of_memory(sorted)?;
        let OpenBag { list, members, .. } = self;
        put_members(writer, list, &members)
    }

    /// Whether all members were written and kept.
    fn has_all(&self) -> bool
        ensures all { result ≡ true → count_left self.now.list ≤ length self.now.members }
        ensures some { result ≡ false → length self.now.members < count_left self.now.list }
    {
        self.list.count_left() <= self.members.len() as u128
    }

    /// Keeps the member that was begun, if one was: what waited is there again.
    fn keep_member(&mut self, writer: &mut Writer<A>) -> Result<(), EncodeError>
        requires { writer.old.failed ≡ false }
        ensures { KeepsMember self.old writer.old result self.new writer.new }
    {
        if let Some(waiting) = self.waiting.take() {
            let pieces = writer.close_unplaced(waiting);
            let pushed = self.members.push(pieces);
            writer.unless_out_of_memory(pushed)?;
        }
        Ok(())
    }
}

/// Writes the members of a list that was opened, one after another, and closes it.
fn put_members<A: Allocator + Clone>(
    writer: &mut Writer<A>,
    mut list: UnwrittenElements,
    members: &Members<A>,
) -> Result<(), EncodeError>
    requires { writer.old.failed ≡ false }
    ensures { PutsMembers (writers_of members.now) list writer.old result writer.new }
{
    for place in 0..members.len() {
        next_element(writer, &mut list)?;
        writer.put_pieces(members.at(place))?;
    }
    close_list(writer, list)
}
