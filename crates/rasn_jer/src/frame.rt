//! Where values are written: one value, the items of an array, or the members of an object.

ghost use Rattle.std.specs.Prelude.{◌≡◌, ◌≢◌, [], drop, length, true, false, IfOk, OnOk};
ghost use Rattle.json.specs.Json.{Members as JsonMembers};
ghost use Rattle.rasn_jer.specs.Names.{names_of, next_name};
ghost use Rattle.rasn_jer.specs.Frames.{Takes, are_done, awaiting_item, behind, due_of, fewer, is_complete, is_done};
ghost use Rattle.rasn_jer.specs.Frames.{is_full};
ghost use Rattle.rasn_jer.specs.Frames.{named_frame, none_due, past_added, past_bit, past_root, vacant_frame};
ghost use Rattle.rasn_jer.specs.Frames.{with_addition, with_group};
ghost use Rattle.rasn_jer.specs.Texts.{members_text};
ghost use Rattle.rasn_jer.specs.declared.frame.Kind.TheVariants.{Members};

use crate::texts::member;
use rasn_schema::fields::Field;
use std::alloc::{AllocError, Allocator};
use std::marker::Model;

/// What a place awaits.
#[derive(Clone, Copy, Debug, PartialEq, Eq)]
pub enum Kind {
    /// One value.
    One,
    /// The items of an array.
    Items,
    /// The members of an object.
    Members,
}

/// Names of a record's components, and which of them is the next: contracts see those that are left.
#[derive(Drop)]
pub struct Names<A: Allocator> {
    list: Vec<&'static str, A>,
    next: usize,
}

impl<A: Allocator> Model for Names<A> {
    ghost use Rattle.std.specs.Prelude.{ℕ, List, drop, map};

    ghost Value = { List (List ℕ) };

    ghost view = { λ names. drop names.next (map (λ s. s.now) names.list.items) };
}

impl<A: Allocator> Names<A> {
    /// No names.
    pub fn none(alloc: A) -> Names<A>
        ensures { result ≡ [] }
    {
        Names {
            list: Vec::new(alloc),
            next: 0,
        }
    }

    /// The names of fields, in their order.
    pub fn of_fields(alloc: A, fields: &[Field]) -> Result<Names<A>, AllocError>
        ensures { IfOk result (λ names. names ≡ names_of fields.now) }
    {
        let mut list = Vec::new(alloc);
        for field in fields {
            list.push(field.name)?;
        }
        Ok(Names { list, next: 0 })
    }

    /// How many are left.
    pub fn left(&self) -> usize
        ensures { result ≡ length self.now }
    {
        self.list.len().saturating_sub(self.next)
    }

    /// The next name, which isn't left then. After the last one, where no component of a lawful type stands, it is
    /// empty.
    pub fn take(&mut self) -> &'static str
        ensures answers { result.now ≡ next_name self.old }
        ensures leaves { self.new ≡ drop 1 self.old }
    {
        match self.list.get(self.next) {
            Some(name) => {
                self.next += 1;
                *name
            }
            None => "",
        }
    }
}

/// What is still to come in a record, or in an array before it is gone on in; none of what came too often.
#[derive(Clone, Copy, Debug)]
pub struct Due {
    /// Components, of which each comes as a value or as a presence bit 0; or items.
    components: Option<usize>,
    /// Presence bits.
    bits: Option<usize>,
    /// Additions.
    additions: Option<usize>,
}

impl Due {
    /// Nothing.
    fn nothing() -> Due
        ensures { result ≡ none_due }
    {
        Due {
            components: Some(0),
            bits: Some(0),
            additions: Some(0),
        }
    }

    /// Whether all came that were to come.
    fn are_done(&self) -> bool
        ensures { result ≡ are_done self.now }
    {
        is_done(self.components) && is_done(self.bits) && is_done(self.additions)
    }
}

/// Whether as many came as were to come.
fn is_done(left: Option<usize>) -> bool
    ensures { result ≡ is_done left }
{
    match left {
        Some(count) => count == 0,
        None => false,
    }
}

/// How many are still to come after the next one; none where it is one too many.
fn fewer(left: Option<usize>) -> Option<usize>
    ensures { result ≡ fewer left }
{
    match left {
        Some(count) => count.checked_sub(1),
        None => None,
    }
}

/// Where values are written, and the text of those that were.
#[derive(Drop)]
pub struct Frame<A: Allocator> {
    kind: Kind,
    is_empty: bool,
    text: Vec<u8, A>,
    root: Names<A>,
    added: Names<A>,
    due: Due,
}

impl<A: Allocator> Model for Frame<A> {
    ghost use Rattle.rasn_jer.specs.Frames.{Frame as ThePlace};

    ghost Value = { ThePlace };

    ghost view = { λ p. record {
      kind = p.kind;
      is_empty = p.is_empty;
      text = p.text.items;
      root = p.root;
      added = p.added;
      due = p.due;
    } };
}

impl<A: Allocator + Copy> Frame<A> {
    /// A place of a kind, without names.
    pub fn new(alloc: A, kind: Kind) -> Frame<A>
        ensures { result ≡ vacant_frame kind }
    {
        let due = Due::nothing();
        Frame::with_names(alloc, kind, Names::none(alloc), Names::none(alloc), due)
    }

    /// A place of members that are named so: those of the root, of which so many have a presence bit, and those of
    /// additions.
    pub fn of_members(alloc: A, root: Names<A>, bits: usize, added: Names<A>) -> Frame<A>
        ensures { result ≡ named_frame Members root added (due_of root bits added) }
    {
        let due = Due {
            components: Some(root.left()),
            bits: Some(bits),
            additions: Some(added.left()),
        };
        Frame::with_names(alloc, Kind::Members, root, added, due)
    }

    /// A place of a kind with names, in which this is to come.
    fn with_names(alloc: A, kind: Kind, root: Names<A>, added: Names<A>, due: Due) -> Frame<A>
        ensures { result ≡ named_frame kind root added due }
    {
        Frame {
            kind,
            is_empty: true,
            text: Vec::new(alloc),
            root,
            added,
            due,
        }
    }

    /// Whether the place is of a kind.
    pub fn is_of(&self, kind: Kind) -> bool
        ensures yes { result ≡ true → self.now.kind ≡ kind }
        ensures no { result ≡ false → self.now.kind ≢ kind }
    {
        match (self.kind, kind) {
            (Kind::One, Kind::One) | (Kind::Items, Kind::Items) | (Kind::Members, Kind::Members) =>
                true,
            _ => false,
        }
    }

    /// Whether no value is awaited: the one value was written.
    pub fn is_full(&self) -> bool
        ensures { result ≡ is_full self.now }
    {
        match self.kind {
            Kind::One => !self.is_empty,
            Kind::Items | Kind::Members => false,
        }
    }

    /// Whether what the place holds is whole: one value, or the items or members that were to come.
    pub fn is_complete(&self) -> bool
        ensures { result ≡ is_complete self.now }
    {
        match self.kind {
            Kind::One => !self.is_empty,
            Kind::Items | Kind::Members => self.due.are_done(),
        }
    }

    /// The text of what was written.
    pub fn text(&self) -> &[u8]
        ensures { result.now ≡ self.now.text }
    {
        self.text.as_slice()
    }

    /// The text of what was written.
    pub fn into_text(self) -> Vec<u8, A>
        ensures { result.items ≡ self.text }
    {
        self.text
    }

    /// Writes the text of a value: of a component after the next name. The only error is want of memory.
    pub fn take(&mut self, text: &[u8]) -> Result<(), AllocError>
        requires { is_full self.old ≡ false }
        ensures { OnOk result (Takes self.old text.now self.new) }
    {
        match self.kind {
            Kind::One => self.append(text),
            Kind::Items => {
                self.due.components = fewer(self.due.components);
                self.append(text)
            }
            Kind::Members => {
                let named = member(*self.text.allocator(), self.take_root(), text)?;
                self.append(named.as_slice())
            }
        }
    }

    /// Writes the text of an addition after the next of their names. The only error is want of memory.
    pub fn add(&mut self, text: &[u8]) -> Result<(), AllocError>
        ensures { OnOk result (self.new ≡ with_addition self.old text.now) }
    {
        let named = member(*self.text.allocator(), self.take_added(), text)?;
        self.append(named.as_slice())
    }

    /// Writes members in place of the next addition. The only error is want of memory.
    pub fn add_all(&mut self, members: &[u8]) -> Result<(), AllocError>
        ensures { (gs : JsonMembers) → members.now ≡ members_text true gs
            → OnOk result (self.new ≡ with_group self.old gs) }
    {
        let _ = self.take_added();
        if members.is_empty() {
            return Ok(());
        }
        self.append(members)
    }

    /// Awaits an item.
    pub fn await_item(&mut self)
        ensures { self.new ≡ awaiting_item self.old }
    {
        self.due.components = Some(1);
    }

    /// Leaves the next component of the root out.
    pub fn skip_root(&mut self)
        ensures { self.new ≡ past_root self.old }
    {
        let _ = self.take_root();
    }

    /// The name of the next component of the root, which comes.
    fn take_root(&mut self) -> &'static str
        ensures answers { result.now ≡ next_name self.old.root }
        ensures leaves { self.new ≡ past_root self.old }
    {
        self.due.components = fewer(self.due.components);
        self.root.take()
    }

    /// The name of the next addition, which comes.
    fn take_added(&mut self) -> &'static str
        ensures answers { result.now ≡ next_name self.old.added }
        ensures leaves { self.new ≡ past_added self.old }
    {
        self.due.additions = fewer(self.due.additions);
        self.added.take()
    }

    /// A presence bit comes.
    pub fn count_bit(&mut self)
        ensures { self.new ≡ past_bit self.old }
    {
        self.due.bits = fewer(self.due.bits);
    }

    /// Leaves the next addition out.
    pub fn skip_added(&mut self)
        ensures { self.new ≡ past_added self.old }
    {
        let _ = self.take_added();
    }

    /// Writes further text after a comma, unless it is the first. The only error is want of memory.
    fn append(&mut self, piece: &[u8]) -> Result<(), AllocError>
        ensures { OnOk result (self.new ≡ behind self.old piece.now) }
    {
        if !self.is_empty {
            self.text.push(b',')?;
        }
        self.text.extend_from_slice(piece)?;
        self.is_empty = false;
        Ok(())
    }
}
