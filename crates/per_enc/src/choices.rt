//! CHOICE (X.691 23). Where there are added alternatives, or more than 65536 root ones, which one was written, and so
//! what is in front of it, is known after it alone: it is written before its place is known.

ghost use Rattle.std.specs.Prelude.{◌≡◌, nat_lt, Some, None, true, false};
ghost use Rattle.rasn_types.specs.Variants.{variant_of};
ghost use Rattle.rasn_schema.specs.declared.items.Place.TheVariants.{Root, Added};
ghost use Rattle.per_pieces.specs.Pieces.{writer_of};
ghost use Rattle.per_enc.specs.Choices.{ClosesChoiceOf, ClosesInPlace, KnowsPlace, OpensChoiceOf, OpensUnplaced};
ghost use Rattle.per_enc.specs.Choices.{OpensInPlace, OpensOrNot, PutsWhere, is_among, keeps_room};
ghost use Rattle.per_enc.specs.Choices.{placed_alternative, restored};
ghost use Rattle.per_write.specs.Faults.{IsMemory};
ghost use Rattle.per_write.specs.WriterState.{PutsIn, view};

use per_pieces::Pieces;
use per_write::error::{EncodeError, EncodeErrorKind};
use per_write::{Frame, OutsideUnplaced, Writer};
use rasn_schema::items::Place;
use std::alloc::Allocator;
use std::marker::Model;

/// What waits outside of a CHOICE until it is closed.
#[derive(Drop)]
pub struct OutsideChoice<A: Allocator + Clone> {
    /// What was open.
    pub(crate) scope: Frame<A>,
    /// What was written before, where the alternative that is written has no place yet.
    pub(crate) before: Option<Pieces<A>>,
}

impl<A: Allocator + Clone> Model for OutsideChoice<A> {
    ghost use Rattle.per_enc.specs.Choices.{OutsideChoice};

    ghost Value = { OutsideChoice };

    ghost view = { λ a. record { scope = a.scope; before = a.before } };
}

/// Opens a CHOICE of so many root alternatives, and, where it has an extension marker, of so many added ones.
/// Answers what waits outside until the CHOICE is closed. The only error is want of memory.
#[inline(always)]
pub fn open_choice<A: Allocator + Clone>(
    writer: &mut Writer<A>,
    roots: usize,
    added: Option<usize>,
) -> Result<OutsideChoice<A>, EncodeError>
    requires { writer.old.failed ≡ false }
    ensures { OpensOrNot (OpensChoiceOf roots added writer.old) writer.old result writer.new }
{
    if !keeps_room(roots, added) {
        return open_without_place(writer);
    }
    open_in_place(writer, roots, added.is_some())
}

/// Whether room is kept for the index of a CHOICE: it has no added alternatives, and no more root ones than have an
/// index whose length doesn't go by the index (X.691 11.5.7.4).
fn keeps_room(roots: usize, added: Option<usize>) -> bool
    ensures { result ≡ keeps_room roots added }
{
    roots <= 65536 && added.unwrap_or(0) == 0
}

/// Closes a CHOICE of so many root alternatives, with an extension marker or without, by where the one that was written
/// stands: its extension bit and its index are known now, and a value without a place is put after them, that of an
/// added alternative in an open type (X.691 23.5 to 23.8). What waited outside is there again. An added alternative
/// that was written in place is refused, and so is, for a value without a place, a root one that isn't there.
#[inline(always)]
pub fn close_choice<A: Allocator + Clone>(
    writer: &mut Writer<A>,
    marker: bool,
    roots: usize,
    place: Place,
    outside: OutsideChoice<A>,
) -> Result<(), EncodeError>
    requires { writer.old.failed ≡ false }
    ensures { ClosesChoiceOf marker roots place outside writer.old result writer.new }
{
    let OutsideChoice { scope, before } = outside;
    match before {
        Some(pieces) => close_without_place(
            writer,
            marker,
            roots,
            place,
            OutsideUnplaced { pieces, scope },
        ),
        None => close_in_place(writer, roots, place, scope),
    }
}

/// Where the alternative stands that goes by a tag; where none does, the tag is none of the CHOICE's, and this
/// refuses. Takes no memory.
pub fn checked_place<A: Allocator + Clone>(
    writer: &mut Writer<A>,
    place: Option<Place>,
) -> Result<Place, EncodeError>
    requires { writer.old.failed ≡ false }
    ensures { KnowsPlace place writer.old result writer.new }
{
    match place {
        Some(place) => Ok(place),
        None => Err(writer.refuse(EncodeErrorKind::VariantNotInChoice)),
    }
}

/// Opens a CHOICE of root alternatives alone: room is made for the index, after the extension bit where there is a
/// marker.
fn open_in_place<A: Allocator + Clone>(
    writer: &mut Writer<A>,
    roots: usize,
    marker: bool,
) -> Result<OutsideChoice<A>, EncodeError>
    requires { writer.old.failed ≡ false }
    ensures { OpensOrNot (OpensInPlace marker roots writer.old) writer.old result writer.new }
{
    writer.put_extension_bit(marker, false)?;
    let scope = writer.open_index(roots)?;
    Ok(OutsideChoice {
        scope,
        before: None,
    })
}

/// Opens a CHOICE without room for its index: the alternative that is written has no place yet.
#[inline(always)]
pub(crate) fn open_without_place<A: Allocator + Clone>(
    writer: &mut Writer<A>,
) -> Result<OutsideChoice<A>, EncodeError>
    requires { writer.old.failed ≡ false }
    ensures { OpensOrNot (OpensUnplaced writer.old) writer.old result writer.new }
{
    let OutsideUnplaced { pieces, scope } = writer.open_unplaced()?;
    Ok(OutsideChoice {
        scope,
        before: Some(pieces),
    })
}

/// Closes a CHOICE whose alternative was written in place. An added one is refused.
fn close_in_place<A: Allocator + Clone>(
    writer: &mut Writer<A>,
    roots: usize,
    place: Place,
    outside: Frame<A>,
) -> Result<(), EncodeError>
    requires { writer.old.failed ≡ false }
    ensures { ClosesInPlace roots place outside writer.old result writer.new }
{
    match place {
        Place::Root(index) => writer.close_index(roots, index, outside),
        Place::Added(_) => Err(writer.refuse(EncodeErrorKind::OutOfTurn)),
    }
}

/// Closes a CHOICE whose alternative was written before its place was known.
#[inline(always)]
fn close_without_place<A: Allocator + Clone>(
    writer: &mut Writer<A>,
    marker: bool,
    roots: usize,
    place: Place,
    waiting: OutsideUnplaced<A>,
) -> Result<(), EncodeError>
    requires { writer.old.failed ≡ false }
    ensures { PutsWhere (is_among roots place)
        (placed_alternative (variant_of writer.old.codec) marker roots place (view writer.old))
        (restored writer.old waiting.pieces waiting.scope) result writer.new }
{
    let value = writer.close_unplaced(waiting);
    match place {
        Place::Root(index) => put_root_alternative(writer, marker, roots, index, &value),
        Place::Added(index) => put_added_alternative(writer, index, value),
    }
}

/// Writes a root alternative of a CHOICE, with an extension marker or without (X.691 23.5 to 23.7). One that isn't
/// there is refused.
#[inline(always)]
fn put_root_alternative<A: Allocator + Clone>(
    writer: &mut Writer<A>,
    marker: bool,
    roots: usize,
    index: usize,
    value: &Pieces<A>,
) -> Result<(), EncodeError>
    requires { writer.old.failed ≡ false }
    ensures { PutsWhere (nat_lt index roots)
        (placed_alternative (variant_of writer.old.codec) marker roots (Root index) (writer_of value.now.list))
        writer.old result writer.new }
{
    if index >= roots {
        return Err(writer.refuse(EncodeErrorKind::OutOfTurn));
    }
    writer.put_extension_bit(marker, false)?;
    writer.put_constrained_whole((roots - 1) as u128, index as u128)?;
    writer.put_pieces(value)
}

/// Writes an added alternative of a CHOICE (X.691 23.5, 23.8): its value is in an open type.
fn put_added_alternative<A: Allocator + Clone>(
    writer: &mut Writer<A>,
    index: usize,
    value: Pieces<A>,
) -> Result<(), EncodeError>
    requires { writer.old.failed ≡ false }
    ensures { PutsIn IsMemory (λ a. placed_alternative a true 0 (Added index) (writer_of value.list))
        writer.old result writer.new }
{
    writer.put_extension_bit(true, true)?;
    writer.put_small(index)?;
    writer.put_open_pieces(value)
}
