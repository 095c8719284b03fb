//! ENUMERATED and CHOICE by how many items and alternatives there are, and by the place of one (X.691 14, 23). The
//! place of an alternative is known where the CHOICE is opened, so one of the root is written in place.

ghost use Rattle.std.specs.Prelude.{◌≡◌, true, false};
ghost use Rattle.rasn_schema.specs.Enumerations.{items_of};
ghost use Rattle.rasn_traits.specs.Counted.{item_at, stands_in};
ghost use Rattle.per_core.specs.Canon.{canon};
ghost use Rattle.per_write.specs.Faults.{IsMemory};
ghost use Rattle.per_write.specs.WriterState.{PutsIn};
ghost use Rattle.per_enc.specs.Choices.{OpensOrNot};
ghost use Rattle.per_enc.specs.Placed.{ClosesPlaced, OpensPlaced, placed_front};

use crate::choices::{OutsideChoice, open_without_place};
use per_write::error::EncodeError;
use per_write::{OutsideUnplaced, Writer};
use rasn_schema::items::{ItemCounts, Place};
use std::alloc::Allocator;

/// Writes the item of an ENUMERATED that is at a place (X.691 14).
#[inline(always)]
pub fn put_item<A: Allocator + Clone>(
    writer: &mut Writer<A>,
    items: ItemCounts,
    place: Place,
) -> Result<(), EncodeError>
    requires begun { writer.old.failed ≡ false }
    requires there { stands_in items place ≡ true }
    ensures { PutsIn IsMemory (λ a. canon a (items_of items) (item_at place)) writer.old result writer.new }
{
    put_place(writer, items, place)
}

/// Opens a CHOICE to write the alternative at a place: its extension bit and its index are written (X.691 23.5 to
/// 23.8). Answers what waits outside until the CHOICE is closed. The only error is want of memory.
#[inline(always)]
pub fn open_placed<A: Allocator + Clone>(
    writer: &mut Writer<A>,
    alternatives: ItemCounts,
    place: Place,
) -> Result<OutsideChoice<A>, EncodeError>
    requires begun { writer.old.failed ≡ false }
    requires there { stands_in alternatives place ≡ true }
    ensures { OpensOrNot (OpensPlaced alternatives place writer.old) writer.old result writer.new }
{
    put_place(writer, alternatives, place)?;
    match place {
        Place::Root(_) => Ok(OutsideChoice {
            scope: writer.enter_alternative(),
            before: None,
        }),
        Place::Added(_) => open_without_place(writer),
    }
}

/// Closes a CHOICE of which the alternative at its place was written: an added one is put in an open type (X.691 23.8).
/// What waited outside is there again.
#[inline(always)]
pub fn close_placed<A: Allocator + Clone>(
    writer: &mut Writer<A>,
    outside: OutsideChoice<A>,
) -> Result<(), EncodeError>
    requires { writer.old.failed ≡ false }
    ensures { ClosesPlaced outside.before outside.scope writer.old result writer.new }
{
    let OutsideChoice { scope, before } = outside;
    let Some(pieces) = before else {
        writer.leave(scope);
        return Ok(());
    };
    let value = writer.close_unplaced(OutsideUnplaced { pieces, scope });
    writer.put_open_pieces(value)
}

/// Writes the extension bit and the index of what is at a place, of so many: before the extension marker as a
/// constrained whole number, after it as a normally small one.
#[inline(always)]
fn put_place<A: Allocator + Clone>(
    writer: &mut Writer<A>,
    counts: ItemCounts,
    place: Place,
) -> Result<(), EncodeError>
    requires begun { writer.old.failed ≡ false }
    requires there { stands_in counts place ≡ true }
    ensures { PutsIn IsMemory (λ a. placed_front a counts place) writer.old result writer.new }
{
    let marker = counts.addeds.is_some();
    match place {
        Place::Root(index) => {
            writer.put_extension_bit(marker, false)?;
            writer.put_constrained_whole((counts.roots - 1) as u128, index as u128)
        }
        Place::Added(index) => {
            writer.put_extension_bit(marker, true)?;
            writer.put_small(index)
        }
    }
}
