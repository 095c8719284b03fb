//! SEQUENCE OF, whose elements are written one after another from outside (X.691 20).

ghost use Rattle.std.specs.Prelude.{◌≡◌, true, false};
ghost use Rattle.rasn_constraints.specs.Bounds.{allows, any_size};
ghost use Rattle.rasn_constraints.specs.Constraints.{is_marked, size_in};
ghost use Rattle.rasn_schema.specs.Forms.{is_size_marked, size_of};
ghost use Rattle.rasn_traits.specs.Lists.{ClosesList, OpensList};
ghost use Rattle.per_core.specs.Counts.{counted, counted_in, fragment_sizes, in_fragments, list_items};
ghost use Rattle.per_write.specs.Faults.{IsMemory};
ghost use Rattle.per_write.specs.Lists.{IsOpenList, BeginsItems, EntersItems, NextElement, RefusesCount, count_left};
ghost use Rattle.per_write.specs.Rules.{encoder_rules};

use crate::Writer;
use crate::error::{EncodeError, EncodeErrorKind};
use per_core::lengths::{FRAGMENT, constrained_bounds};
use rasn_constraints::sizes::OutOfSize;
use rasn_schema::constraints::{Bounded, Extensible};
use rasn_schema::schema::Constraints;
use std::alloc::Allocator;

/// What is left of an open list.
#[derive(Drop)]
pub struct UnwrittenElements {
    // How many elements of the open fragment are still to be written.
    fragment: usize,
    // How many elements are after it, in fragments of their own; none where it is the last.
    behind: Option<usize>,
    // Whether anything was open around the list.
    around: bool,
}

impl UnwrittenElements {
    /// How many elements are still to be written.
    pub fn count_left(&self) -> u128
        ensures { result ≡ count_left self.now }
    {
        self.fragment as u128 + self.behind.unwrap_or(0) as u128
    }
}

/// Opens a SEQUENCE OF so many elements under constraints (X.691 20): writes what is in front of the first.
pub fn open_list<A: Allocator + Clone>(
    writer: &mut Writer<A>,
    constraints: &Constraints,
    count: usize,
) -> Result<UnwrittenElements, EncodeError>
    requires { writer.old.failed ≡ false }
    ensures { OpensList encoder_rules IsOpenList (size_of constraints.now) (is_size_marked constraints.now) count
        writer.old result writer.new }
{
    begin_list(writer, constraints.size(), count)
}

/// Opens a list of so many elements under a size constraint (X.691 20): writes what is in front of the first.
pub fn begin_list<A: Allocator + Clone>(
    writer: &mut Writer<A>,
    size: Option<Extensible<Bounded<usize>>>,
    count: usize,
) -> Result<UnwrittenElements, EncodeError>
    requires { writer.old.failed ≡ false }
    ensures { EntersItems (RefusesCount (size_in size) (is_marked size) count)
        (λ a ws. counted a (size_in size) (is_marked size) list_items ws) count writer.old result writer.new }
{
    let around = writer.set_open(true);
    begin_counted(writer, size, count, around)
}

/// Goes on to the next element: where a fragment begins, its length is written. Where no element is left it
/// refuses.
#[inline(always)]
pub fn next_element<A: Allocator + Clone>(
    writer: &mut Writer<A>,
    list: &mut UnwrittenElements,
) -> Result<(), EncodeError>
    requires { writer.old.failed ≡ false }
    ensures { NextElement list.old writer.old result list.new writer.new }
{
    if list.fragment == 0 {
        *list = begin_fragment(writer, list.behind.unwrap_or(0), list.around)?;
    }
    match list.fragment.checked_sub(1) {
        Some(left) => {
            list.fragment = left;
            Ok(())
        }
        None => Err(writer.refuse(EncodeErrorKind::OutOfTurn)),
    }
}

/// Closes a list: after fragments of 16384 elements or more a last length is written, which is zero. What was open
/// around it is open still. Where an element is left it refuses.
pub fn close_list<A: Allocator + Clone>(
    writer: &mut Writer<A>,
    list: UnwrittenElements,
) -> Result<(), EncodeError>
    requires { writer.old.failed ≡ false }
    ensures { ClosesList encoder_rules IsOpenList list writer.old result writer.new }
{
    if list.count_left() > 0 {
        return Err(writer.refuse(EncodeErrorKind::OutOfTurn));
    }
    writer.set_open(list.around);
    match list.behind {
        Some(count) => writer.put_unconstrained_length(count),
        None => Ok(()),
    }
}

/// Writes what is in front of elements under a size constraint: where the constraint is extensible, a bit that
/// says whether their count is outside; and their count (X.691 20.4).
fn begin_counted<A: Allocator + Clone>(
    writer: &mut Writer<A>,
    size: Option<Extensible<Bounded<usize>>>,
    count: usize,
    around: bool,
) -> Result<UnwrittenElements, EncodeError>
    requires { writer.old.failed ≡ false }
    ensures { BeginsItems (RefusesCount (size_in size) (is_marked size) count)
        (λ a ws. counted a (size_in size) (is_marked size) list_items ws) count around
        writer.old result writer.new }
{
    let stated = size.unwrap_or(Extensible::new(Bounded::None));
    let (lower, upper) = stated.constraint.start_and_end();
    match (stated.constraint.contains(&count), stated.extensible) {
        (true, false) => begin_sized(writer, lower, upper, count, around),
        (true, true) => {
            writer.put_bit(false)?;
            begin_sized(writer, lower, upper, count, around)
        }
        (false, true) => {
            writer.put_bit(true)?;
            begin_fragment(writer, count, around)
        }
        (false, false) => {
            let told = OutOfSize {
                size: count,
                lower,
                upper,
            };
            let kind = EncodeErrorKind::SizeConstraintNotSatisfied(told);
            Err(writer.refuse(kind))
        }
    }
}

/// Writes a count that is within bounds, in the form that these give it (X.691 11.9.3.3, 11.9.4.1), or that of the
/// first fragment.
fn begin_sized<A: Allocator + Clone>(
    writer: &mut Writer<A>,
    lower: Option<usize>,
    upper: Option<usize>,
    count: usize,
    around: bool,
) -> Result<UnwrittenElements, EncodeError>
    requires begun { writer.old.failed ≡ false }
    requires within { allows (record { least = lower; most = upper }) count ≡ true }
    ensures { BeginsItems IsMemory (λ a ws. counted_in a (record { least = lower; most = upper }) list_items ws)
        count around writer.old result writer.new }
{
    match constrained_bounds(lower, upper) {
        Some((lower, upper)) => {
            writer.put_constrained_length(lower, upper, count, false)?;
            Ok(UnwrittenElements {
                fragment: count,
                behind: None,
                around,
            })
        }
        None => begin_fragment(writer, count, around),
    }
}

/// Writes the length of the next fragment of so many elements (X.691 11.9.3.5 to 11.9.3.8): as large as it may be. What
/// the call answers has its room here, so that a caller needs none amid a fragment.
#[inline(always)]
fn begin_fragment<A: Allocator + Clone>(
    writer: &mut Writer<A>,
    count: usize,
    around: bool,
) -> Result<UnwrittenElements, EncodeError>
    requires { writer.old.failed ≡ false }
    ensures { BeginsItems IsMemory (λ a ws. in_fragments a (fragment_sizes count) ws)
        count around writer.old result writer.new }
{
    begin_largest_fragment(writer, count, around)
}

/// The same, as a call of its own.
#[inline(never)]
fn begin_largest_fragment<A: Allocator + Clone>(
    writer: &mut Writer<A>,
    count: usize,
    around: bool,
) -> Result<UnwrittenElements, EncodeError>
    requires { writer.old.failed ≡ false }
    ensures { BeginsItems IsMemory (λ a ws. in_fragments a (fragment_sizes count) ws)
        count around writer.old result writer.new }
{
    if count < FRAGMENT {
        writer.put_unconstrained_length(count)?;
        return Ok(UnwrittenElements {
            fragment: count,
            behind: None,
            around,
        });
    }
    let fragment = count.min(4 * FRAGMENT) / FRAGMENT * FRAGMENT;
    writer.put_unconstrained_length(fragment)?;
    Ok(UnwrittenElements {
        fragment,
        behind: Some(count - fragment),
        around,
    })
}
