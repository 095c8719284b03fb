//! Items under a size constraint (X.691 11.9.3.3, 11.9.4, 16, 17, 20 and 30.5).

ghost use Rattle.std.specs.Prelude.{◌≡◌, ◌≤◌, ◌↔◌, IsTrue, length, false};
ghost use Rattle.rasn_types.specs.declared.types.Codec.TheVariants.{Uper};
ghost use Rattle.rasn_types.specs.Variants.{Variant};
ghost use Rattle.per_write.specs.Faults.{IsMemory};
ghost use Rattle.per_pieces.specs.Fragments.{constrained_length, unconstrained_length};
ghost use Rattle.per_write.specs.Items.{AllowsItems, PutsCounted, PutsItems, fragment_between, sized_items};
ghost use Rattle.per_write.specs.Items.{unconstrained_items};
ghost use Rattle.per_write.specs.WriterState.{PutsIn};

use crate::Writer;
use crate::error::{EncodeError, EncodeErrorKind};
use crate::items::ItemsToWrite;
use per_core::lengths::{FRAGMENT, constrained_bounds};
use per_pieces::lengths::{push_constrained_length, push_unconstrained_length};
use rasn_constraints::sizes::OutOfSize;
use rasn_schema::constraints::{Bounded, Extensible};
use rasn_types::types::Codec;
use std::alloc::Allocator;

impl<A: Allocator + Clone> Writer<A> {
    /// Writes items under a size constraint: where the constraint is extensible, after a bit that says whether their
    /// count is outside (X.691 16.6, 17.3, 20.4, 30.4). What the call answers has its room here, so that a caller needs
    /// none for other items.
    #[inline(always)]
    pub(crate) fn put_counted<I: ItemsToWrite>(
        &mut self,
        size: Option<Extensible<Bounded<usize>>>,
        items: &I,
    ) -> Result<(), EncodeError>
        requires { self.old.failed ≡ false }
        ensures { PutsCounted size (I.counted items.now) self.old result self.new }
    {
        self.put_under_size(size, items)
    }

    /// The same, as a call of its own.
    #[inline(never)]
    fn put_under_size<I: ItemsToWrite>(
        &mut self,
        size: Option<Extensible<Bounded<usize>>>,
        items: &I,
    ) -> Result<(), EncodeError>
        requires { self.old.failed ≡ false }
        ensures { PutsCounted size (I.counted items.now) self.old result self.new }
    {
        let stated = size.unwrap_or(Extensible::new(Bounded::None));
        let (lower, upper) = stated.constraint.start_and_end();
        let count = items.len();
        match (stated.constraint.contains(&count), stated.extensible) {
            (true, false) => self.put_sized(lower, upper, items),
            (true, true) => {
                self.put_bit(false)?;
                self.put_sized(lower, upper, items)
            }
            (false, true) => {
                self.put_bit(true)?;
                self.put_unconstrained_items(items)
            }
            (false, false) => {
                let told = OutOfSize {
                    size: count,
                    lower,
                    upper,
                };
                let kind = EncodeErrorKind::SizeConstraintNotSatisfied(told);
                Err(self.refuse(kind))
            }
        }
    }

    /// Writes items whose count is within bounds, in the form that these give it (X.691 11.9.3.3, 11.9.4.1): where both
    /// are there and the upper is below 65536 as a constrained whole number, and else as an unconstrained length.
    fn put_sized<I: ItemsToWrite>(
        &mut self,
        lower: Option<usize>,
        upper: Option<usize>,
        items: &I,
    ) -> Result<(), EncodeError>
        requires begun { self.old.failed ≡ false }
        requires within { AllowsItems lower upper (I.counted items.now) }
        ensures { PutsItems (I.counted items.now) (sized_items lower upper) self.old result self.new }
    {
        match constrained_bounds(lower, upper) {
            Some((lower, upper)) => {
                let count = items.len();
                if is_without_length(self.codec, lower, upper) {
                    return items.put(self, 0, count);
                }
                let on_octet = count > 0 && items.item().is_aligned(lower, upper);
                self.put_constrained_length(lower, upper, count, on_octet)?;
                items.put(self, 0, count)
            }
            None => self.put_unconstrained_items(items),
        }
    }

    /// Writes items after an unconstrained length (X.691 11.9.3.5 to 11.9.3.8): in fragments while there are 16384 or
    /// more, each as large as it may be, and then the rest after a length of its own, which may be zero.
    pub fn put_unconstrained_items<I: ItemsToWrite>(&mut self, items: &I) -> Result<(), EncodeError>
        requires { self.old.failed ≡ false }
        ensures { PutsItems (I.counted items.now) unconstrained_items self.old result self.new }
    {
        let count = items.len();
        let mut start = 0;
        while count - start >= FRAGMENT {
            let end = start + (count - start).min(4 * FRAGMENT) / FRAGMENT * FRAGMENT;
            self.put_fragment(items, start, end)?;
            start = end;
        }
        self.put_fragment(items, start, count)
    }

    /// Writes the items from an index on and before another, after one length.
    fn put_fragment<I: ItemsToWrite>(
        &mut self,
        items: &I,
        start: usize,
        end: usize,
    ) -> Result<(), EncodeError>
        requires begun { self.old.failed ≡ false }
        requires ordered { start ≤ end }
        requires within { (a : Variant) → end ≤ length ((I.counted items.now).writers a) }
        ensures { PutsItems (I.counted items.now) (fragment_between start end) self.old result self.new }
    {
        self.put_unconstrained_length(end - start)?;
        items.put(self, start, end)
    }

    /// Writes how many items follow, which begins on an octet in the aligned variant (X.691 11.9.3.5 to 11.9.3.8).
    pub fn put_unconstrained_length(&mut self, count: usize) -> Result<(), EncodeError>
        requires { self.old.failed ≡ false }
        ensures { PutsIn IsMemory (λ a. unconstrained_length a count) self.old result self.new }
    {
        let pushed = push_unconstrained_length(&mut self.pieces, self.codec, count);
        self.unless_out_of_memory(pushed)?;
        Ok(())
    }

    /// Writes how many items follow, as a constrained whole number, and the padding in front of items that begin on an
    /// octet (X.691 11.9.4.1).
    #[inline(always)]
    pub fn put_constrained_length(
        &mut self,
        lower: usize,
        upper: usize,
        count: usize,
        on_octet: bool,
    ) -> Result<(), EncodeError>
        requires begun { self.old.failed ≡ false }
        requires lower { lower ≤ count }
        requires upper { count ≤ upper }
        ensures { PutsIn IsMemory (λ a. constrained_length a lower upper count on_octet) self.old result self.new }
    {
        let pushed = push_constrained_length(
            &mut self.pieces,
            self.codec,
            lower,
            upper,
            count,
            on_octet,
        );
        self.unless_out_of_memory(pushed)?;
        Ok(())
    }
}

/// Whether a count between bounds takes no bits, and its items no padding: in the unaligned variant, where the bounds
/// are the same (X.691 11.5.4, 11.9.4.1).
#[inline(always)]
fn is_without_length(codec: Codec, lower: usize, upper: usize) -> bool
    ensures { IsTrue result ↔ ((codec ≡ Uper) × (lower ≡ upper)) }
{
    codec == Codec::Uper && lower == upper
}
