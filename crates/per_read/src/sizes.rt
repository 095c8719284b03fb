//! Items under a size constraint (X.691 11.9.3.3, 11.9.4, 16, 17 and 30.5).

ghost use Rattle.std.specs.Prelude.{◌≡◌, ◌<◌, ◌+◌, ◌-◌, ◌&&◌, nat_lt, true, false, None, Ok, OnOk, OnErr, IfErr};
ghost use Rattle.std.specs.Prelude.{IfSome};
ghost use Rattle.rasn_constraints.specs.Bounds.{allows};
ghost use Rattle.rasn_constraints.specs.Constraints.{start_of, end_of, size_between, size_in, is_marked};
ghost use Rattle.per_core.specs.Basic.{PaddingIf};
ghost use Rattle.per_core.specs.Counts.{constrained_between, is_aligned, bits_of, counted_of};
ghost use Rattle.per_core.specs.Spellings.{Settings, NoneIn};
ghost use Rattle.per_core.specs.BitFieldFaults.{IsOfUnconstrained};
ghost use Rattle.per_read.specs.Items.{unconstrained_items, sized_items, TakesItems};
ghost use Rattle.per_core.specs.Lengths.{counted_items, CountFrom};
ghost use Rattle.per_core.specs.NumberFaults.{IsOfConstrained};
ghost use Rattle.per_read.specs.Sizes.{items_between, items_under};
ghost use Rattle.per_core.specs.SizeFaults.{IsOfBetween, IsOfItems, IsOfPaddingIf, IsOfUnder};
ghost use Rattle.per_read.specs.ReaderState.{settings_of};
ghost use Rattle.per_read.specs.Takes.{Takes, alone, itself, memory_or, telling, tested};
ghost use Rattle.per_core.specs.declared.decode_error.DecodeErrorKind.TheVariants.{SizeConstraintNotSatisfied};

use crate::Reader;
use crate::error::DecodeErrorKind;
use crate::items::Collector;
use crate::lengths::Length;
use per_core::items::Item;
use per_core::lengths::constrained_bounds;
use rasn_constraints::sizes::OutOfSize;
use rasn_schema::constraints::{Bounded, Extensible};

impl Reader<'_> {
    /// Takes items under the size constraint in use, where there is one (X.691 16, 17, 30.5). Answers how many there
    /// were.
    #[inline(always)]
    pub(crate) fn take_items<C: Collector>(
        &mut self,
        size: Option<Extensible<Bounded<usize>>>,
        items: &mut C,
    ) -> Result<usize, DecodeErrorKind>
        requires { C.count items.old ≡ 0 }
        ensures { let why = λ (a : Settings). IsOfItems a (size_in size) (is_marked size) (C.item items.old) in
            let form = λ (a : Settings). counted_items a (size_in size) (is_marked size) (C.item items.old) in
            TakesItems C.holds (memory_or why) form items.old self.old result items.new self.new }
    {
        match size {
            Some(size) => self.take_extensible_items(size, items),
            None => self.take_unconstrained_items(items),
        }
    }

    /// Takes items under a size constraint. Where that has an extension marker, one bit comes first: 0 and the items
    /// under the size, or 1 and the items without, whose count the size may allow too (X.691 16.6, 17.3, 30.4). Answers
    /// how many there were.
    #[inline(always)]
    fn take_extensible_items<C: Collector>(
        &mut self,
        size: Extensible<Bounded<usize>>,
        items: &mut C,
    ) -> Result<usize, DecodeErrorKind>
        requires { C.count items.old ≡ 0 }
        ensures { let bounds = size_between size.constraint in
            let why = λ (a : Settings). IsOfItems a bounds size.extensible (C.item items.old) in
            let form = λ (a : Settings). counted_items a bounds size.extensible (C.item items.old) in
            TakesItems C.holds (memory_or why) form items.old self.old result items.new self.new }
    {
        if !size.extensible {
            return self.take_sized(&size.constraint, items);
        }
        if self.take_bit()? {
            return self.take_unconstrained_items(items);
        }
        self.take_sized(&size.constraint, items)
    }

    /// Takes items whose count a size allows: the items first, and then their count is checked. Answers how many there
    /// were.
    #[inline(always)]
    fn take_sized<C: Collector>(
        &mut self,
        size: &Bounded<usize>,
        items: &mut C,
    ) -> Result<usize, DecodeErrorKind>
        requires { C.count items.old ≡ 0 }
        ensures { let why = λ (a : Settings). IsOfItems a (size_between size.now) false (C.item items.old) in
            let form = λ (a : Settings). sized_items a (size_between size.now) (C.item items.old) in
            TakesItems C.holds (memory_or why) form items.old self.old result items.new self.new }
    {
        let count = self.take_under_size(size, items)?;
        check_size(size, count)?;
        Ok(count)
    }

    /// Takes items as a size has them written, whether it allows their count or not: where both bounds are there and
    /// the upper is below 65536 after a constrained whole number, and else after an unconstrained length (X.691
    /// 11.9.3.3, 11.9.4.1). Answers how many there were.
    #[inline(always)]
    fn take_under_size<C: Collector>(
        &mut self,
        size: &Bounded<usize>,
        items: &mut C,
    ) -> Result<usize, DecodeErrorKind>
        requires { C.count items.old ≡ 0 }
        ensures { let why = λ (a : Settings). IsOfUnder a (start_of size.now) (end_of size.now) (C.item items.old) in
            let form = λ (a : Settings). items_under a (size_between size.now) (C.item items.old) in
            TakesItems C.holds (memory_or why) form items.old self.old result items.new self.new }
    {
        match constrained_size(size) {
            Some((lower, upper)) => self.take_constrained_items(lower, upper, items),
            None => self.take_unconstrained_items(items),
        }
    }

    /// Takes items after a count from `lower` on, as one of the numbers from `lower` to `upper` (X.691 11.9.3.3).
    /// Answers how many there were.
    #[inline(always)]
    fn take_constrained_items<C: Collector>(
        &mut self,
        lower: usize,
        upper: usize,
        items: &mut C,
    ) -> Result<usize, DecodeErrorKind>
        requires few { upper < 65536 }
        requires empty { C.count items.old ≡ 0 }
        ensures { let why = λ (a : Settings). IsOfBetween a lower upper (C.item items.old) in
            let form = λ (a : Settings). items_between a lower upper (C.item items.old) in
            TakesItems C.holds (memory_or why) form items.old self.old result items.new self.new }
    {
        let count = self.take_constrained_count(lower, upper)?;
        self.take_padding_between(count, items.item(), lower, upper)?;
        self.take_bare_items(count, items)?;
        Ok(count)
    }

    /// Takes a count from `lower` on, as one of the numbers from `lower` to `upper` (X.691 11.9.3.3). It may be past
    /// `upper`.
    #[inline(always)]
    pub(crate) fn take_constrained_count(
        &mut self,
        lower: usize,
        upper: usize,
    ) -> Result<usize, DecodeErrorKind>
        requires { upper < 65536 }
        ensures { let why = λ (a : Settings). IsOfConstrained a (upper - lower + 1) in
            Takes (telling why) (λ a. CountFrom a lower upper) itself self.old result self.new }
    {
        let code = self.take_constrained_whole(upper.saturating_sub(lower) as u128)?;
        Ok(lower + code as usize)
    }

    /// Takes a count from `lower` on as `take_constrained_count` does: it is written in one field. After `None`, which
    /// says that none is there, the reader is of no further use. No error is made, and so none needs room.
    #[inline(always)]
    pub(crate) fn take_short_count(&mut self, lower: usize, upper: usize) -> Option<usize>
        requires { upper < 65536 }
        ensures took { let form = λ (a : Settings). CountFrom a lower upper in
            IfSome result (λ count. Takes tested form itself self.old (Ok count) self.new) }
        ensures none { result ≡ None → NoneIn (CountFrom (settings_of self.old) lower upper) self.old.bits }
    {
        let code = self.take_short_whole(upper.saturating_sub(lower) as u128)?;
        Some(lower + code as usize)
    }

    /// Takes the padding between a constrained count and its items, where there is some (X.691 16.9 to 16.11, 17.6 to
    /// 17.8, 30.5.6, 30.5.7).
    #[inline(always)]
    pub(crate) fn take_padding_between(
        &mut self,
        count: usize,
        item: Item,
        lower: usize,
        upper: usize,
    ) -> Result<(), DecodeErrorKind>
        ensures { let pads = nat_lt 0 count && is_aligned (counted_of item) lower upper in
            Takes (telling (IsOfPaddingIf pads)) (alone (PaddingIf pads)) itself self.old result self.new }
    {
        if count == 0 || !item.is_aligned(lower, upper) {
            return Ok(());
        }
        self.take_padding()
    }

    /// Takes items after an unconstrained length (X.691 11.9.3.5 to 11.9.3.8): in fragments, as many as there are, and
    /// then the rest after a length of its own. Answers how many there were.
    pub(crate) fn take_unconstrained_items<C: Collector>(
        &mut self,
        items: &mut C,
    ) -> Result<usize, DecodeErrorKind>
        requires { C.count items.old ≡ 0 }
        ensures { let why = λ (a : Settings). IsOfUnconstrained a (bits_of (C.item items.old)) in
            let form = λ (a : Settings). unconstrained_items a (C.item items.old) in
            TakesItems C.holds (memory_or why) form items.old self.old result items.new self.new }
    {
        let mut count: usize = 0;
        loop {
            let length = self.take_unconstrained_length()?;
            let more = length.count() as usize;
            match count.checked_add(more) {
                Some(all) => count = all,
                None => return Err(DecodeErrorKind::ExceedsMaxLength),
            }
            self.take_bare_items(more, items)?;
            if let Length::Last(_) = length {
                return Ok(count);
            }
        }
    }
}

/// The bounds of a size, where it has a count written as a constrained whole number (X.691 11.9.4.1).
pub(crate) fn constrained_size(size: &Bounded<usize>) -> Option<(usize, usize)>
    ensures { result ≡ constrained_between (start_of size.now) (end_of size.now) }
{
    let (lower, upper) = size.start_and_end();
    constrained_bounds(lower, upper)
}

/// Refuses a count that a size doesn't allow (X.680 51.5).
#[inline(always)]
pub(crate) fn check_size(size: &Bounded<usize>, count: usize) -> Result<(), DecodeErrorKind>
    ensures ok { OnOk result (allows (size_between size.now) count ≡ true) }
    ensures err { IfErr result (λ kind. kind ≡ SizeConstraintNotSatisfied (record {
      size = count;
      lower = start_of size.now;
      upper = end_of size.now;
    })) }
    ensures not { OnErr result (allows (size_between size.now) count ≡ false) }
{
    if size.contains(&count) {
        return Ok(());
    }
    let (lower, upper) = size.start_and_end();
    Err(DecodeErrorKind::SizeConstraintNotSatisfied(OutOfSize {
        size: count,
        lower,
        upper,
    }))
}
