//! OCTET STRINGs that are skipped without room for an error: those after no extension bit and in no fragments.

ghost use Rattle.std.specs.Prelude.{◌≡◌, ◌<◌, false, None, Ok, IfSome};
ghost use Rattle.rasn_constraints.specs.Constraints.{size_between};
ghost use Rattle.rasn_schema.specs.Forms.{size_of, is_size_marked};
ghost use Rattle.per_core.specs.Basic.{Counted, octet};
ghost use Rattle.per_core.specs.Counts.{octet_items};
ghost use Rattle.per_core.specs.Spellings.{Settings, NoneIn};
ghost use Rattle.per_core.specs.declared.items.Item.TheVariants.{Octet};
ghost use Rattle.per_read.specs.Items.{HasCount, items_below, sized_items, unconstrained_items};
ghost use Rattle.per_core.specs.SizeFaults.{IsOfItems};
ghost use Rattle.per_read.specs.Sizes.{items_between, items_under, unfragmented};
ghost use Rattle.per_read.specs.ReaderState.{settings_of};
ghost use Rattle.per_read.specs.Takes.{Takes, memory_or, stopped};

use crate::Reader;
use crate::lengths::Length;
use crate::sizes::constrained_size;
use per_core::items::Item;
use rasn_schema::constraints::{Bounded, Constraints};

impl Reader<'_> {
    /// Skips an OCTET STRING as `skip_octet_string` does, where it comes without an extension bit and without fragments
    /// (X.691 17). After `None`, which says that none of fewer than 16384 octets is there so, the reader is of no
    /// further use. No error is made, and so none needs room.
    #[inline(always)]
    pub fn skip_short_octet_string(&mut self, constraints: &Constraints) -> Option<usize>
        ensures took { let size = size_of constraints.now in let mark = is_size_marked constraints.now in
            let why = λ (a : Settings). IsOfItems a size mark Octet in
            let form = λ (a : Settings). Counted a size mark octet_items octet in
            IfSome result (λ count. Takes (memory_or why) form HasCount self.old (Ok count) self.new) }
        ensures none { result ≡ None → is_size_marked constraints.now ≡ false
            → NoneIn (unfragmented (settings_of self.old) (size_of constraints.now)) self.old.bits }
    {
        let Some(size) = constraints.size() else {
            return self.skip_unfragmented();
        };
        if size.extensible {
            return None;
        }
        self.skip_sized(&size.constraint)
    }

    /// Skips octets under a size, and answers how many there were.
    #[inline(always)]
    fn skip_sized(&mut self, size: &Bounded<usize>) -> Option<usize>
        ensures took { let form = λ (a : Settings). sized_items a (size_between size.now) Octet in
            IfSome result (λ n. Takes stopped form HasCount self.old (Ok n) self.new) }
        ensures none { let form = sized_items (settings_of self.old) (size_between size.now) Octet in
            result ≡ None → NoneIn (items_below 16384 form) self.old.bits }
    {
        let count = self.skip_under_size(size)?;
        if size.contains(&count) {
            Some(count)
        } else {
            None
        }
    }

    /// Skips octets as a size has them written, whether it allows their count or not, and answers how many there were.
    #[inline(always)]
    fn skip_under_size(&mut self, size: &Bounded<usize>) -> Option<usize>
        ensures took { let form = λ (a : Settings). items_under a (size_between size.now) Octet in
            IfSome result (λ n. Takes stopped form HasCount self.old (Ok n) self.new) }
        ensures none { let form = items_under (settings_of self.old) (size_between size.now) Octet in
            result ≡ None → NoneIn (items_below 16384 form) self.old.bits }
    {
        match constrained_size(size) {
            Some((lower, upper)) => self.skip_between(lower, upper),
            None => self.skip_unfragmented(),
        }
    }

    /// Skips octets after a count from `lower` on, as one of the numbers from `lower` to `upper` (X.691 11.9.3.3), and
    /// answers how many there were.
    #[inline(always)]
    fn skip_between(&mut self, lower: usize, upper: usize) -> Option<usize>
        requires { upper < 65536 }
        ensures took { let form = λ (a : Settings). items_between a lower upper Octet in
            IfSome result (λ n. Takes stopped form HasCount self.old (Ok n) self.new) }
        ensures none { result ≡ None → NoneIn (items_between (settings_of self.old) lower upper Octet) self.old.bits }
    {
        let count = self.take_short_count(lower, upper)?;
        let Ok(()) = self.take_padding_between(count, Item::Octet, lower, upper) else {
            return None;
        };
        let Ok(_) = self.bits.take(8 * count as u128) else {
            return None;
        };
        Some(count)
    }

    /// Skips octets after an unconstrained length of fewer than 16384 (X.691 11.9.3.5 to 11.9.3.7), and answers how
    /// many there were.
    #[inline(always)]
    fn skip_unfragmented(&mut self) -> Option<usize>
        ensures took { let form = λ (a : Settings). unconstrained_items a Octet in
            IfSome result (λ n. Takes stopped form HasCount self.old (Ok n) self.new) }
        ensures none { let form = unconstrained_items (settings_of self.old) Octet in
            result ≡ None → NoneIn (items_below 16384 form) self.old.bits }
    {
        let Ok(length) = self.take_unconstrained_length() else {
            return None;
        };
        let Length::Last(count) = length else {
            return None;
        };
        let Ok(_) = self.bits.take(8 * count) else {
            return None;
        };
        Some(count as usize)
    }
}
