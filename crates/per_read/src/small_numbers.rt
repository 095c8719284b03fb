//! Normally small non-negative whole numbers (X.691 11.6).

ghost use Rattle.per_read.specs.SmallNumbers.{IsOfSmall, OfIndex};
ghost use Rattle.per_core.specs.NumberFaults.{small_form};
ghost use Rattle.per_read.specs.Takes.{Takes, telling};

use crate::Reader;
use crate::error::DecodeErrorKind;
use crate::in_place::take_index;

/// Takes a normally small number: after a bit 0 six bits, after a bit 1 a number with the lower bound 0, which
/// may be below 64 too. `None` is a number that no `usize` holds.
pub fn take_small(reader: &mut Reader<'_>) -> Result<Option<usize>, DecodeErrorKind>
    ensures { Takes (telling IsOfSmall) small_form OfIndex reader.old result reader.new }
{
    if reader.take_bit()? {
        return take_index(reader);
    }
    let number = reader.take_bits(6)?;
    Ok(Some(number as usize))
}
