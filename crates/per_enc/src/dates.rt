//! DATE as it is written (X.691 32).

ghost use Rattle.std.specs.Prelude.{◌≡◌, false, true, pos};
ghost use Rattle.rasn_types.specs.Contents.{is_date};
ghost use Rattle.rasn_constraints.specs.Bounds.{between, holds};
ghost use Rattle.rasn_schema.specs.Schemas.{Schema};
ghost use Rattle.rasn_traits.specs.Calls.{Writes};
ghost use Rattle.per_core.specs.Canon.{date_of, year_writer};
ghost use Rattle.per_write.specs.Faults.{IsMemory};
ghost use Rattle.per_write.specs.Rules.{encoder_rules};
ghost use Rattle.per_write.specs.WriterState.{PutsIn};
ghost use Rattle.per_enc.specs.Dates.{put_within};

use per_write::Writer;
use per_write::error::EncodeError;
use rasn_strings::civil::CivilDate;
use std::alloc::Allocator;

/// Writes a DATE (X.691 32) after what was written before. The only error is want of memory.
pub fn put_date<A: Allocator + Clone, D: CivilDate>(
    writer: &mut Writer<A>,
    date: &D,
) -> Result<(), EncodeError>
    requires { writer.old.failed ≡ false }
    ensures { Writes encoder_rules Schema.date (D.value date.now) writer.old result writer.new }
{
    let (year, month, day) = date.to_parts();
    put_numbers(writer, i128::from(year), month, day)
}

/// Writes the numbers of a day of the calendar: its year, its month and its day of the month, from 1 both.
fn put_numbers<A: Allocator + Clone>(
    writer: &mut Writer<A>,
    year: i128,
    month: u8,
    day: u8,
) -> Result<(), EncodeError>
    requires begun { writer.old.failed ≡ false }
    requires lawful { is_date year month day ≡ true }
    ensures { PutsIn IsMemory (λ a. date_of a year month day) writer.old result writer.new }
{
    put_year(writer, year)?;
    writer.put_number(Some(1), Some(12), i128::from(month))?;
    writer.put_number(Some(1), Some(31), i128::from(day))
}

/// Writes a year: the index of the range that holds it, and the year in that; or the last index, and the year as a
/// number.
fn put_year<A: Allocator + Clone>(writer: &mut Writer<A>, year: i128) -> Result<(), EncodeError>
    requires { writer.old.failed ≡ false }
    ensures { PutsIn IsMemory (λ a. year_writer a year) writer.old result writer.new }
{
    if is_from_to(2005, 2020, year) {
        put_year_within(writer, 0, 2005, 2020, year)
    } else if is_from_to(2021, 2276, year) {
        put_year_within(writer, 1, 2021, 2276, year)
    } else if is_from_to(1749, 2004, year) {
        put_year_within(writer, 2, 1749, 2004, year)
    } else {
        writer.put_number(Some(0), Some(3), 3)?;
        writer.put_number(None, None, year)
    }
}

/// Whether a year is one of a range.
fn is_from_to(first: i128, last: i128, year: i128) -> bool
    ensures { result ≡ holds (between first last) year }
{
    first <= year && year <= last
}

/// Writes the index of a range, and a year that it holds.
fn put_year_within<A: Allocator + Clone>(
    writer: &mut Writer<A>,
    index: i128,
    first: i128,
    last: i128,
    year: i128,
) -> Result<(), EncodeError>
    requires begun { writer.old.failed ≡ false }
    requires known { holds (between (pos 0) (pos 3)) index ≡ true }
    requires held { holds (between first last) year ≡ true }
    ensures { PutsIn IsMemory (λ a. put_within a index first last year) writer.old result writer.new }
{
    writer.put_number(Some(0), Some(3), index)?;
    writer.put_number(Some(first), Some(last), year)
}
