//! DATE as it is read (X.691 32).

ghost use Rattle.std.specs.Prelude.{◌≡◌, false, true, IfErr, IfOk};
ghost use Rattle.rasn_types.specs.Contents.{is_date};
ghost use Rattle.rasn_types.specs.Values.{day as day_value};
ghost use Rattle.rasn_schema.specs.Schemas.{Schema};
ghost use Rattle.per_core.specs.Basic.{basic, Year};
ghost use Rattle.per_read.specs.Takes.{Takes, memory_or, itself};
ghost use Rattle.per_core.specs.TimeFaults.{IsOfDate};
ghost use Rattle.per_decoding.specs.Years.{IsNoDay, IsOfYear};

use crate::integers::take_integer;
use per_read::Reader;
use per_read::error::DecodeErrorKind;
use rasn_constraints::constraints::{Bounded, Constraint, Constraints, Extensible};
use rasn_constraints::integer_type::IntegerType;
use rasn_strings::civil::CivilDate;
use rasn_strings::time_error::TimeError;
use rasn_types::big::Integer;

/// A value constraint: a least and a greatest number.
macro_rules! between {
    ($least:literal, $greatest:literal) => {
        &[Constraint::Value(Extensible {
            constraint: Bounded::Range {
                start: Some($least),
                end: Some($greatest),
            },
            extensible: false,
        })]
    };
}

const FIRST_YEARS: &[Constraint] = between!(2005, 2020);

const LATER_YEARS: &[Constraint] = between!(2021, 2276);

const EARLIER_YEARS: &[Constraint] = between!(1749, 2004);

const MONTHS: &[Constraint] = between!(1, 12);

const DAYS: &[Constraint] = between!(1, 31);

/// Takes a DATE (X.691 32). Numbers that are no day of the calendar are refused.
pub fn take_date<D: CivilDate>(reader: &mut Reader<'_>) -> Result<D, DecodeErrorKind>
    ensures { Takes (memory_or IsOfDate) (λ a. basic a Schema.date) (λ P date. P (D.value date))
        reader.old result reader.new }
{
    let year = take_year(reader)?;
    let month = take_integer::<u8>(reader, &Constraints(MONTHS))?;
    let day = take_integer::<u8>(reader, &Constraints(DAYS))?;
    known_day(&year, month, day)
}

/// Takes a year: the index of a range, and the year in that; or the last index, and the year as a number, which may be
/// one of a range too.
fn take_year(reader: &mut Reader<'_>) -> Result<Integer, DecodeErrorKind>
    ensures { Takes (memory_or IsOfYear) Year itself reader.old result reader.new }
{
    match reader.take_bits(2)? {
        0 => take_integer(reader, &Constraints(FIRST_YEARS)),
        1 => take_integer(reader, &Constraints(LATER_YEARS)),
        2 => take_integer(reader, &Constraints(EARLIER_YEARS)),
        _ => take_integer(reader, &Constraints::NONE),
    }
}

/// The day of the calendar with this year, month and day of the month, from 1 both, where there is one.
fn known_day<D: CivilDate>(year: &Integer, month: u8, day: u8) -> Result<D, DecodeErrorKind>
    ensures known { IfOk result (λ date. D.value date ≡ day_value year.now month day) }
    ensures lawful { IfOk result (λ date. is_date year.now month day ≡ true) }
    ensures none { IfErr result (IsNoDay year.now month day) }
{
    let Some(year) = year.to_i128() else {
        return Err(DecodeErrorKind::InvalidDate);
    };
    match D::from_parts(year, month, day) {
        Ok(date) => Ok(date),
        Err(TimeError::InvalidDate) => Err(DecodeErrorKind::InvalidDate),
        Err(_) => Err(DecodeErrorKind::OutOfMemory),
    }
}
