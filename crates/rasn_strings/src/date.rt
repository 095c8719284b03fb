//! DATE (X.680 38.4).

ghost use Rattle.std.specs.Prelude.{◌≡◌, ◌↔◌, Err, false, true, IfOk, IsOk, OnOk};
ghost use Rattle.rasn_types.specs.Contents.{is_date};
ghost use Rattle.rasn_strings.specs.Dates.{IsDay};
ghost use Rattle.rasn_strings.specs.declared.time_error.TimeError.TheVariants.{InvalidDate};

use crate::time_error::TimeError;
pub use jiff::civil::Date;

/// The day with this year, month and day of the month (X.680 38.4), from 1 both; refused where the calendar from -9999
/// to 9999 has none.
pub fn date_from_parts(year: i128, month: u8, day: u8) -> Result<Date, TimeError>
    ensures day { IfOk result (IsDay year month day) }
    ensures lawful { OnOk result (is_date year month day ≡ true) }
    ensures refused { (result ≡ Err InvalidDate) ↔ (is_date year month day ≡ false) }
    ensures accepted { IsOk result ↔ (is_date year month day ≡ true) }
{
    match (i16::try_from(year), i8::try_from(month), i8::try_from(day)) {
        (Ok(year), Ok(month), Ok(day)) => match Date::new(year, month, day) {
            Ok(date) => Ok(date),
            Err(_) => Err(TimeError::InvalidDate),
        },
        _ => Err(TimeError::InvalidDate),
    }
}

/// The year, the month and the day of the month, which are a day of the calendar.
pub fn date_to_parts(date: Date) -> (i16, u8, u8)
    ensures day { IsDay result.0 result.1 result.2 date }
    ensures lawful { is_date result.0 result.1 result.2 ≡ true }
{
    (date.year(), date.month() as u8, date.day() as u8)
}
