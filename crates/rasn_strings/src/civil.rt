//! What a UTCTime, a GeneralizedTime and a DATE hold (X.680 38.4, 46 and 47), as the calls of a codec take it. These
//! name no calendar, and what names them is proved without reading one.

ghost use Rattle.std.specs.Prelude.{◌≡◌, ◌↔◌, ℕ, List, Err, false, true, IfOk, IsOk};
ghost use Rattle.rasn_types.specs.Contents.{generalized, is_date, is_time, utc};
ghost use Rattle.rasn_types.specs.Values.{Value, day as day_value};
ghost use Rattle.rasn_strings.specs.declared.time_error.TimeError.TheVariants.{
  InvalidDate,
  InvalidText,
  Unrepresentable,
};

use crate::time_error::TimeError;
use std::alloc::Allocator;

/// A moment in UTC that a UTCTime holds (X.680 47).
pub trait UtcMoment: Sized + Drop {
    // X.690 11.8: its text; there is none where a UTCTime can't hold it.
    ghost text: { Self → List ℕ };

    /// The canonical text of a UTCTime (X.690 11.8). Refused is a moment that it can't hold.
    fn to_canonical_utc_time_bytes<A: Allocator>(&self, alloc: A) -> Result<Vec<u8, A>, TimeError>
        ensures written { IfOk result (λ written. written.items ≡ text self.now) }
        ensures refused { (result ≡ Err Unrepresentable) ↔ (is_time utc (text self.now) ≡ false) };

    /// The moment with this canonical text of a UTCTime (X.690 11.8). Refused is any other text.
    fn parse_canonical_utc_time_string(string: &[u8]) -> Result<Self, TimeError>
        ensures read { IfOk result (λ moment. text moment ≡ string.now) }
        ensures refused { (result ≡ Err InvalidText) ↔ (is_time utc string.now ≡ false) }
        ensures accepted { IsOk result ↔ (is_time utc string.now ≡ true) };
}

/// A moment in UTC that a GeneralizedTime holds (X.680 46).
pub trait GeneralizedMoment: Sized + Drop {
    // X.690 11.7: its text; there is none where a GeneralizedTime can't hold it.
    ghost text: { Self → List ℕ };

    /// The canonical text of a GeneralizedTime (X.690 11.7). Refused is a moment that it can't hold.
    fn to_canonical_generalized_time_bytes<A: Allocator>(
        &self,
        alloc: A,
    ) -> Result<Vec<u8, A>, TimeError>
        ensures written { IfOk result (λ written. written.items ≡ text self.now) }
        ensures refused { (result ≡ Err Unrepresentable) ↔ (is_time generalized (text self.now) ≡ false) };

    /// The moment with this canonical text of a GeneralizedTime (X.690 11.7). Refused is any other text.
    fn parse_canonical_generalized_time_string(string: &[u8]) -> Result<Self, TimeError>
        ensures read { IfOk result (λ moment. text moment ≡ string.now) }
        ensures refused { (result ≡ Err InvalidText) ↔ (is_time generalized string.now ≡ false) }
        ensures accepted { IsOk result ↔ (is_time generalized string.now ≡ true) };
}

/// A day of the calendar that a DATE holds (X.680 38.4).
pub trait CivilDate: Sized + Drop {
    // X.680 38.4: its year, its month and its day of the month.
    ghost value: { Self → Value };

    /// The day with this year, month and day of the month, from 1 both; refused where the calendar has none.
    fn from_parts(year: i128, month: u8, day: u8) -> Result<Self, TimeError>
        ensures found { IfOk result (λ date. value date ≡ day_value year month day) }
        ensures lawful { IfOk result (λ date. is_date year month day ≡ true) }
        ensures refused { (result ≡ Err InvalidDate) ↔ (is_date year month day ≡ false) }
        ensures accepted { IsOk result ↔ (is_date year month day ≡ true) };

    /// The year, the month and the day of the month, which are a day of the calendar.
    fn to_parts(&self) -> (i16, u8, u8)
        ensures found { value self.now ≡ day_value result.0 result.1 result.2 }
        ensures lawful { is_date result.0 result.1 result.2 ≡ true };
}
