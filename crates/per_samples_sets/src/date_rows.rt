//! What is written of a DATE, and of a recursive SEQUENCE with one.

ghost use Rattle.std.specs.Prelude.{[], ◌∷◌, Some, None, pos};
ghost use Rattle.per_core.specs.Rows.{aligned, unaligned, IsWrittenAs};
ghost use Rattle.per_samples_sets.specs.declared.dnest.Dnest.{Dnest', None', Some'};

use crate::dnest::Dnest;
use rasn_below::AsnType;
use rasn_below::types::Date;

/// The year of a range is after the index of the range, both constrained; the month and the day are constrained too
/// (X.691 32).
pub fn years_of_a_range_are_written_after_its_index()
    ensures near { let own = ⟦<Date as AsnType>⟧ in
        (y m d : _) → IsWrittenAs unaligned (own.schema own.CONSTRAINTS) own.levels own.value
        (record { year = pos 2010; month = 1; day = 1; year_in = y; month_in = m; day_in = d }) (0x14 ∷ 0x00 ∷ []) }
    ensures later { let own = ⟦<Date as AsnType>⟧ in
        (y m d : _) → IsWrittenAs unaligned (own.schema own.CONSTRAINTS) own.levels own.value
        (record { year = pos 2024; month = 2; day = 29; year_in = y; month_in = m; day_in = d })
        (0x40 ∷ 0xc7 ∷ 0x80 ∷ []) }
    ensures aligned_later { let own = ⟦<Date as AsnType>⟧ in
        (y m d : _) → IsWrittenAs aligned (own.schema own.CONSTRAINTS) own.levels own.value
        (record { year = pos 2024; month = 2; day = 29; year_in = y; month_in = m; day_in = d })
        (0x40 ∷ 0x03 ∷ 0x1e ∷ 0x00 ∷ []) }
{}

/// A year of no range is a number without constraints after the last index (X.691 32).
pub fn other_years_are_numbers()
    ensures { let own = ⟦<Date as AsnType>⟧ in
        (y m d : _) → IsWrittenAs unaligned (own.schema own.CONSTRAINTS) own.levels own.value
        (record { year = pos 1500; month = 6; day = 15; year_in = y; month_in = m; day_in = d })
        (0xc0 ∷ 0x81 ∷ 0x77 ∷ 0x15 ∷ 0xc0 ∷ []) }
{}

/// Each record has a presence bit for the record inside and one for its DATE (X.691 19.2), which is after that
/// record.
pub fn a_date_stands_after_the_bits_of_its_level()
    ensures nothing { let own = ⟦<Dnest as AsnType>⟧ in
        IsWrittenAs unaligned (own.schema own.CONSTRAINTS) own.levels own.value (Dnest' None' None) (0x00 ∷ []) }
    ensures inside { let own = ⟦<Dnest as AsnType>⟧ in
        (a y m d : _) → IsWrittenAs unaligned (own.schema own.CONSTRAINTS) own.levels own.value
        (Dnest' (Some' a (Dnest' None' (Some (record {
          year = pos 2010;
          month = 1;
          day = 1;
          year_in = y;
          month_in = m;
          day_in = d;
        })))) None)
        (0x91 ∷ 0x40 ∷ 0x00 ∷ []) }
    ensures beside { let own = ⟦<Dnest as AsnType>⟧ in
        (a y m d : _) → IsWrittenAs aligned (own.schema own.CONSTRAINTS) own.levels own.value
        (Dnest' (Some' a (Dnest' None' None)) (Some (record {
          year = pos 2024;
          month = 2;
          day = 29;
          year_in = y;
          month_in = m;
          day_in = d;
        })))
        (0xc4 ∷ 0x03 ∷ 0x1e ∷ 0x00 ∷ []) }
{}
