//! DATE, UTCTime and GeneralizedTime.
#![tactic(auto, unfolding(per_core::specs::Canon::bytes))]

ghost use Rattle.std.specs.Prelude.{◌≡◌, List, [], ◌∷◌, codes, Some, None, pos};
ghost use Rattle.rasn_types.specs.Variants.{aligned, unaligned};
ghost use Rattle.rasn_types.specs.Values.{characters, day};
ghost use Rattle.rasn_types.specs.Contents.{TimeKind};
ghost use Rattle.rasn_schema.specs.Schemas.{Schema};
ghost use Rattle.per_core.specs.Canon.{bytes};

/// DATE: the year's range in two bits, the year in it, month and day; in APER a year of 256 in an octet of its own
/// (X.691 32).
pub fn date_takes_the_first_range_of_its_year()
    ensures uper_near { bytes unaligned Schema.date (day (pos 2010) 1 1) ≡ Some (0x14 ∷ 0x00 ∷ []) }
    ensures uper_later { bytes unaligned Schema.date (day (pos 2024) 2 29) ≡ Some (0x40 ∷ 0xc7 ∷ 0x80 ∷ []) }
    ensures uper_remainder { bytes unaligned Schema.date (day (pos 1500) 6 15)
        ≡ Some (0xc0 ∷ 0x81 ∷ 0x77 ∷ 0x15 ∷ 0xc0 ∷ []) }
    ensures aper_near { bytes aligned Schema.date (day (pos 2010) 1 1) ≡ Some (0x14 ∷ 0x00 ∷ []) }
    ensures aper_later { bytes aligned Schema.date (day (pos 2024) 2 29) ≡ Some (0x40 ∷ 0x03 ∷ 0x1e ∷ 0x00 ∷ []) }
{}

/// A day that the calendar lacks has no encoding (X.691 32).
pub fn uper_date_that_is_none_is_refused()
    ensures february { bytes unaligned Schema.date (day (pos 2010) 2 30) ≡ None }
    ensures leap { bytes unaligned Schema.date (day (pos 1900) 2 29) ≡ None }
    ensures month { bytes unaligned Schema.date (day (pos 2010) 13 1) ≡ None }
{}

/// UPER UTCTime 2018-06-13 11:01:59 and GeneralizedTime 2018-06-13 06:01:58: their texts as a VisibleString (X.691 30).
pub fn uper_time_is_its_text()
    ensures utc { bytes unaligned (Schema.time TimeKind.utc) (characters (codes "180613110159Z"))
        ≡ Some (0x0d ∷ 0x62 ∷ 0xe1 ∷ 0x83 ∷ 0x66 ∷ 0x2c ∷ 0xd8 ∷ 0xb1 ∷ 0x60 ∷ 0xc5 ∷ 0xab ∷ 0x9b ∷ 0x40 ∷ []) }
    ensures generalized { bytes unaligned (Schema.time TimeKind.generalized) (characters (codes "20180613060158Z"))
        ≡ Some (0x0f ∷ 0x64 ∷ 0xc1 ∷ 0x8b ∷ 0x86 ∷ 0x0d ∷ 0x98 ∷ 0xb3 ∷ 0x60 ∷ 0xd9 ∷ 0x83 ∷ 0x16 ∷ 0xae ∷ 0x2d ∷ 0x00
        ∷ []) }
{}

/// A time's text is the canonical one: no zero at the end of a fraction, no day that the calendar lacks, no second 60
/// (X.690 11.7, 11.8).
pub fn uper_time_of_another_text_is_refused()
    ensures trailing_zero { bytes unaligned (Schema.time TimeKind.generalized)
        (characters (codes "20180122132900.120Z")) ≡ None }
    ensures no_day { bytes unaligned (Schema.time TimeKind.generalized) (characters (codes "20180230132900Z")) ≡ None }
    ensures second { bytes unaligned (Schema.time TimeKind.utc) (characters (codes "180613110160Z")) ≡ None }
    ensures offset { bytes unaligned (Schema.time TimeKind.utc) (characters (codes "180613110159+0100")) ≡ None }
{}
