//! CHOICE.
#![tactic(auto, unfolding(per_core::specs::Canon::bytes))]

ghost use Rattle.std.specs.Prelude.{◌≡◌, List, [], ◌∷◌, true, false, Some, None, pos};
ghost use Rattle.rasn_types.specs.Variants.{aligned, unaligned};
ghost use Rattle.rasn_types.specs.Values.{whole, truth, nothing, octets, alternative, root, added};
ghost use Rattle.per_core.specs.Canon.{bytes};
ghost use Rattle.per_rows.specs.Build.{with_all};
ghost use Rattle.per_rows.specs.Samples.{x_y_or_z, alternatives, one_alternative, two_alternatives};

/// CHOICE without a marker: the index in the fewest bits, then the value; an untagged choice is one alternative (X.691
/// 23).
pub fn uper_choice_is_its_index_and_its_value()
    ensures first { bytes unaligned x_y_or_z (alternative root 0 (truth true)) ≡ Some (0x20 ∷ []) }
    ensures second_first { bytes unaligned x_y_or_z (alternative root 1 (alternative root 0 (truth true)))
        ≡ Some (0x50 ∷ []) }
    ensures second_second { bytes unaligned x_y_or_z (alternative root 1 (alternative root 1 nothing))
        ≡ Some (0x60 ∷ []) }
    ensures third { bytes unaligned x_y_or_z (alternative root 2 nothing) ≡ Some (0x80 ∷ []) }
    ensures fourth { bytes unaligned x_y_or_z (alternative root 3 nothing) ≡ None }
{}

/// CHOICE { a BOOLEAN, ..., b BOOLEAN }: the extension bit; an alternative after the marker is a normally small index
/// and an open type (X.691 23.5, 23.8).
pub fn uper_choice_addition_is_an_open_type()
    ensures root_alternative { bytes unaligned two_alternatives (alternative root 0 (truth true)) ≡ Some (0x40 ∷ []) }
    ensures addition { bytes unaligned two_alternatives (alternative added 0 (truth true))
        ≡ Some (0x80 ∷ 0x01 ∷ 0x80 ∷ []) }
    ensures older_root { bytes unaligned one_alternative (alternative root 0 (truth true)) ≡ Some (0x40 ∷ []) }
    ensures unknown { bytes unaligned one_alternative (alternative added 0 (truth true)) ≡ None }
{}

/// APER: a record in the root of a choice and the same as an addition, between a BOOLEAN and an INTEGER (0..255)
/// (X.691 11.2, 23).
pub fn aper_choice_aligns_its_open_type()
    ensures { bytes aligned alternatives (with_all (
        truth true
        ∷ alternative root 1 (with_all (truth true ∷ octets (1 ∷ 2 ∷ 3 ∷ []) ∷ []))
        ∷ alternative added 0 (with_all (truth true ∷ octets (1 ∷ 2 ∷ 3 ∷ []) ∷ []))
        ∷ whole (pos 0xab)
        ∷ []))
        ≡ Some (0xb0 ∷ 0x01 ∷ 0x02 ∷ 0x03 ∷ 0x80 ∷ 0x04 ∷ 0x80 ∷ 0x01 ∷ 0x02 ∷ 0x03 ∷ 0xab ∷ []) }
{}
