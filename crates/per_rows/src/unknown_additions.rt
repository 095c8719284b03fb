//! Additions that a reader doesn't know, of any octets.
#![tactic(auto)]

ghost use Rattle.std.specs.Prelude.{[], ◌∷◌, true};
ghost use Rattle.rasn_types.specs.Values.{truth};
ghost use Rattle.per_core.specs.Basic.{fills};
ghost use Rattle.per_rows.specs.Build.{aper, uper, extended};
ghost use Rattle.per_rows.specs.Samples.{shallow_version};

/// SEQUENCE { a BOOLEAN, ... }: an addition that isn't known may hold no octets, of which no type has an encoding, or
/// any (X.691 11.2, 19.9).
pub fn unknown_addition_may_hold_any_octets()
    ensures of_none { fills uper shallow_version (extended (truth true ∷ []) []) (0xc0 ∷ 0x40 ∷ 0x00 ∷ []) }
    ensures of_three { fills uper shallow_version (extended (truth true ∷ []) []) (0xc0 ∷ 0x40 ∷ 0xff ∷ 0xff ∷ 0xff
        ∷ 0xc0 ∷ []) }
    ensures aligned_of_none { fills aper shallow_version (extended (truth true ∷ []) []) (0xc0 ∷ 0x40 ∷ 0x00 ∷ []) }
    ensures aligned_of_three { fills aper shallow_version (extended (truth true ∷ []) []) (0xc0 ∷ 0x40 ∷ 0x03 ∷ 0xff
        ∷ 0xff ∷ 0xff ∷ []) }
{}
