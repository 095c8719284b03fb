//! Two versions of a type with a default of many levels, of which a reader reads nothing where it is left out.
#![tactic(auto, unfolding(
// Words that these schemas unfold.
per_core::specs::Versions::project, per_core::specs::Versions::widen, rasn_schema::specs::Depth::meets_cut))]

ghost use Rattle.std.specs.Prelude.{◌≡◌, [], ◌∷◌, true, Some, None, pos};
ghost use Rattle.rasn_types.specs.Values.{whole, truth};
ghost use Rattle.rasn_schema.specs.Depth.{meets_cut};
ghost use Rattle.per_core.specs.Basic.{fills_known, read};
ghost use Rattle.per_core.specs.Versions.{NewerType, project, widen};
ghost use Rattle.per_rows.specs.Build.{uper, extended};
ghost use Rattle.per_rows.specs.DeepDefaults.{keyed, longer_keyed, flagged, deeply_flagged};
ghost use Rattle.per_rows.specs.Samples.{nested};

/// UPER SEQUENCE { k INTEGER, d Nest DEFAULT a value of 200 levels, ... }, and with the addition x BOOLEAN OPTIONAL: a
/// number with a superfluous octet is read by both, and what the older one reads is the projection, though no tree of
/// 128 levels holds the default (X.691, 11.8, 19.5).
pub fn uper_deep_default_is_read_by_two_versions()
    ensures versions { NewerType longer_keyed keyed }
    ensures newer { read uper longer_keyed (extended (whole (pos 5) ∷ nested 199 ∷ []) (None ∷ [])) (0x00 ∷ 0x80 ∷ 0x01
        ∷ 0x40 ∷ []) }
    ensures older { read uper keyed (extended (whole (pos 5) ∷ nested 199 ∷ []) []) (0x00 ∷ 0x80 ∷ 0x01 ∷ 0x40 ∷ []) }
    ensures value { project (longer_keyed 201) (keyed 201) (extended (whole (pos 5) ∷ nested 199 ∷ []) (None ∷ []))
        ≡ Some (extended (whole (pos 5) ∷ nested 199 ∷ []) []) }
    ensures too_deep { meets_cut (keyed 128) (extended (whole (pos 5) ∷ nested 199 ∷ []) []) ≡ true }
{}

/// UPER SEQUENCE { a BOOLEAN, ... }, and with that d as an addition: a bitmap without a one is read by both, and what
/// the newer one reads is the widening (X.691, 19.5, 19.7).
pub fn uper_deep_added_default_is_read_by_two_versions()
    ensures versions { NewerType deeply_flagged flagged }
    ensures older { fills_known uper (flagged 128) (extended (truth true ∷ []) []) (0xc0 ∷ 0x00 ∷ []) }
    ensures newer { read uper deeply_flagged (extended (truth true ∷ []) (Some (nested 199) ∷ [])) (0xc0 ∷ 0x00 ∷ []) }
    ensures value { widen (deeply_flagged 201) (flagged 201) (extended (truth true ∷ []) [])
        ≡ Some (extended (truth true ∷ []) (Some (nested 199) ∷ [])) }
    ensures too_deep { meets_cut (deeply_flagged 128) (extended (truth true ∷ []) (Some (nested 199) ∷ [])) ≡ true }
{}
