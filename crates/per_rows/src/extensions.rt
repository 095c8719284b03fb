//! SEQUENCE with an extension marker.
#![tactic(auto, unfolding(per_core::specs::Canon::bytes, rasn_schema::specs::Normal::normal))]

ghost use Rattle.std.specs.Prelude.{◌≡◌, List, [], ◌∷◌, ◌++◌, replicate, true, false, Some, None, pos};
ghost use Rattle.rasn_types.specs.Variants.{aligned, unaligned};
ghost use Rattle.rasn_types.specs.Values.{whole, truth, octets};
ghost use Rattle.rasn_schema.specs.Normal.{normal};
ghost use Rattle.per_core.specs.Canon.{bytes};
ghost use Rattle.per_rows.specs.Build.{extended, with_all, record_with};
ghost use Rattle.per_rows.specs.Samples.{outer1, outer3, with_group, many, no_additions, required_addition};
ghost use Rattle.per_rows.specs.Samples.{default_addition};

/// Two BOOLEAN, an addition group and an OCTET STRING: the extension bit, the root, the number of additions and their
/// presence bits, and each as an open type, which in APER is aligned from its own start (X.691 19.7 to 19.9).
pub fn additions_are_open_types()
    ensures uper { bytes unaligned outer3 (extended (truth true ∷ truth false ∷ [])
        (Some (with_all (truth true ∷ octets (1 ∷ 2 ∷ 3 ∷ []) ∷ [])) ∷ Some (octets (7 ∷ 8 ∷ 9 ∷ [])) ∷ []))
        ≡ Some (0xc0 ∷ 0x70 ∷ 0x48 ∷ 0x08 ∷ 0x10 ∷ 0x18 ∷ 0x00 ∷ 0x30 ∷ 0x70 ∷ 0x80 ∷ 0x90 ∷ []) }
    ensures aper { bytes aligned outer3 (extended (truth true ∷ truth false ∷ [])
        (Some (with_all (truth true ∷ octets (1 ∷ 2 ∷ 3 ∷ []) ∷ [])) ∷ Some (octets (7 ∷ 8 ∷ 9 ∷ [])) ∷ []))
        ≡ Some (0xc0 ∷ 0x70 ∷ 0x04 ∷ 0x80 ∷ 0x01 ∷ 0x02 ∷ 0x03 ∷ 0x03 ∷ 0x07 ∷ 0x08 ∷ 0x09 ∷ []) }
{}

/// Without additions the extension bit is 0, whether the schema lists any or none (X.691 19.1).
pub fn extension_bit_is_0_without_additions()
    ensures none_listed { bytes aligned outer1 (extended (truth true ∷ truth false ∷ []) []) ≡ Some (0x40 ∷ []) }
    ensures none_there { bytes aligned outer3 (extended (truth true ∷ truth false ∷ []) (None ∷ None ∷ []))
        ≡ Some (0x40 ∷ []) }
    ensures nothing { bytes unaligned no_additions (extended [] []) ≡ Some (0x00 ∷ []) }
{}

/// A group whose parts are all absent counts as absent (X.691 19.9).
pub fn uper_vacant_group_is_absent()
    ensures { bytes unaligned with_group (normal with_group (extended (truth true
        ∷ []) (Some (record_with (None ∷ [])) ∷ []))) ≡ Some (0x40 ∷ []) }
{}

/// 65 additions of which the last is there: bit 1, the number as a length, 65 presence bits and an open type; in APER
/// both lengths on octet boundaries (X.691 11.9.3.4).
pub fn more_than_64_additions_are_counted()
    ensures uper { bytes unaligned many (extended [] (replicate 64 None ++ Some (truth true) ∷ []))
        ≡ Some (0xd0 ∷ 0x40 ∷ (replicate 7 0x00 ++ 0x20 ∷ 0x30 ∷ 0x00 ∷ [])) }
    ensures aper { bytes aligned many (extended [] (replicate 64 None ++ Some (truth true) ∷ []))
        ≡ Some (0xc0 ∷ 0x41 ∷ (replicate 8 0x00 ++ 0x80 ∷ 0x01 ∷ 0x80 ∷ [])) }
{}

/// A required addition that is there, and an optional one that is absent; without the required one there is no
/// encoding (X.691 19.7 to 19.9).
pub fn uper_required_addition_is_always_there()
    ensures there { bytes unaligned required_addition (extended [] (Some (truth true) ∷ None ∷ []))
        ≡ Some (0x81 ∷ 0x80 ∷ 0x60 ∷ 0x00 ∷ []) }
    ensures missing { bytes unaligned required_addition (extended [] (None ∷ Some (truth true) ∷ [])) ≡ None }
{}

/// An addition at its default is absent (X.691 19.5, 19.9).
pub fn uper_addition_at_its_default_is_absent()
    ensures at_default { bytes unaligned default_addition (extended [] (Some (whole (pos 3)) ∷ [])) ≡ Some (0x00 ∷ []) }
    ensures other { bytes unaligned default_addition (extended [] (Some (whole (pos 5)) ∷ []))
        ≡ Some (0x80 ∷ 0x80 ∷ 0xd0 ∷ 0x00 ∷ []) }
{}
