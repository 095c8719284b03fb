//! Two versions of a type: what the older reader answers is the projection, what the newer one answers the widening.
#![tactic(auto, unfolding(
// Words that these rows unfold.
per_core::specs::Canon::bytes, rasn_schema::specs::Normal::normal, per_core::specs::Versions::project,
// More words.
per_core::specs::Versions::widen))]

ghost use Rattle.std.specs.Prelude.{◌≡◌, List, [], ◌∷◌, ◌++◌, replicate, true, false, Some, None, pos};
ghost use Rattle.rasn_types.specs.Variants.{aligned, unaligned};
ghost use Rattle.rasn_types.specs.Values.{whole, truth, octets, item, added, root, alternative};
ghost use Rattle.rasn_constraints.specs.Bounds.{any_size};
ghost use Rattle.rasn_schema.specs.Normal.{normal};
ghost use Rattle.per_core.specs.Canon.{bytes};
ghost use Rattle.per_core.specs.Versions.{project, widen};
ghost use Rattle.per_rows.specs.Build.{extended, extended_with, with_all, record_with, list_of, list};
ghost use Rattle.per_rows.specs.Samples.{outer1, outer2, outer3, one_color, two_colors, one_alternative};
ghost use Rattle.per_rows.specs.Samples.{two_alternatives, no_additions, required_addition, default_addition, default1};
ghost use Rattle.per_rows.specs.Samples.{default3, open_group, longer_group, shallow_version, deep_version, nested};

/// A reader without the additions keeps the root, and writes it with extension bit 0 (X.691 19.1, 19.9).
pub fn aper_reader_without_additions_keeps_the_root()
    ensures value { project outer3 outer1 (extended (truth true ∷ truth false ∷ [])
        (Some (with_all (truth true ∷ octets (1 ∷ 2 ∷ 3 ∷ []) ∷ [])) ∷ Some (octets (7 ∷ 8 ∷ 9 ∷ [])) ∷ []))
        ≡ Some (extended (truth true ∷ truth false ∷ []) []) }
    ensures octets { bytes aligned outer1 (extended (truth true ∷ truth false ∷ []) []) ≡ Some (0x40 ∷ []) }
{}

/// A reader of the version between keeps the first addition alone (X.691 19.7 to 19.9).
pub fn aper_reader_between_keeps_what_it_knows()
    ensures value { project outer3 outer2 (extended (truth true ∷ truth false ∷ [])
        (Some (with_all (truth true ∷ octets (1 ∷ 2 ∷ 3 ∷ []) ∷ [])) ∷ Some (octets (7 ∷ 8 ∷ 9 ∷ [])) ∷ []))
        ≡ Some (extended (truth true ∷ truth false ∷ []) (Some (with_all (truth true ∷ octets (1 ∷ 2 ∷ 3 ∷ []) ∷ []))
        ∷ [])) }
    ensures octets { bytes aligned outer2 (extended (truth true ∷ truth false
        ∷ []) (Some (with_all (truth true ∷ octets (1 ∷ 2 ∷ 3 ∷ []) ∷ [])) ∷ []))
        ≡ Some (0xc0 ∷ 0x20 ∷ 0x04 ∷ 0x80 ∷ 0x01 ∷ 0x02 ∷ 0x03 ∷ []) }
{}

/// A newer reader adds what is absent, and writes a presence bit for it (X.691 19.7 to 19.9).
pub fn aper_newer_reader_finds_its_addition_absent()
    ensures value { widen outer3 outer2 (extended (truth true ∷ truth false
        ∷ []) (Some (with_all (truth true ∷ octets (1 ∷ 2 ∷ 3 ∷ []) ∷ [])) ∷ []))
        ≡ Some (extended (truth true ∷ truth false ∷ []) (Some (with_all (truth true ∷ octets (1 ∷ 2 ∷ 3 ∷ []) ∷ []))
        ∷ None ∷ [])) }
    ensures octets { bytes aligned outer3 (extended (truth true ∷ truth false
        ∷ []) (Some (with_all (truth true ∷ octets (1 ∷ 2 ∷ 3 ∷ []) ∷ [])) ∷ None ∷ []))
        ≡ Some (0xc0 ∷ 0x60 ∷ 0x04 ∷ 0x80 ∷ 0x01 ∷ 0x02 ∷ 0x03 ∷ []) }
    ensures from_none { widen outer3 outer1 (extended (truth true ∷ truth false ∷ []) [])
        ≡ Some (extended (truth true ∷ truth false ∷ []) (None ∷ None ∷ [])) }
{}

/// In a list each record is read by itself, those with additions and those without (X.691 19, 20).
pub fn aper_list_of_two_versions()
    ensures newer { bytes aligned (list_of outer3 any_size) (list (
        extended (truth true ∷ truth false ∷ []) (Some (with_all (truth true ∷ octets (1 ∷ 2 ∷ 3 ∷ []) ∷ []))
        ∷ Some (octets (7 ∷ 8 ∷ 9 ∷ [])) ∷ [])
        ∷ extended (truth false ∷ truth true ∷ []) (None ∷ None ∷ [])
        ∷ []))
        ≡ Some (0x02 ∷ 0xc0 ∷ 0x70 ∷ 0x04 ∷ 0x80 ∷ 0x01 ∷ 0x02 ∷ 0x03 ∷ 0x03 ∷ 0x07 ∷ 0x08 ∷ 0x09 ∷ 0x20 ∷ []) }
    ensures value { project (list_of outer3 any_size) (list_of outer1 any_size) (list (
        extended (truth true ∷ truth false ∷ []) (Some (with_all (truth true ∷ octets (1 ∷ 2 ∷ 3 ∷ []) ∷ []))
        ∷ Some (octets (7 ∷ 8 ∷ 9 ∷ [])) ∷ [])
        ∷ extended (truth false ∷ truth true ∷ []) (None ∷ None ∷ [])
        ∷ []))
        ≡ Some (list (extended (truth true ∷ truth false ∷ []) [] ∷ extended (truth false ∷ truth true ∷ []) [] ∷ [])) }
    ensures older { bytes aligned (list_of outer1 any_size) (list (extended (truth true ∷ truth false ∷ []) []
        ∷ extended (truth false ∷ truth true ∷ []) [] ∷ []))
        ≡ Some (0x02 ∷ 0x44 ∷ []) }
{}

/// A part that is at its default once its additions are dropped is written as absent by the older version (X.691 19.5).
pub fn aper_default_of_two_versions()
    ensures newer { bytes aligned default3 (with_all (extended (truth true ∷ truth false ∷ []) (None
        ∷ Some (octets (7 ∷ 8 ∷ 9 ∷ [])) ∷ []) ∷ []))
        ≡ Some (0xe0 ∷ 0x28 ∷ 0x03 ∷ 0x07 ∷ 0x08 ∷ 0x09 ∷ []) }
    ensures value { project default3 default1 (with_all (extended (truth true ∷ truth false ∷ []) (None
        ∷ Some (octets (7 ∷ 8 ∷ 9 ∷ [])) ∷ []) ∷ []))
        ≡ Some (with_all (extended (truth true ∷ truth false ∷ []) [] ∷ [])) }
    ensures older { bytes aligned default1 (with_all (extended (truth true ∷ truth false ∷ []) [] ∷ []))
        ≡ Some (0x00 ∷ []) }
{}

/// An item or an alternative that the older version lacks has no projection (X.691 14, 23).
pub fn older_reader_refuses_what_it_lacks()
    ensures an_item { project two_colors one_color (item added 0) ≡ None }
    ensures an_alternative { project two_alternatives one_alternative (alternative added 0 (truth true)) ≡ None }
    ensures a_known_one { project two_alternatives one_alternative (alternative root 0 (truth true))
        ≡ Some (alternative root 0 (truth true)) }
{}

/// An addition that the newer version requires has no widening; one with a default is at it (X.691 19.5, 19.9).
pub fn newer_reader_asks_for_its_required_addition()
    ensures lacking { widen required_addition no_additions (extended [] []) ≡ None }
    ensures at_default { widen default_addition no_additions (extended [] [])
        ≡ Some (extended [] (Some (whole (pos 3)) ∷ [])) }
    ensures octets { bytes unaligned default_addition (extended [] (Some (whole (pos 3)) ∷ [])) ≡ Some (0x00 ∷ []) }
{}

/// A group whose own addition alone is there is read by the older version as a group without parts, which it writes as
/// absent (X.691 19.9).
pub fn uper_group_of_two_versions()
    ensures newer { bytes unaligned longer_group (extended (truth true
        ∷ []) (Some (extended_with (None ∷ []) (Some (truth true) ∷ [])) ∷ []))
        ≡ Some (0xc0 ∷ 0x41 ∷ 0x20 ∷ 0x10 ∷ 0x18 ∷ 0x00 ∷ 0x00 ∷ []) }
    ensures value { project longer_group open_group (extended (truth true
        ∷ []) (Some (extended_with (None ∷ []) (Some (truth true) ∷ [])) ∷ []))
        ≡ Some (extended (truth true ∷ []) (Some (extended_with (None ∷ []) []) ∷ [])) }
    ensures settled { normal open_group (extended (truth true ∷ []) (Some (extended_with (None ∷ []) []) ∷ []))
        ≡ extended (truth true ∷ []) (None ∷ []) }
    ensures older { bytes unaligned open_group (extended (truth true ∷ []) (None ∷ [])) ≡ Some (0x40 ∷ []) }
{}

/// An addition deeper than a reader of it may go is nothing to a reader without it (X.691 11.2, 19.9).
pub fn uper_deep_addition_of_two_versions()
    ensures newer { bytes unaligned (deep_version 201) (extended (truth true ∷ []) (Some (nested 199) ∷ []))
        ≡ Some (0xc0 ∷ 0x46 ∷ 0x7f ∷ (replicate 24 0xff ++ 0x80 ∷ [])) }
    ensures value { project (deep_version 201) shallow_version (extended (truth true ∷ []) (Some (nested 199) ∷ []))
        ≡ Some (extended (truth true ∷ []) []) }
    ensures too_deep { bytes unaligned (deep_version 128) (extended (truth true ∷ []) (Some (nested 199) ∷ [])) ≡ None }
    ensures one_level { bytes unaligned (deep_version 128) (extended (truth true ∷ []) (Some (nested 0) ∷ []))
        ≡ Some (0xc0 ∷ 0x40 ∷ 0x40 ∷ 0x00 ∷ []) }
{}
