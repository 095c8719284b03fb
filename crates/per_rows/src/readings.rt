//! Octets that a reader takes besides the canonical ones. Where X.691 allows a writer no such form, taking it is own
//! to this profile.
#![tactic(auto)]

ghost use Rattle.std.specs.Prelude.{◌≡◌, List, [], ◌∷◌, ◌++◌, replicate, true, false, Some, None, pos};
ghost use Rattle.rasn_types.specs.Values.{Value, whole, truth, octets};
ghost use Rattle.rasn_constraints.specs.Bounds.{any_size, between};
ghost use Rattle.rasn_schema.specs.Schemas.{Schema};
ghost use Rattle.per_core.specs.Basic.{fills, front};
ghost use Rattle.per_rows.specs.Build.{aper, uper, zero_padded, integer, integer_in, extensible_integer, octet_string};
ghost use Rattle.per_rows.specs.Build.{extended, with_all, record_with};
ghost use Rattle.per_rows.specs.Samples.{with_default, deep, nest, nested, shallow_version, with_group};
ghost use Rattle.per_rows.specs.Samples.{required_addition, default_addition, no_additions, outer1, outer2, outer3};

/// UPER INTEGER: a superfluous leading octet is read (X.691 11.8).
pub fn uper_integer_is_read_of_superfluous_octets()
    ensures { fills uper integer (whole (pos 5)) (0x02 ∷ 0x00 ∷ 0x05 ∷ []) }
{}

/// UPER BOOLEAN: spare bits after the value are read whatever they are (X.691 11.1, 12).
pub fn uper_boolean_is_read_with_any_spare_bits()
    ensures { fills uper Schema.boolean (truth true) (0xff ∷ []) }
{}

/// UPER BOOLEAN at the beginning of three octets: the value, and the two octets after it (X.691 11.1, 12).
pub fn uper_boolean_is_read_of_a_front()
    ensures { front uper Schema.boolean (truth true) (0x80 ∷ 0xaa ∷ 0xbb ∷ []) (0xaa ∷ 0xbb ∷ []) }
{}

/// UPER OCTET STRING: a length below 128 is read of two octets, and 32768 octets of two fragments where one would do
/// (X.691 11.9.3.6 to 11.9.3.8).
pub fn uper_length_is_read_in_any_form()
    ensures two_octets { fills uper (octet_string any_size) (octets (0xaa ∷ 0xbb ∷ [])) (0x80 ∷ 0x02 ∷ 0xaa ∷ 0xbb
        ∷ []) }
    ensures two_fragments { fills uper (octet_string any_size) (octets (replicate 16384 0x2a ++ replicate 16384 0x2a))
        (0xc1 ∷ (replicate 16384 0x2a ++ 0xc1 ∷ (replicate 16384 0x2a ++ 0x00 ∷ []))) }
{}

/// UPER INTEGER (1..10, ...): a number of the root is read after extension bit 1 (X.691 13.1).
pub fn uper_root_number_is_read_as_an_extended_one()
    ensures { fills uper (extensible_integer (between (pos 1) (pos 10))) (whole (pos 5)) (0x80 ∷ 0x82 ∷ 0x80 ∷ []) }
{}

/// APER INTEGER (0..65536): a count of octets past the fewest is read, and any padding (X.691 11.5.7.4).
pub fn aper_wide_range_is_read_of_more_octets()
    ensures superfluous { fills aper (integer_in (between (pos 0) (pos 65536))) (whole (pos 5)) (0xc0 ∷ 0x00 ∷ 0x00
        ∷ 0x00 ∷ 0x05 ∷ []) }
    ensures padding { fills aper (integer_in (between (pos 0) (pos 65536))) (whole (pos 253)) (0x3f ∷ 0xfd ∷ []) }
{}

/// UPER SEQUENCE { a INTEGER (0..7) DEFAULT 3 }: a default that is written is read (X.691 19.5).
pub fn uper_default_is_read_where_it_is_written()
    ensures { fills uper with_default (with_all (whole (pos 3) ∷ [])) (0xb0 ∷ []) }
{}

/// UPER SEQUENCE { d Nest DEFAULT a value of 200 levels }: the default is read of a zero bit, though no level of it is
/// left to read (X.691 19.5).
pub fn uper_deep_default_is_read()
    ensures { fills uper (deep 128) (with_all (nested 199 ∷ [])) (0x00 ∷ []) }
{}

/// UPER SEQUENCE { first BOOLEAN, ..., [[ x BOOLEAN OPTIONAL ]] }: a group that is present is read as there, though
/// all its parts are absent; spare bits at the end of its open type are read whatever they are (X.691 11.2, 19.9).
pub fn uper_vacant_group_is_read_as_there()
    ensures zeros { fills uper with_group (extended (truth true ∷ []) (Some (record_with (None ∷ [])) ∷ [])) (0xc0
        ∷ 0x40 ∷ 0x40 ∷ 0x00 ∷ []) }
    ensures spare { fills uper with_group (extended (truth true ∷ []) (Some (record_with (None ∷ [])) ∷ [])) (0xc0
        ∷ 0x40 ∷ 0x40 ∷ 0x80 ∷ []) }
{}

/// UPER: additions past the end of a bitmap are absent (X.691 19.7, 19.8).
pub fn uper_short_bitmap_is_read()
    ensures { fills uper required_addition (extended [] (Some (truth true) ∷ None ∷ [])) (0x80 ∷ 0x80 ∷ 0xc0 ∷ 0x00
        ∷ []) }
{}

/// UPER: an addition that is written though it is at its default is read (X.691 19.5, 19.9).
pub fn uper_default_addition_is_read_where_it_is_written()
    ensures { fills uper default_addition (extended [] (Some (whole (pos 3)) ∷ [])) (0x80 ∷ 0x80 ∷ 0xb0 ∷ 0x00 ∷ []) }
{}

/// UPER: a bitmap without a one is read after extension bit 1, by each version (X.691 19.1, 19.7).
pub fn uper_bitmap_of_zeros_is_read()
    ensures unknown { fills uper outer1 (extended (truth true ∷ truth false ∷ []) []) (0xc0 ∷ 0x00 ∷ []) }
    ensures known { fills uper outer3 (extended (truth true ∷ truth false ∷ []) (None ∷ None ∷ [])) (0xc0 ∷ 0x00 ∷ []) }
    ensures nothing_else { fills uper no_additions (extended [] []) (0x80 ∷ 0x00 ∷ []) }
{}

/// APER: additions that a reader doesn't know are skipped, those after ones that it knows too (X.691 11.2, 19.9).
pub fn aper_unknown_additions_are_skipped()
    ensures all { fills aper outer1 (extended (truth true ∷ truth false ∷ []) []) (0xc0 ∷ 0x70 ∷ 0x04 ∷ 0x80 ∷ 0x01
        ∷ 0x02 ∷ 0x03 ∷ 0x03 ∷ 0x07 ∷ 0x08 ∷ 0x09 ∷ []) }
    ensures last { fills aper outer2 (extended (truth true ∷ truth false
        ∷ []) (Some (with_all (truth true ∷ octets (1 ∷ 2 ∷ 3 ∷ []) ∷ [])) ∷ []))
        (0xc0 ∷ 0x70 ∷ 0x04 ∷ 0x80 ∷ 0x01 ∷ 0x02 ∷ 0x03 ∷ 0x03 ∷ 0x07 ∷ 0x08 ∷ 0x09 ∷ []) }
{}

/// APER: the same with the group's length in two octets, where all additions are known and where none is (X.691 11.2,
/// 11.9.3.7).
pub fn aper_open_type_is_read_with_a_length_of_two_octets()
    ensures known { fills aper outer3 (extended (truth true ∷ truth false
        ∷ []) (Some (with_all (truth true ∷ octets (1 ∷ 2 ∷ 3 ∷ []) ∷ [])) ∷ Some (octets (7 ∷ 8 ∷ 9 ∷ [])) ∷ []))
        (0xc0 ∷ 0x70 ∷ 0x80 ∷ 0x04 ∷ 0x80 ∷ 0x01 ∷ 0x02 ∷ 0x03 ∷ 0x03 ∷ 0x07 ∷ 0x08 ∷ 0x09 ∷ []) }
    ensures unknown { fills aper outer1 (extended (truth true ∷ truth false ∷ []) [])
        (0xc0 ∷ 0x70 ∷ 0x80 ∷ 0x04 ∷ 0x80 ∷ 0x01 ∷ 0x02 ∷ 0x03 ∷ 0x03 ∷ 0x07 ∷ 0x08 ∷ 0x09 ∷ []) }
{}

/// APER: two additions with a bitmap in its large form, where all are known and where none is (X.691 11.9.3.4, 19.8).
pub fn aper_bitmap_is_read_in_its_large_form()
    ensures known { fills aper outer3 (extended (truth true ∷ truth false
        ∷ []) (Some (with_all (truth true ∷ octets (1 ∷ 2 ∷ 3 ∷ []) ∷ [])) ∷ Some (octets (7 ∷ 8 ∷ 9 ∷ [])) ∷ []))
        (0xd0 ∷ 0x02 ∷ 0xc0 ∷ 0x04 ∷ 0x80 ∷ 0x01 ∷ 0x02 ∷ 0x03 ∷ 0x03 ∷ 0x07 ∷ 0x08 ∷ 0x09 ∷ []) }
    ensures unknown { fills aper outer1 (extended (truth true ∷ truth false ∷ []) [])
        (0xd0 ∷ 0x02 ∷ 0xc0 ∷ 0x04 ∷ 0x80 ∷ 0x01 ∷ 0x02 ∷ 0x03 ∷ 0x03 ∷ 0x07 ∷ 0x08 ∷ 0x09 ∷ []) }
{}

/// UPER: the contents of an addition that isn't known are not looked at, by a reader that wants zero padding either
/// (X.691 11.2, 19.9).
pub fn uper_skipped_addition_may_have_any_spare_bits()
    ensures zeros { fills uper shallow_version (extended (truth true ∷ []) []) (0xc0 ∷ 0x40 ∷ 0x40 ∷ 0x00 ∷ []) }
    ensures ones { fills (zero_padded uper) shallow_version (extended (truth true ∷ []) []) (0xc0 ∷ 0x40 ∷ 0x40 ∷ 0x80
        ∷ []) }
{}

/// UPER Nest ::= SEQUENCE { inner Nest OPTIONAL } within 128 levels: 128 are read, 129 are not (X.691 19).
pub fn uper_recursive_sequence_is_read_to_its_levels()
    ensures levels_128 { fills uper (nest 128) (nested 127) (replicate 15 0xff ++ 0xfe ∷ []) }
    ensures levels_129 { (v : Value) → ¬ (fills uper (nest 128) v (replicate 16 0xff ++ 0x00 ∷ [])) }
{}
