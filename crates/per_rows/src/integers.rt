//! BOOLEAN, NULL, ENUMERATED and INTEGER.
#![tactic(auto, unfolding(per_core::specs::Canon::bytes))]

ghost use Rattle.std.specs.Prelude.{◌≡◌, ◌+◌, ◌^◌, ◌-◌, List, [], ◌∷◌, ◌++◌, replicate, true, false, Some, None, pos};
ghost use Rattle.rasn_types.specs.Variants.{aligned, unaligned};
ghost use Rattle.rasn_types.specs.Values.{whole, truth, nothing, item, root, added};
ghost use Rattle.rasn_constraints.specs.Bounds.{between, unbounded};
ghost use Rattle.rasn_schema.specs.Schemas.{Schema};
ghost use Rattle.per_core.specs.Writers.{complete};
ghost use Rattle.per_core.specs.Canon.{bytes};
ghost use Rattle.per_rows.specs.Build.{integer, integer_in, extensible_integer, at_least, at_most, minus};
ghost use Rattle.per_rows.specs.Samples.{one_color, two_colors};

/// BOOLEAN is one bit, 1 for TRUE; NULL is no bits, and its complete encoding one zero octet (X.691 11.1.3, 12, 18).
pub fn boolean_is_one_bit()
    ensures truth { bytes unaligned Schema.boolean (truth true) ≡ Some (0x80 ∷ []) }
    ensures falsehood { bytes aligned Schema.boolean (truth false) ≡ Some (0x00 ∷ []) }
    ensures null { bytes unaligned Schema.null nothing ≡ Some (0x00 ∷ []) }
    ensures no_bits { complete [] ≡ 0x00 ∷ [] }
{}

/// UPER INTEGER: a length in octets, and the fewest octets in two's complement (X.691 11.8).
pub fn uper_integer_takes_its_fewest_octets()
    ensures positive { bytes unaligned integer (whole (pos 4096)) ≡ Some (0x02 ∷ 0x10 ∷ 0x00 ∷ []) }
    ensures sign_bit { bytes unaligned integer (whole (pos 128)) ≡ Some (0x02 ∷ 0x00 ∷ 0x80 ∷ []) }
    ensures negative { bytes unaligned integer (whole (minus 129)) ≡ Some (0x02 ∷ 0xff ∷ 0x7f ∷ []) }
    ensures small { bytes unaligned integer (whole (pos 5)) ≡ Some (0x01 ∷ 0x05 ∷ []) }
{}

/// UPER INTEGER: 2 to the 127th, which is past 128 bits with a sign, takes seventeen octets (X.691 11.8).
pub fn uper_integer_passes_128_bits()
    ensures { bytes unaligned integer (whole (pos (2 ^ 127))) ≡ Some (0x11 ∷ 0x00 ∷ 0x80 ∷ replicate 15 0x00) }
{}

/// UPER INTEGER (..65535), -128: an upper bound alone changes nothing (X.691 11.8).
pub fn uper_upper_bound_alone_is_unconstrained()
    ensures { bytes unaligned (integer_in (at_most (pos 65535))) (whole (minus 128)) ≡ Some (0x01 ∷ 0x80 ∷ []) }
{}

/// UPER INTEGER (-1..): the offset from the lower bound, unsigned (X.691 11.7).
pub fn uper_lower_bound_alone_writes_the_offset()
    ensures offset { bytes unaligned (integer_in (at_least (minus 1))) (whole (pos 4096))
        ≡ Some (0x02 ∷ 0x10 ∷ 0x01 ∷ []) }
    ensures greatest { bytes unaligned (integer_in (at_least (minus 1))) (whole (pos (2 ^ 127 - 1)))
        ≡ Some (0x10 ∷ 0x80 ∷ replicate 15 0x00) }
    ensures refused { bytes unaligned (integer_in (at_least (minus 1))) (whole (pos (2 ^ 127))) ≡ None }
{}

/// UPER INTEGER (-1..254): the offset in eight bits; a number out of bounds has no encoding (X.691 11.5.6).
pub fn uper_two_bounds_write_the_offset_in_bits()
    ensures offset { bytes unaligned (integer_in (between (minus 1) (pos 254))) (whole (pos 5)) ≡ Some (0x06 ∷ []) }
    ensures above { bytes unaligned (integer_in (between (minus 1) (pos 254))) (whole (pos 255)) ≡ None }
    ensures below { bytes unaligned (integer_in (between (minus 1) (pos 254))) (whole (minus 2)) ≡ None }
{}

/// APER INTEGER (0..65536): the count of octets in two bits, padding, and the fewest octets (X.691 11.5.7.4).
pub fn aper_wide_range_counts_its_octets()
    ensures one_octet { bytes aligned (integer_in (between (pos 0) (pos 65536))) (whole (pos 253))
        ≡ Some (0x00 ∷ 0xfd ∷ []) }
    ensures two_octets { bytes aligned (integer_in (between (pos 0) (pos 65536))) (whole (pos 256))
        ≡ Some (0x40 ∷ 0x01 ∷ 0x00 ∷ []) }
    ensures three_octets { bytes aligned (integer_in (between (pos 0) (pos 65536))) (whole (pos 65536))
        ≡ Some (0x80 ∷ 0x01 ∷ 0x00 ∷ 0x00 ∷ []) }
{}

/// UPER INTEGER (1..10, ...): bit 0 and four bits in the root, else bit 1 and an unconstrained number (X.691 13.1).
pub fn uper_extensible_integer_has_its_bit_first()
    ensures inside { bytes unaligned (extensible_integer (between (pos 1) (pos 10))) (whole (pos 5))
        ≡ Some (0x20 ∷ []) }
    ensures outside { bytes unaligned (extensible_integer (between (pos 1) (pos 10))) (whole (pos 16))
        ≡ Some (0x80 ∷ 0x88 ∷ 0x00 ∷ []) }
{}

/// The range of the number's type is a bound on its values, and takes no part in the encoding (own to this profile).
pub fn uper_number_type_bounds_the_value()
    ensures fits { bytes unaligned (Schema.number unbounded false (between (pos 0) (pos 255))) (whole (pos 255))
        ≡ Some (0x02 ∷ 0x00 ∷ 0xff ∷ []) }
    ensures past { bytes unaligned (Schema.number unbounded false (between (pos 0) (pos 255))) (whole (pos 256))
        ≡ None }
{}

/// UPER ENUMERATED { a, ..., b }: the extension bit, then the index in no bits, or as a normally small number (X.691
/// 14).
pub fn uper_enumerated_addition_is_normally_small()
    ensures root_item { bytes unaligned two_colors (item root 0) ≡ Some (0x00 ∷ []) }
    ensures added_item { bytes unaligned two_colors (item added 0) ≡ Some (0x80 ∷ []) }
    ensures unknown { bytes unaligned one_color (item added 0) ≡ None }
{}

/// ENUMERATED of an item and 257 after the extension marker: the place of one below 64 in six bits, and from there on
/// after a bit 1 and a length in octets, which in APER begins on an octet boundary (X.691 11.6, 14.3).
pub fn enumerated_addition_from_64_on_is_written_in_octets()
    ensures below { bytes unaligned (Schema.items 1 257 true) (item added 63) ≡ Some (0xbf ∷ []) }
    ensures uper { bytes unaligned (Schema.items 1 257 true) (item added 64) ≡ Some (0xc0 ∷ 0x50 ∷ 0x00 ∷ []) }
    ensures aper { bytes aligned (Schema.items 1 257 true) (item added 64) ≡ Some (0xc0 ∷ 0x01 ∷ 0x40 ∷ []) }
    ensures last { bytes unaligned (Schema.items 1 257 true) (item added 256)
        ≡ Some (0xc0 ∷ 0x80 ∷ 0x40 ∷ 0x00 ∷ []) }
    ensures unknown { bytes unaligned (Schema.items 1 257 true) (item added 257) ≡ None }
{}
