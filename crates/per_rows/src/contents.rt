//! Octets that contain a value (X.682 11; X.691 11.2).
#![tactic(auto, unfolding(per_core::specs::Canon::bytes, rasn_schema::specs::Normal::normal))]

ghost use Rattle.std.specs.Prelude.{◌≡◌, [], ◌∷◌, true, false, Some, None, pos};
ghost use Rattle.rasn_types.specs.Values.{bits, nothing, truth, whole};
ghost use Rattle.rasn_types.specs.Variants.{aligned, unaligned};
ghost use Rattle.rasn_constraints.specs.Bounds.{any_size, between};
ghost use Rattle.rasn_schema.specs.Normal.{normal};
ghost use Rattle.rasn_schema.specs.Schemas.{Schema};
ghost use Rattle.per_core.specs.Canon.{bytes};
ghost use Rattle.per_rows.specs.Build.{integer_in, named_bits, sequence, with_all};

/// OCTET STRING (CONTAINING BOOLEAN) and (CONTAINING NULL): the count of the octets, and the complete encoding, which
/// is one zero octet of no bits (X.691 11.1).
pub fn contents_are_complete_encodings()
    ensures some { bytes unaligned (Schema.containing Schema.boolean) (truth true) ≡ Some (0x01 ∷ 0x80 ∷ []) }
    ensures no_bits { bytes unaligned (Schema.containing Schema.null) nothing ≡ Some (0x01 ∷ 0x00 ∷ []) }
    ensures twice { bytes unaligned (Schema.containing (Schema.containing Schema.boolean)) (truth true)
        ≡ Some (0x02 ∷ 0x01 ∷ 0x80 ∷ []) }
{}

/// SEQUENCE { a BOOLEAN, b OCTET STRING (CONTAINING BOOLEAN) }: after a bit, in APER on the next octet.
pub fn contents_stand_after_a_bit()
    ensures uper { bytes unaligned (sequence (Schema.boolean ∷ Schema.containing Schema.boolean ∷ []))
        (with_all (truth true ∷ truth true ∷ [])) ≡ Some (0x80 ∷ 0xc0 ∷ 0x00 ∷ []) }
    ensures aper { bytes aligned (sequence (Schema.boolean ∷ Schema.containing Schema.boolean ∷ []))
        (with_all (truth true ∷ truth true ∷ [])) ≡ Some (0x80 ∷ 0x01 ∷ 0x80 ∷ []) }
{}

/// What they contain is in normal form (X.691 16.2), and what has no encoding isn't contained.
pub fn contents_are_canonical()
    ensures normal_form { let s = Schema.containing (named_bits any_size) in
        bytes unaligned s (normal s (bits (true ∷ false ∷ []))) ≡ Some (0x02 ∷ 0x01 ∷ 0x80 ∷ []) }
    ensures refused { let s = Schema.containing (integer_in (between (pos 0) (pos 7))) in
        bytes unaligned s (whole (pos 8)) ≡ None }
{}
