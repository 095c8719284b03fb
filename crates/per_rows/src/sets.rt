//! SET and SET OF.
#![tactic(auto, unfolding(per_core::specs::Canon::bytes, rasn_types::specs::Values::bag_of))]

ghost use Rattle.std.specs.Prelude.{◌≡◌, List, [], ◌∷◌, true, false, Some, None, pos, negsuc};
ghost use Rattle.rasn_types.specs.Variants.{aligned, unaligned};
ghost use Rattle.rasn_types.specs.Values.{whole, truth, nothing, alternative, root, bag_of};
ghost use Rattle.rasn_constraints.specs.Bounds.{any_size};
ghost use Rattle.rasn_schema.specs.Schemas.{Schema};
ghost use Rattle.per_core.specs.Canon.{bytes};
ghost use Rattle.per_rows.specs.Build.{integer, with_all, record_with};
ghost use Rattle.per_rows.specs.Samples.{b_before_a, optional_members, untagged_member};

/// SET { b [1] INTEGER (0..255), a [0] BOOLEAN }: a is written first, since its tag is the smaller; padding follows
/// that order (X.691 21).
pub fn set_is_written_in_order_of_tags()
    ensures uper { bytes unaligned b_before_a (with_all (whole (pos 5) ∷ truth true ∷ [])) ≡ Some (0x82 ∷ 0x80 ∷ []) }
    ensures aper { bytes aligned b_before_a (with_all (whole (pos 5) ∷ truth true ∷ [])) ≡ Some (0x80 ∷ 0x05 ∷ []) }
{}

/// SET of three optional members, a private tag being the greatest: the presence bits too stand in order of tags
/// (X.691 21).
pub fn set_presence_bits_are_in_order_of_tags()
    ensures uper_one { bytes unaligned optional_members (record_with (Some (truth true) ∷ None ∷ None ∷ []))
        ≡ Some (0x30 ∷ []) }
    ensures aper_one { bytes aligned optional_members (record_with (Some (truth true) ∷ None ∷ None ∷ []))
        ≡ Some (0x30 ∷ []) }
    ensures uper_two { bytes unaligned optional_members (record_with (Some (truth true) ∷ Some (truth false) ∷ None
        ∷ [])) ≡ Some (0xa8 ∷ []) }
    ensures aper_two { bytes aligned optional_members (record_with (Some (truth true) ∷ Some (truth false) ∷ None
        ∷ [])) ≡ Some (0xa8 ∷ []) }
{}

/// SET with an untagged choice of tags 3 and 9 beside a member of tag 5: the choice counts with its smallest tag,
/// whichever is chosen (X.691 21).
pub fn set_orders_an_untagged_choice_by_its_smallest_tag()
    ensures uper_greater { bytes unaligned untagged_member (with_all (truth false ∷ alternative root 1 nothing ∷ []))
        ≡ Some (0x80 ∷ []) }
    ensures aper_greater { bytes aligned untagged_member (with_all (truth false ∷ alternative root 1 nothing ∷ []))
        ≡ Some (0x80 ∷ []) }
    ensures uper_smaller { bytes unaligned untagged_member (with_all (truth true ∷ alternative root 0 (truth false)
        ∷ [])) ≡ Some (0x20 ∷ []) }
    ensures aper_smaller { bytes aligned untagged_member (with_all (truth true ∷ alternative root 0 (truth false)
        ∷ [])) ≡ Some (0x20 ∷ []) }
{}

/// UPER SET OF INTEGER: the elements in ascending order of their encodings, whatever order they were given in (X.691
/// 22).
pub fn uper_set_of_is_in_order_of_encodings()
    ensures one_order { bytes unaligned (Schema.set_of integer any_size false)
        (bag_of (whole (pos 3) ∷ whole (pos 1) ∷ whole (pos 2) ∷ []))
        ≡ Some (0x03 ∷ 0x01 ∷ 0x01 ∷ 0x01 ∷ 0x02 ∷ 0x01 ∷ 0x03 ∷ []) }
    ensures another { bytes unaligned (Schema.set_of integer any_size false)
        (bag_of (whole (pos 2) ∷ whole (pos 3) ∷ whole (pos 1) ∷ []))
        ≡ Some (0x03 ∷ 0x01 ∷ 0x01 ∷ 0x01 ∷ 0x02 ∷ 0x01 ∷ 0x03 ∷ []) }
    ensures by_octets { bytes unaligned (Schema.set_of integer any_size false)
        (bag_of (whole (pos 256) ∷ whole (pos 5) ∷ [])) ≡ Some (0x02 ∷ 0x01 ∷ 0x05 ∷ 0x02 ∷ 0x01 ∷ 0x00 ∷ []) }
    ensures unlike_numbers { bytes unaligned (Schema.set_of integer any_size false)
        (bag_of (whole (pos 300) ∷ whole (negsuc 0) ∷ [])) ≡ Some (0x02 ∷ 0x01 ∷ 0xff ∷ 0x02 ∷ 0x01 ∷ 0x2c ∷ []) }
    ensures one_value { bag_of (whole (pos 3) ∷ whole (pos 1) ∷ whole (pos 2) ∷ [])
        ≡ bag_of (whole (pos 2) ∷ whole (pos 3) ∷ whole (pos 1) ∷ []) }
{}
