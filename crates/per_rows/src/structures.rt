//! Defaults, lists, items and choices as they are read back: of their canonical octets their value, and of octets that
//! are cut off nothing.
#![tactic(auto)]

ghost use Rattle.std.specs.Prelude.{List, [], ◌∷◌, ◌++◌, replicate, true, false, pos};
ghost use Rattle.rasn_types.specs.Values.{Value, whole, truth, item, root, nothing, alternative};
ghost use Rattle.rasn_constraints.specs.Bounds.{any_size};
ghost use Rattle.rasn_schema.specs.Schemas.{Schema};
ghost use Rattle.per_core.specs.Basic.{fills};
ghost use Rattle.per_rows.specs.Build.{aper, uper, list, list_of, with_all, sized};
ghost use Rattle.per_rows.specs.Samples.{byte, with_default, with_item, x_y_or_z};

/// UPER SEQUENCE { a INTEGER (0..7) DEFAULT 3 }: presence bit 0 is the default, after presence bit 1 stands a number
/// (X.691 19.2, 19.5).
pub fn uper_default_is_read_of_its_presence_bit()
    ensures absent { fills uper with_default (with_all (whole (pos 3) ∷ [])) (0x00 ∷ []) }
    ensures there { fills uper with_default (with_all (whole (pos 5) ∷ [])) (0xd0 ∷ []) }
{}

/// UPER CHOICE { x BOOLEAN, y CHOICE { p BOOLEAN, q NULL }, z NULL }: the index tells the alternative, that of y one of
/// its own; no octets tell none (X.691 23).
pub fn uper_choice_is_read_of_its_index()
    ensures first { fills uper x_y_or_z (alternative root 0 (truth true)) (0x20 ∷ []) }
    ensures second_first { fills uper x_y_or_z (alternative root 1 (alternative root 0 (truth true))) (0x50 ∷ []) }
    ensures second_second { fills uper x_y_or_z (alternative root 1 (alternative root 1 nothing)) (0x60 ∷ []) }
    ensures third { fills uper x_y_or_z (alternative root 2 nothing) (0x80 ∷ []) }
    ensures no_octets { (v : Value) → ¬ (fills uper x_y_or_z v []) }
{}

/// ENUMERATED of 256 items after a BOOLEAN: the last item is read of the last index, in both variants (X.691 14.2).
pub fn last_of_256_items_is_read()
    ensures in_uper { fills uper with_item (with_all (truth true ∷ item root 255 ∷ [])) (0xff ∷ 0x80 ∷ []) }
    ensures in_aper { fills aper with_item (with_all (truth true ∷ item root 255 ∷ [])) (0x80 ∷ 0xff ∷ []) }
    ensures cut_off { (v : Value) → ¬ (fills uper with_item v (0xff ∷ [])) }
{}

/// SEQUENCE (SIZE (1..300)) OF NULL: 300 items are read of their count, in both variants (X.691 18, 20).
pub fn list_of_null_is_read_of_its_count()
    ensures in_uper { fills uper (list_of Schema.null (sized 1 300)) (list (replicate 300 nothing))
        (0x95 ∷ 0x80 ∷ []) }
    ensures in_aper { fills aper (list_of Schema.null (sized 1 300)) (list (replicate 300 nothing))
        (0x01 ∷ 0x2b ∷ []) }
{}

/// UPER SEQUENCE OF NULL: 196608 items are read of three fragments and a last length of zero, and nothing without that
/// length (X.691 11.9.3.8, 18).
pub fn uper_list_in_fragments_is_read_to_its_last_length()
    ensures all { fills uper (list_of Schema.null any_size) (list (replicate 196608 nothing))
        (0xc4 ∷ 0xc4 ∷ 0xc4 ∷ 0x00 ∷ []) }
    ensures no_last_length { (v : Value)
        → ¬ (fills uper (list_of Schema.null any_size) v (0xc4 ∷ 0xc4 ∷ 0xc4 ∷ [])) }
{}

/// UPER SEQUENCE OF SEQUENCE of eight BOOLEAN: 99000 of them are read of fragments of 65536 and 32768 and a last count
/// of 696 (X.691 11.9.3.8, 20).
pub fn uper_long_list_of_bytes_is_read_of_its_fragments()
    ensures { fills uper (list_of byte any_size) (list (replicate 99000 (with_all (replicate 8 (truth false)))))
        (0xc4 ∷ (replicate 65536 0x00 ++ 0xc2 ∷ (replicate 32768 0x00 ++ 0x82 ∷ 0xb8 ∷ replicate 696 0x00))) }
{}
