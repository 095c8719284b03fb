//! What isn't allowed between two versions has a name and a place (X.680, 52).
#![tactic(auto)]

ghost use Rattle.std.specs.Prelude.{◌≡◌, [], ◌∷◌, pos, true};
ghost use Rattle.rasn_below.specs.Components.{any, at, automatic, bit_string, boolean, choice, default};
ghost use Rattle.rasn_below.specs.Components.{extensible_automatic, integer, named_bits, null, own_tags};
ghost use Rattle.rasn_below.specs.Components.{octet_string, optional, sequence, size◌to◌, u8, u16, under, ◌to◌};
ghost use Rattle.rasn_below.specs.Types.{always, any_size, list_at, sequence_at, Schema};
ghost use Rattle.rasn_below.specs.Values.{whole};
ghost use Rattle.per_core.specs.Versions.{NewerType};
ghost use Rattle.per_laws.specs.NamedBits.{NewerTypeButForNames};
ghost use Rattle.per_laws.specs.Compared.{comparison};
ghost use Rattle.per_laws.specs.Verdicts.{allowed, at_place, in_additions, in_element, in_root, left_out};
ghost use Rattle.per_laws.specs.Verdicts.{other_bounds, other_default, other_items, other_kind, other_marker};
ghost use Rattle.per_laws.specs.Verdicts.{other_presence, other_range, other_size, other_tag, put_in};
ghost use Rattle.per_samples_b.specs.Outers.{outer1, outer2, outer3};

/// An addition is left out at the end, or of the middle, so that the next one is in its place; and one is put in
/// front of others.
pub fn additions_stay_in_their_order()
    ensures at_the_end { comparison (sequence_at outer2) (sequence_at outer3) ≡ in_additions (at_place 1 left_out) }
    ensures of_the_middle { comparison
        (sequence_at (extensible_automatic (boolean ∷ boolean ∷ []) (optional (octet_string (size 3 to 3)) ∷ [])))
        (sequence_at outer3) ≡ in_additions (at_place 0 other_kind) }
    ensures in_front { comparison
        (sequence_at (extensible_automatic (boolean ∷ boolean ∷ []) (optional boolean ∷ optional null ∷ [])))
        (sequence_at (extensible_automatic (boolean ∷ boolean ∷ []) (optional null ∷ [])))
        ≡ in_additions (at_place 0 other_kind) }
    ensures no_version { ¬ (NewerType (sequence_at outer2) (sequence_at outer3)) }
{}

/// A component is put into the root, or left out of it; and a marker is put in.
pub fn root_stays_as_it_is()
    ensures more { comparison (sequence_at (extensible_automatic (boolean ∷ boolean ∷ boolean ∷ []) []))
        (sequence_at outer1) ≡ in_root (at_place 2 put_in) }
    ensures fewer { comparison (sequence_at (extensible_automatic (boolean ∷ []) [])) (sequence_at outer1)
        ≡ in_root (at_place 1 left_out) }
    ensures marker { comparison (sequence_at outer1) (sequence_at (automatic (boolean ∷ boolean ∷ []))) ≡ other_marker }
    ensures alternative { comparison (choice (extensible_automatic (boolean ∷ null ∷ []) [])).schema
        (choice (extensible_automatic (boolean ∷ []) [])).schema ≡ in_root (at_place 1 put_in) }
{}

/// A component has another tag, may be absent now, or is under other constraints; in a list too.
pub fn components_stay_as_they_are()
    ensures tag { comparison (sequence_at (own_tags (under (at 1) boolean ∷ [])))
        (sequence_at (own_tags (under (at 0) boolean ∷ []))) ≡ in_root (at_place 0 other_tag) }
    ensures presence { comparison (sequence_at (automatic (optional boolean ∷ [])))
        (sequence_at (automatic (boolean ∷ []))) ≡ in_root (at_place 0 other_presence) }
    ensures bounds { comparison (sequence_at (automatic (integer u8 (0 to 8) ∷ [])))
        (sequence_at (automatic (integer u8 (0 to 7) ∷ []))) ≡ in_root (at_place 0 other_bounds) }
    ensures range { comparison (sequence_at (automatic (integer u16 (0 to 7) ∷ [])))
        (sequence_at (automatic (integer u8 (0 to 7) ∷ []))) ≡ in_root (at_place 0 other_range) }
    ensures size { comparison (list_at (sequence_at (automatic (octet_string (size 3 to 4) ∷ []))) any_size true)
        (list_at (sequence_at (automatic (octet_string (size 3 to 3) ∷ []))) any_size true)
        ≡ in_element (in_root (at_place 0 other_size)) }
{}

/// Bits have names now, or have none now: of what is passed on zero bits at the end then go, which an older reader
/// tells apart (X.680, 22.7). It still reads the same bits, by the laws of `named_bits`.
pub fn bits_stay_with_names_or_without()
    ensures put_in { comparison (sequence_at (automatic (named_bits any ∷ [])))
        (sequence_at (automatic (bit_string any ∷ []))) ≡ in_root (at_place 0 other_kind) }
    ensures left_out { comparison (sequence_at (automatic (bit_string any ∷ [])))
        (sequence_at (automatic (named_bits any ∷ []))) ≡ in_root (at_place 0 other_kind) }
    ensures size { comparison (sequence_at (automatic (named_bits (size 2 to 9) ∷ [])))
        (sequence_at (automatic (named_bits (size 2 to 8) ∷ []))) ≡ in_root (at_place 0 other_size) }
    ensures same { comparison (sequence_at (automatic (named_bits (size 2 to 8) ∷ [])))
        (sequence_at (automatic (named_bits (size 2 to 8) ∷ []))) ≡ allowed }
    ensures but_for_names { NewerTypeButForNames (sequence_at (automatic (named_bits any ∷ [])))
        (sequence_at (automatic (bit_string any ∷ []))) }
{}

/// A default is another one.
#[tactic(auto, unfolding(per_laws::specs::Compared::is_widened))]
pub fn default_stays_as_it_is()
    ensures other { comparison (sequence_at (automatic (default (whole (pos 4)) (integer u8 (0 to 7)) ∷ [])))
        (sequence_at (automatic (default (whole (pos 3)) (integer u8 (0 to 7)) ∷ [])))
        ≡ in_root (at_place 0 other_default) }
    ensures same { comparison (sequence_at (automatic (default (whole (pos 3)) (integer u8 (0 to 7)) ∷ [])))
        (sequence_at (automatic (default (whole (pos 3)) (integer u8 (0 to 7)) ∷ []))) ≡ allowed }
{}

/// An item is put in before the marker, moved in front of it, or left out after it.
pub fn items_stay_as_they_are()
    ensures before { comparison (always (Schema.items 2 1 true)) (always (Schema.items 1 1 true)) ≡ other_items }
    ensures moved { comparison (always (Schema.items 2 0 true)) (always (Schema.items 1 1 true)) ≡ other_items }
    ensures behind { comparison (always (Schema.items 1 0 true)) (always (Schema.items 1 1 true)) ≡ other_items }
    ensures no_version { ¬ (NewerType (always (Schema.items 1 0 true)) (always (Schema.items 1 1 true))) }
{}
