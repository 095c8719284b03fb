//! What a lawful type gives to the laws, and what each demand on a lawful schema is good for. A type is a family of
//! trees, one for each number of levels; it is lawful where these are its unfoldings and each of them is lawful.

ghost use Rattle.std.specs.Prelude.{◌≡◌, ◌↔◌, ◌⊎◌, ◌+◌, ◌<◌, ◌≤◌, ◌^◌, ℕ, Bool, true, false, List, Some, ℤ};
ghost use Rattle.rasn_types.specs.Bits.{Bits};
ghost use Rattle.rasn_types.specs.Values.{Value, Side, Slots, fields, slots};
ghost use Rattle.rasn_types.specs.Variants.{Variant};
ghost use Rattle.rasn_constraints.specs.Bounds.{holds, above, Bounds};
ghost use Rattle.rasn_schema.specs.Depth.{Unfolds, meets_cut};
ghost use Rattle.rasn_schema.specs.Lawful.{IsLawful, IsLawfulType, is_value};
ghost use Rattle.rasn_schema.specs.Normal.{normal};
ghost use Rattle.rasn_schema.specs.Schemas.{Tag, default, Order, by_tag, Schema, Parts};
ghost use Rattle.per_core.specs.Basic.{basic, fills_known, read};
ghost use Rattle.per_core.specs.Canon.{canon, bytes};
ghost use Rattle.per_core.specs.Spellings.{Settings};
ghost use Rattle.per_core.specs.Versions.{NewerType, project, widen};
ghost use Rattle.per_laws.specs.Successors.{SucceedsType};
ghost use Rattle.per_laws.specs.Listings.{has_tag, HasDefault, Relisted};
ghost use Rattle.per_laws.specs.Written.{is_written, writes_cut};

/// A lawful type's trees are its unfoldings: each is the next one cut off, and every value is whole in one of them.
pub fn lawful_type_unfolds()
    ensures { (family : ℕ → Schema) → IsLawfulType family → Unfolds family }
{}

/// A value of a lawful type has one normal form at all depths that hold the value, and the normal form of that is
/// itself (X.691, 19.9).
pub fn lawful_type_has_one_normal_form()
    ensures { (family : ℕ → Schema) → IsLawfulType family → (v : Value) (m n : ℕ) → meets_cut (family m) v ≡ false
        → meets_cut (family n) v ≡ false →
        (normal (family m) v ≡ normal (family n) v) × (normal (family m) (normal (family n) v) ≡ normal (family n) v) }
{}

/// A value of a lawful type has one canonical encoding: all depths that have one have the same, and once a depth that
/// holds the value has one, so has each greater depth.
pub fn lawful_type_has_one_encoding()
    ensures one { (a : Variant) (family : ℕ → Schema) → IsLawfulType family
        → (v : Value) (k l m n : ℕ) (os ps : List ℕ) → meets_cut (family k) v ≡ false → meets_cut (family l) v ≡ false →
        bytes a (family m) (normal (family k) v) ≡ Some os → bytes a (family n) (normal (family l) v) ≡ Some ps → os
        ≡ ps }
    ensures deeper { (a : Variant) (family : ℕ → Schema) → IsLawfulType family → (v : Value) (os : List ℕ) (m n : ℕ)
        → m ≤ n → meets_cut (family m) v ≡ false →
        bytes a (family m) (normal (family m) v) ≡ Some os → bytes a (family n) (normal (family n) v) ≡ Some os }
{}

/// Two values of a lawful type, each encoded at some depth that holds it, have equal bytes exactly where their normal
/// forms are equal.
pub fn lawful_type_tells_values_apart()
    ensures { (a : Variant) (family : ℕ → Schema) → IsLawfulType family → (v w : Value) (m n : ℕ) (os ps : List ℕ)
        → meets_cut (family m) v ≡ false → meets_cut (family n) w ≡ false →
        bytes a (family m) (normal (family m) v) ≡ Some os → bytes a (family n) (normal (family n) w) ≡ Some ps
        → (os ≡ ps) ↔ (normal (family m) v ≡ normal (family n) w) }
{}

/// Of a lawful type's canonical bytes, written at any depth, its reader within 128 levels reads their value and no
/// other; it refuses them exactly where a part that is written is at a Cut of its tree.
pub fn lawful_type_reads()
    ensures { (a : Settings) (family : ℕ → Schema) → IsLawfulType family → (v w : Value) (os : List ℕ) (n : ℕ)
        → bytes a.variant (family n) v ≡ Some os →
        read a family w os ↔ ((w ≡ v) × (writes_cut (family 128) (family 128) v ≡ false)) }
{}

/// Of a newer lawful type's canonical bytes an older one's reader within 128 levels reads the projection and nothing
/// else; it refuses them exactly where there is none, or where a part that is written, outside the additions that are
/// dropped, is at a Cut of its tree (X.680, section 52).
pub fn older_lawful_type_reads()
    ensures { (a : Settings) (newer older : ℕ → Schema) → IsLawfulType newer → IsLawfulType older
        → NewerType newer older → (v w : Value) (os : List ℕ) (m n : ℕ) → m ≤ n → 128 ≤ n →
        meets_cut (newer n) v ≡ false → bytes a.variant (newer m) v ≡ Some os →
        read a older w os ↔ ((project (newer n) (older n) v ≡ Some w)
        × (writes_cut (older 128) (newer 128) v ≡ false)) }
{}

/// Of an older lawful type's canonical bytes a newer one's reader within 128 levels reads the widening and nothing
/// else; it refuses them exactly where there is none, or where a part that is written is at a Cut of its tree
/// (X.680, section 52).
pub fn newer_lawful_type_reads()
    ensures { (a : Settings) (newer older : ℕ → Schema) → IsLawfulType newer → IsLawfulType older
        → NewerType newer older → (v w : Value) (os : List ℕ) (m n : ℕ) → m ≤ n → 128 ≤ n →
        bytes a.variant (older m) v ≡ Some os → meets_cut (newer n) w ≡ false →
        read a newer w os ↔ ((widen (newer n) (older n) v ≡ Some w) × (writes_cut (newer 128) (older 128) v ≡ false)) }
{}

/// Of any octets that a newer lawful type's reader within 128 levels reads, canonical or not, an older one's reads the
/// projection, taken in trees that hold the value, and nothing else; it refuses them exactly where there is none, and
/// no depth is asked of what isn't written (X.680, section 52).
pub fn older_lawful_reader_reads_the_projection()
    ensures { (a : Settings) (newer older : ℕ → Schema) → IsLawfulType newer → IsLawfulType older
        → NewerType newer older → (v w : Value) (os : List ℕ) (n : ℕ) → meets_cut (newer n) v ≡ false
        → read a newer v os → read a older w os ↔ (project (newer n) (older n) v ≡ Some w) }
{}

/// Of any octets that an older lawful type's reader within 128 levels reads, no unknown additions being present, a
/// newer one's reads the widening, taken in trees that hold it, and nothing else; it refuses them exactly where there
/// is none, and no depth is asked of what isn't written (X.680, section 52).
pub fn newer_lawful_reader_reads_the_widening()
    ensures { (a : Settings) (newer older : ℕ → Schema) → IsLawfulType newer → IsLawfulType older
        → NewerType newer older → (v w : Value) (os : List ℕ) (n : ℕ) → meets_cut (newer n) w ≡ false
        → fills_known a (older 128) v os → read a newer w os ↔ (widen (newer n) (older n) v ≡ Some w) }
{}

/// A lawful type is a newer version of itself, since its defaults are values of their schemas: so to be newer is an
/// order of lawful types, with `newer_is_transitive` (X.680, section 52).
pub fn lawful_type_is_newer_than_itself()
    ensures { (family : ℕ → Schema) → IsLawfulType family → NewerType family family }
{}

/// Of lawful types: a newer version is an extension successor at every number of levels, and nothing else: the same
/// tree, in which more additions, alternatives and items may be after an extension marker, and of which a default
/// is the older one widened. That the older default is a value of its schema follows from the older type's being
/// lawful (X.680, section 52).
pub fn lawful_types_are_versions_where_one_succeeds_the_other()
    ensures { (newer older : ℕ → Schema) → Unfolds newer → IsLawfulType older → SucceedsType newer older
        ↔ NewerType newer older }
{}

/// A default of a lawful record that meets no Cut is a value of its part's schema, in normal form, and isn't written
/// (X.680, 25.9; X.691, 19.5).
pub fn lawful_default_is_a_value_and_not_written()
    ensures { (o : Order) (ps adds : Parts) (ext : Bool) → IsLawful (Schema.sequence o ps ext adds)
        → (s : Schema) (d : Value) → HasDefault ps s d ⊎ HasDefault adds s d → meets_cut s d ≡ false →
        (is_value s d ≡ true) × (normal s d ≡ d) × (is_written (default d) (normal s d) ≡ false) }
{}

/// An alternative of a lawful choice is found by any of its tags alone (X.680, 29.3).
pub fn lawful_alternative_is_found_by_its_tag()
    ensures { (ps adds : Parts) (ext : Bool) → IsLawful (Schema.choice ps adds ext) → (d e : Side) (i j : ℕ) (t : Tag)
        → has_tag ps adds d i t ≡ true → has_tag ps adds e j t ≡ true →
        (d ≡ e) × (i ≡ j) }
{}

/// A lawful SET is written the same, bit for bit, however its root components are listed (X.680, 27.1; X.691, 21.1).
pub fn lawful_set_is_written_the_same_however_listed()
    ensures { (a : Variant) (ps qs adds : Parts) (ext : Bool) → IsLawful (Schema.sequence by_tag ps ext adds)
        → (r r' x : Slots) (p : ℕ) → Relisted ps (slots r) qs (slots r') →
        canon a (Schema.sequence by_tag ps ext adds) (fields r x) p
        ≡ canon a (Schema.sequence by_tag qs ext adds) (fields r' x) p }
{}

/// Between lawful bounds the distance of a number from the lower one is below how many numbers there are, and these are
/// at most `i128::MAX`.
pub fn lawful_distance_fits()
    ensures { (bounds range : Bounds) (mark : Bool) → IsLawful (Schema.number bounds mark range) → (l u z : ℤ)
        → bounds.low ≡ Some l → bounds.high ≡ Some u → holds bounds z ≡ true →
        (above l z < above l u + 1) × (above l u + 1 < 2 ^ 127) }
{}

/// What bits spell is a value of its schema: one of its kind, and in the range of its number type, at any depth. This
/// holds of a lawful schema, where the value meets no branch that is cut off (in a default of a component that is
/// absent; X.691, 19.5).
pub fn what_is_spelled_is_a_value()
    ensures { (a : Settings) (s : Schema) (v : Value) (p : ℕ) (bits : Bits) → IsLawful s → meets_cut s v ≡ false
        → basic a s v p bits → is_value s v ≡ true }
{}

/// The normal form of a schema's value is a value of that schema (X.691, 19.9).
pub fn normal_form_of_a_value_is_a_value()
    ensures { (s : Schema) (v : Value) → is_value s v ≡ true → is_value s (normal s v) ≡ true }
{}
