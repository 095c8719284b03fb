//! The laws of schema versions: what an older and a newer version read of the same octets.

ghost use Rattle.std.specs.Prelude.{◌≡◌, ◌↔◌, ◌≤◌, ◌++◌, ℕ, List, Some, None, false};
ghost use Rattle.rasn_types.specs.Values.{Value};
ghost use Rattle.rasn_schema.specs.Depth.{Unfolds, meets_cut};
ghost use Rattle.rasn_schema.specs.Schemas.{Schema};
ghost use Rattle.per_core.specs.Basic.{fills, fills_known, front, read};
ghost use Rattle.per_core.specs.Canon.{bytes};
ghost use Rattle.per_core.specs.Spellings.{Settings};
ghost use Rattle.per_core.specs.Versions.{Newer, NewerType, project, widen};
ghost use Rattle.per_laws.specs.Successors.{SucceedsType};

/// Canonical bytes are read, and no unknown additions are present in them, at any depth (X.691, 19.9).
pub fn canonical_bytes_have_no_unknown_additions()
    ensures { (a : Settings) (s : Schema) (v : Value) (octets : List ℕ) →
        bytes a.variant s v ≡ Some octets → fills_known a s v octets }
{}

/// A complete encoding in which no unknown additions are present is a complete encoding.
pub fn encoding_without_unknown_additions_is_decoded()
    ensures { (a : Settings) (s : Schema) (v : Value) (octets : List ℕ) →
        fills_known a s v octets → fills a s v octets }
{}

/// Where a newer and an older version read the same octets, the older one reads the projection of what the newer one
/// reads (X.680, 52).
pub fn two_versions_read_the_projection()
    ensures { (a : Settings) (newer older : Schema) → Newer newer older →
        (v w : Value) (octets : List ℕ) → meets_cut newer v ≡ false →
        fills a newer v octets → fills a older w octets → project newer older v ≡ Some w }
{}

/// Of any octets that a newer version reads, canonical or not, an older one reads the projection, wherever there is
/// one; and of these octets with others after them it reads nothing else, and leaves just the others (X.680, 52;
/// X.691, 19.9, 23.8).
pub fn older_version_reads_the_projection()
    ensures { (a : Settings) (newer older : Schema) → Newer newer older →
        (v w : Value) (octets rest after : List ℕ) →
        fills a newer v octets → meets_cut newer v ≡ false →
        (front a older w (octets ++ rest) after → (project newer older v ≡ Some w) × (after ≡ rest))
        × (project newer older v ≡ Some w → fills a older w octets) }
{}

/// Where what a newer version reads has no projection, an older version reads no front of these octets, whatever
/// follows them.
pub fn older_version_refuses_without_projection()
    ensures { (a : Settings) (newer older : Schema) → Newer newer older →
        (v w : Value) (octets rest after : List ℕ) →
        fills a newer v octets → meets_cut newer v ≡ false →
        project newer older v ≡ None → front a older w (octets ++ rest) after → ⊥ }
{}

/// Of any octets that an older version reads, no unknown additions being present, a newer one reads the widening,
/// wherever there is one; and of these octets with others after them it reads nothing else, and leaves just the
/// others (X.680, 52; X.691, 19.5, 19.8).
pub fn newer_version_reads_the_widening()
    ensures { (a : Settings) (newer older : Schema) → Newer newer older →
        (w v : Value) (octets rest after : List ℕ) →
        fills_known a older w octets → meets_cut newer v ≡ false →
        (front a newer v (octets ++ rest) after → (widen newer older w ≡ Some v) × (after ≡ rest))
        × (widen newer older w ≡ Some v → fills_known a newer v octets) }
{}

/// Where what an older version reads has no widening, a newer version reads no front of these octets, whatever follows
/// them.
pub fn newer_version_refuses_without_widening()
    ensures { (a : Settings) (newer older : Schema) → Newer newer older →
        (w v : Value) (octets rest after : List ℕ) →
        fills_known a older w octets → meets_cut newer v ≡ false →
        widen newer older w ≡ None → front a newer v (octets ++ rest) after → ⊥ }
{}

/// A newer version of a newer version is a newer version (X.680, 52).
pub fn newer_is_transitive()
    ensures { (newest newer older : Schema) →
        Newer newest newer → Newer newer older → Newer newest older }
{}

/// Where a value is projected to the middle one of three versions, projecting on gives what projecting at once gives,
/// or both give none.
pub fn projecting_in_steps_is_projecting_at_once()
    ensures { (newest newer older : Schema) → Newer newest newer → Newer newer older →
        (v w : Value) → project newest newer v ≡ Some w →
        project newer older w ≡ project newest older v }
{}

/// Where a value is widened to the middle one of three versions and on to the newest, it is widened so at once, where
/// no branch is cut off that it meets.
pub fn widening_in_steps_is_widening_at_once()
    ensures { (newest newer older : Schema) → Newer newest newer → Newer newer older →
        (v w x : Value) → widen newer older v ≡ Some w → widen newest newer w ≡ Some x →
        meets_cut newest x ≡ false → widen newest older v ≡ Some x }
{}

/// Of types of any depth: of any octets that a newer type reads within some levels, an older type reads, within 128
/// levels, the projection and nothing else, and does read it where it meets no branch that is cut off there.
pub fn older_type_reads_the_projection()
    ensures { (a : Settings) (newer older : ℕ → Schema) →
        Unfolds newer → Unfolds older → NewerType newer older →
        (v w : Value) (octets : List ℕ) (m n : ℕ) → m ≤ n → 128 ≤ n →
        meets_cut (newer n) v ≡ false → fills a (newer m) v octets →
        (read a older w octets → project (newer n) (older n) v ≡ Some w)
        × (project (newer n) (older n) v ≡ Some w → meets_cut (older 128) w ≡ false → read a older w octets) }
{}

/// Of types of any depth: of any octets that an older type reads within some levels, no unknown additions being
/// present, a newer type reads, within 128 levels, the widening and nothing else, and does read it where it meets no
/// branch that is cut off there.
pub fn newer_type_reads_the_widening()
    ensures { (a : Settings) (newer older : ℕ → Schema) →
        Unfolds newer → Unfolds older → NewerType newer older →
        (w v : Value) (octets : List ℕ) (m n : ℕ) → m ≤ n → 128 ≤ n →
        meets_cut (newer n) v ≡ false → fills_known a (older m) w octets →
        (read a newer v octets → widen (newer n) (older n) w ≡ Some v)
        × (widen (newer n) (older n) w ≡ Some v → meets_cut (newer 128) v ≡ false → read a newer v octets) }
{}

/// Of types of any depth: of any octets that a newer type's reader reads, canonical or not, an older type's reader
/// reads the projection, taken in trees that hold the value, wherever there is one, and nothing else; and of these
/// octets with others after them the same, leaving just the others. No depth is asked of what isn't written, such as a
/// default of many levels (X.680, 52).
pub fn older_reader_reads_the_projection()
    ensures { (a : Settings) (newer older : ℕ → Schema) →
        Unfolds newer → Unfolds older → NewerType newer older →
        (v w : Value) (octets rest after : List ℕ) (n : ℕ) → meets_cut (newer n) v ≡ false → read a newer v octets →
        (read a older w octets ↔ (project (newer n) (older n) v ≡ Some w))
        × (front a (older 128) w (octets ++ rest) after
        ↔ ((project (newer n) (older n) v ≡ Some w) × (after ≡ rest))) }
{}

/// Of types of any depth: of any octets that an older type's reader reads, no unknown additions being present, a newer
/// type's reader reads the widening, taken in trees that hold it, wherever there is one, and nothing else; and of these
/// octets with others after them the same, leaving just the others. No depth is asked of what isn't written (X.680,
/// 52).
pub fn newer_reader_reads_the_widening()
    ensures { (a : Settings) (newer older : ℕ → Schema) →
        Unfolds newer → Unfolds older → NewerType newer older →
        (w v : Value) (octets rest after : List ℕ) (n : ℕ) → meets_cut (newer n) v ≡ false →
        fills_known a (older 128) w octets →
        (read a newer v octets ↔ (widen (newer n) (older n) w ≡ Some v))
        × (front a (newer 128) v (octets ++ rest) after
        ↔ ((widen (newer n) (older n) w ≡ Some v) × (after ≡ rest))) }
{}

/// Of types of any depth: a newer version of a type that is one of itself is an extension successor at every number of
/// levels. So versions owe that a default is the older one widened only in trees that hold it, and of the older
/// default nothing beside (X.680, 52). A lawful type is a version of itself.
pub fn newer_types_are_extension_successors()
    ensures { (newer older : ℕ → Schema) → Unfolds newer → Unfolds older → NewerType older older
        → SucceedsType newer older ↔ NewerType newer older }
{}
