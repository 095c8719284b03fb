//! The laws of depth. A type's schema is a family of trees, one for each number of levels, which lists, bags, records
//! and choices take one by one; where none is left a tree is cut off, by a Cut. Here it stands that an encoding doesn't
//! depend on how deep a tree one takes, and that a reader refuses canonical bytes exactly where a component that is
//! written is at a Cut of its tree. A part that is left out at its default (X.691, section 19) isn't written.

ghost use Rattle.std.specs.Prelude.{◌≡◌, ◌+◌, ◌<◌, ◌≤◌, ◌++◌, ℕ, suc, false, List, Some};
ghost use Rattle.rasn_types.specs.Bits.{Bits};
ghost use Rattle.rasn_types.specs.Values.{Value};
ghost use Rattle.rasn_types.specs.Variants.{Variant};
ghost use Rattle.rasn_schema.specs.Schemas.{Schema};
ghost use Rattle.rasn_schema.specs.Normal.{normal};
ghost use Rattle.rasn_schema.specs.Depth.{CutOf, Unfolds, meets_cut};
ghost use Rattle.per_core.specs.Spellings.{Settings};
ghost use Rattle.per_core.specs.Basic.{fills, front, read};
ghost use Rattle.per_core.specs.Canon.{canon, bytes};
ghost use Rattle.per_core.specs.Versions.{NewerType, project, widen};
ghost use Rattle.rasn_schema.specs.Levels.{Levelled};
ghost use Rattle.per_laws.specs.Levels.{levels_of, Deep};
ghost use Rattle.per_laws.specs.Written.{writes_cut};

/// A value of fewer levels than every Cut of a tree is deep meets none of them.
pub fn meets_no_cut()
    ensures { (n : ℕ) (s : Schema) (v : Value) → Deep n s → levels_of v < n → meets_cut s v ≡ false }
{}

/// A deeper tree is as deep.
pub fn deeper_is_deep()
    ensures { (n : ℕ) (s t : Schema) → CutOf s t → Deep n s → Deep n t }
{}

/// A family of trees, each the next one cut off and some of them as deep as one likes, unfolds a type.
pub fn deep_family_unfolds()
    ensures { (family : ℕ → Schema) → ((n : ℕ) → CutOf (family n) (family (suc n)))
        → ((n : ℕ) → (m : ℕ) × Deep n (family m)) → Unfolds family }
{}

/// A family of trees of which each is the next one to its number of levels unfolds a type. So a type owes one line for
/// each kind.
pub fn levelled_type_unfolds()
    ensures { (family : ℕ → Schema) → Levelled family → Unfolds family }
{}

/// Of a family of trees, each the next one to its number of levels, each tree of two levels more than a value has, or
/// of more, holds that value.
pub fn levelled_holds()
    ensures { (family : ℕ → Schema) → Levelled family → (v : Value) (n : ℕ) → levels_of v + 2 ≤ n
        → meets_cut (family n) v ≡ false }
{}

/// What is written in a tree is written in a deeper one, and nothing of it was at a Cut.
pub fn deeper_writes()
    ensures { (a : Variant) (s t : Schema) → CutOf s t → (v : Value) (p : ℕ) (b : Bits) → canon a s v p ≡ Some b
        → (canon a t v p ≡ Some b) × (writes_cut s s v ≡ false) }
{}

/// Where nothing that is written of a value is at a Cut, a tree and a deeper one write it alike, or both refuse.
pub fn shallower_writes()
    ensures { (a : Variant) (s t : Schema) → CutOf s t → (v : Value) (p : ℕ) → writes_cut s s v ≡ false
        → canon a s v p ≡ canon a t v p }
{}

/// A type's canonical bytes at so many levels are those at more.
pub fn encodes_deeper()
    ensures { (a : Variant) (family : ℕ → Schema) → Unfolds family → (v : Value) (os : List ℕ) (m n : ℕ) → m ≤ n
        → bytes a (family m) v ≡ Some os → bytes a (family n) v ≡ Some os }
{}

/// A type's canonical bytes agree at all depths at which there are any.
pub fn one_encoding()
    ensures { (a : Variant) (family : ℕ → Schema) → Unfolds family → (v : Value) (os ps : List ℕ) (m n : ℕ)
        → bytes a (family m) v ≡ Some os → bytes a (family n) v ≡ Some ps → os ≡ ps }
{}

/// A value that meets no Cut has one normal form in a tree and in a deeper one.
pub fn deeper_normal_form()
    ensures { (s t : Schema) → CutOf s t → (v : Value) → meets_cut s v ≡ false → normal s v ≡ normal t v }
{}

/// A value has one normal form in all trees of its type that hold it.
pub fn one_normal_form()
    ensures { (family : ℕ → Schema) → Unfolds family → (v : Value) (m n : ℕ) → meets_cut (family m) v ≡ false
        → meets_cut (family n) v ≡ false → normal (family m) v ≡ normal (family n) v }
{}

/// The canonical encoding of a value is one: the normal form taken at any depth that holds the value, the bytes at any
/// depth at which there are any.
pub fn one_canonical_encoding()
    ensures { (a : Variant) (family : ℕ → Schema) → Unfolds family → (v : Value) (k l m n : ℕ) (os ps : List ℕ)
        → meets_cut (family k) v ≡ false → meets_cut (family l) v ≡ false →
        bytes a (family m) (normal (family k) v) ≡ Some os → bytes a (family n) (normal (family l) v) ≡ Some ps → os
        ≡ ps }
{}

/// Once a tree that holds a value gives it a canonical encoding, every deeper tree gives it the same.
pub fn canonical_encoding_deeper()
    ensures { (a : Variant) (family : ℕ → Schema) → Unfolds family → (v : Value) (os : List ℕ) (m n : ℕ) → m ≤ n
        → meets_cut (family m) v ≡ false →
        bytes a (family m) (normal (family m) v) ≡ Some os → bytes a (family n) (normal (family n) v) ≡ Some os }
{}

/// What a reader in a shallower tree makes of canonical bytes: the value, exactly where nothing that is written is
/// at a Cut; else nothing.
pub fn shallower_tree_reads()
    ensures { (a : Settings) (s t : Schema) → CutOf s t → (v : Value) (os : List ℕ) → bytes a.variant t v ≡ Some os →
        ((w : Value) → fills a s w os → (w ≡ v) × (writes_cut s s v ≡ false))
        × (writes_cut s s v ≡ false → fills a s v os) }
{}

/// What a type's own reader makes of its canonical bytes: the value, exactly where nothing that is written is at a
/// Cut of the tree of 128 levels; else nothing.
pub fn type_reads()
    ensures { (a : Settings) (family : ℕ → Schema) → Unfolds family → (v : Value) (os : List ℕ) (n : ℕ)
        → bytes a.variant (family n) v ≡ Some os →
        ((w : Value) → read a family w os → (w ≡ v) × (writes_cut (family 128) (family 128) v ≡ false))
        × (writes_cut (family 128) (family 128) v ≡ false → read a family v os) }
{}

/// A value that meets no Cut of a reader's tree has no component there that is written and cut off, whoever writes it.
pub fn uncut_writes()
    ensures { (reader writer : Schema) (v : Value) → meets_cut reader v ≡ false → writes_cut reader writer v ≡ false }
{}

/// What an older type's reader makes of a newer type's canonical bytes (X.680, sections 7 and 8): the projection,
/// exactly where there is one and no component that is written, outside the additions that are dropped, is at a
/// Cut of the reader's tree of 128 levels; else nothing.
pub fn older_type_reads()
    ensures { (a : Settings) (newer older : ℕ → Schema) → Unfolds newer → Unfolds older → NewerType newer older
        → (v : Value) (os : List ℕ) (m n : ℕ) → m ≤ n → 128 ≤ n →
        meets_cut (newer n) v ≡ false → bytes a.variant (newer m) v ≡ Some os → (w : Value) →
        (read a older w os → (project (newer n) (older n) v ≡ Some w) × (writes_cut (older 128) (newer 128) v ≡ false))
        × (project (newer n) (older n) v ≡ Some w → writes_cut (older 128) (newer 128) v ≡ false → read a older w os) }
{}

/// What a newer type's reader makes of an older type's canonical bytes (X.680, sections 7 and 8): the widening,
/// exactly where there is one and no component that is written is at a Cut of the reader's tree of 128 levels;
/// else nothing.
pub fn newer_type_reads()
    ensures { (a : Settings) (newer older : ℕ → Schema) → Unfolds newer → Unfolds older → NewerType newer older
        → (v : Value) (os : List ℕ) (m n : ℕ) → m ≤ n → 128 ≤ n →
        bytes a.variant (older m) v ≡ Some os → (w : Value) → meets_cut (newer n) w ≡ false →
        (read a newer w os → (widen (newer n) (older n) v ≡ Some w) × (writes_cut (newer 128) (older 128) v ≡ false))
        × (widen (newer n) (older n) v ≡ Some w → writes_cut (newer 128) (older 128) v ≡ false → read a newer w os) }
{}

/// Of octets that begin with canonical bytes a type's own reader reads what it reads of those bytes alone, with all
/// that follows them.
pub fn type_front()
    ensures { (a : Settings) (family : ℕ → Schema) → Unfolds family → (v w : Value) (os rest after : List ℕ) (n : ℕ)
        → bytes a.variant (family n) v ≡ Some os →
        front a (family 128) w (os ++ rest) after → read a family w os × (after ≡ rest) }
{}

/// Of octets that begin with canonical bytes of a newer type an older type's reader reads what it reads of those bytes
/// alone, with all that follows them.
pub fn older_type_front()
    ensures { (a : Settings) (newer older : ℕ → Schema) → Unfolds newer → Unfolds older → NewerType newer older
        → (v w : Value) (os rest after : List ℕ) (n : ℕ) → bytes a.variant (newer n) v ≡ Some os →
        front a (older 128) w (os ++ rest) after → read a older w os × (after ≡ rest) }
{}

/// Of octets that begin with canonical bytes of an older type a newer type's reader reads what it reads of those bytes
/// alone, with all that follows them.
pub fn newer_type_front()
    ensures { (a : Settings) (newer older : ℕ → Schema) → Unfolds newer → Unfolds older → NewerType newer older
        → (v w : Value) (os rest after : List ℕ) (n : ℕ) → bytes a.variant (older n) v ≡ Some os →
        front a (newer 128) w (os ++ rest) after → read a newer w os × (after ≡ rest) }
{}

/// The canonical bytes of a value at any depth are there at as many levels as the value has.
pub fn few_levels_suffice()
    ensures { (a : Variant) (family : ℕ → Schema) → Levelled family → (v : Value) (os : List ℕ) (m n : ℕ)
        → levels_of v ≤ n → bytes a (family m) v ≡ Some os → bytes a (family n) v ≡ Some os }
{}

/// A type's own reader reads the canonical bytes of every value of at most 128 levels.
pub fn few_levels_are_read()
    ensures { (a : Settings) (family : ℕ → Schema) → Levelled family → (v : Value) (os : List ℕ) (n : ℕ)
        → levels_of v ≤ 128 → bytes a.variant (family n) v ≡ Some os → read a family v os }
{}

/// An older type's reader reads those of a newer type's value of at most 128 levels, where there is a projection.
pub fn few_levels_are_projected()
    ensures { (a : Settings) (newer older : ℕ → Schema) → Levelled newer → Levelled older → NewerType newer older
        → (v w : Value) (os : List ℕ) (m n : ℕ) → m ≤ n → 130 ≤ n → levels_of v ≤ 128 →
        bytes a.variant (newer m) v ≡ Some os → project (newer n) (older n) v ≡ Some w → read a older w os }
{}

/// A newer type's reader reads those of an older type's value of at most 128 levels, where there is a widening.
pub fn few_levels_are_widened()
    ensures { (a : Settings) (newer older : ℕ → Schema) → Levelled newer → Levelled older → NewerType newer older
        → (v w : Value) (os : List ℕ) (m n : ℕ) → m ≤ n → 128 ≤ n → levels_of w + 2 ≤ n → levels_of v ≤ 128 →
        bytes a.variant (older m) v ≡ Some os → widen (newer n) (older n) v ≡ Some w → read a newer w os }
{}
