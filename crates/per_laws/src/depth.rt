//! The laws of depth: trees that are cut off, and the families of trees that stand for types of any depth.

ghost use Rattle.std.specs.Prelude.{◌≡◌, ◌≤◌, ℕ, List, false};
ghost use Rattle.rasn_types.specs.Values.{Value};
ghost use Rattle.rasn_schema.specs.Depth.{CutOf, Unfolds, meets_cut};
ghost use Rattle.rasn_schema.specs.Schemas.{Schema};
ghost use Rattle.per_core.specs.Basic.{fills};
ghost use Rattle.per_core.specs.Spellings.{Settings};

/// What is read by a tree is read, as the same value, by a tree of which it is a cut.
pub fn deeper_tree_reads_the_same()
    ensures { (a : Settings) (s t : Schema) → CutOf s t →
        (v : Value) (octets : List ℕ) → fills a s v octets → fills a t v octets }
{}

/// What is read by a tree is read, as the same value, by each cut of it along which the value meets no branch that is
/// cut off.
pub fn shallower_tree_reads_what_it_holds()
    ensures { (a : Settings) (s t : Schema) → CutOf s t →
        (v : Value) (octets : List ℕ) → meets_cut s v ≡ false →
        fills a t v octets → fills a s v octets }
{}

/// Every value is met whole by an unfolding of a type that is as deep as one likes.
pub fn unfolding_holds_every_value()
    ensures { (T : ℕ → Schema) → Unfolds T →
        (v : Value) (n : ℕ) → (m : ℕ) × (n ≤ m) × (meets_cut (T m) v ≡ false) }
{}
