//! The laws by which the members of a SET OF are put in order (X.691 22). Each is the contract of a function that does
//! nothing.

ghost use Rattle.std.specs.Prelude.{◌≡◌, ℕ, Bool, List, map};
ghost use Rattle.std.specs.Cmp.{IsStrictWeakOrder};
ghost use Rattle.std.specs.List.Sorted.{IsSortedBy, IsStableBy};
ghost use Rattle.rasn_types.specs.Values.{Value, bag_of, sorted};
ghost use Rattle.rasn_types.specs.Variants.{Variant};
ghost use Rattle.rasn_constraints.specs.Bounds.{Size};
ghost use Rattle.rasn_schema.specs.Schemas.{Schema};
ghost use Rattle.per_core.specs.Canon.{ascending, canon};
ghost use Rattle.per_core.specs.Counts.{counted, list_items};
ghost use Rattle.per_enc.specs.Writable.{AreWritten};

/// A stable sort gives the one ascending list in which what ties keeps its order.
pub fn stable_sort_gives_one_list()
    ensures { (lt : Value → Value → Bool) (xs ys : List Value) → IsStrictWeakOrder lt → IsSortedBy lt ys
        → IsStableBy lt xs ys → ys ≡ sorted lt xs }
{}

/// The members of a bag are written in ascending order of their complete encodings, whatever order they came in.
pub fn order_of_members_does_not_count()
    ensures { (a : Variant) (e : Schema) (size : Size) (mark : Bool) (vs : List Value) (p : ℕ)
        → AreWritten (canon a e) vs → canon a (Schema.set_of e size mark) (bag_of vs) p
        ≡ counted a size mark list_items (ascending (map (canon a e) vs)) p }
{}
