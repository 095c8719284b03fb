//! The elements of a list that is read element by element, while it is open.

ghost use Rattle.std.specs.Prelude.{◌≡◌, ◌<◌, ◌-◌, Bool, List, length, true, Ok};
ghost use Rattle.rasn_types.specs.Bits.{Bits};
ghost use Rattle.rasn_types.specs.Values.{Value};
ghost use Rattle.rasn_constraints.specs.Bounds.{Size};
ghost use Rattle.rasn_constraints.specs.LawfulConstraints.{is_lawful_size};
ghost use Rattle.rasn_schema.specs.Schemas.{Schema};
ghost use Rattle.per_read.specs.Lists.{AreOpenItems, ReadsNext, list_rule};
ghost use Rattle.per_read.specs.ReaderState.{ReaderState, settings_of};
ghost use Rattle.per_read.specs.declared.lists.UnreadElements.{UnreadElements};
ghost use Rattle.per_core.specs.ItemCounts.{most_items};

/// An element of a list under a lawful size that a reader goes on to is after fewer elements than 65535, and 8192
/// for each bit that was taken since the list began (X.691, 11.9, 20).
pub fn elements_before_another_are_few()
    ensures { (size : Size) (mark : Bool) (e : Schema) (start : Bits) (before : List Value) (l m : UnreadElements)
        (x y : ReaderState) → is_lawful_size size.least size.most ≡ true
        → AreOpenItems (list_rule (settings_of x) size mark e) start before l x.bits → ReadsNext l x (Ok true) m y →
        length before < most_items (length start - length y.bits) }
{}
