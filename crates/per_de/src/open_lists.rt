//! The elements of a list that a decoder reads element by element, while it is open.

ghost use Rattle.std.specs.Prelude.{◌≡◌, ◌≤◌, ◌-◌, [], ◌∷◌, ◌++◌, Bool, List, length, true, Ok};
ghost use Rattle.rasn_types.specs.Values.{Value};
ghost use Rattle.rasn_constraints.specs.Bounds.{Size};
ghost use Rattle.rasn_constraints.specs.LawfulConstraints.{is_lawful_size};
ghost use Rattle.rasn_schema.specs.Schemas.{Schema};
ghost use Rattle.rasn_traits.specs.Lists.{ReadsNext};
ghost use Rattle.per_read.specs.Lists.{most};
ghost use Rattle.per_decoding.specs.Rules.{decoder_rules};
ghost use Rattle.per_decoding.specs.State.{State};
ghost use Rattle.per_de.specs.Lists.{IsListInTurn};
ghost use Rattle.per_de.specs.declared.OpenedList.{OpenedList};
ghost use Rattle.per_de.specs.declared.turns.Around.{Around};
ghost use Rattle.per_core.specs.ItemCounts.{most_items};

/// A list under a lawful size that a decoder has open, as `open_list`, `next_element` and the calls that read its
/// elements leave it, has at most 65535 elements, and 8192 for each bit that was taken since it began; and so it has
/// with the element that is read where `next_element` answers that one follows (X.691, 11.9, 20).
pub fn elements_of_an_open_list_are_few()
    ensures now { (e : Schema) (size : Size) (mark : Bool) (s i : State) (vs : List Value)
        (l : Around OpenedList) →
        is_lawful_size size.least size.most ≡ true → IsListInTurn e size mark s vs l i →
        length vs ≤ most_items (length s.bits - length i.bits) }
    ensures with_another { (e : Schema) (size : Size) (mark : Bool) (s i j k : State) (vs : List Value)
        (l m : Around OpenedList) (v : Value) → is_lawful_size size.least size.most ≡ true
        → IsListInTurn e size mark s vs l i →
        ReadsNext decoder_rules IsListInTurn (λ l. most l.scope.list.list) l i (Ok true) m j →
        decoder_rules.spells e j v k →
        length (vs ++ v ∷ []) ≤ most_items (length s.bits - length k.bits) }
{}
