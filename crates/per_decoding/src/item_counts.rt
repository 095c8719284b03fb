//! The items that one call of a decoder reads, and the bits that it takes: what the facts that its clause is made of
//! say in the words of the call. Each law is the contract of a function that does nothing.

ghost use Rattle.std.specs.Prelude.{◌≡◌, ◌≤◌, ◌⊎◌, ◌-◌, ℕ, length, Option, Some, Ok};
ghost use Rattle.rasn_types.specs.Values.{Value};
ghost use Rattle.rasn_schema.specs.Schemas.{Presence, Schema};
ghost use Rattle.rasn_traits.specs.AdditionsRead.{TakesAddition};
ghost use Rattle.rasn_traits.specs.Calls.{Reads};
ghost use Rattle.rasn_traits.specs.Optionals.{MakesDefault, ReadsComponent, ReadsDefault};
ghost use Rattle.rasn_traits.specs.Presences.{left_out};
ghost use Rattle.per_decoding.specs.Rules.{decoder_rules};
ghost use Rattle.per_decoding.specs.State.{State};
ghost use Rattle.per_core.specs.ItemCounts.{item_count, most_items, HasAtMost};

use std::alloc::{AllocError, Global};

/// A call that reads a value answers at most 65535 items, and 8192 for each bit that it took, and so many in each value
/// within the answer, but for a default that stands for an absent part (X.691, 11.9, 19.5).
pub fn items_of_a_call_are_few<T>()
    ensures own { (c : Schema) (value : T → Value) (s t : State) (x : T) → Reads decoder_rules c value s (Ok x) t →
        item_count (value x) ≤ most_items (length s.bits - length t.bits) }
    ensures within { (c : Schema) (value : T → Value) (s t : State) (x : T) → Reads decoder_rules c value s (Ok x) t →
        HasAtMost (most_items (length s.bits - length t.bits)) c (value x) }
{}

/// A call that reads a component which may be absent answers at most 65535 items, and 8192 for each bit that it took,
/// and so many in each value within the answer, unless it answers the default that stands for an absent component
/// (X.691, 19.2, 19.5).
pub fn items_of_a_component_are_few<T>()
    ensures own { (p : Presence) (c : Schema) (slot : T → Option Value) (s t : State) (x : T) (v : Value)
        → ReadsComponent decoder_rules p c slot s (Ok x) t → slot x ≡ Some v →
        (item_count v ≤ most_items (length s.bits - length t.bits)) ⊎ (left_out p ≡ Some (Some v)) }
    ensures within { (p : Presence) (c : Schema) (slot : T → Option Value) (s t : State) (x : T) (v : Value)
        → ReadsComponent decoder_rules p c slot s (Ok x) t → slot x ≡ Some v →
        HasAtMost (most_items (length s.bits - length t.bits)) c v ⊎ (left_out p ≡ Some (Some v)) }
{}

/// A call that reads a component with a default, which a function makes, answers at most 65535 items, and 8192 for each
/// bit that it took, and so many in each value within the answer, unless it answers that default (X.691, 19.5).
pub fn items_are_few_or_the_default<T, F: FnOnce(Global) -> Result<T, AllocError>>()
    ensures own { (c : Schema) (value : T → Value) (make : F) (s t : State) (x : T) (d : Value)
        → MakesDefault value d (λ made. (alloc : _) × F.post make alloc made)
        → ReadsDefault decoder_rules c value (λ made. (alloc : _) × F.post make alloc made) s (Ok x) t →
        (item_count (value x) ≤ most_items (length s.bits - length t.bits)) ⊎ (value x ≡ d) }
    ensures within { (c : Schema) (value : T → Value) (make : F) (s t : State) (x : T) (d : Value)
        → MakesDefault value d (λ made. (alloc : _) × F.post make alloc made)
        → ReadsDefault decoder_rules c value (λ made. (alloc : _) × F.post make alloc made) s (Ok x) t →
        HasAtMost (most_items (length s.bits - length t.bits)) c (value x) ⊎ (value x ≡ d) }
{}

/// A call that reads an addition or a group of additions, and answers that it is there, answers at most 65535 items,
/// and 8192 for each bit that it took, those of the bitmap and of the open type among them, and so many in each value
/// within the answer (X.691, 11.2, 19.7 to 19.9).
pub fn items_of_an_addition_are_few<T>()
    ensures own { (c : Schema) (slot : T → Option Value) (s t : State) (x : T) (added : Value)
        → TakesAddition decoder_rules c slot s (Ok x) t → slot x ≡ Some added →
        item_count added ≤ most_items (length s.bits - length t.bits) }
    ensures within { (c : Schema) (slot : T → Option Value) (s t : State) (x : T) (added : Value)
        → TakesAddition decoder_rules c slot s (Ok x) t → slot x ≡ Some added →
        HasAtMost (most_items (length s.bits - length t.bits)) c added }
{}
