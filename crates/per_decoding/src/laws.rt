//! The laws by which a decoder reads records and their additions (X.691 11.2, 19): each is the contract of a function
//! that does nothing.

ghost use Rattle.std.specs.Prelude.{◌≡◌, ◌↔◌, ℕ, suc, Bool, false, true, List, [], Option, Some};
ghost use Rattle.rasn_types.specs.Bits.{Bits};
ghost use Rattle.rasn_types.specs.Values.{Side, Value, alternative};
ghost use Rattle.rasn_schema.specs.Orders.{canonised, canonised_slots};
ghost use Rattle.rasn_schema.specs.Structures.{alternative_in, record_value, extended};
ghost use Rattle.rasn_schema.specs.Schemas.{Parts, Schema, by_tag};
ghost use Rattle.rasn_traits.specs.Amounts.{Amount};
ghost use Rattle.rasn_traits.specs.Scopes.{ReadsFields};
ghost use Rattle.rasn_traits.specs.TurnsRead.{CameRead};
ghost use Rattle.per_core.specs.Spellings.{Settings};
ghost use Rattle.per_core.specs.declared.decode_error.DecodeErrorKind.{DecodeErrorKind};
ghost use Rattle.per_decoding.specs.Additions.{AddsValue, InOpen, OpensAddition, OpensContaining, OutsideAddition};
ghost use Rattle.per_decoding.specs.Choices.{OutsideChoice, OpensChoice, Stands};
ghost use Rattle.per_core.specs.ReadingFaults.{IsInBits};
ghost use Rattle.per_decoding.specs.InTurn.{OpensInTurn, OpensUncounted};
ghost use Rattle.per_decoding.specs.Rules.{Awaits, decoder_rules};
ghost use Rattle.per_decoding.specs.Scopes.{InScope, Opens, OutsideRecord};
ghost use Rattle.per_decoding.specs.State.{Spells, State};
ghost use Rattle.per_decoding.specs.Turns.{Turn, is_complete};

/// Where a record was opened, a value of its schema is read exactly where its root components and its additions are
/// read in turn and the record is closed after them (X.691 19).
pub fn record_is_what_stands_in_its_scope()
    ensures { (ps qs : Parts) (marker : Bool) (s i t : State) (w : OutsideRecord) (v : Value)
        → Opens (extended ps marker qs) s w i
        → Spells (extended ps marker qs) s v t ↔ InScope ps qs i w v t }
{}

/// Where a level is left, each record that is at the front can be opened (X.691 19.1, 19.2).
pub fn record_can_be_opened()
    ensures { (ps qs : Parts) (marker : Bool) (s t : State) (v : Value) (n : ℕ) → s.levels ≡ suc n
        → Spells (extended ps marker qs) s v t
        → (w : OutsideRecord) × (i : State) × Opens (extended ps marker qs) s w i }
{}

/// Where the open type of an addition was opened, the addition is a value exactly where the value is read of the
/// contents and they end after it (X.691 11.2, 19.9).
pub fn addition_is_what_stands_in_its_open_type()
    ensures { (c : Schema) (s i t : State) (w : OutsideAddition) (v : Value) → OpensAddition s w i
        → AddsValue c s v t ↔ InOpen c i w v t }
{}

/// Where a record was opened that counts its components, and these and its additions were read as they are listed, all
/// that is due came (X.691 19).
pub fn record_read_in_turn_is_complete()
    ensures { (ps qs : Parts) (marker : Bool) (s i j : State) (w : OutsideRecord) (around : Turn)
        (rs xs : List (Option Value))
        → OpensInTurn (extended ps marker qs) s w around i → ReadsFields decoder_rules ps qs i rs xs j
        → is_complete j.turn ≡ true }
{}

/// Where another amount came in a scope than was awaited there, it isn't all that is due: a component, a presence bit
/// or an addition is still to come, or one too many came (X.691 19).
pub fn another_amount_is_not_complete()
    ensures { (due came : Amount) (i j : State) → Awaits due i → CameRead decoder_rules came i j → (came ≡ due → ⊥)
        → is_complete j.turn ≡ true → j.presences ≡ [] → j.expected ≡ 0 → ⊥ }
{}

/// Where a record was opened in which nothing is counted, no scope can end that counts what comes, whatever was read in
/// the record (X.691 19).
pub fn record_without_count_is_not_complete()
    ensures { (c : Schema) (s i j : State) (w : OutsideRecord) (around : Turn) (came : Amount)
        → OpensUncounted c s w around i → CameRead decoder_rules came i j → is_complete j.turn ≡ false }
{}

/// Each addition that is there can be opened (X.691 19.9).
pub fn addition_can_be_opened()
    ensures { (c : Schema) (s t : State) (v : Value) → AddsValue c s v t
        → (w : OutsideAddition) × (i : State) × OpensAddition s w i }
{}

/// Where octets were opened that contain a value, they contain one exactly where it is read there and they end after
/// it (X.682 11; X.691 11.2).
pub fn contained_value_is_what_stands_in_its_octets()
    ensures { (c : Schema) (s i t : State) (w : OutsideAddition) (v : Value) → OpensContaining s w i
        → Spells (Schema.containing c) s v t ↔ InOpen c i w v t }
{}

/// Where a choice was opened, a value of its schema is read exactly where it is the alternative after the index, its
/// value is read there, and the choice is closed after it (X.691 23).
pub fn choice_is_what_stands_after_its_index()
    ensures { (c a : Schema) (d : Side) (k : ℕ) (s i t : State) (w : OutsideChoice) (v : Value)
        → OpensChoice c d k s w i
        → alternative_in c d k ≡ Some a → Spells c s v t ↔ Stands a d k i w v t }
{}

/// A SET is read exactly where the SEQUENCE of its root components in ascending order of their smallest tags is, and
/// what these are in that order is what they are there (X.691 21.1).
pub fn set_is_read_as_its_components_in_order()
    ensures { (ps qs : Parts) (marker : Bool) (s t : State) (rs xs : List (Option Value))
        → Spells (Schema.sequence by_tag ps marker qs) s (record_value rs xs) t
        ↔ Spells (extended (canonised ps) marker qs) s (record_value (canonised_slots ps rs) xs) t }
{}

/// A fault is in a SET exactly where it is in the SEQUENCE of its root components in ascending order of their
/// smallest tags (X.691 21.1).
pub fn fault_of_a_set_is_that_of_its_components_in_order()
    ensures { (a : Settings) (k : DecodeErrorKind) (ps qs : Parts) (marker : Bool) (s : Bits)
        → IsInBits a k (Schema.sequence by_tag ps marker qs) s ↔ IsInBits a k (extended (canonised ps) marker qs) s }
{}
