//! What is read of what is written. Each law is the contract of a function that does nothing.

ghost use Rattle.std.specs.Prelude.{◌≡◌, Result, true};
ghost use Rattle.json.specs.Json.{max_depth};
ghost use Rattle.rasn_dynamic.specs.Values.{slot_of};
ghost use Rattle.rasn_dynamic.specs.declared.values.Value.{Value as Tree};
ghost use Rattle.rasn_dynamic_jer.specs.DistinctNames.{is_named_apart};
ghost use Rattle.rasn_dynamic_jer.specs.Laws.{HaveOneForm, IsReadBack, Reads};
ghost use Rattle.rasn_dynamic_jer.specs.Puts.{IsJsonText};
ghost use Rattle.rasn_dynamic_jer.specs.Shown.{json_at};
ghost use Rattle.rasn_dynamic_jer.specs.declared.from_json_error.FromJsonError.{FromJsonError};

use rasn_dynamic::types::Types;
use rasn_dynamic::values::Value;

/// What `to_json` answers of a value, `from_json` reads as the value's normal form, where names tell apart the parts of
/// the table's types. It refuses that only for want of memory.
pub fn reads_back(types: &Types, place: usize, value: &Value, text: &[u8])
    ensures { is_named_apart types.now.kinds.items ≡ true
        → IsJsonText (json_at types.now.kinds.items max_depth place value.now) text.now
        → (read : Result Tree FromJsonError) → Reads types.now.kinds.items place text.now read
        → IsReadBack types.now.kinds.items place (slot_of value.now) read }
{
    let _ = types;
    let _ = place;
    let _ = value;
    let _ = text;
}

/// Two values with one text have one normal form, where names tell apart the parts of the table's types.
pub fn one_text_one_form(types: &Types, place: usize, value: &Value, other: &Value, text: &[u8])
    ensures { is_named_apart types.now.kinds.items ≡ true
        → IsJsonText (json_at types.now.kinds.items max_depth place value.now) text.now
        → IsJsonText (json_at types.now.kinds.items max_depth place other.now) text.now
        → HaveOneForm types.now.kinds.items place (slot_of value.now) (slot_of other.now) }
{
    let _ = types;
    let _ = place;
    let _ = value;
    let _ = other;
    let _ = text;
}
