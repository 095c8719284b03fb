//! What arrays and objects have.

ghost use Rattle.std.specs.Prelude.{◌≡◌, option_map};
ghost use Rattle.json.specs.Find.{as_array, as_object};
ghost use Rattle.json.specs.Value.{items_view, members_view, value_view};
ghost use Rattle.rasn_dynamic_jer.specs.FromJson.{member_count};

use json::Value as Json;

/// The items of an array.
pub fn items_of<'json, 'text>(json: &'json Json<'text>) -> Option<&'json [Json<'text>]>
    ensures { option_map (λ s. items_view s.now) result ≡ as_array (value_view json.now) }
{
    match json {
        Json::Array(items) => Some(items.as_slice()),
        _ => None,
    }
}

/// The members of an object.
pub fn members_of<'json, 'text>(
    json: &'json Json<'text>,
) -> Option<&'json [(&'text str, Json<'text>)]>
    ensures { option_map (λ s. members_view s.now) result ≡ as_object (value_view json.now) }
{
    match json {
        Json::Object(members) => Some(members.as_slice()),
        _ => None,
    }
}

/// How many members an object has.
pub fn member_count(json: &Json<'_>) -> usize
    ensures { result ≡ member_count (as_object (value_view json.now)) }
{
    match members_of(json) {
        Some(members) => members.len(),
        None => 0,
    }
}
