//! Whether two defaults are the same.

ghost use Rattle.std.specs.Prelude.{◌≡◌, [], map};
ghost use Rattle.rasn_types.specs.Values.{alternative, bits, characters, nothing, octets, same, truth, whole};
ghost use Rattle.rasn_schema.specs.Structures.{list_value};
ghost use Rattle.rasn_traits.specs.Counted.{index_in, item_at, side_of};
ghost use Rattle.rasn_dynamic.specs.Defaults.{all_pairs, same_slot};
ghost use Rattle.rasn_dynamic.specs.Types.{default_value, tree_slot, tree_value};

use rasn_dynamic::defaults::are_same_place;
use rasn_dynamic::types::{DefaultTree, DefaultValue};
use rasn_schema::items::Place;
use rasn_strings::strings::BmpString;
use rasn_types::bit_string::BitString;
use rasn_types::types::{Any, Integer};

/// Whether two defaults are the same value.
#[cycle(comparing)]
pub(crate) fn are_same(own: &DefaultTree, other: &DefaultTree) -> bool
    ensures { result ≡ same (tree_value own.now) (tree_value other.now) }
{
    match own {
        DefaultTree::Absent => is_plain(other, &DefaultValue::Null),
        DefaultTree::Plain(own) => is_plain(other, own),
        DefaultTree::Elements(owns) => {
            let elements: &[DefaultTree] = owns;
            is_list(elements, other)
        }
        DefaultTree::Fields(root, additions) => match other {
            DefaultTree::Fields(other_root, other_additions) => {
                let root_owns: &[DefaultTree] = root;
                let added_owns: &[DefaultTree] = additions;
                let root_tolds: &[DefaultTree] = other_root;
                let added_tolds: &[DefaultTree] = other_additions;
                let root_same = are_same_slots(root_owns, root_tolds);
                if !root_same {
                    return false;
                }
                are_same_slots(added_owns, added_tolds)
            }
            _ => false,
        },
        DefaultTree::Alternative(at, chosen) => is_alternative(chosen, *at, other),
    }
}

/// Whether a default is a value that holds none.
fn is_plain(told: &DefaultTree, own: &DefaultValue) -> bool
    ensures { result ≡ same (default_value own.now) (tree_value told.now) }
{
    match told {
        DefaultTree::Absent => are_same_plain(own, &DefaultValue::Null),
        DefaultTree::Plain(other) => are_same_plain(own, other),
        DefaultTree::Elements(tolds) => {
            let elements: &[DefaultTree] = tolds;
            are_empty(own, elements)
        }
        DefaultTree::Fields(_, _) => false,
        DefaultTree::Alternative(_, _) => false,
    }
}

/// Whether a default is the list without elements, and these elements are none.
fn are_empty(told: &DefaultValue, owns: &[DefaultTree]) -> bool
    ensures told { result ≡ same (default_value told.now) (list_value (map tree_value owns.now)) }
    ensures own { result ≡ same (list_value (map tree_value owns.now)) (default_value told.now) }
{
    if !is_empty(told) {
        return false;
    }
    owns.is_empty()
}

/// Whether a default is the list of these elements.
#[cycle(comparing)]
fn is_list(owns: &[DefaultTree], told: &DefaultTree) -> bool
    ensures { result ≡ same (list_value (map tree_value owns.now)) (tree_value told.now) }
{
    match told {
        DefaultTree::Plain(other) => are_empty(other, owns),
        DefaultTree::Elements(tolds) => {
            let elements: &[DefaultTree] = tolds;
            are_same_values(owns, elements)
        }
        _ => false,
    }
}

/// Whether a default is an alternative of a CHOICE with a value.
#[cycle(comparing)]
fn is_alternative(own: &DefaultTree, own_at: Place, told: &DefaultTree) -> bool
    ensures { result ≡ same (alternative (side_of own_at) (index_in own_at) (tree_value own.now))
        (tree_value told.now) }
{
    match told {
        DefaultTree::Alternative(at, chosen) => {
            let value: &DefaultTree = chosen;
            if !are_same_place(own_at, *at) {
                return false;
            }
            are_same(own, value)
        }
        _ => false,
    }
}

/// Whether defaults are the same values, one for one.
#[cycle(comparing)]
fn are_same_values(owns: &[DefaultTree], others: &[DefaultTree]) -> bool
    ensures { result ≡ all_pairs (λ d e. same (tree_value d) (tree_value e)) owns.now others.now }
{
    if owns.len() != others.len() {
        return false;
    }
    for (index, own) in owns.iter().enumerate() {
        if !are_same(own, &others[index]) {
            return false;
        }
    }
    true
}

/// Whether defaults, each absent or there, are the same, one for one.
#[cycle(comparing)]
fn are_same_slots(owns: &[DefaultTree], others: &[DefaultTree]) -> bool
    ensures { result ≡ all_pairs (λ d e. same_slot (tree_slot d) (tree_slot e)) owns.now others.now }
{
    if owns.len() != others.len() {
        return false;
    }
    for (index, own) in owns.iter().enumerate() {
        if !is_same_slot(own, &others[index]) {
            return false;
        }
    }
    true
}

/// Whether two defaults are both absent, or both there and the same value.
#[cycle(comparing)]
fn is_same_slot(own: &DefaultTree, other: &DefaultTree) -> bool
    ensures { result ≡ same_slot (tree_slot own.now) (tree_slot other.now) }
{
    let there = other.is_there();
    if !own.is_there() {
        return !there;
    }
    if !there {
        return false;
    }
    are_same(own, other)
}

/// Whether two defaults that hold no values are the same value.
pub(crate) fn are_same_plain(own: &DefaultValue, other: &DefaultValue) -> bool
    ensures { result ≡ same (default_value own.now) (default_value other.now) }
{
    match own {
        DefaultValue::Boolean(own) => is_truth(other, *own),
        DefaultValue::Null => is_null(other),
        DefaultValue::Integer(own) => is_number(other, own),
        DefaultValue::Item(own) => is_item(other, *own),
        DefaultValue::Octets(own) => are_octets(other, own),
        DefaultValue::Bits(own) => are_bits(other, own),
        DefaultValue::Characters(own) => are_characters(other, own),
        DefaultValue::NoElements => is_empty(other),
    }
}

/// Whether a default is a truth value.
fn is_truth(told: &DefaultValue, own: bool) -> bool
    ensures { result ≡ same (truth own) (default_value told.now) }
{
    match told {
        DefaultValue::Boolean(other) => own == *other,
        _ => false,
    }
}

/// Whether a default is a number.
fn is_number(told: &DefaultValue, own: &Integer) -> bool
    ensures { result ≡ same (whole own.now) (default_value told.now) }
{
    match told {
        DefaultValue::Integer(other) => own == other,
        _ => false,
    }
}

/// Whether a default is the item at a place.
fn is_item(told: &DefaultValue, own: Place) -> bool
    ensures { result ≡ same (item_at own) (default_value told.now) }
{
    match told {
        DefaultValue::Item(other) => are_same_place(own, *other),
        _ => false,
    }
}

/// Whether a default is these octets.
fn are_octets(told: &DefaultValue, own: &Any) -> bool
    ensures { result ≡ same (octets own.now) (default_value told.now) }
{
    match told {
        DefaultValue::Octets(other) => own == other,
        _ => false,
    }
}

/// Whether a default is these bits.
fn are_bits(told: &DefaultValue, own: &BitString) -> bool
    ensures { result ≡ same (bits own.now) (default_value told.now) }
{
    match told {
        DefaultValue::Bits(other) => own == other,
        _ => false,
    }
}

/// Whether a default is these characters.
fn are_characters(told: &DefaultValue, own: &BmpString) -> bool
    ensures { result ≡ same (characters own.now) (default_value told.now) }
{
    match told {
        DefaultValue::Characters(other) => own == other,
        _ => false,
    }
}

/// Whether a default is NULL.
fn is_null(told: &DefaultValue) -> bool
    ensures { result ≡ same nothing (default_value told.now) }
{
    matches!(told, DefaultValue::Null)
}

/// Whether a default is the list without elements.
fn is_empty(told: &DefaultValue) -> bool
    ensures { result ≡ same (list_value []) (default_value told.now) }
{
    matches!(told, DefaultValue::NoElements)
}
