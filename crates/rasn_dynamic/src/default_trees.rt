//! Defaults that may hold values: whether a value is one, and the value that it is.

ghost use Rattle.std.specs.Prelude.{◌≡◌, ℕ, ◌≤◌, ◌&&◌, IfOk, Some, is_some, map, option_map, slice_get, true};
ghost use Rattle.rasn_types.specs.Values.{alternative, same};
ghost use Rattle.rasn_schema.specs.Normal.{AtDepths, are_idle, is_idle, is_vacant, normal, normals};
ghost use Rattle.rasn_schema.specs.Lists.{deepest};
ghost use Rattle.rasn_schema.specs.Structures.{list_value, record_value};
ghost use Rattle.rasn_traits.specs.Counted.{index_in, side_of};
ghost use Rattle.rasn_dynamic.specs.Defaults.{all_pairs, chosen_place, components_at, element_place, group_of, groups};
ghost use Rattle.rasn_dynamic.specs.Defaults.{record_of, same_slot, settled};
ghost use Rattle.rasn_dynamic.specs.Types.{is_not_required, parts_in, presence_of, record_schema};
ghost use Rattle.rasn_dynamic.specs.Types.{schema_at, tree_slot, tree_value};
ghost use Rattle.rasn_dynamic.specs.Values.{levels_of, slot_of, value_of};

use crate::defaults::are_same_place;
use crate::types::{
    Component, DefaultTree, DefaultValue, Kind, Presence, Record, kind_at, kind_within,
};
use crate::values::Value;
use rasn_schema::items::Place;
use std::alloc::{AllocError, Global};

impl Value {
    /// Whether its normal form by the type at a place of a table is a default (X.691 16.2, 19.5, 19.9).
    pub fn is_default_tree_at(&self, kinds: &[Kind], place: usize, otherwise: &DefaultTree) -> bool
        ensures { AtDepths (schema_at kinds.now place) (levels_of self.now)
            (λ s. result ≡ same (normal s (value_of self.now)) (tree_value otherwise.now)) }
    {
        comes_to(self, kinds, place, otherwise)
    }
}

impl DefaultTree {
    /// Whether there is a value.
    pub fn is_there(&self) -> bool
        ensures { result ≡ is_some (tree_slot self.now) }
    {
        !matches!(self, DefaultTree::Absent)
    }

    /// The value that it is, in memory of its own.
    pub fn value(&self, alloc: Global) -> Result<Value, AllocError>
        ensures { IfOk result (λ v. slot_of v ≡ Some (tree_value self.now)) }
    {
        value_of(self, alloc)
    }
}

/// What a default is, absent or there, in memory of its own.
#[cycle(copying)]
fn copy_of(told: &DefaultTree, alloc: Global) -> Result<Value, AllocError>
    ensures { IfOk result (λ v. slot_of v ≡ tree_slot told.now) }
{
    match told {
        DefaultTree::Absent => Ok(Value::Absent),
        DefaultTree::Plain(told) => told.value(alloc),
        DefaultTree::Elements(tolds) => Ok(Value::Elements(values_of(tolds, alloc)?)),
        DefaultTree::Fields(root, additions) => {
            let root = copies_of(root, alloc)?;
            let additions = copies_of(additions, alloc)?;
            Ok(Value::Fields(root, additions))
        }
        DefaultTree::Alternative(place, told) => {
            let chosen = value_of(told, alloc)?;
            Ok(Value::Alternative(*place, Box::new(alloc, chosen)?))
        }
    }
}

/// The value that a default is.
#[cycle(copying)]
fn value_of(told: &DefaultTree, alloc: Global) -> Result<Value, AllocError>
    ensures { IfOk result (λ v. slot_of v ≡ Some (tree_value told.now)) }
{
    match told {
        DefaultTree::Absent => Ok(Value::Null),
        _ => copy_of(told, alloc),
    }
}

/// The values that defaults are.
#[cycle(copying)]
fn values_of(tolds: &[DefaultTree], alloc: Global) -> Result<Vec<Value>, AllocError>
    ensures { IfOk result (λ vs. map slot_of vs.items ≡ map (λ d. Some (tree_value d)) tolds.now) }
{
    let mut values = Vec::new(alloc);
    for told in tolds {
        let value = value_of(told, alloc)?;
        values.push(value)?;
    }
    Ok(values)
}

/// What defaults are, each absent or there.
#[cycle(copying)]
fn copies_of(tolds: &[DefaultTree], alloc: Global) -> Result<Vec<Value>, AllocError>
    ensures { IfOk result (λ vs. map slot_of vs.items ≡ map tree_slot tolds.now) }
{
    let mut values = Vec::new(alloc);
    for told in tolds {
        let value = copy_of(told, alloc)?;
        values.push(value)?;
    }
    Ok(values)
}

/// Whether the normal form of a value by the type at a place of a table is a default.
#[cycle(comparing)]
fn comes_to(value: &Value, kinds: &[Kind], place: usize, told: &DefaultTree) -> bool
    ensures { AtDepths (schema_at kinds.now place) (levels_of value.now)
        (λ s. result ≡ same (normal s (value_of value.now)) (tree_value told.now)) }
{
    match told {
        DefaultTree::Absent => value.is_default_at(kinds, place, &DefaultValue::Null),
        DefaultTree::Plain(told) => value.is_default_at(kinds, place, told),
        DefaultTree::Elements(tolds) => list_comes_to(value, kinds, place, tolds),
        DefaultTree::Fields(root, additions) => {
            record_comes_to(value, kinds, place, root, additions)
        }
        DefaultTree::Alternative(at, told) => choice_comes_to(value, kinds, place, *at, told),
    }
}

/// Whether the normal form of a value is a list of these elements.
#[cycle(comparing)]
fn list_comes_to(value: &Value, kinds: &[Kind], place: usize, tolds: &[DefaultTree]) -> bool
    ensures { AtDepths (schema_at kinds.now place) (levels_of value.now)
        (λ s. result ≡ same (normal s (value_of value.now)) (list_value (map tree_value tolds.now))) }
{
    match value {
        Value::Elements(values) => {
            let of = element_place(kinds, place);
            elements_come_to(values, kinds, of, tolds)
        }
        _ => false,
    }
}

/// Whether the normal forms of values by the type at a place are defaults, one for one.
#[cycle(comparing)]
fn elements_come_to(values: &[Value], kinds: &[Kind], place: usize, tolds: &[DefaultTree]) -> bool
    ensures { AtDepths (schema_at kinds.now place) (deepest levels_of values.now)
        (λ s. result ≡ all_pairs (λ v d. same (normal s (value_of v)) (tree_value d)) values.now tolds.now) }
{
    if values.len() != tolds.len() {
        return false;
    }
    for (index, told) in tolds.iter().enumerate() {
        if !comes_to(&values[index], kinds, place, told) {
            return false;
        }
    }
    true
}

/// Whether the normal form of a value is the alternative of a CHOICE at a place, with a value.
#[cycle(comparing)]
fn choice_comes_to(
    value: &Value,
    kinds: &[Kind],
    place: usize,
    at: Place,
    told: &DefaultTree,
) -> bool
    ensures { AtDepths (schema_at kinds.now place) (levels_of value.now)
        (λ s. result ≡ same (normal s (value_of value.now))
        (alternative (side_of at) (index_in at) (tree_value told.now))) }
{
    match value {
        Value::Alternative(own, chosen) => {
            let of = chosen_place(kinds, place, *own);
            if !are_same_place(*own, at) {
                return false;
            }
            comes_to(chosen, kinds, of, told)
        }
        _ => false,
    }
}

/// Whether the normal form of a value is a record of these components.
#[cycle(comparing)]
fn record_comes_to(
    value: &Value,
    kinds: &[Kind],
    place: usize,
    root: &[DefaultTree],
    additions: &[DefaultTree],
) -> bool
    ensures { AtDepths (schema_at kinds.now place) (levels_of value.now)
        (λ s. result ≡ same (normal s (value_of value.now))
        (record_value (map tree_slot root.now) (map tree_slot additions.now))) }
{
    match value {
        Value::Fields(own, added) => {
            let components = components_at(kinds, place, false);
            let behind = components_at(kinds, place, true);
            let root_values: &[Value] = own;
            let added_values: &[Value] = added;
            let root_told = parts_come_to(root_values, kinds, components, false, root);
            if !root_told {
                return false;
            }
            parts_come_to(added_values, kinds, behind, true, additions)
        }
        _ => false,
    }
}

/// Whether the normal forms of a record's parts, after its extension marker or before it, are those of a default.
#[cycle(comparing)]
fn parts_come_to(
    values: &[Value],
    kinds: &[Kind],
    components: &[Component],
    are_added: bool,
    tolds: &[DefaultTree],
) -> bool
    ensures { (n : ℕ) → deepest levels_of values.now ≤ n → let g = groups are_added kinds.now in
        result ≡ all_pairs same_slot
        (normals (parts_in g (λ j. schema_at kinds.now j n) components.now) (map slot_of values.now))
        (map tree_slot tolds.now) }
{
    if values.len() != tolds.len() {
        return false;
    }
    for (index, told) in tolds.iter().enumerate() {
        let component = component_at(components, index);
        if !part_comes_to(&values[index], kinds, component, are_added, told) {
            return false;
        }
    }
    true
}

/// Whether the normal form of a part of a record, by its component if it has one, is that of a default.
#[cycle(comparing)]
fn part_comes_to(
    value: &Value,
    kinds: &[Kind],
    component: Option<&Component>,
    is_added: bool,
    told: &DefaultTree,
) -> bool
    ensures { (n : ℕ) → levels_of value.now ≤ n → let g = groups is_added kinds.now in
        result ≡ same_slot (settled g (λ j. schema_at kinds.now j n) (option_map (λ c. c.now) component.entry)
        (slot_of value.now)) (tree_slot told.now) }
{
    let there = value.is_there();
    if !there {
        let told_there = told.is_there();
        return !told_there;
    }
    match component {
        Some(component) => component_comes_to(value, kinds, component, is_added, told),
        None => slot_comes_to(value, kinds, kinds.len(), told),
    }
}

/// Whether the normal form of a component that is there is that of a default.
#[cycle(comparing)]
fn component_comes_to(
    value: &Value,
    kinds: &[Kind],
    component: &Component,
    is_added: bool,
    told: &DefaultTree,
) -> bool
    ensures { is_some (slot_of value.now) ≡ true → (n : ℕ) → levels_of value.now ≤ n →
        let g = groups is_added kinds.now in
        result ≡ same_slot (settled g (λ j. schema_at kinds.now j n) (Some component.now) (slot_of value.now))
        (tree_slot told.now) }
{
    if is_vacant_group(value, kinds, component, is_added) {
        let told_there = told.is_there();
        return !told_there;
    }
    slot_comes_to(value, kinds, component.of, told)
}

/// Whether a default is there, and a value's normal form by the type at a place.
#[cycle(comparing)]
fn slot_comes_to(value: &Value, kinds: &[Kind], place: usize, told: &DefaultTree) -> bool
    ensures { AtDepths (schema_at kinds.now place) (levels_of value.now)
        (λ s. result ≡ same_slot (Some (normal s (value_of value.now))) (tree_slot told.now)) }
{
    if !told.is_there() {
        return false;
    }
    comes_to(value, kinds, place, told)
}

/// Whether the normal form of a value is an addition group that holds nothing (X.691 19.9).
#[cycle(comparing)]
fn is_vacant_group(value: &Value, kinds: &[Kind], component: &Component, is_added: bool) -> bool
    ensures { (n : ℕ) → levels_of value.now ≤ n → let s = schema_at kinds.now component.now.of n in
        result ≡ (is_some (group_of kinds.now is_added component.now)
        && is_vacant s (normal s (value_of value.now))) }
{
    match group_of(kinds, component, is_added) {
        Some(record) => is_vacant(value, kinds, record),
        None => false,
    }
}

/// Whether the normal form of a value is a record of which each component is absent or its default.
#[cycle(comparing)]
fn is_vacant(value: &Value, kinds: &[Kind], record: &Record) -> bool
    ensures { AtDepths (record_schema kinds.now record.now) (levels_of value.now)
        (λ s. result ≡ is_vacant s (normal s (value_of value.now))) }
{
    match value {
        Value::Fields(root, additions) => {
            let components = record.root();
            let others = record.behind();
            let root_values: &[Value] = root;
            let added_values: &[Value] = additions;
            let root_idle = are_idle(root_values, kinds, components, false);
            if !root_idle {
                return false;
            }
            are_idle(added_values, kinds, others, true)
        }
        _ => false,
    }
}

/// Whether a record's parts, after its extension marker or before it, are each absent or the default in normal form.
#[cycle(comparing)]
fn are_idle(values: &[Value], kinds: &[Kind], components: &[Component], are_added: bool) -> bool
    ensures { (n : ℕ) → deepest levels_of values.now ≤ n →
        let ps = parts_in (groups are_added kinds.now) (λ j. schema_at kinds.now j n) components.now in
        result ≡ are_idle ps (normals ps (map slot_of values.now)) }
{
    if values.len() != components.len() {
        return false;
    }
    for (index, component) in components.iter().enumerate() {
        if !is_idle(&values[index], kinds, component, are_added) {
            return false;
        }
    }
    true
}

/// Whether the normal form of a record's part is absent or the default of its component.
#[cycle(comparing)]
fn is_idle(value: &Value, kinds: &[Kind], component: &Component, is_added: bool) -> bool
    ensures { (n : ℕ) → levels_of value.now ≤ n → let g = groups is_added kinds.now in
        result ≡ is_idle (presence_of (g component.now) component.now.presence)
        (settled g (λ j. schema_at kinds.now j n) (Some component.now) (slot_of value.now)) }
{
    let there = value.is_there();
    if !there {
        return is_not_required(&component.presence);
    }
    match &component.presence {
        Presence::Required => false,
        Presence::Optional => false,
        Presence::Group => is_vacant_group(value, kinds, component, is_added),
        Presence::Default(otherwise) => comes_to(value, kinds, component.of, otherwise),
    }
}

/// Whether a component may be absent, or have a default.
fn is_not_required(presence: &Presence) -> bool
    ensures { result ≡ is_not_required presence.now }
{
    match presence {
        Presence::Required => false,
        Presence::Optional => true,
        Presence::Group => true,
        Presence::Default(_) => true,
    }
}

/// The component at an index.
fn component_at(components: &[Component], index: usize) -> Option<&Component>
    ensures { option_map (λ c. c.now) result ≡ slice_get components.now index }
{
    components.get(index)
}

/// The record of a component's type, where the component is an addition group.
pub fn group_of<'kinds>(
    kinds: &'kinds [Kind],
    component: &Component,
    is_added: bool,
) -> Option<&'kinds Record>
    ensures { option_map (λ r. r.now) result ≡ group_of kinds.now is_added component.now }
{
    if !is_added {
        return None;
    }
    match &component.presence {
        Presence::Group => record_of(kind_at(kinds, component.of)?),
        _ => None,
    }
}

/// A SEQUENCE or SET, where a type is one.
fn record_of(kind: &Kind) -> Option<&Record>
    ensures { option_map (λ r. r.now) result ≡ record_of (Some kind.now) }
{
    match kind {
        Kind::Record(record) => Some(record),
        _ => None,
    }
}

/// The place of the elements of the list that is at a place, or is contained there; past the table for none.
pub fn element_place(kinds: &[Kind], place: usize) -> usize
    ensures { result ≡ element_place kinds.now place }
{
    match kind_within(kinds, place) {
        Some(Kind::List(of, _)) => *of,
        _ => kinds.len(),
    }
}

/// The components of the record at a place, or contained there: those after the extension marker or those before it.
pub fn components_at(kinds: &[Kind], place: usize, behind: bool) -> &[Component]
    ensures { result.now ≡ components_at kinds.now place behind }
{
    match kind_within(kinds, place) {
        Some(Kind::Record(record)) => {
            if behind {
                return record.behind();
            }
            record.root()
        }
        _ => &[],
    }
}

/// The place of the type of an alternative of the choice at a place, or contained there; past the table for none.
pub fn chosen_place(kinds: &[Kind], place: usize, at: Place) -> usize
    ensures { result ≡ chosen_place kinds.now place at }
{
    match kind_within(kinds, place) {
        Some(Kind::Choice(choice)) => match choice.at(at) {
            Some(alternative) => alternative.of,
            None => kinds.len(),
        },
        _ => kinds.len(),
    }
}
