//! What a table says of a type.

ghost use Rattle.std.specs.Prelude.{◌≡◌, option_map};
ghost use Rattle.rasn_dynamic_jer.specs.Leaves.{fixed_by};
ghost use Rattle.rasn_dynamic_jer.specs.Shown.{group_in};

use rasn_dynamic::types::{Component, Kind, Presence, Record, SizeBounds, kind_at};

/// The record of a component's type, where the component is a group.
pub fn group_in<'kinds>(kinds: &'kinds [Kind], component: &Component) -> Option<&'kinds Record>
    ensures { option_map (λ r. r.now) result ≡ group_in kinds.now component.now }
{
    match (&component.presence, kind_at(kinds, component.of)?) {
        (Presence::Group, Kind::Record(record)) if record.behind().is_empty() => Some(record),
        _ => None,
    }
}

/// How many there are, where a size fixes it.
pub fn fixed_by(size: &SizeBounds) -> Option<usize>
    ensures { result ≡ fixed_by size.now }
{
    match size.constraint.start_and_end() {
        (Some(least), Some(most)) if !size.extensible && least == most => Some(least),
        _ => None,
    }
}
