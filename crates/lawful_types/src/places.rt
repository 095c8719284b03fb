//! Judges whether each place that a table names is one of the table.

ghost use Rattle.std.specs.Prelude.{◌≡◌, length, MatchOption, MatchResult, nat_lt, true};
ghost use Rattle.rasn_schema.specs.Lawful.{all_pass};
ghost use Rattle.lawful_types.specs.PlacesInside.{AreAllInside, FailsAt, is_inside, is_name_inside, IsPastTable};

use rasn_dynamic::types::{Alternative, Component, Kind, Name, Row, Types};
use thiserror::Error;

/// What names a place past the table.
#[derive(Clone, Copy, Debug, PartialEq, Eq, Error)]
pub enum PastTable {
    /// The type at a place, from 0.
    #[error("type {0} names a type that isn't there")]
    OfType(usize),
    /// The name of a type at an index, from 0.
    #[error("name {0} is that of a type that isn't there")]
    OfName(usize),
}

/// Judges whether each place that a type of a table names, or a name has, is one of the table. A place past the table
/// is REAL, which is lawful (`judge`), but has no encoding.
pub fn judge_places(types: &Types) -> Result<(), PastTable>
    ensures { MatchResult result
        (λ done. AreAllInside types.now.kinds.items types.now.names.items)
        (λ past. IsPastTable types.now.kinds.items types.now.names.items past) }
{
    if let Some(place) = type_outside(&types.kinds) {
        return Err(PastTable::OfType(place));
    }
    if let Some(index) = name_outside(types.kinds.len(), &types.names) {
        return Err(PastTable::OfName(index));
    }
    Ok(())
}

/// The place of the first type that names a place past the table.
fn type_outside(kinds: &[Kind]) -> Option<usize>
    ensures { MatchOption result
        (all_pass (is_inside (length kinds.now)) kinds.now ≡ true)
        (λ place. FailsAt (is_inside (length kinds.now)) kinds.now place) }
{
    for (place, kind) in kinds.iter().enumerate() {
        if !is_inside(kinds.len(), kind) {
            return Some(place);
        }
    }
    None
}

/// The index of the first name whose place isn't below a number of types.
fn name_outside(types: usize, names: &[Name]) -> Option<usize>
    ensures { MatchOption result
        (all_pass (is_name_inside types) names.now ≡ true)
        (λ index. FailsAt (is_name_inside types) names.now index) }
{
    for (index, name) in names.iter().enumerate() {
        if name.place >= types {
            return Some(index);
        }
    }
    None
}

/// Whether each place that a type names is below a number of types.
fn is_inside(types: usize, kind: &Kind) -> bool
    ensures { result ≡ is_inside types kind.now }
{
    match kind {
        Kind::Simple(_) | Kind::Date => true,
        Kind::List(of, _) => *of < types,
        Kind::SetOf(of, _) => *of < types,
        Kind::Containing(of) => *of < types,
        Kind::Open(set) => are_rows_inside(types, &set.rows),
        Kind::Record(record) => {
            are_components_inside(types, &record.root)
                && are_components_inside(types, record.behind())
        }
        Kind::Choice(choice) => {
            are_alternatives_inside(types, &choice.roots)
                && are_alternatives_inside(types, choice.behind())
        }
    }
}

/// Whether the types of components are below a number of types.
fn are_components_inside(types: usize, components: &[Component]) -> bool
    ensures { result ≡ all_pass (λ c. nat_lt c.of types) components.now }
{
    for component in components {
        if component.of >= types {
            return false;
        }
    }
    true
}

/// Whether the types of an object set's rows are below a number of types.
fn are_rows_inside(types: usize, rows: &[Row]) -> bool
    ensures { result ≡ all_pass (λ r. nat_lt r.of types) rows.now }
{
    for row in rows {
        if row.of >= types {
            return false;
        }
    }
    true
}

/// Whether the types of alternatives are below a number of types.
fn are_alternatives_inside(types: usize, alternatives: &[Alternative]) -> bool
    ensures { result ≡ all_pass (λ a. nat_lt a.of types) alternatives.now }
{
    for alternative in alternatives {
        if alternative.of >= types {
            return false;
        }
    }
    true
}
