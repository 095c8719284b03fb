//! Whether a type in which no other stands is a newer version of another.

ghost use Rattle.std.specs.Prelude.{◌≡◌, IfOk, option_map, true};
ghost use Rattle.rasn_dynamic.specs.Types.{counts_of, simple_schema, string_schema};
ghost use Rattle.rasn_schema.specs.Enumerations.{items_of};
ghost use Rattle.per_core.specs.Versions.{Newer};
ghost use Rattle.lawful_types.specs.OneLevel.{IsSameNumber, IsSameSize};

use crate::not_newer::Reason;
use rasn_dynamic::types::{CharacterString, Items, NumberBounds, Simple, SizeBounds};

/// Compares two types in which no other stands: they are the same, but after its extension marker an ENUMERATED may
/// have more items (X.680 20).
pub(crate) fn compare_simple(newer: &Simple, older: &Simple) -> Result<(), Reason>
    ensures { IfOk result (λ done. Newer (simple_schema newer.now) (simple_schema older.now)) }
{
    match (newer, older) {
        (Simple::Boolean, Simple::Boolean) => Ok(()),
        (Simple::Null, Simple::Null) => Ok(()),
        (Simple::Utf8, Simple::Utf8) => Ok(()),
        (Simple::Text, Simple::Text) => Ok(()),
        (Simple::ObjectIdentifier, Simple::ObjectIdentifier) => Ok(()),
        (Simple::UtcTime, Simple::UtcTime) => Ok(()),
        (Simple::GeneralizedTime, Simple::GeneralizedTime) => Ok(()),
        (Simple::Open, Simple::Open) => Ok(()),
        (Simple::Integer(newer), Simple::Integer(older)) => compare_bounds(newer, older),
        (Simple::Enumerated(newer), Simple::Enumerated(older)) => compare_items(newer, older),
        (Simple::OctetString(newer), Simple::OctetString(older)) => compare_sizes(newer, older),
        (Simple::BitString(newer), Simple::BitString(older)) => compare_sizes(newer, older),
        (Simple::NamedBits(newer), Simple::NamedBits(older)) => compare_sizes(newer, older),
        (Simple::Characters(newer), Simple::Characters(older)) => compare_strings(newer, older),
        _ => Err(Reason::Kind),
    }
}

/// Compares the bounds of two numbers.
fn compare_bounds(newer: &NumberBounds, older: &NumberBounds) -> Result<(), Reason>
    ensures { IfOk result (λ done. IsSameNumber newer.now older.now) }
{
    let (start, end) = newer.constraint.start_and_end();
    let (old_start, old_end) = older.constraint.start_and_end();
    if start == old_start && end == old_end && newer.extensible == older.extensible {
        Ok(())
    } else {
        Err(Reason::Bounds)
    }
}

/// Compares two sizes.
fn compare_sizes(newer: &SizeBounds, older: &SizeBounds) -> Result<(), Reason>
    ensures { IfOk result (λ done. IsSameSize newer.now older.now) }
{
    if have_same_size(newer, older) {
        Ok(())
    } else {
        Err(Reason::Size)
    }
}

/// Whether two sizes are the same.
pub(crate) fn have_same_size(newer: &SizeBounds, older: &SizeBounds) -> bool
    ensures { result ≡ true → IsSameSize newer.now older.now }
{
    let (least, most) = newer.constraint.start_and_end();
    let (old_least, old_most) = older.constraint.start_and_end();
    least == old_least && most == old_most && newer.extensible == older.extensible
}

/// Compares the items of two ENUMERATED types by their number: as many before the extension marker, and no fewer after
/// it.
fn compare_items(newer: &Items, older: &Items) -> Result<(), Reason>
    ensures { IfOk result (λ done. Newer (items_of (counts_of newer.now)) (items_of (counts_of older.now))) }
{
    if newer.addeds.is_some() != older.addeds.is_some() {
        return Err(Reason::Marker);
    }
    if newer.roots.len() == older.roots.len() && newer.behind().len() >= older.behind().len() {
        Ok(())
    } else {
        Err(Reason::Items)
    }
}

/// Compares two character strings: of the same type, size and permitted alphabet.
fn compare_strings(newer: &CharacterString, older: &CharacterString) -> Result<(), Reason>
    ensures { IfOk result (λ done. Newer (string_schema newer.now) (string_schema older.now)) }
{
    if newer.of != older.of {
        return Err(Reason::Kind);
    }
    if !have_same_alphabet(&newer.alphabet, &older.alphabet) {
        return Err(Reason::Alphabet);
    }
    compare_sizes(&newer.size, &older.size)
}

/// Whether two permitted alphabets are listed the same.
fn have_same_alphabet(newer: &Option<Vec<u32>>, older: &Option<Vec<u32>>) -> bool
    ensures { result ≡ true → option_map (λ v. v.items) newer.now ≡ option_map (λ v. v.items) older.now }
{
    match (newer, older) {
        (None, None) => true,
        (Some(newer), Some(older)) => newer.as_slice() == older.as_slice(),
        _ => false,
    }
}
