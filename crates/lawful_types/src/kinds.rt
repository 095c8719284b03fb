//! Whether a type is a newer version of another, wherever what is within is.

ghost use Rattle.std.specs.Prelude.{◌≡◌, IfOk, List, slice_get, true};
ghost use Rattle.rasn_dynamic.specs.declared.types.Kind.{Kind};
ghost use Rattle.lawful_types.specs.OneLevel.{IsFront, IsListed, IsNewerKind, IsNewerPair, IsNewerPlain};
ghost use Rattle.lawful_types.specs.OneLevel.{IsNewerWithin, IsOpen, IsSameSize};

use crate::components::{compare_alternatives, compare_components};
use crate::not_newer::Reason;
use crate::pairs::{Pair, list};
use crate::simple::{compare_simple, have_same_size};
use rasn_dynamic::types::{Choice, Kind, Record, Simple, SizeBounds};

/// Compares what is at the places of a pair, where something does.
pub(crate) fn compare_at(
    newer_kinds: &[Kind],
    older_kinds: &[Kind],
    pair: Pair,
    pairs: &mut Vec<Pair>,
) -> Result<(), Reason>
    ensures front { IsFront pairs.old.items pairs.new.items }
    ensures newer { IfOk result (λ done. IsNewerPair newer_kinds.now older_kinds.now pairs.new.items pair) }
{
    let Some(newer) = newer_kinds.get(pair.newer) else {
        return Err(Reason::Kind);
    };
    let Some(older) = older_kinds.get(pair.older) else {
        return Err(Reason::Kind);
    };
    compare_kinds(newer_kinds, older_kinds, newer, older, pairs)
}

/// Compares two types. Of octets that contain a value, what is within them is compared.
fn compare_kinds(
    newer_kinds: &[Kind],
    older_kinds: &[Kind],
    newer: &Kind,
    older: &Kind,
    pairs: &mut Vec<Pair>,
) -> Result<(), Reason>
    ensures front { IsFront pairs.old.items pairs.new.items }
    ensures newer { IfOk result (λ done.
        IsNewerKind newer_kinds.now older_kinds.now pairs.new.items newer.now older.now) }
{
    match newer {
        Kind::Containing(newer) => match older {
            Kind::Containing(older) => {
                compare_within(newer_kinds, older_kinds, *newer, *older, pairs)
            }
            _ => Err(Reason::Kind),
        },
        newer => match older {
            Kind::Containing(_) => Err(Reason::Kind),
            older => compare_plain(newer_kinds, older_kinds, newer, older, pairs),
        },
    }
}

/// Compares what is within octets that contain it, by its places.
fn compare_within(
    newer_kinds: &[Kind],
    older_kinds: &[Kind],
    newer: usize,
    older: usize,
    pairs: &mut Vec<Pair>,
) -> Result<(), Reason>
    ensures front { IsFront pairs.old.items pairs.new.items }
    ensures newer { IfOk result (λ done. IsNewerWithin newer_kinds.now older_kinds.now pairs.new.items
        (slice_get newer_kinds.now newer) (slice_get older_kinds.now older)) }
{
    let Some(newer) = newer_kinds.get(newer) else {
        return Err(Reason::Kind);
    };
    let Some(older) = older_kinds.get(older) else {
        return Err(Reason::Kind);
    };
    compare_plain(newer_kinds, older_kinds, newer, older, pairs)
}

/// Compares two types that aren't octets that contain a value.
fn compare_plain(
    newer_kinds: &[Kind],
    older_kinds: &[Kind],
    newer: &Kind,
    older: &Kind,
    pairs: &mut Vec<Pair>,
) -> Result<(), Reason>
    ensures front { IsFront pairs.old.items pairs.new.items }
    ensures newer { IfOk result (λ done.
        IsNewerPlain newer_kinds.now older_kinds.now pairs.new.items newer.now older.now) }
{
    match (newer, older) {
        (Kind::Simple(newer), Kind::Simple(older)) => compare_simple(newer, older),
        (Kind::Date, Kind::Date) => Ok(()),
        (Kind::List(newer, size), Kind::List(older, old_size)) => {
            compare_elements(pairs, *newer, size, *older, old_size)
        }
        (Kind::SetOf(newer, size), Kind::SetOf(older, old_size)) => {
            compare_elements(pairs, *newer, size, *older, old_size)
        }
        (Kind::Record(newer), Kind::Record(older)) => {
            compare_records(newer_kinds, older_kinds, newer, older, pairs)
        }
        (Kind::Choice(newer), Kind::Choice(older)) => compare_choices(newer, older, pairs),
        _ if is_open(newer) && is_open(older) => Ok(()),
        _ => Err(Reason::Kind),
    }
}

/// Whether a type is an open type.
fn is_open(kind: &Kind) -> bool
    ensures { result ≡ true → IsOpen kind.now }
{
    match kind {
        Kind::Open(_) => true,
        Kind::Simple(simple) => matches!(simple, Simple::Open),
        _ => false,
    }
}

/// Compares the sizes of two lists or bags, and lists the pair of what is in them.
fn compare_elements(
    pairs: &mut Vec<Pair>,
    newer: usize,
    size: &SizeBounds,
    older: usize,
    old_size: &SizeBounds,
) -> Result<(), Reason>
    ensures front { IsFront pairs.old.items pairs.new.items }
    ensures size { IfOk result (λ done. IsSameSize size.now old_size.now) }
    ensures listed { IfOk result (λ done. IsListed pairs.new.items newer older) }
{
    if !have_same_size(size, old_size) {
        return Err(Reason::Size);
    }
    list(pairs, newer, older)
}

/// Compares two records.
fn compare_records(
    newer_kinds: &[Kind],
    older_kinds: &[Kind],
    newer: &Record,
    older: &Record,
    pairs: &mut Vec<Pair>,
) -> Result<(), Reason>
    ensures front { IsFront pairs.old.items pairs.new.items }
    ensures newer { IfOk result (λ done. IsNewerPlain newer_kinds.now older_kinds.now pairs.new.items
        (Kind.Record newer.now) (Kind.Record older.now)) }
{
    if newer.additions.is_some() != older.additions.is_some() {
        return Err(Reason::Marker);
    }
    compare_components(
        false,
        newer_kinds,
        older_kinds,
        &newer.root,
        &older.root,
        pairs,
    )?;
    compare_components(
        true,
        newer_kinds,
        older_kinds,
        newer.behind(),
        older.behind(),
        pairs,
    )
}

/// Compares two choices.
fn compare_choices(newer: &Choice, older: &Choice, pairs: &mut Vec<Pair>) -> Result<(), Reason>
    ensures front { IsFront pairs.old.items pairs.new.items }
    ensures newer { IfOk result (λ done. (newer_kinds older_kinds : List Kind) →
        IsNewerPlain newer_kinds older_kinds pairs.new.items (Kind.Choice newer.now) (Kind.Choice older.now)) }
{
    if newer.addeds.is_some() != older.addeds.is_some() {
        return Err(Reason::Marker);
    }
    compare_alternatives(false, &newer.roots, &older.roots, pairs)?;
    compare_alternatives(true, newer.behind(), older.behind(), pairs)
}
