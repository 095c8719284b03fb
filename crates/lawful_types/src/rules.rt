//! The rules that a lawful type keeps.

ghost use Rattle.std.specs.Prelude.{◌≡◌, count_by};
ghost use Rattle.rasn_dynamic.specs.Types.{is_not_required};
ghost use Rattle.lawful_types.specs.TypeRules;
ghost use Rattle.lawful_types.specs.TypeRules.{size_stated, size_stated_by};

use crate::defaults::have_lawful_defaults;
use crate::tags::are_told_apart;
use rasn_constraints::constraints::{Constraint, Constraints};
use rasn_constraints::limits::is_lawful;
use rasn_dynamic::types::{Component, Kind, Presence, Simple, SizeBounds};

/// The number of root components of a SEQUENCE that may be absent or have a default has to be less.
const PRESENCE_BITS: usize = 65536;

/// Whether the bounds of a number are in order (X.680 51.4), and not too far apart.
pub(crate) fn keeps_bounds(kind: &Kind) -> bool
    ensures { result ≡ TypeRules.keeps_bounds kind.now }
{
    match kind {
        Kind::Simple(Simple::Integer(bounds)) => {
            let stated = [Constraint::Value(*bounds)];
            is_lawful(&Constraints::new(&stated))
        }
        _ => true,
    }
}

/// Whether the bounds of a size are in order (X.680 51.5).
pub(crate) fn keeps_size(kind: &Kind) -> bool
    ensures { result ≡ TypeRules.keeps_size kind.now }
{
    match size_stated(kind) {
        Some(size) => {
            let stated = [Constraint::Size(size)];
            is_lawful(&Constraints::new(&stated))
        }
        None => true,
    }
}

/// The size that a type states, where it has one.
fn size_stated(kind: &Kind) -> Option<SizeBounds>
    ensures { result ≡ size_stated kind.now }
{
    match kind {
        Kind::Simple(simple) => size_stated_by(simple),
        Kind::List(_, size) | Kind::SetOf(_, size) => Some(*size),
        Kind::Date | Kind::Record(_) | Kind::Choice(_) => None,
        Kind::Containing(_) | Kind::Open(_) => None,
    }
}

/// The size that a type in which no other stands states, where it has one.
fn size_stated_by(simple: &Simple) -> Option<SizeBounds>
    ensures { result ≡ size_stated_by simple.now }
{
    match simple {
        Simple::OctetString(size) | Simple::BitString(size) | Simple::NamedBits(size) => {
            Some(*size)
        }
        Simple::Characters(string) => Some(string.size),
        _ => None,
    }
}

/// Whether fewer than 65536 root components of a SEQUENCE may be absent or have a default.
pub(crate) fn keeps_presence_bits(kind: &Kind) -> bool
    ensures { result ≡ TypeRules.keeps_presence_bits kind.now }
{
    match kind {
        Kind::Record(record) => presence_bit_count(&record.root) < PRESENCE_BITS,
        _ => true,
    }
}

/// How many components have a presence bit (X.691 19.2).
fn presence_bit_count(components: &[Component]) -> usize
    ensures { result ≡ count_by (λ c. is_not_required c.presence) components.now }
{
    components
        .iter()
        .filter(|component| !matches!(component.presence, Presence::Required))
        .count()
}

/// Whether the alternatives of a CHOICE have different tags (X.680 29.3).
pub(crate) fn keeps_tags(kind: &Kind) -> bool
    ensures { result ≡ TypeRules.keeps_tags kind.now }
{
    match kind {
        Kind::Choice(choice) => are_told_apart(&choice.roots, choice.behind()),
        _ => true,
    }
}

/// Whether the defaults of a SEQUENCE are values of their components' types (X.680 25.9).
pub(crate) fn keeps_defaults(kinds: &[Kind], kind: &Kind) -> bool
    ensures { result ≡ TypeRules.keeps_defaults kinds.now kind.now }
{
    match kind {
        Kind::Record(record) => {
            have_lawful_defaults(kinds, &record.root)
                && have_lawful_defaults(kinds, record.behind())
        }
        _ => true,
    }
}
