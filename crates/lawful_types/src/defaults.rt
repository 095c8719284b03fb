//! Whether defaults are values of their components' types.

ghost use Rattle.std.specs.Prelude.{◌≡◌, slice_get, true};
ghost use Rattle.rasn_types.specs.Contents.{generalized, is_identifier, is_text, is_time, utc, utf8};
ghost use Rattle.rasn_types.specs.Values;
ghost use Rattle.rasn_schema.specs.Enumerations.{items_of};
ghost use Rattle.rasn_schema.specs.Lawful.{all_pass, if_bits, if_characters, if_octets, is_value};
ghost use Rattle.rasn_traits.specs.Counted.{stands_in};
ghost use Rattle.rasn_dynamic.specs.Types.{counts_of, default_value};
ghost use Rattle.lawful_types.specs.TypeRules.{has_lawful_default, is_default_of, is_default_of_plain};
ghost use Rattle.lawful_types.specs.TypeRules.{is_default_of_named, is_default_of_simple};

use crate::default_trees::is_default_tree_at;
use crate::identifiers::are_contents;
use rasn_dynamic::defaults::are_normal;
use rasn_dynamic::times::{generalized_moment, utc_moment};
use rasn_dynamic::types::{Component, DefaultValue, Items, Kind, Presence, Simple, SizeBounds};
use rasn_schema::items::Place;
use rasn_types::bit_string::BitString;

/// Whether the default of each component that has one is a value of its type (X.680 25.9).
pub(crate) fn have_lawful_defaults(kinds: &[Kind], components: &[Component]) -> bool
    ensures { result ≡ all_pass (has_lawful_default kinds.now) components.now }
{
    for component in components {
        if !has_lawful_default(kinds, component) {
            return false;
        }
    }
    true
}

/// Whether the default of a component, where it has one, is a value of its type.
fn has_lawful_default(kinds: &[Kind], component: &Component) -> bool
    ensures { result ≡ has_lawful_default kinds.now component.now }
{
    match &component.presence {
        Presence::Default(default) => is_default_tree_at(kinds, component.of, default),
        _ => true,
    }
}

/// Whether a default that holds no values is a value of the type at a place of a table (X.680 25.9), and in normal
/// form. Of octets that contain a value it is one of what they contain.
pub fn is_default_at(kinds: &[Kind], place: usize, default: &DefaultValue) -> bool
    ensures { result ≡ is_default_of kinds.now default.now (slice_get kinds.now place) }
{
    match kinds.get(place) {
        Some(Kind::Containing(of)) => match kinds.get(*of) {
            Some(kind) => is_default_of_plain(default, kind),
            None => false,
        },
        Some(kind) => is_default_of_plain(default, kind),
        None => false,
    }
}

/// Whether a default is a value of a type, where that isn't octets that contain a value.
fn is_default_of_plain(default: &DefaultValue, kind: &Kind) -> bool
    ensures { result ≡ is_default_of_plain default.now kind.now }
{
    match kind {
        Kind::Simple(simple) => is_default_of_simple(default, simple),
        Kind::List(_, _) => matches!(default, DefaultValue::NoElements),
        Kind::Open(_) => are_octets(default),
        _ => false,
    }
}

/// Whether a default is a value of a type in which no other stands, and in normal form.
fn is_default_of_simple(default: &DefaultValue, simple: &Simple) -> bool
    ensures { result ≡ is_default_of_simple default.now simple.now }
{
    match simple {
        Simple::Boolean => matches!(default, DefaultValue::Boolean(_)),
        Simple::Null => matches!(default, DefaultValue::Null),
        Simple::Integer(_) => matches!(default, DefaultValue::Integer(_)),
        Simple::Enumerated(items) => is_item_of(default, items),
        Simple::Characters(_) => are_characters(default),
        Simple::BitString(_) => are_bits(default),
        Simple::NamedBits(size) => are_named_bits(default, size),
        Simple::OctetString(_) | Simple::Text | Simple::Open => are_octets(default),
        Simple::Utf8 => is_text(default),
        Simple::ObjectIdentifier => is_object(default),
        Simple::UtcTime => is_utc_time(default),
        Simple::GeneralizedTime => is_generalized_time(default),
    }
}

/// Whether a default is an item of an ENUMERATED.
fn is_item_of(default: &DefaultValue, items: &Items) -> bool
    ensures { result ≡ is_value (items_of (counts_of items.now)) (default_value default.now) }
{
    match default {
        DefaultValue::Item(place) => has_item(items, *place),
        _ => false,
    }
}

/// Whether an item of an ENUMERATED is at a place.
fn has_item(items: &Items, place: Place) -> bool
    ensures { result ≡ stands_in (counts_of items.now) place }
{
    match place {
        Place::Root(index) => index < items.roots.len(),
        Place::Added(index) => index < items.behind().len(),
    }
}

/// Whether a default is characters.
fn are_characters(default: &DefaultValue) -> bool
    ensures { result ≡ if_characters (λ cs. true) (default_value default.now) }
{
    match default {
        DefaultValue::Characters(characters) => {
            characters_are_countable(characters.as_units());
            true
        }
        _ => false,
    }
}

/// Whether a default is bits.
fn are_bits(default: &DefaultValue) -> bool
    ensures { result ≡ if_bits (default_value default.now) }
{
    match default {
        DefaultValue::Bits(bits) => {
            bits_are_countable(bits);
            true
        }
        _ => false,
    }
}

/// Whether a default is named bits in normal form: without zero bits at their end but those that their size asks for
/// (X.680 22.7).
fn are_named_bits(default: &DefaultValue, size: &SizeBounds) -> bool
    ensures { result ≡ is_default_of_named size.now default.now }
{
    match default {
        DefaultValue::Bits(bits) => {
            bits_are_countable(bits);
            are_normal(bits, size)
        }
        _ => false,
    }
}

/// Whether a default is octets.
fn are_octets(default: &DefaultValue) -> bool
    ensures { result ≡ if_octets (λ os. true) (default_value default.now) }
{
    match default {
        DefaultValue::Octets(octets) => {
            octets_are_countable(octets.as_bytes());
            true
        }
        _ => false,
    }
}

/// Whether a default is the octets of a UTF8String.
fn is_text(default: &DefaultValue) -> bool
    ensures { result ≡ if_octets (is_text utf8) (default_value default.now) }
{
    match default {
        DefaultValue::Octets(octets) => {
            octets_are_countable(octets.as_bytes());
            is_utf8(octets.as_bytes())
        }
        _ => false,
    }
}

/// Whether a default is the contents of an OBJECT IDENTIFIER.
fn is_object(default: &DefaultValue) -> bool
    ensures { result ≡ if_octets is_identifier (default_value default.now) }
{
    match default {
        DefaultValue::Octets(octets) => {
            octets_are_countable(octets.as_bytes());
            are_contents(octets.as_bytes())
        }
        _ => false,
    }
}

/// Whether a default is the canonical text of a UTCTime (X.690 11.8).
fn is_utc_time(default: &DefaultValue) -> bool
    ensures { result ≡ if_characters (is_time utc) (default_value default.now) }
{
    match default {
        DefaultValue::Characters(characters) => {
            characters_are_countable(characters.as_units());
            utc_moment(characters).is_some()
        }
        _ => false,
    }
}

/// Whether a default is the canonical text of a GeneralizedTime (X.690 11.7).
fn is_generalized_time(default: &DefaultValue) -> bool
    ensures { result ≡ if_characters (is_time generalized) (default_value default.now) }
{
    match default {
        DefaultValue::Characters(characters) => {
            characters_are_countable(characters.as_units());
            generalized_moment(characters).is_some()
        }
        _ => false,
    }
}

/// Whether octets are UTF-8.
fn is_utf8(octets: &[u8]) -> bool
    ensures { result ≡ is_text utf8 octets.now }
{
    str::from_utf8(octets).is_ok()
}

/// Octets in memory are a value of a type whose values are any octets. This is a law, and nothing runs.
fn octets_are_countable(octets: &[u8])
    ensures { if_octets (λ os. true) (Values.octets octets.now) ≡ true }
{
    let _ = octets;
}

/// Bits in memory are a value of a BIT STRING, as their length is a `usize`. This is a law.
fn bits_are_countable(bits: &BitString)
    ensures { if_bits (Values.bits bits.now) ≡ true }
{
    let _ = bits.len();
}

/// Characters in memory are a value of a character string. This is a law, and nothing runs.
fn characters_are_countable(characters: &[u16])
    ensures { if_characters (λ cs. true) (Values.characters characters.now) ≡ true }
{
    let _ = characters;
}
