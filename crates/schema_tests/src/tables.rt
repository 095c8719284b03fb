//! Tables of schema files.

use crate::example::{EXAMPLE, HOLDERS, with_line};
use rasn_constraints::constraints::{Bounded, Extensible};
use rasn_dynamic::types::{DefaultTree, DefaultValue, Kind, Presence, Record, Simple, Types};
use rasn_schema::items::Place;
use rasn_types::types::{Class, Integer, Tag};
use schema_file::load::load;
use std::test::Fail;

#[test]
fn example(rt: HostRuntime) -> Result<(), Fail> {
    let types = load(rt.alloc(), EXAMPLE.as_bytes())?;
    assert_eq!(rt; types.kinds.len(), 6);
    assert_eq!(rt; types.place("Example.Message"), Some(0));
    assert_eq!(rt; types.place("Example.Messages"), Some(3));
    assert_eq!(rt; types.place("Messages"), None);
    let Some(Kind::Record(message)) = types.kinds.first() else {
        return Err(Fail::from("no record"));
    };
    let (Some(note), Some(additions)) = (message.root.get(1), &message.additions) else {
        return Err(Fail::from("no component"));
    };
    assert_eq!(rt; note.name.as_str(), "note");
    assert_eq!(rt;
        note.tag,
        Tag {
            class: Class::Context,
            value: 1
        }
    );
    assert_eq!(rt; note.of, 2);
    assert!(rt; matches!(note.presence, Presence::Optional));
    let Some(more) = message.root.get(2) else {
        return Err(Fail::from("no list"));
    };
    assert!(rt;
        matches!(
            more.presence,
            Presence::Default(DefaultTree::Plain(DefaultValue::NoElements))
        )
    );
    let Some(group) = additions.first() else {
        return Err(Fail::from("no addition"));
    };
    assert!(rt; matches!(group.presence, Presence::Group));
    assert_eq!(rt; group.of, 4);
    let Some(Kind::Simple(Simple::Integer(bounds))) = types.kinds.get(1) else {
        return Err(Fail::from("no integer"));
    };
    let range = Bounded::Range {
        start: Some(0),
        end: Some(65535),
    };
    assert_eq!(rt;
        *bounds,
        Extensible {
            constraint: range,
            extensible: false
        }
    );
    Ok(())
}

/// A component that is a CHOICE without a tag of its own has the smallest of its alternatives.
#[test]
fn smallest_tag(rt: HostRuntime) -> Result<(), Fail> {
    let mut text = with_line(rt.alloc(), 3, "sequence 2 - a - r 3 c u1 r 1")?;
    text = text.replace(
        rt.alloc(),
        "sequence_of 0 0 - -",
        "choice 2 - m c3 1 n c9 1",
    )?;
    let types = load(rt.alloc(), text.as_bytes())?;
    let Some(Kind::Record(record)) = types.kinds.first() else {
        return Err(Fail::from("no record"));
    };
    let Some(first) = record.root.first() else {
        return Err(Fail::from("no component"));
    };
    assert_eq!(rt; first.tag, Tag::new(Class::Context, 3));
    Ok(())
}

/// The record at the first place of a table.
fn record(types: &Types) -> Result<&Record, Fail> {
    match types.kinds.first() {
        Some(Kind::Record(record)) => Ok(record),
        _ => Err(Fail::from("no record")),
    }
}

/// A SET's root components are in the order of their tags, and its additions as they are written.
#[test]
fn order_of_a_set(rt: HostRuntime) -> Result<(), Fail> {
    let line = "set 3 2 a c2 r 1 b u4 r 2 c - r 3 d c9 o 1 e c8 o 1";
    let mut text = with_line(rt.alloc(), 3, line)?;
    text = text.replace(
        rt.alloc(),
        "sequence_of 0 0 - -",
        "choice 2 - m c1 1 n c5 1",
    )?;
    let types = load(rt.alloc(), text.as_bytes())?;
    let record = record(&types)?;
    let names = |at: usize| Some(record.root.get(at)?.name.as_str());
    assert_eq!(rt;
        (names(0), names(1), names(2)),
        (Some("b"), Some("c"), Some("a"))
    );
    let Some(first) = record.behind().first() else {
        return Err(Fail::from("no addition"));
    };
    assert_eq!(rt; first.name.as_str(), "d");
    Ok(())
}

/// A record with a default of each form.
const DEFAULTS: &str = "per_schema 1 1 9 1
module Example -
sequence 8 - a c0 d 1 int -5 b c1 d 2 true c c2 d 3 octets 0aff d c3 d 4 item added 0 e c4 d 5 characters 2 65 66 \
f c5 d 6 oid 3 1 2 840 g c6 d 7 bits 0110 h c7 d 8 bits 011
integer 0 7 ...
boolean
octet_string 0 - -
enumerated 1 1 x y
ia5_string 0 - - -
object_identifier
bit_string 0 - -
named_bits 0 - -
root Example Message 0
";

/// Defaults of each form.
#[test]
fn defaults(rt: HostRuntime) -> Result<(), Fail> {
    let types = load(rt.alloc(), DEFAULTS.as_bytes())?;
    let record = record(&types)?;
    let told = |at: usize| match &record.root.get(at)?.presence {
        Presence::Default(DefaultTree::Plain(value)) => Some(value),
        _ => None,
    };
    assert!(rt;
        matches!(told(0), Some(DefaultValue::Integer(number)) if *number == Integer::from(-5))
    );
    assert!(rt; matches!(told(1), Some(DefaultValue::Boolean(true))));
    assert!(rt;
        matches!(told(2), Some(DefaultValue::Octets(octets)) if octets.as_bytes() == [0x0a, 0xff].as_slice())
    );
    assert!(rt; matches!(told(3), Some(DefaultValue::Item(Place::Added(0)))));
    assert!(rt;
        matches!(told(4), Some(DefaultValue::Characters(text)) if text.as_units() == [65, 66].as_slice())
    );
    assert!(rt;
        matches!(told(5), Some(DefaultValue::Octets(octets)) if octets.as_bytes() == [0x2a, 0x86, 0x48].as_slice())
    );
    assert!(rt;
        matches!(told(6), Some(DefaultValue::Bits(bits)) if bits.len() == 4 && bits.is_set(1))
    );
    assert!(rt; matches!(told(7), Some(DefaultValue::Bits(bits)) if bits.len() == 3));
    Ok(())
}

/// The number that a default is, where it is one.
fn number(told: Option<&DefaultTree>) -> Option<&Integer> {
    match told {
        Some(DefaultTree::Plain(DefaultValue::Integer(number))) => Some(number),
        _ => None,
    }
}

/// What a default says of a SET is in the order of its tags, and of a SEQUENCE its additions are apart.
#[test]
fn defaults_that_hold_values(rt: HostRuntime) -> Result<(), Fail> {
    let types = load(rt.alloc(), HOLDERS.as_bytes())?;
    let record = record(&types)?;
    let told = |at: usize| match &record.root.get(at)?.presence {
        Presence::Default(value) => Some(value),
        _ => None,
    };
    let Some(DefaultTree::Elements(elements)) = told(0) else {
        return Err(Fail::from("no list"));
    };
    assert!(rt; number(elements.get(1)) == Some(&Integer::from(2)));
    let Some(DefaultTree::Fields(root, _)) = told(1) else {
        return Err(Fail::from("no SET"));
    };
    assert!(rt;
        matches!(
            root.first(),
            Some(DefaultTree::Plain(DefaultValue::Boolean(true)))
        )
    );
    assert!(rt; number(root.get(1)) == Some(&Integer::from(5)));
    let Some(DefaultTree::Fields(root, additions)) = told(2) else {
        return Err(Fail::from("no SEQUENCE"));
    };
    assert_eq!(rt; (root.len(), additions.len()), (1, 2));
    assert!(rt; matches!(additions.first(), Some(DefaultTree::Absent)));
    assert!(rt; number(additions.get(1)) == Some(&Integer::from(7)));
    let Some(DefaultTree::Alternative(place, chosen)) = told(3) else {
        return Err(Fail::from("no alternative"));
    };
    let chosen: &DefaultTree = chosen;
    assert!(rt; *place == Place::Added(0) && matches!(chosen, DefaultTree::Elements(_)));
    let Some(default) = told(2) else {
        return Err(Fail::from("no default"));
    };
    let value = default.value(rt.alloc())?;
    assert!(rt; value.is_default_tree_at(&types.kinds, 3, default));
    Ok(())
}

/// Defaults that are no values of their types, in place of those that are.
const OTHERS: [(&str, &str); 6] = [
    ("list 2 int 1 int 2", "list 2 int 1 true"),
    ("record 2 int 5 true", "record 2 true int 5"),
    ("record 2 int 5 true", "record 1 int 5"),
    ("record 3 true absent int 7", "record 3 absent absent int 7"),
    (
        "record 3 true absent int 7",
        "record 4 true absent int 7 absent",
    ),
    ("chosen added 0 list 1 int 0", "chosen root 0 list 1 int 0"),
];

#[test]
fn values_of_other_types(rt: HostRuntime) -> Result<(), Fail> {
    for (old, new) in OTHERS {
        let text = String::from_str(rt.alloc(), HOLDERS)?.replace(rt.alloc(), old, new)?;
        let told = match load(rt.alloc(), text.as_bytes()) {
            Ok(_) => format!(in rt.alloc(); "taken")?,
            Err(error) => format!(in rt.alloc(); "{error}")?,
        };
        assert_eq!(rt;
            told.as_str(),
            "line 3: a default is no value of its type",
            "{new}"
        );
    }
    Ok(())
}
