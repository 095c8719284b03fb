//! Times in tables of types, and values of them.

use crate::example::with_line;
use jiff::civil::DateTime;
use rasn_dynamic::types::{DefaultTree, DefaultValue, Kind, Presence, Simple};
use rasn_dynamic::values::Value;
use schema_file::load::load;
use std::test::Fail;

#[test]
fn types_of_times(rt: HostRuntime) -> Result<(), Fail> {
    let text = with_line(rt.alloc(), 4, "utc_time")?;
    let types = load(rt.alloc(), text.as_bytes())?;
    assert!(rt; matches!(types.kinds.get(1), Some(Kind::Simple(Simple::UtcTime))));
    let text = with_line(rt.alloc(), 4, "generalized_time")?;
    let types = load(rt.alloc(), text.as_bytes())?;
    assert!(rt;
        matches!(
            types.kinds.get(1),
            Some(Kind::Simple(Simple::GeneralizedTime))
        )
    );
    Ok(())
}

#[test]
fn type_of_days(rt: HostRuntime) -> Result<(), Fail> {
    let text = with_line(rt.alloc(), 4, "date")?;
    let types = load(rt.alloc(), text.as_bytes())?;
    assert!(rt; matches!(types.kinds.get(1), Some(Kind::Date)));
    Ok(())
}

/// A default that is 1999-12-31 23:59:59, and the same digits with a month 13.
const DEFAULTS: [(&str, bool); 2] = [
    (
        "sequence 1 - at c0 d 1 characters 13 57 57 49 50 51 49 50 51 53 57 53 57 90",
        true,
    ),
    (
        "sequence 1 - at c0 d 1 characters 13 57 57 49 51 51 49 50 51 53 57 53 57 90",
        false,
    ),
];

#[test]
fn defaults_of_times(rt: HostRuntime) -> Result<(), Fail> {
    for (line, is_lawful) in DEFAULTS {
        let mut text = with_line(rt.alloc(), 3, line)?;
        text = text.replace(rt.alloc(), "integer 0 65535 -", "utc_time")?;
        assert_eq!(rt;
            load(rt.alloc(), text.as_bytes()).is_ok(),
            is_lawful,
            "{line}"
        );
    }
    Ok(())
}

#[test]
fn default_of_a_time(rt: HostRuntime) -> Result<(), Fail> {
    let mut text = with_line(rt.alloc(), 3, DEFAULTS[0].0)?;
    text = text.replace(rt.alloc(), "integer 0 65535 -", "utc_time")?;
    let types = load(rt.alloc(), text.as_bytes())?;
    let Some(Kind::Record(record)) = types.kinds.first() else {
        return Err(Fail::from("no record"));
    };
    let Some(component) = record.root.first() else {
        return Err(Fail::from("no component"));
    };
    let Presence::Default(DefaultTree::Plain(default)) = &component.presence else {
        return Err(Fail::from("no default"));
    };
    assert!(rt; matches!(default, DefaultValue::Characters(_)));
    let value = default.value(rt.alloc())?;
    let moment = DateTime::new(1999, 12, 31, 23, 59, 59, 0)?;
    assert!(rt; value.to_utc_time() == Some(moment));
    assert!(rt; value.is_default_at(&types.kinds, 1, default));
    Ok(())
}

/// The value has these characters.
fn has_text(value: &Value, text: &str) -> bool {
    match value.as_characters() {
        Some(characters) => characters
            .as_units()
            .iter()
            .map(|unit| u32::from(*unit))
            .eq(text.bytes().map(u32::from)),
        None => false,
    }
}

/// X.690 11.8.3.
#[test]
fn utc_times(rt: HostRuntime) -> Result<(), Fail> {
    let moment = DateTime::new(1992, 7, 22, 13, 21, 0, 0)?;
    let Ok(value) = Value::from_utc_time(rt.alloc(), moment) else {
        return Err(Fail::from("no value"));
    };
    assert!(rt; has_text(&value, "920722132100Z"));
    assert!(rt; value.to_utc_time() == Some(moment));
    assert!(rt; value.to_generalized_time().is_none());
    let late = DateTime::new(2050, 1, 1, 0, 0, 0, 0)?;
    assert!(rt; Value::from_utc_time(rt.alloc(), late).is_err());
    Ok(())
}

/// X.690 11.7.5.
#[test]
fn generalized_times(rt: HostRuntime) -> Result<(), Fail> {
    let moment = DateTime::new(1992, 7, 22, 13, 21, 0, 300_000_000)?;
    let Ok(value) = Value::from_generalized_time(rt.alloc(), moment) else {
        return Err(Fail::from("no value"));
    };
    assert!(rt; has_text(&value, "19920722132100.3Z"));
    assert!(rt; value.to_generalized_time() == Some(moment));
    assert!(rt; value.to_utc_time().is_none());
    let early = DateTime::new(-1, 1, 1, 0, 0, 0, 0)?;
    assert!(rt; Value::from_generalized_time(rt.alloc(), early).is_err());
    Ok(())
}
