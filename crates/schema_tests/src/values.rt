//! The texts of values.

use jiff::civil::date;
use rasn_dynamic::values::Value;
use rasn_schema::items::Place;
use rasn_strings::strings::BmpString;
use rasn_types::bit_string::BitString;
use rasn_types::types::{Any, Integer};
use std::alloc::{AllocError, Global};
use std::test::Fail;

/// A list of two elements.
fn elements(alloc: Global) -> Result<Value, AllocError> {
    let mut values = Vec::new(alloc);
    values.push(Value::Integer(Integer::from(-5_i128)))?;
    values.push(Value::Boolean(true))?;
    Ok(Value::Elements(values))
}

/// A record of a component that is absent and one that is there, and of an addition.
fn fields(alloc: Global) -> Result<Value, AllocError> {
    let mut root = Vec::new(alloc);
    root.push(Value::Absent)?;
    root.push(Value::Item(Place::Root(2)))?;
    let mut additions = Vec::new(alloc);
    let chosen = Box::new(alloc, Value::Null)?;
    additions.push(Value::Alternative(Place::Added(1), chosen))?;
    Ok(Value::Fields(root, additions))
}

/// Octets, and a string of bits.
fn strings(alloc: Global) -> Result<Value, AllocError> {
    let mut octets = Vec::new(alloc);
    octets.extend_from_slice(&[0x0a, 0xff])?;
    let mut values = Vec::new(alloc);
    values.push(Value::Octets(Any::new(octets)))?;
    let mut bits = BitString::new(alloc);
    bits.push(true)?;
    bits.push(false)?;
    values.push(Value::Bits(bits))?;
    Ok(Value::Bag(values))
}

/// A quotation mark between two letters, and half of a surrogate pair.
fn characters(alloc: Global) -> Result<Value, AllocError> {
    let mut units = Vec::new(alloc);
    units.extend_from_slice(&[0x61, 0x22, 0xe9, 0xd800])?;
    Ok(Value::Characters(BmpString::from_units(units)))
}

#[test]
fn prints_values(rt: HostRuntime) -> Result<(), Fail> {
    let alloc = rt.alloc();
    let day = date(2026, 2, 28);
    for (value, text) in [
        (elements(alloc)?, "{-5, TRUE}"),
        (fields(alloc)?, "{absent, 2} + {+1: NULL}"),
        (strings(alloc)?, "{'0AFF'H, '10'B}"),
        (Value::Fields(Vec::new(alloc), Vec::new(alloc)), "{} + {}"),
        (Value::Date(day), "\"2026-02-28\""),
        (characters(alloc)?, "\"a\"\"\u{e9}\u{fffd}\""),
    ] {
        let printed = format!(in alloc; "{value}")?;
        assert_eq!(rt; printed.as_str(), text);
    }
    Ok(())
}
