//! Copies of values.

ghost use Rattle.std.specs.Prelude.{◌≡◌, map, IfOk};
ghost use Rattle.rasn_dynamic.specs.Values.{slot_of};

use crate::values::Value;
use std::alloc::{AllocError, Global};

/// The same value in memory of its own.
#[cycle(copying)]
pub fn copy_of(value: &Value, alloc: Global) -> Result<Value, AllocError>
    ensures { IfOk result (λ copy. slot_of copy ≡ slot_of value.now) }
{
    match value {
        Value::Absent => Ok(Value::Absent),
        Value::Boolean(truth) => Ok(Value::Boolean(*truth)),
        Value::Null => Ok(Value::Null),
        Value::Integer(number) => Ok(Value::Integer(number.clone()?)),
        Value::Item(place) => Ok(Value::Item(*place)),
        Value::Octets(octets) => Ok(Value::Octets(octets.clone()?)),
        Value::Bits(bits) => Ok(Value::Bits(bits.clone()?)),
        Value::Characters(characters) => Ok(Value::Characters(characters.clone()?)),
        Value::Date(day) => Ok(Value::Date(*day)),
        Value::Elements(values) => Ok(Value::Elements(copies_of(values, alloc)?)),
        Value::Bag(values) => Ok(Value::Bag(copies_of(values, alloc)?)),
        Value::Fields(root, additions) => {
            let root = copies_of(root, alloc)?;
            let additions = copies_of(additions, alloc)?;
            Ok(Value::Fields(root, additions))
        }
        Value::Alternative(place, chosen) => {
            let copy = copy_of(chosen, alloc)?;
            Ok(Value::Alternative(*place, Box::new(alloc, copy)?))
        }
    }
}

/// The same values in memory of their own.
#[cycle(copying)]
fn copies_of(values: &[Value], alloc: Global) -> Result<Vec<Value>, AllocError>
    ensures { IfOk result (λ copies. map slot_of copies.items ≡ map slot_of values.now) }
{
    let mut copies = Vec::new(alloc);
    for value in values {
        let copy = copy_of(value, alloc)?;
        copies.push(copy)?;
    }
    Ok(copies)
}
