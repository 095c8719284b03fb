//! Defaults of components: whether a value is one, and the value that it is.

ghost use Rattle.std.specs.Prelude.{◌≡◌, ℕ, [], IfOk, Some, slice_get};
ghost use Rattle.std.specs.Bool.{beq};
ghost use Rattle.std.specs.Cmp.Lexicographic.{pointwise};
ghost use Rattle.std.specs.Option.{unwrap_or};
ghost use Rattle.rasn_types.specs.Bits.{filled_up, trimmed};
ghost use Rattle.rasn_types.specs.Values.{bits, characters, nothing, octets, same, truth, whole};
ghost use Rattle.rasn_schema.specs.Forms.{named_bit_schema, size_of};
ghost use Rattle.rasn_schema.specs.Structures.{list_value};
ghost use Rattle.rasn_schema.specs.Normal.{normal, over_bits};
ghost use Rattle.rasn_traits.specs.Counted.{item_at};
ghost use Rattle.rasn_dynamic.specs.Types.{default_value, named_size, of_size, schema_at, within};
ghost use Rattle.rasn_dynamic.specs.Values.{slot_of, value_of};

use crate::types::{DefaultValue, Kind, Simple, SizeBounds, kind_at};
use crate::values::Value;
use rasn_schema::items::Place;
use rasn_strings::strings::BmpString;
use rasn_types::bit_string::BitString;
use rasn_types::types::{Any, Integer};
use std::alloc::{AllocError, Global};

impl Value {
    /// Whether its normal form by the type at a place of a table is a default (X.691 16.2, 19.5).
    pub fn is_default_at(&self, kinds: &[Kind], place: usize, otherwise: &DefaultValue) -> bool
        ensures { (n : ℕ) → result ≡
            same (normal (schema_at kinds.now place n) (value_of self.now)) (default_value otherwise.now) }
    {
        match named_size_at(kinds, place) {
            Some(size) => are_named_bits(self, least_count(&size), otherwise),
            None => self.is_default(otherwise),
        }
    }

    /// Whether it is a default, as it is.
    fn is_default(&self, otherwise: &DefaultValue) -> bool
        ensures { result ≡ same (value_of self.now) (default_value otherwise.now) }
    {
        match otherwise {
            DefaultValue::Boolean(truth) => is_truth(self, *truth),
            DefaultValue::Null => self.is_null(),
            DefaultValue::Integer(number) => is_number(self, number),
            DefaultValue::Item(place) => is_item(self, *place),
            DefaultValue::Octets(octets) => are_octets(self, octets),
            DefaultValue::Bits(bits) => are_bits(self, bits),
            DefaultValue::Characters(characters) => are_characters(self, characters),
            DefaultValue::NoElements => is_empty(self),
        }
    }
}

impl DefaultValue {
    /// The value that it is, in memory of its own.
    pub fn value(&self, alloc: Global) -> Result<Value, AllocError>
        ensures { IfOk result (λ v. slot_of v ≡ Some (default_value self.now)) }
    {
        match self {
            DefaultValue::Boolean(truth) => Ok(Value::Boolean(*truth)),
            DefaultValue::Null => Ok(Value::Null),
            DefaultValue::Integer(number) => Ok(Value::Integer(number.clone()?)),
            DefaultValue::Item(place) => Ok(Value::Item(*place)),
            DefaultValue::Octets(octets) => Ok(Value::Octets(octets.clone()?)),
            DefaultValue::Bits(bits) => Ok(Value::Bits(bits.clone()?)),
            DefaultValue::Characters(characters) => Ok(Value::Characters(characters.clone()?)),
            DefaultValue::NoElements => Ok(Value::Elements(Vec::new(alloc))),
        }
    }
}

/// Whether a value is a truth value.
fn is_truth(value: &Value, told: bool) -> bool
    ensures { result ≡ same (value_of value.now) (truth told) }
{
    match value.as_boolean() {
        Some(own) => own == told,
        None => false,
    }
}

/// Whether a value is a number.
fn is_number(value: &Value, told: &Integer) -> bool
    ensures { result ≡ same (value_of value.now) (whole told.now) }
{
    match value.as_integer() {
        Some(own) => own == told,
        None => false,
    }
}

/// Whether a value is the item at a place.
fn is_item(value: &Value, told: Place) -> bool
    ensures { result ≡ same (value_of value.now) (item_at told) }
{
    match value.as_item() {
        Some(own) => are_same_place(own, told),
        None => false,
    }
}

/// Whether two places are one.
pub fn are_same_place(own: Place, told: Place) -> bool
    ensures { result ≡ same (item_at own) (item_at told) }
{
    match own {
        Place::Root(index) => match told {
            Place::Root(other) => index == other,
            Place::Added(_) => false,
        },
        Place::Added(index) => match told {
            Place::Root(_) => false,
            Place::Added(other) => index == other,
        },
    }
}

/// Whether a value is these octets.
fn are_octets(value: &Value, told: &Any) -> bool
    ensures { result ≡ same (value_of value.now) (octets told.now) }
{
    match value.as_open() {
        Some(own) => own == told,
        None => false,
    }
}

/// Whether a value is these bits.
fn are_bits(value: &Value, told: &BitString) -> bool
    ensures { result ≡ same (value_of value.now) (bits told.now) }
{
    match value.as_bits() {
        Some(own) => own == told,
        None => false,
    }
}

/// Whether named bits are in normal form by their size: without zero bits at their end but those that it asks for
/// (X.680 22.7, X.691 16.2).
pub fn are_normal(own: &BitString, size: &SizeBounds) -> bool
    ensures { result ≡ same (normal (named_bit_schema (of_size size.now)) (bits own.now)) (bits own.now) }
{
    are_filled_up(own, least_count(size), own)
}

/// Whether a value, without the zero bits at the end of its bits, and then with zero bits up to `least` bits, is a
/// default.
fn are_named_bits(value: &Value, least: usize, otherwise: &DefaultValue) -> bool
    ensures { result ≡ same (over_bits (λ bs. filled_up least (trimmed bs)) (value_of value.now))
        (default_value otherwise.now) }
{
    match value.as_bits() {
        Some(own) => are_told(own, least, otherwise),
        None => value.is_default(otherwise),
    }
}

/// Whether bits, without the zero bits at their end, and then with zero bits up to `least` bits, are a default.
fn are_told(own: &BitString, least: usize, otherwise: &DefaultValue) -> bool
    ensures { result ≡ same (bits (filled_up least (trimmed own.now))) (default_value otherwise.now) }
{
    match otherwise {
        DefaultValue::Bits(told) => are_filled_up(own, least, told),
        _ => false,
    }
}

/// Whether bits, without the zero bits at their end, and then with zero bits up to `least` bits, are others.
fn are_filled_up(own: &BitString, least: usize, told: &BitString) -> bool
    ensures { result ≡ pointwise beq (filled_up least (trimmed own.now)) told.now }
{
    let count = told.len();
    if own.trimmed_len().max(least) != count {
        return false;
    }
    for index in 0..count {
        if own.is_set(index) != told.is_set(index) {
            return false;
        }
    }
    true
}

/// The lower bound of a size, 0 where there is none.
fn least_count(size: &SizeBounds) -> usize
    ensures { result ≡ unwrap_or (size_of (of_size size.now)).least 0 }
{
    size.constraint.start_and_end().0.unwrap_or(0)
}

/// The size of the named bits at a place of a table, or within the octets there that contain them; none where no named
/// bits are.
fn named_size_at(kinds: &[Kind], place: usize) -> Option<SizeBounds>
    ensures { result ≡ named_size (within kinds.now (slice_get kinds.now place)) }
{
    match kind_at(kinds, place)? {
        Kind::Containing(of) => named_size(kind_at(kinds, *of)?),
        kind => named_size(kind),
    }
}

/// The size of the named bits that the values of a type are, where they are such.
fn named_size(kind: &Kind) -> Option<SizeBounds>
    ensures { result ≡ named_size (Some kind.now) }
{
    match kind {
        Kind::Simple(simple) => match simple {
            Simple::NamedBits(size) => Some(*size),
            _ => None,
        },
        _ => None,
    }
}

/// Whether a value is these characters.
fn are_characters(value: &Value, told: &BmpString) -> bool
    ensures { result ≡ same (value_of value.now) (characters told.now) }
{
    match value.as_characters() {
        Some(own) => own == told,
        None => false,
    }
}

/// Whether a value is a list without elements.
fn is_empty(value: &Value) -> bool
    ensures { result ≡ same (value_of value.now) (list_value []) }
{
    match value.as_elements() {
        Some(elements) => elements.is_empty(),
        None => false,
    }
}
