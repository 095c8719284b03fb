//! Values whose type isn't told by Rust.

ghost use Rattle.std.specs.Prelude.{◌≡◌, map, option_map};
ghost use Rattle.rasn_dynamic.specs.Names.{slot_named};
ghost use Rattle.rasn_dynamic.specs.Values.{slot_of};

use crate::times::{generalized_characters, generalized_moment, utc_characters, utc_moment};
use crate::types::{Component, Record};
use jiff::civil::{Date, DateTime};
use rasn_schema::items::Place;
use rasn_strings::strings::BmpString;
use rasn_strings::time_error::TimeError;
use rasn_types::ber::{BerError, object_identifier_as_bytes, object_identifier_from_bytes};
use rasn_types::bit_string::BitString;
use rasn_types::types::{Any, Integer};
use std::alloc::Global;

/// A value of any type, or none. Two values are equal where their parts are, in their order: two of a SET OF may be
/// equal bags and aren't equal here.
#[derive(PartialEq, Eq, Drop)]
pub enum Value {
    /// No value: a component that is absent.
    Absent,
    /// Of BOOLEAN.
    Boolean(bool),
    /// Of NULL.
    Null,
    /// Of INTEGER.
    Integer(Integer),
    /// Of ENUMERATED: where its item stands.
    Item(Place),
    /// Of each type whose values are octets: OCTET STRING, an open type, UTF8String, the texts of any octets, and
    /// OBJECT IDENTIFIER by its contents octets (X.690 8.19).
    Octets(Any),
    /// Of BIT STRING.
    Bits(BitString),
    /// Of a character string, whichever its type, and of UTCTime and GeneralizedTime: their canonical text (X.690 11.7
    /// and 11.8).
    Characters(BmpString),
    /// Of DATE.
    Date(Date),
    /// Of SEQUENCE OF.
    Elements(Vec<Value>),
    /// Of SET OF.
    Bag(Vec<Value>),
    /// Of SEQUENCE and SET: its root components, and its additions.
    Fields(Vec<Value>, Vec<Value>),
    /// Of CHOICE: where its alternative stands, and the value of this. Of an open type that its octets were read from:
    /// which row of the object set it is, as a root alternative, and the value.
    Alternative(Place, Box<Value>),
}

impl Value {
    ghost use Rattle.std.specs.Prelude.{◌≡◌, ◌↔◌, true, false, is_some, map, slice_get, IfSome, MatchOption};
    ghost use Rattle.std.specs.Prelude.{Err, List, Option, Some, IfOk};
    ghost use Rattle.rasn_types.specs.Contents.{generalized, utc};
    ghost use Rattle.rasn_types.specs.Values;
    ghost use Rattle.rasn_types.specs.Values.{alternative, bits, characters, nothing, octets, truth, whole};
    ghost use Rattle.rasn_schema.specs.Structures.{list_value, record_value, is_of_kind};
    ghost use Rattle.rasn_schema.specs.Schemas.{Schema};
    ghost use Rattle.rasn_traits.specs.Counted.{index_in, item_at, side_of};
    ghost use Rattle.rasn_traits.specs.Moments.{identifier_value};
    ghost use Rattle.rasn_strings.specs.Moments.{is_generalized_moment, is_utc_moment};
    ghost use Rattle.rasn_strings.specs.Values.{date_value, generalized_value, utc_value};
    ghost use Rattle.rasn_strings.specs.declared.time_error.TimeError.TheVariants.{Unrepresentable};
    ghost use Rattle.rasn_dynamic.specs.Names.{part_named};
    ghost use Rattle.rasn_dynamic.specs.Values.{NotAlternative, NotBits, NotCharacters, NotDate, NotElements};
    ghost use Rattle.rasn_dynamic.specs.Values.{NotFields, NotItem, NotNull, NotOctets, NotTruth, NotWhole};
    ghost use Rattle.rasn_dynamic.specs.Values.{slot_of, value_of};

    /// Whether there is a value.
    pub fn is_there(&self) -> bool
        ensures { result ≡ is_some (slot_of self.now) }
    {
        !matches!(self, Value::Absent)
    }

    /// The value of a BOOLEAN.
    pub fn as_boolean(&self) -> Option<bool>
        ensures { MatchOption result (NotTruth (value_of self.now)) (λ b. value_of self.now ≡ truth b) }
    {
        match self {
            Value::Boolean(truth) => Some(*truth),
            _ => None,
        }
    }

    /// Whether it is that of NULL.
    pub fn is_null(&self) -> bool
        ensures no { result ≡ false → NotNull (value_of self.now) }
        ensures yes { result ≡ true → value_of self.now ≡ nothing }
    {
        matches!(self, Value::Null)
    }

    /// The value of an INTEGER.
    pub fn as_integer(&self) -> Option<&Integer>
        ensures { MatchOption result (NotWhole (value_of self.now)) (λ z. value_of self.now ≡ whole z.now) }
    {
        match self {
            Value::Integer(number) => Some(number),
            _ => None,
        }
    }

    /// The place of an item of an ENUMERATED.
    pub fn as_item(&self) -> Option<Place>
        ensures { MatchOption result (NotItem (value_of self.now)) (λ p. value_of self.now ≡ item_at p) }
    {
        match self {
            Value::Item(place) => Some(*place),
            _ => None,
        }
    }

    /// The octets of a value that is octets.
    pub fn as_octets(&self) -> Option<&[u8]>
        ensures { MatchOption result (NotOctets (value_of self.now)) (λ os. value_of self.now ≡ octets os.now) }
    {
        match self {
            Value::Octets(octets) => Some(octets.as_bytes()),
            _ => None,
        }
    }

    /// The octets of a value that is octets, as those of an open type.
    pub fn as_open(&self) -> Option<&Any>
        ensures { MatchOption result (NotOctets (value_of self.now)) (λ os. value_of self.now ≡ octets os.now) }
    {
        match self {
            Value::Octets(octets) => Some(octets),
            _ => None,
        }
    }

    /// The value of an OBJECT IDENTIFIER by its arcs. Arcs of no object are refused.
    pub fn from_arcs(alloc: Global, arcs: &[u32]) -> Result<Value, BerError>
        ensures { IfOk result (λ v. value_of v ≡ identifier_value arcs.now) }
    {
        let mut contents = Vec::new(alloc);
        object_identifier_as_bytes(arcs, &mut contents)?;
        Ok(Value::Octets(Any::new(contents)))
    }

    /// The arcs of an OBJECT IDENTIFIER, of which there are none where the value isn't one.
    pub fn to_arcs(&self, alloc: Global) -> Result<Vec<u32>, BerError>
        ensures { IfOk result (λ arcs. value_of self.now ≡ identifier_value arcs.items) }
    {
        match self {
            Value::Octets(octets) => object_identifier_from_bytes(alloc, octets.as_bytes()),
            _ => Err(BerError::InvalidObjectIdentifier),
        }
    }

    /// The value of a UTCTime by its moment in UTC (X.690 11.8). Refused is a moment that it can't hold: of another
    /// year than 1950 to 2049, or not of a whole second.
    pub fn from_utc_time(alloc: Global, moment: DateTime) -> Result<Value, TimeError>
        ensures written { IfOk result (λ v. slot_of v ≡ Some (utc_value moment)) }
        ensures refused { (result ≡ Err Unrepresentable) ↔ (is_utc_moment moment ≡ false) }
    {
        Ok(Value::Characters(utc_characters(alloc, moment)?))
    }

    /// The moment of a UTCTime in UTC; none where the value isn't its canonical text (X.690 11.8).
    pub fn to_utc_time(&self) -> Option<DateTime>
        ensures read { IfSome result (λ moment. value_of self.now ≡ utc_value moment) }
        ensures accepted { is_some result ≡ is_of_kind (Schema.time utc) (value_of self.now) }
    {
        utc_moment(self.as_characters()?)
    }

    /// The value of a GeneralizedTime by its moment in UTC (X.690 11.7). Refused is a moment of a year before 0.
    pub fn from_generalized_time(alloc: Global, moment: DateTime) -> Result<Value, TimeError>
        ensures written { IfOk result (λ v. slot_of v ≡ Some (generalized_value moment)) }
        ensures refused { (result ≡ Err Unrepresentable) ↔ (is_generalized_moment moment ≡ false) }
    {
        Ok(Value::Characters(generalized_characters(alloc, moment)?))
    }

    /// The moment of a GeneralizedTime in UTC; none where the value isn't its canonical text (X.690 11.7).
    pub fn to_generalized_time(&self) -> Option<DateTime>
        ensures read { IfSome result (λ moment. value_of self.now ≡ generalized_value moment) }
        ensures accepted { is_some result ≡ is_of_kind (Schema.time generalized) (value_of self.now) }
    {
        generalized_moment(self.as_characters()?)
    }

    /// The value of a BIT STRING.
    pub fn as_bits(&self) -> Option<&BitString>
        ensures { MatchOption result (NotBits (value_of self.now)) (λ bs. value_of self.now ≡ bits bs.now) }
    {
        match self {
            Value::Bits(bits) => Some(bits),
            _ => None,
        }
    }

    /// The characters of a character string, or of the text of a time.
    pub fn as_characters(&self) -> Option<&BmpString>
        ensures { MatchOption result (NotCharacters (value_of self.now)) (λ cs. value_of self.now ≡ characters cs.now) }
    {
        match self {
            Value::Characters(characters) => Some(characters),
            _ => None,
        }
    }

    /// The day of a DATE.
    pub fn as_date(&self) -> Option<Date>
        ensures { MatchOption result (NotDate (value_of self.now)) (λ day. value_of self.now ≡ date_value day) }
    {
        match self {
            Value::Date(day) => Some(*day),
            _ => None,
        }
    }

    /// The elements of a SEQUENCE OF.
    pub fn as_elements(&self) -> Option<&[Value]>
        ensures { MatchOption result (NotElements (value_of self.now))
            (λ vs. value_of self.now ≡ list_value (map value_of vs.now)) }
    {
        match self {
            Value::Elements(values) => {
                let elements: &[Value] = values;
                Some(elements)
            }
            _ => None,
        }
    }

    /// The root components of a SEQUENCE and its additions, each absent or there.
    pub fn as_fields(&self) -> Option<(&[Value], &[Value])>
        ensures { MatchOption result (NotFields (value_of self.now))
            (λ r. value_of self.now ≡ record_value (map slot_of r.0.now) (map slot_of r.1.now)) }
    {
        match self {
            Value::Fields(root, additions) => {
                let fields: &[Value] = root;
                let added: &[Value] = additions;
                Some((fields, added))
            }
            _ => None,
        }
    }

    /// The place of the alternative of a CHOICE, and its value.
    pub fn as_alternative(&self) -> Option<(Place, &Value)>
        ensures { MatchOption result (NotAlternative (value_of self.now))
            (λ r. value_of self.now ≡ alternative (side_of r.0) (index_in r.0) (value_of r.1.now)) }
    {
        match self {
            Value::Alternative(place, chosen) => {
                let value: &Value = chosen;
                Some((*place, value))
            }
            _ => None,
        }
    }

    /// The element of a SEQUENCE OF at an index.
    pub fn element(&self, index: usize) -> Option<&Value>
        ensures { IfSome result (λ v. (vs : List Values.Value) × (value_of self.now ≡ list_value vs)
            × (slice_get vs index ≡ Some (value_of v.now))) }
    {
        self.as_elements()?.get(index)
    }

    /// The root component of a SEQUENCE at an index, absent or there.
    pub fn field(&self, index: usize) -> Option<&Value>
        ensures { IfSome result (λ v. (vs ws : List (Option Values.Value)) × (value_of self.now ≡ record_value vs ws)
            × (slice_get vs index ≡ Some (slot_of v.now))) }
    {
        self.as_fields()?.0.get(index)
    }

    /// The first component of a SEQUENCE or SET with a name, or else the first addition with it, absent or there. The
    /// type of the value is such a record.
    pub fn get(&self, record: &Record, name: &str) -> Option<&Value>
        ensures { IfSome result (λ v. (vs ws : List (Option Values.Value)) × (value_of self.now ≡ record_value vs ws)
            × (part_named record.now vs ws name.now ≡ Some (slot_of v.now))) }
    {
        let (root, additions) = self.as_fields()?;
        match value_named(record.root(), root, name) {
            Some(value) => Some(value),
            None => value_named(record.behind(), additions, name),
        }
    }

    /// The addition of a SEQUENCE at an index, absent or there.
    pub fn addition(&self, index: usize) -> Option<&Value>
        ensures { IfSome result (λ v. (vs ws : List (Option Values.Value)) × (value_of self.now ≡ record_value vs ws)
            × (slice_get ws index ≡ Some (slot_of v.now))) }
    {
        self.as_fields()?.1.get(index)
    }
}

/// Of values that stand for components, in their order, the one for the first component with a name.
pub fn value_named<'values>(
    components: &[Component],
    values: &'values [Value],
    name: &str,
) -> Option<&'values Value>
    ensures { option_map (λ v. slot_of v.now) result ≡ slot_named components.now (map slot_of values.now) name.now }
{
    match components {
        [] => None,
        [component, others @ ..] => match values {
            [] => None,
            [value, behind @ ..] => {
                if component.name.as_str() == name {
                    return Some(value);
                }
                value_named(others, behind, name)
            }
        },
    }
}
