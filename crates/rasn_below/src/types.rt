//! The types of values (X.680 17 to 47), with their tags.

pub use rasn_codec::contents::{Contains, EncodingOf, OpenType};
pub use rasn_sets::set_of::SetOf;
pub use rasn_strings::strings::{
    BmpString, Ia5String, NumericString, PrintableString, StringError, VisibleString,
};
pub use rasn_types::big::numbers::TryFromIntegerError;
pub use rasn_types::bit_string::BitIter;
pub use rasn_types::types::{
    Any, BitString, Class, Codec, GeneralString, GraphicString, Identifier, Integer, NamedBits,
    OctetString, Tag, TeletexString, Utf8String,
};
pub use rasn_useful::date::Date;
pub use rasn_useful::generalized_time::GeneralizedTime;
pub use rasn_useful::object_identifier::ObjectIdentifier;
pub use rasn_useful::utc_time::UtcTime;
