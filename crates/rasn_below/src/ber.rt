//! The contents octets of an OBJECT IDENTIFIER (X.690 8.19), and the canonical texts of a UTCTime and of a
//! GeneralizedTime (X.690 11.7, 11.8).

pub use rasn_strings::date::{Date, date_from_parts, date_to_parts};
pub use rasn_strings::generalized_time::{
    datetime_to_canonical_generalized_time_bytes, parse_canonical_generalized_time_string,
};
pub use rasn_strings::time_error::TimeError;
pub use rasn_strings::utc_time::{
    datetime_to_canonical_utc_time_bytes, parse_canonical_utc_time_string,
};
pub use rasn_types::ber::{BerError, object_identifier_as_bytes, object_identifier_from_bytes};
