//! ASN.1's character strings of known multiplier, and their alphabets; its times and their canonical texts: DATE,
//! UTCTime and GeneralizedTime, as far as the packed encoding rules call them.
#![tactic(auto)]

pub mod alphabet;
pub mod civil;
pub mod date;
pub mod fraction;
pub mod generalized_time;
pub mod intervals;
pub mod moment;
mod permitted;
pub mod strings;
pub mod time_error;
pub mod time_laws;
pub mod units;
pub mod utc_time;
