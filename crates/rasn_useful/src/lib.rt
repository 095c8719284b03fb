//! OBJECT IDENTIFIER, DATE, UTCTime and GeneralizedTime, as types that are written and read.
#![tactic(auto)]

pub mod date;
pub mod defaults;
pub mod generalized_time;
mod moment;
pub mod object_identifier;
pub mod utc_time;
