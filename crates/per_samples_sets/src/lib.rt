//! SET, SET OF, identifiers, times, dates, strings of any octets, and values whose type isn't known, with encodings
//! that are known.
#![tactic(auto)]

pub mod connect;
pub mod date_rows;
pub mod dnest;
pub mod extended_set;
pub mod holder;
pub mod key;
pub mod membership;
pub mod period;
pub mod rows;
pub mod set;
pub mod set_choice;
pub mod set_each;
mod set_each_schema;
pub mod set_optional;
pub mod set_pair;
mod set_pair_schema;
pub mod set_rows;
pub mod texts;
pub mod truth_or_none;
