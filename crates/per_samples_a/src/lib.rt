//! Numbers, strings, records and choices whose encodings are known.
#![tactic(auto)]

pub mod absent;
pub mod alternative;
pub mod both;
pub mod bounded;
pub mod brackets;
pub mod carrier;
pub mod default_bits;
pub mod default_list;
pub mod default_named_bits;
pub mod defaults;
pub mod eight;
pub mod eighteen;
pub mod four;
pub mod half_bounded;
pub mod nested;
pub mod nested_rows;
pub mod pair;
mod pair_schema;
pub mod seven;
pub mod signals;
pub mod six;
pub mod some_absent;
pub mod strings;
pub mod twelve;
