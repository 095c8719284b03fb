//! Worked encodings of the packed encoding rules, and worked cases of lawful schemas, as theorems.
#![tactic(auto)]

pub mod choices;
pub mod contents;
pub mod dates;
pub mod deep_defaults;
pub mod extensions;
pub mod integers;
pub mod lawful;
pub mod lists;
pub mod named_bits;
pub mod readings;
pub mod records;
pub mod refusals;
pub mod sets;
pub mod strings;
pub mod structures;
pub mod unknown_additions;
pub mod versions;
