//! Reads schema files, the text of types as data, into tables of types. `docs/SCHEMA-FILE.md` says what is in one.
#![tactic(auto)]

mod arrange;
pub mod error;
pub mod judge;
pub mod kinds;
pub mod lists;
pub mod load;
pub mod order;
pub mod parts;
pub mod values;
pub mod words;
