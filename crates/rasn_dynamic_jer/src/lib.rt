//! Values that are data to JSON and back (ITU-T X.697), by a table of types, which has the names.
#![tactic(auto)]

mod dates;
pub mod error;
pub mod from_json_error;
mod identifiers;
pub mod json_parts;
mod leaves;
pub mod names;
pub mod read;
mod read_simple;
pub mod table;
pub mod write;
