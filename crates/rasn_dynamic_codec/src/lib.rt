//! Values that are data, written and read by a table of types, over any encoder and any decoder of counted calls.
#![tactic(auto)]

mod characters;
pub mod read;
pub mod read_simple;
pub mod write;
pub mod write_simple;
