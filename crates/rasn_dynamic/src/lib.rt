//! Types and values that are data: a table of types, a value by the type at a place of it.
#![tactic(auto)]

pub mod copying;
pub mod default_trees;
pub mod defaults;
mod display;
pub mod times;
pub mod types;
pub mod values;
