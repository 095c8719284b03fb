//! What is judged of tables of types at run time: whether what X.680 asks of each type holds, and whether a type of one
//! table is a newer version of a type of another (X.680 52).
#![tactic(auto)]

mod components;
pub mod default_trees;
pub mod defaults;
pub mod fault;
mod identifiers;
pub mod judge;
mod kinds;
pub mod newer;
pub mod not_newer;
mod pairs;
pub mod places;
mod rules;
mod same_defaults;
mod simple;
mod tags;
