//! Messages in and out by a table of types: octets as their canonical ones or as JSON, and JSON as octets, with the
//! values of open types where object sets tell them, and where messages depart from these sets.
#![tactic(auto)]

pub mod apart;
pub mod calls;
mod departures;
pub mod error;
pub mod laws;
pub mod located;
pub mod remarks;
