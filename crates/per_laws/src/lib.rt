//! The laws of schema versions, of open types, of levels and of depth, over the grammar of the packed encoding rules:
//! each is the contract of a function that does nothing. And which types are versions, and lawful, by computing
//! (`computed`).
#![tactic(auto)]

pub mod additions;
pub mod by_parts;
pub mod computed;
pub mod depth;
pub mod lawful;
pub mod levels;
pub mod messages;
pub mod named_bits;
pub mod normal_form;
pub mod open_types;
pub mod padding;
pub mod versions;
