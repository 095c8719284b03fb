//! The header of an intelligent transport message.
#![tactic(auto)]

pub mod area;
pub mod direction;
pub mod header;
pub mod message;
pub mod position;
pub mod speed;
pub mod spot;
pub mod vehicle;
pub mod warning;
