//! How types state their schemas.
#![tactic(auto)]

pub mod alternatives;
pub mod boxed;
pub mod choices;
pub mod components;
pub mod constrained;
pub mod de;
pub mod enumerated;
pub mod fields;
pub mod integers;
pub mod items;
pub mod kinds;
pub mod lists;
pub mod octets;
pub mod options;
pub mod plain;
pub mod schema;
pub mod strings;
mod trees;

pub use rasn_constraints::{constraints, limits};
pub use rasn_types::types;
