//! SET and SET OF (X.680 27, 28; X.691 21, 22): the type of bags, SETs by one list of their components, and the call of
//! every decoder that reads a SET by a function for each component.
#![tactic(auto)]

pub mod codec;
pub mod components;
mod items;
pub mod laws;
pub mod ordered;
pub mod record;
pub mod set_decoder;
pub mod set_of;
mod steps;

pub use components::{SetComponents, SetKind};
pub use record::SetRecord;
