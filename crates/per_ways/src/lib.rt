//! The way from a message to a value that is read or written: which steps lead to it (X.680 15), and where the bits end
//! that are left to be read.
//!
//! A `Trail` keeps the way while calls go on: what is around the value, a record, a list, a choice, an open type. It
//! knows no codec: who reads or writes tells it what begins and ends.
//!
//! **Proved**: how each function moves the way, by the definitions of `specs/Ways.antt`; and that a path has the steps
//! of the way that it is made of.
#![tactic(auto)]

mod calls;
pub mod extents;
pub mod path;
pub mod trail;
pub mod turns;

pub use crate::path::{Path, Step};
