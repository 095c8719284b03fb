//! The codec for callers in C: `include/per.h` tells each call.
#![tactic(auto)]

pub mod answer;
pub mod calls;
pub mod handle;
pub mod json;
pub mod loose;
pub mod name;
pub mod refusal;
pub mod request;
pub mod table_calls;
pub mod tables;
