//! Lines of messages in, replies out, by a table of types: hexadecimal as people have it is shown as JSON (X.697), and
//! JSON is made canonical octets.
#![tactic(auto)]

pub mod digits;
pub mod names;
pub mod print;
pub mod program;
mod remarks;
pub mod replies;
pub mod request;
pub mod strict;
