//! Lines in, replies out, over any reader and writer: lines, the words of codecs, layouts of JSON, and what is said of
//! faults.
#![tactic(auto)]

pub mod codecs;
pub mod fault;
pub mod layout;
pub mod line;
pub mod output;
pub mod replies;
