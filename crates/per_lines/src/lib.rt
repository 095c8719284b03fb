//! Lines in, answers out: a value of a type is read in hexadecimal, and its canonical encoding (X.691) is printed, or
//! its JSON (X.697). Types go by names: those of the samples, and a message of a protocol.
#![tactic(auto)]

pub mod answer;
pub mod arguments;
pub mod named;
pub mod recode;
pub mod run;
mod show;
pub mod show_arguments;
pub mod show_fault;
mod show_names;
pub mod show_run;
pub mod type_names;
pub mod types;
