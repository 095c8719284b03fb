//! The grammar of the packed encoding rules of ITU-T X.691 (02/2021), and its laws.
//!
//! The definitions are in `specs/`: `Canon` says what is written, `Basic` what may be read, and `Versions` what one
//! version of a schema means to another; `ReadingFaults` and `WritingFaults` say where the fault stands that a refusal
//! names. What runs says what is counted (`items`), which counts are constrained whole numbers (`lengths`), in which
//! form these are (`number_forms`), and why a call refuses (`decode_error`, `encode_error`, `ends`). The laws are
//! contracts of functions that do nothing: those of the grammar (`model`), that a SET is the SEQUENCE of its components
//! in order (`sets`), and how many items the bits of an encoding may stand for (`few`).
#![tactic(auto)]

pub mod decode_error;
pub mod encode_error;
pub mod ends;
pub mod few;
pub mod items;
pub mod lengths;
pub mod model;
pub mod number_forms;
pub mod sets;
