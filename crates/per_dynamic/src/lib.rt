//! The packed encoding rules of ASN.1 (ITU-T X.691) over types that are data, in both variants: values of the types of
//! a table to octets and back. What `rasn_per` promises of a type of Rust, these calls promise of each type of a table.
#![tactic(auto)]

pub mod alike;
pub mod aper;
pub mod codecs;
pub mod located;
pub mod open_types;
pub mod rows;
pub mod table;
pub mod uper;
pub mod versions;
