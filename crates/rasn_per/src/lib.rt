//! The packed encoding rules of ASN.1 (ITU-T X.691), in both variants: values to octets and back, also within octets.
#![tactic(auto)]

pub use per_bits as bits;
pub use per_core::model;

pub mod aper;
pub mod complete;
pub mod contents;
pub mod counts;
pub mod per;
pub mod types;
pub mod uper;
