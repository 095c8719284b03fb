//! ASN.1's constraints (X.680 51), the numbers that they are of, and what an error tells of the numbers that it
//! refuses. An error is in each Result of an encoder and of a decoder, which is copied from call to call: so
//! numbers of 128 bits are kept there in words of 64, and several as one struct.
#![tactic(auto)]

pub mod bounds;
pub mod constraints;
pub mod count;
pub mod integer_type;
pub mod limits;
pub mod sizes;
