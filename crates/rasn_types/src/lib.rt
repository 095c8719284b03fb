//! ASN.1's basic types, as far as the packed encoding rules call them, and the contents octets of an OBJECT IDENTIFIER
//! (X.690 8.19).
#![tactic(auto)]

pub mod ber;
pub mod big;
pub mod bit_string;
pub mod integer;
pub mod laws;
pub mod named_bits;
pub mod octet_strings;
pub mod types;
pub mod width;
