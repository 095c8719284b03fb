//! The calls of encoders and decoders, as traits, and the components of records, as these calls write and read them.
#![tactic(auto)]

pub mod counted;
pub mod de;
pub mod decoder;
pub mod encoder;
pub mod laws;
pub mod parts;
