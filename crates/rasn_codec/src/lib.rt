//! The traits of values that can be encoded and decoded, and how values of the plain types and records are, and octets
//! that contain a value; and what stands for an absent component of each type (X.680 25.9, 27.4).
#![tactic(auto)]

pub mod alternatives;
pub mod boxed;
pub mod codec;
pub mod constrained;
pub mod contents;
pub mod decoder_ext;
pub mod default_bits;
pub mod default_items;
pub mod default_lists;
pub mod default_numbers;
pub mod default_octets;
pub mod default_texts;
pub mod defaults;
pub mod encoder_ext;
pub mod encoding_of;
pub mod enumerated;
pub mod integers;
pub mod kinds;
pub mod lists;
pub mod octets;
pub mod options;
pub mod plain;
pub mod record;
pub mod strings;
