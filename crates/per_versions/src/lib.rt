//! What readers of other versions answer, in the words of `encode`, `decode`, `decode_zero_padded` and
//! `decode_with_remainder`, and in both variants: 'my old reader answers exactly this'. Each law is the contract of a
//! function that does nothing; `exchange` shows them at work.
//!
//! `strict` says how a reader takes padding: the laws are of `decode` where it is false and of `decode_zero_padded`
//! where it is true (`DecodedBy`). Each of them says of both what it says of `decode`.
#![tactic(auto)]

pub mod chains;
pub mod constrained;
pub mod depth;
pub mod exchange;
pub mod faults;
pub mod messages;
pub mod named_bits;
pub mod padding;
pub mod relays;
pub mod remainders;
pub mod round_trips;
pub mod versions;
pub mod written;
