//! Where a message was refused: the component at which its reader or writer stood, and the bit of what was read.
//!
//! `uper` and `aper` have an `encode` and a `decode` that answer as those of `rasn_per` do. A refusal holds the path of
//! identifiers and numbers from the whole message to the component (X.680 15); that of octets also says how many bits
//! are in front of what was refused.
//!
//! A message is read or written again where it was refused, by a decoder or an encoder that keeps a path beside it
//! (`Located`): so one that isn't refused costs what it costs `rasn_per`.
//!
//! **Proved**: what the calls answer, and the kind of a refusal, as for `rasn_per`; a decoder or an encoder behind
//! `Located` answers each call of the trait by the clauses that it meets alone. How the way moves with each of its
//! functions, and that the path has its steps, `per_ways` proves. **Only tested**: that `Located` calls the right ones,
//! so that path and bit are those of the refusal.
#![tactic(auto)]

pub mod aper;
pub mod decoder;
pub mod encoder;
mod input;
pub mod refusal;
mod tracing;
pub mod uper;

pub use crate::refusal::{EncodeRefusal, Refusal};
pub use per_ways::{Path, Step};
