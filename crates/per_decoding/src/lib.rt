//! What a decoder of the packed encoding rules (ITU-T X.691) is made of. What is read of the types' values: numbers
//! under constraints, enumerations, identifiers, times, dates and the indexes of choices, each by what a `Reader`
//! takes off the front of the bits left. And how a decoder's scopes stand to the grammar (19): what a decoder holds,
//! what its calls read of a record with an extension marker and of its additions, which fault a refusal names, and
//! the laws that follow for what is in a scope. A decoder of any making is on them: it tells of its own
//! state what is here the state.
#![tactic(auto)]

pub mod choices;
pub mod dates;
pub mod enumerated;
pub mod identifiers;
pub mod integers;
pub mod item_counts;
pub mod items;
pub mod laws;
pub mod options;
pub mod source;
pub mod times;
