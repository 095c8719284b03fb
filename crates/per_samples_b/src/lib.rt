//! SEQUENCEs and CHOICEs with an extension marker, in versions, whose encodings are known.
#![tactic(auto)]

pub mod added_default;
pub mod additions;
pub mod alt;
pub mod alt1;
pub mod alt2;
pub mod alternative_rows;
pub mod beside;
pub mod classed;
pub mod flagged;
pub mod grouped;
pub mod inner;
pub mod many;
pub mod many_extended;
pub mod many_rows;
pub mod none_needed;
pub mod one_needed;
pub mod outer1;
pub mod outer2;
pub mod outer3;
pub mod pick;
pub mod picked;
pub mod possible;
pub mod rows;
pub mod several;
pub mod spare;
pub mod two_alternatives;
