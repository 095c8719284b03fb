//! Enumerations, lists, recursive types, also as an addition, and types that hold two versions of another one, whose
//! encodings are known.
#![tactic(auto)]

pub mod added_nest;
pub mod before_nest;
pub mod byte;
pub mod choice;
pub mod choice_rows;
pub mod colors;
pub mod deep;
pub mod default_choice;
pub mod default_color;
pub mod default_elements;
pub mod default_identifier;
pub mod default_outer1;
pub mod default_outer3;
pub mod elements;
pub mod empty;
pub mod filter;
pub mod filter_rows;
pub mod group1;
pub mod group2;
pub mod grouped1;
pub mod grouped2;
pub mod inner_choice;
pub mod items;
pub mod levels;
pub mod lists;
pub mod nest;
pub mod one_color;
pub mod ping;
pub mod pong;
pub mod rows;
pub mod tree;
pub mod triple;
