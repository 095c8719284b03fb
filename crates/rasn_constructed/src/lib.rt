//! Constructed types in one another: defaults of lists with elements and of records (X.680 25.9, 27.4), made of the
//! defaults of what is in them; types that hold themselves, or one another, which are read to the levels left; and
//! macros of their pages.
//!
//! These macros name others of `rasn_below`, which a crate that calls them names too.
#![tactic(auto)]

pub mod choices;
pub mod components;
pub mod lists;
pub mod nulls;
mod pages;
pub mod parts;
pub mod read;
pub mod records;
mod recursive_pages;
pub mod write;
