//! Which types of worked encodings are newer versions of which, that each is lawful, and what readers of another
//! version answer to them: the words of `per_laws` and of `per_versions`, as a user of the library calls them.
#![tactic(auto)]

pub mod additions;
pub mod alternatives;
pub mod chains;
pub mod choices;
pub mod forbidden;
pub mod plain;
pub mod records;
pub mod recursive;
pub mod relays;
pub mod to_newer;
pub mod to_older;
pub mod within;
