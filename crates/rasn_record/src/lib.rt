//! Records and alternatives by the lists of their components: as cells, of which the macros of `rasn_below` make an
//! author's list.
#![tactic(auto)]

pub mod alternatives;
pub mod bounds;
pub mod by_place;
pub mod cells;
pub mod components;
pub mod few;
pub mod fields;
pub mod fours;
pub mod read;
pub mod sides;
pub mod sixteen;
pub mod write;
