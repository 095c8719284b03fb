//! Tests of the program over lines (`per_lines`), of what no clause says: streams that break under it, and what it
//! tells of wrong words; and of refused memory, of its types: that want of it is named so, which calls take none, which
//! octets are lent, and that a value of more levels than are read is written.
#![tactic(auto)]

#[cfg(test)]
mod each_call;
#[cfg(test)]
mod each_row;
#[cfg(test)]
mod lending;
#[cfg(test)]
mod levels;
#[cfg(test)]
mod memory;
#[cfg(test)]
mod runs;
#[cfg(test)]
mod streams;
