//! Tests of what no clause of `schema_file` says: what its tables hold, and what it refuses.
#![tactic(auto)]

#[cfg(test)]
mod example;
#[cfg(test)]
mod refusals;
#[cfg(test)]
mod tables;
#[cfg(test)]
mod times;
#[cfg(test)]
mod values;
#[cfg(test)]
mod versions;
