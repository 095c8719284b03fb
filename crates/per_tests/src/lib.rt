//! Tests of what no clause of the writer and the reader says (`per_write` and `per_enc`, `per_read` and `per_de`) and
//! no other test shows: calls that no type of the project makes, that they succeed where there is memory, what is
//! padded before a component, which of two faults is named, that a codec refuses again once it has failed, and the
//! texts of errors.
#![tactic(auto)]

#[cfg(test)]
mod absences;
#[cfg(test)]
mod additions;
#[cfg(test)]
mod allocators;
#[cfg(test)]
mod alternatives;
#[cfg(test)]
mod calls;
#[cfg(test)]
mod decode_errors;
#[cfg(test)]
mod encode_errors;
#[cfg(test)]
mod expected;
#[cfg(test)]
mod failures;
#[cfg(test)]
mod options;
#[cfg(test)]
mod pieces;
#[cfg(test)]
mod records;
#[cfg(test)]
mod refusals;
#[cfg(test)]
mod sets;
#[cfg(test)]
mod turns;
#[cfg(test)]
mod values;
