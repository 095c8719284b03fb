//! Tests of what no clause says of values (`rasn_types`, `rasn_strings`, `rasn_constraints`), of bits
//! (`per_bits`), of the calls (`rasn_per`, `per_versions`, `per_located`, `rasn_jer`) and of pages, and
//! no row of `rows/` or `vectors/` has: outside vectors, printed text, that calls succeed, what `uper` says of what it
//! refuses, and where octets are refused.
#![tactic(auto)]

#[cfg(test)]
mod bit_strings;
#[cfg(test)]
mod bits;
#[cfg(test)]
mod calls;
#[cfg(test)]
mod copies;
#[cfg(test)]
mod expected;
#[cfg(test)]
mod identifiers;
#[cfg(test)]
mod located;
#[cfg(test)]
mod numbers;
#[cfg(test)]
mod octets;
#[cfg(test)]
mod pages;
#[cfg(test)]
mod strings;
#[cfg(test)]
mod tags;
#[cfg(test)]
mod texts;
#[cfg(test)]
mod times;
