//! Runs of the program's work, and what is expected of them: as calls, since each exit of a test's own body costs its
//! proof.

use per_lines::run::run;
use std::alloc::{AllocError, Global};
use std::io;
use std::io::BufRead;
use std::process::Abort;

/// The words of a text.
fn words(alloc: Global, text: &str) -> Result<Vec<String>, AllocError> {
    let mut words = Vec::new(alloc);
    for word in text.split_ascii_whitespace() {
        words.push(String::from_str(alloc, word)?)?;
    }
    Ok(words)
}

/// The status of a run: in one place, since each call of a function with that many clauses costs a proof's time.
pub(crate) fn status_of<R: BufRead, W: io::Write, F: io::Write>(
    alloc: Global,
    arguments: &str,
    input: &mut R,
    output: &mut W,
    faults: &mut F,
) -> Result<u8, AllocError> {
    let arguments = words(alloc, arguments)?;
    Ok(run(alloc, arguments.as_slice(), input, output, faults))
}

/// The status of a run with these words as its arguments, and what it said.
pub(crate) fn told<R: BufRead, W: io::Write>(
    alloc: Global,
    arguments: &str,
    input: &mut R,
    output: &mut W,
) -> Result<(u8, Vec<u8>), AllocError> {
    let mut faults = Vec::new(alloc);
    let status = status_of(alloc, arguments, input, output, &mut faults)?;
    Ok((status, faults))
}

/// A status is this one.
pub(crate) fn expect_status(rt: &impl Abort, found: u8, expected: u8) {
    assert_eq!(rt; found, expected);
}

/// Octets are those of this text.
pub(crate) fn expect_text(rt: &impl Abort, found: &[u8], expected: &str) {
    assert_eq!(rt; found, expected.as_bytes());
}
