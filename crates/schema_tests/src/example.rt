//! A schema file.

use std::alloc::{AllocError, Global};

/// The schema file that docs/SCHEMA-FILE.md shows.
pub const EXAMPLE: &str = "per_schema 1 1 6 2
module Example -
sequence 3 1 id c0 r 1 note c1 o 2 more c2 d 3 list 0 [[ c3 4
integer 0 65535 -
ia5_string 1 20 ... -
sequence_of 0 0 - -
sequence 1 - kind c0 r 5
enumerated 2 0 call answer
root Example Message 0
root Example Messages 3
";

/// A record with defaults that hold values: a list, a SET, a SEQUENCE with additions, and an alternative with a list.
pub const HOLDERS: &str = "per_schema 1 1 7 1
module Example -
sequence 4 - a c0 d 1 list 2 int 1 int 2 b c1 d 2 record 2 int 5 true c c2 d 3 record 3 true absent int 7 \
d c3 d 6 chosen added 0 list 1 int 0
sequence_of 4 0 - -
set 2 - m c9 r 4 n c8 r 5
sequence 1 2 p c0 r 5 q c1 o 4 r c2 o 4
integer 0 7 -
boolean
choice 1 1 x c0 4 y c1 1
root Example Message 0
";

/// The example with another text in place of a line, whose number is from 1.
pub fn with_line(alloc: Global, number: usize, text: &str) -> Result<String, AllocError> {
    let mut changed = String::new(alloc);
    for (index, line) in EXAMPLE.lines().enumerate() {
        changed.push_str(if index.checked_add(1) == Some(number) {
            text
        } else {
            line
        })?;
        changed.push('\n')?;
    }
    Ok(changed)
}
