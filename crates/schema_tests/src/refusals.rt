//! What is no schema file.

use crate::example::{EXAMPLE, with_line};
use schema_file::load::load;
use std::test::Fail;

/// Texts, and why they are refused.
const TEXTS: [(&[u8], &str); 6] = [
    (b"", "line 1: this is no schema file of version 1"),
    (
        b"per_schema 2 0 0 0\n",
        "line 1: this is no schema file of version 1",
    ),
    (
        b"per_schema 1 0 0 0",
        "line 1: other lines follow than are told",
    ),
    (
        b"per_schema 1 0 1 0\n\n\n",
        "line 1: other lines follow than are told",
    ),
    (
        b"per_schema 1 0 18446744073709551616 0\n",
        "line 1: a number is too large",
    ),
    (
        b"per_schema 1 1 0 0\nmodule A \xff\n",
        "line 2: this is no UTF-8",
    ),
];

/// Numbers of lines of the example, what is there in their place, and what is said.
const LINES: [(usize, &str, &str); 48] = [
    (
        1,
        "per_schema 1 1 7 2",
        "line 1: other lines follow than are told",
    ),
    (1, "per_schema 1 01 6 2", "line 1: a word is no number"),
    (
        1,
        "per_schema 1 1 6 2 0",
        "line 1: there is a word too many",
    ),
    (2, "modules Example -", "line 2: a word has no place here"),
    (2, "module 3 -", "line 2: a word is no name"),
    (2, "module Example", "line 2: a word lacks"),
    (4, "", "line 4: a word lacks"),
    (4, "integer 7 3 -", "line 4: a bound is above the other"),
    (4, "integer 0 65535", "line 4: a word lacks"),
    (4, "integer 0  65535 -", "line 4: a word lacks"),
    (4, "integer 00 65535 -", "line 4: a word is no number"),
    (4, "integer -0 65535 -", "line 4: a word is no number"),
    (4, "integer +0 65535 -", "line 4: a word is no number"),
    (4, "integer 0 65535 1", "line 4: a word has no place here"),
    (
        4,
        "integer 0 170141183460469231731687303715884105728 -",
        "line 4: a number is too large",
    ),
    (4, "real", "line 4: there is no such type"),
    (4, "universal_string 0 - - -", "line 4: this isn't data yet"),
    (
        5,
        "ia5_string 1 20 ... 2 65 70 71 80",
        "line 5: ranges of an alphabet don't ascend",
    ),
    (
        5,
        "ia5_string 1 20 ... 0",
        "line 5: ranges of an alphabet don't ascend",
    ),
    (
        5,
        "bmp_string 1 20 ... 1 0 256",
        "line 5: an alphabet has more than 256 characters",
    ),
    (
        5,
        "ia5_string 21 20 ... -",
        "line 5: a bound is above the other",
    ),
    (3, "sequence 1000000 - id c0 r 1", "line 3: a word lacks"),
    (
        3,
        "sequence 2 - id c0 r 1 id c1 o 2",
        "line 3: a name stands twice",
    ),
    (
        3,
        "sequence 1 1 kind c0 r 1 [[ c3 4",
        "line 3: a name stands twice",
    ),
    (3, "sequence 1 - id x0 r 1", "line 3: a word is no tag"),
    (
        3,
        "sequence 1 - id c4294967296 r 1",
        "line 3: a number is too large",
    ),
    (
        3,
        "sequence 1 - id c0 e 1",
        "line 3: a word has no place here",
    ),
    (
        3,
        "sequence 1 - id c0 r 6",
        "line 3: there is no such place",
    ),
    (
        3,
        "sequence 1 - more c0 d 3 list 1 list 0",
        "line 3: a default is no value of its type",
    ),
    (3, "sequence 1 - more c0 d 3 list 1", "line 3: a word lacks"),
    (
        3,
        "sequence 1 - more c0 d 3 list 1 absent",
        "line 3: there is no such value",
    ),
    (
        3,
        "sequence 1 - id c0 d 1 octets 0G",
        "line 3: a word is no hexadecimal octets",
    ),
    (
        3,
        "sequence 1 - id c0 d 1 octets 0A",
        "line 3: a word is no hexadecimal octets",
    ),
    (
        3,
        "sequence 1 - id c0 d 1 oid 2 3 5",
        "line 3: numbers are no OBJECT IDENTIFIER",
    ),
    (
        3,
        "sequence 1 - id c0 d 2 characters 1 65536",
        "line 3: a number is too large",
    ),
    (
        3,
        "sequence 1 - id c0 d 1 true",
        "line 3: a default is no value of its type",
    ),
    (
        3,
        "sequence 1 - id c0 d 1 bits 012",
        "line 3: a word is no bits",
    ),
    (
        3,
        "sequence 1 - id c0 d 1 real",
        "line 3: there is no such value",
    ),
    (
        3,
        "sequence 0 1 [[ c3 5",
        "line 3: a group is no SEQUENCE without a marker",
    ),
    (
        3,
        "set 2 - a c0 r 1 b c0 r 2",
        "line 3: tags are the same or don't ascend",
    ),
    (
        3,
        "choice 2 - a c1 1 b c0 1",
        "line 3: tags are the same or don't ascend",
    ),
    (
        3,
        "choice 1 1 a c1 1 b c1 1",
        "line 3: tags are the same or don't ascend",
    ),
    (3, "choice 1 - a - 0", "line 3: a CHOICE has no tag"),
    (3, "enumerated 2 - a a", "line 3: a name stands twice"),
    (
        3,
        "open_type 0 - 1 int 1 A 6 - -",
        "line 3: there is no such place",
    ),
    (
        3,
        "open_type 0 - 1 int 1 A 1 int 1 -",
        "line 3: a word has no place here",
    ),
    (
        10,
        "root Example Message 3",
        "line 10: a type is named twice",
    ),
    (
        10,
        "root Example Messages 6",
        "line 10: there is no such place",
    ),
];

#[test]
fn texts(rt: HostRuntime) -> Result<(), Fail> {
    for (text, said) in TEXTS {
        let told = match load(rt.alloc(), text) {
            Ok(_) => format!(in rt.alloc(); "taken")?,
            Err(error) => format!(in rt.alloc(); "{error}")?,
        };
        assert_eq!(rt; told.as_str(), said);
    }
    Ok(())
}

#[test]
fn lines(rt: HostRuntime) -> Result<(), Fail> {
    for (number, line, said) in LINES {
        let text = with_line(rt.alloc(), number, line)?;
        let told = match load(rt.alloc(), text.as_bytes()) {
            Ok(_) => format!(in rt.alloc(); "taken")?,
            Err(error) => format!(in rt.alloc(); "{error}")?,
        };
        assert_eq!(rt; told.as_str(), said, "{line}");
    }
    Ok(())
}

/// Defaults that hold as many values as there are levels, which are no values of their type, and one more.
#[test]
fn levels_of_a_default(rt: HostRuntime) -> Result<(), Fail> {
    let said = [
        (255, "line 3: a default is no value of its type"),
        (256, "line 3: a value is nested too deep"),
    ];
    for (levels, said) in said {
        let mut line = format!(in rt.alloc(); "sequence 1 - more c0 d 3")?;
        for _ in 0..levels {
            line.push_str(" chosen root 0")?;
        }
        line.push_str(" null")?;
        let text = with_line(rt.alloc(), 3, line.as_str())?;
        let told = match load(rt.alloc(), text.as_bytes()) {
            Ok(_) => format!(in rt.alloc(); "taken")?,
            Err(error) => format!(in rt.alloc(); "{error}")?,
        };
        assert_eq!(rt; told.as_str(), said);
    }
    Ok(())
}

/// A row's value that holds as many values as there are levels, and one that holds one more.
#[test]
fn levels(rt: HostRuntime) -> Result<(), Fail> {
    for (levels, is_taken) in [(255, true), (256, false)] {
        let mut line = format!(in rt.alloc(); "open_type 0 - 1")?;
        for _ in 0..levels {
            line.push_str(" list 1")?;
        }
        line.push_str(" null A 1 - -")?;
        let text = with_line(rt.alloc(), 3, line.as_str())?;
        assert_eq!(rt; load(rt.alloc(), text.as_bytes()).is_ok(), is_taken);
    }
    Ok(())
}

/// Each front of a schema file is none, or has only the last line feed left out.
#[test]
fn fronts(rt: HostRuntime) -> Result<(), Fail> {
    let octets = EXAMPLE.as_bytes();
    for len in 0..octets.len() {
        assert!(rt; load(rt.alloc(), &octets[..len]).is_err());
    }
    Ok(())
}
