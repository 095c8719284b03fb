//! Readers and writers that fail, and what the program does then; when it reads and writes.

use crate::runs::{expect_status, expect_text, status_of, told};
use std::alloc::{AllocError, Global};
use std::cell::Cell;
use std::io;
use std::io::{BufReader, ErrorKind, Read};
use std::rc::Rc;
use std::test::Fail;

/// What is told of wrong arguments.
const USAGE: &str = "usage: per_check (aper|uper) TYPE [lines | zero | as TYPE]\n";

/// Gives the first octets of `text`, and then fails.
#[derive(Drop)]
struct BrokenReader {
    text: &'static [u8],
    kind: ErrorKind,
}

impl Read for BrokenReader {
    fn read(&mut self, buffer: &mut [u8]) -> io::Result<usize> {
        match (self.text.split_first(), buffer.first_mut()) {
            (Some((octet, rest)), Some(place)) => {
                *place = *octet;
                self.text = rest;
                Ok(1)
            }
            _ => Err(io::Error::from(self.kind)),
        }
    }
}

/// Takes `room` octets, and then fails.
#[derive(Drop)]
struct BrokenWriter {
    room: usize,
    kind: ErrorKind,
}

impl io::Write for BrokenWriter {
    fn write(&mut self, octets: &[u8]) -> io::Result<usize> {
        let count = octets.len().min(self.room);
        if count == 0 {
            return Err(io::Error::from(self.kind));
        }
        self.room -= count;
        Ok(count)
    }

    fn flush(&mut self) -> io::Result<()> {
        Ok(())
    }
}

/// Keeps what it takes to itself, and can't pass it on.
#[derive(Drop)]
struct StuckWriter;

impl io::Write for StuckWriter {
    fn write(&mut self, octets: &[u8]) -> io::Result<usize> {
        Ok(octets.len())
    }

    fn flush(&mut self) -> io::Result<()> {
        Err(io::Error::from(ErrorKind::BrokenPipe))
    }
}

/// Takes nothing, and calls that no error.
#[derive(Drop)]
struct FullWriter;

impl io::Write for FullWriter {
    fn write(&mut self, _octets: &[u8]) -> io::Result<usize> {
        Ok(0)
    }

    fn flush(&mut self) -> io::Result<()> {
        Ok(())
    }
}

#[test]
fn tells_wrong_arguments_before_it_reads(rt: HostRuntime) -> Result<(), Fail> {
    let mut input = b"021000\n0105\n".as_slice();
    let (status, faults) = told(rt.alloc(), "uper", &mut input, &mut FullWriter)?;
    expect_status(&rt, status, 2);
    expect_text(&rt, faults.as_slice(), USAGE);
    expect_text(&rt, input, "021000\n0105\n");
    Ok(())
}

#[test]
fn leaves_what_follows_the_line(rt: HostRuntime) -> Result<(), Fail> {
    let mut input = b"021000\n0105\n".as_slice();
    let mut output = Vec::new(rt.alloc());
    let (alloc, faults) = (rt.alloc(), &mut FullWriter);
    let status = status_of(alloc, "uper integer", &mut input, &mut output, faults)?;
    expect_status(&rt, status, 0);
    expect_text(&rt, output.as_slice(), "021000\n");
    expect_text(&rt, input, "0105\n");
    Ok(())
}

/// Arguments, what is read before reading fails, how it fails, what is printed, the status, and what is said.
const BROKEN_READERS: &[(&str, &[u8], ErrorKind, &str, u8, &str)] = &[
    (
        "uper integer",
        b"",
        ErrorKind::BrokenPipe,
        "",
        2,
        "cannot read input\n",
    ),
    (
        "uper integer",
        b"021",
        ErrorKind::BrokenPipe,
        "",
        2,
        "cannot read input\n",
    ),
    (
        "uper integer",
        b"0210",
        ErrorKind::OutOfMemory,
        "",
        1,
        "OutOfMemory\n",
    ),
    // Nothing is read after the line.
    (
        "uper integer",
        b"021000\n",
        ErrorKind::BrokenPipe,
        "021000\n",
        0,
        "",
    ),
    (
        "uper integer lines",
        b"",
        ErrorKind::BrokenPipe,
        "",
        2,
        "cannot read input\n",
    ),
    (
        "uper integer lines",
        b"0105\n0\n01",
        ErrorKind::BrokenPipe,
        "0105\n! bad hexadecimal\n",
        2,
        "cannot read input\n",
    ),
    (
        "uper integer lines",
        b"0105\n",
        ErrorKind::OutOfMemory,
        "0105\n",
        1,
        "OutOfMemory\n",
    ),
];

#[test]
fn tells_that_it_cannot_read(rt: HostRuntime) -> Result<(), Fail> {
    for (arguments, text, kind, printed, status, said) in BROKEN_READERS {
        let reader = BrokenReader { text, kind: *kind };
        let mut input = BufReader::new(rt.alloc(), reader)?;
        let mut output = Vec::new(rt.alloc());
        let (answered, faults) = told(rt.alloc(), arguments, &mut input, &mut output)?;
        expect_status(&rt, answered, *status);
        expect_text(&rt, faults.as_slice(), said);
        expect_text(&rt, output.as_slice(), printed);
    }
    Ok(())
}

/// Arguments, how much is written before writing fails, how it fails, the status, and what is said.
const BROKEN_WRITERS: &[(&str, usize, ErrorKind, u8, &str)] = &[
    (
        "uper integer",
        0,
        ErrorKind::BrokenPipe,
        2,
        "cannot write output\n",
    ),
    (
        "uper integer",
        1,
        ErrorKind::StorageFull,
        2,
        "cannot write output\n",
    ),
    (
        "uper integer",
        4,
        ErrorKind::WriteZero,
        2,
        "cannot write output\n",
    ),
    (
        "uper integer",
        2,
        ErrorKind::OutOfMemory,
        1,
        "OutOfMemory\n",
    ),
    (
        "uper integer lines",
        0,
        ErrorKind::BrokenPipe,
        2,
        "cannot write output\n",
    ),
    (
        "uper integer lines",
        6,
        ErrorKind::StorageFull,
        2,
        "cannot write output\n",
    ),
    (
        "uper integer lines",
        5,
        ErrorKind::OutOfMemory,
        1,
        "OutOfMemory\n",
    ),
];

#[test]
fn tells_that_it_cannot_write(rt: HostRuntime) -> Result<(), Fail> {
    for (arguments, room, kind, status, said) in BROKEN_WRITERS {
        let mut input = b"0105\n020005\n0105\n".as_slice();
        let (room, kind) = (*room, *kind);
        let mut output = BrokenWriter { room, kind };
        let (answered, faults) = told(rt.alloc(), arguments, &mut input, &mut output)?;
        expect_status(&rt, answered, *status);
        expect_text(&rt, faults.as_slice(), said);
    }
    Ok(())
}

#[test]
fn tells_that_output_is_not_passed_on(rt: HostRuntime) -> Result<(), Fail> {
    let mut input = b"021000\n".as_slice();
    let (status, faults) = told(rt.alloc(), "uper integer", &mut input, &mut StuckWriter)?;
    expect_status(&rt, status, 2);
    expect_text(&rt, faults.as_slice(), "cannot write output\n");
    Ok(())
}

#[test]
fn tells_that_output_is_not_taken(rt: HostRuntime) -> Result<(), Fail> {
    let mut input = b"021000\n".as_slice();
    let (status, faults) = told(rt.alloc(), "uper integer", &mut input, &mut FullWriter)?;
    expect_status(&rt, status, 2);
    expect_text(&rt, faults.as_slice(), "cannot write output\n");
    Ok(())
}

/// Arguments, an input, and the status.
const UNTOLD: &[(&str, &[u8], u8)] = &[
    ("uper", b"021000\n", 2),
    ("uper integer", b"0210\n", 1),
    ("uper integer", b"0\n", 2),
    ("uper integer", b"021000\n", 2),
];

/// The status of a run that prints nothing and can say so much.
fn untold(alloc: Global, arguments: &str, mut input: &[u8], room: usize) -> Result<u8, AllocError> {
    let kind = ErrorKind::BrokenPipe;
    let mut output = BrokenWriter { room: 0, kind };
    let mut faults = BrokenWriter { room, kind };
    status_of(alloc, arguments, &mut input, &mut output, &mut faults)
}

#[test]
fn keeps_its_status_where_faults_cannot_be_told(rt: HostRuntime) -> Result<(), Fail> {
    for (arguments, input, status) in UNTOLD {
        for room in [0, 1, 4] {
            let answered = untold(rt.alloc(), arguments, input, room)?;
            expect_status(&rt, answered, *status);
        }
    }
    Ok(())
}

/// Gives a line of an INTEGER in each read, and fails where one that it gave has no reply.
#[derive(Drop)]
struct Asker {
    given: usize,
    replies: Rc<Cell<usize>>,
}

impl Read for Asker {
    fn read(&mut self, buffer: &mut [u8]) -> io::Result<usize> {
        if self.replies.get() != self.given {
            return Err(io::Error::from(ErrorKind::Other));
        }
        if self.given >= 4 {
            return Ok(0);
        }
        self.given += 1;
        let mut line = b"0105\n".as_slice();
        line.read(buffer)
    }
}

/// Counts the replies that are passed on.
#[derive(Drop)]
struct Counter {
    kept: usize,
    replies: Rc<Cell<usize>>,
}

impl io::Write for Counter {
    fn write(&mut self, octets: &[u8]) -> io::Result<usize> {
        if octets.contains(&b'\n') {
            self.kept = self.kept.saturating_add(1);
        }
        Ok(octets.len())
    }

    fn flush(&mut self) -> io::Result<()> {
        self.replies
            .set(self.replies.get().saturating_add(self.kept));
        self.kept = 0;
        Ok(())
    }
}

#[test]
fn replies_before_it_reads_on(rt: HostRuntime) -> Result<(), Fail> {
    let replies = Rc::new(rt.alloc(), Cell::new(0))?;
    let asker = Asker {
        given: 0,
        replies: replies.clone()?,
    };
    let mut input = BufReader::new(rt.alloc(), asker)?;
    let mut output = Counter {
        kept: 0,
        replies: replies.clone()?,
    };
    let (status, faults) = told(rt.alloc(), "uper integer lines", &mut input, &mut output)?;
    expect_status(&rt, status, 0);
    expect_text(&rt, faults.as_slice(), "");
    assert_eq!(rt; replies.get(), 4);
    Ok(())
}

/// Counts how often it is told to pass on what it took.
#[derive(Drop)]
struct Flushes {
    count: Rc<Cell<usize>>,
}

impl io::Write for Flushes {
    fn write(&mut self, octets: &[u8]) -> io::Result<usize> {
        Ok(octets.len())
    }

    fn flush(&mut self) -> io::Result<()> {
        self.count.set(self.count.get().saturating_add(1));
        Ok(())
    }
}

#[test]
fn replies_together_to_lines_that_are_there(rt: HostRuntime) -> Result<(), Fail> {
    let flushes = Rc::new(rt.alloc(), Cell::new(0))?;
    let mut input = b"0105\n0106\n0107\n".as_slice();
    let mut output = Flushes {
        count: flushes.clone()?,
    };
    let (status, faults) = told(rt.alloc(), "uper integer lines", &mut input, &mut output)?;
    expect_status(&rt, status, 0);
    expect_text(&rt, faults.as_slice(), "");
    // Once after the three lines, and once at the end of the input.
    assert_eq!(rt; flushes.get(), 2);
    Ok(())
}
