//! Why the program prints no encoding, and what it says then.

ghost use Rattle.std.specs.Prelude.{◌≡◌, ◌∷◌, [], ◌++◌};
ghost use Rattle.std.specs.IoError.{error_kind};
ghost use Rattle.line_replies.specs.Faults.{text_of, status_of, io_fault, hexadecimal_fault, IsWritten};
ghost use Rattle.line_replies.specs.declared.fault.Fault.TheVariants.{OutOfMemory};
ghost use Rattle.line_replies.specs.declared.fault.Fault.TheVariants.{Encode as encode_fault, Decode as decode_fault};

use crate::output::write_line;
use hex::FromHexError;
use rasn_per::uper::{DecodeError, DecodeErrorKind, EncodeError, EncodeErrorKind};
use std::alloc::AllocError;
use std::io;
use std::io::{ErrorKind, Write};

/// Why the program prints no encoding. All but the last come in the order in which they are found.
#[derive(Clone, Copy, Debug, PartialEq)]
pub enum Fault {
    /// The words are not a variant, a type and a form that the program knows.
    WrongArguments,
    /// The input can't be read.
    CannotRead,
    /// The line isn't pairs of hexadecimal digits.
    BadHexadecimal,
    /// The octets are no encoding of a value of the type.
    Decode(DecodeErrorKind),
    /// The value has no canonical encoding.
    Encode(EncodeErrorKind),
    /// The output can't be written.
    CannotWrite,
    /// Memory ran out.
    OutOfMemory,
}

impl Fault {
    /// The fault of an error of a reader or a writer: want of memory, or else `other`.
    pub fn of_io(error: &io::Error, other: Fault) -> Fault
        ensures { result ≡ io_fault (error_kind error.now) other }
    {
        match error.kind() {
            ErrorKind::OutOfMemory => Fault::OutOfMemory,
            _ => other,
        }
    }

    /// What is said of the fault, without a line feed.
    pub fn text(&self) -> &'static str
        ensures { result.now ≡ text_of self.now }
    {
        match self {
            Fault::WrongArguments => "usage: per_check (aper|uper) TYPE [lines | zero | as TYPE]",
            Fault::CannotRead => "cannot read input",
            Fault::BadHexadecimal => "bad hexadecimal",
            Fault::Decode(kind) => kind.name(),
            Fault::Encode(kind) => kind.name(),
            Fault::CannotWrite => "cannot write output",
            Fault::OutOfMemory => "OutOfMemory",
        }
    }

    /// The status that the program ends with.
    pub fn status(&self) -> u8
        ensures { result ≡ status_of self.now }
    {
        match self {
            Fault::Decode(_) | Fault::Encode(_) | Fault::OutOfMemory => 1,
            Fault::WrongArguments
            | Fault::CannotRead
            | Fault::BadHexadecimal
            | Fault::CannotWrite => 2,
        }
    }

    /// Says the fault on a line of `faults`, and nothing else. Answers the status that the program ends with, and
    /// whether that line was written; where it wasn't, a front of it was.
    pub fn report<F: Write>(self, faults: &mut F) -> (u8, io::Result<()>)
        ensures status { result.0 ≡ status_of self }
        ensures told { IsWritten result.1 (F.contents faults.old) (F.contents faults.new) (text_of self ++ 10 ∷ []) }
    {
        let told = write_line(self.text(), faults);
        (self.status(), told)
    }
}

impl From<FromHexError> for Fault {
    ghost from_gives = { λ e f. f ≡ hexadecimal_fault e };

    fn from(error: FromHexError) -> Fault {
        match error {
            FromHexError::OutOfMemory => Fault::OutOfMemory,
            FromHexError::InvalidHexCharacter { .. }
            | FromHexError::OddLength
            | FromHexError::InvalidStringLength => Fault::BadHexadecimal,
        }
    }
}

impl From<DecodeError> for Fault {
    ghost from_gives = { λ e f. f ≡ decode_fault e.kind };

    fn from(error: DecodeError) -> Fault {
        Fault::Decode(error.kind)
    }
}

impl From<EncodeError> for Fault {
    ghost from_gives = { λ e f. f ≡ encode_fault e.kind };

    fn from(error: EncodeError) -> Fault {
        Fault::Encode(error.kind)
    }
}

impl From<AllocError> for Fault {
    ghost from_gives = { λ _ f. f ≡ OutOfMemory };

    fn from(_error: AllocError) -> Fault {
        Fault::OutOfMemory
    }
}
