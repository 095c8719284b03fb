//! Why the program prints no JSON, and what it says then.

ghost use Rattle.std.specs.Prelude.{◌≡◌, ◌≢◌, ◌≤◌, ◌++◌, IfOk, string_bytes};
ghost use Rattle.line_replies.specs.Faults.{hexadecimal_fault};
ghost use Rattle.line_replies.specs.declared.fault.Fault.TheVariants.{OutOfMemory};
ghost use Rattle.per_lines.specs.FaultTexts.{IsToldAs, Tells, front_of, of_lines, status_of, text_of};
ghost use Rattle.per_lines.specs.declared.show_fault.Fault.TheVariants.{Decode as decode_fault, Encode as encode_fault};
ghost use Rattle.per_lines.specs.declared.show_fault.Fault.TheVariants.{OfLines as lines_fault};

use hex::FromHexError;
use line_replies::fault;
use line_replies::output::write_line;
use per_located::Refusal;
use rasn_jer::error::EncodeError;
use std::alloc::{AllocError, Global};
use std::io::Write;

/// Why the program prints no JSON.
#[derive(Drop)]
pub enum Fault {
    /// The words are not a variant, a type and a form that the program knows.
    WrongArguments,
    /// A word is no type's: the nearest one that is.
    UnknownType(&'static str),
    /// The octets are no encoding of a value of the type; and where they are refused.
    Decode(Refusal),
    /// The value has no JSON.
    Encode(EncodeError),
    /// The line isn't pairs of hexadecimal digits, reading or writing fails, or memory ran out.
    OfLines(fault::Fault),
}

impl Fault {
    /// What is said of the fault but its place, in two pieces.
    pub fn text(&self) -> (&'static str, &'static str)
        ensures whole { result.0.now ++ result.1.now ≡ text_of self.now }
        ensures front { result.0.now ≡ front_of self.now }
    {
        match self {
            Fault::WrongArguments => (
                "usage: per_show (aper|uper) TYPE [lines] [--pretty] | per_show --help",
                "",
            ),
            Fault::UnknownType(nearest) => ("unknown type; the nearest is ", *nearest),
            Fault::Decode(refusal) => (refusal.kind.name(), ""),
            Fault::Encode(error) => (error.name(), ""),
            Fault::OfLines(fault) => (fault.text(), ""),
        }
    }

    /// What is said of the fault, such as `Incomplete at inner.inner, bit 7 of 8`. The only error is want of memory.
    pub fn told(&self, alloc: Global) -> Result<String, AllocError>
        ensures { IfOk result (λ told. IsToldAs self.now (string_bytes told)) }
    {
        let (text, word) = self.text();
        let mut told = String::from_str(alloc, text)?;
        told.push_str(word)?;
        match self {
            Fault::Decode(refusal) => {
                let shown = format!(in alloc; "{refusal}")?;
                told.push_str(shown.strip_prefix(text).unwrap_or(""))?;
                Ok(told)
            }
            _ => Ok(told),
        }
    }

    /// The status that the program ends with: 1 or 2.
    pub fn status(&self) -> u8
        ensures value { result ≡ status_of self.now }
        ensures range { result ≤ 2 }
        ensures some { result ≢ 0 }
    {
        match self {
            Fault::WrongArguments | Fault::UnknownType(_) => 2,
            Fault::Decode(_) | Fault::Encode(_) => 1,
            Fault::OfLines(fault) => fault.status(),
        }
    }

    /// Says the fault on a line of `faults`, without its place or the nearest type where memory ran out, and nothing
    /// else. Answers the status that the program ends with, also where that line can't be written.
    pub fn report<F: Write>(&self, alloc: Global, faults: &mut F) -> u8
        ensures status { result ≡ status_of self.now }
        ensures told { Tells self.now (F.contents faults.old) (F.contents faults.new) }
        ensures range { result ≤ 2 }
        ensures some { result ≢ 0 }
    {
        let _ = match self.told(alloc) {
            Ok(told) => write_line(told.as_str(), faults),
            Err(_) => write_line(self.text().0, faults),
        };
        self.status()
    }
}

impl From<fault::Fault> for Fault {
    ghost from_gives = { λ e f. f ≡ of_lines e };

    fn from(fault: fault::Fault) -> Fault {
        match fault {
            fault::Fault::WrongArguments => Fault::WrongArguments,
            _ => Fault::OfLines(fault),
        }
    }
}

impl From<FromHexError> for Fault {
    ghost from_gives = { λ e f. f ≡ lines_fault (hexadecimal_fault e) };

    fn from(error: FromHexError) -> Fault {
        Fault::OfLines(fault::Fault::from(error))
    }
}

impl From<Refusal> for Fault {
    ghost from_gives = { λ r f. f ≡ decode_fault r };

    fn from(refusal: Refusal) -> Fault {
        Fault::Decode(refusal)
    }
}

impl From<EncodeError> for Fault {
    ghost from_gives = { λ e f. f ≡ encode_fault e };

    fn from(error: EncodeError) -> Fault {
        Fault::Encode(error)
    }
}

impl From<AllocError> for Fault {
    ghost from_gives = { λ _ f. f ≡ lines_fault OutOfMemory };

    fn from(_error: AllocError) -> Fault {
        Fault::OfLines(fault::Fault::OutOfMemory)
    }
}
