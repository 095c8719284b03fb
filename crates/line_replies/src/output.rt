//! Writing to where the output goes.

ghost use Rattle.std.specs.Prelude.{OnOk, OnErr, ◌++◌, ◌∷◌, []};
ghost use Rattle.std.specs.Io.KnownBytes.{Appends};
ghost use Rattle.line_replies.specs.Faults.{AppendsFront};

use std::io;
use std::io::{ErrorKind, Write};

/// Writes octets through to where the output goes, and nothing else. Where writing fails, a front of them was written.
pub fn write<W: Write>(octets: &[u8], output: &mut W) -> io::Result<()>
    ensures ok { OnOk result (Appends (W.contents output.old) (W.contents output.new) octets.now) }
    ensures front { AppendsFront (W.contents output.old) (W.contents output.new) octets.now }
{
    write_front(octets, output)?;
    output.flush()
}

/// Writes a text and a line feed through to where the output goes, and nothing else. Where writing fails, a front of
/// these was written.
pub fn write_line<W: Write>(text: &str, output: &mut W) -> io::Result<()>
    ensures ok { OnOk result (Appends (W.contents output.old) (W.contents output.new) (text.now ++ 10 ∷ [])) }
    ensures front { AppendsFront (W.contents output.old) (W.contents output.new) (text.now ++ 10 ∷ []) }
{
    write_front(text.as_bytes(), output)?;
    write_front(b"\n", output)?;
    output.flush()
}

/// Writes octets. Where writing fails, a front of them was written.
///
/// Not `write_all`, of which it isn't known what it wrote before it failed.
fn write_front<W: Write>(octets: &[u8], output: &mut W) -> io::Result<()>
    ensures ok { OnOk result (Appends (W.contents output.old) (W.contents output.new) octets.now) }
    ensures err { OnErr result (AppendsFront (W.contents output.old) (W.contents output.new) octets.now) }
{
    let mut rest = octets;
    for _ in 0..u64::MAX {
        if rest.is_empty() {
            return Ok(());
        }
        match output.write(rest) {
            Ok(0) => break,
            Ok(count) => rest = &rest[count..],
            Err(error) => {
                if !matches!(error.kind(), ErrorKind::Interrupted) {
                    return Err(error);
                }
            }
        }
    }
    Err(io::Error::from(ErrorKind::WriteZero))
}
