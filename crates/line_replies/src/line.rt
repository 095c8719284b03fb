//! The lines that the program reads.

ghost use Rattle.std.specs.Prelude.{◌≡◌, IfOk, OnOk, MatchOption};
ghost use Rattle.std.specs.Io.BufRead.{strip_last, DropsThrough};
ghost use Rattle.std.specs.Io.KnownBytes.{IsAtEnd};
ghost use Rattle.line_replies.specs.Lines.{IsLineOf, TakesLine};

use std::alloc::Global;
use std::io;
use std::io::BufRead;

/// The octets of the input before its first line feed, or all of them, without a carriage return at their end. At the
/// end of the input there are none.
///
/// Nothing after the line feed is taken from the input. Answers an error where reading fails or memory ran out.
pub fn read_line<R: BufRead>(alloc: Global, input: &mut R) -> io::Result<Vec<u8>>
    ensures line { IfOk result (λ line. IsLineOf (R.remaining input.old) line.items) }
    ensures rest { OnOk result (DropsThrough (R.remaining input.old) (R.remaining input.new) 10) }
{
    match next_line(alloc, input)? {
        Some(line) => Ok(line),
        None => Ok(Vec::new(alloc)),
    }
}

/// The octets of the next line, without its line feed and a carriage return before that, or `None` at the end of the
/// input.
///
/// Answers an error where reading fails or memory ran out.
pub fn next_line<R: BufRead>(alloc: Global, input: &mut R) -> io::Result<Option<Vec<u8>>>
    ensures ok { IfOk result (λ next. MatchOption next (IsAtEnd (R.remaining input.old))
        (λ line. TakesLine (R.remaining input.old) (R.remaining input.new) line.items)) }
    ensures rest { OnOk result (DropsThrough (R.remaining input.old) (R.remaining input.new) 10) }
{
    let mut line = Vec::new(alloc);
    if input.read_until(b'\n', &mut line)? == 0 {
        return Ok(None);
    }
    drop_last(&mut line, b'\n');
    drop_last(&mut line, b'\r');
    Ok(Some(line))
}

/// Drops the last octet where it is `octet`.
fn drop_last(line: &mut Vec<u8>, octet: u8)
    ensures { line.new.items ≡ strip_last octet line.old.items }
{
    if line.last() == Some(&octet) {
        line.pop();
    }
}
