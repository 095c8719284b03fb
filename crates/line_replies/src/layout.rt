//! How a JSON text is laid out.

ghost use Rattle.std.specs.Prelude.{◌≡◌, IfOk};
ghost use Rattle.json.specs.Lex.{tokens};
ghost use Rattle.line_replies.specs.Layouts.{IsInLines, IsLaidOut};

use json::{Pretty, Reader, Scratch, Token};
use std::alloc::{AllocError, Global};

/// How a JSON text is laid out.
#[derive(Clone, Copy, Debug, PartialEq, Eq)]
pub enum Layout {
    /// One line.
    Compact,
    /// A line for each item and member, two spaces deeper for each bracket.
    Pretty,
}

/// A JSON text in a layout. The only error is want of memory.
pub fn laid_out(alloc: Global, layout: Layout, text: Vec<u8>) -> Result<Vec<u8>, AllocError>
    ensures { IfOk result (λ laid. IsLaidOut layout text.items laid.items) }
{
    match layout {
        Layout::Compact => Ok(text),
        Layout::Pretty => match str::from_utf8(text.as_slice()) {
            Ok(characters) => pretty(alloc, characters),
            Err(_) => Ok(text),
        },
    }
}

/// A JSON text with a line for each item and member, two spaces deeper for each bracket. What isn't JSON stays as it
/// is. The only error is want of memory.
fn pretty(alloc: Global, text: &str) -> Result<Vec<u8>, AllocError>
    ensures tokens { IfOk result (λ laid. tokens laid.items ≡ tokens text.now) }
    ensures lines { IfOk result (λ laid. IsInLines text.now laid.items) }
{
    let mut scratch = Scratch::new(alloc);
    let mut reader = Reader::new(text, &mut scratch)?;
    let mut writer = Pretty::new(alloc);
    'tokens: loop {
        match reader.next() {
            Some(Token::Bad) => return Vec::from_slice(alloc, text.as_bytes()),
            Some(token) => writer.token(token)?,
            None => break,
        }
    }
    Ok(writer.into_inner())
}
