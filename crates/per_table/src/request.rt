//! The request that a line is.

ghost use Rattle.std.specs.Prelude.{List, ℕ, IfSome, IfNone};
ghost use Rattle.per_core.specs.Rows.{Codec as a_codec};
ghost use Rattle.per_table.specs.Requests.{IsRequest};

use line_replies::codecs::codec_of_word;
use rasn_types::types::Codec;

/// What a line asks for.
#[derive(Clone, Copy)]
pub struct Request<'line> {
    /// The variant.
    pub codec: Codec,
    /// The name of a type.
    pub name: &'line str,
    /// What follows: hexadecimal digits, or JSON.
    pub text: &'line str,
}

impl<'line> Request<'line> {
    /// The request that a line is, where it is one.
    pub fn read(line: &'line [u8]) -> Option<Request<'line>>
        ensures some { IfSome result (λ r. IsRequest line.now r.codec r.name.now r.text.now) }
        ensures none { IfNone result ((c : a_codec) (name text : List ℕ) → IsRequest line.now c name text → ⊥) }
    {
        let Ok(words) = str::from_utf8(line) else {
            return None;
        };
        let (variant, rest) = words.split_once(' ')?;
        let (name, text) = rest.split_once(' ')?;
        let codec = codec_of_word(variant)?;
        Some(Request { codec, name, text })
    }
}
