//! The words of codecs.

ghost use Rattle.std.specs.Prelude.{◌≡◌, ◌≢◌, IfNone, IfSome};
ghost use Rattle.rasn_types.specs.declared.types.Codec.{Codec as a_codec};
ghost use Rattle.line_replies.specs.Codecs.{codec_word};

use rasn_types::types::Codec;

/// The codec that a word names.
pub fn codec_of_word(word: &str) -> Option<Codec>
    ensures named { IfSome result (λ c. word.now ≡ codec_word c) }
    ensures unknown { IfNone result ((c : a_codec) → word.now ≢ codec_word c) }
{
    match word {
        "aper" => Some(Codec::Aper),
        "uper" => Some(Codec::Uper),
        _ => None,
    }
}
