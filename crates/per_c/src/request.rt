//! What the numbers of a call ask for.

ghost use Rattle.std.specs.Prelude.{◌≡◌, ◌≢◌, IfSome, IfNone};
ghost use Rattle.per_core.specs.Rows.{Codec as a_codec};
ghost use Rattle.per_lines.specs.declared.arguments.Padding.{Padding as a_padding};
ghost use Rattle.per_lines.specs.declared.arguments.Padding.TheVariants.{Any as AnyPadding};
ghost use Rattle.per_c.specs.Numbers.{options_number};

use per_lines::arguments::Padding;
use rasn_below::types::Codec;

/// The variant and the padding that a number stands for.
pub fn options_of(number: u32) -> Option<(Codec, Padding)>
    ensures known { IfSome result (λ o. number ≡ options_number o.0 o.1) }
    ensures unknown { IfNone result ((codec : a_codec) (padding : a_padding)
        → number ≢ options_number codec padding) }
{
    match number {
        0 => Some((Codec::Uper, Padding::Any)),
        1 => Some((Codec::Aper, Padding::Any)),
        2 => Some((Codec::Uper, Padding::Zero)),
        3 => Some((Codec::Aper, Padding::Zero)),
        _ => None,
    }
}

/// The variant that a number stands for, with padding of any value.
pub fn codec_of(number: u32) -> Option<Codec>
    ensures known { IfSome result (λ codec. number ≡ options_number codec AnyPadding) }
    ensures unknown { IfNone result ((codec : a_codec) → number ≢ options_number codec AnyPadding) }
{
    match number {
        0 => Some(Codec::Uper),
        1 => Some(Codec::Aper),
        2..=u32::MAX => None,
    }
}
