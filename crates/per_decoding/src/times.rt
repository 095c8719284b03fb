//! UTCTime and GeneralizedTime, whose texts are VisibleStrings (X.691 30).

ghost use Rattle.std.specs.Prelude.{◌≡◌, false};
ghost use Rattle.rasn_types.specs.Alphabets.{visible};
ghost use Rattle.rasn_types.specs.Contents.{utc, generalized};
ghost use Rattle.rasn_constraints.specs.Bounds.{any_size};
ghost use Rattle.per_core.specs.Basic.{String};
ghost use Rattle.per_core.specs.Spellings.{Settings};
ghost use Rattle.per_core.specs.TimeFaults.{IsOfTime};
ghost use Rattle.per_decoding.specs.Times.{time_form};
ghost use Rattle.per_core.specs.SizeFaults.{IsOfString};
ghost use Rattle.per_read.specs.Takes.{Takes, memory_or, itself};

use per_read::Reader;
use per_read::error::DecodeErrorKind;
use rasn_schema::constraints::Constraints;
use rasn_strings::civil::{GeneralizedMoment, UtcMoment};
use rasn_strings::strings::VisibleString;

/// Takes a UTCTime (X.691 30, X.690 11.8), and answers its moment in UTC.
pub fn take_utc_time<M: UtcMoment>(reader: &mut Reader<'_>) -> Result<M, DecodeErrorKind>
    ensures { Takes (memory_or (λ a. IsOfTime a utc)) (λ a. time_form a utc) (λ P moment. P (M.text moment))
        reader.old result reader.new }
{
    let text = take_text(reader)?;
    match M::parse_canonical_utc_time_string(text.as_iso646_bytes()) {
        Ok(moment) => Ok(moment),
        Err(_) => Err(DecodeErrorKind::Below),
    }
}

/// Takes a GeneralizedTime (X.691 30, X.690 11.7), and answers its moment in UTC.
pub fn take_generalized_time<M: GeneralizedMoment>(
    reader: &mut Reader<'_>,
) -> Result<M, DecodeErrorKind>
    ensures { Takes (memory_or (λ a. IsOfTime a generalized)) (λ a. time_form a generalized)
        (λ P moment. P (M.text moment)) reader.old result reader.new }
{
    let text = take_text(reader)?;
    match M::parse_canonical_generalized_time_string(text.as_iso646_bytes()) {
        Ok(moment) => Ok(moment),
        Err(_) => Err(DecodeErrorKind::Below),
    }
}

/// Takes a VisibleString without constraints (X.691 30.5).
fn take_text(reader: &mut Reader<'_>) -> Result<VisibleString, DecodeErrorKind>
    ensures { let form = λ (a : Settings). String a visible any_size false in
        Takes (memory_or (λ a. IsOfString a visible any_size false)) form itself reader.old result reader.new }
{
    reader.take_characters::<VisibleString>(&Constraints::NONE)
}
