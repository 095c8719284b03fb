//! The canonical texts of UTCTime and GeneralizedTime, as values have them.

ghost use Rattle.std.specs.Prelude.{◌≡◌, ◌↔◌, ◌≤◌, Err, false, is_some, length, take, IfOk, IfSome, IfNone};
ghost use Rattle.rasn_types.specs.Contents.{generalized, is_time, utc, TimeKind};
ghost use Rattle.rasn_strings.specs.Moments.{generalized_text, is_generalized_moment, is_utc_moment, utc_text};
ghost use Rattle.rasn_strings.specs.declared.time_error.TimeError.TheVariants.{Unrepresentable};

use jiff::civil::DateTime;
use rasn_strings::generalized_time::{
    datetime_to_canonical_generalized_time_bytes, parse_canonical_generalized_time_string,
};
use rasn_strings::strings::{BmpString, StaticPermittedAlphabet};
use rasn_strings::time_error::TimeError;
use rasn_strings::utc_time::{
    datetime_to_canonical_utc_time_bytes, parse_canonical_utc_time_string,
};
use std::alloc::{AllocError, Global};

/// How many characters the longest of these texts has: that of a GeneralizedTime with nine digits of a fraction.
const MOST: usize = 25;

/// The moment in UTC with this canonical text of a UTCTime (X.690 11.8); none where it is another. Takes no memory.
pub fn utc_moment(text: &BmpString) -> Option<DateTime>
    ensures read { IfSome result (λ moment. utc_text moment ≡ text.now) }
    ensures accepted { is_some result ≡ is_time utc text.now }
{
    let octets = octets_of(text)?;
    match parse_canonical_utc_time_string(&octets[..text.len()]) {
        Ok(moment) => Some(moment),
        Err(_) => None,
    }
}

/// The moment in UTC with this canonical text of a GeneralizedTime (X.690 11.7); none where it is another. Takes
/// no memory.
pub fn generalized_moment(text: &BmpString) -> Option<DateTime>
    ensures read { IfSome result (λ moment. generalized_text moment ≡ text.now) }
    ensures accepted { is_some result ≡ is_time generalized text.now }
{
    let octets = octets_of(text)?;
    match parse_canonical_generalized_time_string(&octets[..text.len()]) {
        Ok(moment) => Some(moment),
        Err(_) => None,
    }
}

/// The canonical text of a UTCTime (X.690 11.8). Refused is a moment that it can't hold: of another year than 1950 to
/// 2049, or not of a whole second.
pub fn utc_characters(alloc: Global, moment: DateTime) -> Result<BmpString, TimeError>
    ensures written { IfOk result (λ text. text ≡ utc_text moment) }
    ensures refused { (result ≡ Err Unrepresentable) ↔ (is_utc_moment moment ≡ false) }
{
    let octets = datetime_to_canonical_utc_time_bytes(alloc, moment)?;
    Ok(characters_of(alloc, &octets)?)
}

/// The canonical text of a GeneralizedTime (X.690 11.7). Refused is a moment of a year before 0.
pub fn generalized_characters(alloc: Global, moment: DateTime) -> Result<BmpString, TimeError>
    ensures written { IfOk result (λ text. text ≡ generalized_text moment) }
    ensures refused { (result ≡ Err Unrepresentable) ↔ (is_generalized_moment moment ≡ false) }
{
    let octets = datetime_to_canonical_generalized_time_bytes(alloc, moment)?;
    Ok(characters_of(alloc, &octets)?)
}

/// The characters with the numbers of octets.
fn characters_of(alloc: Global, octets: &[u8]) -> Result<BmpString, AllocError>
    ensures { IfOk result (λ text. text ≡ octets.now) }
{
    let mut text = <BmpString as StaticPermittedAlphabet>::new(alloc);
    text.push_octets(octets)?;
    Ok(text)
}

/// The octets with the numbers of characters, and zeros after them; none where the characters can't be the text of a
/// time, as they are too many, or one isn't an octet.
fn octets_of(text: &BmpString) -> Option<[u8; MOST]>
    ensures few { IfSome result (λ octets. length text.now ≤ 25) }
    ensures held { IfSome result (λ octets. take (length text.now) octets ≡ text.now) }
    ensures none { IfNone result ((kind : TimeKind) → is_time kind text.now ≡ false) }
{
    let units = text.as_units();
    if units.len() > MOST {
        return None;
    }
    let mut octets = [0; MOST];
    for (index, unit) in units.iter().enumerate() {
        if *unit > 255 {
            return None;
        }
        octets[index] = *unit as u8;
    }
    Some(octets)
}
