//! Laws of the canonical texts of times (X.690 11.7 and 11.8). Each law is the contract of a function that does
//! nothing.

ghost use Rattle.std.specs.Prelude.{◌≡◌};
ghost use Rattle.rasn_types.specs.Contents.{TimeKind, is_time};
ghost use Rattle.jiff.specs.Types.{DateTime};
ghost use Rattle.rasn_strings.specs.Moments.{is_utc_moment, utc_text, EachUtcTimeHasOneText};
ghost use Rattle.rasn_strings.specs.Moments.{is_generalized_moment, generalized_text, EachGeneralizedTimeHasOneText};

/// A moment has a lawful text exactly where a UTCTime can hold it.
pub fn utc_moments_have_texts()
    ensures { (moment : DateTime) → is_time TimeKind.utc (utc_text moment) ≡ is_utc_moment moment }
{}

/// Each moment that a UTCTime can hold has a text of its own.
pub fn utc_texts_are_of_one_moment()
    ensures { EachUtcTimeHasOneText }
{}

/// A moment has a lawful text exactly where a GeneralizedTime can hold it.
pub fn generalized_moments_have_texts()
    ensures { (t : DateTime) → is_time TimeKind.generalized (generalized_text t) ≡ is_generalized_moment t }
{}

/// Each moment that a GeneralizedTime can hold has a text of its own.
pub fn generalized_texts_are_of_one_moment()
    ensures { EachGeneralizedTimeHasOneText }
{}
