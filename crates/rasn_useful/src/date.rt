//! DATE (X.680 38.4).

ghost use Rattle.std.specs.Prelude.{◌≡◌, Some};
ghost use Rattle.rasn_types.specs.declared.types.TheConstants.Tag.{DATE};
ghost use Rattle.rasn_constraints.specs.Ranges.{no_constraints};
ghost use Rattle.rasn_schema.specs.Fields.{tagged};
ghost use Rattle.rasn_strings.specs.Values.{date_value};
ghost use Rattle.rasn_traits.specs.Moments.{date_at};
ghost use Rattle.rasn_useful.specs.Laws.Dates.{date_levelled, date_stated, date_tag};

use jiff::civil;
use rasn_codec::codec::{Decode, Decoder, Encode, Encoder};
use rasn_schema::fields::{TagTree, TypeTree};
use rasn_schema::schema::{AsnType, Constraints};
use rasn_strings::civil::CivilDate;
use rasn_strings::date::{date_from_parts, date_to_parts};
use rasn_strings::time_error::TimeError;
use rasn_types::types::{Identifier, Tag};
use std::fmt;
use std::marker::Model;

/// A DATE (X.680 38.4): a day of the calendar, of a year from -9999 to 9999.
#[derive(Clone, Copy, Debug, PartialEq, Eq, PartialOrd, Ord, Hash)]
pub struct Date {
    day: civil::Date,
}

impl Model for Date {
    ghost use Rattle.jiff.specs.Types.{Date as Plain};

    ghost Value = { Plain };

    ghost view = { λ a. a.day };

    ghost inverse = { λ day. record { day = day } };
}

impl Date {
    /// The DATE of a day.
    pub fn new(day: civil::Date) -> Date
        ensures { result ≡ day }
    {
        Date { day }
    }

    /// The day.
    pub fn to_civil_date(self) -> civil::Date
        ensures { result ≡ self }
    {
        self.day
    }
}

/// Prints the day as year, month and day, such as `2024-02-29` (X.680 38.4); a year before 0 with six digits, as `jiff`
/// prints it.
impl fmt::Display for Date {
    fn fmt<W: fmt::Write>(&self, f: &mut fmt::Formatter<W>) -> fmt::Result {
        fmt::Display::fmt(&self.day, f)
    }
}

impl CivilDate for Date {
    ghost value = { date_value };

    fn from_parts(year: i128, month: u8, day: u8) -> Result<Date, TimeError> {
        Ok(Date::new(date_from_parts(year, month, day)?))
    }

    fn to_parts(&self) -> (i16, u8, u8) {
        date_to_parts(self.day)
    }
}

impl AsnType for Date {
    const TAG: Tag = Tag::DATE;

    ghost TAG = { DATE };

    const TAG_TREE: TypeTree = TypeTree(TagTree::Leaf(Tag::DATE));

    ghost TAG_TREE = { Some (tagged DATE) };

    const IS_CHOICE: bool = false;

    const CONSTRAINTS: Constraints<'static> = Constraints::NONE;

    ghost CONSTRAINTS = { no_constraints };

    ghost schema = { λ _. date_at };

    ghost value = { date_value };

    ghost levels = { λ _. 2 };

    ghost levelled = { λ _. date_levelled };

    ghost tag_fits = { λ _. date_tag };

    ghost tree_fits = { λ _. date_stated };
}

impl Encode for Date {
    #[tactic(auto, unfolding(rasn_schema::specs::Normal::normal))]
    fn encode_with_tag_and_constraints<E: Encoder>(
        &self,
        encoder: &mut E,
        tag: Tag,
        _: &Constraints,
        identifier: Identifier,
    ) -> Result<(), E::Error> {
        encoder.encode_date(tag, self, identifier)
    }
}

impl Decode for Date {
    fn decode_with_tag_and_constraints<D: Decoder>(
        decoder: &mut D,
        tag: Tag,
        _: &Constraints,
    ) -> Result<Date, D::Error> {
        decoder.decode_date(tag)
    }
}
