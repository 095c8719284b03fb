//! UTCTime (X.680 47).

ghost use Rattle.std.specs.Prelude.{◌≡◌, refl, Some};
ghost use Rattle.rasn_types.specs.Contents.{utc};
ghost use Rattle.rasn_types.specs.declared.types.TheConstants.Tag.{UTC_TIME};
ghost use Rattle.rasn_constraints.specs.Ranges.{no_constraints};
ghost use Rattle.rasn_schema.specs.Fields.{tagged};
ghost use Rattle.rasn_schema.specs.Forms.{always};
ghost use Rattle.rasn_schema.specs.Levels.{simple_levelled};
ghost use Rattle.rasn_schema.specs.Schemas.{Schema};
ghost use Rattle.rasn_strings.specs.Moments.{utc_text};
ghost use Rattle.rasn_strings.specs.Values.{utc_value};

use crate::moment::write_moment;
use jiff::civil::DateTime;
use rasn_codec::codec::{Decode, Decoder, Encode, Encoder};
use rasn_schema::fields::{TagTree, TypeTree};
use rasn_schema::schema::{AsnType, Constraints};
use rasn_strings::civil::UtcMoment;
use rasn_strings::time_error::TimeError;
use rasn_strings::utc_time::{
    datetime_to_canonical_utc_time_bytes, parse_canonical_utc_time_string,
};
use rasn_types::types::{Identifier, Tag};
use std::alloc::Allocator;
use std::fmt;
use std::marker::Model;

/// A UTCTime (X.680 47): a civil moment, meant in UTC.
#[derive(Clone, Copy, Debug, PartialEq, Eq, PartialOrd, Ord, Hash)]
pub struct UtcTime {
    moment: DateTime,
}

impl Model for UtcTime {
    ghost use Rattle.jiff.specs.Types.{DateTime as Plain};

    ghost Value = { Plain };

    ghost view = { λ a. a.moment };

    ghost inverse = { λ moment. record { moment = moment } };
}

impl UtcTime {
    /// The time of a moment in UTC. A text can't hold every moment.
    pub fn new(moment: DateTime) -> UtcTime
        ensures { result ≡ moment }
    {
        UtcTime { moment }
    }

    /// The moment in UTC.
    pub fn to_datetime(self) -> DateTime
        ensures { result ≡ self }
    {
        self.moment
    }
}

/// Prints the time's text, YYMMDDhhmmssZ (X.690 11.8); a moment that it can't hold as `jiff` prints it.
impl fmt::Display for UtcTime {
    fn fmt<W: fmt::Write>(&self, f: &mut fmt::Formatter<W>) -> fmt::Result {
        let year = self.moment.year();
        if year < 1950 || year > 2049 || self.moment.subsec_nanosecond() != 0 {
            return fmt::Display::fmt(&self.moment, f);
        }
        let short = year % 100;
        write!(f, "{short:02}")?;
        write_moment(f, self.moment)?;
        f.write_str("Z")
    }
}

impl UtcMoment for UtcTime {
    ghost text = { utc_text };

    fn to_canonical_utc_time_bytes<A: Allocator>(&self, alloc: A) -> Result<Vec<u8, A>, TimeError> {
        datetime_to_canonical_utc_time_bytes(alloc, self.moment)
    }

    fn parse_canonical_utc_time_string(string: &[u8]) -> Result<UtcTime, TimeError> {
        Ok(UtcTime::new(parse_canonical_utc_time_string(string)?))
    }
}

impl AsnType for UtcTime {
    const TAG: Tag = Tag::UTC_TIME;

    ghost TAG = { UTC_TIME };

    const TAG_TREE: TypeTree = TypeTree(TagTree::Leaf(Tag::UTC_TIME));

    ghost TAG_TREE = { Some (tagged UTC_TIME) };

    const IS_CHOICE: bool = false;

    const CONSTRAINTS: Constraints<'static> = Constraints::NONE;

    ghost CONSTRAINTS = { no_constraints };

    ghost schema = { λ _. always (Schema.time utc) };

    ghost value = { utc_value };

    ghost levelled = { λ _. simple_levelled (Schema.time utc) tt };

    ghost tag_fits = { λ _ _. refl };

    ghost tree_fits = { λ _ _. (refl, refl) };
}

impl Encode for UtcTime {
    #[tactic(auto, unfolding(rasn_schema::specs::Normal::normal))]
    fn encode_with_tag_and_constraints<E: Encoder>(
        &self,
        encoder: &mut E,
        tag: Tag,
        _: &Constraints,
        identifier: Identifier,
    ) -> Result<(), E::Error> {
        encoder.encode_utc_time(tag, self, identifier)
    }
}

impl Decode for UtcTime {
    fn decode_with_tag_and_constraints<D: Decoder>(
        decoder: &mut D,
        tag: Tag,
        _: &Constraints,
    ) -> Result<UtcTime, D::Error> {
        decoder.decode_utc_time(tag)
    }
}
