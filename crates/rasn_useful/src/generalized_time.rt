//! GeneralizedTime (X.680 46).

ghost use Rattle.std.specs.Prelude.{◌≡◌, refl, Some};
ghost use Rattle.rasn_types.specs.Contents.{generalized};
ghost use Rattle.rasn_types.specs.declared.types.TheConstants.Tag.{GENERALIZED_TIME};
ghost use Rattle.rasn_constraints.specs.Ranges.{no_constraints};
ghost use Rattle.rasn_schema.specs.Fields.{tagged};
ghost use Rattle.rasn_schema.specs.Forms.{always};
ghost use Rattle.rasn_schema.specs.Levels.{simple_levelled};
ghost use Rattle.rasn_schema.specs.Schemas.{Schema};
ghost use Rattle.rasn_strings.specs.Moments.{generalized_text};
ghost use Rattle.rasn_strings.specs.Values.{generalized_value};

use crate::moment::{write_fraction, write_moment};
use jiff::civil::DateTime;
use rasn_codec::codec::{Decode, Decoder, Encode, Encoder};
use rasn_schema::fields::{TagTree, TypeTree};
use rasn_schema::schema::{AsnType, Constraints};
use rasn_strings::civil::GeneralizedMoment;
use rasn_strings::generalized_time::{
    datetime_to_canonical_generalized_time_bytes, parse_canonical_generalized_time_string,
};
use rasn_strings::time_error::TimeError;
use rasn_types::types::{Identifier, Tag};
use std::alloc::Allocator;
use std::fmt;
use std::marker::Model;

/// A GeneralizedTime (X.680 46): a civil moment, meant in UTC.
#[derive(Clone, Copy, Debug, PartialEq, Eq, PartialOrd, Ord, Hash)]
pub struct GeneralizedTime {
    moment: DateTime,
}

impl Model for GeneralizedTime {
    ghost use Rattle.jiff.specs.Types.{DateTime as Plain};

    ghost Value = { Plain };

    ghost view = { λ a. a.moment };

    ghost inverse = { λ moment. record { moment = moment } };
}

impl GeneralizedTime {
    /// The time of a moment in UTC. A text can't hold every moment.
    pub fn new(moment: DateTime) -> GeneralizedTime
        ensures { result ≡ moment }
    {
        GeneralizedTime { moment }
    }

    /// The moment in UTC.
    pub fn to_datetime(self) -> DateTime
        ensures { result ≡ self }
    {
        self.moment
    }
}

/// Prints the time's text, YYYYMMDDhhmmss, a fraction if there is one, and Z (X.690 11.7); a moment of a year before 0
/// as `jiff` prints it.
impl fmt::Display for GeneralizedTime {
    fn fmt<W: fmt::Write>(&self, f: &mut fmt::Formatter<W>) -> fmt::Result {
        let year = self.moment.year();
        if year < 0 {
            return fmt::Display::fmt(&self.moment, f);
        }
        write!(f, "{year:04}")?;
        write_moment(f, self.moment)?;
        write_fraction(f, self.moment.subsec_nanosecond())?;
        f.write_str("Z")
    }
}

impl GeneralizedMoment for GeneralizedTime {
    ghost text = { generalized_text };

    fn to_canonical_generalized_time_bytes<A: Allocator>(
        &self,
        alloc: A,
    ) -> Result<Vec<u8, A>, TimeError> {
        datetime_to_canonical_generalized_time_bytes(alloc, self.moment)
    }

    fn parse_canonical_generalized_time_string(
        string: &[u8],
    ) -> Result<GeneralizedTime, TimeError> {
        Ok(GeneralizedTime::new(parse_canonical_generalized_time_string(string)?))
    }
}

impl AsnType for GeneralizedTime {
    const TAG: Tag = Tag::GENERALIZED_TIME;

    ghost TAG = { GENERALIZED_TIME };

    const TAG_TREE: TypeTree = TypeTree(TagTree::Leaf(Tag::GENERALIZED_TIME));

    ghost TAG_TREE = { Some (tagged GENERALIZED_TIME) };

    const IS_CHOICE: bool = false;

    const CONSTRAINTS: Constraints<'static> = Constraints::NONE;

    ghost CONSTRAINTS = { no_constraints };

    ghost schema = { λ _. always (Schema.time generalized) };

    ghost value = { generalized_value };

    ghost levelled = { λ _. simple_levelled (Schema.time generalized) tt };

    ghost tag_fits = { λ _ _. refl };

    ghost tree_fits = { λ _ _. (refl, refl) };
}

impl Encode for GeneralizedTime {
    #[tactic(auto, unfolding(rasn_schema::specs::Normal::normal))]
    fn encode_with_tag_and_constraints<E: Encoder>(
        &self,
        encoder: &mut E,
        tag: Tag,
        _: &Constraints,
        identifier: Identifier,
    ) -> Result<(), E::Error> {
        encoder.encode_generalized_time(tag, self, identifier)
    }
}

impl Decode for GeneralizedTime {
    fn decode_with_tag_and_constraints<D: Decoder>(
        decoder: &mut D,
        tag: Tag,
        _: &Constraints,
    ) -> Result<GeneralizedTime, D::Error> {
        decoder.decode_generalized_time(tag)
    }
}
