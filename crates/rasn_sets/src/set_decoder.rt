//! The call of every decoder that reads a SET by a function for each component (X.691 21).

ghost use Rattle.rasn_schema.specs.Extensions.{fields_after};
ghost use Rattle.rasn_sets.specs.Components.{GivesItem, GivesSet, ReadsSetEach, stated_set};

use crate::items::read_set;
use rasn_schema::fields::Constructed;
use rasn_traits::decoder::Decoder;
use rasn_types::types::Tag;

/// What every decoder reads of a SET by a function for each component.
pub trait SetDecoder: Decoder {
    /// Reads a SET (X.691 21) by two functions. `decode` reads the component of an index and a tag: each root component
    /// that is there, in ascending order of their smallest tags, and then each addition, there or not, in the order of
    /// the type; the indices of the additions are counted on from those of the root. `make` makes the SET of what
    /// `decode` answered, in the order of the calls; an error of its own says that memory ran out, under the variant in
    /// use. Refuses what `decode` refuses, and at no level left; takes memory for the order of the tags and for the
    /// answers.
    final fn decode_set<
        I: Drop,
        C: Constructed + Drop,
        D: Fn(&mut Self, usize, Tag) -> Result<I, Self::Error>,
        F: FnOnce(Vec<I>) -> Result<C, Self::Error>,
    >(&mut self, tag: Tag, decode: D, make: F) -> Result<C, Self::Error>
        requires decode { D.IsAlwaysCallable decode }
        requires make { F.IsAlwaysCallable make }
        ensures { ReadsSetEach Self.rules
            (stated_set C.FIELDS (fields_after C.EXTENDED_FIELDS) C.parts C.IS_EXTENSIBLE C.additions)
            C.contents C.added (GivesItem D.Fn decode) (GivesSet F.FnOnce (λ xs. xs.items) make)
            self.old result self.new }
    {
        let outside = self.open_set::<C>(tag)?;
        match read_set::<Self, I, C, D, F>(self, &decode, make) {
            Ok(value) => {
                self.close_sequence(outside)?;
                Ok(value)
            }
            Err(error) => {
                self.fail();
                Err(error)
            }
        }
    }
}

impl<D: Decoder> SetDecoder for D {}
