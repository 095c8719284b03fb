//! CHOICE (X.691 23): the open type of an alternative after the extension marker, and the tag at a place.

ghost use Rattle.std.specs.Prelude.{◌≡◌, slice_get, Some};
ghost use Rattle.rasn_schema.specs.Choices.{go_by, variants_on};
ghost use Rattle.rasn_schema.specs.Structures.{tag_of};
ghost use Rattle.rasn_traits.specs.Choices.{IsPlaceOf, index_in, side_of};
ghost use Rattle.per_decoding.specs.ChoiceIndexes.{index_of};
ghost use Rattle.per_de.specs.Outsides.{outside_addition_of};
ghost use Rattle.per_de.specs.Steps.{ClosesContents, EntersAlternative, EntersOpen};

use crate::{Addition, Decoder};
use per_read::error::DecodeError;
use rasn_schema::choices::Choice;
use rasn_schema::items::Place;
use rasn_types::types::Tag;

impl<'input> Decoder<'input> {
    /// Enters the open type of an alternative that is after the extension marker (X.691 23.8), and answers what
    /// waits outside it. One of the root has none.
    #[inline(always)]
    pub(crate) fn open_alternative(
        &mut self,
        place: Place,
    ) -> Result<Option<Addition<'input>>, DecodeError>
        ensures { EntersAlternative (index_of place).0 self.old result self.new }
    {
        match place {
            Place::Root(_) => Ok(None),
            Place::Added(_) => Ok(Some(self.enter_added()?)),
        }
    }

    /// Enters the open type of an alternative after the extension marker, and answers what waits outside it.
    #[inline(never)]
    fn enter_added(&mut self) -> Result<Addition<'input>, DecodeError>
        ensures { EntersOpen self.old result self.new }
    {
        self.enter_open_type()
    }

    /// Leaves the open type of an alternative after the extension marker.
    #[inline(never)]
    pub(crate) fn close_added(&mut self, contents: Addition<'input>) -> Result<(), DecodeError>
        ensures { ClosesContents (outside_addition_of self.old.source contents.entry) self.old result self.new }
    {
        self.close_open_type(contents)
    }
}

/// The tag by which the alternative at a place goes.
pub(crate) fn tag_at<C: Choice>(place: Place) -> Tag
    requires { IsPlaceOf C.VARIANTS C.EXTENDED_VARIANTS place }
    ensures { slice_get (go_by (variants_on (side_of place) C.VARIANTS C.EXTENDED_VARIANTS)) (index_in place)
        ≡ Some (tag_of result) }
{
    match place {
        Place::Root(index) => C::VARIANTS.tag_at(index),
        Place::Added(index) => C::EXTENDED_VARIANTS.unwrap().tag_at(index),
    }
}
