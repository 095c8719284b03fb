//! The trait of encoders.

ghost use Rattle.std.specs.Prelude.{◌≡◌, ℕ, suc, true};
ghost use Rattle.std.specs.Fn.{FnOnceReturnsAtMut};
ghost use Rattle.rasn_types.specs.Alphabets.{visible, ia5, printable, numeric, bmp};
ghost use Rattle.rasn_types.specs.Contents.{utf8, other, utc, generalized};
ghost use Rattle.rasn_types.specs.Values.{Side, truth, nothing, whole, octets, bits, characters};
ghost use Rattle.rasn_schema.specs.Orders.{canonised_at};
ghost use Rattle.rasn_schema.specs.Schemas.{Schema, by_tag, listed};
ghost use Rattle.rasn_schema.specs.Forms.{number_schema, octet_schema, bit_schema, named_bit_schema};
ghost use Rattle.rasn_schema.specs.Forms.{character_schema, size_of, is_size_marked};
ghost use Rattle.rasn_schema.specs.Normal.{normal};
ghost use Rattle.rasn_schema.specs.Records.{record_at};
ghost use Rattle.rasn_schema.specs.Structures.{record_value, tag_of};
ghost use Rattle.rasn_traits.specs.Absent.{WritesAbsent};
ghost use Rattle.rasn_traits.specs.Additions.{ClosesAddition, ClosesGroup, OpensAddition, SkipsAddition};
ghost use Rattle.rasn_traits.specs.Bags.{ClosesBag, OpensBag, WritesMember};
ghost use Rattle.rasn_traits.specs.Optionals.{GivesBit};
ghost use Rattle.rasn_traits.specs.Calls.{EncoderRules, without_memory, Writes, Encodes, PresentsWell};
ghost use Rattle.rasn_schema.specs.Choices.{choices_of};
ghost use Rattle.rasn_traits.specs.Choices.{ClosesAlternative, ClosesChoice, IsPlaceOf, OpensAlternative};
ghost use Rattle.rasn_traits.specs.Choices.{OpensChoice, WritesChoice};
ghost use Rattle.rasn_traits.specs.Contents.{ClosesContents, OpensContents};
ghost use Rattle.rasn_traits.specs.Lists.{Amid, OpensList, WritesNext, ClosesList};
ghost use Rattle.rasn_traits.specs.ListsInTurn.{AwaitsValues, ClosesBagInTurn, ClosesListInTurn, IsBeforeElement};
ghost use Rattle.rasn_traits.specs.ListsInTurn.{IsAfterElements, OpensBagInTurn, OpensListInTurn};
ghost use Rattle.rasn_traits.specs.ListsInTurn.{WritesMemberInTurn, WritesNextInTurn};
ghost use Rattle.rasn_traits.specs.Moments.{identifier_value};
ghost use Rattle.rasn_traits.specs.Reals.{WritesNoReal};
ghost use Rattle.rasn_traits.specs.Scopes.{OpensToWrite, ClosesInTurn, ClosesWritten, IsInTurn, WritesAround};
ghost use Rattle.rasn_traits.specs.Scopes.{deeper_of};
ghost use Rattle.rasn_traits.specs.Sets.{SetsWritten, WritesSet};

use crate::parts::{EncodeAdditions, EncodeParts};
use rasn_schema::choices::Choice;
use rasn_schema::enumerated::Enumerated;
use rasn_schema::fields::{AdditionGroup, Constructed};
use rasn_schema::items::Place;
use rasn_schema::schema::{Constraints, IntegerType};
use rasn_strings::civil::{CivilDate, GeneralizedMoment, UtcMoment};
use rasn_strings::strings::{
    BmpString, Ia5String, NumericString, PrintableString, StaticPermittedAlphabet, VisibleString,
};
use rasn_types::bit_string::BitString;
use rasn_types::octet_strings::{Any, GeneralString, GraphicString, TeletexString};
use rasn_types::types::{Codec, Identifier, Tag};

/// What writes values, one after another. Each call presents one value of one schema, or refuses it.
///
/// A refused encoder refuses from then on, and says so before anything else.
pub trait Encoder: Sized {
    type Error: Drop;

    /// What waits outside while a record is open.
    type Scope: Drop;

    /// What waits outside while the open type of an addition is open.
    type Addition: Drop;

    /// What waits outside while a choice is open.
    type Alternative: Drop;

    /// What waits outside while octets that contain a value are open.
    type Contents: Drop;

    /// What is left of an open list.
    type List: Drop;

    /// What was written of an open SET OF, and what waits outside.
    type Bag: Drop;

    // What is presented and refused, and what states and errors say.
    ghost rules: { EncoderRules Self.Error Self };

    // A scope is opened to write a schema: what was before, what waits outside, and how it is inside.
    ghost opens: { Schema → Self → Self.Scope → Self → Type 0 };

    // The same, where what comes in the scope isn't counted.
    ghost opens_fields: { Schema → Self → Self.Scope → Self → Type 0 };

    // The open type of the next addition is opened: what was before, what waits outside, and how it is inside.
    ghost opens_addition: { Self → Self.Addition → Self → Type 0 };

    // A choice is opened to write a schema: what was before, what waits outside, and how it is inside.
    ghost opens_choice: { Schema → Self → Self.Alternative → Self → Type 0 };

    // A choice is opened to write the alternative at a place: what was before, what waits outside, and how it is
    // inside.
    ghost opens_alternative: { Schema → Side → ℕ → Self → Self.Alternative → Self → Type 0 };

    // Octets that are to contain a value are opened: what was before, what waits outside, and how it is inside.
    ghost opens_contents: { Self → Self.Contents → Self → Type 0 };

    // A list is open: which one, what was before it, its elements still to be written, what is left of it, and now.
    ghost amid: { Amid Self Self.List };

    // The same, where what comes in the list isn't counted.
    ghost amid_elements: { Amid Self Self.List };

    // A SET OF is open: which one, what was before it, its members still to be written, what is kept of it, and now.
    ghost amid_bag: { Amid Self Self.Bag };

    // The same, where what comes in the SET OF isn't counted.
    ghost amid_members: { Amid Self Self.Bag };

    // In an open list or SET OF, which counts what comes: so many values are to come before the next call of it.
    ghost awaits_values: { AwaitsValues Self };

    /// The variant in use.
    fn codec(&self) -> Codec
        ensures { result ≡ rules.codec self.now };

    /// Writes a BOOLEAN, one bit (X.691 12).
    fn encode_bool(
        &mut self,
        tag: Tag,
        value: bool,
        identifier: Identifier,
    ) -> Result<(), Self::Error>
        ensures { Writes rules Schema.boolean (truth value) self.old result self.new };

    /// Writes an INTEGER under constraints (X.691 13).
    fn encode_integer<I: IntegerType>(
        &mut self,
        tag: Tag,
        constraints: &Constraints,
        value: &I,
        identifier: Identifier,
    ) -> Result<(), Self::Error>
        ensures { Writes rules (number_schema constraints.now I.range) (whole (I.number value.now))
            self.old result self.new };

    /// Refuses a REAL (X.691 15): it isn't supported. Takes no memory.
    fn encode_real(
        &mut self,
        tag: Tag,
        constraints: &Constraints,
        identifier: Identifier,
    ) -> Result<(), Self::Error>
        ensures { WritesNoReal rules self.old result self.new };

    /// Refuses a value that is absent where one is asked for (X.680 25.6), whatever its type. Takes no memory.
    fn encode_absent(&mut self, tag: Tag, identifier: Identifier) -> Result<(), Self::Error>
        ensures { WritesAbsent rules self.old result self.new };

    /// Writes a NULL, no bits (X.691 18). Takes no memory.
    fn encode_null(&mut self, tag: Tag, identifier: Identifier) -> Result<(), Self::Error>
        ensures { Writes (without_memory rules) Schema.null nothing self.old result self.new };

    /// Writes an item of an ENUMERATED (X.691 14).
    fn encode_enumerated<E: Enumerated>(
        &mut self,
        tag: Tag,
        value: &E,
        identifier: Identifier,
    ) -> Result<(), Self::Error>
        ensures { Writes rules (Schema.items E.roots E.addeds E.EXTENSIBLE) (E.value value.now)
            self.old result self.new };

    /// Writes the octets of a value whose type isn't known, after an unconstrained length in octets (X.691 11.2).
    fn encode_any(
        &mut self,
        tag: Tag,
        value: &Any,
        identifier: Identifier,
    ) -> Result<(), Self::Error>
        ensures { Writes rules Schema.any (octets value.now) self.old result self.new };

    /// Writes an OCTET STRING under constraints, of which the size counts octets (X.691 17).
    fn encode_octet_string(
        &mut self,
        tag: Tag,
        constraints: &Constraints,
        value: &[u8],
        identifier: Identifier,
    ) -> Result<(), Self::Error>
        ensures { Writes rules (octet_schema constraints.now) (octets value.now) self.old result self.new };

    /// Writes a BIT STRING under constraints, of which the size counts bits (X.691 16).
    fn encode_bit_string(
        &mut self,
        tag: Tag,
        constraints: &Constraints,
        value: &BitString,
        identifier: Identifier,
    ) -> Result<(), Self::Error>
        ensures { Writes rules (bit_schema constraints.now) (bits value.now) self.old result self.new };

    /// Writes a BIT STRING under constraints whose bits have names: without the zero bits at its end, and then with
    /// zero bits up to the size's lower bound (X.680 22.7; X.691 16.2). The size counts these bits.
    fn encode_named_bits(
        &mut self,
        tag: Tag,
        constraints: &Constraints,
        value: &BitString,
        identifier: Identifier,
    ) -> Result<(), Self::Error>
        ensures { let schema = named_bit_schema constraints.now in
            Writes rules schema (normal schema (bits value.now)) self.old result self.new };

    /// Writes a string of a known-multiplier type under constraints: of each character its code among those that the
    /// type and its permitted alphabet leave (X.691 30.5). The size counts characters.
    fn encode_known_multiplier_string<S: StaticPermittedAlphabet>(
        &mut self,
        tag: Tag,
        constraints: &Constraints,
        value: &S,
        identifier: Identifier,
    ) -> Result<(), Self::Error>
        ensures { Writes rules (character_schema S.alphabet constraints.now) (characters (S.characters value.now))
            self.old result self.new };

    /// Writes a UTF8String: its octets after an unconstrained length. No constraint is visible (X.691 30.6).
    fn encode_utf8_string(
        &mut self,
        tag: Tag,
        constraints: &Constraints,
        value: &str,
        identifier: Identifier,
    ) -> Result<(), Self::Error>
        ensures { Writes rules (Schema.text utf8) (octets value.now) self.old result self.new };

    /// Writes a GeneralString: its octets after an unconstrained length. No constraint is visible (X.691 30.6).
    fn encode_general_string(
        &mut self,
        tag: Tag,
        constraints: &Constraints,
        value: &GeneralString,
        identifier: Identifier,
    ) -> Result<(), Self::Error>
        ensures { Writes rules (Schema.text other) (octets value.now) self.old result self.new };

    /// Writes a GraphicString: its octets after an unconstrained length. No constraint is visible (X.691 30.6).
    fn encode_graphic_string(
        &mut self,
        tag: Tag,
        constraints: &Constraints,
        value: &GraphicString,
        identifier: Identifier,
    ) -> Result<(), Self::Error>
        ensures { Writes rules (Schema.text other) (octets value.now) self.old result self.new };

    /// Writes a TeletexString: its octets after an unconstrained length. No constraint is visible (X.691 30.6).
    fn encode_teletex_string(
        &mut self,
        tag: Tag,
        constraints: &Constraints,
        value: &TeletexString,
        identifier: Identifier,
    ) -> Result<(), Self::Error>
        ensures { Writes rules (Schema.text other) (octets value.now) self.old result self.new };

    /// Writes an OBJECT IDENTIFIER by its arcs: its contents octets (X.690 8.19) after an unconstrained length (X.691
    /// 24). Arcs that name no object are refused.
    fn encode_object_identifier(
        &mut self,
        tag: Tag,
        value: &[u32],
        identifier: Identifier,
    ) -> Result<(), Self::Error>
        ensures { Writes rules Schema.identifier (identifier_value value.now) self.old result self.new };

    /// Writes a UTCTime by its moment in UTC: its canonical text (X.690 11.8) as a VisibleString without constraints
    /// (X.691 30). A moment that the text can't hold is refused.
    fn encode_utc_time<M: UtcMoment>(
        &mut self,
        tag: Tag,
        value: &M,
        identifier: Identifier,
    ) -> Result<(), Self::Error>
        ensures { Writes rules (Schema.time utc) (characters (M.text value.now)) self.old result self.new };

    /// Writes a GeneralizedTime by its moment in UTC: its canonical text (X.690 11.7) as a VisibleString without
    /// constraints (X.691 30). A moment that the text can't hold is refused.
    fn encode_generalized_time<M: GeneralizedMoment>(
        &mut self,
        tag: Tag,
        value: &M,
        identifier: Identifier,
    ) -> Result<(), Self::Error>
        ensures { Writes rules (Schema.time generalized) (characters (M.text value.now))
            self.old result self.new };

    /// Writes a DATE (X.691 32): its year, as one of a range where one of three holds it, its month and its day.
    fn encode_date<D: CivilDate>(
        &mut self,
        tag: Tag,
        value: &D,
        identifier: Identifier,
    ) -> Result<(), Self::Error>
        ensures { Writes rules Schema.date (D.value value.now) self.old result self.new };

    /// Opens a SEQUENCE (X.691 19): the calls from here to `close_sequence` write its root components, in the order of
    /// `FIELDS`, and then give its additions, in the order of `EXTENDED_FIELDS`.
    fn open_sequence<C: Constructed>(
        &mut self,
        tag: Tag,
        identifier: Identifier,
    ) -> Result<Self::Scope, Self::Error>
        ensures { OpensToWrite rules opens listed C.parts C.IS_EXTENSIBLE C.additions self.old result self.new };

    /// Closes a SEQUENCE in which its components were written and its additions given. Where one wasn't, or one too
    /// many was, it refuses.
    fn close_sequence<C: Constructed>(&mut self, scope: Self::Scope) -> Result<(), Self::Error>
        ensures { ClosesInTurn rules opens listed C.parts C.IS_EXTENSIBLE C.additions scope
            self.old result self.new };

    /// Opens a SEQUENCE as `open_sequence` does, but for `close_fields` alone: what is written in it isn't counted.
    fn open_fields<C: Constructed>(
        &mut self,
        tag: Tag,
        identifier: Identifier,
    ) -> Result<Self::Scope, Self::Error>
        ensures { OpensToWrite rules opens_fields listed C.parts C.IS_EXTENSIBLE C.additions self.old result self.new };

    /// Closes a SEQUENCE that `open_fields` opened. The caller shows that each component was written as it is listed,
    /// and each addition given, so that nothing need be counted.
    fn close_fields<C: Constructed>(&mut self, scope: Self::Scope) -> Result<(), Self::Error>
        requires in_turn { IsInTurn rules opens_fields listed C.parts C.IS_EXTENSIBLE C.additions scope self.old }
        ensures { ClosesWritten rules opens_fields listed C.parts C.IS_EXTENSIBLE C.additions scope
            self.old result self.new };

    /// Opens a SET (X.691 21): the calls from here to `close_components` write its root components, in the order of
    /// `FIELDS`, and then give its additions, in the order of `EXTENDED_FIELDS`. The root components come to be in
    /// ascending order of their smallest tags.
    fn open_components<C: Constructed>(
        &mut self,
        tag: Tag,
        identifier: Identifier,
    ) -> Result<Self::Scope, Self::Error>
        ensures { OpensToWrite rules opens by_tag C.parts C.IS_EXTENSIBLE C.additions self.old result self.new };

    /// Closes a SET in which each component was written and each addition given; where one wasn't, or more, it refuses.
    fn close_components<C: Constructed>(&mut self, scope: Self::Scope) -> Result<(), Self::Error>
        ensures { ClosesInTurn rules opens by_tag C.parts C.IS_EXTENSIBLE C.additions scope
            self.old result self.new };

    /// Opens a SET (X.691 21): the calls from here to `close_set` write its root components, in ascending order of
    /// their smallest tags, and then give its additions, in the order of `EXTENDED_FIELDS`. Nothing is moved then.
    fn open_set<C: Constructed>(
        &mut self,
        tag: Tag,
        identifier: Identifier,
    ) -> Result<Self::Scope, Self::Error>
        ensures { OpensToWrite rules opens listed (canonised_at C.parts) C.IS_EXTENSIBLE C.additions
            self.old result self.new };

    /// Closes a SET in which its components were written and its additions given. Where one wasn't, or one too many
    /// was, it refuses.
    fn close_set<C: Constructed>(&mut self, scope: Self::Scope) -> Result<(), Self::Error>
        ensures { ClosesInTurn rules opens listed (canonised_at C.parts) C.IS_EXTENSIBLE C.additions scope
            self.old result self.new };

    /// Opens a CHOICE (X.691 23): the calls from here to `close_choice` write the value of its alternative.
    fn open_choice<C: Choice>(
        &mut self,
        tag: Tag,
        identifier: Identifier,
    ) -> Result<Self::Alternative, Self::Error>
        ensures { OpensChoice rules opens_choice (choices_of C.alternatives C.EXTENDED_VARIANTS C.added)
            self.old result self.new };

    /// Closes a CHOICE in which the value of an alternative was written, by the tag that this goes by: one of the root,
    /// or one after the extension marker, which is in an open type (X.691 23.8). A tag by which none goes is
    /// refused, and so is a CHOICE in which no value was written, or more than one.
    fn close_choice<C: Choice>(
        &mut self,
        alternative: Self::Alternative,
        chosen: Tag,
    ) -> Result<(), Self::Error>
        ensures { ClosesChoice rules opens_choice (choices_of C.alternatives C.EXTENDED_VARIANTS C.added) C.VARIANTS
            C.EXTENDED_VARIANTS alternative (tag_of chosen) self.old result self.new };

    /// Opens a CHOICE (X.691 23) to write the alternative at a place: the calls from here to `close_alternative` write
    /// its value.
    fn open_alternative<C: Choice>(
        &mut self,
        tag: Tag,
        place: Place,
        identifier: Identifier,
    ) -> Result<Self::Alternative, Self::Error>
        requires { IsPlaceOf C.VARIANTS C.EXTENDED_VARIANTS place }
        ensures { OpensAlternative rules opens_alternative (choices_of C.alternatives C.EXTENDED_VARIANTS C.added) place
            self.old result self.new };

    /// Closes a CHOICE that was opened to write the alternative at a place. Where no value was written, or more than
    /// one, it refuses.
    fn close_alternative(&mut self, alternative: Self::Alternative) -> Result<(), Self::Error>
        ensures { ClosesAlternative rules opens_alternative alternative self.old result self.new };

    /// Opens octets that contain a value (X.682 11; X.691 11.2): the calls from here to `close_contents` write it, by
    /// itself.
    fn open_contents(
        &mut self,
        tag: Tag,
        identifier: Identifier,
    ) -> Result<Self::Contents, Self::Error>
        ensures { OpensContents rules opens_contents self.old result self.new };

    /// Closes octets in which one value was written: they are its complete encoding (X.691 11.1), after an
    /// unconstrained length. Where none was written, or more than one, it refuses.
    fn close_contents(&mut self, contents: Self::Contents) -> Result<(), Self::Error>
        ensures { ClosesContents rules opens_contents contents self.old result self.new };

    /// Gives the presence bit of the next component of the open SEQUENCE that has one (X.691 19.2). Takes no memory.
    fn set_presence(&mut self, is_there: bool) -> Result<(), Self::Error>
        ensures { GivesBit rules is_there self.old result self.new };

    /// Gives the next addition of the open SEQUENCE as absent, or at its default (X.691 19.9).
    fn skip_addition(&mut self) -> Result<(), Self::Error>
        ensures { SkipsAddition rules self.old result self.new };

    /// Opens the open type of the next addition (X.691 11.2, 19.9): the calls from here to `close_addition` or
    /// `close_group` write its value, by itself.
    fn open_addition(&mut self) -> Result<Self::Addition, Self::Error>
        ensures { OpensAddition rules opens_addition self.old result self.new };

    /// Closes an open type in which one value was written. Where none was, or more than one, it refuses.
    fn close_addition(&mut self, addition: Self::Addition) -> Result<(), Self::Error>
        ensures { ClosesAddition rules opens_addition addition self.old result self.new };

    /// Closes an open type in which an addition group was written: one that holds nothing is given as absent
    /// (X.691 19.9). Where none was written, or more than one, it refuses.
    fn close_group<C: AdditionGroup>(&mut self, addition: Self::Addition) -> Result<(), Self::Error>
        ensures { ClosesGroup rules opens_addition (C.schema C.CONSTRAINTS) addition self.old result self.new };

    /// Opens a SEQUENCE OF under constraints (X.691 20): so many elements follow, each behind a call of `next_element`,
    /// up to `close_list`. A count outside a size that isn't extensible is refused.
    fn open_list(
        &mut self,
        tag: Tag,
        constraints: &Constraints,
        count: usize,
        identifier: Identifier,
    ) -> Result<Self::List, Self::Error>
        ensures { OpensListInTurn rules awaits_values amid (size_of constraints.now) (is_size_marked constraints.now)
            count self.old result self.new };

    /// Goes on to the next element of an open list: where a fragment begins, its length is written. Where the element
    /// before it wasn't written, or anything else was, or none is left, it refuses.
    fn next_element(&mut self, list: &mut Self::List) -> Result<(), Self::Error>
        ensures { WritesNextInTurn rules awaits_values amid list.old self.old result list.new self.new };

    /// Closes a list in which its elements were written: where a last length is due, it is written. Where one wasn't
    /// written, or anything else was, it refuses.
    fn close_list(&mut self, list: Self::List) -> Result<(), Self::Error>
        ensures { ClosesListInTurn rules awaits_values amid list self.old result self.new };

    /// Opens a SEQUENCE OF as `open_list` does, but for `next_element_in_turn` and `close_elements` alone: what is
    /// written in it isn't counted.
    fn open_elements(
        &mut self,
        tag: Tag,
        constraints: &Constraints,
        count: usize,
        identifier: Identifier,
    ) -> Result<Self::List, Self::Error>
        ensures { OpensList rules amid_elements (size_of constraints.now) (is_size_marked constraints.now) count
            self.old result self.new };

    /// Goes on to the next element of a list that `open_elements` opened, as `next_element` does. The caller shows that
    /// each element before it was written, and that it is one of the list, so that nothing need be counted.
    fn next_element_in_turn(&mut self, list: &mut Self::List) -> Result<(), Self::Error>
        requires in_turn { IsBeforeElement amid_elements list.old self.old }
        ensures { WritesNext rules amid_elements list.old self.old result list.new self.new };

    /// Closes a list that `open_elements` opened, as `close_list` does. The caller shows that its elements were
    /// written.
    fn close_elements(&mut self, list: Self::List) -> Result<(), Self::Error>
        requires in_turn { IsAfterElements amid_elements list self.old }
        ensures { ClosesList rules amid_elements list self.old result self.new };

    /// Opens a SET OF under constraints (X.691 22): so many members follow, each behind a call of `next_member`, up to
    /// `close_set_of`, in whatever order. A count outside a size that isn't extensible is refused.
    fn open_set_of(
        &mut self,
        tag: Tag,
        constraints: &Constraints,
        count: usize,
        identifier: Identifier,
    ) -> Result<Self::Bag, Self::Error>
        ensures { OpensBagInTurn rules awaits_values amid_bag (size_of constraints.now) (is_size_marked constraints.now)
            count self.old result self.new };

    /// Goes on to the next member of an open SET OF, which is written by itself. Where the member before it wasn't
    /// written, or anything else was, or none is left, it refuses.
    fn next_member(&mut self, bag: &mut Self::Bag) -> Result<(), Self::Error>
        ensures { WritesMemberInTurn rules awaits_values amid_bag bag.old self.old result bag.new self.new };

    /// Closes a SET OF in which its members were written: they are in ascending order of their complete encodings.
    /// Where one wasn't written, or anything else was, it refuses.
    fn close_set_of(&mut self, bag: Self::Bag) -> Result<(), Self::Error>
        ensures { ClosesBagInTurn rules awaits_values amid_bag bag self.old result self.new };

    /// Opens a SET OF as `open_set_of` does, but for `next_member_in_turn` and `close_members` alone: what is written
    /// in it isn't counted.
    fn open_members(
        &mut self,
        tag: Tag,
        constraints: &Constraints,
        count: usize,
        identifier: Identifier,
    ) -> Result<Self::Bag, Self::Error>
        ensures { OpensBag rules amid_members (size_of constraints.now) (is_size_marked constraints.now) count
            self.old result self.new };

    /// Goes on to the next member of a SET OF that `open_members` opened, as `next_member` does. The caller shows that
    /// each member before it was written, and that it is one of the SET OF, so that nothing need be counted.
    fn next_member_in_turn(&mut self, bag: &mut Self::Bag) -> Result<(), Self::Error>
        requires in_turn { IsBeforeElement amid_members bag.old self.old }
        ensures { WritesMember rules amid_members bag.old self.old result bag.new self.new };

    /// Closes a SET OF that `open_members` opened, as `close_set_of` does. The caller shows that its members were
    /// written.
    fn close_members(&mut self, bag: Self::Bag) -> Result<(), Self::Error>
        requires in_turn { IsAfterElements amid_members bag self.old }
        ensures { ClosesBag rules amid_members bag self.old result self.new };

    /// Refuses from now on.
    fn fail(&mut self)
        ensures fails { rules.failed self.new ≡ true }
        ensures kept { rules.codec self.new ≡ rules.codec self.old };

    /// Writes a VisibleString under constraints (X.691 30.5).
    final fn encode_visible_string(
        &mut self,
        tag: Tag,
        constraints: &Constraints,
        value: &VisibleString,
        identifier: Identifier,
    ) -> Result<(), Self::Error>
        ensures { Writes rules (character_schema visible constraints.now) (characters value.now)
            self.old result self.new }
    {
        self.encode_known_multiplier_string(tag, constraints, value, identifier)
    }

    /// Writes an IA5String under constraints (X.691 30.5).
    final fn encode_ia5_string(
        &mut self,
        tag: Tag,
        constraints: &Constraints,
        value: &Ia5String,
        identifier: Identifier,
    ) -> Result<(), Self::Error>
        ensures { Writes rules (character_schema ia5 constraints.now) (characters value.now) self.old result self.new }
    {
        self.encode_known_multiplier_string(tag, constraints, value, identifier)
    }

    /// Writes a PrintableString under constraints (X.691 30.5).
    final fn encode_printable_string(
        &mut self,
        tag: Tag,
        constraints: &Constraints,
        value: &PrintableString,
        identifier: Identifier,
    ) -> Result<(), Self::Error>
        ensures { Writes rules (character_schema printable constraints.now) (characters value.now)
            self.old result self.new }
    {
        self.encode_known_multiplier_string(tag, constraints, value, identifier)
    }

    /// Writes a NumericString under constraints (X.691 30.5).
    final fn encode_numeric_string(
        &mut self,
        tag: Tag,
        constraints: &Constraints,
        value: &NumericString,
        identifier: Identifier,
    ) -> Result<(), Self::Error>
        ensures { Writes rules (character_schema numeric constraints.now) (characters value.now)
            self.old result self.new }
    {
        self.encode_known_multiplier_string(tag, constraints, value, identifier)
    }

    /// Writes a BMPString under constraints (X.691 30.5).
    final fn encode_bmp_string(
        &mut self,
        tag: Tag,
        constraints: &Constraints,
        value: &BmpString,
        identifier: Identifier,
    ) -> Result<(), Self::Error>
        ensures { Writes rules (character_schema bmp constraints.now) (characters value.now) self.old result self.new }
    {
        self.encode_known_multiplier_string(tag, constraints, value, identifier)
    }

    /// Writes a SEQUENCE (X.691 19). `scope` writes its root components, in the order of `FIELDS`, and then gives its
    /// additions, in the order of `EXTENDED_FIELDS`.
    final fn encode_sequence<
        C: Constructed,
        F: FnOnce(&mut Self) -> Result<(), Self::Error>,
        I: Into<Identifier>,
    >(&mut self, tag: Tag, scope: F, identifier: I) -> Result<(), Self::Error>
        requires { F.IsAlwaysCallable scope }
        ensures { WritesAround rules listed C.parts C.IS_EXTENSIBLE C.additions
            (FnOnceReturnsAtMut F.FnOnce scope) self.old result self.new }
    {
        let outside = self.open_sequence::<C>(tag, identifier.into())?;
        if let Err(error) = scope(self) {
            self.fail();
            return Err(error);
        }
        self.close_sequence::<C>(outside)
    }

    /// Writes a SET (X.691 21). `scope` writes its root components, in the order of `FIELDS`, and then gives its
    /// additions, in the order of `EXTENDED_FIELDS`. The root components come to be in ascending order of their
    /// smallest tags.
    final fn encode_set<
        C: Constructed,
        F: FnOnce(&mut Self) -> Result<(), Self::Error>,
        I: Into<Identifier>,
    >(&mut self, tag: Tag, scope: F, identifier: I) -> Result<(), Self::Error>
        requires { F.IsAlwaysCallable scope }
        ensures { WritesAround rules by_tag C.parts C.IS_EXTENSIBLE C.additions
            (FnOnceReturnsAtMut F.FnOnce scope) self.old result self.new }
    {
        let outside = self.open_components::<C>(tag, identifier.into())?;
        if let Err(refused) = scope(self) {
            self.fail();
            return Err(refused);
        }
        self.close_components::<C>(outside)
    }

    /// Writes a SET (X.691 21). `scope` writes its root components, in ascending order of their smallest tags, and then
    /// gives its additions, in the order of `EXTENDED_FIELDS`. It takes less time than `encode_set`, since nothing is
    /// moved.
    final fn encode_set_in_order<
        C: Constructed,
        F: FnOnce(&mut Self) -> Result<(), Self::Error>,
        I: Into<Identifier>,
    >(&mut self, tag: Tag, scope: F, identifier: I) -> Result<(), Self::Error>
        requires { F.IsAlwaysCallable scope }
        ensures { WritesSet rules C.parts C.IS_EXTENSIBLE C.additions (FnOnceReturnsAtMut F.FnOnce scope)
            self.old result self.new }
    {
        let outside = self.open_set::<C>(tag, identifier.into())?;
        if let Err(refusal) = scope(self) {
            self.fail();
            return Err(refusal);
        }
        self.close_set::<C>(outside)
    }

    /// Writes a CHOICE (X.691 23). `scope` writes the value of an alternative, and answers the tag that this goes by:
    /// its own, or the smallest of a nested untagged choice.
    final fn encode_choice<
        C: Choice,
        F: FnOnce(&mut Self) -> Result<Tag, Self::Error>,
        I: Into<Identifier>,
    >(
        &mut self,
        _constraints: &Constraints,
        tag: Tag,
        scope: F,
        identifier: I,
    ) -> Result<(), Self::Error>
        requires { F.IsAlwaysCallable scope }
        ensures { WritesChoice rules (choices_of C.alternatives C.EXTENDED_VARIANTS C.added) C.VARIANTS
            C.EXTENDED_VARIANTS (FnOnceReturnsAtMut F.FnOnce scope) self.old result self.new }
    {
        let outside = self.open_choice::<C>(tag, identifier.into())?;
        match scope(self) {
            Ok(chosen) => self.close_choice::<C>(outside, chosen),
            Err(error) => {
                self.fail();
                Err(error)
            }
        }
    }

    /// Writes a SEQUENCE (X.691 19) by the lists of its root components, which are in the order of `FIELDS`, and of
    /// its additions, which are in the order of `EXTENDED_FIELDS`.
    final fn encode_record<C: Constructed, P: EncodeParts, Q: EncodeAdditions, I: Into<Identifier>>(
        &mut self,
        tag: Tag,
        parts: &P,
        additions: &Q,
        identifier: I,
    ) -> Result<(), Self::Error>
        requires root { (n : ℕ) → C.parts n ≡ P.parts parts.now n }
        requires behind { (n : ℕ) → C.additions n ≡ Q.additions additions.now n }
        ensures { Encodes rules (record_at listed C.parts C.IS_EXTENSIBLE C.additions)
            (suc (deeper_of (P.levels parts.now) (Q.levels additions.now)))
            (record_value (P.contents parts.now) (Q.contents additions.now)) self.old result self.new }
    {
        let outside = self.open_fields::<C>(tag, identifier.into())?;
        parts.encode_parts(self)?;
        additions.encode_additions(self)?;
        self.close_fields::<C>(outside)
    }

    // What holds of each encoder's relations.
    ghost lawful: { PresentsWell rules };

    // What holds of each encoder's SETs.
    ghost sets: { SetsWritten rules };
}
