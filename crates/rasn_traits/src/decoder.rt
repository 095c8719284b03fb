//! The trait of decoders.

ghost use Rattle.std.specs.Prelude.{◌≡◌, ◌↔◌, ℕ, Bool, suc, true, false, length, IfOk, []};
ghost use Rattle.std.specs.Fn.{FnOnceReturnsAtMut};
ghost use Rattle.std.specs.String.{string_bytes};
ghost use Rattle.rasn_types.specs.Alphabets.{visible, ia5, printable, numeric, bmp};
ghost use Rattle.rasn_types.specs.Contents.{utf8, other, utc, generalized};
ghost use Rattle.rasn_types.specs.Values.{Side, truth, nothing, whole, octets, bits, characters};
ghost use Rattle.rasn_constraints.specs.Bounds.{Size};
ghost use Rattle.rasn_schema.specs.Orders.{canonised_at};
ghost use Rattle.rasn_schema.specs.Schemas.{Schema, listed};
ghost use Rattle.rasn_schema.specs.Forms.{number_schema, octet_schema, bit_schema, named_bit_schema};
ghost use Rattle.rasn_schema.specs.Forms.{character_schema, size_of, is_size_marked};
ghost use Rattle.rasn_schema.specs.Choices.{choices_of};
ghost use Rattle.rasn_schema.specs.Structures.{tag_of, record_value};
ghost use Rattle.rasn_schema.specs.Records.{record_at};
ghost use Rattle.rasn_traits.specs.AdditionsRead.{AdditionsWell, OpensAdditionToRead};
ghost use Rattle.rasn_traits.specs.BagsRead.{BagsWell};
ghost use Rattle.rasn_traits.specs.Optionals.{ReadsBit};
ghost use Rattle.rasn_traits.specs.Calls.{DecoderRules, freely_read, Reads, DecodesWell};
ghost use Rattle.rasn_traits.specs.Choices.{ChoicesWell, OpensAlternativeToRead, OpensToChoose};
ghost use Rattle.rasn_traits.specs.Contents.{ContentsWell, OpensContentsToRead};
ghost use Rattle.rasn_traits.specs.Errors.{ErrorsWell};
ghost use Rattle.rasn_traits.specs.Reals.{ReadsNoReal};
ghost use Rattle.rasn_traits.specs.Lists.{AmidRead, ListsWell, OpensListToRead, ReadsNext};
ghost use Rattle.rasn_traits.specs.ListsInTurn.{AwaitsValues, IsBeforeElementRead, OpensListToReadInTurn};
ghost use Rattle.rasn_traits.specs.ListsInTurn.{ReadsNextInTurn};
ghost use Rattle.rasn_traits.specs.Moments.{date_at, identifier_value};
ghost use Rattle.rasn_traits.specs.Scopes.{ClosesOneRead, ClosesRead, ClosesReadInTurn, IsReadInTurn, OpensInTurn};
ghost use Rattle.rasn_traits.specs.Scopes.{OpensToRead, ReadsAround, ScopesWell};
ghost use Rattle.rasn_traits.specs.Sets.{ReadsSet, SetsWell};

use crate::de;
use crate::parts::{DecodeAdditions, DecodeParts};
use rasn_schema::choices::Choice;
use rasn_schema::enumerated::Enumerated;
use rasn_schema::fields::Constructed;
use rasn_schema::items::Place;
use rasn_schema::schema::{Constraints, IntegerType};
use rasn_strings::civil::{CivilDate, GeneralizedMoment, UtcMoment};
use rasn_strings::strings::{
    BmpString, Ia5String, NumericString, PrintableString, StaticPermittedAlphabet, VisibleString,
};
use rasn_types::bit_string::BitString;
use rasn_types::octet_strings::{Any, GeneralString, GraphicString, TeletexString, Utf8String};
use rasn_types::types::{Codec, Tag};
use std::alloc::Global;

/// What reads values, one after another. Each call takes the front of what is left that spells one value of one
/// schema, or refuses.
///
/// A refused decoder refuses from then on, and says so before anything else.
pub trait Decoder: Sized {
    /// What it refuses by.
    type Error: de::Error;

    /// The octets of an OCTET STRING, as it answers them.
    type Octets: de::Octets;

    /// What waits outside while a record is open.
    type Scope: Drop;

    /// What is left of an open list, and what waits outside.
    type List: Drop;

    /// What waits outside while the open type of an addition is open.
    type Addition: Drop;

    /// What waits outside while a choice is open.
    type Alternative: Drop;

    /// What waits outside while octets that contain a value are open.
    type Contents: Drop;

    // What is read, and what states and errors say.
    ghost rules: { DecoderRules Self.Error Self };

    // A scope is opened to read a schema: what was before, what waits outside, and how it is inside.
    ghost opens: { Schema → Self → Self.Scope → Self → Type 0 };

    // A scope ends: how it is inside, what waited outside, and how it is after the scope.
    ghost closes: { Self → Self.Scope → Self → Type 0 };

    // A scope is opened in which nothing is counted: what was before, what waits outside, and how it is inside.
    ghost opens_fields: { Schema → Self → Self.Scope → Self → Type 0 };

    // It ends: how it is inside, what waited outside, and how it is after it.
    ghost closes_fields: { Self → Self.Scope → Self → Type 0 };

    // A choice is opened to read the alternative at a place: what was before, what waits outside, and how it is there.
    ghost opens_choice: { Schema → Side → ℕ → Self → Self.Alternative → Self → Type 0 };

    // A choice ends: how it is after its alternative, what waited outside, and how it is after the choice.
    ghost closes_choice: { Self → Self.Alternative → Self → Type 0 };

    // The fault that an error names is at the end of an alternative's open type.
    ghost unended_choice: { Self.Alternative → Self.Error → Self → Type 0 };

    // A list is open: its elements' schema and its size, what was before it, its elements read, what is left, and now.
    ghost amid: { AmidRead Self Self.List };

    // The same, where what comes in the list isn't counted.
    ghost amid_elements: { AmidRead Self Self.List };

    // How many elements of an open list can follow at most.
    ghost most: { Self.List → ℕ };

    // In an open list that counts what comes: so many values are to come before the next call of it.
    ghost awaits_values: { AwaitsValues Self };

    // The fault that an error names is at the end of a scope.
    ghost unended: { Self.Scope → Self.Error → Self → Type 0 };

    // The same, of a scope in which nothing is counted.
    ghost unended_fields: { Self.Scope → Self.Error → Self → Type 0 };

    // The open type of an addition is opened to read: what was before, what waits outside, and how it is inside.
    ghost opens_addition: { Self → Self.Addition → Self → Type 0 };

    // An open type ends: how it is inside, what waited outside, and how it is after it.
    ghost closes_addition: { Self → Self.Addition → Self → Type 0 };

    // The fault that an error names is at the end of an open type.
    ghost unended_addition: { Self.Addition → Self.Error → Self → Type 0 };

    // Octets that contain a value are opened to read it: what was before, what waits outside, and how it is inside.
    ghost opens_contents: { Self → Self.Contents → Self → Type 0 };

    // They end: how it is inside, what waited outside, and how it is after them.
    ghost closes_contents: { Self → Self.Contents → Self → Type 0 };

    // The fault that an error names is at the end of octets that contain a value.
    ghost unended_contents: { Self.Contents → Self.Error → Self → Type 0 };

    // Octets of an OCTET STRING are lent: its size and whether that has an extension marker, what was before, what is
    // left after them, and how many they are.
    ghost lends: { Size → Bool → Self → Self → ℕ → Type 0 };

    /// The variant in use.
    fn codec(&self) -> Codec
        ensures { result ≡ rules.codec self.now };

    /// Where the memory of what is read comes from.
    fn alloc(&self) -> Global;

    /// Refuses from now on, and answers that memory ran out: for an implementation whose own growth was refused.
    fn out_of_memory(&mut self) -> Self::Error
        ensures memory { rules.memory result self.old }
        ensures fails { rules.failed self.new ≡ true }
        ensures kept { rules.codec self.new ≡ rules.codec self.old };

    /// Reads a BOOLEAN (X.691 12). Takes no memory.
    fn decode_bool(&mut self, tag: Tag) -> Result<bool, Self::Error>
        ensures { Reads (freely_read rules) Schema.boolean truth self.old result self.new };

    /// Reads an INTEGER under constraints (X.691 13).
    fn decode_integer<I: IntegerType>(
        &mut self,
        tag: Tag,
        constraints: &Constraints,
    ) -> Result<I, Self::Error>
        ensures { Reads rules (number_schema constraints.now I.range) (λ x. whole (I.number x))
            self.old result self.new };

    /// Refuses to read a REAL (X.691 15): it isn't supported. Takes no memory.
    fn decode_real(&mut self, tag: Tag, constraints: &Constraints) -> Result<(), Self::Error>
        ensures { ReadsNoReal rules self.old result self.new };

    /// Reads a NULL (X.691 18). Takes no memory.
    fn decode_null(&mut self, tag: Tag) -> Result<(), Self::Error>
        ensures { Reads (freely_read rules) Schema.null (λ _. nothing) self.old result self.new };

    /// Reads an item of an ENUMERATED (X.691 14). Takes no memory.
    fn decode_enumerated<E: Enumerated>(&mut self, tag: Tag) -> Result<E, Self::Error>
        ensures { Reads (freely_read rules) (Schema.items E.roots E.addeds E.EXTENSIBLE) E.value
            self.old result self.new };

    /// Reads the octets of a value whose type isn't known (X.691 11.2).
    fn decode_any(&mut self, tag: Tag) -> Result<Any, Self::Error>
        ensures { Reads rules Schema.any (λ x. octets x) self.old result self.new };

    /// Reads an OCTET STRING under constraints (X.691 17). Octets that are lent aren't copied; which ones are is each
    /// decoder's own.
    fn decode_octet_string(
        &mut self,
        tag: Tag,
        constraints: &Constraints,
    ) -> Result<Self::Octets, Self::Error>
        ensures read { Reads rules (octet_schema constraints.now) (λ x. octets (Self.Octets.octets x))
            self.old result self.new }
        ensures lent { let size = size_of constraints.now in let mark = is_size_marked constraints.now in
            IfOk result (λ x.
            Self.Octets.lent x ↔ lends size mark self.old self.new (length (Self.Octets.octets x))) };

    /// Reads a BIT STRING under constraints (X.691 16).
    fn decode_bit_string(
        &mut self,
        tag: Tag,
        constraints: &Constraints,
    ) -> Result<BitString, Self::Error>
        ensures { Reads rules (bit_schema constraints.now) (λ x. bits x) self.old result self.new };

    /// Reads a BIT STRING under constraints whose bits have names, with the zero bits at its end (X.691 16).
    fn decode_named_bits(
        &mut self,
        tag: Tag,
        constraints: &Constraints,
    ) -> Result<BitString, Self::Error>
        ensures { Reads rules (named_bit_schema constraints.now) (λ x. bits x) self.old result self.new };

    /// Reads a string of a known-multiplier type under constraints (X.691 30.5).
    fn decode_known_multiplier_string<S: StaticPermittedAlphabet>(
        &mut self,
        tag: Tag,
        constraints: &Constraints,
    ) -> Result<S, Self::Error>
        ensures { Reads rules (character_schema S.alphabet constraints.now) (λ x. characters (S.characters x))
            self.old result self.new };

    /// Reads a UTF8String (X.691 30.6). No constraint is visible.
    fn decode_utf8_string(
        &mut self,
        tag: Tag,
        constraints: &Constraints,
    ) -> Result<Utf8String, Self::Error>
        ensures { Reads rules (Schema.text utf8) (λ x. octets (string_bytes x)) self.old result self.new };

    /// Reads a GeneralString (X.691 30.6). No constraint is visible.
    fn decode_general_string(
        &mut self,
        tag: Tag,
        constraints: &Constraints,
    ) -> Result<GeneralString, Self::Error>
        ensures { Reads rules (Schema.text other) (λ x. octets x) self.old result self.new };

    /// Reads a GraphicString (X.691 30.6). No constraint is visible.
    fn decode_graphic_string(
        &mut self,
        tag: Tag,
        constraints: &Constraints,
    ) -> Result<GraphicString, Self::Error>
        ensures { Reads rules (Schema.text other) (λ x. octets x) self.old result self.new };

    /// Reads a TeletexString (X.691 30.6). No constraint is visible.
    fn decode_teletex_string(
        &mut self,
        tag: Tag,
        constraints: &Constraints,
    ) -> Result<TeletexString, Self::Error>
        ensures { Reads rules (Schema.text other) (λ x. octets x) self.old result self.new };

    /// Reads an OBJECT IDENTIFIER (X.691 24), and answers its arcs. Octets that are the contents of no object are
    /// refused.
    fn decode_object_identifier(&mut self, tag: Tag) -> Result<Vec<u32>, Self::Error>
        ensures { Reads rules Schema.identifier (λ arcs. identifier_value arcs.items) self.old result self.new };

    /// Reads a UTCTime (X.691 30), and answers its moment in UTC. Characters that aren't its canonical text (X.690
    /// 11.8) are refused.
    fn decode_utc_time<M: UtcMoment>(&mut self, tag: Tag) -> Result<M, Self::Error>
        ensures { Reads rules (Schema.time utc) (λ x. characters (M.text x)) self.old result self.new };

    /// Reads a GeneralizedTime (X.691 30), and answers its moment in UTC. Characters that aren't its canonical text
    /// (X.690 11.7) are refused.
    fn decode_generalized_time<M: GeneralizedMoment>(&mut self, tag: Tag) -> Result<M, Self::Error>
        ensures { Reads rules (Schema.time generalized) (λ x. characters (M.text x))
            self.old result self.new };

    /// Reads a DATE (X.691 32), which takes two levels, and gives them back. A year, a month and a day that are no day
    /// of the calendar are refused; with fewer than two levels left it refuses.
    fn decode_date<D: CivilDate>(&mut self, tag: Tag) -> Result<D, Self::Error>
        ensures { Reads rules (date_at (rules.levels self.old)) (λ x. D.value x) self.old result self.new };

    /// Opens a SEQUENCE (X.691 19), which takes a level: the calls from here to `close_sequence` read its root
    /// components, in the order of `FIELDS`, and then its additions, in the order of `EXTENDED_FIELDS`. At no level
    /// left it refuses.
    fn open_sequence<C: Constructed>(&mut self, tag: Tag) -> Result<Self::Scope, Self::Error>
        ensures { OpensInTurn rules opens C.parts C.IS_EXTENSIBLE C.additions self.old result self.new };

    /// Closes a SEQUENCE or SET, skips the additions that its type doesn't know (X.691 19.9), and gives its level back.
    /// Where a component, a presence bit or an addition wasn't read, or one too many, it is refused, and so where a
    /// list is still open, or a record that `open_fields` opened.
    fn close_sequence(&mut self, scope: Self::Scope) -> Result<(), Self::Error>
        ensures { ClosesReadInTurn rules opens_fields unended closes scope self.old result self.new };

    /// Opens a SEQUENCE (X.691 19) as `open_sequence` does, but for `close_fields` alone: what is read in it isn't
    /// counted.
    fn open_fields<C: Constructed>(&mut self, tag: Tag) -> Result<Self::Scope, Self::Error>
        ensures { OpensToRead rules opens_fields C.parts C.IS_EXTENSIBLE C.additions self.old result self.new };

    /// Closes a SEQUENCE that `open_fields` opened, as `close_sequence` does one that counts what comes. The caller
    /// shows that all its components were read as they are listed, so that nothing need be counted.
    fn close_fields<C: Constructed>(&mut self, scope: Self::Scope) -> Result<(), Self::Error>
        requires in_turn { IsReadInTurn rules opens_fields C.parts C.IS_EXTENSIBLE C.additions scope self.old }
        ensures { ClosesRead rules unended_fields closes_fields scope self.old result self.new };

    /// Opens a SET (X.691 21), which takes a level: the calls from here to `close_sequence` read its root components,
    /// in ascending order of their smallest tags, and then its additions, in the order of `EXTENDED_FIELDS`. At no
    /// level left it refuses.
    fn open_set<C: Constructed>(&mut self, tag: Tag) -> Result<Self::Scope, Self::Error>
        ensures { OpensInTurn rules opens (canonised_at C.parts) C.IS_EXTENSIBLE C.additions
            self.old result self.new };

    /// Reads the index of a CHOICE (X.691 23), which takes a level, and opens the open type of an alternative after
    /// the extension marker (X.691 23.8): the calls from here to `close_choice` read the value of the alternative,
    /// which goes by the tag. At no level left it refuses.
    fn open_choice<C: Choice>(&mut self) -> Result<(Tag, Self::Alternative), Self::Error>
        ensures { OpensToChoose rules opens_choice (choices_of C.alternatives C.EXTENDED_VARIANTS C.added) C.VARIANTS
            C.EXTENDED_VARIANTS self.old result self.new };

    /// Reads the index of a CHOICE (X.691 23), which takes a level, answers where its alternative stands, and opens the
    /// open type of one after the extension marker (X.691 23.8): the calls from here to `close_choice` read the value
    /// of the alternative. At no level left it refuses.
    fn open_alternative<C: Choice>(&mut self) -> Result<(Place, Self::Alternative), Self::Error>
        ensures { OpensAlternativeToRead rules opens_choice (choices_of C.alternatives C.EXTENDED_VARIANTS C.added)
            C.VARIANTS C.EXTENDED_VARIANTS self.old result self.new };

    /// Closes a CHOICE of which the alternative was read, and gives its level back. All but one value are refused, and
    /// so is a list that is still open, and an open type with whole octets left over.
    fn close_choice(&mut self, alternative: Self::Alternative) -> Result<(), Self::Error>
        ensures { ClosesOneRead rules opens_fields unended_choice closes_choice alternative self.old result self.new };

    /// Opens octets that contain a value (X.682 11; X.691 11.2): the calls from here to `close_contents` read it, by
    /// itself.
    fn open_contents(&mut self, tag: Tag) -> Result<Self::Contents, Self::Error>
        ensures { OpensContentsToRead rules opens_contents self.old result self.new };

    /// Closes octets of which the value that they contain was read. All but one value are refused, and so is a list
    /// that is still open, and whole octets that are left over.
    fn close_contents(&mut self, contents: Self::Contents) -> Result<(), Self::Error>
        ensures { ClosesOneRead rules opens_fields unended_contents closes_contents contents self.old result self.new };

    /// Reads the presence bit of the next component of the open SEQUENCE that has one (X.691 19.2). Takes no memory.
    fn next_presence(&mut self) -> Result<bool, Self::Error>
        ensures { ReadsBit rules self.old result self.new };

    /// Opens the open type of the next addition of the open SEQUENCE (X.691 11.2, 19.9): the calls from here to
    /// `close_addition` read its value, by itself. Where the addition isn't there, it answers `None`, and the next call
    /// is for the one after it.
    fn open_addition(&mut self) -> Result<Option<Self::Addition>, Self::Error>
        ensures { OpensAdditionToRead rules opens_addition self.old result self.new };

    /// Closes an open type of which one value was read. All but one value are refused, and so is a list that is still
    /// open.
    fn close_addition(&mut self, addition: Self::Addition) -> Result<(), Self::Error>
        ensures { ClosesOneRead rules opens_fields unended_addition closes_addition addition self.old result self.new };

    /// Opens a SEQUENCE OF under constraints (X.691 20), which takes a level: its elements follow, each behind a call
    /// of `next_element` that answers true. At no level left it refuses.
    fn open_list(&mut self, tag: Tag, constraints: &Constraints) -> Result<Self::List, Self::Error>
        ensures { OpensListToReadInTurn rules awaits_values amid (size_of constraints.now)
            (is_size_marked constraints.now) self.old result self.new };

    /// Goes on in an open list: answers whether an element follows. Where none does, the list has ended: its size
    /// allows the count of its elements, and its level is given back. A count that the size doesn't allow is refused.
    /// Where the element before wasn't read, or anything else was, it refuses.
    fn next_element(&mut self, list: &mut Self::List) -> Result<bool, Self::Error>
        ensures { ReadsNextInTurn rules awaits_values amid most list.old self.old result list.new self.new };

    /// Opens a SEQUENCE OF as `open_list` does, but for `next_element_in_turn` alone: what is read in it isn't counted.
    fn open_elements(
        &mut self,
        tag: Tag,
        constraints: &Constraints,
    ) -> Result<Self::List, Self::Error>
        ensures { OpensListToRead rules amid_elements (size_of constraints.now) (is_size_marked constraints.now)
            self.old result self.new };

    /// Goes on in a list that `open_elements` opened, as `next_element` does. The caller shows that each element before
    /// was read, so that nothing need be counted.
    fn next_element_in_turn(&mut self, list: &mut Self::List) -> Result<bool, Self::Error>
        requires in_turn { IsBeforeElementRead amid_elements list.old self.old }
        ensures { ReadsNext rules amid_elements most list.old self.old result list.new self.new };

    /// Refuses from now on.
    fn fail(&mut self)
        ensures fails { rules.failed self.new ≡ true }
        ensures kept { rules.codec self.new ≡ rules.codec self.old };

    /// Refuses from now on, and answers that a required addition, which has this tag, isn't there.
    final fn required_extension_not_present(&mut self, tag: Tag) -> Self::Error
        ensures lacking { rules.lacking (tag_of tag) result self.old }
        ensures fails { rules.failed self.new ≡ true }
        ensures kept { rules.codec self.new ≡ rules.codec self.old }
    {
        let codec = self.codec();
        self.fail();
        <Self::Error as de::Error>::required_extension_not_present(tag, codec)
    }

    /// Reads a VisibleString under constraints (X.691 30.5).
    final fn decode_visible_string(
        &mut self,
        tag: Tag,
        constraints: &Constraints,
    ) -> Result<VisibleString, Self::Error>
        ensures { Reads rules (character_schema visible constraints.now) (λ x. characters x) self.old result self.new }
    {
        self.decode_known_multiplier_string::<VisibleString>(tag, constraints)
    }

    /// Reads an IA5String under constraints (X.691 30.5).
    final fn decode_ia5_string(
        &mut self,
        tag: Tag,
        constraints: &Constraints,
    ) -> Result<Ia5String, Self::Error>
        ensures { Reads rules (character_schema ia5 constraints.now) (λ x. characters x) self.old result self.new }
    {
        self.decode_known_multiplier_string::<Ia5String>(tag, constraints)
    }

    /// Reads a PrintableString under constraints (X.691 30.5).
    final fn decode_printable_string(
        &mut self,
        tag: Tag,
        constraints: &Constraints,
    ) -> Result<PrintableString, Self::Error>
        ensures { Reads rules (character_schema printable constraints.now) (λ x. characters x)
            self.old result self.new }
    {
        self.decode_known_multiplier_string::<PrintableString>(tag, constraints)
    }

    /// Reads a NumericString under constraints (X.691 30.5).
    final fn decode_numeric_string(
        &mut self,
        tag: Tag,
        constraints: &Constraints,
    ) -> Result<NumericString, Self::Error>
        ensures { Reads rules (character_schema numeric constraints.now) (λ x. characters x) self.old result self.new }
    {
        self.decode_known_multiplier_string::<NumericString>(tag, constraints)
    }

    /// Reads a BMPString under constraints (X.691 30.5).
    final fn decode_bmp_string(
        &mut self,
        tag: Tag,
        constraints: &Constraints,
    ) -> Result<BmpString, Self::Error>
        ensures { Reads rules (character_schema bmp constraints.now) (λ x. characters x) self.old result self.new }
    {
        self.decode_known_multiplier_string::<BmpString>(tag, constraints)
    }

    /// Reads a SEQUENCE (X.691 19), whose components `scope` reads, in the order of `FIELDS`.
    final fn decode_sequence<
        C: Constructed + Drop,
        G: FnOnce() -> C,
        F: FnOnce(&mut Self) -> Result<C, Self::Error>,
    >(&mut self, tag: Tag, default: Option<G>, scope: F) -> Result<C, Self::Error>
        requires { (x : _) → suc (rules.levels x.now) ≡ rules.levels self.old → F.pre scope x }
        ensures { ReadsAround rules C.parts C.IS_EXTENSIBLE C.additions C.contents C.added
            (FnOnceReturnsAtMut F.FnOnce scope) self.old result self.new }
    {
        drop(default);
        let outside = self.open_sequence::<C>(tag)?;
        match scope(self) {
            Ok(value) => {
                self.close_sequence(outside)?;
                Ok(value)
            }
            Err(error) => {
                self.fail();
                Err(error)
            }
        }
    }

    /// Reads a SET (X.691 21), whose components `scope` reads: those of the root in ascending order of their smallest
    /// tags, and then its additions, in the order of `EXTENDED_FIELDS`.
    final fn decode_set_in_order<
        C: Constructed + Drop,
        F: FnOnce(&mut Self) -> Result<C, Self::Error>,
    >(&mut self, tag: Tag, scope: F) -> Result<C, Self::Error>
        requires { (x : _) → suc (rules.levels x.now) ≡ rules.levels self.old → F.pre scope x }
        ensures { ReadsSet rules C.parts C.IS_EXTENSIBLE C.additions C.contents C.added
            (FnOnceReturnsAtMut F.FnOnce scope) self.old result self.new }
    {
        let outside = self.open_set::<C>(tag)?;
        match scope(self) {
            Ok(value) => {
                self.close_sequence(outside)?;
                Ok(value)
            }
            Err(error) => {
                self.fail();
                Err(error)
            }
        }
    }

    /// Reads a SEQUENCE (X.691 19) by the lists of its root components, which are in the order of `FIELDS`, and of
    /// its additions, which are in the order of `EXTENDED_FIELDS`, and answers what they are.
    final fn decode_record<C: Constructed, P: DecodeParts, Q: DecodeAdditions>(
        &mut self,
        tag: Tag,
        parts: &P,
        additions: &Q,
    ) -> Result<(P::Values, Q::Values), Self::Error>
        requires root { (n : ℕ) → C.parts n ≡ P.parts parts.now n }
        requires behind { (n : ℕ) → C.additions n ≡ Q.additions additions.now n }
        ensures { Reads rules (record_at listed C.parts C.IS_EXTENSIBLE C.additions (rules.levels self.old))
            (λ values. record_value (P.contents values.0) (Q.contents values.1)) self.old result self.new }
    {
        let outside = self.open_fields::<C>(tag)?;
        let root = parts.decode_parts(self)?;
        let added = additions.decode_additions(self)?;
        self.close_fields::<C>(outside)?;
        Ok((root, added))
    }

    // What holds of each decoder's relations.
    ghost lawful: { DecodesWell rules };

    // What holds of each decoder's errors.
    ghost errors: { ErrorsWell rules Self.Error.lacks };

    // What holds of each decoder's scopes.
    ghost scopes: { ScopesWell rules unended opens closes };

    // The same of scopes in which nothing is counted.
    ghost fields: { ScopesWell rules unended_fields opens_fields closes_fields };

    // What holds of each decoder's open types.
    ghost additions: { AdditionsWell rules unended_addition opens_addition closes_addition };

    // What holds of each decoder's octets that contain a value.
    ghost contents: { ContentsWell rules unended_contents opens_contents closes_contents };

    // What holds of each decoder's choices.
    ghost choices: { ChoicesWell rules unended_choice opens_choice closes_choice };

    // What holds of each decoder's lists.
    ghost lists: { ListsWell rules amid };

    // What holds of each decoder's lists in which nothing is counted.
    ghost elements: { ListsWell rules amid_elements };

    // What holds of each decoder's SETs.
    ghost sets: { SetsWell rules };

    // What holds of each decoder's bags.
    ghost bags: { BagsWell rules };
}
