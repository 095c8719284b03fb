//! A table of types: what each type is, with the places in the table of the types that are in it.

ghost use Rattle.std.specs.Prelude.{◌≡◌, ℕ, MatchOption, None, Some, count_by, option_map, slice_get};
ghost use Rattle.rasn_schema.specs.Levels.{Levelled};
ghost use Rattle.rasn_dynamic.specs.Names.{name_at, place_of};
ghost use Rattle.rasn_dynamic.specs.Types.{added_count, alternative_counts, behind, counts_of, has_required};
ghost use Rattle.rasn_dynamic.specs.Types.{is_not_required, required_in, row_at, schema_at, standing, within};

use rasn_constraints::constraints::{Bounded, Extensible};
use rasn_schema::items::{ItemCounts, Place};
use rasn_strings::strings::BmpString;
use rasn_types::bit_string::BitString;
use rasn_types::types::{Any, Integer, Tag};

/// The bounds of a number, and whether they have an extension marker (X.680 51.4, 52).
pub type NumberBounds = Extensible<Bounded<i128>>;

/// The bounds of a count, and whether they have an extension marker (X.680 51.5, 52).
pub type SizeBounds = Extensible<Bounded<usize>>;

/// A type in which no other type stands, and which takes no level.
#[derive(Drop)]
pub enum Simple {
    /// BOOLEAN (X.691 12).
    Boolean,
    /// NULL (X.691 18).
    Null,
    /// INTEGER (X.691 13) within bounds.
    Integer(NumberBounds),
    /// ENUMERATED (X.691 14), by its items.
    Enumerated(Items),
    /// OCTET STRING (X.691 17) of a size.
    OctetString(SizeBounds),
    /// BIT STRING (X.691 16) of a size.
    BitString(SizeBounds),
    /// BIT STRING whose bits have names (X.680 22.7), of a size.
    NamedBits(SizeBounds),
    /// A character string whose characters all take as many bits (X.691 30.1).
    Characters(CharacterString),
    /// UTF8String (X.691 30.6).
    Utf8,
    /// A character string whose octets may be any: GeneralString, GraphicString, TeletexString, VideotexString and
    /// ObjectDescriptor (X.691 30.6).
    Text,
    /// OBJECT IDENTIFIER (X.691 24).
    ObjectIdentifier,
    /// UTCTime (X.680 47), whose values are its canonical text (X.690 11.8).
    UtcTime,
    /// GeneralizedTime (X.680 46), whose values are its canonical text (X.690 11.7).
    GeneralizedTime,
    /// An open type whose type nothing tells (X.691 11.2).
    Open,
}

/// A character string whose characters all take as many bits, of a size.
#[derive(Drop)]
pub struct CharacterString {
    /// Whose characters it has.
    pub of: CharacterType,
    /// How many characters it has.
    pub size: SizeBounds,
    /// The characters that it may have, where not all of its type (X.680 51.7), in any order.
    pub alphabet: Option<Vec<u32>>,
}

/// The types of such strings (X.680 41).
#[derive(Clone, Copy, Debug, PartialEq, Eq)]
pub enum CharacterType {
    /// VisibleString.
    Visible,
    /// IA5String.
    Ia5,
    /// PrintableString.
    Printable,
    /// NumericString.
    Numeric,
    /// BMPString.
    Bmp,
}

/// The items of an ENUMERATED by their names (X.680 20).
#[derive(Drop)]
pub struct Items {
    /// Those before the extension marker.
    pub roots: Vec<String>,
    /// Those after it, where there is one.
    pub addeds: Option<Vec<String>>,
}

/// Whether a component has to be there (X.680 25.6).
#[derive(Drop)]
pub enum Presence {
    /// It has to be.
    Required,
    /// It may be absent.
    Optional,
    /// It is an addition group (X.680 25.1): its type is a SEQUENCE, and one that holds nothing is absent (X.691 19.9).
    /// In the root, and where its type isn't a SEQUENCE, it is taken as `Optional`.
    Group,
    /// It is its default where it isn't there (X.680 25.9). A value of a record always has it.
    Default(DefaultTree),
}

/// A value that a table states and that holds no values: a default, or one by which an object set tells a type.
#[derive(Drop)]
pub enum DefaultValue {
    /// Of BOOLEAN.
    Boolean(bool),
    /// Of NULL.
    Null,
    /// Of INTEGER.
    Integer(Integer),
    /// Of ENUMERATED: where its item stands.
    Item(Place),
    /// Of each type whose values are octets.
    Octets(Any),
    /// Of BIT STRING: where its bits have names, those of the normal form, which are without zero bits at their end,
    /// but as many as the size asks for (X.680 22.7; X.691 16.2).
    Bits(BitString),
    /// Of a character string, and of UTCTime and GeneralizedTime: their canonical text.
    Characters(BmpString),
    /// Of SEQUENCE OF: without elements.
    NoElements,
}

/// The default of a component (X.680 25.9), which may hold values: each in normal form, and without a SET OF that has
/// members.
#[derive(Drop)]
pub enum DefaultTree {
    /// No value: a component that is absent. It stands for NULL where a value is asked for.
    Absent,
    /// A value that holds none.
    Plain(DefaultValue),
    /// Of SEQUENCE OF.
    Elements(Vec<DefaultTree>),
    /// Of SEQUENCE and SET: its root components, and its additions.
    Fields(Vec<DefaultTree>, Vec<DefaultTree>),
    /// Of CHOICE: where its alternative stands, and the value of this.
    Alternative(Place, Box<DefaultTree>),
}

/// A component of a record.
#[derive(Drop)]
pub struct Component {
    /// Its name.
    pub name: String,
    /// Its tag: of an untagged CHOICE the smallest of its root alternatives (X.691 21.1).
    pub tag: Tag,
    /// Whether it has to be there.
    pub presence: Presence,
    /// The place of its type.
    pub of: usize,
}

/// An alternative of a CHOICE.
#[derive(Drop)]
pub struct Alternative {
    /// Its name.
    pub name: String,
    /// Its tag: of an untagged CHOICE the smallest of its root alternatives (X.691 23.5).
    pub tag: Tag,
    /// The place of its type.
    pub of: usize,
}

/// The alternatives of a CHOICE (X.680 29), each list in the order of their indexes (X.691 23.5).
#[derive(Drop)]
pub struct Choice {
    /// Those before the extension marker.
    pub roots: Vec<Alternative>,
    /// Those after it, where there is one.
    pub addeds: Option<Vec<Alternative>>,
}

/// What a type is.
#[derive(Drop)]
pub enum Kind {
    /// A type in which no other type stands, and which takes no level.
    Simple(Simple),
    /// DATE (X.680 38.4), which takes two levels (X.691 32).
    Date,
    /// SEQUENCE OF (X.691 20): the place of its elements' type, and its size.
    List(usize, SizeBounds),
    /// SET OF (X.691 22): the place of its members' type, and its size.
    SetOf(usize, SizeBounds),
    /// SEQUENCE (X.691 19).
    Record(Record),
    /// CHOICE (X.691 23).
    Choice(Choice),
    /// Octets that contain a value (X.682 11): the place of its type, which isn't itself such octets.
    Containing(usize),
    /// An open type whose type an object set tells (X.682 10).
    Open(ObjectSet),
}

/// Which type an open type is, by the value of another component (X.682 10).
#[derive(Drop)]
pub struct ObjectSet {
    /// Where that component is among those of the SEQUENCE that has the open type as a component: those of the root
    /// come first, then additions.
    pub chooser: usize,
    /// Where the component is, counted alike, whose value each row tells too (in most sets a criticality), if one is.
    pub criticality: Option<usize>,
    /// The types that it may be.
    pub rows: Vec<Row>,
}

/// A type that an open type may be.
#[derive(Drop)]
pub struct Row {
    /// The value of the other component.
    pub value: DefaultValue,
    /// The name of the type.
    pub name: String,
    /// The place of the type.
    pub of: usize,
    /// The value of the component at `criticality`, where this row tells it.
    pub criticality: Option<DefaultValue>,
    /// Whether such an element has to be there, where the object set says so.
    pub presence: Option<ElementPresence>,
}

/// Whether a list of elements has to hold one of a type. No encoding depends on it.
#[derive(Clone, Copy, Debug, PartialEq, Eq)]
pub enum ElementPresence {
    /// It may be absent.
    Optional,
    /// A condition in the protocol's text says so.
    Conditional,
    /// It has to be there.
    Mandatory,
}

/// The components of a record (X.680 25).
#[derive(Drop)]
pub struct Record {
    /// Those of its root.
    pub root: Vec<Component>,
    /// Its additions, where it has an extension marker.
    pub additions: Option<Vec<Component>>,
}

/// A table of types.
#[derive(Drop)]
pub struct Types {
    /// What each type is. Types name one another by their places here.
    pub kinds: Vec<Kind>,
    /// The names of types, and the places of these.
    pub names: Vec<Name>,
}

/// The name of a type.
#[derive(Drop)]
pub struct Name {
    /// The name.
    pub name: String,
    /// The place of the type.
    pub place: usize,
}

impl Types {
    /// The place of the type with a name: the first, where there are more.
    pub fn place(&self, name: &str) -> Option<usize>
        ensures { result ≡ place_of self.now.names.items name.now }
    {
        first_place(&self.names, name)
    }
}

impl Items {
    /// How many items there are before the extension marker, and how many after it.
    pub fn counts(&self) -> ItemCounts
        ensures { result ≡ counts_of self.now }
    {
        let addeds = match &self.addeds {
            Some(names) => Some(names.len()),
            None => None,
        };
        ItemCounts {
            roots: self.roots.len(),
            addeds,
        }
    }

    /// The name of the item at a place, where one is there.
    pub fn name(&self, place: Place) -> Option<&str>
        ensures { option_map (λ n. n.now) result ≡ name_at self.now place }
    {
        match place {
            Place::Root(index) => Some(self.roots.get(index)?.as_str()),
            Place::Added(index) => Some(self.behind().get(index)?.as_str()),
        }
    }

    /// The names of the items after the extension marker, of which there are none without one.
    pub fn behind(&self) -> &[String]
        ensures { result.now ≡ behind self.now.addeds }
    {
        match &self.addeds {
            Some(names) => names,
            None => &[],
        }
    }
}

/// The place of the first of some types that has a name.
fn first_place(names: &[Name], name: &str) -> Option<usize>
    ensures { result ≡ place_of names.now name.now }
{
    match names {
        [] => None,
        [entry, others @ ..] => {
            if entry.name.as_str() == name {
                return Some(entry.place);
            }
            first_place(others, name)
        }
    }
}

impl Choice {
    /// How many alternatives there are before the extension marker, and how many after it.
    pub fn counts(&self) -> ItemCounts
        ensures { result ≡ alternative_counts self.now }
    {
        let addeds = match &self.addeds {
            Some(alternatives) => Some(alternatives.len()),
            None => None,
        };
        let roots = self.roots.len();
        ItemCounts { roots, addeds }
    }

    /// The alternatives after the extension marker, of which there are none without one.
    pub fn behind(&self) -> &[Alternative]
        ensures { result.now ≡ behind self.now.addeds }
    {
        match &self.addeds {
            Some(alternatives) => alternatives,
            None => &[],
        }
    }

    /// The alternative at a place, where one is there.
    pub fn at(&self, place: Place) -> Option<&Alternative>
        ensures { MatchOption result (standing self.now place ≡ None) (λ a. standing self.now place ≡ Some a.now) }
    {
        match place {
            Place::Root(index) => self.roots.get(index),
            Place::Added(index) => self.behind().get(index),
        }
    }
}

impl ObjectSet {
    /// The row that a root place is the index of, where one is there.
    pub fn row(&self, place: Place) -> Option<&Row>
        ensures { MatchOption result (row_at self.now place ≡ None) (λ r. row_at self.now place ≡ Some r.now) }
    {
        match place {
            Place::Root(index) => self.rows.get(index),
            Place::Added(_) => None,
        }
    }
}

impl Record {
    /// The components of its root.
    pub fn root(&self) -> &[Component]
        ensures { result.now ≡ self.now.root.items }
    {
        self.root.as_slice()
    }

    /// Its additions, of which there are none without an extension marker.
    pub fn behind(&self) -> &[Component]
        ensures { result.now ≡ behind self.now.additions }
    {
        match &self.additions {
            Some(list) => list,
            None => &[],
        }
    }

    /// How many additions there are after an extension marker, where it has one.
    pub fn added_count(&self) -> Option<usize>
        ensures { result ≡ added_count self.now.additions }
    {
        match &self.additions {
            Some(list) => Some(list.len()),
            None => None,
        }
    }

    /// Whether a component of its root has to be there.
    pub fn has_required(&self) -> bool
        ensures { result ≡ has_required self.now }
    {
        presence_bit_count(&self.root) < self.root.len()
    }
}

/// How many components have a presence bit (X.691 19.2).
pub fn presence_bit_count(components: &[Component]) -> usize
    ensures { result ≡ count_by (λ c. is_not_required c.presence) components.now }
{
    components
        .iter()
        .filter(|component| !matches!(component.presence, Presence::Required))
        .count()
}

/// The schemas of each place of a table are each the next one to its number of levels: a list and a record take one.
/// This is a law, and nothing runs.
pub fn are_levelled(types: &Types)
    ensures { (place : ℕ) → Levelled (schema_at types.now.kinds.items place) }
{
    let _ = types;
}

/// Whether a root component of the SEQUENCE at a place of a table has to be there, where one is there.
pub fn required_in(kinds: &[Kind], place: usize) -> Option<bool>
    ensures { result ≡ required_in (slice_get kinds.now place) }
{
    match kind_at(kinds, place)? {
        Kind::Record(record) => Some(record.has_required()),
        _ => None,
    }
}

/// What the type at a place is, or contains where it is octets that contain a value.
pub fn kind_within(kinds: &[Kind], place: usize) -> Option<&Kind>
    ensures { option_map (λ k. k.now) result ≡ within kinds.now (slice_get kinds.now place) }
{
    match kind_at(kinds, place)? {
        Kind::Containing(of) => kind_at(kinds, *of),
        kind => Some(kind),
    }
}

/// What is at a place of a table.
pub fn kind_at(kinds: &[Kind], place: usize) -> Option<&Kind>
    ensures { option_map (λ k. k.now) result ≡ slice_get kinds.now place }
{
    kinds.get(place)
}
