//! What the program is asked to do.

ghost use Rattle.std.specs.Prelude.{◌≡◌, ◌≢◌, [], ◌∷◌, IfSome, IfNone, map, string_bytes};
ghost use Rattle.per_core.specs.Rows.{Codec as a_codec};
ghost use Rattle.line_replies.specs.Codecs.{codec_word};
ghost use Rattle.per_lines.specs.Words.{type_word, form_words, words_of};
ghost use Rattle.per_lines.specs.Recoding.{padding_of};
ghost use Rattle.per_lines.specs.declared.arguments.TypeName.{TypeName as a_name};
ghost use Rattle.per_lines.specs.declared.arguments.Form.{Form as a_form};
ghost use Rattle.per_lines.specs.declared.arguments.Arguments.{Arguments as the_arguments};

use line_replies::codecs::codec_of_word;
use rasn_below::types::Codec;

/// A type that the program knows.
#[derive(Clone, Copy, Debug, PartialEq, Eq)]
pub enum TypeName {
    /// BOOLEAN.
    Boolean,
    /// NULL.
    Null,
    /// INTEGER.
    Integer,
    /// INTEGER (..65535).
    UpTo65535,
    /// INTEGER (-1..).
    FromMinusOne,
    /// INTEGER (0..).
    Natural,
    /// INTEGER (0..65536).
    ZeroTo65536,
    /// INTEGER (1..10, ...).
    OneToTenExtensible,
    /// SEQUENCE { a BOOLEAN, b INTEGER, c BOOLEAN, d INTEGER (-10..400) }.
    Four,
    /// SEQUENCE { a INTEGER (7..7) }.
    Seven,
    /// SEQUENCE { a INTEGER (0..7) DEFAULT 3 }.
    OneDefault,
    /// VisibleString (SIZE (1..3, ...)).
    ShortVisible,
    /// VisibleString (FROM ("A".."E")) (SIZE (1..20)).
    LettersAToE,
    /// BIT STRING.
    BitString,
    /// OCTET STRING.
    OctetString,
    /// IA5String (FROM ("x")).
    OnlyX,
    /// SEQUENCE { a BOOLEAN, e ENUMERATED of 256 items }.
    Items,
    /// SEQUENCE of eight BOOLEAN.
    Byte,
    /// SEQUENCE { a BOOLEAN, b OCTET STRING (SIZE (0..3)), c BOOLEAN }.
    MaybeEmpty,
    /// CHOICE { x [0] BOOLEAN, y CHOICE { p [1] BOOLEAN, q [2] NULL }, z [3] NULL }, y untagged.
    Nested,
    /// Nest ::= SEQUENCE { inner Nest OPTIONAL }.
    Nest,
    /// SEQUENCE { d Nest DEFAULT a value of 200 levels }.
    Deep,
    /// SEQUENCE OF byte.
    Bytes,
    /// SEQUENCE (SIZE (1..300)) OF NULL.
    Nulls,
    /// SEQUENCE OF NULL.
    NullList,
    /// SEQUENCE { flag BOOLEAN, fixed SEQUENCE (SIZE (2)) OF E, ranged SEQUENCE (SIZE (1..4)) OF E,
    /// trailer INTEGER (0..255) }, E being SEQUENCE { octets OCTET STRING (SIZE (3)) }.
    Elements,
    /// SEQUENCE { first BOOLEAN, second BOOLEAN, ... }.
    Outer1,
    /// SEQUENCE { first BOOLEAN, second BOOLEAN, ..., [[ flag BOOLEAN, octets OCTET STRING (SIZE (3)) ]] }.
    Outer2,
    /// SEQUENCE { first BOOLEAN, second BOOLEAN, ..., [[ flag BOOLEAN, octets OCTET STRING (SIZE (3)) ]],
    /// after OCTET STRING (SIZE (3)) OPTIONAL }.
    Outer3,
    /// SEQUENCE { first BOOLEAN, ..., [[ x BOOLEAN OPTIONAL ]] }.
    Grouped,
    /// SEQUENCE { ... }.
    NoneNeeded,
    /// SEQUENCE { ..., a BOOLEAN, b BOOLEAN OPTIONAL }.
    OneNeeded,
    /// SEQUENCE { ..., a INTEGER (0..7) DEFAULT 3 }.
    AddedDefault,
    /// SEQUENCE OF outer1.
    Outers1,
    /// SEQUENCE OF outer3.
    Outers3,
    /// SEQUENCE { a BOOLEAN, ... }.
    BeforeNest,
    /// SEQUENCE { a BOOLEAN, ..., deep Nest OPTIONAL }.
    AddedNest,
    /// SEQUENCE { first BOOLEAN, ..., an addition group }, the group being SEQUENCE { x BOOLEAN OPTIONAL, ... }.
    Grouped1,
    /// SEQUENCE { first BOOLEAN, ..., an addition group }, the group being
    /// SEQUENCE { x BOOLEAN OPTIONAL, ..., y BOOLEAN OPTIONAL }.
    Grouped2,
    /// ENUMERATED { a, ... }.
    OneColor,
    /// ENUMERATED { a, ..., b }.
    TwoColors,
    /// SEQUENCE { o outer1 DEFAULT (TRUE, FALSE) }.
    DefaultOuter1,
    /// SEQUENCE { o outer3 DEFAULT (TRUE, FALSE, both additions absent) }.
    DefaultOuter3,
    /// CHOICE { a BOOLEAN, ... }.
    OneAlternative,
    /// CHOICE { a BOOLEAN, ..., b BOOLEAN }.
    TwoAlternatives,
    /// SEQUENCE { first BOOLEAN, root Alt, extension Alt, trailer INTEGER (0..255) }, Alt being
    /// CHOICE { plain BOOLEAN, inner Inner, ..., added Inner }.
    Alternatives,
    /// SEQUENCE { ..., a0 BOOLEAN OPTIONAL, a1 BOOLEAN OPTIONAL, and so on up to a64 }.
    Many,
    /// SET OF INTEGER.
    Bag,
    /// UTCTime.
    UtcTime,
    /// SEQUENCE { key CHOICE { object OBJECT IDENTIFIER, other OCTET STRING }, pdu OCTET STRING }.
    Connect,
    /// SET { b [1] INTEGER (0..255), a [0] BOOLEAN }.
    Set,
    /// SET { p [PRIVATE 0] BOOLEAN OPTIONAL, q [0] BOOLEAN OPTIONAL, r [1] BOOLEAN OPTIONAL }.
    SetOptional,
    /// SET { k [5] BOOLEAN, c CHOICE { m [3] BOOLEAN, n [9] NULL } }, whose choice has no tag of its own.
    SetChoice,
    /// DATE.
    Date,
    /// Dnest ::= SEQUENCE { inner Dnest OPTIONAL, d DATE OPTIONAL }.
    DatedNest,
    /// CHOICE { low [2] INTEGER (0..7), empty [3] NULL }.
    Spare,
    /// CHOICE { flag BOOLEAN, octets OCTET STRING (SIZE (2)), ..., spare Spare, inner Inner }, whose tags are its own.
    Pick,
    /// SEQUENCE { first [9] BOOLEAN, ..., pick Pick, last [5] INTEGER (0..7) OPTIONAL }, whose choice has no tag of its
    /// own.
    Picked,
    /// SEQUENCE { any Lights, bounded Lights (SIZE (2..8)), marked Lights (SIZE (4, ...)) OPTIONAL }, Lights being
    /// BIT STRING { red(0), yellow(1), green(2) }.
    Signals,
}

/// How much is read, and what is printed.
#[derive(Clone, Copy, Debug, PartialEq, Eq)]
pub enum Form {
    /// One line, and its canonical encoding.
    OneLine,
    /// `lines`: all lines, and for each its canonical encoding, or why it has none.
    Lines,
    /// `zero`: as for one line, but all padding and spare bits must be zero.
    Zero,
    /// `as TYPE`: one line, and the canonical encoding of what its own is read as by this other type.
    As(TypeName),
}

/// Which padding and spare bits are read.
#[derive(Clone, Copy, Debug, PartialEq, Eq)]
pub enum Padding {
    /// Bits of any value.
    Any,
    /// Zero bits alone (this project's choice).
    Zero,
}

/// What the program is asked to do.
#[derive(Clone, Copy, Debug, PartialEq, Eq)]
pub struct Arguments {
    /// The variant to read and to write (X.691 7).
    pub codec: Codec,
    /// The type of the value.
    pub type_name: TypeName,
    /// How much is read, and what is printed.
    pub form: Form,
}

impl TypeName {
    /// The type that a word of `docs/TYPES.md` names.
    pub fn of_word(word: &str) -> Option<TypeName>
        ensures named { IfSome result (λ t. word.now ≡ type_word t) }
        ensures unknown { IfNone result ((t : a_name) → word.now ≢ type_word t) }
    {
        match word {
            "boolean" => Some(TypeName::Boolean),
            "null" => Some(TypeName::Null),
            "integer" => Some(TypeName::Integer),
            "upto" => Some(TypeName::UpTo65535),
            "from" => Some(TypeName::FromMinusOne),
            "natural" => Some(TypeName::Natural),
            "i65536" => Some(TypeName::ZeroTo65536),
            "iext" => Some(TypeName::OneToTenExtensible),
            "four" => Some(TypeName::Four),
            "seven" => Some(TypeName::Seven),
            "default" => Some(TypeName::OneDefault),
            "vis" => Some(TypeName::ShortVisible),
            "five" => Some(TypeName::LettersAToE),
            "bits" => Some(TypeName::BitString),
            "octets" => Some(TypeName::OctetString),
            "onlyx" => Some(TypeName::OnlyX),
            "items" => Some(TypeName::Items),
            "byte" => Some(TypeName::Byte),
            "empty" => Some(TypeName::MaybeEmpty),
            "nested" => Some(TypeName::Nested),
            "nest" => Some(TypeName::Nest),
            "deep" => Some(TypeName::Deep),
            "bytes" => Some(TypeName::Bytes),
            "nulls" => Some(TypeName::Nulls),
            "nulllist" => Some(TypeName::NullList),
            "elements" => Some(TypeName::Elements),
            "outer1" => Some(TypeName::Outer1),
            "outer2" => Some(TypeName::Outer2),
            "outer3" => Some(TypeName::Outer3),
            "group" => Some(TypeName::Grouped),
            "need0" => Some(TypeName::NoneNeeded),
            "need" => Some(TypeName::OneNeeded),
            "addd" => Some(TypeName::AddedDefault),
            "rel1" => Some(TypeName::Outers1),
            "rel3" => Some(TypeName::Outers3),
            "dv1" => Some(TypeName::BeforeNest),
            "dv2" => Some(TypeName::AddedNest),
            "grp1" => Some(TypeName::Grouped1),
            "grp2" => Some(TypeName::Grouped2),
            "col1" => Some(TypeName::OneColor),
            "col2" => Some(TypeName::TwoColors),
            "def1" => Some(TypeName::DefaultOuter1),
            "def3" => Some(TypeName::DefaultOuter3),
            "alt1" => Some(TypeName::OneAlternative),
            "alt2" => Some(TypeName::TwoAlternatives),
            "alternatives" => Some(TypeName::Alternatives),
            "many" => Some(TypeName::Many),
            "bag" => Some(TypeName::Bag),
            "utc" => Some(TypeName::UtcTime),
            "connect" => Some(TypeName::Connect),
            "set" => Some(TypeName::Set),
            "setopt" => Some(TypeName::SetOptional),
            "setchoice" => Some(TypeName::SetChoice),
            "date" => Some(TypeName::Date),
            "dnest" => Some(TypeName::DatedNest),
            "spare" => Some(TypeName::Spare),
            "pick" => Some(TypeName::Pick),
            "picked" => Some(TypeName::Picked),
            "signals" => Some(TypeName::Signals),
            _ => None,
        }
    }
}

impl Form {
    /// Which padding and spare bits are read in the input.
    pub fn padding(self) -> Padding
        ensures { result ≡ padding_of self }
    {
        match self {
            Form::OneLine | Form::Lines | Form::As(_) => Padding::Any,
            Form::Zero => Padding::Zero,
        }
    }

    /// The form that the words after the type name.
    fn of_words(words: &[String]) -> Option<Form>
        ensures named { IfSome result (λ f. map string_bytes words.now ≡ form_words f) }
        ensures unknown { IfNone result ((f : a_form) → map string_bytes words.now ≢ form_words f) }
    {
        match words {
            [] => Some(Form::OneLine),
            [word] => Form::of_word(word.as_str()),
            [word, other] => Form::of_two_words(word.as_str(), other.as_str()),
            _ => None,
        }
    }

    /// The form that one word names.
    fn of_word(word: &str) -> Option<Form>
        ensures named { IfSome result (λ f. word.now ∷ [] ≡ form_words f) }
        ensures unknown { IfNone result ((f : a_form) → word.now ∷ [] ≢ form_words f) }
    {
        match word {
            "lines" => Some(Form::Lines),
            "zero" => Some(Form::Zero),
            _ => None,
        }
    }

    /// The form that two words name.
    fn of_two_words(word: &str, other: &str) -> Option<Form>
        ensures named { IfSome result (λ f. word.now ∷ other.now ∷ [] ≡ form_words f) }
        ensures unknown { IfNone result ((f : a_form) → word.now ∷ other.now ∷ [] ≢ form_words f) }
    {
        match word {
            "as" => Some(Form::As(TypeName::of_word(other)?)),
            _ => None,
        }
    }
}

impl Arguments {
    /// The arguments that the words after the program's name spell: a codec, a type and a form.
    pub fn of_words(words: &[String]) -> Option<Arguments>
        ensures spelled { IfSome result (λ a. map string_bytes words.now ≡ words_of a) }
        ensures unknown { IfNone result ((a : the_arguments) → map string_bytes words.now ≢ words_of a) }
    {
        let [codec, type_name, form @ ..] = words else {
            return None;
        };
        Some(Arguments {
            codec: codec_of_word(codec.as_str())?,
            type_name: TypeName::of_word(type_name.as_str())?,
            form: Form::of_words(form)?,
        })
    }
}
