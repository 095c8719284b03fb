//! The words that name the types that the program knows.

ghost use Rattle.std.specs.Prelude.{◌≡◌, ◌<◌, length};
ghost use Rattle.per_lines.specs.Words.{type_word};

use crate::arguments::TypeName;

impl TypeName {
    /// The word that names the type.
    pub fn word(self) -> &'static str
        ensures word { result.now ≡ type_word self }
        ensures short { length result.now < 32 }
    {
        match self {
            TypeName::Boolean => "boolean",
            TypeName::Null => "null",
            TypeName::Integer => "integer",
            TypeName::UpTo65535 => "upto",
            TypeName::FromMinusOne => "from",
            TypeName::Natural => "natural",
            TypeName::ZeroTo65536 => "i65536",
            TypeName::OneToTenExtensible => "iext",
            TypeName::Four => "four",
            TypeName::Seven => "seven",
            TypeName::OneDefault => "default",
            TypeName::ShortVisible => "vis",
            TypeName::LettersAToE => "five",
            TypeName::BitString => "bits",
            TypeName::OctetString => "octets",
            TypeName::OnlyX => "onlyx",
            TypeName::Items => "items",
            TypeName::Byte => "byte",
            TypeName::MaybeEmpty => "empty",
            TypeName::Nested => "nested",
            TypeName::Nest => "nest",
            TypeName::Deep => "deep",
            TypeName::Bytes => "bytes",
            TypeName::Nulls => "nulls",
            TypeName::NullList => "nulllist",
            TypeName::Elements => "elements",
            TypeName::Outer1 => "outer1",
            TypeName::Outer2 => "outer2",
            TypeName::Outer3 => "outer3",
            TypeName::Grouped => "group",
            TypeName::NoneNeeded => "need0",
            TypeName::OneNeeded => "need",
            TypeName::AddedDefault => "addd",
            TypeName::Outers1 => "rel1",
            TypeName::Outers3 => "rel3",
            TypeName::BeforeNest => "dv1",
            TypeName::AddedNest => "dv2",
            TypeName::Grouped1 => "grp1",
            TypeName::Grouped2 => "grp2",
            TypeName::OneColor => "col1",
            TypeName::TwoColors => "col2",
            TypeName::DefaultOuter1 => "def1",
            TypeName::DefaultOuter3 => "def3",
            TypeName::OneAlternative => "alt1",
            TypeName::TwoAlternatives => "alt2",
            TypeName::Alternatives => "alternatives",
            TypeName::Many => "many",
            TypeName::Bag => "bag",
            TypeName::UtcTime => "utc",
            TypeName::Connect => "connect",
            TypeName::Set => "set",
            TypeName::SetOptional => "setopt",
            TypeName::SetChoice => "setchoice",
            TypeName::Date => "date",
            TypeName::DatedNest => "dnest",
            TypeName::Spare => "spare",
            TypeName::Pick => "pick",
            TypeName::Picked => "picked",
            TypeName::Signals => "signals",
        }
    }
}
