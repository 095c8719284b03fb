//! All types that go by names.

ghost use Rattle.std.specs.Prelude.{◌≡◌, ◌≢◌, ◌<◌, IfErr, IfNone, IfOk, IfSome, length, slice_get};
ghost use Rattle.per_lines.specs.Types.{schema_of, types, word_of};
ghost use Rattle.per_lines.specs.declared.types.NamedType.{NamedType as a_type};

use crate::arguments::TypeName;
use crate::named;
use crate::named::Work;
use cam::cam::Cam;
use std::alloc::Global;

/// A type that goes by a name.
#[derive(Clone, Copy, Debug, PartialEq, Eq)]
pub enum NamedType {
    /// One of `docs/TYPES.md`.
    Sample(TypeName),
    /// CAM of ETSI EN 302 637-2.
    Cam,
}

/// The types, each at its place.
static TYPES: [NamedType; 60] = [
    NamedType::Sample(TypeName::Boolean),
    NamedType::Sample(TypeName::Null),
    NamedType::Sample(TypeName::Integer),
    NamedType::Sample(TypeName::UpTo65535),
    NamedType::Sample(TypeName::FromMinusOne),
    NamedType::Sample(TypeName::Natural),
    NamedType::Sample(TypeName::ZeroTo65536),
    NamedType::Sample(TypeName::OneToTenExtensible),
    NamedType::Sample(TypeName::Four),
    NamedType::Sample(TypeName::Seven),
    NamedType::Sample(TypeName::OneDefault),
    NamedType::Sample(TypeName::ShortVisible),
    NamedType::Sample(TypeName::LettersAToE),
    NamedType::Sample(TypeName::BitString),
    NamedType::Sample(TypeName::OctetString),
    NamedType::Sample(TypeName::OnlyX),
    NamedType::Sample(TypeName::Items),
    NamedType::Sample(TypeName::Byte),
    NamedType::Sample(TypeName::MaybeEmpty),
    NamedType::Sample(TypeName::Nested),
    NamedType::Sample(TypeName::Nest),
    NamedType::Sample(TypeName::Deep),
    NamedType::Sample(TypeName::Bytes),
    NamedType::Sample(TypeName::Nulls),
    NamedType::Sample(TypeName::NullList),
    NamedType::Sample(TypeName::Elements),
    NamedType::Sample(TypeName::Outer1),
    NamedType::Sample(TypeName::Outer2),
    NamedType::Sample(TypeName::Outer3),
    NamedType::Sample(TypeName::Grouped),
    NamedType::Sample(TypeName::NoneNeeded),
    NamedType::Sample(TypeName::OneNeeded),
    NamedType::Sample(TypeName::AddedDefault),
    NamedType::Sample(TypeName::Outers1),
    NamedType::Sample(TypeName::Outers3),
    NamedType::Sample(TypeName::BeforeNest),
    NamedType::Sample(TypeName::AddedNest),
    NamedType::Sample(TypeName::Grouped1),
    NamedType::Sample(TypeName::Grouped2),
    NamedType::Sample(TypeName::OneColor),
    NamedType::Sample(TypeName::TwoColors),
    NamedType::Sample(TypeName::DefaultOuter1),
    NamedType::Sample(TypeName::DefaultOuter3),
    NamedType::Sample(TypeName::OneAlternative),
    NamedType::Sample(TypeName::TwoAlternatives),
    NamedType::Sample(TypeName::Alternatives),
    NamedType::Sample(TypeName::Many),
    NamedType::Sample(TypeName::Bag),
    NamedType::Sample(TypeName::UtcTime),
    NamedType::Sample(TypeName::Connect),
    NamedType::Sample(TypeName::Set),
    NamedType::Sample(TypeName::SetOptional),
    NamedType::Sample(TypeName::SetChoice),
    NamedType::Sample(TypeName::Date),
    NamedType::Sample(TypeName::DatedNest),
    NamedType::Sample(TypeName::Spare),
    NamedType::Sample(TypeName::Pick),
    NamedType::Sample(TypeName::Picked),
    NamedType::Sample(TypeName::Signals),
    NamedType::Cam,
];

impl NamedType {
    /// The types, each at its place: those of the program over lines, and a message after them.
    pub fn all() -> &'static [NamedType]
        ensures { result.now ≡ types }
    {
        &TYPES
    }

    /// The type at a place.
    pub fn at(place: usize) -> Option<NamedType>
        ensures { result ≡ slice_get types place }
    {
        match NamedType::all().get(place) {
            Some(name) => Some(*name),
            None => None,
        }
    }

    /// The type of this name.
    pub fn of_word(word: &str) -> Option<NamedType>
        ensures named { IfSome result (λ t. word.now ≡ word_of t) }
        ensures unknown { IfNone result ((t : a_type) → word.now ≢ word_of t) }
    {
        match TypeName::of_word(word) {
            Some(name) => Some(NamedType::Sample(name)),
            None => match word {
                "CAM" => Some(NamedType::Cam),
                _ => None,
            },
        }
    }

    /// Its name, of fewer than 32 octets.
    pub fn word(self) -> &'static str
        ensures word { result.now ≡ word_of self }
        ensures short { length result.now < 32 }
    {
        match self {
            NamedType::Sample(name) => name.word(),
            NamedType::Cam => "CAM",
        }
    }
}

/// The answer of this work for the type that goes by a name.
pub fn done<W: Work>(alloc: Global, name: NamedType, work: &W) -> Result<Vec<u8>, W::Fault>
    ensures ok { IfOk result (λ answer. W.answers work.now (schema_of name) answer.items) }
    ensures err { IfErr result (W.refuses work.now (schema_of name)) }
{
    match name {
        NamedType::Sample(name) => named::done(alloc, name, work),
        NamedType::Cam => work.done_as::<Cam>(alloc),
    }
}
