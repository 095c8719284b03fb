//! Codecs, tags, identifiers and values.

ghost use Rattle.std.specs.Prelude.{◌≡◌};

pub use crate::big::Integer;
pub use crate::bit_string::BitString;
pub use crate::named_bits::NamedBits;
pub use crate::octet_strings::{
    Any, GeneralString, GraphicString, OctetString, TeletexString, Utf8String,
};
use std::fmt;

/// A variant of the packed encoding rules (X.691 7).
#[derive(Clone, Copy, Debug, PartialEq, Eq)]
pub enum Codec {
    /// The ALIGNED variant.
    Aper,
    /// The UNALIGNED variant.
    Uper,
}

/// A class of tags (X.680 8.1), in ascending order.
#[derive(Clone, Copy, Debug, PartialEq, Eq, PartialOrd, Ord, Hash)]
pub enum Class {
    Universal,
    Application,
    Context,
    Private,
}

/// Prints the class as a tag names it (X.680 31.2), and a context-specific one, which has no name there, as `CONTEXT`.
impl fmt::Display for Class {
    fn fmt<W: fmt::Write>(&self, f: &mut fmt::Formatter<W>) -> fmt::Result {
        f.write_str(match *self {
            Class::Universal => "UNIVERSAL",
            Class::Application => "APPLICATION",
            Class::Context => "CONTEXT",
            Class::Private => "PRIVATE",
        })
    }
}

/// A tag (X.680 8.1). Tags are ordered by class, then by value (X.680 8.6). The constants are universal tags (X.680
/// 8.4).
#[derive(Clone, Copy, Debug, PartialEq, Eq, PartialOrd, Ord, Hash)]
pub struct Tag {
    /// The class.
    pub class: Class,
    /// The number within the class.
    pub value: u32,
}

impl Tag {
    /// The tag of no type: of a value whose type isn't known.
    pub const EOC: Tag = Tag {
        class: Class::Universal,
        value: 0,
    };

    /// The tag of BOOLEAN.
    pub const BOOL: Tag = Tag {
        class: Class::Universal,
        value: 1,
    };

    /// The tag of INTEGER.
    pub const INTEGER: Tag = Tag {
        class: Class::Universal,
        value: 2,
    };

    /// The tag of BIT STRING.
    pub const BIT_STRING: Tag = Tag {
        class: Class::Universal,
        value: 3,
    };

    /// The tag of OCTET STRING.
    pub const OCTET_STRING: Tag = Tag {
        class: Class::Universal,
        value: 4,
    };

    /// The tag of NULL.
    pub const NULL: Tag = Tag {
        class: Class::Universal,
        value: 5,
    };

    /// The tag of OBJECT IDENTIFIER.
    pub const OBJECT_IDENTIFIER: Tag = Tag {
        class: Class::Universal,
        value: 6,
    };

    /// The tag of REAL.
    pub const REAL: Tag = Tag {
        class: Class::Universal,
        value: 9,
    };

    /// The tag of ENUMERATED.
    pub const ENUMERATED: Tag = Tag {
        class: Class::Universal,
        value: 10,
    };

    /// The tag of UTF8String.
    pub const UTF8_STRING: Tag = Tag {
        class: Class::Universal,
        value: 12,
    };

    /// The tag of SEQUENCE and SEQUENCE OF.
    pub const SEQUENCE: Tag = Tag {
        class: Class::Universal,
        value: 16,
    };

    /// The tag of SET and SET OF.
    pub const SET: Tag = Tag {
        class: Class::Universal,
        value: 17,
    };

    /// The tag of NumericString.
    pub const NUMERIC_STRING: Tag = Tag {
        class: Class::Universal,
        value: 18,
    };

    /// The tag of PrintableString.
    pub const PRINTABLE_STRING: Tag = Tag {
        class: Class::Universal,
        value: 19,
    };

    /// The tag of TeletexString.
    pub const TELETEX_STRING: Tag = Tag {
        class: Class::Universal,
        value: 20,
    };

    /// The tag of IA5String.
    pub const IA5_STRING: Tag = Tag {
        class: Class::Universal,
        value: 22,
    };

    /// The tag of UTCTime.
    pub const UTC_TIME: Tag = Tag {
        class: Class::Universal,
        value: 23,
    };

    /// The tag of GeneralizedTime.
    pub const GENERALIZED_TIME: Tag = Tag {
        class: Class::Universal,
        value: 24,
    };

    /// The tag of GraphicString.
    pub const GRAPHIC_STRING: Tag = Tag {
        class: Class::Universal,
        value: 25,
    };

    /// The tag of VisibleString.
    pub const VISIBLE_STRING: Tag = Tag {
        class: Class::Universal,
        value: 26,
    };

    /// The tag of GeneralString.
    pub const GENERAL_STRING: Tag = Tag {
        class: Class::Universal,
        value: 27,
    };

    /// The tag of BMPString.
    pub const BMP_STRING: Tag = Tag {
        class: Class::Universal,
        value: 30,
    };

    /// The tag of DATE.
    pub const DATE: Tag = Tag {
        class: Class::Universal,
        value: 31,
    };

    /// A tag of a class with a value.
    pub const fn new(class: Class, value: u32) -> Tag
        ensures class { result.class ≡ class }
        ensures value { result.value ≡ value }
    {
        Tag { class, value }
    }
}

/// Prints the tag in ASN.1's notation (X.680 31.2), such as `[UNIVERSAL 2]`, or `[2]` where it is context-specific.
impl fmt::Display for Tag {
    fn fmt<W: fmt::Write>(&self, f: &mut fmt::Formatter<W>) -> fmt::Result {
        let (class, value) = (self.class, self.value);
        match class {
            Class::Context => write!(f, "[{value}]"),
            _ => write!(f, "[{class} {value}]"),
        }
    }
}

/// The name that a value is given in its schema, where it has one. The packed encoding rules write no names.
#[derive(Clone, Copy, Debug, PartialEq, Eq, PartialOrd, Ord, Hash)]
pub struct Identifier(pub Option<&'static str>);

impl Identifier {
    /// No name.
    pub const EMPTY: Identifier = Identifier(None);
}

/// Prints the name, or nothing where there is none.
impl fmt::Display for Identifier {
    fn fmt<W: fmt::Write>(&self, f: &mut fmt::Formatter<W>) -> fmt::Result {
        f.write_str(self.0.unwrap_or(""))
    }
}
