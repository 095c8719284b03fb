//! Why a call has no answer, and the codes that tell it.

ghost use Rattle.std.specs.Prelude.{◌≡◌, ◌<◌, IsSomeAnd, None, length};
ghost use Rattle.per_c.specs.Numbers.{code_of, last_code, decode_code, encode_code, from_json_code, json_code};
ghost use Rattle.per_c.specs.Numbers.{message_refusal, name_of, refusal_of};
ghost use Rattle.per_messages.specs.Errors.{from_json_name};
ghost use Rattle.per_c.specs.declared.refusal.Refusal.{Refusal as a_refusal};
ghost use Rattle.per_c.specs.declared.refusal.Refusal.TheVariants.{Decode as decode_refusal, Encode as encode_refusal};
ghost use Rattle.per_c.specs.declared.refusal.Refusal.TheVariants.{Json as json_refusal};
ghost use Rattle.per_core.specs.declared.decode_error.DecodeErrorKind.{DecodeErrorKind as a_decode_kind};
ghost use Rattle.per_core.specs.declared.encode_error.EncodeErrorKind.{EncodeErrorKind as an_encode_kind};
ghost use Rattle.rasn_dynamic_jer.specs.declared.from_json_error.FromJsonError.{FromJsonError as a_from_json_error};

use line_replies::fault::Fault;
use per_messages::error::{MessageError, from_json_name};
use rasn_below::types::Tag;
use rasn_constraints::bounds::OutOfBounds;
use rasn_constraints::count::Count;
use rasn_constraints::sizes::OutOfSize;
use rasn_dynamic_jer::from_json_error::FromJsonError;
use rasn_jer::EncodeError as JsonError;
use rasn_per::uper::{DecodeError, DecodeErrorKind, EncodeErrorKind, ParserFailCause};

/// Why a call has no answer.
#[derive(Clone, Copy)]
pub enum Refusal {
    /// Memory ran out.
    OutOfMemory,
    /// The options are none that there are.
    UnknownOptions,
    /// The number is no type's.
    UnknownType,
    /// The answer is longer than the room for it.
    NoRoom,
    /// The octets are no encoding of a value of the type.
    Decode(DecodeErrorKind),
    /// The value has no canonical encoding.
    Encode(EncodeErrorKind),
    /// The value has no JSON.
    Json(JsonError),
    /// The handle holds no table of types.
    NoTypes,
    /// The handle holds a table already.
    AlreadyLoaded,
    /// The text is no schema file.
    BadSchema,
    /// An open type has a value of another type than its object set tells.
    OtherType,
    /// The text is no JSON of a value of the type.
    FromJson(FromJsonError),
}

impl Refusal {
    /// A refusal that has the code.
    pub fn of_code(code: u32) -> Option<Refusal>
        ensures known { (refusal : a_refusal) → code ≡ code_of refusal
            → IsSomeAnd result (λ found. name_of found ≡ name_of refusal) }
        ensures none { code ≡ 0 → result ≡ None }
        ensures unknown { last_code < code → result ≡ None }
    {
        match code {
            1 => Some(Refusal::OutOfMemory),
            2 => Some(Refusal::UnknownOptions),
            3 => Some(Refusal::UnknownType),
            4 => Some(Refusal::NoRoom),
            5..=25 => Some(Refusal::Decode(decode_kind(code))),
            26..=35 => Some(Refusal::Encode(encode_kind(code))),
            36 => Some(Refusal::Json(JsonError::NoJson)),
            37 => Some(Refusal::Json(JsonError::VariantNotInChoice)),
            38 => Some(Refusal::Json(JsonError::AlreadyFailed)),
            39 => Some(Refusal::Json(JsonError::OutOfTurn)),
            40 => Some(Refusal::Encode(EncodeErrorKind::WrongKind)),
            41 => Some(Refusal::NoTypes),
            42 => Some(Refusal::AlreadyLoaded),
            43 => Some(Refusal::BadSchema),
            44 => Some(Refusal::OtherType),
            45..=57 => Some(Refusal::FromJson(from_json_error(code))),
            _ => None,
        }
    }

    /// The code by which `per.h` names the refusal.
    pub fn code(&self) -> u32
        ensures code { result ≡ code_of self.now }
        ensures some { 0 < result }
    {
        match self {
            Refusal::OutOfMemory => 1,
            Refusal::UnknownOptions => 2,
            Refusal::UnknownType => 3,
            Refusal::NoRoom => 4,
            Refusal::Decode(kind) => decode_code(kind),
            Refusal::Encode(kind) => encode_code(kind),
            Refusal::Json(error) => json_code(error),
            Refusal::NoTypes => 41,
            Refusal::AlreadyLoaded => 42,
            Refusal::BadSchema => 43,
            Refusal::OtherType => 44,
            Refusal::FromJson(error) => from_json_code(error),
        }
    }

    /// The refusal's name, as `OutOfMemory`.
    #[tactic(auto, using(crate::proofs::Codes::decode_short, crate::proofs::Codes::encode_short))]
    pub fn name(&self) -> &'static str
        ensures name { result.now ≡ name_of self.now }
        ensures short { length result.now < 32 }
    {
        match self {
            Refusal::OutOfMemory => "OutOfMemory",
            Refusal::UnknownOptions => "UnknownOptions",
            Refusal::UnknownType => "UnknownType",
            Refusal::NoRoom => "NoRoom",
            Refusal::Decode(kind) => kind.name(),
            Refusal::Encode(kind) => kind.name(),
            Refusal::Json(error) => json_name(error),
            Refusal::NoTypes => "NoTypes",
            Refusal::AlreadyLoaded => "AlreadyLoaded",
            Refusal::BadSchema => "BadSchema",
            Refusal::OtherType => "OtherType",
            Refusal::FromJson(error) => told_name(*error),
        }
    }
}

/// A kind of a decoder's refusal that has the code, where one has. The numbers in it mean nothing.
fn decode_kind(code: u32) -> DecodeErrorKind
    ensures { (kind : a_decode_kind) → code ≡ decode_code kind → name_of (decode_refusal result)
        ≡ name_of (decode_refusal kind) }
{
    match code {
        5 => DecodeErrorKind::Incomplete(Count::new(0)),
        6 => DecodeErrorKind::ParserFail(ParserFailCause::FragmentCode),
        7 => DecodeErrorKind::UnexpectedExtraData(Count::new(0)),
        8 => DecodeErrorKind::MissingTag,
        9 => DecodeErrorKind::TypeNotExtensible,
        10 => DecodeErrorKind::ExceedsMaxLength,
        11 => DecodeErrorKind::IntegerOverflow(0),
        12 => DecodeErrorKind::SizeConstraintNotSatisfied(OutOfSize {
            size: 0,
            lower: None,
            upper: None,
        }),
        13 => DecodeErrorKind::ValueConstraintNotSatisfied(OutOfBounds::new(None, None, None)),
        14 => DecodeErrorKind::PermittedAlphabet,
        15 => DecodeErrorKind::EnumerationIndexNotFound(0, false),
        16 => DecodeErrorKind::ChoiceIndexNotFound(0),
        17 => DecodeErrorKind::ChoiceIndexExceedsPlatformWidth,
        18 => DecodeErrorKind::RequiredExtensionNotPresent(Tag::EOC),
        19 => DecodeErrorKind::ExceedsMaxParseDepth,
        20 => DecodeErrorKind::StringConversionFailed,
        21 => DecodeErrorKind::InvalidDate,
        22 => DecodeErrorKind::RealNotSupported,
        23 => DecodeErrorKind::Below,
        24 => DecodeErrorKind::UnexpectedEmptyInput,
        25 => DecodeErrorKind::AlreadyFailed,
        _ => DecodeErrorKind::OutOfMemory,
    }
}

/// A kind of an encoder's refusal that has the code, where one has. The numbers in it mean nothing.
fn encode_kind(code: u32) -> EncodeErrorKind
    ensures { (kind : an_encode_kind) → code ≡ encode_code kind → name_of (encode_refusal result)
        ≡ name_of (encode_refusal kind) }
{
    match code {
        26 => EncodeErrorKind::SizeConstraintNotSatisfied(OutOfSize {
            size: 0,
            lower: None,
            upper: None,
        }),
        27 => EncodeErrorKind::ValueConstraintNotSatisfied(OutOfBounds::new(None, None, None)),
        28 => EncodeErrorKind::AlphabetConstraintNotSatisfied,
        29 => EncodeErrorKind::IntegerTypeConversionFailed,
        30 => EncodeErrorKind::VariantNotInChoice,
        31 => EncodeErrorKind::RealNotSupported,
        32 => EncodeErrorKind::TooManyAdditions,
        33 => EncodeErrorKind::Below,
        34 => EncodeErrorKind::AlreadyFailed,
        35 => EncodeErrorKind::OutOfTurn,
        40 => EncodeErrorKind::WrongKind,
        _ => EncodeErrorKind::OutOfMemory,
    }
}

/// The code of a decoder's refusal.
fn decode_code(kind: &DecodeErrorKind) -> u32
    ensures code { result ≡ decode_code kind.now }
    ensures some { 0 < result }
{
    match kind {
        DecodeErrorKind::OutOfMemory => 1,
        DecodeErrorKind::Incomplete(_) => 5,
        DecodeErrorKind::ParserFail(_) => 6,
        DecodeErrorKind::UnexpectedExtraData(_) => 7,
        DecodeErrorKind::MissingTag => 8,
        DecodeErrorKind::TypeNotExtensible => 9,
        DecodeErrorKind::ExceedsMaxLength => 10,
        DecodeErrorKind::IntegerOverflow(_) => 11,
        DecodeErrorKind::SizeConstraintNotSatisfied(_) => 12,
        DecodeErrorKind::ValueConstraintNotSatisfied(_) => 13,
        DecodeErrorKind::PermittedAlphabet => 14,
        DecodeErrorKind::EnumerationIndexNotFound(..) => 15,
        DecodeErrorKind::ChoiceIndexNotFound(_) => 16,
        DecodeErrorKind::ChoiceIndexExceedsPlatformWidth => 17,
        DecodeErrorKind::RequiredExtensionNotPresent(_) => 18,
        DecodeErrorKind::ExceedsMaxParseDepth => 19,
        DecodeErrorKind::StringConversionFailed => 20,
        DecodeErrorKind::InvalidDate => 21,
        DecodeErrorKind::RealNotSupported => 22,
        DecodeErrorKind::Below => 23,
        DecodeErrorKind::UnexpectedEmptyInput => 24,
        DecodeErrorKind::AlreadyFailed => 25,
    }
}

/// The code of an encoder's refusal.
fn encode_code(kind: &EncodeErrorKind) -> u32
    ensures code { result ≡ encode_code kind.now }
    ensures some { 0 < result }
{
    match kind {
        EncodeErrorKind::OutOfMemory => 1,
        EncodeErrorKind::SizeConstraintNotSatisfied(_) => 26,
        EncodeErrorKind::ValueConstraintNotSatisfied(_) => 27,
        EncodeErrorKind::AlphabetConstraintNotSatisfied => 28,
        EncodeErrorKind::IntegerTypeConversionFailed => 29,
        EncodeErrorKind::VariantNotInChoice => 30,
        EncodeErrorKind::RealNotSupported => 31,
        EncodeErrorKind::TooManyAdditions => 32,
        EncodeErrorKind::Below => 33,
        EncodeErrorKind::AlreadyFailed => 34,
        EncodeErrorKind::OutOfTurn => 35,
        EncodeErrorKind::WrongKind => 40,
    }
}

/// The code of a refusal of JSON's encoder.
fn json_code(error: &JsonError) -> u32
    ensures code { result ≡ json_code error.now }
    ensures some { 0 < result }
{
    match error {
        JsonError::OutOfMemory => 1,
        JsonError::NoJson => 36,
        JsonError::VariantNotInChoice => 37,
        JsonError::AlreadyFailed => 38,
        JsonError::OutOfTurn => 39,
    }
}

/// The name of a refusal of JSON's encoder.
#[tactic(auto, using(crate::proofs::Codes::json_short))]
fn json_name(error: &JsonError) -> &'static str
    ensures name { result.now ≡ name_of (json_refusal error.now) }
    ensures short { length result.now < 32 }
{
    error.name()
}

/// The code of why JSON tells no value.
fn from_json_code(error: &FromJsonError) -> u32
    ensures code { result ≡ from_json_code error.now }
    ensures some { 0 < result }
{
    match error {
        FromJsonError::OutOfMemory => 1,
        FromJsonError::NotJson => 45,
        FromJsonError::DuplicateMember => 46,
        FromJsonError::UnknownMember => 47,
        FromJsonError::MissingMember => 48,
        FromJsonError::UnknownItem => 49,
        FromJsonError::UnknownAlternative => 50,
        FromJsonError::WrongKind => 51,
        FromJsonError::BadNumber => 52,
        FromJsonError::BadHexadecimal => 53,
        FromJsonError::BadCharacter => 54,
        FromJsonError::BadTime => 55,
        FromJsonError::NoType => 56,
        FromJsonError::BadIdentifier => 57,
    }
}

/// Why JSON tells no value, where a code says that.
fn from_json_error(code: u32) -> FromJsonError
    ensures { (error : a_from_json_error) → code ≡ from_json_code error → from_json_name result ≡ from_json_name error }
{
    match code {
        45 => FromJsonError::NotJson,
        46 => FromJsonError::DuplicateMember,
        47 => FromJsonError::UnknownMember,
        48 => FromJsonError::MissingMember,
        49 => FromJsonError::UnknownItem,
        50 => FromJsonError::UnknownAlternative,
        51 => FromJsonError::WrongKind,
        52 => FromJsonError::BadNumber,
        53 => FromJsonError::BadHexadecimal,
        54 => FromJsonError::BadCharacter,
        55 => FromJsonError::BadTime,
        56 => FromJsonError::NoType,
        57 => FromJsonError::BadIdentifier,
        _ => FromJsonError::OutOfMemory,
    }
}

/// The name of why JSON tells no value.
#[tactic(auto, using(crate::proofs::Codes::from_json_short))]
fn told_name(error: FromJsonError) -> &'static str
    ensures name { result.now ≡ from_json_name error }
    ensures short { length result.now < 32 }
{
    from_json_name(error)
}

impl From<MessageError> for Refusal {
    ghost from_gives = { λ error refusal. refusal ≡ message_refusal error };

    fn from(error: MessageError) -> Refusal {
        match error {
            MessageError::Decode(kind) => Refusal::Decode(kind),
            MessageError::Encode(kind) => Refusal::Encode(kind),
            MessageError::NoJson => Refusal::Json(JsonError::NoJson),
            MessageError::OtherType => Refusal::OtherType,
            MessageError::FromJson(error) => Refusal::FromJson(error),
            MessageError::OutOfMemory => Refusal::OutOfMemory,
        }
    }
}

impl From<DecodeError> for Refusal {
    ghost from_gives = { λ error refusal. refusal ≡ decode_refusal error.kind };

    fn from(error: DecodeError) -> Refusal {
        Refusal::Decode(error.kind)
    }
}

impl From<JsonError> for Refusal {
    ghost from_gives = { λ error refusal. refusal ≡ json_refusal error };

    fn from(error: JsonError) -> Refusal {
        Refusal::Json(error)
    }
}

impl From<Fault> for Refusal {
    ghost from_gives = { λ fault refusal. refusal ≡ refusal_of fault };

    fn from(fault: Fault) -> Refusal {
        match fault {
            Fault::Decode(kind) => Refusal::Decode(kind),
            Fault::Encode(kind) => Refusal::Encode(kind),
            // No others are faults of octets.
            Fault::WrongArguments
            | Fault::CannotRead
            | Fault::BadHexadecimal
            | Fault::CannotWrite
            | Fault::OutOfMemory => Refusal::OutOfMemory,
        }
    }
}
