//! Work on octets of a type that is known by its name.

ghost use Rattle.std.specs.Prelude.{ℕ, List, IfOk, IfErr};
ghost use Rattle.rasn_below.specs.Types.{Schema};
ghost use Rattle.per_lines.specs.Recoding.{schema_of};

use crate::arguments::TypeName;
use per_samples_a::absent::OneDefault;
use per_samples_a::bounded::{OneToTenExtensible, ZeroTo65536};
use per_samples_a::four::Four;
use per_samples_a::half_bounded::{FromMinusOne, Natural, UpTo65535};
use per_samples_a::seven::Seven;
use per_samples_a::signals::Signals;
use per_samples_a::strings::{LettersAToE, OnlyX, ShortVisible};
use per_samples_b::added_default::AddedDefault;
use per_samples_b::alt1::Alt1;
use per_samples_b::alt2::Alt2;
use per_samples_b::grouped::Grouped;
use per_samples_b::many::Many;
use per_samples_b::none_needed::NoneNeeded;
use per_samples_b::one_needed::OneNeeded;
use per_samples_b::outer1::{Outer1, Outers1};
use per_samples_b::outer2::Outer2;
use per_samples_b::outer3::{Outer3, Outers3};
use per_samples_b::pick::Pick;
use per_samples_b::picked::Picked;
use per_samples_b::spare::Spare;
use per_samples_b::two_alternatives::TwoAlternatives;
use per_samples_c::added_nest::AddedNest;
use per_samples_c::before_nest::BeforeNest;
use per_samples_c::byte::Byte;
use per_samples_c::choice::Outer;
use per_samples_c::colors::TwoColors;
use per_samples_c::deep::Deep;
use per_samples_c::default_outer1::DefaultOuter1;
use per_samples_c::default_outer3::DefaultOuter3;
use per_samples_c::elements::Elements;
use per_samples_c::empty::MaybeEmpty;
use per_samples_c::grouped1::Grouped1;
use per_samples_c::grouped2::Grouped2;
use per_samples_c::items::WithItem;
use per_samples_c::lists::{Bytes, NullList, Nulls};
use per_samples_c::nest::Nest;
use per_samples_c::one_color::OneColor;
use per_samples_sets::connect::Connect;
use per_samples_sets::dnest::Dnest;
use per_samples_sets::set::Set;
use per_samples_sets::set_choice::SetChoice;
use per_samples_sets::set_optional::SetOptional;
use rasn_below::codec::{Decode, Encode};
use rasn_below::types::{BitString, Date, Integer, OctetString, SetOf, UtcTime};
use std::alloc::Global;

/// What is done with any type that is encoded and decoded.
pub trait Work {
    /// Why there is no answer.
    type Fault;

    // Which octets are an answer, for a type by its schema.
    ghost answers: { Self → (ℕ → Schema) → List ℕ → Type 0 };

    // Which faults may leave it without one.
    ghost refuses: { Self → (ℕ → Schema) → Self.Fault → Type 0 };

    /// The answer for this type.
    fn done_as<T: Encode + Decode>(&self, alloc: Global) -> Result<Vec<u8>, Self::Fault>
        ensures ok { IfOk result (λ answer. answers self.now (T.schema T.CONSTRAINTS) answer.items) }
        ensures err { IfErr result (refuses self.now (T.schema T.CONSTRAINTS)) };
}

/// The answer of this work for the type that a name stands for.
#[tactic(auto, unfolding(rasn_below::specs::Types::interval_of))]
pub fn done<W: Work>(alloc: Global, type_name: TypeName, work: &W) -> Result<Vec<u8>, W::Fault>
    ensures ok { IfOk result (λ answer. W.answers work.now (schema_of type_name) answer.items) }
    ensures err { IfErr result (W.refuses work.now (schema_of type_name)) }
{
    match type_name {
        TypeName::Boolean => work.done_as::<bool>(alloc),
        TypeName::Null => work.done_as::<()>(alloc),
        TypeName::Integer => work.done_as::<Integer>(alloc),
        TypeName::UpTo65535 => work.done_as::<UpTo65535>(alloc),
        TypeName::FromMinusOne => work.done_as::<FromMinusOne>(alloc),
        TypeName::Natural => work.done_as::<Natural>(alloc),
        TypeName::ZeroTo65536 => work.done_as::<ZeroTo65536>(alloc),
        TypeName::OneToTenExtensible => work.done_as::<OneToTenExtensible>(alloc),
        TypeName::Four => work.done_as::<Four>(alloc),
        TypeName::Seven => work.done_as::<Seven>(alloc),
        TypeName::OneDefault => work.done_as::<OneDefault>(alloc),
        TypeName::ShortVisible => work.done_as::<ShortVisible>(alloc),
        TypeName::LettersAToE => work.done_as::<LettersAToE>(alloc),
        TypeName::BitString => work.done_as::<BitString>(alloc),
        TypeName::OctetString => work.done_as::<OctetString>(alloc),
        TypeName::OnlyX => work.done_as::<OnlyX>(alloc),
        TypeName::Items => work.done_as::<WithItem>(alloc),
        TypeName::Byte => work.done_as::<Byte>(alloc),
        TypeName::MaybeEmpty => work.done_as::<MaybeEmpty>(alloc),
        TypeName::Nested => work.done_as::<Outer>(alloc),
        TypeName::Nest => work.done_as::<Nest>(alloc),
        TypeName::Deep => work.done_as::<Deep>(alloc),
        TypeName::Bytes => work.done_as::<Bytes>(alloc),
        TypeName::Nulls => work.done_as::<Nulls>(alloc),
        TypeName::NullList => work.done_as::<NullList>(alloc),
        TypeName::Elements => work.done_as::<Elements>(alloc),
        TypeName::Outer1 => work.done_as::<Outer1>(alloc),
        TypeName::Outer2 => work.done_as::<Outer2>(alloc),
        TypeName::Outer3 => work.done_as::<Outer3>(alloc),
        TypeName::Grouped => work.done_as::<Grouped>(alloc),
        TypeName::NoneNeeded => work.done_as::<NoneNeeded>(alloc),
        TypeName::OneNeeded => work.done_as::<OneNeeded>(alloc),
        TypeName::AddedDefault => work.done_as::<AddedDefault>(alloc),
        TypeName::Outers1 => work.done_as::<Outers1>(alloc),
        TypeName::Outers3 => work.done_as::<Outers3>(alloc),
        TypeName::BeforeNest => work.done_as::<BeforeNest>(alloc),
        TypeName::AddedNest => work.done_as::<AddedNest>(alloc),
        TypeName::Grouped1 => work.done_as::<Grouped1>(alloc),
        TypeName::Grouped2 => work.done_as::<Grouped2>(alloc),
        TypeName::OneColor => work.done_as::<OneColor>(alloc),
        TypeName::TwoColors => work.done_as::<TwoColors>(alloc),
        TypeName::DefaultOuter1 => work.done_as::<DefaultOuter1>(alloc),
        TypeName::DefaultOuter3 => work.done_as::<DefaultOuter3>(alloc),
        TypeName::OneAlternative => work.done_as::<Alt1>(alloc),
        TypeName::TwoAlternatives => work.done_as::<Alt2>(alloc),
        TypeName::Alternatives => work.done_as::<TwoAlternatives>(alloc),
        TypeName::Many => work.done_as::<Many>(alloc),
        TypeName::Bag => work.done_as::<SetOf<Integer>>(alloc),
        TypeName::UtcTime => work.done_as::<UtcTime>(alloc),
        TypeName::Connect => work.done_as::<Connect>(alloc),
        TypeName::Set => work.done_as::<Set>(alloc),
        TypeName::SetOptional => work.done_as::<SetOptional>(alloc),
        TypeName::SetChoice => work.done_as::<SetChoice>(alloc),
        TypeName::Date => work.done_as::<Date>(alloc),
        TypeName::DatedNest => work.done_as::<Dnest>(alloc),
        TypeName::Spare => work.done_as::<Spare>(alloc),
        TypeName::Pick => work.done_as::<Pick>(alloc),
        TypeName::Picked => work.done_as::<Picked>(alloc),
        TypeName::Signals => work.done_as::<Signals>(alloc),
    }
}
