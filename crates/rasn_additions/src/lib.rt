//! The calls of every encoder that give the additions after an extension marker, and those of every decoder that read
//! them, by the types of their values; and additions by their list, as cells of which the macros of `rasn_below` make
//! an
//! author's list.
#![tactic(auto)]

ghost use Rattle.std.specs.Prelude.{◌≡◌, Option, Some, option_map};
ghost use Rattle.rasn_traits.specs.Additions.{GivesAddition, GivesGroup};
ghost use Rattle.rasn_traits.specs.AdditionsRead.{TakesAddition};
ghost use Rattle.rasn_traits.specs.Presences.{slot_of};

pub mod added;
pub mod additions;

use rasn_codec::codec::{Decode, Encode};
use rasn_schema::fields::AdditionGroup;
use rasn_schema::schema::Constraints;
use rasn_traits::decoder::Decoder;
use rasn_traits::encoder::Encoder;
use rasn_types::types::{Identifier, Tag};

/// What is given of an addition: a value, or an `Option` of one, by reference.
pub trait AdditionValue: Copy {
    /// The type of the addition.
    type Of: Encode;

    // The value, where there is one.
    ghost there: { Self → Option Self.Of };

    /// The value, where there is one.
    fn value_there(&self) -> Option<&Self::Of>
        ensures { option_map (λ x. x.now) result ≡ there self.now };
}

/// A value is there.
impl<'a, T: Encode> AdditionValue for &'a T {
    type Of = T;

    ghost there = { λ x. Some x.now };

    fn value_there(&self) -> Option<&T> {
        Some(*self)
    }
}

/// A value is there where the `Option` is `Some`.
impl<'a, T: Encode> AdditionValue for Option<&'a T> {
    type Of = T;

    ghost there = { option_map (λ x. x.now) };

    fn value_there(&self) -> Option<&T> {
        *self
    }
}

/// What every encoder gives of additions, in the scope of their SEQUENCE and after its root components, one call for
/// each addition of the type, in the order of `EXTENDED_FIELDS`.
pub trait ExtensionEncoder: Encoder {
    /// Gives the next addition (X.691 19.7 to 19.9): its value in an open type, under a tag, constraints and a name; or
    /// that it is `None`, where it is absent, or at its default. One that is required is always there. One addition
    /// more
    /// than the type has is refused.
    final fn encode_extension_addition<V: AdditionValue>(
        &mut self,
        tag: Tag,
        constraints: &Constraints,
        value: V,
        identifier: Identifier,
    ) -> Result<(), Self::Error>
        ensures { GivesAddition Self.rules (V.Of.schema constraints.now) V.Of.levels V.Of.value
            (V.there value) self.old result self.new }
    {
        let Some(value) = value.value_there() else {
            return self.skip_addition();
        };
        let outside = self.open_addition()?;
        value.encode_with_tag_and_constraints(self, tag, constraints, identifier)?;
        self.close_addition(outside)
    }

    /// Gives the next addition, which is a group of additions (X.691 19.9): a SEQUENCE in an open type, under a name;
    /// or
    /// nothing, where it is `None`, or holds nothing.
    final fn encode_extension_addition_group<T: Encode + AdditionGroup>(
        &mut self,
        value: Option<&T>,
        identifier: Identifier,
    ) -> Result<(), Self::Error>
        ensures { GivesGroup Self.rules (T.schema T.CONSTRAINTS) (λ x. T.levels x.now) (λ x. T.value x.now)
            value.entry self.old result self.new }
    {
        let Some(group) = value else {
            return self.skip_addition();
        };
        let outside = self.open_addition()?;
        group.encode_with_tag_and_constraints(self, T::TAG, &T::CONSTRAINTS, identifier)?;
        self.close_group::<T>(outside)
    }
}

impl<E: Encoder> ExtensionEncoder for E {}

/// What every decoder reads of additions, in the scope of their SEQUENCE and after its root components, one call for
/// each addition of the type, in the order of `EXTENDED_FIELDS`.
pub trait ExtensionDecoder: Decoder {
    /// Reads the next addition (X.691 19.7 to 19.9), the value in its open type, under its type's own tag and
    /// constraints; or answers `None`, where it isn't there.
    final fn decode_extension_addition<T: Decode>(&mut self) -> Result<Option<T>, Self::Error>
        ensures { TakesAddition Self.rules (T.schema T.CONSTRAINTS (Self.rules.levels self.old)) (slot_of T.value)
            self.old result self.new }
    {
        self.decode_extension_addition_with_tag_and_constraints(T::TAG, &T::CONSTRAINTS)
    }

    /// Reads the next addition under its type's own tag and under constraints; or answers `None`, where it isn't there.
    final fn decode_extension_addition_with_constraints<T: Decode>(
        &mut self,
        constraints: &Constraints,
    ) -> Result<Option<T>, Self::Error>
        ensures { TakesAddition Self.rules (T.schema constraints.now (Self.rules.levels self.old)) (slot_of T.value)
            self.old result self.new }
    {
        self.decode_extension_addition_with_tag_and_constraints(T::TAG, constraints)
    }

    /// Reads the next addition under a tag and constraints; or answers `None`, where it isn't there.
    final fn decode_extension_addition_with_tag_and_constraints<T: Decode>(
        &mut self,
        tag: Tag,
        constraints: &Constraints,
    ) -> Result<Option<T>, Self::Error>
        ensures { TakesAddition Self.rules (T.schema constraints.now (Self.rules.levels self.old)) (slot_of T.value)
            self.old result self.new }
    {
        let Some(outside) = self.open_addition()? else {
            return Ok(None);
        };
        let value = T::decode_with_tag_and_constraints(self, tag, constraints)?;
        self.close_addition(outside)?;
        Ok(Some(value))
    }

    /// Reads the next addition under an explicit tag, which isn't written (X.691 11), and constraints; or answers
    /// `None`, where it isn't there.
    final fn decode_extension_addition_with_explicit_tag_and_constraints<T: Decode>(
        &mut self,
        tag: Tag,
        constraints: &Constraints,
    ) -> Result<Option<T>, Self::Error>
        ensures { TakesAddition Self.rules (T.schema constraints.now (Self.rules.levels self.old)) (slot_of T.value)
            self.old result self.new }
    {
        self.decode_extension_addition_with_tag_and_constraints(tag, constraints)
    }

    /// Reads the next addition, which is a group of additions (X.691 19.9): the SEQUENCE in its open type; or answers
    /// `None`, where it isn't there.
    final fn decode_extension_addition_group<T: Decode + AdditionGroup>(
        &mut self,
    ) -> Result<Option<T>, Self::Error>
        ensures { TakesAddition Self.rules (T.schema T.CONSTRAINTS (Self.rules.levels self.old)) (slot_of T.value)
            self.old result self.new }
    {
        self.decode_extension_addition::<T>()
    }
}

impl<D: Decoder> ExtensionDecoder for D {}
