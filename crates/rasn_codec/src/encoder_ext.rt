//! The calls of every encoder that write values of a type of its own.

ghost use Rattle.std.specs.Prelude.{suc, map};
ghost use Rattle.std.specs.Fn.{FnOnceReturnsAt};
ghost use Rattle.rasn_schema.specs.Choices.{choices_of};
ghost use Rattle.rasn_schema.specs.Structures.{tag_of, list_value};
ghost use Rattle.rasn_schema.specs.Forms.{size_of, is_size_marked};
ghost use Rattle.rasn_traits.specs.Choices.{EncodesAlternative};
ghost use Rattle.rasn_traits.specs.Optionals.{EncodesDefault, EncodesNone, EncodesSome};
ghost use Rattle.rasn_traits.specs.Calls.{Encodes};
ghost use Rattle.rasn_schema.specs.Lists.{deepest, list_at};

use crate::codec::Encode;
use rasn_schema::choices::Choice;
use rasn_schema::schema::Constraints;
use rasn_traits::encoder::Encoder;
use rasn_types::types::{Identifier, Tag};

/// What every encoder writes by the type of a value.
pub trait EncoderExt: Encoder {
    /// Writes a SEQUENCE OF under constraints (X.691 20), of which the size counts elements.
    final fn encode_sequence_of<T: Encode>(
        &mut self,
        tag: Tag,
        values: &[T],
        constraints: &Constraints,
        identifier: Identifier,
    ) -> Result<(), Self::Error>
        ensures { let size = size_of constraints.now in
            Encodes Self.rules (list_at (T.schema T.CONSTRAINTS) size (is_size_marked constraints.now))
            (suc (deepest T.levels values.now)) (list_value (map T.value values.now)) self.old result self.new }
    {
        let mut list = self.open_elements(tag, constraints, values.len(), identifier)?;
        for value in values {
            self.next_element_in_turn(&mut list)?;
            value.encode(self)?;
        }
        self.close_elements(list)
    }

    /// Writes a CHOICE (X.691 23) by the value of the alternative that goes by the tag `chosen`: the type's own tag, or
    /// the smallest of a nested untagged choice. It is in the root, or after the extension marker.
    final fn encode_alternative<C: Choice, T: Encode>(
        &mut self,
        tag: Tag,
        chosen: Tag,
        value: &T,
        identifier: Identifier,
    ) -> Result<(), Self::Error>
        ensures { EncodesAlternative Self.rules (choices_of C.alternatives C.EXTENDED_VARIANTS C.added) C.VARIANTS
            C.EXTENDED_VARIANTS (tag_of chosen) (T.schema T.CONSTRAINTS) (T.levels value.now) (T.value value.now)
            self.old result self.new }
    {
        let outside = self.open_choice::<C>(tag, identifier)?;
        value.encode_with_tag(self, chosen)?;
        self.close_choice::<C>(outside, chosen)
    }

    /// Writes a value whose type has an explicit tag (X.680 31): no tag is written in PER, so the value is alone.
    final fn encode_explicit_prefix<T: Encode>(
        &mut self,
        _tag: Tag,
        value: &T,
        identifier: Identifier,
    ) -> Result<(), Self::Error>
        ensures { Encodes Self.rules (T.schema T.CONSTRAINTS) (T.levels value.now) (T.value value.now)
            self.old result self.new }
    {
        value.encode_with_tag_and_constraints(self, T::TAG, &T::CONSTRAINTS, identifier)
    }

    /// Writes an optional component that is there, under its type's own tag and constraints.
    final fn encode_some<T: Encode>(
        &mut self,
        value: &T,
        identifier: Identifier,
    ) -> Result<(), Self::Error>
        ensures { EncodesSome Self.rules (T.schema T.CONSTRAINTS) (T.levels value.now) (T.value value.now)
            self.old result self.new }
    {
        self.encode_some_with_tag(T::TAG, value, identifier)
    }

    /// Writes an optional component that is there, under a tag and its type's own constraints.
    final fn encode_some_with_tag<T: Encode>(
        &mut self,
        tag: Tag,
        value: &T,
        identifier: Identifier,
    ) -> Result<(), Self::Error>
        ensures { EncodesSome Self.rules (T.schema T.CONSTRAINTS) (T.levels value.now) (T.value value.now)
            self.old result self.new }
    {
        self.encode_some_with_tag_and_constraints(tag, &T::CONSTRAINTS, value, identifier)
    }

    /// Writes an optional component that is there, under its type's own tag and under constraints.
    final fn encode_some_with_constraints<T: Encode>(
        &mut self,
        constraints: &Constraints,
        value: &T,
        identifier: Identifier,
    ) -> Result<(), Self::Error>
        ensures { EncodesSome Self.rules (T.schema constraints.now) (T.levels value.now) (T.value value.now)
            self.old result self.new }
    {
        self.encode_some_with_tag_and_constraints(T::TAG, constraints, value, identifier)
    }

    /// Writes an optional component that is there: its presence bit, 1, and its value (X.691 19.2).
    #[inline(always)]
    final fn encode_some_with_tag_and_constraints<T: Encode>(
        &mut self,
        tag: Tag,
        constraints: &Constraints,
        value: &T,
        identifier: Identifier,
    ) -> Result<(), Self::Error>
        ensures { EncodesSome Self.rules (T.schema constraints.now) (T.levels value.now) (T.value value.now)
            self.old result self.new }
    {
        self.set_presence(true)?;
        value.encode_with_tag_and_constraints(self, tag, constraints, identifier)
    }

    /// Writes an optional component of a type that is absent: its presence bit, 0 (X.691 19.2). Takes no memory.
    final fn encode_none<T: Encode>(&mut self, identifier: Identifier) -> Result<(), Self::Error>
        ensures { EncodesNone Self.rules self.old result self.new }
    {
        self.encode_none_with_tag(T::TAG, identifier)
    }

    /// Writes an optional component that is absent: its presence bit, 0 (X.691 19.2). Takes no memory.
    #[inline(always)]
    final fn encode_none_with_tag(
        &mut self,
        _tag: Tag,
        _identifier: Identifier,
    ) -> Result<(), Self::Error>
        ensures { EncodesNone Self.rules self.old result self.new }
    {
        self.set_presence(false)
    }

    /// Writes a component with a default, under its type's own tag and constraints.
    final fn encode_default<T: Encode, F: FnOnce(&T) -> bool>(
        &mut self,
        value: &T,
        is_default: F,
        identifier: Identifier,
    ) -> Result<(), Self::Error>
        requires { F.IsAlwaysCallable is_default }
        ensures { EncodesDefault Self.rules (T.schema T.CONSTRAINTS) (T.levels value.now) (T.value value.now)
            (FnOnceReturnsAt F.FnOnce is_default value.now) self.old result self.new }
    {
        self.encode_default_with_tag(T::TAG, value, is_default, identifier)
    }

    /// Writes a component with a default, under a tag and its type's own constraints.
    final fn encode_default_with_tag<T: Encode, F: FnOnce(&T) -> bool>(
        &mut self,
        tag: Tag,
        value: &T,
        is_default: F,
        identifier: Identifier,
    ) -> Result<(), Self::Error>
        requires { F.IsAlwaysCallable is_default }
        ensures { EncodesDefault Self.rules (T.schema T.CONSTRAINTS) (T.levels value.now) (T.value value.now)
            (FnOnceReturnsAt F.FnOnce is_default value.now) self.old result self.new }
    {
        self.encode_default_with_tag_and_constraints(
            tag,
            &T::CONSTRAINTS,
            value,
            is_default,
            identifier,
        )
    }

    /// Writes a component with a default, under its type's own tag and under constraints.
    final fn encode_default_with_constraints<T: Encode, F: FnOnce(&T) -> bool>(
        &mut self,
        constraints: &Constraints,
        value: &T,
        is_default: F,
        identifier: Identifier,
    ) -> Result<(), Self::Error>
        requires { F.IsAlwaysCallable is_default }
        ensures { EncodesDefault Self.rules (T.schema constraints.now) (T.levels value.now) (T.value value.now)
            (FnOnceReturnsAt F.FnOnce is_default value.now) self.old result self.new }
    {
        self.encode_default_with_tag_and_constraints(
            T::TAG,
            constraints,
            value,
            is_default,
            identifier,
        )
    }

    /// Writes a component with a default. Where it is at its default, as the test says, only its presence bit is
    /// written, 0; else it is written as one that is there (X.691 19.5).
    final fn encode_default_with_tag_and_constraints<T: Encode, F: FnOnce(&T) -> bool>(
        &mut self,
        tag: Tag,
        constraints: &Constraints,
        value: &T,
        is_default: F,
        identifier: Identifier,
    ) -> Result<(), Self::Error>
        requires { F.IsAlwaysCallable is_default }
        ensures { EncodesDefault Self.rules (T.schema constraints.now) (T.levels value.now) (T.value value.now)
            (FnOnceReturnsAt F.FnOnce is_default value.now) self.old result self.new }
    {
        if is_default(value) {
            return self.set_presence(false);
        }
        self.encode_some_with_tag_and_constraints(tag, constraints, value, identifier)
    }
}

impl<E: Encoder> EncoderExt for E {}
