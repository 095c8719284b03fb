//! The calls of every decoder that read values of a type of its own.

ghost use Rattle.std.specs.Prelude.{map};
ghost use Rattle.rasn_schema.specs.Forms.{is_size_marked, size_of};
ghost use Rattle.rasn_schema.specs.Lists.{list_at};
ghost use Rattle.rasn_schema.specs.Structures.{list_value};
ghost use Rattle.rasn_schema.specs.Schemas.{optional};
ghost use Rattle.rasn_traits.specs.Optionals.{ReadsComponent, ReadsDefault};
ghost use Rattle.rasn_traits.specs.Presences.{slot_of};
ghost use Rattle.rasn_traits.specs.Calls.{Reads};
ghost use Rattle.rasn_schema.specs.Choices.{choice_at};

use crate::codec::{Decode, FromTag};
use rasn_schema::schema::Constraints;
use rasn_traits::decoder::Decoder;
use rasn_types::types::Tag;
use std::alloc::{AllocError, Global};

/// What every decoder reads by the type of a value.
pub trait DecoderExt: Decoder {
    /// Reads a value whose type has an explicit tag (X.680 31): no tag is written in PER, so the value is alone.
    final fn decode_explicit_prefix<T: Decode>(&mut self, _tag: Tag) -> Result<T, Self::Error>
        ensures { Reads Self.rules (T.schema T.CONSTRAINTS (Self.rules.levels self.old)) T.value
            self.old result self.new }
    {
        T::decode(self)
    }

    /// Reads an optional component whose type has an explicit tag (X.680 31), which isn't written in PER.
    final fn decode_optional_with_explicit_prefix<T: Decode>(
        &mut self,
        _tag: Tag,
    ) -> Result<Option<T>, Self::Error>
        ensures { ReadsComponent Self.rules optional (T.schema T.CONSTRAINTS (Self.rules.levels self.old))
            (slot_of T.value) self.old result self.new }
    {
        self.decode_optional()
    }

    /// Reads an optional component under its type's own tag and constraints.
    final fn decode_optional<T: Decode>(&mut self) -> Result<Option<T>, Self::Error>
        ensures { ReadsComponent Self.rules optional (T.schema T.CONSTRAINTS (Self.rules.levels self.old))
            (slot_of T.value) self.old result self.new }
    {
        self.decode_optional_with_tag(T::TAG)
    }

    /// Reads an optional component under a tag and its type's own constraints.
    final fn decode_optional_with_tag<T: Decode>(
        &mut self,
        tag: Tag,
    ) -> Result<Option<T>, Self::Error>
        ensures { ReadsComponent Self.rules optional (T.schema T.CONSTRAINTS (Self.rules.levels self.old))
            (slot_of T.value) self.old result self.new }
    {
        self.decode_optional_with_tag_and_constraints(tag, &T::CONSTRAINTS)
    }

    /// Reads an optional component under its type's own tag and under constraints.
    final fn decode_optional_with_constraints<T: Decode>(
        &mut self,
        constraints: &Constraints,
    ) -> Result<Option<T>, Self::Error>
        ensures { ReadsComponent Self.rules optional (T.schema constraints.now (Self.rules.levels self.old))
            (slot_of T.value) self.old result self.new }
    {
        self.decode_optional_with_tag_and_constraints(T::TAG, constraints)
    }

    /// Reads an optional component: its presence bit, and after a bit 1 its value (X.691 19.2).
    #[inline(always)]
    final fn decode_optional_with_tag_and_constraints<T: Decode>(
        &mut self,
        tag: Tag,
        constraints: &Constraints,
    ) -> Result<Option<T>, Self::Error>
        ensures { ReadsComponent Self.rules optional (T.schema constraints.now (Self.rules.levels self.old))
            (slot_of T.value) self.old result self.new }
    {
        if !self.next_presence()? {
            return Ok(None);
        }
        let value = T::decode_with_tag_and_constraints(self, tag, constraints)?;
        Ok(Some(value))
    }

    /// Reads a component with a default, under its type's own tag and constraints.
    final fn decode_default<T: Decode, F: FnOnce(Global) -> Result<T, AllocError>>(
        &mut self,
        default: F,
    ) -> Result<T, Self::Error>
        requires { F.IsAlwaysCallable default }
        ensures { ReadsDefault Self.rules (T.schema T.CONSTRAINTS (Self.rules.levels self.old)) T.value
            (λ made. (alloc : _) × F.post default alloc made) self.old result self.new }
    {
        self.decode_default_with_tag(T::TAG, default)
    }

    /// Reads a component with a default, under a tag and its type's own constraints.
    final fn decode_default_with_tag<T: Decode, F: FnOnce(Global) -> Result<T, AllocError>>(
        &mut self,
        tag: Tag,
        default: F,
    ) -> Result<T, Self::Error>
        requires { F.IsAlwaysCallable default }
        ensures { ReadsDefault Self.rules (T.schema T.CONSTRAINTS (Self.rules.levels self.old)) T.value
            (λ made. (alloc : _) × F.post default alloc made) self.old result self.new }
    {
        self.decode_default_with_tag_and_constraints(tag, default, &T::CONSTRAINTS)
    }

    /// Reads a component with a default, under its type's own tag and under constraints.
    final fn decode_default_with_constraints<T: Decode, F: FnOnce(Global) -> Result<T, AllocError>>(
        &mut self,
        default: F,
        constraints: &Constraints,
    ) -> Result<T, Self::Error>
        requires { F.IsAlwaysCallable default }
        ensures { ReadsDefault Self.rules (T.schema constraints.now (Self.rules.levels self.old)) T.value
            (λ made. (alloc : _) × F.post default alloc made) self.old result self.new }
    {
        self.decode_default_with_tag_and_constraints(T::TAG, default, constraints)
    }

    /// Reads a component with a default: its presence bit, and after a bit 1 its value, else what `default` gives
    /// (X.691 19.5).
    final fn decode_default_with_tag_and_constraints<
        T: Decode,
        F: FnOnce(Global) -> Result<T, AllocError>,
    >(&mut self, tag: Tag, default: F, constraints: &Constraints) -> Result<T, Self::Error>
        requires { F.IsAlwaysCallable default }
        ensures { ReadsDefault Self.rules (T.schema constraints.now (Self.rules.levels self.old)) T.value
            (λ made. (alloc : _) × F.post default alloc made) self.old result self.new }
    {
        if self.next_presence()? {
            return T::decode_with_tag_and_constraints(self, tag, constraints);
        }
        match default(self.alloc()) {
            Ok(value) => Ok(value),
            Err(_) => Err(self.out_of_memory()),
        }
    }

    /// Reads a CHOICE (X.691 23): its index, and the alternative that goes by the tag at its place.
    final fn decode_choice<C: FromTag>(
        &mut self,
        _constraints: &Constraints,
    ) -> Result<C, Self::Error>
        ensures { Reads Self.rules (choice_at C.alternatives C.EXTENDED_VARIANTS C.added (Self.rules.levels self.old))
            C.value self.old result self.new }
    {
        let (tag, outside) = self.open_choice::<C>()?;
        let decoded = C::from_tag(self, tag);
        if decoded.is_err() {
            return decoded;
        }
        self.close_choice(outside)?;
        decoded
    }

    /// Reads a SEQUENCE OF under constraints (X.691 20), of which the size counts elements.
    final fn decode_sequence_of<D: Decode>(
        &mut self,
        tag: Tag,
        constraints: &Constraints,
    ) -> Result<Vec<D>, Self::Error>
        ensures { let size = size_of constraints.now in let mark = is_size_marked constraints.now in
            let c = list_at (D.schema D.CONSTRAINTS) size mark (Self.rules.levels self.old) in
            Reads Self.rules c (λ xs. list_value (map D.value xs.items)) self.old result self.new }
    {
        let mut list = self.open_elements(tag, constraints)?;
        let mut values = Vec::new(self.alloc());
        while self.next_element_in_turn(&mut list)? {
            let value = D::decode(self)?;
            if values.push(value).is_err() {
                return Err(self.out_of_memory());
            }
        }
        Ok(values)
    }
}

impl<D: Decoder> DecoderExt for D {}
