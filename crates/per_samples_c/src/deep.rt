//! A SEQUENCE of a component whose default has more levels than a decoder reads.

ghost use Rattle.std.specs.Prelude.{◌≡◌, IfOk};
ghost use Rattle.rasn_below.specs.Values.{same};
ghost use Rattle.std.specs.Prelude.{refl, [], ◌∷◌, Some};
ghost use Rattle.rasn_below.specs.Page.{fields_of};
ghost use Rattle.per_samples_c.specs.Deeps.{deep, nest_with};

use crate::nest::Nest;
use rasn_below::codec::{DecoderExt, EncoderExt};
use rasn_below::context_tag;
use rasn_below::page::*;
use rasn_below::types::Identifier;
use std::alloc::{AllocError, Global};

/// SEQUENCE { d Nest DEFAULT a value of 200 levels }
#[derive(Debug, Drop, PartialEq)]
pub struct Deep {
    pub d: Nest,
}

macro_rules! components { ($to:ident $($with:ident)*) => { $to! { [$($with)*]
    default 0 "d" d: Nest [];
} }; }

const FIELDS: FieldLists = components!(fields);

/// The tag of the component (AUTOMATIC TAGS).
const D_TAG: Tag = context_tag!(0);

/// How many levels are inside the first one of the default.
const FURTHER: usize = 199;

impl Components for Deep {
    const COMPONENTS: FieldLists = FIELDS;

    ghost COMPONENTS = { fields_of deep };

    ghost components = { (deep, refl) };

    ghost contents = { λ x. Some (⟦<Nest as AsnType>⟧.value x.d) ∷ [] };

    ghost depth = { λ x. ⟦<Nest as AsnType>⟧.levels x.d };
}

impl Record for Deep {
    fn encode_components<E: Encoder>(&self, encoder: &mut E) -> Result<(), E::Error> {
        encoder.encode_default_with_tag(D_TAG, &self.d, is_default, Identifier::EMPTY)
    }

    fn decode_components<D: Decoder>(decoder: &mut D) -> Result<Self, D::Error> {
        let d = decoder.decode_default_with_tag(D_TAG, default)?;
        Ok(Deep { d })
    }
}

/// Whether a component is at its default.
fn is_default(nest: &Nest) -> bool
    ensures { result ≡ same (⟦<Nest as AsnType>⟧.value nest.now) (nest_with 199) }
{
    has_inside(nest, FURTHER)
}

/// Whether so many levels are inside the first one.
fn has_inside(nest: &Nest, further: usize) -> bool
    ensures { result ≡ same (⟦<Nest as AsnType>⟧.value nest.now) (nest_with further) }
{
    match &nest.inner {
        None => further == 0,
        Some(inner) => further > 0 && has_inside(inner, further - 1),
    }
}

/// What stands for a component that is left out.
fn default(alloc: Global) -> Result<Nest, AllocError>
    ensures { IfOk result (λ x. ⟦<Nest as AsnType>⟧.value x ≡ nest_with 199) }
{
    let mut nest = Nest { inner: None };
    for _ in 0..FURTHER {
        nest = Nest {
            inner: Some(Box::new(alloc, nest)?),
        };
    }
    Ok(nest)
}
