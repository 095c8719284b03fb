//! The components of a record, as lists of any form state, write and read them.

ghost use Rattle.std.specs.Prelude.{ℕ, List, [], Option};
ghost use Rattle.rasn_types.specs.Values.{Value};
ghost use Rattle.rasn_schema.specs.Schemas.{Parts};
ghost use Rattle.rasn_schema.specs.Records.{no_additions};
ghost use Rattle.rasn_traits.specs.Additions.{WritesAdditions};
ghost use Rattle.rasn_traits.specs.AdditionsRead.{TakesAdditions};
ghost use Rattle.rasn_traits.specs.Scopes.{WritesParts, TakesParts};

use crate::decoder::Decoder;
use crate::encoder::Encoder;

/// Components of a record that are still to be written, in their order.
pub trait EncodeParts {
    // The components, to a number of levels.
    ghost parts: { Self → ℕ → Parts };

    // What they are.
    ghost contents: { Self → List (Option Value) };

    // How many levels they take.
    ghost levels: { Self → ℕ };

    /// Writes the components in turn.
    fn encode_parts<E: Encoder>(&self, encoder: &mut E) -> Result<(), E::Error>
        ensures { WritesParts E.rules (Self.parts self.now) (Self.levels self.now) (Self.contents self.now)
            encoder.old result encoder.new };
}

/// Additions of a record that are still to be given, in their order.
pub trait EncodeAdditions {
    // The additions, to a number of levels.
    ghost additions: { Self → ℕ → Parts };

    // What they are.
    ghost contents: { Self → List (Option Value) };

    // How many levels they take.
    ghost levels: { Self → ℕ };

    /// Gives the additions in turn.
    fn encode_additions<E: Encoder>(&self, encoder: &mut E) -> Result<(), E::Error>
        ensures { WritesAdditions E.rules (Self.additions self.now) (Self.levels self.now) (Self.contents self.now)
            encoder.old result encoder.new };
}

/// The additions of a record that has none.
#[derive(Clone, Copy, Debug)]
pub struct NoAdditions;

impl EncodeAdditions for NoAdditions {
    ghost additions = { λ _. no_additions };

    ghost contents = { λ _. [] };

    ghost levels = { λ _. 0 };

    fn encode_additions<E: Encoder>(&self, _encoder: &mut E) -> Result<(), E::Error> {
        Ok(())
    }
}

/// Components of a record that are still to be read, in their order.
pub trait DecodeParts {
    /// What they are: a pair of the first and of those after it, and `()` at the end.
    type Values: Drop;

    // The components, to a number of levels.
    ghost parts: { Self → ℕ → Parts };

    // What values of them are.
    ghost contents: { Self.Values → List (Option Value) };

    /// Reads the components in turn.
    fn decode_parts<D: Decoder>(&self, decoder: &mut D) -> Result<Self::Values, D::Error>
        ensures { TakesParts D.rules (Self.parts self.now) Self.contents decoder.old result decoder.new };
}

/// Additions of a record that are still to be read, in their order.
pub trait DecodeAdditions {
    /// What they are: a pair of the first and of those after it, and `()` at the end.
    type Values: Drop;

    // The additions, to a number of levels.
    ghost additions: { Self → ℕ → Parts };

    // What values of them are.
    ghost contents: { Self.Values → List (Option Value) };

    /// Reads the additions in turn.
    fn decode_additions<D: Decoder>(&self, decoder: &mut D) -> Result<Self::Values, D::Error>
        ensures { TakesAdditions D.rules (Self.additions self.now) Self.contents decoder.old result decoder.new };
}

impl DecodeAdditions for NoAdditions {
    type Values = ();

    ghost additions = { λ _. no_additions };

    ghost contents = { λ _. [] };

    fn decode_additions<D: Decoder>(&self, _decoder: &mut D) -> Result<(), D::Error> {
        Ok(())
    }
}
