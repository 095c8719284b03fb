//! A SET that is read by a function for each component and one that makes the SET of what the first answered.
#![tactic(auto, unfolding(rasn_below::specs::Types::smallest))]

ghost use Rattle.std.specs.Prelude.{◌≡◌, IfOk, Ok};
ghost use Rattle.rasn_below.specs.Values.{truth};
ghost use Rattle.rasn_below.specs.Types.{Schema};
ghost use Rattle.rasn_below.specs.Calls.{Reads};
ghost use Rattle.per_samples_sets.specs.Each.{none, with_item, with_items};

use rasn_below::codec::SetDecoder;
use rasn_below::{Constraints, Decode, Decoder, Tag};

/// SET { p [PRIVATE 0] BOOLEAN OPTIONAL, q [0] BOOLEAN OPTIONAL, r [1] BOOLEAN OPTIONAL }
#[derive(Clone, Copy, Debug, PartialEq, Eq)]
pub struct SetEach {
    pub p: Option<bool>,
    pub q: Option<bool>,
    pub r: Option<bool>,
}

/// A component that is there: its place in the type, and what it is.
#[derive(Clone, Copy, Debug, PartialEq, Eq)]
struct Item {
    index: usize,
    value: bool,
}

/// Reads a component, each of which is a BOOLEAN.
fn read_item<D: Decoder>(decoder: &mut D, index: usize, tag: Tag) -> Result<Item, D::Error>
    ensures read { Reads D.rules Schema.boolean (λ x. truth x.value) decoder.old result decoder.new }
    ensures placed { IfOk result (λ x. x.index ≡ index) }
{
    let value = bool::decode_with_tag(decoder, tag)?;
    Ok(Item { index, value })
}

impl SetEach {
    /// Nothing is there.
    const NONE: SetEach = SetEach {
        p: None,
        q: None,
        r: None,
    };

    /// This value with one component given.
    fn with(self, item: Item) -> SetEach
        ensures { result ≡ with_item self item }
    {
        let value = Some(item.value);
        match item.index {
            0 => SetEach { p: value, ..self },
            1 => SetEach { q: value, ..self },
            _ => SetEach { r: value, ..self },
        }
    }

    /// The SET of these components.
    fn of(items: &[Item]) -> SetEach
        ensures { result ≡ with_items none items.now }
    {
        let mut set = SetEach::NONE;
        for item in items {
            set = set.with(*item);
        }
        set
    }
}

impl Decode for SetEach {
    fn decode_with_tag_and_constraints<D: Decoder>(
        decoder: &mut D,
        tag: Tag,
        constraints: &Constraints,
    ) -> Result<SetEach, D::Error> {
        let _ = constraints;
        decoder.decode_set(
            tag,
            |d: &mut D, index: usize, tag: Tag| -> Result<Item, D::Error>
                ensures read { Reads D.rules Schema.boolean (λ x. truth x.value) d.old result d.new }
                ensures placed { IfOk result (λ x. x.index ≡ index) }
            { read_item(d, index, tag) },
            |items: Vec<Item>| -> Result<SetEach, D::Error>
                ensures { result ≡ Ok (with_items none items.items) }
            { Ok(SetEach::of(&items)) },
        )
    }
}
