//! Where a value is in another.

use std::alloc::Global;
use std::fmt;

/// A step from a value to one that is in it (X.680 15).
#[derive(Clone, Copy, Debug, PartialEq, Eq)]
pub enum Step {
    /// To the component of a SEQUENCE or a SET, or the alternative of a CHOICE, by its identifier. An addition group,
    /// which has none in ASN.1, goes by its name in the type's list.
    Named(&'static str),
    /// To the alternative of a CHOICE whose type names none.
    Nameless,
    /// To the element of a SEQUENCE OF or a SET OF, by its number from 1 on.
    Element(usize),
    /// To the component or the alternative of a type that is data, whose names aren't known here: by its place from 0
    /// on, those after the extension marker last. Components of a SET stand in ascending order of their smallest tags.
    Placed(usize),
}

impl fmt::Display for Step {
    fn fmt<W: fmt::Write>(&self, f: &mut fmt::Formatter<W>) -> fmt::Result {
        match self {
            Step::Named(name) => f.write_str(name),
            Step::Nameless => Ok(()),
            Step::Element(number) => write!(f, "{number}"),
            Step::Placed(place) => write!(f, "#{place}"),
        }
    }
}

/// The steps from a whole message to a value in it: none to the message itself.
#[derive(Debug, Drop, PartialEq, Eq)]
pub struct Path {
    /// The steps, the first one from the message.
    pub steps: Vec<Step>,
}

impl Path {
    ghost use Rattle.std.specs.Prelude.{◌≡◌, []};

    /// The path from a message to itself.
    pub fn to_message(alloc: Global) -> Self
        ensures { result.steps.items ≡ [] }
    {
        Path {
            steps: Vec::new(alloc),
        }
    }
}

/// Prints the steps with a full stop between two of them (X.680 15), such as `protocolIEs.3.value`; a place as `#0`.
impl fmt::Display for Path {
    fn fmt<W: fmt::Write>(&self, f: &mut fmt::Formatter<W>) -> fmt::Result {
        let mut is_first = true;
        for step in &self.steps {
            if !is_first {
                f.write_str(".")?;
            }
            is_first = false;
            write!(f, "{step}")?;
        }
        Ok(())
    }
}
