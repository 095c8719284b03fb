//! The way from a message to the value that is read or written, which calls move.

use crate::extents::{Extent, OpenAhead};
use crate::path::{Path, Step};
use crate::turns::{Alternatives, Components, Elements};
use rasn_schema::fields::Constructed;
use rasn_schema::items::Place;
use rasn_types::types::Tag;
use std::alloc::{AllocError, Global};

/// A SEQUENCE or a SET that is read or written.
#[derive(Clone, Copy)]
pub struct RecordFrame {
    /// The root components.
    pub root: Components,
    /// The additions, where they don't go on after the root.
    pub added: Option<Components>,
    /// The step to the component that is read or written, or was last.
    pub current: Option<Step>,
    /// Whether the bitmap of the additions is still to be read (X.691 19.7).
    pub bitmap: bool,
    /// Where the bits outside end, while an addition is read or written.
    pub outside: Option<Extent>,
}

impl RecordFrame {
    ghost use Rattle.std.specs.Prelude.{◌≡◌, [], unwrap_or};
    ghost use Rattle.per_ways.specs.Ways.{IsRecordOf, addition_begun, component_absent, component_begun};
    ghost use Rattle.per_ways.specs.Ways.{counted_record};

    /// A record of which nothing was read but its preamble (X.691 19.1), or nothing was written; and whether the
    /// bitmap of its additions is still to be read.
    pub fn new<C: Constructed>(in_tag_order: bool, bitmap: bool) -> Self
        ensures { IsRecordOf C.FIELDS (unwrap_or C.EXTENDED_FIELDS []) in_tag_order bitmap result }
    {
        RecordFrame {
            root: Components::of_root::<C>(in_tag_order),
            added: Some(Components::of_additions::<C>()),
            current: None,
            bitmap,
            outside: None,
        }
    }

    /// A record of a type that is data, of which nothing was read but its preamble, or nothing was written; and
    /// whether the bitmap of its additions is still to be read.
    pub fn counted(bitmap: bool) -> Self
        ensures { result ≡ counted_record bitmap }
    {
        RecordFrame {
            root: Components::counted(),
            added: None,
            current: None,
            bitmap,
            outside: None,
        }
    }

    /// The next component of the root begins, where no addition is read or written.
    pub fn begin(&mut self)
        ensures { self.new ≡ component_begun self.old }
    {
        if self.outside.is_none() {
            self.current = self.root.take();
        }
    }

    /// The next component of the root is absent.
    pub fn skip(&mut self)
        ensures { self.new ≡ component_absent self.old }
    {
        let _ = self.root.take();
    }

    /// The next addition is asked for or given.
    pub fn begin_addition(&mut self)
        ensures { self.new ≡ addition_begun self.old }
    {
        self.current = match &mut self.added {
            Some(added) => added.take(),
            None => self.root.take(),
        };
        self.bitmap = false;
    }
}

/// What is around the value that is read or written.
#[derive(Clone, Copy)]
pub enum Frame {
    /// A SEQUENCE or a SET.
    Record(RecordFrame),
    /// A SEQUENCE OF or a SET OF.
    List(Elements),
    /// A CHOICE that is written, whose alternative is told by the tag of what follows.
    Choice(Alternatives),
    /// The alternative of a CHOICE: the step to it, and where the bits outside its open type end, if it has one.
    Alternative(Step, Option<Extent>),
    /// The value that octets contain, which is reached without a step: where the bits outside end, if they are read.
    Contents(Option<Extent>),
}

impl Frame {
    ghost use Rattle.std.specs.Prelude.{◌≡◌};
    ghost use Rattle.per_ways.specs.Ways.{paused, step_of};

    /// The step from what is around to the value that is read or written, if one is.
    pub fn step(&self) -> Option<Step>
        ensures { result ≡ step_of self.now }
    {
        match self {
            Frame::Record(record) => record.current,
            Frame::List(elements) => elements.step(),
            Frame::Choice(alternatives) => alternatives.step(),
            Frame::Alternative(step, _) => Some(*step),
            Frame::Contents(_) => None,
        }
    }

    /// Nothing that is in it is read or written.
    pub fn pause(&mut self)
        ensures { self.new ≡ paused self.old }
    {
        match self {
            Frame::Record(record) => record.current = None,
            Frame::List(elements) => elements.pause(),
            Frame::Choice(alternatives) => alternatives.pause(),
            _ => {}
        }
    }
}

/// The way from a message to the value that is read or written, and where the bits end that are left to be read; a
/// message that is written has none of these. Once it has stopped it stays as it is.
#[derive(Drop)]
pub struct Trail {
    /// What is around, outermost first, but for the innermost.
    around: Vec<Frame>,
    /// The innermost of what is around, if anything is.
    innermost: Option<Frame>,
    /// Where the bits end that are left.
    extent: Extent,
    /// How many bits are in front of where it stopped.
    stopped: Option<u128>,
}

impl Trail {
    ghost use Rattle.std.specs.Prelude.{◌≡◌, OnOk, OnErr, IfOk, unwrap_or};
    ghost use Rattle.rasn_schema.specs.Structures.{tag_of};
    ghost use Rattle.per_ways.specs.Turns.{element_begun};
    ghost use Rattle.per_ways.specs.Ways.{addition_begun, addition_entered, addition_left, alternative_entered};
    ghost use Rattle.per_ways.specs.Ways.{before_message, begun, begun_under, component_absent};
    ghost use Rattle.per_ways.specs.Ways.{contents_entered, entered, has_bitmap, in_alternative, in_open_type, left};
    ghost use Rattle.per_ways.specs.Ways.{of_list, of_record, paused, steps_of, stopped_at, within};
    ghost use Rattle.per_ways.specs.Trails.{way};

    /// At a message of so many bits, of which nothing was read or written.
    pub fn new(alloc: Global, bits: u128) -> Self
        ensures { way result ≡ before_message bits }
    {
        Trail {
            around: Vec::new(alloc),
            innermost: None,
            extent: Extent::After(bits),
            stopped: None,
        }
    }

    /// Stops where the last `bits` bits are left, if it hasn't stopped.
    pub fn stop(&mut self, bits: u128)
        ensures { way self.new ≡ stopped_at bits (way self.old) }
    {
        let place = self.extent.position(bits);
        self.stopped = Some(self.stopped.unwrap_or(place));
    }

    /// Enters what is around what follows, where the last `bits` bits are left. The only error is want of memory: then
    /// it stops there.
    pub fn enter(&mut self, frame: Frame, bits: u128) -> Result<(), AllocError>
        ensures ok { OnOk result (way self.new ≡ entered frame (way self.old)) }
        ensures err { OnErr result (way self.new ≡ stopped_at bits (way self.old)) }
    {
        if self.stopped.is_some() {
            return Ok(());
        }
        if let Some(outer) = self.innermost {
            if self.around.push(outer).is_err() {
                self.stop(bits);
                return Err(AllocError);
            }
        }
        self.innermost = Some(frame);
        Ok(())
    }

    /// Leaves what is around.
    pub fn leave(&mut self)
        ensures { way self.new ≡ left (way self.old) }
    {
        if self.stopped.is_some() {
            return;
        }
        match self.innermost {
            Some(Frame::Alternative(_, Some(outside))) => self.extent = outside,
            Some(Frame::Contents(Some(outside))) => self.extent = outside,
            _ => {}
        }
        self.innermost = self.around.pop();
    }

    /// A value begins: of a record's root it is the next component.
    pub fn begin(&mut self)
        ensures { way self.new ≡ begun (way self.old) }
    {
        if self.stopped.is_none() {
            if let Some(Frame::Record(record)) = &mut self.innermost {
                record.begin();
            }
        }
    }

    /// A value begins under a tag: of a choice it is the alternative that goes by the tag.
    pub fn begin_under(&mut self, tag: Tag)
        ensures { way self.new ≡ begun_under (tag_of tag) (way self.old) }
    {
        self.begin();
        if self.stopped.is_none() {
            if let Some(Frame::Choice(alternatives)) = &mut self.innermost {
                alternatives.begin(tag);
            }
        }
    }

    /// Nothing that is in the innermost of what is around is read or written.
    pub fn pause(&mut self)
        ensures { way self.new ≡ within paused (way self.old) }
    {
        if self.stopped.is_none() {
            if let Some(frame) = &mut self.innermost {
                frame.pause();
            }
        }
    }

    /// The next component of a record's root is absent.
    pub fn skip(&mut self)
        ensures { way self.new ≡ within (of_record component_absent) (way self.old) }
    {
        if self.stopped.is_none() {
            if let Some(Frame::Record(record)) = &mut self.innermost {
                record.skip();
            }
        }
    }

    /// The next element of a list begins.
    pub fn begin_element(&mut self)
        ensures { way self.new ≡ within (of_list element_begun) (way self.old) }
    {
        if self.stopped.is_none() {
            if let Some(Frame::List(elements)) = &mut self.innermost {
                elements.begin();
            }
        }
    }

    /// Whether the bitmap of the open record's additions is still ahead.
    pub fn has_bitmap_ahead(&self) -> bool
        ensures { result ≡ has_bitmap (way self.now).innermost }
    {
        match &self.innermost {
            Some(Frame::Record(record)) => record.bitmap,
            _ => false,
        }
    }

    /// The next addition of a record is asked for or given.
    pub fn begin_addition(&mut self)
        ensures { way self.new ≡ within (of_record addition_begun) (way self.old) }
    {
        if self.stopped.is_none() {
            if let Some(Frame::Record(record)) = &mut self.innermost {
                record.begin_addition();
            }
        }
    }

    /// Enters the open type of an addition.
    pub fn enter_addition(&mut self, ahead: OpenAhead)
        ensures { way self.new ≡ addition_entered ahead (way self.old) }
    {
        let outside = self.extent;
        if self.stopped.is_none() {
            if let Some(Frame::Record(record)) = &mut self.innermost {
                record.outside = Some(outside);
                self.extent = outside.of_contents(ahead);
            }
        }
    }

    /// Leaves the open type of an addition.
    pub fn leave_addition(&mut self)
        ensures { way self.new ≡ addition_left (way self.old) }
    {
        if self.stopped.is_none() {
            if let Some(Frame::Record(record)) = &mut self.innermost {
                record.current = None;
                if let Some(outside) = record.outside.take() {
                    self.extent = outside;
                }
            }
        }
    }

    /// Enters the alternative at a place, if that is known, and the open type that was ahead of one after the extension
    /// marker, where the last `bits` bits of it are left. The only error is want of memory: then it stops there.
    pub fn enter_alternative(
        &mut self,
        step: Step,
        place: Option<Place>,
        ahead: OpenAhead,
        bits: u128,
    ) -> Result<(), AllocError>
        ensures ok { OnOk result (way self.new ≡ alternative_entered step place ahead (way self.old)) }
        ensures err { OnErr result (way self.new ≡ stopped_at bits (in_alternative place ahead (way self.old))) }
    {
        let outside = self.extent;
        match place {
            Some(Place::Added(_)) => {
                if self.stopped.is_none() {
                    self.extent = outside.of_contents(ahead);
                }
                self.enter(Frame::Alternative(step, Some(outside)), bits)
            }
            _ => self.enter(Frame::Alternative(step, None), bits),
        }
    }

    /// Enters octets that contain a value, where the last `bits` bits of them are left. The only error is want of
    /// memory: then it stops there.
    pub fn enter_contents(&mut self, ahead: OpenAhead, bits: u128) -> Result<(), AllocError>
        ensures ok { OnOk result (way self.new ≡ contents_entered ahead (way self.old)) }
        ensures err { OnErr result (way self.new ≡ stopped_at bits (in_open_type ahead (way self.old))) }
    {
        let outside = self.extent;
        if self.stopped.is_none() {
            self.extent = outside.of_contents(ahead);
        }
        self.enter(Frame::Contents(Some(outside)), bits)
    }

    /// How many bits are in front of where it stopped.
    pub fn bit(&self) -> u128
        ensures { result ≡ unwrap_or (way self.now).stopped 0 }
    {
        self.stopped.unwrap_or(0)
    }

    /// The path of the way's steps. The only error is want of memory for it.
    pub fn into_path(self, alloc: Global) -> Result<Path, AllocError>
        ensures { IfOk result (λ path. path.steps.items ≡ steps_of (way self)) }
    {
        let mut steps = Vec::with_capacity(alloc, self.around.len().saturating_add(1))?;
        for frame in &self.around {
            push_step(&mut steps, frame)?;
        }
        if let Some(frame) = &self.innermost {
            push_step(&mut steps, frame)?;
        }
        Ok(Path { steps })
    }
}

ghost use Rattle.std.specs.Prelude.{◌≡◌, ◌++◌, OnOk, option_to_list};
ghost use Rattle.per_ways.specs.Ways.{step_of};

/// Appends the step from what is around to the value that is read or written, if one is.
fn push_step(steps: &mut Vec<Step>, frame: &Frame) -> Result<(), AllocError>
    ensures { OnOk result (steps.new.items ≡ steps.old.items ++ option_to_list (step_of frame.now)) }
{
    if let Some(step) = frame.step() {
        steps.push(step)?;
    }
    Ok(())
}
