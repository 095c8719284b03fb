//! An encoder that knows at which component it refused.

mod calls;
mod counted;

ghost use Rattle.std.specs.Prelude.{◌≡◌};

use per_ways::Path;
use per_ways::trail::{Frame, Trail};
use rasn_traits::encoder::Encoder;
use rasn_types::types::Tag;
use std::alloc::Global;
use std::marker::Model;

/// How many bits are left to be read of a message that is written.
const NO_BITS: u128 = 0;

/// An encoder that knows at which component it refused. Each call is that of the encoder that it holds.
#[derive(Drop)]
pub struct Located<E: Encoder + Drop> {
    inner: E,
    trail: Trail,
}

impl<E: Encoder + Drop> Model for Located<E> {
    ghost Value = { E };

    ghost view = { λ l. l.inner };
}

impl<E: Encoder + Drop> Located<E> {
    /// Holds an encoder that has written nothing of a message. The path is kept in memory of `alloc`.
    pub fn new(alloc: Global, inner: E) -> Self
        ensures { result ≡ inner }
    {
        let trail = Trail::new(alloc, NO_BITS);
        Located { inner, trail }
    }

    /// The way to the value that was refused, or to where the encoder stands, if none was. Without memory for it that
    /// is empty.
    pub fn into_path(self, alloc: Global) -> Path {
        let path = self.trail.into_path(alloc);
        path.unwrap_or(Path::to_message(alloc))
    }

    /// Answers what a call of the encoder answered, and stops where that is a refusal.
    fn seen<T: Drop>(&mut self, answer: Result<T, E::Error>) -> Result<T, E::Error>
        ensures same { result ≡ answer }
        ensures state { self.new ≡ self.old }
    {
        self.trail.seen(answer.is_ok(), NO_BITS);
        answer
    }

    /// Answers what a call answered with which a value began under a tag.
    fn begun<T: Drop>(&mut self, tag: Tag, answer: Result<T, E::Error>) -> Result<T, E::Error>
        ensures same { result ≡ answer }
        ensures state { self.new ≡ self.old }
    {
        self.trail.begun_under(tag, answer.is_ok(), NO_BITS);
        answer
    }

    /// Enters what a call opened with which a value began under a tag, unless it was refused.
    fn opened<T: Drop>(
        &mut self,
        tag: Tag,
        answer: Result<T, E::Error>,
        frame: Frame,
    ) -> Result<T, E::Error>
        ensures same { result ≡ answer }
        ensures state { self.new ≡ self.old }
    {
        let _ = self.trail.opened_under(tag, frame, answer.is_ok(), NO_BITS);
        answer
    }

    /// Leaves what a call closed, unless it was refused.
    fn closed(&mut self, answer: Result<(), E::Error>) -> Result<(), E::Error>
        ensures same { result ≡ answer }
        ensures state { self.new ≡ self.old }
    {
        self.trail.closed(answer.is_ok(), NO_BITS);
        answer
    }

    /// Leaves the open type of an addition that a call closed, unless it was refused.
    fn closed_addition(&mut self, answer: Result<(), E::Error>) -> Result<(), E::Error>
        ensures same { result ≡ answer }
        ensures state { self.new ≡ self.old }
    {
        self.trail.closed_addition(answer.is_ok(), NO_BITS);
        answer
    }

    /// Begins the element that a call went on to, unless it was refused.
    fn gone_on(&mut self, answer: Result<(), E::Error>) -> Result<(), E::Error>
        ensures same { result ≡ answer }
        ensures state { self.new ≡ self.old }
    {
        let goes_on = match &answer {
            Ok(()) => Some(true),
            Err(_) => None,
        };
        self.trail.gone_on(goes_on, NO_BITS);
        answer
    }
}
