//! The octets of an OCTET STRING without a copy, also those of an open type that came in fragments.

ghost use Rattle.std.specs.Prelude.{◌≡◌, ◌≤◌, ◌↔◌, false, length, IfSome, IsSome, true};
ghost use Rattle.rasn_schema.specs.Forms.{is_size_marked, octet_schema, size_of};
ghost use Rattle.rasn_traits.specs.Calls.{Reads};
ghost use Rattle.rasn_types.specs.Values.{octets};
ghost use Rattle.per_decoding.specs.Rules.{decoder_rules, plain_rules};
ghost use Rattle.per_decoding.specs.State.{with_last};
ghost use Rattle.per_de.specs.Lending.{in_front, StandInFront, TakesOctets};
ghost use Rattle.per_decoding.specs.Sources.{place_left, AreOctetsOf};

use crate::Decoder;
use per_read::error::DecodeError;
use rasn_schema::schema::Constraints;
use rasn_types::bit_string::note_octets;
use rasn_types::types::Tag;

/// The octets of an OCTET STRING that a decoder has just read.
#[derive(Debug, Drop)]
pub enum TakenOctets {
    /// So many, in front of the bits that are left: `Decoder::octets_in_front` lends them until the next call.
    InFront(usize),
    /// A copy of them.
    Copied(Vec<u8>),
}

impl<'input> Decoder<'input> {
    /// Reads an OCTET STRING under constraints (X.691 17) as `decode_octet_string` does, and copies its octets only
    /// where they come in fragments, or aren't on octets of what is read: the input, or the contents of an open
    /// type that came in fragments, which the decoder owns. Else `octets_in_front` lends them.
    pub fn take_octet_string(
        &mut self,
        _tag: Tag,
        constraints: &Constraints,
    ) -> Result<TakenOctets, DecodeError>
        ensures { TakesOctets decoder_rules (size_of constraints.now) (is_size_marked constraints.now)
            self.old result self.new }
    {
        self.begin_value()?;
        self.take_octets(constraints)
    }

    /// What `take_octet_string` answers, after what it notes.
    fn take_octets(&mut self, constraints: &Constraints) -> Result<TakenOctets, DecodeError>
        requires { self.old.failed ≡ false }
        ensures { TakesOctets plain_rules (size_of constraints.now) (is_size_marked constraints.now)
            self.old result self.new }
    {
        // The proof names what is read before anything is taken.
        let _ = &self.source;
        let (count, left) = self.skip_octets(constraints)?;
        if self.ends_octet(left) && self.come_alone(constraints, count) {
            self.advance(left);
            return Ok(TakenOctets::InFront(count));
        }
        let octets = self.copy_octets(constraints)?;
        Ok(TakenOctets::Copied(octets))
    }

    /// The last `count` octets of what is read in front of the bits that are left, where there are so many, and the
    /// bits that are left begin an octet. They are lent until the next call by `&mut self`.
    pub fn octets_in_front(&self, count: usize) -> Option<&[u8]>
        ensures there { IsSome result ↔ StandInFront self.now count }
        ensures octets { IfSome result (λ x. AreOctetsOf self.now.source.bits (in_front self.now) count x.now) }
    {
        let width = 8 * count as u128;
        let place = self.bits.begin;
        if place < width {
            return None;
        }
        let octets = self
            .source
            .bits()
            .part(place - width, width)
            .aligned_octets()?;
        note_octets(octets);
        Some(octets)
    }

    /// Whether an octet of what is read ends in front of the last `left` bits.
    fn ends_octet(&self, left: u128) -> bool
        requires { left ≤ length self.now.bits }
        ensures { (result ≡ true) ↔ (place_left (with_last self.now left) ≡ 0) }
    {
        let place = self.bits.end - left;
        self.source.bits().part(place, 0).aligned_octets().is_some()
    }

    /// Reads an OCTET STRING under constraints, which may come in fragments, and answers a copy of its octets.
    pub(crate) fn copy_octets(&mut self, constraints: &Constraints) -> Result<Vec<u8>, DecodeError>
        ensures { Reads plain_rules (octet_schema constraints.now) (λ x. octets x.items) self.old result self.new }
    {
        self.check_unfailed()?;
        let mut reader = self.reader();
        let taken = reader.take_octet_string(constraints);
        let left = reader.bits().len();
        self.answer(taken, left)
    }
}
