//! Open types (X.691 11.2): octets after an unconstrained length, which are a complete encoding of their own.

ghost use Rattle.std.specs.Prelude.{◌≡◌, ◌%◌, ◌≤◌, length};
ghost use Rattle.per_core.specs.Basic.{Octets};
ghost use Rattle.per_core.specs.Spellings.{Settings};
ghost use Rattle.per_core.specs.BitFieldFaults.{IsOfUnconstrained};
ghost use Rattle.per_read.specs.Takes.{Takes, itself, telling};
ghost use Rattle.per_read.specs.OpenTypes.{HasOctets, fragments_of};
ghost use Rattle.per_core.specs.AdditionFaults.{skipped_open};
ghost use Rattle.per_read.specs.Ends.{EndsOpen};
ghost use Rattle.per_core.specs.Ends.{kind_of};
ghost use Rattle.per_read.specs.Reasons.{gathering};

use crate::Reader;
use crate::ahead::ahead_of;
use crate::error::{DecodeErrorKind, ParserFailCause};
use crate::lengths::Length;
use per_bits::ended::{Surplus, ended};
use rasn_constraints::count::Count;

/// The octets of an open type.
#[derive(Drop)]
pub enum Contents {
    /// They stand in place, after one length alone, in front of the bits left: how many bits they are, eight of each.
    InPlace(u128),
    /// The octets of its fragments, one after another.
    Gathered(Vec<u8>),
}

/// Takes the octets of an open type (X.691 11.2), after an unconstrained length. Only those in fragments take memory.
#[inline(always)]
pub fn take_open(reader: &mut Reader<'_>) -> Result<Contents, DecodeErrorKind>
    ensures { let why = gathering fragments_of (λ (a : Settings). IsOfUnconstrained a 8) in
        Takes why Octets (HasOctets reader.old.bits reader.new.bits) reader.old result reader.new }
{
    let mut ahead = ahead_of(reader);
    match ahead.take_unconstrained_length()? {
        Length::Last(count) => {
            ahead.take_front(8 * count)?;
            *reader = ahead;
            Ok(Contents::InPlace(8 * count))
        }
        Length::Fragment(_) => Ok(Contents::Gathered(reader.take_octets()?)),
    }
}

/// Skips an open type (X.691 11.2) whatever its octets are: an addition that the schema doesn't know (X.691 19.9). It
/// takes no memory.
pub fn skip_open(reader: &mut Reader<'_>) -> Result<(), DecodeErrorKind>
    ensures { Takes (telling (λ a. IsOfUnconstrained a 8)) skipped_open itself reader.old result reader.new }
{
    let mut count: usize = 0;
    loop {
        let length = reader.take_unconstrained_length()?;
        let more = length.count() as usize;
        match count.checked_add(more) {
            Some(all) => count = all,
            None => return Err(DecodeErrorKind::ExceedsMaxLength),
        }
        reader.take_front(8 * more as u128)?;
        if let Length::Last(_) = length {
            return Ok(());
        }
    }
}

/// Whether what a reader of an open type's contents has left ends a complete encoding (X.691 11.1, 11.2), where the
/// contents have `total` bits: fewer than eight spare bits after a value of some bits, or one zero octet for a value
/// of none.
#[inline(always)]
pub fn end_of_open(reader: &Reader<'_>, total: u128) -> Result<(), DecodeErrorKind>
    requires fits { length reader.now.bits ≤ total }
    requires octets { total % 8 ≡ 0 }
    ensures { EndsOpen reader.now total result }
{
    match ended(&reader.bits(), total, reader.options().zero_padding) {
        Ok(()) => Ok(()),
        Err(surplus) => Err(refusal(surplus)),
    }
}

/// The kind of a refusal of contents that don't end as a complete encoding does.
fn refusal(surplus: Surplus) -> DecodeErrorKind
    ensures { result ≡ kind_of surplus }
{
    match surplus {
        Surplus::Missing(bits) => DecodeErrorKind::Incomplete(Count::new(bits)),
        Surplus::NonzeroOctet => DecodeErrorKind::ParserFail(ParserFailCause::NonzeroEmptyValue),
        Surplus::NonzeroSpareBits => DecodeErrorKind::ParserFail(ParserFailCause::NonzeroPadding),
        Surplus::ExtraOctets(octets) => DecodeErrorKind::UnexpectedExtraData(Count::new(octets)),
    }
}
