//! Numbers without sign that are read octet by octet, and take no memory (X.691 11.3 and 11.7).

ghost use Rattle.std.specs.Prelude.{◌≡◌, ◌<◌, ◌*◌, [], ◌∷◌, length};
ghost use Rattle.per_core.specs.Basic.{IsSemiConstrainedWhole, Octets, OneByOne, octet as an_octet};
ghost use Rattle.per_core.specs.Spellings.{Settings};
ghost use Rattle.per_core.specs.BitFieldFaults.{IsOfUnconstrained};
ghost use Rattle.per_read.specs.Items.{Adds, TakesItems, TookItems};
ghost use Rattle.per_core.specs.NumberFaults.{IsOfOctets};
ghost use Rattle.per_read.specs.SmallNumbers.{AppendsOctets, MeansSince, OfIndex};
ghost use Rattle.per_read.specs.Takes.{Takes, telling};

use crate::Reader;
use crate::error::DecodeErrorKind;
use crate::lengths::Length;
use per_bits::BitReader;

/// Takes a number with the lower bound 0: an unconstrained length and the octets of the number without sign, one or
/// more (X.691 11.7). Superfluous leading octets are taken. `None` is a number that no `usize` holds.
pub(crate) fn take_index(reader: &mut Reader<'_>) -> Result<Option<usize>, DecodeErrorKind>
    ensures { Takes (telling IsOfOctets) IsSemiConstrainedWhole OfIndex reader.old result reader.new }
{
    let mut number = Some(0);
    let count = take_octets_onto(reader, &mut number)?;
    if count == 0 {
        return Err(DecodeErrorKind::UnexpectedEmptyInput);
    }
    Ok(number)
}

/// Takes octets after an unconstrained length (X.691 11.9.3.5 to 11.9.3.8), and appends them to a number, which is
/// `None` from where no `usize` holds it. Answers how many there were.
fn take_octets_onto(
    reader: &mut Reader<'_>,
    number: &mut Option<usize>,
) -> Result<usize, DecodeErrorKind>
    ensures { let why = telling (λ (a : Settings). IsOfUnconstrained a 8) in
        TakesItems MeansSince why Octets number.old reader.old result number.new reader.new }
{
    let mut count: usize = 0;
    loop {
        let length = reader.take_unconstrained_length()?;
        let more = length.count() as usize;
        match count.checked_add(more) {
            Some(all) => count = all,
            None => return Err(DecodeErrorKind::ExceedsMaxLength),
        }
        take_bare_octets_onto(reader, more, number)?;
        if let Length::Last(_) = length {
            return Ok(count);
        }
    }
}

/// Takes `count` octets with no length, and appends them to a number.
fn take_bare_octets_onto(
    reader: &mut Reader<'_>,
    count: usize,
    number: &mut Option<usize>,
) -> Result<(), DecodeErrorKind>
    ensures { AppendsOctets count number.old reader.old result number.new reader.new }
{
    let octets = reader.take_front(8 * count as u128)?;
    *number = with_octets(*number, octets, count);
    Ok(())
}

/// A number with `count` octets after it, which some bits are. `None` is a number that no `usize` holds.
fn with_octets(number: Option<usize>, octets: BitReader<'_>, count: usize) -> Option<usize>
    requires { length octets.bits ≡ 8 * count }
    ensures { TookItems MeansSince (OneByOne an_octet) count number result octets.entry.bits [] }
{
    let mut number = number;
    let mut left = octets;
    for _ in 0..count {
        let octet = left.take(8).unwrap();
        number = with_octet(number, octet.first_bits(8) as usize);
    }
    number
}

/// A number with an octet after it. `None` is a number that no `usize` holds.
fn with_octet(number: Option<usize>, octet: usize) -> Option<usize>
    requires { octet < 256 }
    ensures { Adds MeansSince number (octet ∷ []) result }
{
    number?.checked_mul(256)?.checked_add(octet)
}
