//! The contents octets of OBJECT IDENTIFIER (X.690 8.19).

ghost use Rattle.std.specs.Prelude.{◌≡◌, ◌↔◌, ◌<◌, ◌≤◌, ◌++◌, ℕ, List, None, Err, true, false, length, take, IfOk};
ghost use Rattle.std.specs.Prelude.{OnOk, OnErr, MatchOption};
ghost use Rattle.rasn_types.specs.Contents.{is_identifier, next_arc};
ghost use Rattle.rasn_types.specs.Identifiers.{are_arcs, are_arcs_so_far, begun_arc, contents, leading_octets};
ghost use Rattle.rasn_types.specs.Identifiers.{limit_after, subidentifier, subidentifiers, IsFirstSubidentifier};
ghost use Rattle.rasn_types.specs.Identifiers.{IsReadOn};
ghost use Rattle.rasn_types.specs.declared.ber.BerError.TheVariants.{InvalidObjectIdentifier};

use std::alloc::{AllocError, Allocator, Global};
use thiserror::Error;

/// Why contents octets were not written or not read.
#[derive(Clone, Copy, Debug, PartialEq, Error)]
pub enum BerError {
    /// The arcs have no contents octets, or the octets are those of no object (X.690 8.19).
    #[error("not an object identifier")]
    InvalidObjectIdentifier,
    /// Memory ran out.
    #[error("out of memory")]
    OutOfMemory,
}

impl From<AllocError> for BerError {
    ghost use Rattle.rasn_types.specs.declared.ber.BerError.TheVariants.{OutOfMemory};

    ghost from_gives = { λ _ error. error ≡ OutOfMemory };

    fn from(_: AllocError) -> BerError {
        BerError::OutOfMemory
    }
}

/// Appends the contents octets of the object with these arcs (X.690 8.19). Refused as no object identifier are fewer
/// than two arcs, a first one above 2, and a second one above 39 under a first of 0 or 1. What is refused, also for
/// want of memory, leaves `octets` as they were.
pub fn object_identifier_as_bytes<A: Allocator>(
    arcs: &[u32],
    octets: &mut Vec<u8, A>,
) -> Result<(), BerError>
    ensures written { OnOk result (octets.new.items ≡ octets.old.items ++ contents arcs.now) }
    ensures refused { (result ≡ Err InvalidObjectIdentifier) ↔ (are_arcs arcs.now ≡ false) }
    ensures unchanged { OnErr result (octets.new.items ≡ octets.old.items) }
{
    let Some(first) = first_subidentifier(arcs) else {
        return Err(BerError::InvalidObjectIdentifier);
    };
    let len = octets.len();
    match push_subidentifiers(first, &arcs[2..], octets) {
        Ok(()) => Ok(()),
        Err(error) => {
            octets.truncate(len);
            Err(BerError::from(error))
        }
    }
}

/// The first subidentifier, which holds two arcs (X.690 8.19.4); `None` where the arcs are those of no object.
fn first_subidentifier(arcs: &[u32]) -> Option<u64>
    ensures { MatchOption result (are_arcs arcs.now ≡ false) (IsFirstSubidentifier arcs.now) }
{
    match arcs {
        [first, second, ..] if *first == 2 || *first < 2 && *second < 40 => {
            Some(40 * u64::from(*first) + u64::from(*second))
        }
        _ => None,
    }
}

/// Appends a first subidentifier and those of the other arcs. What an error leaves begins with what was there.
fn push_subidentifiers<A: Allocator>(
    first: u64,
    others: &[u32],
    octets: &mut Vec<u8, A>,
) -> Result<(), AllocError>
    ensures written { OnOk result
        (octets.new.items ≡ octets.old.items ++ subidentifier first ++ subidentifiers others.now) }
    ensures kept { take (length octets.old.items) octets.new.items ≡ octets.old.items }
{
    push_subidentifier(first, octets)?;
    for arc in others {
        push_subidentifier(u64::from(*arc), octets)?;
    }
    Ok(())
}

/// Appends the octets of a subidentifier (X.690 8.19.2). What an error leaves begins with what was there.
fn push_subidentifier<A: Allocator>(number: u64, octets: &mut Vec<u8, A>) -> Result<(), AllocError>
    ensures written { OnOk result (octets.new.items ≡ octets.old.items ++ subidentifier number) }
    ensures kept { take (length octets.old.items) octets.new.items ≡ octets.old.items }
{
    push_leading_octets(number / 128, octets)?;
    octets.push((number % 128) as u8)?;
    Ok(())
}

/// Appends the octets of a number that others of its subidentifier follow, none for 0. What an error leaves begins
/// with what was there.
fn push_leading_octets<A: Allocator>(number: u64, octets: &mut Vec<u8, A>) -> Result<(), AllocError>
    ensures written { OnOk result (octets.new.items ≡ octets.old.items ++ leading_octets number number) }
    ensures kept { take (length octets.old.items) octets.new.items ≡ octets.old.items }
{
    if number == 0 {
        return Ok(());
    }
    push_leading_octets(number / 128, octets)?;
    octets.push((128 + number % 128) as u8)?;
    Ok(())
}

/// The arcs of the object with these contents octets (X.690 8.19). Refused as no object identifier are no octets, a
/// subidentifier whose first octet is 80, one that is cut off, and an arc past 32 bits.
pub fn object_identifier_from_bytes(alloc: Global, octets: &[u8]) -> Result<Vec<u32>, BerError>
    ensures read { IfOk result (λ arcs. contents arcs.items ≡ octets.now) }
    ensures lawful { OnOk result (is_identifier octets.now ≡ true) }
    ensures one { (arcs : List ℕ) → are_arcs arcs ≡ true → contents arcs ≡ octets.now
        → IfOk result (λ read. read.items ≡ arcs) }
    ensures refused { result ≡ Err InvalidObjectIdentifier → is_identifier octets.now ≡ false }
{
    let mut arcs = Vec::new(alloc);
    let mut begun = 0;
    for octet in octets {
        let Some(number) = read_on(begun, *octet, limit_of_next(&arcs)) else {
            return Err(BerError::InvalidObjectIdentifier);
        };
        if *octet < 128 {
            push_arcs(&mut arcs, number)?;
            begun = 0;
        } else {
            begun = number;
        }
    }
    if arcs.is_empty() || begun > 0 {
        return Err(BerError::InvalidObjectIdentifier);
    }
    Ok(arcs)
}

/// The number that an arc may not reach.
const LIMIT: u64 = 1 << 32;

/// The number that a first subidentifier may not reach: 80 more than a second arc below the first arc 2 (X.690 8.19.4).
const FIRST_LIMIT: u64 = LIMIT + 80;

/// The number that the subidentifier after these arcs may not reach.
fn limit_of_next(arcs: &[u32]) -> u64
    ensures { result ≡ limit_after arcs.now }
{
    if arcs.is_empty() { FIRST_LIMIT } else { LIMIT }
}

/// A subidentifier's number so far, read on by one octet (X.690 8.19.2); `None` where it reaches the limit, or where a
/// first octet is 80.
fn read_on(begun: u64, octet: u8, limit: u64) -> Option<u64>
    requires below { begun < limit }
    requires limit { limit ≤ FIRST_LIMIT }
    ensures { MatchOption result (next_arc (begun_arc begun limit) octet ≡ None) (IsReadOn begun limit octet) }
{
    let number = 128 * begun + u64::from(octet % 128);
    if number >= limit || begun == 0 && octet == 128 {
        return None;
    }
    Some(number)
}

/// Appends the arcs of a subidentifier: two for the first one, else one (X.690 8.19.4).
fn push_arcs(arcs: &mut Vec<u32>, number: u64) -> Result<(), AllocError>
    requires below { number < limit_after arcs.old.items }
    requires lawful { are_arcs_so_far arcs.old.items ≡ true }
    ensures lawful { OnOk result (are_arcs arcs.new.items ≡ true) }
    ensures read { OnOk result (contents arcs.new.items ≡ contents arcs.old.items ++ subidentifier number) }
{
    if !arcs.is_empty() {
        arcs.push(number as u32)?;
        return Ok(());
    }
    let first = (number / 40).min(2);
    arcs.push(first as u32)?;
    arcs.push((number - 40 * first) as u32)?;
    Ok(())
}
