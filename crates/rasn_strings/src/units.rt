//! What holds a character of a string.

ghost use Rattle.std.specs.Prelude.{◌≡◌, ℕ, ◌+◌, ◌<◌, ◌≤◌, List, ◌++◌, map, nat_eq, refl};
ghost use Rattle.std.specs.Prelude.{vec_len, vec_capacity, length, IfSome, OnOk, OnErr};
ghost use Rattle.std.specs.Hash as fed;
ghost use Rattle.std.specs.Ordering.{nat_cmp};

use std::alloc::AllocError;
use std::fmt;
use std::hash::Hash;

/// What holds a character: an octet, or 16 bits.
pub trait CharacterUnit: Copy + Ord + Hash + fmt::Debug {
    // The character that is held.
    ghost value: { Self → ℕ };

    // Each character below it can be held; an octet holds those of ISO 646.
    ghost limit: { ℕ };

    // What a character feeds a hasher.
    ghost fed: { ℕ → List (List ℕ) };

    /// What holds a character.
    fn holding(character: u32) -> Self
        requires { character < limit }
        ensures { value result ≡ character };

    /// The character that is held.
    fn held(self) -> u32
        ensures { result ≡ value self };

    /// Appends characters that are octets. The only error is want of memory, and then nothing is appended.
    fn append(units: &mut Vec<Self>, octets: &[u8]) -> Result<(), AllocError>
        ensures ok { OnOk result (map value units.new.items ≡ map value units.old.items ++ octets.now) }
        ensures err { OnErr result (map value units.new.items ≡ map value units.old.items) };

    /// The characters as one slice of octets; `None` where each takes more.
    fn as_octets(units: &[Self]) -> Option<&[u8]>
        ensures { IfSome result (λ octets. octets.now ≡ map value units.now) };

    // Units are equal, ordered and hashed as the characters that they hold.
    ghost equals: { (a b : Self) → Self.eq a b ≡ nat_eq (value a) (value b) };

    ghost compares: { (a b : Self) → Self.cmp a b ≡ nat_cmp (value a) (value b) };

    ghost feeds: { (a : Self) → Self.hash_input a ≡ fed (value a) };
}

impl CharacterUnit for u8 {
    ghost value = { λ octet. octet };

    ghost limit = { 128 };

    ghost fed = { fed.u8 };

    fn holding(character: u32) -> u8 {
        character as u8
    }

    fn held(self) -> u32 {
        u32::from(self)
    }

    fn append(units: &mut Vec<u8>, octets: &[u8]) -> Result<(), AllocError> {
        units.extend_from_slice(octets)
    }

    fn as_octets(units: &[u8]) -> Option<&[u8]> {
        Some(units)
    }

    ghost equals = { λ _ _. refl };

    ghost compares = { λ _ _. refl };

    ghost feeds = { λ _. refl };
}

impl CharacterUnit for u16 {
    ghost value = { λ unit. unit };

    ghost limit = { 65536 };

    ghost fed = { fed.u16 };

    fn holding(character: u32) -> u16 {
        character as u16
    }

    fn held(self) -> u32 {
        u32::from(self)
    }

    fn append(units: &mut Vec<u16>, octets: &[u8]) -> Result<(), AllocError> {
        units.reserve(octets.len())?;
        append_units(units, octets);
        Ok(())
    }

    fn as_octets(_units: &[u16]) -> Option<&[u8]> {
        // each character takes two
        None
    }

    ghost equals = { λ _ _. refl };

    ghost compares = { λ _ _. refl };

    ghost feeds = { λ _. refl };
}

/// Appends octets, each as 16 bits, for which there is room.
fn append_units(units: &mut Vec<u16>, octets: &[u8])
    requires { vec_len units.old + length octets.now ≤ vec_capacity units.old }
    ensures { units.new.items ≡ units.old.items ++ octets.now }
{
    for octet in octets {
        units.push(u16::from(*octet)).unwrap();
    }
}
