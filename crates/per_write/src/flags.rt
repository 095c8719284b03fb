//! Which additions of a SEQUENCE are there (X.691 19.7): a bit for each, gathered one after another.

ghost use Rattle.std.specs.Prelude.{◌≡◌, ◌≤◌, ◌<◌, ◌∷◌, [], ◌++◌, length, IfOk, OnOk, OnErr};
ghost use Rattle.rasn_types.specs.Bits.{to_bits};
ghost use Rattle.per_core.specs.Canon.{any_set};

use crate::no_bits;
use per_bits::BitList;
use std::alloc::{AllocError, Allocator};
use std::marker::Model;

/// The most bits that a word holds.
const WORD_BITS: u32 = 64;

/// Bits that are gathered one after another. Up to 64 of them take no memory.
#[derive(Drop)]
pub(crate) struct GatheredFlags<A: Allocator> {
    pub(crate) held: Held<A>,
}

/// How bits are held.
#[derive(Drop)]
pub(crate) enum Held<A: Allocator> {
    /// Up to 64: the number that they mean, the first the highest, and how many they are.
    Word(u64, u32),
    /// More than 64.
    List(BitList<A>),
}

impl<A: Allocator> Model for GatheredFlags<A> {
    ghost use Rattle.std.specs.Prelude.{List, Bool};
    ghost use Rattle.per_write.specs.Gathered.{AreOneForm, flags_held};

    ghost Value = { List Bool };

    ghost view = { λ a. flags_held a.held };

    ghost invariant = { λ a. AreOneForm a.held };
}

impl<A: Allocator> GatheredFlags<A> {
    /// No bits.
    pub(crate) fn new() -> Self
        ensures { result ≡ [] }
    {
        GatheredFlags {
            held: Held::Word(0, 0),
        }
    }

    /// How many bits there are.
    pub(crate) fn len(&self) -> u128
        ensures { result ≡ length self.now }
    {
        match &self.held {
            Held::Word(_, count) => u128::from(*count),
            Held::List(list) => list.len(),
        }
    }

    /// Whether one of the bits is 1.
    pub(crate) fn has_one(&self) -> bool
        ensures { result ≡ any_set self.now }
    {
        match &self.held {
            Held::Word(word, _) => *word != 0,
            Held::List(list) => has_one(list),
        }
    }
}

impl<A: Allocator + Clone> GatheredFlags<A> {
    /// Appends a bit; the 65th takes memory of the allocator of others. The only error is want of memory, and then
    /// the bits are as they were.
    #[inline(always)]
    pub(crate) fn push(&mut self, flag: bool, others: &BitList<A>) -> Result<(), AllocError>
        ensures ok { OnOk result (self.new ≡ self.old ++ flag ∷ []) }
        ensures err { OnErr result (self.new ≡ self.old) }
    {
        match &mut self.held {
            Held::Word(word, count) if *count < WORD_BITS => {
                *word = *word << 1 | u64::from(flag);
                *count += 1;
            }
            Held::Word(word, count) => {
                self.held = Held::List(list_of(*word, *count, flag, others)?);
            }
            Held::List(list) => list.push(flag)?,
        }
        Ok(())
    }
}

/// The low `count` bits of a word, highest first, and one bit more, in memory of the allocator of others.
#[inline(never)]
fn list_of<A: Allocator + Clone>(
    word: u64,
    count: u32,
    flag: bool,
    others: &BitList<A>,
) -> Result<BitList<A>, AllocError>
    requires { count ≤ WORD_BITS }
    ensures { IfOk result (λ list. list ≡ to_bits count word ++ flag ∷ []) }
{
    let mut list = no_bits(others)?;
    list.push_bits(u128::from(word), u128::from(count))?;
    list.push(flag)?;
    Ok(list)
}

/// Whether one of the bits is 1.
pub(crate) fn has_one<A: Allocator>(bits: &BitList<A>) -> bool
    ensures { result ≡ any_set bits.now }
{
    for index in 0..bits.len() {
        if bits.get(index).unwrap_or(false) {
            return true;
        }
    }
    false
}
