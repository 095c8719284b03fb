//! What is counted in strings, and what gathers it: octets, bits and characters, each of as many bits (X.691 11.9, 16,
//! 17, 30.5).

ghost use Rattle.std.specs.Prelude.{◌≡◌, ℕ, ◌+◌, ◌*◌, ◌/◌, ◌%◌, ◌^◌, ◌<◌, ◌≤◌, [], ◌∷◌, List, length, map, take, true};
ghost use Rattle.std.specs.Prelude.{OnOk};
ghost use Rattle.rasn_types.specs.Alphabets.{has, char_width};
ghost use Rattle.rasn_types.specs.Bits.{to_bits};
ghost use Rattle.per_bits.specs.Octets.{low_bits_of};
ghost use Rattle.per_core.specs.Basic.{OneByOne};
ghost use Rattle.per_core.specs.Counts.{bits_of};
ghost use Rattle.per_core.specs.declared.items.Item.TheVariants.{Octet, Bit, Character};
ghost use Rattle.per_core.specs.Lengths.{coded};
ghost use Rattle.per_read.specs.Items.{bit_code, Adds, TookItems, Collects};
ghost use Rattle.per_read.specs.Strings.{AreRead};

use crate::Reader;
use crate::alphabet::ReadAlphabet;
use crate::error::{DecodeErrorKind, missing};
use per_bits::{BitList, BitReader};
use per_core::items::Item;
use rasn_strings::strings::StaticPermittedAlphabet;
use std::alloc::{AllocError, Global};

/// What gathers items as they are read.
pub(crate) trait Collector {
    ghost use Rattle.per_core.specs.declared.items.Item.{Item};

    // The items that are held since a start, by their codes.
    ghost holds: { Self → Self → List ℕ → Type 0 };

    // What the items are.
    ghost item: { Self → Item };

    // How many items are held at most, where only so many can be.
    ghost count: { Self → ℕ };

    /// What the items are.
    fn item(&self) -> Item
        ensures item { result ≡ item self.now }
        ensures few { bits_of result ≤ 16 };

    /// Appends the item of a code.
    fn push(&mut self, code: u32) -> Result<(), AllocError>
        requires few { code < 2 ^ bits_of (item self.old) }
        requires room { count self.old < usize.MAX }
        ensures ok { OnOk result (Adds holds self.old (code ∷ []) self.new) }
        ensures item { OnOk result (item self.new ≡ item self.old) }
        ensures count { OnOk result (count self.new ≤ count self.old + 1) };

    /// Appends the items that some bits are, `many` of them.
    fn push_items(&mut self, bits: BitReader<'_>, many: usize) -> Result<(), AllocError>
        requires bits { length bits.bits ≡ bits_of (item self.old) * many }
        requires room { count self.old + many ≤ usize.MAX }
        ensures ok { let form = OneByOne (coded (item self.old)) in
            OnOk result (TookItems holds form many self.old self.new bits.entry.bits []) }
        ensures item { OnOk result (item self.new ≡ item self.old) }
        ensures count { OnOk result (count self.new ≤ count self.old + many) }
    {
        let width = self.item().width();
        let mut left = bits;
        let mut done = 0;
        while done < many {
            let count = BLOCK.min(many - done);
            let block = left.take(width * count as u128).unwrap();
            self.push_block(block, count)?;
            done += count;
        }
        Ok(())
    }

    /// Appends the items that some bits are, `many` of them, no more than a block has.
    fn push_block(&mut self, bits: BitReader<'_>, many: usize) -> Result<(), AllocError>
        requires bits { length bits.bits ≡ bits_of (item self.old) * many }
        requires few { many ≤ BLOCK }
        requires room { count self.old + many ≤ usize.MAX }
        ensures ok { let form = OneByOne (coded (item self.old)) in
            OnOk result (TookItems holds form many self.old self.new bits.entry.bits []) }
        ensures item { OnOk result (item self.new ≡ item self.old) }
        ensures count { OnOk result (count self.new ≤ count self.old + many) }
    {
        self.push_words(bits, many)
    }

    /// Appends the items that some bits are, `many` of them, as many at a time as one word has.
    fn push_words(&mut self, bits: BitReader<'_>, many: usize) -> Result<(), AllocError>
        requires bits { length bits.bits ≡ bits_of (item self.old) * many }
        requires room { count self.old + many ≤ usize.MAX }
        ensures ok { let form = OneByOne (coded (item self.old)) in
            OnOk result (TookItems holds form many self.old self.new bits.entry.bits []) }
        ensures item { OnOk result (item self.new ≡ item self.old) }
        ensures count { OnOk result (count self.new ≤ count self.old + many) }
    {
        let width = self.item().width() as u32;
        let most = items_in_word(width);
        let mut left = bits;
        let mut done = 0;
        while done < many {
            let count = most.min(many - done);
            let length = width * count as u32;
            let word = left.take_field(length);
            self.push_each(word, length, count)?;
            done += count;
        }
        Ok(())
    }

    /// Appends the items that the low `length` bits of a word are, `many` of them, one after another.
    fn push_each(&mut self, word: u64, length: u32, many: usize) -> Result<(), AllocError>
        requires bits { length ≡ bits_of (item self.old) * many }
        requires few { length ≤ WORD_BITS }
        requires room { count self.old + many ≤ usize.MAX }
        ensures ok { let form = OneByOne (coded (item self.old)) in
            OnOk result (TookItems holds form many self.old self.new (to_bits length word) []) }
        ensures item { OnOk result (item self.new ≡ item self.old) }
        ensures count { OnOk result (count self.new ≤ count self.old + many) }
    {
        let width = self.item().width() as u32;
        let mut left = length;
        for _ in 0..many {
            left -= width;
            self.push(number_between(word, left, width))?;
        }
        Ok(())
    }
}

/// The most bits that are read at once: those of a word less an octet, as the bits of an octet before them may be gone.
const WORD_BITS: u32 = 56;

/// The most items that are read before it is asked what they are.
const BLOCK: usize = 248;

/// How many items of so many bits one word has at most; at least one.
fn items_in_word(width: u32) -> usize
    requires { width ≤ 16 }
    ensures some { 0 < result }
    ensures few { width * result ≤ WORD_BITS }
    ensures at_most { result ≤ WORD_BITS }
{
    (WORD_BITS / width.max(1)) as usize
}

/// Octets of which the low `width` bits of each of the first `many` are those that a reader has left, no more of them
/// than a block has.
fn octets_of(bits: BitReader<'_>, width: u32, many: usize) -> [u8; 256]
    requires width { width ≤ 8 }
    requires many { many ≤ BLOCK }
    requires bits { length bits.bits ≡ width * many }
    ensures { low_bits_of width (take many result) ≡ bits.entry.bits }
{
    let mut octets = [0; 256];
    bits.spread_bits(&mut octets, many, width);
    octets
}

/// The number that `width` bits of a word mean, with `behind` others after them.
fn number_between(word: u64, behind: u32, width: u32) -> u32
    requires behind { behind < 64 }
    requires width { width ≤ 16 }
    ensures { result ≡ word / 2 ^ behind % 2 ^ width }
{
    (word >> behind & ((1 << width) - 1)) as u32
}

impl Collector for Vec<u8> {
    ghost holds = { λ _ octets codes. octets.items ≡ codes };

    ghost item = { λ _. Octet };

    ghost count = { λ _. 0 };

    fn item(&self) -> Item {
        Item::Octet
    }

    fn push(&mut self, code: u32) -> Result<(), AllocError> {
        Vec::push(self, code as u8)?;
        Ok(())
    }

    fn push_items(&mut self, bits: BitReader<'_>, _many: usize) -> Result<(), AllocError> {
        bits.append_octets(self)?;
        Ok(())
    }
}

/// What octets are skipped with: it holds none of them.
#[derive(Drop)]
pub(crate) struct Skipped;

impl Collector for Skipped {
    ghost holds = { λ _ _ _. Unit {0} };

    ghost item = { λ _. Octet };

    ghost count = { λ _. 0 };

    fn item(&self) -> Item {
        Item::Octet
    }

    fn push(&mut self, _code: u32) -> Result<(), AllocError> {
        Ok(())
    }

    fn push_items(&mut self, _bits: BitReader<'_>, _many: usize) -> Result<(), AllocError> {
        Ok(())
    }
}

impl Collector for BitList<Global> {
    ghost holds = { λ _ bits codes. map bit_code bits ≡ codes };

    ghost item = { λ _. Bit };

    ghost count = { λ _. 0 };

    fn item(&self) -> Item {
        Item::Bit
    }

    fn push(&mut self, code: u32) -> Result<(), AllocError> {
        BitList::push(self, code == 1)
    }

    fn push_items(&mut self, bits: BitReader<'_>, _many: usize) -> Result<(), AllocError> {
        self.push_reader(&bits)?;
        Ok(())
    }
}

/// Characters as they are read.
#[derive(Drop)]
pub(crate) struct Characters<'list, S: StaticPermittedAlphabet> {
    pub(crate) alphabet: ReadAlphabet<'list>,
    pub(crate) string: S,
    /// Whether a code had no character. The others' characters are in the string.
    pub(crate) has_unknown: bool,
    ghost own: { (character : ℕ) → has alphabet.characters character ≡ true → has S.alphabet character ≡ true },
}

impl<S: StaticPermittedAlphabet> Collector for Characters<'_, S> {
    ghost holds = { λ start c codes.
        (c.alphabet ≡ start.alphabet) × AreRead start.alphabet c.has_unknown (S.characters c.string) codes };

    ghost item = { λ c. Character (char_width c.alphabet.variant c.alphabet.characters) };

    ghost count = { λ _. 0 };

    fn item(&self) -> Item {
        Item::Character(self.alphabet.width())
    }

    fn push(&mut self, code: u32) -> Result<(), AllocError> {
        let known = self.alphabet.known(code);
        if known > 0 {
            self.string.push(known)?;
            return Ok(());
        }
        match self.alphabet.decode(code) {
            Some(character) => self.string.push(character)?,
            None => self.has_unknown = true,
        }
        Ok(())
    }

    fn push_block(&mut self, bits: BitReader<'_>, many: usize) -> Result<(), AllocError> {
        let width = self.alphabet.width();
        if width <= 8 {
            let octets = octets_of(bits.clone().unwrap(), width, many);
            if self.alphabet.are_own(&octets[..many]) {
                self.string.push_octets(&octets[..many])?;
                return Ok(());
            }
        }
        self.push_words(bits, many)
    }
}

impl Reader<'_> {
    /// Takes `count` items with no length, and appends them.
    pub(crate) fn take_bare_items<C: Collector>(
        &mut self,
        count: usize,
        items: &mut C,
    ) -> Result<(), DecodeErrorKind>
        requires { C.count items.old + count ≤ usize.MAX }
        ensures { Collects C.holds C.item C.count count items.old self.old result items.new self.new }
    {
        let width = items.item().width();
        let bits = self.bits.take(width * count as u128).map_err(missing)?;
        items.push_items(bits, count)?;
        Ok(())
    }
}
