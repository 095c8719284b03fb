//! Intervals of characters, of which the alphabets of the character string types are made.

ghost use Rattle.std.specs.Prelude.{◌≡◌, ℕ, ◌+◌, ◌-◌, ◌^◌, ◌<◌, ◌≤◌, true, nat_le, ◌&&◌, length, slice_get};
ghost use Rattle.rasn_types.specs.Alphabets.{has, greatest, index_of};
ghost use Rattle.rasn_strings.specs.Intervals.{all_within, expand, ascend_from};

/// The characters from a first to a last, both included, by their values.
#[derive(Clone, Copy, Debug, PartialEq, Eq)]
pub struct Interval {
    /// The least value.
    pub first: u32,
    /// The greatest value.
    pub last: u32,
}

impl Interval {
    /// Whether a character is within the interval.
    #[inline]
    pub fn contains(self, character: u32) -> bool
        ensures { result ≡ (nat_le self.first character && nat_le character self.last) }
    {
        self.first <= character && character <= self.last
    }

    /// Whether each of some octets is a character within the interval, if that is one of octets; else it is false.
    #[inline]
    pub(crate) fn contains_all(self, octets: &[u8]) -> bool
        ensures { result ≡ (nat_le self.first self.last && nat_le self.last 255 && all_within self octets.now) }
    {
        self.first <= self.last
            && self.last <= 255
            && are_within(self.first as u8, self.last as u8, octets)
    }

    /// How many characters the interval has.
    fn count(self) -> u32
        requires ordered { self.first ≤ self.last }
        requires small { self.last < 2 ^ 16 }
        ensures { result ≡ self.last + 1 - self.first }
    {
        self.last - self.first + 1
    }
}

/// Whether all octets are at least a first and at most a last. Each is looked at, without a branch.
#[inline]
fn are_within(first: u8, last: u8, octets: &[u8]) -> bool
    ensures { result ≡ all_within (record { first = first; last = last }) octets.now }
{
    let mut all = true;
    for octet in octets {
        let within = (first <= *octet) & (*octet <= last);
        all = all & within;
    }
    all
}

/// An interval without characters.
pub(crate) const NO_RUN: Interval = Interval { first: 1, last: 0 };

/// The last interval; one without characters where there is none.
pub(crate) fn last(intervals: &[Interval]) -> Interval
    ensures { (character : ℕ) → (nat_le result.first character && nat_le character result.last) ≡ true
        → has (expand intervals.now) character ≡ true }
{
    match intervals.last() {
        Some(last) => *last,
        None => NO_RUN,
    }
}

/// Whether a character is in one of the intervals.
pub(crate) fn contains(intervals: &[Interval], character: u32) -> bool
    ensures { result ≡ has (expand intervals.now) character }
{
    for interval in intervals {
        if interval.contains(character) {
            return true;
        }
    }
    false
}

/// How many characters ascending intervals have.
pub(crate) fn count(intervals: &[Interval]) -> u32
    requires { ascend_from 0 intervals.now ≡ true }
    ensures count { result ≡ length (expand intervals.now) }
    ensures few { result ≤ 2 ^ 16 }
{
    let mut count = 0;
    for interval in intervals {
        count += interval.count();
    }
    count
}

/// The greatest character of ascending intervals; 0 where there is none.
pub(crate) fn greatest(intervals: &[Interval]) -> u32
    requires { ascend_from 0 intervals.now ≡ true }
    ensures { result ≡ greatest (expand intervals.now) }
{
    let mut greatest = 0;
    for interval in intervals {
        greatest = interval.last.max(greatest);
    }
    greatest
}

/// The place of a character among those of ascending intervals, the first at 0; `None` where they don't have it.
pub(crate) fn index_of(intervals: &[Interval], character: u32) -> Option<u32>
    requires { ascend_from 0 intervals.now ≡ true }
    ensures { result ≡ index_of character (expand intervals.now) }
{
    let mut before = 0;
    for interval in intervals {
        if interval.contains(character) {
            return Some(before + (character - interval.first));
        }
        before += interval.count();
    }
    None
}

/// The character at an index among those of ascending intervals, the first at 0; `None` from their count on.
pub(crate) fn get(intervals: &[Interval], index: u32) -> Option<u32>
    requires { ascend_from 0 intervals.now ≡ true }
    ensures { result ≡ slice_get (expand intervals.now) index }
{
    let mut left = index;
    for interval in intervals {
        let count = interval.count();
        if left < count {
            return Some(interval.first + left);
        }
        left -= count;
    }
    None
}
