//! Which bits of a message a decoder has left, whose open types hide what is after them.

ghost use Rattle.std.specs.Prelude.{◌≡◌};
ghost use Rattle.per_ways.specs.Extents.{contents_end, position_of};

/// An open type that is still to be read (X.691 11.2).
#[derive(Clone, Copy)]
pub enum OpenAhead {
    /// So many bits are after its contents.
    InPlace(u128),
    /// Its contents are in fragments, or there are none, and from its first length on there are so many bits.
    Gathered(u128),
}

/// Where the bits end that a decoder has left.
#[derive(Clone, Copy)]
pub enum Extent {
    /// After so many first bits of the message.
    After(u128),
    /// They are those of an open type in fragments, in front of which so many bits stand.
    Gathered(u128),
}

impl Extent {
    /// How many of the message's bits are in front of the last `left` ones here.
    pub fn position(self, left: u128) -> u128
        ensures { result ≡ position_of self left }
    {
        match self {
            Extent::After(end) => end.saturating_sub(left),
            Extent::Gathered(bit) => bit,
        }
    }

    /// Where the contents of an open type end that is here.
    pub fn of_contents(self, ahead: OpenAhead) -> Extent
        ensures { result ≡ contents_end self ahead }
    {
        match (self, ahead) {
            (Extent::After(_), OpenAhead::InPlace(left)) => Extent::After(self.position(left)),
            (Extent::After(_), OpenAhead::Gathered(left)) => Extent::Gathered(self.position(left)),
            (Extent::Gathered(bit), _) => Extent::Gathered(bit),
        }
    }
}
