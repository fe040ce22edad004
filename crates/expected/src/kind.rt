ghost use Rattle.std.specs.Prelude.{◌≡◌};
ghost use Rattle.expected.specs.Kinds.{group, limit};

/// The kinds of table.
#[derive(Clone, Copy, PartialEq, Eq, Debug)]
pub enum Kind {
    /// A slot to 16 words, first the number of its entries, then a word to each.
    Plain,
    /// A group of 16 slots to a block, with a word of marks, the quotients and the values.
    Packed,
}

impl Kind {
    /// How many slots make a group.
    pub fn group(self) -> u64
        ensures value { result ≡ group self }
    {
        match self {
            Kind::Plain => 1,
            Kind::Packed => 16,
        }
    }

    /// How many entries a group may hold.
    pub fn limit(self) -> u64
        ensures value { result ≡ limit self }
    {
        match self {
            Kind::Plain => 15,
            Kind::Packed => 48,
        }
    }
}
