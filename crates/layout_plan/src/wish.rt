//! What the user asks of a layout.

/// What is wished of one partition. `place` is the index of the word that holds the option's value, `part`
/// the partition's number in the source.
#[derive(Clone, Copy, Debug, PartialEq, Eq)]
pub struct Wish {
    pub place: u64,
    pub part: u32,
    pub what: What,
}

/// What may be wished of a partition.
#[derive(Clone, Copy, Debug, PartialEq, Eq)]
pub enum What {
    /// It takes what the others leave over.
    Expand,
    /// It gives up what the others lack.
    Shrink,
    /// It gets this size, which may not cut its content.
    Resize(Size),
    /// It gets this size, whatever its content.
    Force(Size),
    /// It isn't made.
    Delete,
    /// It is made, and its content isn't copied.
    Ignore,
}

/// A size, absolute or by the old one: amounts in bytes, or percentages of the old length.
#[derive(Clone, Copy, Debug, PartialEq, Eq)]
pub enum Size {
    Bytes(u64),
    More(u64),
    Less(u64),
    Percent(u32),
    MorePercent(u32),
    LessPercent(u32),
}

/// How the partitions are laid out: `align` in sectors, `always` whether the first one is aligned too,
/// `extra` whether a partition is made of what is left over.
#[derive(Clone, Copy, Debug, PartialEq, Eq)]
pub struct Layout {
    pub align: u32,
    pub always: bool,
    pub extra: bool,
}
