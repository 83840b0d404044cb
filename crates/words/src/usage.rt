//! What may be wrong with the words.
use std::fmt;

/// Why the words are no job. A place is the index of a word, with the tool's own at 0.
#[derive(Clone, Copy, Debug, Drop, PartialEq, Eq)]
pub enum Usage {
    /// There are no words, or the first is no tool.
    Tool,
    /// The word begins with `-`, and the tool has no such option.
    Unknown { place: u64 },
    /// The value in this word is spelled wrongly, or the option in this word has a value and takes none, or has
    /// none and takes one.
    Value { place: u64 },
    /// There are too few operands.
    Missing,
    /// There is an operand too many.
    Extra { place: u64 },
    /// An earlier option or operand shuts this option out.
    Excluded { place: u64 },
    /// The option comes again, or an earlier option names the same volume.
    Twice { place: u64 },
    /// The size is spelled wrongly or too large.
    Size { place: u64 },
    /// Both operands are the same text.
    Same,
    /// Memory was refused.
    Memory,
}

impl fmt::Display for Usage {
    ghost use Rattle.std.specs.Prelude.{Some};
    ghost use Rattle.words.specs.Texts.{usage_text};

    ghost output = { λ usage. Some (usage_text usage) };

    fn fmt<W: fmt::Write>(&self, f: &mut fmt::Formatter<W>) -> fmt::Result {
        match *self {
            Usage::Tool => f.write_str("Tool"),
            Usage::Unknown { place } => write!(f, "Unknown place={place}"),
            Usage::Value { place } => write!(f, "Value place={place}"),
            Usage::Missing => f.write_str("Missing"),
            Usage::Extra { place } => write!(f, "Extra place={place}"),
            Usage::Excluded { place } => write!(f, "Excluded place={place}"),
            Usage::Twice { place } => write!(f, "Twice place={place}"),
            Usage::Size { place } => write!(f, "Size place={place}"),
            Usage::Same => f.write_str("Same"),
            Usage::Memory => f.write_str("Memory"),
        }
    }
}

impl std::error::Error for Usage {}
