//! Why a text is no tree.
ghost use Rattle.std.specs.Prelude.{◌≡◌};
ghost use Rattle.lvm_text.specs.declared.fault.TextFault.TheVariants.{Memory};

use std::alloc::AllocError;
use std::fmt;

/// Why a text is no tree: the first fault by place. A place is the index of a byte, from 0.
#[derive(Clone, Copy, Debug, PartialEq, Eq)]
pub enum TextFault {
    /// No token begins there; or a quoted text begins there that has a wrong escape or no end.
    Token { at: u64 },
    /// The token there can't come there, which for a value includes a word that is no number; or the text
    /// ends there too early.
    Shape { at: u64 },
    /// The number there, where a value is due, is beyond 2^63 − 1 in size.
    Number { at: u64 },
    /// The `{` there would begin a section nine deep.
    Depth { at: u64 },
    /// Memory was refused.
    Memory,
}

impl fmt::Display for TextFault {
    ghost use Rattle.std.specs.Prelude.{Some};
    ghost use Rattle.lvm_text.specs.Text.{tree_fault_text};

    ghost output = { λ fault. Some (tree_fault_text fault) };

    fn fmt<W: fmt::Write>(&self, f: &mut fmt::Formatter<W>) -> fmt::Result {
        match *self {
            TextFault::Token { at } => write!(f, "Token at={at}"),
            TextFault::Shape { at } => write!(f, "Shape at={at}"),
            TextFault::Number { at } => write!(f, "Number at={at}"),
            TextFault::Depth { at } => write!(f, "Depth at={at}"),
            TextFault::Memory => write!(f, "Memory"),
        }
    }
}

impl std::error::Error for TextFault {}

impl From<AllocError> for TextFault {
    ghost from_gives = { λ _ fault. fault ≡ Memory };

    fn from(_refused: AllocError) -> TextFault {
        TextFault::Memory
    }
}
