//! The text of LVM2 metadata, read as a tree and written.
//!
//! It promises upwards: [`read_text`] gives the tree that the bytes spell, or the first fault by place, both
//! exactly; [`write_text`] writes a tree so that it is read again; [`one_tree`], [`one_fault`] and
//! [`tree_or_fault`] are the laws that a text has one tree or one fault. `specs/Tokens.antt` says what tokens
//! are, `specs/Grammar.antt` which trees they spell, `specs/Faults.antt` what a fault is, and
//! `specs/Written.antt` how a tree is written.
//!
//! It stands on disk_base for lists and names. The grammar is that of the LVM2 metadata text format; sections
//! lie at most 8 deep in one another, and a number's size is at most 2^63 − 1.
#![tactic(auto)]

mod bytes;
mod copying;
mod fault;
mod laws;
mod machine;
mod number;
mod reader;
mod token;
mod tree;
mod writer;

pub use fault::TextFault;
pub use laws::{one_fault, one_tree, tree_or_fault};
pub use reader::read_text;
pub use tree::{Item, Scalar, Tree, Value};
pub use writer::write_text;
