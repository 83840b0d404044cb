//! The GUID partition table of a disk, read and written.
//!
//! It promises upwards: [`read_gpt`] gives the table that the disk has, or says exactly why it has none;
//! [`protective_sector`], [`gpt_entries`] and [`gpt_header`] make the sectors from which a disk is read
//! as that table again; [`one_table`] is the law that a disk has one. `specs/Header.antt` says what a header's
//! fields are and when it is valid, and `specs/Gpt.antt` what the table of a disk is.
//!
//! It stands on disk_base for disks, fields and checksums, on byteorder for the bytes of numbers and on uuid
//! for identifiers.
//! A table has 128 entries of 128 bytes; a disk of another shape is refused.
#![tactic(auto)]

mod entry;
mod fault;
mod gpt;
mod header;
mod reading;
mod writing;

pub use entry::Entry;
pub use fault::GptFault;
pub use gpt::Gpt;
pub use reading::{one_table, read_gpt};
pub use writing::{gpt_entries, gpt_header, protective_sector};
