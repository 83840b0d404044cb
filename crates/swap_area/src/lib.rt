//! The header of a Linux swap area.
//!
//! It is for whoever reads or grows a volume of swap pages: [`has_signature`] says whether a volume is one,
//! [`swap_of`] what its header says, and [`swap_sector`] writes the header's sector with another last page. Its
//! functions take bytes and give values; none of them touches a disk.
//!
//! It promises, exactly: a header is answered only where the first page is a sound one of version 1 whose pages
//! lie in the volume, with its fields, and nothing is answered only where it isn't; and a written sector changes
//! the last page alone. `specs/Header.antt` has each field and each rule, after `union swap_header` of Linux and
//! `mkswap`, for numbers with the lowest byte first and for pages of 4096 bytes. The pages behind the first one
//! are free, and what they hold changes nothing of the header ([`free_pages_carry_nothing`]).
//!
//! It stands on disk_base, for numbers in bytes, and on block_claims for what a block is.
#![tactic(auto)]

mod header;
mod laws;

pub use header::{PAGE, Swap, has_signature, swap_of, swap_sector};
pub use laws::{free_pages_carry_nothing, last_page_alone};
