//! The classic partition table of a disk, in sector 0 and a chain of extended boot records, read and written.
//!
//! It promises upwards: [`read_mbr`] gives the table that the disk has, or says exactly why it has none;
//! [`judge_sector`] does so for a sector 0 that was read already, without the chain; [`mbr_sector`] and
//! [`ebr_sector`] make the sectors that read back as a head and slots and as a chain; [`is_protective`]
//! tells a table that only stands in for another one; [`one_table`], [`one_fault`], [`one_chain`],
//! [`chain_reads_back`] and [`table_reads_back`] are laws. `specs/Mbr.antt` and `specs/Chain.antt` say what the table of a disk is.
//!
//! It stands on disk_base for disks and their bytes, and on byteorder for numbers.
#![tactic(auto)]

mod chain;
mod fault;
mod mbr;
mod sector;
mod slot;
mod writing;

pub use chain::one_chain;
pub use fault::MbrFault;
pub use mbr::{Mbr, one_fault, one_table, read_mbr};
pub use sector::{SectorTable, is_protective, judge_sector};
pub use slot::{Logical, Slot};
pub use writing::{chain_reads_back, ebr_sector, mbr_sector, table_reads_back};
