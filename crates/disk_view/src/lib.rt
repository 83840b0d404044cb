//! A part of a disk, read as a disk of its own.
//!
//! It is for whoever reads what a volume holds: a partition, which is one run of the disk's sectors, or a logical
//! volume, whose runs stand in any order on it. A reader that is generic over `Blocks` reads a [`View`] as it reads
//! a disk.
//!
//! It promises upwards: a view is a disk whose image is the join of what the runs hold, with the faults of the disk
//! below; and, as laws of the join ([`joins_are_of_the_disk`], [`free_blocks_stay_free`]), where each of its sectors
//! stands, that no two stand at one place where the runs lie apart, and that disks which are equal but for the places
//! of some blocks give joins that differ in these blocks alone. [`are_apart`] says whether runs lie apart.
//! `specs/Join.antt` has the definitions, `specs/Laws.antt` the laws.
//!
//! It stands on disk_base, for disks and runs, and on block_claims for what it is to differ in blocks.
#![tactic(auto)]

mod apart;
mod laws;
mod reading;
mod view;

pub use apart::are_apart;
pub use laws::{free_blocks_stay_free, joins_are_of_the_disk};
pub use view::View;
