//! What a disk and a sink are, for every crate above.
//!
//! It promises upwards: the traits [`Blocks`], [`Disk`] and [`Sink`], whose clauses say what each call
//! does to what a disk holds, to its log and to its count of faults, so that code which is generic over
//! them is proved once for every device; doubles in memory, [`MemDisk`] and [`MemSink`], which tell
//! everything and fail exactly where they are told to; the small collections [`List`] and [`Name`]; and
//! [`crc32`], a checksum whose value a definition by polynomials fixes.
//!
//! It stands on std alone. A disk is a list of bytes, whole sectors of 512; `specs/Image.antt` has the
//! words on its ranges, and `proofs/Images.antt` the facts about them that the crates above cite.
#![tactic(auto)]

mod byte_disk;
mod checksum;
mod checksum_table;
mod collections;
mod device;
mod fields;
mod memory;
mod memory_sink;
mod output;
mod ram_disk;
mod run;

pub use byte_disk::ByteDisk;
pub use checksum::{crc32, crc32_lvm, crc32c, crc32c_without, one_checksum};
pub use collections::{List, Name};
pub use device::{Ask, Blocks, DeviceFault, Disk, Failed, MOST_SECTORS, Mode, SECTOR};
pub use fields::{big_u16, big_u32, big_u64, little_u16, little_u32, little_u64, put};
pub use memory::{MemDisk, MemLimits};
pub use memory_sink::MemSink;
pub use output::Sink;
pub use ram_disk::RamDisk;
pub use run::Run;
