//! Copies runs of sectors from one disk to another, in pieces of 1 MiB.
//!
//! It promises upwards: [`copy_run`] and [`copy_all`] take no memory and answer Ok wherever no disk failed;
//! then each sector of a [`Transfer`] holds on the target what the source has there or, where pieces of
//! zeros are left out, what it held; nothing else is changed, at any moment and whatever the answer.
//! [`copy_run`] writes at most once for each piece that isn't left out.
//!
//! It stands on disk_base for disks.
#![tactic(auto)]

mod copying;
mod transfer;

pub use copying::{BUFFER, copy_all, copy_run};
pub use transfer::Transfer;
