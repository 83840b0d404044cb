//! The sectors of a table.

use target_work::SectorWrite;

/// Sector 0 of a target, and what is written for the rest of its table, in the order of writing.
#[derive(Debug, Drop)]
pub struct TableSectors {
    pub first: [u8; 512],
    pub writes: Vec<SectorWrite>,
}
