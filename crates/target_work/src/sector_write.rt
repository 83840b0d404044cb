//! Sectors that are written as they stand.

use disk_base::Name;

/// Whole sectors, whose bytes are written from sector `at` on.
#[derive(Debug, Drop)]
pub struct SectorWrite {
    pub at: u64,
    pub bytes: Name,
}
