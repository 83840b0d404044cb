//! What a table is made for.

use layout_plan::Planned;

/// A target: where the partitions come to stand on it, the head of its sector 0, and its sectors.
#[derive(Clone, Copy)]
pub(crate) struct Target<'a> {
    pub(crate) planned: &'a Planned,
    pub(crate) head: &'a [u8; 446],
    pub(crate) sectors: u64,
}
