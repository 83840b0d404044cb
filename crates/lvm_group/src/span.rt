//! Extents of a physical volume.

/// Extents of one physical volume, which is named by its number in the text's order.
#[derive(Clone, Copy, Debug, PartialEq, Eq)]
pub struct Span {
    pub member: u32,
    pub first: u32,
    pub count: u32,
}
