//! What one physical volume has of the line.
ghost use Rattle.std.specs.Prelude.{◌<◌, ◌+◌, ◌^◌};

/// The part of the line that one physical volume has, and how its extents become sectors.
#[derive(Clone, Copy, Debug)]
pub(crate) struct Part {
    pub member: u32,
    pub start: u32,
    pub extent: u32,
    pub lo: u128,
    pub end: u128,
    ghost whole: { end < lo + 2 ^ 32 },
}
