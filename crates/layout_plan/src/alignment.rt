//! Multiples of an alignment, and the law that they determine a layout.
ghost use Rattle.std.specs.Prelude.{ℕ, ◌+◌, ◌^◌, ◌<◌};
ghost use Rattle.layout_plan.specs.Alignment.{IsNext};
ghost use Rattle.layout_plan.specs.Layouts.{OneLayout};

/// The least multiple of `align` that is `n` or more.
pub fn next_multiple(n: u64, align: u64) -> u64
    requires some { 0 < align }
    requires room { n + align < 2 ^ 64 }
    ensures { IsNext align n result }
{
    n.div_ceil(align) * align
}

/// The law that there is exactly one layout for a list of lengths. A call does nothing.
pub fn one_layout()
    ensures { OneLayout }
{}
