//! What a plan is made of, once the wishes and the lengths are judged.
ghost use Rattle.std.specs.Prelude.{◌≡◌, ◌≤◌};
ghost use Rattle.std.proofs.Props.{props};
ghost use Rattle.layout_plan.specs.Faults.{PassesRules};
ghost use Rattle.layout_plan.specs.Source.{IsSource};
ghost use Rattle.layout_plan.specs.Tables.{limit_of};

use crate::part::{Kind, Part};
use crate::wish::{Layout, Wish};

/// A job whose wishes and lengths are fine: the partitions of a valid table, what is wished of them and how they
/// are laid out, the sectors of the target, and the end of the last one that partitions may take.
#[derive(Drop)]
pub struct Task<'a> {
    pub kind: Kind,
    pub parts: &'a [Part],
    pub wishes: &'a [Wish],
    pub layout: &'a Layout,
    pub target: u64,
    pub limit: u64,
    ghost source: { IsSource kind parts.now },
    ghost some_align: { 1 ≤ layout.now.align },
    ghost small_align: { layout.now.align ≤ 1048576 },
    ghost due: { PassesRules kind parts.now wishes.now target },
    ghost is_limit: { limit ≡ limit_of kind target },
}
