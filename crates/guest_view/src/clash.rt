//! The search for two partitions that clash.
ghost use Rattle.std.specs.Prelude.{◌≡◌, ℕ, ◌<◌, All, MatchOption, length};
ghost use Rattle.guest_view.specs.Partitions.{AreFirstClash, HasNoClash, IsReachable};
ghost use Rattle.guest_view.specs.inside.Search.{ClashesWithNone, IsFirstBehind};

use crate::partition::Partition;

// The place of the first partition behind place `k` that clashes with the one there, both counted from 0.
fn first_behind(partitions: &[Partition], k: usize) -> Option<usize>
    requires within { k < length partitions.now }
    requires reachable { All IsReachable partitions.now }
    ensures { MatchOption result (ClashesWithNone partitions.now k (length partitions.now)) (λ l. IsFirstBehind partitions.now k l) }
{
    for l in k + 1..partitions.len() {
        if partitions[k].clashes(&partitions[l]) {
            return Some(l);
        }
    }
    None
}

/// The numbers of the first two partitions that clash.
pub(crate) fn first_clash(partitions: &[Partition]) -> Option<(u32, u32)>
    requires { All IsReachable partitions.now }
    ensures { MatchOption result (HasNoClash partitions.now) (λ pair. AreFirstClash partitions.now pair.0 pair.1) }
{
    for k in 0..partitions.len() {
        if let Some(l) = first_behind(partitions, k) {
            return Some((partitions[k].number, partitions[l].number));
        }
    }
    None
}
