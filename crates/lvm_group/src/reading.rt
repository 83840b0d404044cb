//! Groups, read.
ghost use Rattle.std.specs.Prelude.{◌≡◌, IfOk, IfErr, Some, None};
ghost use Rattle.lvm_text.specs.Tree.{items_in};
ghost use Rattle.lvm_group.specs.Answer.{IsFaultDue, IsGroup, IsGroupFault};
ghost use Rattle.lvm_group.specs.Judged.{fault_beside, segments_beside};
ghost use Rattle.lvm_group.specs.inside.Judging.{IsGroupJudged};

use crate::fault::GroupFault;
use crate::group::Group;
use crate::judged::{agree, fit_all, unknown};
use crate::order::ordered;
use crate::spans::{Laid, Volume, lay};
use crate::spelt::spell;
use crate::types::{Member, Spelt};
use disk_base::List;
use lvm_text::Tree;
use std::alloc::{AllocError, Global};

/// How the volumes of a group lie, and what is free.
#[derive(Debug, Drop)]
struct Lying {
    volumes: List<Volume>,
    free: List<(u32, u64, u64)>,
}

/// The number of a volume, which has 32 bits.
fn number(lv: usize) -> Result<u32, AllocError>
    ensures { IfOk result (λ n. n ≡ lv) }
{
    if lv > 4294967295 {
        return Err(AllocError);
    }
    Ok(lv as u32)
}

/// How the volumes of a group lie that fits its members.
fn laid(alloc: Global, g: &Spelt) -> Result<Lying, GroupFault>
    ensures sound { IfOk result (IsGroupJudged (segments_beside g.now) g.now) }
    ensures fault { IfErr result (IsFaultDue (segments_beside g.now)) }
{
    match lay(alloc, g.physicals.items(), g.extent, g.logicals.items())? {
        Laid::Sound(volumes, free) => Ok(Lying { volumes, free }),
        Laid::Unsound(lv) => Err(GroupFault::Segments { lv: number(lv)? }),
    }
}

/// The fault of a group that is spelled, beside the members that were found, or else how its volumes lie.
fn judge(alloc: Global, g: &Spelt, ms: &[Member]) -> Result<Lying, GroupFault>
    ensures sound { IfOk result (IsGroupJudged (fault_beside ms.now g.now) g.now) }
    ensures fault { IfErr result (IsFaultDue (fault_beside ms.now g.now)) }
{
    if !fit_all(g.extent, ms, g.physicals.items()) {
        return Err(GroupFault::Field);
    }
    if !agree(g.physicals.items(), ms) {
        return Err(GroupFault::Members);
    }
    if let Some(lv) = unknown(g.logicals.items()) {
        return Err(GroupFault::Kind { lv: number(lv)? });
    }
    let lying = laid(alloc, g)?;
    Ok(lying)
}

/// The group that the tree spells, over the partitions that have its text: for each of its physical volumes, in the
/// text's order, the one whose label has its identifier (LVM2 metadata text format). A refusal gives up what was handed
/// in.
#[tactic(auto, using(crate::proofs::Volumes::volume_count))]
pub fn group_of(alloc: Global, members: List<Member>, tree: Tree) -> Result<Group, GroupFault>
    // No fault holds, and the group is what the tree spells.
    ensures group { IfOk result (IsGroup (items_in tree) members) }
    // A fault is the first that holds.
    ensures fault { IfErr result (IsGroupFault (items_in tree) members) }
{
    let spelt = match spell(alloc, &tree)? {
        None => return Err(GroupFault::Field),
        Some(spelt) => spelt,
    };
    let Lying { volumes, free } = judge(alloc, &spelt, members.items())?;
    let members = ordered(alloc, members.items(), spelt.physicals.items())?;
    if members.items().len() > 4294967295 || volumes.items().len() > 4294967295 {
        return Err(GroupFault::Memory);
    }
    Ok(Group {
        spelt,
        tree,
        members,
        volumes,
        free,
    })
}
