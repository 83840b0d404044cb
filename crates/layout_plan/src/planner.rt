//! The plan of a job.
ghost use Rattle.std.specs.Prelude.{◌≡◌, ℕ, [], ◌≤◌, ◌-◌, All, AllPairs, IfOk, IfErr, IfSome};
ghost use Rattle.layout_plan.specs.Plans.{AreFrom, AreNumbered, IsBehind, IsPlacedInside, IsPlan, KeepApart, KeepsOrder};
ghost use Rattle.layout_plan.specs.Refusals.{HasNoPlan, OnePlan};
ghost use Rattle.layout_plan.specs.Source.{IsSource};
ghost use Rattle.layout_plan.specs.Tables.{least_disk, limit_of};

use crate::extra::extra_part;
use crate::fault::NoPlan;
use crate::flexing::flexed;
use crate::part::{Kind, Part};
use crate::places::place;
use crate::planned::Planned;
use crate::task::Task;
use crate::wish::{Layout, Wish};
use crate::wishing::{judge_lengths, judge_wishes};
use std::alloc::Global;

/// The most sectors that a disk may have.
const MOST_SECTORS: u64 = 2147483648;

/// The sectors of the least disk that has a table.
fn least_sectors(kind: Kind) -> u64
    ensures { result ≡ least_disk kind }
{
    match kind {
        Kind::Mbr => 2,
        Kind::Gpt => 68,
    }
}

/// The end of the last sector that a partition may take.
fn limit(kind: Kind, sectors: u64) -> u64
    requires { least_disk kind ≤ sectors }
    ensures { result ≡ limit_of kind sectors }
{
    match kind {
        Kind::Mbr => sectors,
        Kind::Gpt => sectors - 33,
    }
}

/// Where the parts of a valid table, which stand by rising number, come to stand on a target of `sectors` sectors.
///
/// Each part that isn't deleted gets the length that is wished, or keeps its own; one that takes or gives up gets
/// the greatest with which the layout fits. They are laid out by rising start, the logical ones at the turn of the
/// extended one, which isn't made without them. The first stands at the least start of all, or at the first
/// multiple of the alignment where the layout asks for that, and each later one at the next multiple behind the one
/// before it; a logical one behind its boot record. Parts that start at one sector stand by number. Their numbers
/// fall by those of their class that aren't made.
///
/// # Errors
///
/// `TooSmall` is a target with no room for a table, `TooLarge` one of more than 2^31 sectors. `NoSuchPart`,
/// `NamedTwice` and `Extended` are of the first wish that names no part, one that was named before, or the extended
/// one; `Empty` and `WouldCut` of the first part whose length would be 0, or less than its content without force.
/// `DoesNotFit` says where the last part would end, where one that takes keeps its length and one that gives up has
/// a sector alone. `NoSurplus` and `NoDeficit` say that nothing is left over to take, or lacking to give up.
/// `Memory` may come at any call.
pub fn plan(
    alloc: Global,
    kind: Kind,
    parts: &[Part],
    wishes: &[Wish],
    layout: &Layout,
    sectors: u64,
) -> Result<Planned, NoPlan>
    requires source { IsSource kind parts.now }
    requires some_align { 1 ≤ layout.now.align }
    requires small_align { layout.now.align ≤ 1048576 }
    ensures plan { IfOk result (λ planned. IsPlan kind parts.now wishes.now layout.now sectors planned) }
    ensures none { IfErr result (λ fault. HasNoPlan kind parts.now wishes.now layout.now sectors fault) }

    // Each partition is one of the source, with a number of its own.
    ensures froms { IfOk result (λ planned. AreFrom parts.now planned.parts) }
    ensures numbers { IfOk result (λ planned. AreNumbered kind planned.parts) }
    ensures same_order { wishes.now ≡ [] → IfOk result (λ planned. KeepsOrder parts.now planned.parts) }

    // The partitions lie apart, the logical ones inside the extended one, behind the table and before the limit.
    ensures apart { IfOk result (λ planned. AllPairs KeepApart planned.parts) }
    ensures inside { IfOk result (λ planned. All (IsPlacedInside kind planned.limit) planned.parts) }
    ensures behind { IfOk result (λ planned. IfSome planned.extra (IsBehind kind planned.parts planned.limit)) }
    ensures limit { IfOk result (λ planned. planned.limit ≤ sectors) }
{
    if sectors < least_sectors(kind) {
        return Err(NoPlan::TooSmall { sectors });
    }
    if sectors > MOST_SECTORS {
        return Err(NoPlan::TooLarge { sectors });
    }
    judge_wishes(parts, wishes)?;
    judge_lengths(wishes, parts)?;
    let task = Task {
        kind,
        parts,
        wishes,
        layout,
        target: sectors,
        limit: limit(kind, sectors),
    };
    let laid = flexed(alloc, &task)?;
    let placed = place(alloc, &task, &laid)?;
    let extra = extra_part(kind, layout, &placed, laid.last, task.limit);
    Ok(Planned::new(placed, extra, task.limit))
}

/// The law that a job has at most one plan, and no reason against it where it has one. A call does nothing.
pub fn one_plan()
    ensures { OnePlan }
{}
