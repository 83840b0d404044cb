//! The free space of a group, as it was read.
ghost use Rattle.std.specs.Prelude.{◌≡◌, ℕ, ◌-◌, ◌%◌, ◌<◌, ◌≤◌, ◌==◌, map, length, if◌then◌else◌, IfOk};
ghost use Rattle.xfs_alloc.specs.FreeSpace.{FreeSpace, in_group, level_up, level_counts};

use std::alloc::{AllocError, Global};
use std::marker::Model;
use xfs_super::Super;
use xfs_tree::{ByCount, ByStart, Walked};

/// How many levels a tree has, and how many blocks each of them: the leaves first, and 0 above the root.
#[derive(Clone, Copy, Debug, PartialEq, Eq)]
pub struct Shape {
    pub levels: u32,
    pub counts: [u32; 9],
}

/// The blocks of a tree by their numbers in its group, the root's level first.
#[derive(Drop)]
struct Levels {
    blocks: Vec<Vec<u32>>,
    shape: Shape,
    ghost levels: { shape.levels ≡ length blocks.items },
    ghost counts: { shape.counts ≡ level_counts (map (λ v. v.items) blocks.items) },
}

/// The free space of a group: its runs, and the blocks of the tree by start and of the tree by count.
#[derive(Drop)]
pub struct Free {
    runs: Vec<(u32, u32)>,
    starts: Levels,
    counts: Levels,
}

impl Model for Free {
    ghost use Rattle.std.specs.Prelude.{map};
    ghost use Rattle.xfs_alloc.specs.FreeSpace.{FreeSpace};

    ghost Value = { FreeSpace };

    ghost view = { λ f. record {
      runs = f.runs.items;
      starts = map (λ v. v.items) f.starts.blocks.items;
      counts = map (λ v. v.items) f.counts.blocks.items;
    } };
}

/// A number of blocks or levels as 4 bytes hold it. No volume has more; where one did, it is as if memory was
/// refused.
fn counted(n: usize) -> Result<u32, AllocError>
    ensures { IfOk result (λ count. count ≡ n) }
{
    if n > 0xFFFF_FFFF {
        return Err(AllocError);
    }
    Ok(n as u32)
}

/// How many blocks each of nine levels has.
fn counts_of(levels: &[Vec<u32>]) -> Result<[u32; 9], AllocError>
    ensures { IfOk result (λ counts. counts ≡ level_counts (map (λ v. v.items) levels.now)) }
{
    let mut counts = [0; 9];
    for i in 0..9 {
        if i < levels.len() {
            counts[i] = counted(levels[levels.len() - 1 - i].as_slice().len())?;
        }
    }
    Ok(counts)
}

/// The numbers in their group of the blocks of a level.
fn numbers_in_group(alloc: Global, agblocks: u32, level: &[u64]) -> Result<Vec<u32>, AllocError>
    requires { 1 ≤ agblocks }
    ensures { IfOk result (λ out. out.items ≡ map (λ n. n % agblocks) level.now) }
{
    let mut out = Vec::new(alloc);
    for at in level {
        out.push((*at % (agblocks as u64)) as u32)?;
    }
    Ok(out)
}

/// The blocks of each level by their numbers in the group.
fn blocks_in_group(
    alloc: Global,
    agblocks: u32,
    levels: &[Vec<u64>],
) -> Result<Vec<Vec<u32>>, AllocError>
    requires { 1 ≤ agblocks }
    ensures { IfOk result (λ out. map (λ v. v.items) out.items ≡ in_group agblocks (map (λ v. v.items) levels.now)) }
{
    let mut out = Vec::new(alloc);
    for level in levels {
        out.push(numbers_in_group(alloc, agblocks, level)?)?;
    }
    Ok(out)
}

/// The levels of a tree whose blocks have these numbers in the volume.
fn levels_of(alloc: Global, agblocks: u32, levels: &[Vec<u64>]) -> Result<Levels, AllocError>
    requires { 1 ≤ agblocks }
    ensures { IfOk result (λ out. map (λ v. v.items) out.blocks.items ≡ in_group agblocks (map (λ v. v.items) levels.now)) }
{
    let blocks = blocks_in_group(alloc, agblocks, levels)?;
    let counts = counts_of(&blocks)?;
    let levels = counted(blocks.as_slice().len())?;
    Ok(Levels {
        blocks,
        shape: Shape { levels, counts },
    })
}

/// Start and count of each run.
fn runs_of(alloc: Global, runs: &[ByStart]) -> Result<Vec<(u32, u32)>, AllocError>
    ensures { IfOk result (λ pairs. pairs.items ≡ map (λ r. (r.start, r.count)) runs.now) }
{
    let mut pairs = Vec::new(alloc);
    for run in runs {
        pairs.push((run.start, run.count))?;
    }
    Ok(pairs)
}

impl Free {
    ghost use Rattle.std.specs.Prelude.{◌≡◌, ◌<◌, ◌≤◌, ◌==◌, map, length, if◌then◌else◌, IfOk};
    ghost use Rattle.xfs_alloc.specs.FreeSpace.{FreeSpace, in_group, level_up, level_counts};

    /// The free space of a group whose two trees these are.
    pub(crate) fn of(
        alloc: Global,
        geo: &Super,
        starts: &Walked<ByStart>,
        counts: &Walked<ByCount>,
    ) -> Result<Free, AllocError>
        ensures runs { IfOk result (λ free. free.runs ≡ map (λ r. (r.start, r.count)) starts.now.records) }
        ensures starts { IfOk result (λ free. free.starts ≡ in_group geo.now.agblocks (map (λ v. v.items) starts.now.levels.items)) }
        ensures counts { IfOk result (λ free. free.counts ≡ in_group geo.now.agblocks (map (λ v. v.items) counts.now.levels.items)) }
    {
        let runs = runs_of(alloc, starts.records.items())?;
        let by_start = levels_of(alloc, geo.agblocks, &starts.levels)?;
        let by_count = levels_of(alloc, geo.agblocks, &counts.levels)?;
        Ok(Free {
            runs,
            starts: by_start,
            counts: by_count,
        })
    }

    /// Start and count of each run of free blocks, by their starts: blocks count from the start of the group.
    pub fn runs(&self) -> &[(u32, u32)]
        ensures { result.now ≡ self.now.runs }
    {
        self.runs.as_slice()
    }

    /// The shape of the tree by start.
    pub fn bno(&self) -> &Shape
        ensures levels { result.now.levels ≡ length self.now.starts }
        ensures counts { result.now.counts ≡ level_counts self.now.starts }
    {
        &self.starts.shape
    }

    /// The shape of the tree by count.
    pub fn cnt(&self) -> &Shape
        ensures levels { result.now.levels ≡ length self.now.counts }
        ensures counts { result.now.counts ≡ level_counts self.now.counts }
    {
        &self.counts.shape
    }

    /// The blocks of a level of a tree, from left to right, by their numbers in the group: tree 0 is that by
    /// start and 1 that by count, and the leaves are level 0.
    pub fn blocks(&self, tree: u8, level: u32) -> &[u32]
        requires tree { tree ≤ 1 }
        requires level { level < length (if tree == 0 then self.now.starts else self.now.counts) }
        ensures { result.now ≡ level_up (if tree == 0 then self.now.starts else self.now.counts) level }
    {
        if tree == 0 {
            let levels = self.starts.blocks.as_slice();
            levels[levels.len() - 1 - level as usize].as_slice()
        } else {
            let levels = self.counts.blocks.as_slice();
            levels[levels.len() - 1 - level as usize].as_slice()
        }
    }
}
