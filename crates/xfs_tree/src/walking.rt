//! Walking a tree, level by level.
ghost use Rattle.std.specs.Prelude.{◌≡◌, ℕ, ◌+◌, ◌-◌, ◌*◌, ◌<◌, ◌≤◌, [], ◌∷◌, map, List, IsTrue, OnOk, IfOk, IfErr, IsErrOf};
ghost use Rattle.std.specs.List.{All};
ghost use Rattle.block_claims.specs.Agreement.{block};
ghost use Rattle.disk_base.specs.Faults.{Rose, HasCause};
ghost use Rattle.xfs_super.specs.Geometry.{group_len};
ghost use Rattle.xfs_super.specs.Super.{geometry_of};
ghost use Rattle.xfs_tree.specs.Marks.{AdmitsVolume, AreClaimed};
ghost use Rattle.xfs_tree.specs.Tree.{short_levels, blocks_of, numbers_of, AreInOrder, IsShortTree, HasShortFault, ShortClaimed};
ghost use Rattle.xfs_tree.specs.inside.Reading.{AreInVolume};
ghost use Rattle.xfs_tree.specs.inside.Rows.{seen_in, StayInVolume, NodeTaken, NodeRefused, LeafTaken, LeafRefused, LieIn, RowTaken, RowRefused, LeavesTaken, LeavesRefused, levels_under, TreeUnder, FaultUnder};

use crate::block::BLOCK;
use crate::claiming::claim_all;
use crate::fault::TreeFault;
use crate::mark::Mark;
use crate::record::Record;
use crate::row::{Row, sector_of};
use crate::taking::{take_leaf, take_node};
use disk_base::{Blocks, Failed, List};
use std::alloc::Global;
use xfs_super::Super;

/// Reads a block of the volume.
fn read_block<B: Blocks>(
    disk: &mut B,
    geo: &Super,
    at: u64,
    buffer: &mut [u8; BLOCK],
) -> Result<(), Failed>
    requires volume { 8 * geo.now.dblocks ≤ B.size disk.old }
    requires at { at < geo.now.dblocks }
    ensures bytes { IsTrue B.tells → OnOk result (buffer.new ≡ block (B.image disk.old) at) }
    ensures read { B.only_read disk.old disk.new }
    ensures cause { HasCause (B.faults disk.old) (B.faults disk.new) result }
{
    disk.read(sector_of(geo, at), buffer)?;
    Ok(())
}

/// Reads a node and claims its children.
fn descend_from<R: Record, B: Blocks, M: Mark>(
    disk: &mut B,
    row: &Row,
    at: u64,
    buffer: &mut [u8; BLOCK],
    marks: &mut M,
    below: &mut Vec<u64>,
) -> Result<(), TreeFault>
    requires volume { 8 * row.now.geo.dblocks ≤ B.size disk.old }
    requires at { at < row.now.geo.dblocks }
    requires node { 0 < row.now.height }
    requires admits { AdmitsVolume row.now.geo (M.admits marks.old) }
    ensures read { B.only_read disk.old disk.new }
    ensures node { IsTrue B.tells → OnOk result (NodeTaken R.form row.now (seen_in row.now (B.image disk.old) at)
        (M.claimed marks.old) (M.claimed marks.new) below.old.items below.new.items) }
    ensures fault { IsTrue B.tells → IfErr result
        (NodeRefused R.form row.now (seen_in row.now (B.image disk.old) at) (M.claimed marks.old)) }
    ensures device { IsErrOf result TreeFault.Device → Rose (B.faults disk.old) (B.faults disk.new) }
    ensures inside { OnOk result (StayInVolume row.now below.old.items below.new.items) }
    ensures admits { (g b : ℕ) → M.admits marks.new g b ≡ M.admits marks.old g b }
{
    read_block(disk, &row.geo, at, buffer)?;
    take_node::<R, M>(row, at, buffer, marks, below)?;
    Ok(())
}

/// Reads a leaf and puts its records behind those of the leaves before it.
fn read_leaf<R: Record, B: Blocks>(
    disk: &mut B,
    row: &Row,
    at: u64,
    buffer: &mut [u8; BLOCK],
    records: &mut List<R>,
) -> Result<(), TreeFault>
    requires volume { 8 * row.now.geo.dblocks ≤ B.size disk.old }
    requires at { at < row.now.geo.dblocks }
    requires leaf { row.now.height ≡ 0 }
    requires order { AreInOrder R.form records.old }
    requires fits { All (λ r. IsTrue (R.form.fits r)) records.old }
    requires lie { LieIn R.form row.now records.old }
    ensures read { B.only_read disk.old disk.new }
    ensures leaf { IsTrue B.tells → OnOk result
        (LeafTaken R.form row.now (seen_in row.now (B.image disk.old) at) records.old records.new) }
    ensures fault { IsTrue B.tells → IfErr result
        (LeafRefused R.form row.now (seen_in row.now (B.image disk.old) at) records.old) }
    ensures device { IsErrOf result TreeFault.Device → Rose (B.faults disk.old) (B.faults disk.new) }
    ensures order { OnOk result (AreInOrder R.form records.new) }
    ensures fits { OnOk result (All (λ r. IsTrue (R.form.fits r)) records.new) }
    ensures lie { OnOk result (LieIn R.form row.now records.new) }
{
    read_block(disk, &row.geo, at, buffer)?;
    take_leaf::<R>(row, at, buffer, records)?;
    Ok(())
}

/// Reads the nodes of a row and claims their children.
fn descend<R: Record, B: Blocks, M: Mark>(
    alloc: Global,
    disk: &mut B,
    row: &Row,
    nodes: &[u64],
    buffer: &mut [u8; BLOCK],
    marks: &mut M,
) -> Result<Vec<u64>, TreeFault>
    requires volume { 8 * row.now.geo.dblocks ≤ B.size disk.old }
    requires nodes { AreInVolume (geometry_of row.now.geo) nodes.now }
    requires node { 0 < row.now.height }
    requires admits { AdmitsVolume row.now.geo (M.admits marks.old) }
    ensures read { B.only_read disk.old disk.new }
    ensures level { IsTrue B.tells → IfOk result (λ below. RowTaken R.form row.now
        (B.image disk.old) nodes.now (M.claimed marks.old) (M.claimed marks.new) below.items) }
    ensures fault { IsTrue B.tells → IfErr result (RowRefused R.form row.now (B.image disk.old) nodes.now (M.claimed marks.old)) }
    ensures device { IsErrOf result TreeFault.Device → Rose (B.faults disk.old) (B.faults disk.new) }
    ensures inside { IfOk result (λ below. AreInVolume (geometry_of row.now.geo) below.items) }
    ensures admits { (g b : ℕ) → M.admits marks.new g b ≡ M.admits marks.old g b }
{
    let mut below = Vec::new(alloc);
    for node in nodes {
        descend_from::<R, B, M>(disk, row, *node, buffer, marks, &mut below)?;
    }
    Ok(below)
}

/// Reads the leaves of a row.
fn read_leaves<R: Record, B: Blocks>(
    alloc: Global,
    disk: &mut B,
    row: &Row,
    leaves: &[u64],
    buffer: &mut [u8; BLOCK],
) -> Result<List<R>, TreeFault>
    requires volume { 8 * row.now.geo.dblocks ≤ B.size disk.old }
    requires leaves { AreInVolume (geometry_of row.now.geo) leaves.now }
    requires leaf { row.now.height ≡ 0 }
    ensures read { B.only_read disk.old disk.new }
    ensures leaves { IsTrue B.tells → IfOk result (LeavesTaken R.form row.now (B.image disk.old) leaves.now) }
    ensures fault { IsTrue B.tells → IfErr result (LeavesRefused R.form row.now (B.image disk.old) leaves.now) }
    ensures device { IsErrOf result TreeFault.Device → Rose (B.faults disk.old) (B.faults disk.new) }
    ensures order { IfOk result (AreInOrder R.form) }
    ensures fits { IfOk result (All (λ r. IsTrue (R.form.fits r))) }
    ensures lie { IfOk result (LieIn R.form row.now) }
{
    let mut records = List::new(alloc);
    for leaf in leaves {
        read_leaf::<R, B>(disk, row, *leaf, buffer, &mut records)?;
    }
    Ok(records)
}

/// What a walk found: the records, and the blocks of each level, the highest first, by their numbers in the
/// volume.
#[derive(Drop)]
pub struct Walked<R> {
    pub records: List<R>,
    pub levels: Vec<Vec<u64>>,
}

/// The records of the trees whose roots are these blocks of a row, joined; each block is claimed.
///
/// It reads level by level, and claims a block where it is pointed to, so that one which stands twice ends it
/// at the second sight.
pub(crate) fn walk_below<R: Record, B: Blocks, M: Mark>(
    alloc: Global,
    disk: &mut B,
    row: &Row,
    blocks: Vec<u64>,
    marks: &mut M,
) -> Result<Walked<R>, TreeFault>
    requires volume { 8 * row.now.geo.dblocks ≤ B.size disk.old }
    requires blocks { AreInVolume (geometry_of row.now.geo) blocks.items }
    requires admits { AdmitsVolume row.now.geo (M.admits marks.old) }
    ensures read { B.only_read disk.old disk.new }
    ensures tree { IsTrue B.tells → IfOk result (λ walked.
        TreeUnder R.form row.now (B.image disk.old) blocks.items (M.claimed marks.old) walked.records) }
    ensures levels { IsTrue B.tells → IfOk result (λ walked. map (λ v. v.items) walked.levels.items
        ≡ numbers_of (levels_under R.form row.now (B.image disk.old) blocks.items)) }
    ensures claimed { IsTrue B.tells → OnOk result (AreClaimed row.now.geo (M.claimed marks.old)
        (blocks_of (levels_under R.form row.now (B.image disk.old) blocks.items)) (M.claimed marks.new)) }
    ensures fault { IsTrue B.tells → IfErr result
        (FaultUnder R.form row.now (B.image disk.old) blocks.items (M.claimed marks.old)) }
    ensures device { IsErrOf result TreeFault.Device → Rose (B.faults disk.old) (B.faults disk.new) }
    ensures order { IfOk result (λ walked. AreInOrder R.form walked.records) }
    ensures fits { IfOk result (λ walked. All (λ r. IsTrue (R.form.fits r)) walked.records) }
    ensures lie { IfOk result (λ walked. LieIn R.form row.now walked.records) }
    ensures admits { (g b : ℕ) → M.admits marks.new g b ≡ M.admits marks.old g b }
{
    claim_all::<M>(&row.geo, &blocks, marks)?;
    let mut buffer = [0; BLOCK];
    let mut upper = Vec::new(alloc);
    let mut nodes = blocks;
    let mut least = row.least;
    for depth in 0..row.height {
        let level = Row {
            geo: row.geo,
            group: row.group,
            owner: row.owner,
            height: row.height - depth,
            least,
        };
        let below = descend::<R, B, M>(alloc, disk, &level, &nodes, &mut buffer, marks)?;
        upper.push(nodes)?;
        nodes = below;
        least = 1;
    }
    let lowest = Row {
        geo: row.geo,
        group: row.group,
        owner: row.owner,
        height: 0,
        least,
    };
    let records = read_leaves::<R, B>(alloc, disk, &lowest, &nodes, &mut buffer)?;
    upper.push(nodes)?;
    Ok(Walked {
        records,
        levels: upper,
    })
}

/// A list of one block.
fn only(alloc: Global, block: u64) -> Result<Vec<u64>, TreeFault>
    ensures only { IfOk result (λ blocks. blocks.items ≡ block ∷ []) }
    ensures memory { IfErr result (λ fault. fault ≡ TreeFault.Memory) }
{
    let mut blocks = Vec::new(alloc);
    blocks.push(block)?;
    Ok(blocks)
}

/// The records of a short tree, and its blocks, level by level: as [`walk`], but for what it answers.
///
/// # Errors
///
/// Those of [`walk`].
pub fn walk_levels<R: Record, B: Blocks, M: Mark>(
    alloc: Global,
    disk: &mut B,
    geo: &Super,
    group: u32,
    root: u32,
    levels: u32,
    marks: &mut M,
) -> Result<Walked<R>, TreeFault>
    requires volume { 8 * geo.now.dblocks ≤ B.size disk.old }
    requires group { group < geo.now.agcount }
    requires root { root < group_len (geometry_of geo.now) group }
    requires some { 1 ≤ levels }
    requires admits { AdmitsVolume geo.now (M.admits marks.old) }
    ensures read { B.only_read disk.old disk.new }
    ensures tree { IsTrue B.tells → IfOk result (λ walked.
        IsShortTree R.form geo.now group root levels (B.image disk.old) (M.claimed marks.old) walked.records) }
    ensures levels { IsTrue B.tells → IfOk result (λ walked. map (λ v. v.items) walked.levels.items
        ≡ numbers_of (short_levels R.form geo.now group root levels (B.image disk.old))) }
    ensures claimed { IsTrue B.tells → OnOk result (ShortClaimed R.form geo.now group root levels
        (B.image disk.old) (M.claimed marks.old) (M.claimed marks.new)) }
    ensures fault { IsTrue B.tells → IfErr result
        (HasShortFault R.form geo.now group root levels (B.image disk.old) (M.claimed marks.old)) }
    ensures device { IsErrOf result TreeFault.Device → Rose (B.faults disk.old) (B.faults disk.new) }
    ensures order { IfOk result (λ walked. AreInOrder R.form walked.records) }
    ensures fits { IfOk result (λ walked. All (λ r. IsTrue (R.form.fits r)) walked.records) }
    ensures lie { IfOk result (λ walked. All (λ r. IsTrue (R.form.inside (geometry_of geo.now) group r)) walked.records) }
    ensures admits { (g b : ℕ) → M.admits marks.new g b ≡ M.admits marks.old g b }
{
    let at = (group as u64) * (geo.agblocks as u64) + (root as u64);
    let blocks = only(alloc, at)?;
    let row = Row {
        geo: *geo,
        group,
        owner: group as u64,
        height: levels - 1,
        least: 0,
    };
    walk_below::<R, B, M>(alloc, disk, &row, blocks, marks)
}

/// The records of the short tree of a group whose root is that block of it, a tree of that many levels (XFS
/// Algorithms & Data Structures, 'Fixed Length Record B+trees'). It is in the blocks of the volume, which begins
/// with the disk's first sector; each block is read once, and is claimed.
///
/// # Errors
///
/// A fault that the tree has, of several any: it names the group and the block. `Device` where a read failed,
/// and `Memory` where memory was refused. Then some of the tree's blocks are claimed.
pub fn walk<R: Record, B: Blocks, M: Mark>(
    alloc: Global,
    disk: &mut B,
    geo: &Super,
    group: u32,
    root: u32,
    levels: u32,
    marks: &mut M,
) -> Result<List<R>, TreeFault>
    requires volume { 8 * geo.now.dblocks ≤ B.size disk.old }
    requires group { group < geo.now.agcount }
    requires root { root < group_len (geometry_of geo.now) group }
    requires some { 1 ≤ levels }
    requires admits { AdmitsVolume geo.now (M.admits marks.old) }
    ensures read { B.only_read disk.old disk.new }
    ensures tree { IsTrue B.tells → IfOk result
        (IsShortTree R.form geo.now group root levels (B.image disk.old) (M.claimed marks.old)) }
    ensures claimed { IsTrue B.tells → OnOk result (ShortClaimed R.form geo.now group root levels
        (B.image disk.old) (M.claimed marks.old) (M.claimed marks.new)) }
    ensures fault { IsTrue B.tells → IfErr result
        (HasShortFault R.form geo.now group root levels (B.image disk.old) (M.claimed marks.old)) }
    ensures device { IsErrOf result TreeFault.Device → Rose (B.faults disk.old) (B.faults disk.new) }
    ensures order { IfOk result (AreInOrder R.form) }
    ensures fits { IfOk result (All (λ r. IsTrue (R.form.fits r))) }
    ensures lie { IfOk result (All (λ r. IsTrue (R.form.inside (geometry_of geo.now) group r))) }
    ensures admits { (g b : ℕ) → M.admits marks.new g b ≡ M.admits marks.old g b }
{
    let walked = walk_levels::<R, B, M>(alloc, disk, geo, group, root, levels, marks)?;
    Ok(walked.records)
}
