//! The tree whose root stands in an inode's fork.
ghost use Rattle.std.specs.Prelude.{◌≡◌, ℕ, ◌+◌, ◌-◌, ◌*◌, ◌/◌, ◌%◌, ◌^◌, ◌<◌, ◌≤◌, map, length, IsTrue, ◌↔◌, IfOk, IfErr, IsErrOf, OnOk};
ghost use Rattle.std.specs.List.{All};
ghost use Rattle.disk_base.specs.Faults.{Rose};
ghost use Rattle.xfs_super.specs.Super.{geometry_of};
ghost use Rattle.xfs_tree.specs.Block.{leads_to};
ghost use Rattle.xfs_tree.specs.Fork.{fork_level, fork_count, fork_capacity, fork_key, fork_pointer, fork_pointers, home_group, home_block, HaveRisingRootKeys, IsSoundRoot, IsForkTree, HasForkFault, ForkClaimed};
ghost use Rattle.xfs_tree.specs.Marks.{AdmitsVolume};
ghost use Rattle.xfs_tree.specs.Records.{by_file};
ghost use Rattle.xfs_tree.specs.Tree.{AreInOrder};
ghost use Rattle.xfs_tree.specs.inside.Reading.{IsRefusedRoot};
ghost use Rattle.xfs_tree.specs.inside.Rows.{setting_of_row};

use crate::claiming::follow;
use crate::extent::Extent;
use crate::fault::TreeFault;
use crate::mark::Mark;
use crate::record::Record;
use crate::row::{Place, Row};
use crate::walking::walk_below;
use disk_base::{Blocks, List, big_u16, big_u64};
use std::alloc::Global;
use xfs_super::Super;

/// How many pointers a fork's root has room for.
fn capacity(fork: &[u8]) -> usize
    requires { 4 ≤ length fork.now }
    ensures { result ≡ fork_capacity fork.now }
{
    (fork.len() - 4) / 16
}

/// How high the blocks below a fork's root stand.
fn height_below(fork: &[u8]) -> u32
    requires { 4 ≤ length fork.now }
    ensures { result ≡ fork_level fork.now - 1 }
{
    (big_u16(fork, 0) as u32).saturating_sub(1)
}

/// Key `i` of a fork's root.
fn key_in(fork: &[u8], i: usize) -> &[u8]
    requires long { 4 ≤ length fork.now }
    requires inside { i < fork_capacity fork.now }
    ensures key { result.now ≡ fork_key fork.now i }
    ensures eight { length result.now ≡ 8 }
{
    let at = 4 + 8 * i;
    &fork[at..at + 8]
}

/// Pointer `i` of a fork's root.
fn pointer_in(fork: &[u8], i: usize) -> u64
    requires long { 4 ≤ length fork.now }
    requires inside { i < fork_capacity fork.now }
    ensures { result ≡ fork_pointer fork.now i }
{
    big_u64(fork, 4 + 8 * capacity(fork) + 8 * i)
}

/// Whether the keys of a fork's root rise.
fn have_rising_keys(fork: &[u8], count: usize) -> bool
    requires long { 4 ≤ length fork.now }
    requires count { count ≡ fork_count fork.now }
    requires room { count ≤ fork_capacity fork.now }
    ensures { IsTrue result ↔ HaveRisingRootKeys by_file fork.now }
{
    for i in 1..count {
        if !Extent::key_before(key_in(fork, i - 1), key_in(fork, i)) {
            return false;
        }
    }
    true
}

/// The block that holds an inode, as a fault has room for it.
fn home_of(geo: &Super, ino: u64) -> Place
    ensures group { result.group ≡ home_group (geometry_of geo.now) ino }
    ensures block { result.block ≡ home_block (geometry_of geo.now) ino }
{
    let number = ino >> geo.inopblog;
    let group = ino >> (geo.agblklog + geo.inopblog);
    Place {
        group: (group % 0x1_0000_0000) as u32,
        block: (number - ((number >> geo.agblklog) << geo.agblklog)) as u32,
    }
}

/// The blocks that a fork's root points to, where it is sound.
fn root_blocks(alloc: Global, row: &Row, fork: &[u8]) -> Result<Vec<u64>, TreeFault>
    requires long { 4 ≤ length fork.now }
    ensures root { OnOk result (IsSoundRoot (setting_of_row by_file row.now) (geometry_of row.now.geo) fork.now) }
    ensures blocks { IfOk result (λ blocks. blocks.items ≡ map (leads_to (setting_of_row by_file row.now)) (fork_pointers fork.now)) }
    ensures fault { IfErr result (IsRefusedRoot (setting_of_row by_file row.now) (geometry_of row.now.geo) fork.now) }
{
    let place = home_of(&row.geo, row.owner);
    if big_u16(fork, 0) == 0 {
        return Err(TreeFault::Level {
            group: place.group,
            block: place.block,
        });
    }
    let count = usize::from(big_u16(fork, 2));
    if count > capacity(fork) {
        return Err(TreeFault::Range {
            group: place.group,
            block: place.block,
        });
    }
    if !have_rising_keys(fork, count) {
        return Err(TreeFault::Order {
            group: place.group,
            block: place.block,
        });
    }
    let mut blocks = Vec::new(alloc);
    for i in 0..count {
        match follow::<Extent>(row, pointer_in(fork, i)) {
            Some(child) => blocks.push(child)?,
            None => {
                return Err(TreeFault::Range {
                    group: place.group,
                    block: place.block,
                });
            }
        }
    }
    Ok(blocks)
}

/// The extents of the tree whose root an inode's fork holds (XFS Algorithms & Data Structures, 'B+tree Extent
/// List'). Each block of the tree is read once, and is claimed.
///
/// # Errors
///
/// A fault that the tree has, of several any: it names the group and the block, and one of the root the block
/// that holds the inode. `Device` where a read failed, and `Memory` where memory was refused. Then some of the
/// tree's blocks are claimed.
pub fn walk_fork<B: Blocks, M: Mark>(
    alloc: Global,
    disk: &mut B,
    geo: &Super,
    ino: u64,
    fork: &[u8],
    marks: &mut M,
) -> Result<List<Extent>, TreeFault>
    requires volume { 8 * geo.now.dblocks ≤ B.size disk.old }
    requires fork { 4 ≤ length fork.now }
    requires admits { AdmitsVolume geo.now (M.admits marks.old) }
    ensures read { B.only_read disk.old disk.new }
    ensures tree { IsTrue B.tells → IfOk result (IsForkTree geo.now ino fork.now (B.image disk.old) (M.claimed marks.old)) }
    ensures claimed { IsTrue B.tells → OnOk result (ForkClaimed geo.now ino fork.now
        (B.image disk.old) (M.claimed marks.old) (M.claimed marks.new)) }
    ensures fault { IsTrue B.tells → IfErr result (HasForkFault geo.now ino fork.now (B.image disk.old) (M.claimed marks.old)) }
    ensures device { IsErrOf result TreeFault.Device → Rose (B.faults disk.old) (B.faults disk.new) }
    ensures order { IfOk result (AreInOrder by_file) }
    ensures fits { IfOk result (All (λ r. IsTrue (by_file.fits r))) }
    ensures lie { IfOk result (All (λ r. IsTrue (by_file.inside (geometry_of geo.now) 0 r))) }
    ensures admits { (g b : ℕ) → M.admits marks.new g b ≡ M.admits marks.old g b }
{
    let row = Row {
        geo: *geo,
        group: 0,
        owner: ino,
        height: height_below(fork),
        least: 1,
    };
    let blocks = root_blocks(alloc, &row, fork)?;
    let walked = walk_below::<Extent, B, M>(alloc, disk, &row, blocks, marks)?;
    Ok(walked.records)
}
