//! What a file contains.
ghost use Rattle.std.specs.Prelude.{◌≡◌, ◌+◌, ◌-◌, ◌*◌, ◌≤◌, length, IsTrue, IfOk, OnOk, replicate, min};
ghost use Rattle.block_claims.specs.Agreement.{block};
ghost use Rattle.disk_base.specs.Faults.{HasCause};
ghost use Rattle.disk_base.specs.Image.{bytes_at};
ghost use Rattle.xfs_inode.specs.Content.{file_block, content_in, target_in, GivesContent};
ghost use Rattle.xfs_inode.specs.Extents.{AreSoundExtents};
ghost use Rattle.xfs_inode.specs.Inode.{front_inode};
ghost use Rattle.xfs_inode.specs.inside.Searching.{FillsFile};
ghost use Rattle.xfs_super.specs.Super.{geometry_of};

use crate::bytes::part;
use crate::core_fields::Core;
use crate::place::{BLOCK, block_of, read_block};
use crate::search::find_extent;
use disk_base::{Blocks, Failed, put};
use xfs_super::Super;
use xfs_tree::Extent;

/// Fills a block with zeros.
fn clear(out: &mut [u8; BLOCK])
    ensures { out.new ≡ replicate 4096 0 }
{
    *out = [0; BLOCK];
}

/// Reads a block of a file.
fn load<B: Blocks>(
    disk: &mut B,
    geo: &Super,
    extents: &[Extent],
    number: u64,
    out: &mut [u8; BLOCK],
) -> Result<(), Failed>
    requires volume { 8 * geo.now.dblocks ≤ B.size disk.old }
    requires extents { AreSoundExtents (geometry_of geo.now) extents.now }
    ensures bytes { IsTrue B.tells → OnOk result
        (out.new ≡ file_block (block (B.image disk.old)) (geometry_of geo.now) extents.now number) }
    ensures read { B.only_read disk.old disk.new }
    ensures cause { HasCause (B.faults disk.old) (B.faults disk.new) result }
{
    match find_extent(geo, number, extents) {
        Some(extent) => {
            if extent.unwritten {
                clear(out);
                return Ok(());
            }
            read_block(disk, geo, block_of(geo, &extent, number), out)?;
            Ok(())
        }
        None => {
            clear(out);
            Ok(())
        }
    }
}

/// As many bytes of a regular file of `size` bytes from byte `offset` on as there are and `out` has room for.
fn file_at<B: Blocks>(
    disk: &mut B,
    geo: &Super,
    size: u64,
    extents: &[Extent],
    offset: u64,
    out: &mut [u8],
) -> Result<usize, Failed>
    requires volume { 8 * geo.now.dblocks ≤ B.size disk.old }
    requires extents { AreSoundExtents (geometry_of geo.now) extents.now }
    ensures count { IfOk result (λ n. n ≡ min (length out.old) (size - offset)) }
    ensures bytes { IsTrue B.tells → IfOk result
        (λ n. FillsFile (block (B.image disk.old)) (geometry_of geo.now) extents.now offset n out.old out.new) }
    ensures read { B.only_read disk.old disk.new }
    ensures cause { HasCause (B.faults disk.old) (B.faults disk.new) result }
{
    let n = size.saturating_sub(offset).min(out.len() as u64) as usize;
    let mut buffer = [0; BLOCK];
    let mut done = 0;
    while done < n {
        let at = offset + done as u64;
        let within = (at % 4096) as usize;
        let len = (4096 - within).min(n - done);
        load(disk, geo, extents, at / 4096, &mut buffer)?;
        put(out, done, part(&buffer, within, len));
        done += len;
    }
    Ok(n)
}

/// Of the bytes from byte `from` on, at most `size`, as many from the `offset`th on as there are and `out` has room
/// for.
fn copy(bytes: &[u8], from: usize, size: u64, offset: u64, out: &mut [u8]) -> usize
    requires { from ≤ length bytes.now }
    ensures { GivesContent (bytes_at bytes.now from size) offset result out.old out.new }
{
    let len = size.min((bytes.len() - from) as u64);
    let n = len.saturating_sub(offset).min(out.len() as u64) as usize;
    if n == 0 {
        return 0;
    }
    put(out, 0, part(bytes, from + offset as usize, n));
    n
}

/// As many bytes of a link's target from byte `offset` on as there are and `out` has room for.
fn target_at<B: Blocks>(
    disk: &mut B,
    geo: &Super,
    core: &Core,
    bytes: &[u8],
    extents: &[Extent],
    offset: u64,
    out: &mut [u8],
) -> Result<usize, Failed>
    requires volume { 8 * geo.now.dblocks ≤ B.size disk.old }
    requires extents { AreSoundExtents (geometry_of geo.now) extents.now }
    requires long { 176 ≤ length bytes.now }
    ensures room { IfOk result (λ n. n ≤ length out.old) }
    ensures bytes { IsTrue B.tells → IfOk result (λ n. GivesContent
        (target_in (block (B.image disk.old)) (geometry_of geo.now) core.now bytes.now extents.now) offset n out.old out.new) }
    ensures read { B.only_read disk.old disk.new }
    ensures cause { HasCause (B.faults disk.old) (B.faults disk.new) result }
{
    if core.format == 1 {
        return Ok(copy(bytes, 176, core.size, offset, out));
    }
    let Some(extent) = find_extent(geo, 0, extents) else {
        return Ok(0);
    };
    let mut buffer = [0; BLOCK];
    read_block(disk, geo, block_of(geo, &extent, 0), &mut buffer)?;
    Ok(copy(&buffer, 56, core.size, offset, out))
}

/// As many bytes of an inode's content from byte `offset` on as there are and `out` has room for: the bytes of a
/// regular file, where no extent covers them or one that isn't written does, zeros; the target of a link; the four
/// bytes of a device's number; or none. `bytes` begin with the inode. It takes no memory.
///
/// # Errors
///
/// `Failed` where a read failed.
pub fn content_at<B: Blocks>(
    disk: &mut B,
    geo: &Super,
    core: &Core,
    bytes: &[u8; 2048],
    extents: &[Extent],
    offset: u64,
    out: &mut [u8],
) -> Result<usize, Failed>
    requires volume { 8 * geo.now.dblocks ≤ B.size disk.old }
    requires extents { AreSoundExtents (geometry_of geo.now) extents.now }
    ensures room { IfOk result (λ n. n ≤ length out.old) }
    ensures bytes { IsTrue B.tells → IfOk result (λ n. GivesContent
        (content_in (block (B.image disk.old)) (geometry_of geo.now) core.now (front_inode geo.now bytes.now) extents.now)
        offset n out.old out.new) }
    ensures read { B.only_read disk.old disk.new }
    ensures cause { HasCause (B.faults disk.old) (B.faults disk.new) result }
{
    let inode = &bytes[..geo.inodesize as usize];
    if core.is_regular_file() {
        let n = file_at(disk, geo, core.size, extents, offset, out)?;
        return Ok(n);
    }
    if core.is_link() {
        let n = target_at(disk, geo, core, inode, extents, offset, out)?;
        return Ok(n);
    }
    if core.is_device() {
        return Ok(copy(inode, 176, 4, offset, out));
    }
    Ok(0)
}
