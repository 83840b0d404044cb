//! What a block of a tree has.
ghost use Rattle.std.specs.Prelude.{◌≡◌, ◌+◌, ◌*◌, ◌<◌, ◌≤◌, length, Bool, IsTrue, ◌↔◌, IfOk, IfErr};
ghost use Rattle.disk_base.specs.Fields.{big_at};
ghost use Rattle.disk_base.specs.Image.{bytes_at};
ghost use Rattle.xfs_tree.specs.Block.{header_len, place_at, identity_at, checksum_at, pointer_len, owner_in, is_whole, count_in, capacity, node_capacity, leaf_capacity, key_at, pointer_at, record_at, IsHeader, HaveRisingKeys};
ghost use Rattle.xfs_tree.specs.inside.Rows.{setting_of_row, JudgedIn, FaultIn};

use crate::fault::TreeFault;
use crate::record::Record;
use crate::row::{Row, place_of, sector_of};
use disk_base::{big_u16, big_u32, big_u64, crc32c_without, little_u32};
use xfs_super::Super;

/// Bytes of a block.
pub(crate) const BLOCK: usize = 4096;

/// Bytes of a block's header.
fn header_len<R: Record>() -> usize
    ensures { result ≡ header_len R.form.long }
{
    if R::LONG { 72 } else { 56 }
}

/// Where a block's own place stands.
fn place_at<R: Record>() -> usize
    ensures { result ≡ place_at R.form.long }
{
    if R::LONG { 24 } else { 16 }
}

/// Where the volume's identity stands.
fn identity_at<R: Record>() -> usize
    ensures { result ≡ identity_at R.form.long }
{
    if R::LONG { 40 } else { 32 }
}

/// Where a block's checksum stands.
fn checksum_at<R: Record>() -> usize
    ensures { result ≡ checksum_at R.form.long }
{
    if R::LONG { 64 } else { 52 }
}

/// Bytes of a pointer.
fn pointer_len<R: Record>() -> usize
    ensures { result ≡ pointer_len R.form.long }
{
    if R::LONG { 8 } else { 4 }
}

/// What a block names as its owner.
fn owner_in<R: Record>(bytes: &[u8; BLOCK]) -> u64
    ensures { result ≡ owner_in R.form.long bytes.now }
{
    if R::LONG {
        big_u64(bytes, 56)
    } else {
        u64::from(big_u32(bytes, 48))
    }
}

/// Whether a block has its checksum.
fn is_whole<R: Record>(bytes: &[u8; BLOCK]) -> bool
    ensures { result ≡ is_whole R.form.long bytes.now }
{
    let at = checksum_at::<R>();
    little_u32(bytes, at) == crc32c_without(bytes, at)
}

/// Whether a block names the place that it has.
fn names_place<R: Record>(row: &Row, at: u64, bytes: &[u8; BLOCK]) -> bool
    requires { at < row.now.geo.dblocks }
    ensures { IsTrue result ↔ (big_at 8 bytes.now (place_at R.form.long) ≡ 8 * at) }
{
    big_u64(bytes, place_at::<R>()) == sector_of(&row.geo, at)
}

/// Whether a block names its kind.
fn names_kind<R: Record>(bytes: &[u8; BLOCK]) -> bool
    ensures { IsTrue result ↔ (bytes_at bytes.now 0 4 ≡ R.form.magic) }
{
    &bytes[..4] == R::MAGIC.as_slice()
}

/// Whether a block names the volume.
fn names_volume<R: Record>(geo: &Super, bytes: &[u8; BLOCK]) -> bool
    ensures { IsTrue result ↔ (bytes_at bytes.now (identity_at R.form.long) 16 ≡ geo.now.meta) }
{
    let identity = identity_at::<R>();
    &bytes[identity..identity + 16] == geo.meta.as_slice()
}

/// Whether a block has the header that its place asks for.
fn has_header<R: Record>(row: &Row, at: u64, bytes: &[u8; BLOCK]) -> bool
    requires { at < row.now.geo.dblocks }
    ensures { IsTrue result ↔ IsHeader (setting_of_row R.form row.now) at bytes.now }
{
    if !names_kind::<R>(bytes) {
        return false;
    }
    if !names_place::<R>(row, at, bytes) {
        return false;
    }
    if !names_volume::<R>(&row.geo, bytes) {
        return false;
    }
    owner_in::<R>(bytes) == row.owner
}

/// How many records a leaf holds.
fn leaf_capacity<R: Record>() -> usize
    ensures { result ≡ leaf_capacity R.form }
{
    (BLOCK - header_len::<R>()) / R::SIZE
}

/// How many keys a node holds.
fn node_capacity<R: Record>() -> usize
    ensures { result ≡ node_capacity R.form }
{
    (BLOCK - header_len::<R>()) / (R::KEY + pointer_len::<R>())
}

/// How many records or keys a block of that height holds.
fn capacity<R: Record>(height: u32) -> usize
    ensures { result ≡ capacity R.form height }
{
    if height == 0 {
        leaf_capacity::<R>()
    } else {
        node_capacity::<R>()
    }
}

/// How many records or keys a block of a row has, where it is sound but for these.
pub(crate) fn judge<R: Record>(row: &Row, at: u64, bytes: &[u8; BLOCK]) -> Result<usize, TreeFault>
    requires { at < row.now.geo.dblocks }
    ensures judged { IfOk result (JudgedIn R.form row.now at bytes.now) }
    ensures fault { IfErr result (FaultIn R.form row.now at bytes.now) }
{
    let place = place_of(&row.geo, at);
    if !is_whole::<R>(bytes) {
        return Err(TreeFault::Checksum {
            group: place.group,
            block: place.block,
        });
    }
    if !has_header::<R>(row, at, bytes) {
        return Err(TreeFault::Header {
            group: place.group,
            block: place.block,
        });
    }
    if u32::from(big_u16(bytes, 4)) != row.height {
        return Err(TreeFault::Level {
            group: place.group,
            block: place.block,
        });
    }
    let count = big_u16(bytes, 6);
    if u32::from(count) < row.least || usize::from(count) > capacity::<R>(row.height) {
        return Err(TreeFault::Range {
            group: place.group,
            block: place.block,
        });
    }
    Ok(usize::from(count))
}

/// Key `i` of a node.
fn key_in<R: Record>(bytes: &[u8; BLOCK], i: usize) -> &[u8]
    requires { i < node_capacity R.form }
    ensures key { result.now ≡ key_at R.form bytes.now i }
    ensures long { length result.now ≡ R.KEY }
{
    let at = header_len::<R>() + R::KEY * i;
    &bytes[at..at + R::KEY]
}

/// Pointer `i` of a node.
pub(crate) fn pointer_in<R: Record>(bytes: &[u8; BLOCK], i: usize) -> u64
    requires { i < node_capacity R.form }
    ensures { result ≡ pointer_at R.form bytes.now i }
{
    if R::LONG {
        big_u64(bytes, 72 + R::KEY * node_capacity::<R>() + 8 * i)
    } else {
        u64::from(big_u32(bytes, 56 + R::KEY * node_capacity::<R>() + 4 * i))
    }
}

/// Record `i` of a leaf.
pub(crate) fn record_in<R: Record>(bytes: &[u8; BLOCK], i: usize) -> R
    requires { i < leaf_capacity R.form }
    ensures record_is { result ≡ record_at R.form bytes.now i }
    ensures fits { IsTrue (R.form.fits result) }
{
    let at = header_len::<R>() + R::SIZE * i;
    R::read(&bytes[at..at + R::SIZE])
}

/// Whether the keys of a node rise.
pub(crate) fn have_rising_keys<R: Record>(bytes: &[u8; BLOCK], count: usize) -> bool
    requires count { count ≡ count_in bytes.now }
    requires room { count ≤ node_capacity R.form }
    ensures { IsTrue result ↔ HaveRisingKeys R.form bytes.now }
{
    for i in 1..count {
        if !R::key_before(key_in::<R>(bytes, i - 1), key_in::<R>(bytes, i)) {
            return false;
        }
    }
    true
}
