//! The forks of an inode.
ghost use Rattle.std.specs.Prelude.{◌≡◌, ◌≤◌, length, true, false, MatchOption};
ghost use Rattle.xfs_inode.specs.Core.{InodeFork, has_forks, has_room, fork_of, fork_holds, data_fork_len};
ghost use Rattle.xfs_inode.specs.inside.Telling.{fork_as_data};
ghost use Rattle.xfs_super.specs.Super.{geometry_of};

use crate::core_fields::Core;
use disk_base::big_u16;
use xfs_super::Super;

/// A fork of an inode: whose it is, in which format, how many extents it lists and how many local bytes it has to
/// hold, and its bytes.
#[derive(Clone, Copy, Debug)]
pub(crate) struct Fork<'a> {
    pub ino: u64,
    pub format: u8,
    pub count: u64,
    pub local: u64,
    pub bytes: &'a [u8],
}

/// How long the data fork is.
fn data_fork_len(geo: &Super, core: &Core) -> usize
    ensures { result ≡ data_fork_len (geometry_of geo.now) core.now }
{
    if core.forkoff == 0 {
        geo.inodesize as usize - 176
    } else {
        8 * usize::from(core.forkoff)
    }
}

/// Whether the forks lie in their inode.
pub(crate) fn has_forks(geo: &Super, core: &Core) -> bool
    ensures { result ≡ has_forks (geometry_of geo.now) core.now }
{
    8 * u32::from(core.forkoff) <= geo.inodesize - 176
}

/// A fork of an inode, as its core says, where it lies in the inode.
fn fork_at<'a>(geo: &Super, core: &Core, bytes: &'a [u8], attribute: bool) -> Fork<'a>
    requires long { length bytes.now ≡ geo.now.inodesize }
    requires lies { has_forks (geometry_of geo.now) core.now ≡ true }
    ensures { fork_as_data result ≡ fork_of (geometry_of geo.now) core.now bytes.now attribute }
{
    let len = data_fork_len(geo, core);
    if attribute {
        Fork {
            ino: core.ino,
            format: core.aformat,
            count: u64::from(core.anextents),
            local: 0,
            bytes: &bytes[176 + len..],
        }
    } else {
        Fork {
            ino: core.ino,
            format: core.format,
            count: core.nextents,
            local: core.size,
            bytes: &bytes[176..176 + len],
        }
    }
}

/// Whether a fork holds its local bytes, its list of extents, or the root of their tree.
fn has_room(fork: &Fork<'_>) -> bool
    ensures { result ≡ has_room (length fork.now.bytes.now) (fork_as_data fork.now) }
{
    let len = fork.bytes.len();
    if fork.format == 1 {
        return fork.local <= len as u64;
    }
    if fork.format == 2 {
        return fork.count <= (len / 16) as u64;
    }
    if fork.format == 3 {
        return len >= 4 && 4 + 16 * usize::from(big_u16(fork.bytes, 2)) <= len;
    }
    true
}

/// A fork of an inode, as its core says, where it holds what it has to.
pub(crate) fn fork_in<'a>(
    geo: &Super,
    core: &Core,
    bytes: &'a [u8],
    attribute: bool,
) -> Option<Fork<'a>>
    requires { length bytes.now ≡ geo.now.inodesize }
    ensures { MatchOption result
        (fork_holds (fork_of (geometry_of geo.now) core.now bytes.now attribute) ≡ false)
        (λ fork. (fork_as_data fork ≡ fork_of (geometry_of geo.now) core.now bytes.now attribute)
        × (fork_holds (fork_as_data fork) ≡ true)) }
{
    if !has_forks(geo, core) {
        return None;
    }
    let fork = fork_at(geo, core, bytes, attribute);
    if !has_room(&fork) {
        return None;
    }
    Some(fork)
}
