//! Judging the short form of a directory.
ghost use Rattle.std.specs.Prelude.{◌≡◌, ◌≤◌, length, true, false};
ghost use Rattle.xfs_files.specs.Directory.{short_form, IsSoundShortForm};

use xfs_dir::short_entries;
use xfs_inode::Core;

/// The short form in the bytes of an inode: as many bytes as the inode says, and no more than there are.
fn short_form<'a>(core: &Core, bytes: &'a [u8]) -> &'a [u8]
    requires { 176 ≤ length bytes.now }
    ensures { result.now ≡ short_form core.now bytes.now }
{
    let fork = &bytes[176..];
    let len = core.size.min(fork.len() as u64) as usize;
    &fork[..len]
}

/// Whether the short form of a directory, whose core that is and which has these bytes, spells a list of entries.
pub(crate) fn is_sound_short_form(core: &Core, bytes: &[u8]) -> bool
    requires { 176 ≤ length bytes.now }
    ensures yes { result ≡ true → IsSoundShortForm core.now bytes.now }
    ensures no { result ≡ false → IsSoundShortForm core.now bytes.now → ⊥ }
{
    short_entries(short_form(core, bytes)).is_ok()
}
