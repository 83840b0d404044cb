//! Fields as they stand in bytes.
ghost use Rattle.std.specs.Prelude.{◌≡◌, ◌+◌, ◌<◌, ◌≤◌, length};
ghost use Rattle.disk_base.specs.Fields.{big_at};
ghost use Rattle.disk_base.specs.Image.{bytes_at};
ghost use Rattle.xfs_super.specs.Superblock.{has_flag, has_checksum};

use disk_base::{crc32c_without, little_u32};

/// The `N` bytes from byte `at` on.
pub(crate) fn array<const N: usize>(bytes: &[u8], at: usize) -> [u8; N]
    requires { at + N ≤ length bytes.now }
    ensures { result ≡ bytes_at bytes.now at N }
{
    let mut out = [0; N];
    out.copy_from_slice(&bytes[at..at + N]);
    out
}

/// Whether flag `2^k` is set.
pub(crate) fn has_flag(flags: u32, k: u32) -> bool
    requires { k < 32 }
    ensures { result ≡ has_flag flags k }
{
    flags >> k & 1 == 1
}

/// Whether a part of the metadata spells its checksum, at byte `at`.
pub(crate) fn has_checksum(bytes: &[u8], at: usize) -> bool
    requires { at + 4 ≤ length bytes.now }
    ensures { result ≡ has_checksum bytes.now at }
{
    little_u32(bytes, at) == crc32c_without(bytes, at)
}
