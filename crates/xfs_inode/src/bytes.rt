//! Parts of bytes, and their checksums.
ghost use Rattle.std.specs.Prelude.{◌≡◌, ◌+◌, ◌≤◌, length};
ghost use Rattle.disk_base.specs.Image.{bytes_at};
ghost use Rattle.xfs_super.specs.Superblock.{has_checksum};

use disk_base::{crc32c_without, little_u32};

/// The `len` bytes from byte `from` on.
pub(crate) fn part(bytes: &[u8], from: usize, len: usize) -> &[u8]
    requires { from + len ≤ length bytes.now }
    ensures bytes { result.now ≡ bytes_at bytes.now from len }
    ensures long { length result.now ≡ len }
{
    &bytes[from..from + len]
}

/// Whether a part of the metadata spells its checksum, at byte `at`.
pub(crate) fn has_checksum(bytes: &[u8], at: usize) -> bool
    requires { at + 4 ≤ length bytes.now }
    ensures { result ≡ has_checksum bytes.now at }
{
    little_u32(bytes, at) == crc32c_without(bytes, at)
}
