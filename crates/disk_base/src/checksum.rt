//! Checksums of 32 bits.
ghost use Rattle.std.specs.Prelude.{◌≡◌, ℕ, ◌+◌, ◌≤◌, length};
ghost use Rattle.disk_base.specs.Checksum.{IsCrc32, IsCrc32Lvm, IsCrc32c, OneChecksum, crc32_of, crc32_lvm_of, crc32c_of, crc32c_without_of, left_of};
ghost use Rattle.disk_base.specs.inside.Tables.{IsTable};

use crate::checksum_table::{CRC32, CRC32C};

/// What is left of `start` and `bytes` by the polynomial of the table.
fn remainder(table: &[u32; 256], start: u32, bytes: &[u8]) -> u32
    ensures { (polynomial : ℕ) → IsTable polynomial table.now → result ≡ left_of polynomial start bytes.now }
{
    let mut rest = start;
    for byte in bytes {
        let low = (rest ^ u32::from(*byte)) & 0xFF;
        rest = table[low as usize] ^ (rest >> 8);
    }
    rest
}

/// The checksum of IEEE 802.3, by which a GUID partition table is summed (UEFI specification, 5.3.2).
pub fn crc32(bytes: &[u8]) -> u32
    ensures value { result ≡ crc32_of bytes.now }
    ensures sum { IsCrc32 bytes.now result }
{
    remainder(&CRC32, 0xFFFF_FFFF, bytes) ^ 0xFFFF_FFFF
}

/// The checksum by which LVM2 sums its labels, headers and texts: that of IEEE 802.3 with another start
/// and no inversion.
pub fn crc32_lvm(bytes: &[u8]) -> u32
    ensures value { result ≡ crc32_lvm_of bytes.now }
    ensures sum { IsCrc32Lvm bytes.now result }
{
    remainder(&CRC32, 0xF597_A6CF, bytes)
}

/// The checksum by the Castagnoli polynomial (RFC 3720, 12.1), by which XFS sums its metadata.
pub fn crc32c(bytes: &[u8]) -> u32
    ensures value { result ≡ crc32c_of bytes.now }
    ensures sum { IsCrc32c bytes.now result }
{
    remainder(&CRC32C, 0xFFFF_FFFF, bytes) ^ 0xFFFF_FFFF
}

/// The same checksum, with the four bytes from byte `at` on taken as zero: so XFS sums what holds its own
/// checksum there.
pub fn crc32c_without(bytes: &[u8], at: usize) -> u32
    requires { at + 4 ≤ length bytes.now }
    ensures { result ≡ crc32c_without_of bytes.now at }
{
    let before = remainder(&CRC32C, 0xFFFF_FFFF, &bytes[..at]);
    let zeros = remainder(&CRC32C, before, &[0; 4]);
    remainder(&CRC32C, zeros, &bytes[at + 4..]) ^ 0xFFFF_FFFF
}

/// The law that each of these functions of the definitions gives the one checksum. A call does nothing.
pub fn one_checksum()
    ensures { OneChecksum }
{}
