//! Numbers in the bytes of a sector or a block, and bytes put into their place.
ghost use Rattle.std.specs.Prelude.{◌≡◌, ◌+◌, ◌≤◌, ◌++◌, length, take};
ghost use Rattle.disk_base.specs.Fields.{little_at, big_at};
ghost use Rattle.disk_base.specs.Image.{with_bytes};

use byteorder::{BigEndian, ByteOrder, LittleEndian};

/// The number of 2 bytes from byte `at` on, lowest byte first.
pub fn little_u16(bytes: &[u8], at: usize) -> u16
    requires { at + 2 ≤ length bytes.now }
    ensures { result ≡ little_at 2 bytes.now at }
{
    LittleEndian::read_u16(&bytes[at..])
}

/// The number of 4 bytes from byte `at` on, lowest byte first.
pub fn little_u32(bytes: &[u8], at: usize) -> u32
    requires { at + 4 ≤ length bytes.now }
    ensures { result ≡ little_at 4 bytes.now at }
{
    LittleEndian::read_u32(&bytes[at..])
}

/// The number of 8 bytes from byte `at` on, lowest byte first.
pub fn little_u64(bytes: &[u8], at: usize) -> u64
    requires { at + 8 ≤ length bytes.now }
    ensures { result ≡ little_at 8 bytes.now at }
{
    LittleEndian::read_u64(&bytes[at..])
}

/// The number of 2 bytes from byte `at` on, highest byte first.
pub fn big_u16(bytes: &[u8], at: usize) -> u16
    requires { at + 2 ≤ length bytes.now }
    ensures { result ≡ big_at 2 bytes.now at }
{
    BigEndian::read_u16(&bytes[at..])
}

/// The number of 4 bytes from byte `at` on, highest byte first.
pub fn big_u32(bytes: &[u8], at: usize) -> u32
    requires { at + 4 ≤ length bytes.now }
    ensures { result ≡ big_at 4 bytes.now at }
{
    BigEndian::read_u32(&bytes[at..])
}

/// The number of 8 bytes from byte `at` on, highest byte first.
pub fn big_u64(bytes: &[u8], at: usize) -> u64
    requires { at + 8 ≤ length bytes.now }
    ensures { result ≡ big_at 8 bytes.now at }
{
    BigEndian::read_u64(&bytes[at..])
}

/// Puts bytes into their place, from byte `at` on: so also behind what stands before it.
pub fn put(out: &mut [u8], at: usize, bytes: &[u8])
    requires { at + length bytes.now ≤ length out.old }
    ensures written { out.new ≡ with_bytes out.old at bytes.now }
    ensures appended { take (at + length bytes.now) out.new ≡ take at out.old ++ bytes.now }
{
    out[at..at + bytes.len()].copy_from_slice(bytes);
}
