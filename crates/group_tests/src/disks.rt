//! A disk of 136 sectors with two physical volumes, of 64 sectors from sectors 8 and 72 on.
ghost use Rattle.std.specs.Prelude.{◌≡◌, ◌*◌, ◌≤◌, length, IfOk};

use disk_base::{ByteDisk, Run, crc32_lvm};
use std::alloc::{AllocError, Global};

/// The runs of both partitions.
pub(crate) const FIRST: Run = Run {
    start: 8,
    count: 64,
};

pub(crate) const SECOND: Run = Run {
    start: 72,
    count: 64,
};

/// Bytes of the disk.
const BYTES: usize = 69632;

/// Two physical volumes of six and five extents of eight sectors; `root` has all of the first and two of the second,
/// `swap` the last two of the second.
pub(crate) const TEXT: &str =
    "vg { seqno = 1 extent_size = 8 physical_volumes { pv0 { id = \"aaaaaa-aaaa-aaaa-aaaa-aaaa-aaaa-aaaaaa\" dev_size = 64 pe_start = 16 pe_count = 6 } pv1 { id = \"bbbbbb-bbbb-bbbb-bbbb-bbbb-bbbb-bbbbbb\" dev_size = 50 pe_start = 16 pe_count = 5 } } logical_volumes { root { segment_count = 2 segment1 { start_extent = 0 extent_count = 6 type = \"striped\" stripe_count = 1 stripes = [\"pv0\", 0] } segment2 { start_extent = 6 extent_count = 2 type = \"striped\" stripe_count = 1 stripes = [\"pv1\", 0] } } swap { segment_count = 1 segment1 { start_extent = 0 extent_count = 2 type = \"striped\" stripe_count = 1 stripes = [\"pv1\", 3] } } } }";

// Puts bytes into an image where they fit.
fn put(image: &mut [u8], at: usize, bytes: &[u8]) {
    if at <= image.len() && bytes.len() <= image.len() - at {
        image[at..at + bytes.len()].copy_from_slice(bytes);
    }
}

// The label of a physical volume with that byte as its identifier: one data area from sector 16 on, and one metadata
// area of eight sectors from sector 8 on.
fn label_sector(id: u8) -> [u8; 512] {
    let mut sector = [0; 512];
    put(&mut sector, 0, b"LABELONE");
    put(&mut sector, 8, &[1]);
    put(&mut sector, 20, &[32]);
    put(&mut sector, 24, b"LVM2 001");
    put(&mut sector, 32, &[id; 32]);
    put(&mut sector, 64, &[0, 128]);
    put(&mut sector, 72, &[0, 32]);
    put(&mut sector, 104, &[0, 16]);
    put(&mut sector, 112, &[0, 16]);
    let checksum = crc32_lvm(&sector[20..]).to_le_bytes();
    put(&mut sector, 16, &checksum);
    sector
}

// The header of that area, whose text stands behind it.
fn area_sector(text: &[u8]) -> [u8; 512] {
    let mut sector = [0; 512];
    put(&mut sector, 4, b" LVM2 x[5A%r0N*>");
    put(&mut sector, 20, &[1]);
    put(&mut sector, 24, &[0, 16]);
    put(&mut sector, 32, &[0, 16]);
    put(&mut sector, 40, &[0, 2]);
    put(&mut sector, 48, &(text.len() as u64).to_le_bytes());
    put(&mut sector, 56, &crc32_lvm(text).to_le_bytes());
    let checksum = crc32_lvm(&sector[4..]).to_le_bytes();
    put(&mut sector, 0, &checksum);
    sector
}

fn put_volume(image: &mut [u8], at: usize, id: u8, text: &[u8])
    requires { at ≤ 65536 }
{
    put(image, at + 512, &label_sector(id));
    put(image, at + 4096, &area_sector(text));
    put(image, at + 4608, text);
}

/// The disk with these texts on the two partitions, and a swap area of two pages in the volume `swap`.
pub(crate) fn image_with(alloc: Global, first: &str, second: &str) -> Result<Vec<u8>, AllocError>
    ensures { IfOk result (λ image. length image.items ≡ 512 * 136) }
{
    let mut image = vec![in alloc; 0; BYTES]?;
    put_volume(image.as_mut_slice(), 4096, b'a', first.as_bytes());
    put_volume(image.as_mut_slice(), 36864, b'b', second.as_bytes());
    put(image.as_mut_slice(), 57344 + 1024, &[1, 0, 0, 0, 1]);
    put(image.as_mut_slice(), 57344 + 4086, b"SWAPSPACE2");
    Ok(image)
}

/// A disk over an image, at which that read fails.
pub(crate) fn disk_over(image: Vec<u8>, failing: Option<u64>) -> ByteDisk
    requires { length image.items ≡ 512 * 136 }
    ensures { result.sectors ≡ 136 }
{
    ByteDisk::new(image, 136, failing)
}
