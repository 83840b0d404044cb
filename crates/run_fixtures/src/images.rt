//! Disks in memory, and what stands on them.
ghost use Rattle.std.specs.Prelude.{◌≡◌, ◌*◌, ◌≤◌, IfOk, length};

use std::alloc::{AllocError, Global};

/// A disk of `sectors` sectors that hold `byte`.
pub fn filled(alloc: Global, sectors: u64, byte: u8) -> Result<Vec<u8>, AllocError>
    requires { sectors ≤ 131072 }
    ensures { IfOk result (λ image. length image.items ≡ 512 * sectors) }
{
    vec![in alloc; byte; 512 * sectors as usize]
}

/// Puts bytes into an image where they fit.
pub fn put(image: &mut [u8], at: usize, bytes: &[u8]) {
    if at <= image.len() && bytes.len() <= image.len() - at {
        image[at..at + bytes.len()].copy_from_slice(bytes);
    }
}

/// A slot of a table, as type, first sector and number of sectors.
pub type Slot = (u8, u32, u32);

/// Makes sector 0 a table with the signature and these slots.
pub fn put_table(image: &mut [u8], slots: &[Slot]) {
    put(image, 0, &[0; 510]);
    put(image, 510, &[0x55, 0xAA]);
    for (i, (kind, start, count)) in slots.iter().take(4).enumerate() {
        put(image, 450 + 16 * i, &[*kind]);
        put(image, 454 + 16 * i, &start.to_le_bytes());
        put(image, 458 + 16 * i, &count.to_le_bytes());
    }
}

/// A disk with such a table; each other sector holds `byte`.
pub fn with_slots(
    alloc: Global,
    sectors: u64,
    byte: u8,
    slots: &[Slot],
) -> Result<Vec<u8>, AllocError>
    requires { sectors ≤ 131072 }
    ensures { IfOk result (λ image. length image.items ≡ 512 * sectors) }
{
    let mut image = filled(alloc, sectors, byte)?;
    put_table(image.as_mut_slice(), slots);
    Ok(image)
}

/// A part of an image, or nothing where it doesn't reach so far.
pub fn part(image: &[u8], from: usize, to: usize) -> &[u8] {
    image.get(from..to).unwrap_or(&[])
}

/// Whether each byte is that one.
pub fn are_all(bytes: &[u8], byte: u8) -> bool {
    bytes.iter().all(|one| *one == byte)
}
