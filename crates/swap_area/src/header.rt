//! The first page of a swap area.
ghost use Rattle.std.specs.Prelude.{◌≡◌, ◌+◌, ◌*◌, ◌≤◌, ◌↔◌, length, codes, IsTrue, IsSome, IfSome};
ghost use Rattle.swap_area.specs.Header.{HasSwapSignature, IsSwap, swap_in, with_last_page};

use disk_base::{SECTOR, little_u32};

/// Bytes in a page.
pub const PAGE: usize = 4096;

/// The last bytes of the first page.
const SIGNATURE: [u8; 10] = *b"SWAPSPACE2";

/// What a header says of its area.
#[derive(Clone, Copy, Debug, PartialEq, Eq)]
pub struct Swap {
    /// The number of the last page; the header is page 0.
    pub last_page: u32,
    /// How many pages can't be used.
    pub bad: u32,
    pub uuid: [u8; 16],
    /// A text, with zeros behind it where it is shorter.
    pub label: [u8; 16],
}

fn is_signature(bytes: &[u8]) -> bool
    ensures { IsTrue result ↔ (bytes.now ≡ codes "SWAPSPACE2") }
{
    bytes == SIGNATURE.as_slice()
}

/// Whether the first page of a volume says that it is a swap area.
pub fn has_signature(page: &[u8; PAGE]) -> bool
    ensures { IsTrue result ↔ HasSwapSignature page.now }
{
    is_signature(&page[4086..])
}

fn is_swap(page: &[u8; PAGE], sectors: u64) -> bool
    ensures { IsTrue result ↔ IsSwap page.now sectors }
{
    let last_page = little_u32(page, 1028);
    has_signature(page)
        && little_u32(page, 1024) == 1
        && last_page >= 1
        && (u64::from(last_page) + 1) * 8 <= sectors
}

/// The header in the first page of a volume of that many sectors of 512 bytes, or `None` where it isn't a sound
/// one of version 1 with its pages in the volume.
pub fn swap_of(page: &[u8; PAGE], sectors: u64) -> Option<Swap>
    ensures valid { IsSome result ↔ IsSwap page.now sectors }
    ensures fields { IfSome result (λ swap. swap ≡ swap_in page.now) }
    ensures some { IfSome result (λ swap. 1 ≤ swap.last_page) }
    ensures fits { IfSome result (λ swap. (swap.last_page + 1) * 8 ≤ sectors) }
{
    if !is_swap(page, sectors) {
        return None;
    }
    let mut uuid = [0; 16];
    uuid.copy_from_slice(&page[1036..1052]);
    let mut label = [0; 16];
    label.copy_from_slice(&page[1052..1068]);
    Some(Swap {
        last_page: little_u32(page, 1028),
        bad: little_u32(page, 1032),
        uuid,
        label,
    })
}

/// Writes sector 2 of a swap area with another last page into `out`: nothing else of `old` changes.
pub fn swap_sector(old: &[u8; SECTOR], last_page: u32, out: &mut [u8; SECTOR])
    ensures { out.new ≡ with_last_page old.now last_page }
{
    out.copy_from_slice(old);
    out[4..8].copy_from_slice(&last_page.to_le_bytes());
}
