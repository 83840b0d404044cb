//! The newest record of a log.
ghost use Rattle.std.specs.Prelude.{◌≡◌, ℕ, ◌+◌, ◌*◌, ◌<◌, ◌≤◌, List, length, IsTrue, IfOk, IfSome};
ghost use Rattle.disk_base.specs.Faults.{HasCause};
ghost use Rattle.disk_base.specs.Image.{bytes_at};
ghost use Rattle.xfs_log.specs.inside.Finding.{sector_of_log, FindsNewest};
ghost use Rattle.xfs_super.specs.Super.{geometry_of};

use crate::place::{BLOCK, read_block};
use disk_base::{Blocks, Failed, big_u32};
use xfs_super::Super;

/// With what a record begins.
const MAGIC: u32 = 0xFEED_BABE;

/// The record that is the newest of those that were looked at: where it begins, counted in sectors of the log, and
/// its cycle.
#[derive(Clone, Copy)]
pub(crate) struct Newest {
    pub(crate) place: u64,
    cycle: u32,
}

/// The newest record of the sectors up to that one, where `best` is that of those before it.
fn with_sector(best: Option<Newest>, place: u64, bytes: &[u8]) -> Option<Newest>
    requires { length bytes.now ≡ 512 }
    ensures inside { IfSome best (λ b. b.place < place) → IfSome result (λ b. b.place < place + 1) }
    ensures newest { (sectors : ℕ → List ℕ) → sectors place ≡ bytes.now
        → FindsNewest sectors place best → FindsNewest sectors (place + 1) result }
{
    if big_u32(bytes, 0) != MAGIC {
        return best;
    }
    let cycle = big_u32(bytes, 4);
    if let Some(other) = best {
        if cycle < other.cycle {
            return best;
        }
    }
    Some(Newest { place, cycle })
}

/// The newest record of the blocks up to that one, where `best` is that of those before it.
fn with_block(best: Option<Newest>, at: u32, bytes: &[u8; BLOCK]) -> Option<Newest>
    ensures inside { IfSome best (λ b. b.place < 8 * at) → IfSome result (λ b. b.place < 8 * (at + 1)) }
    ensures newest { (sectors : ℕ → List ℕ)
        → ((k : ℕ) → k < 8 → sectors (8 * at + k) ≡ bytes_at bytes.now (512 * k) 512)
        → FindsNewest sectors (8 * at) best → FindsNewest sectors (8 * (at + 1)) result }
{
    let mut newest = best;
    for k in 0..8 {
        newest = with_sector(
            newest,
            8 * (at as u64) + k as u64,
            &bytes[512 * k..512 * k + 512],
        );
    }
    newest
}

/// The newest record of the log. Each of its blocks is read.
pub(crate) fn find_newest<B: Blocks>(disk: &mut B, geo: &Super) -> Result<Option<Newest>, Failed>
    requires volume { 8 * geo.now.dblocks ≤ B.size disk.old }
    ensures inside { IfOk result (λ newest. IfSome newest (λ n. n.place < 8 * geo.now.logblocks)) }
    ensures newest { IsTrue B.tells → IfOk result
        (FindsNewest (sector_of_log (geometry_of geo.now) (B.image disk.old)) (8 * geo.now.logblocks)) }
    ensures read { B.only_read disk.old disk.new }
    ensures cause { HasCause (B.faults disk.old) (B.faults disk.new) result }
{
    let mut buffer = [0; BLOCK];
    let mut newest = None;
    for at in 0..geo.logblocks {
        read_block(disk, geo, at, &mut buffer)?;
        newest = with_block(newest, at, &buffer);
    }
    Ok(newest)
}
