//! Reading what the source is.
ghost use Rattle.std.specs.Prelude.{◌≡◌, ◌<◌, IsTrue, IfOk, IfErr, IsErrOf};
ghost use Rattle.disk_base.specs.Faults.{Rose};
ghost use Rattle.disk_base.specs.Image.{bytes_at};
ghost use Rattle.guest_view.specs.declared.fault.InspectFault.TheVariants.{Device};
ghost use Rattle.guest_view.specs.Guests.{IsGuest, IsNoGuest};
ghost use Rattle.resize_core.specs.Contents.{head_of};

use disk_base::{Blocks, Failed, SECTOR};
use guest_view::{Guest, InspectFault, inspect};
use std::alloc::Global;

/// A source as it was read: what it is, and bytes 0 to 445 of its sector 0.
#[derive(Drop)]
pub struct SourceDisk {
    pub guest: Guest,
    pub head: [u8; 446],
}

// Bytes 0 to 445 of a sector.
fn head_in(bytes: &[u8; SECTOR]) -> [u8; 446]
    ensures { result ≡ bytes_at bytes.now 0 446 }
{
    let mut head = [0; 446];
    head.copy_from_slice(&bytes[..446]);
    head
}

// Bytes 0 to 445 of a disk.
fn read_head<S: Blocks>(source: &mut S) -> Result<[u8; 446], Failed>
    requires some { 0 < S.size source.old }
    ensures read { S.only_read source.old source.new }
    ensures head { IsTrue S.tells → IfOk result (λ head. head ≡ head_of (S.image source.old)) }
    ensures cause { IfErr result (λ _. Rose (S.faults source.old) (S.faults source.new)) }
{
    let mut bytes = [0; SECTOR];
    source.read(0, &mut bytes)?;
    Ok(head_in(&bytes))
}

// What the source is, with its head.
fn with_head<S: Blocks>(source: &mut S, guest: Guest) -> Result<SourceDisk, Failed>
    requires { guest.sectors ≡ S.size source.old }
    ensures read { S.only_read source.old source.new }
    ensures head { IsTrue S.tells → IfOk result (λ found. found.head ≡ head_of (S.image source.old)) }
    ensures guest { IfOk result (λ found. found.guest ≡ guest) }
    ensures cause { IfErr result (λ _. Rose (S.faults source.old) (S.faults source.new)) }
{
    let _ = guest.sectors();
    let head = read_head(source)?;
    Ok(SourceDisk { guest, head })
}

/// What the source is: its table, its partitions with what they hold, and the head of its sector 0.
pub fn read_source<S: Blocks>(alloc: Global, source: &mut S) -> Result<SourceDisk, InspectFault>
    ensures read { S.only_read source.old source.new }
    ensures guest { IsTrue S.tells → IfOk result (λ found. IsGuest (S.size source.old) (S.image source.old) found.guest) }
    ensures head { IsTrue S.tells → IfOk result (λ found. found.head ≡ head_of (S.image source.old)) }
    ensures fault { IsTrue S.tells → IfErr result (λ fault. IsNoGuest (S.size source.old) (S.image source.old) fault) }
    ensures sectors { IfOk result (λ found. found.guest.sectors ≡ S.size source.old) }
    ensures device { IsErrOf result Device → Rose (S.faults source.old) (S.faults source.new) }
{
    let guest = inspect(alloc, source)?;
    match with_head(source, guest) {
        Ok(found) => Ok(found),
        Err(Failed) => Err(InspectFault::Device),
    }
}
