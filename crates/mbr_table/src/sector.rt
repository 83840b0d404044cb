//! Sector 0 of a disk: its signature and its slots.
ghost use Rattle.std.specs.Prelude.{◌≡◌, [], IsTrue, ◌↔◌, IfOk, IfErr, MatchOption};
ghost use Rattle.std.specs.List.{list_any, find};
ghost use Rattle.mbr_table.specs.Signature.{HasSignature};
ghost use Rattle.mbr_table.specs.Slot.{stands_in, holds_extended};
ghost use Rattle.mbr_table.specs.Mbr.{IsProtective, AreSound, IsFirstBadSlot, IsSectorTable, plain_table, IsSectorFault, slots_of};

use crate::fault::MbrFault;
use crate::slot::{Slot, slot_in};
use disk_base::SECTOR;

/// The type byte of a slot that stands in for another table.
const PROTECTIVE: u8 = 0xEE;

/// What sector 0 says: `head` is its bytes 0 to 445 (boot code, disk signature and two further bytes), and
/// `slots` are its four slots in their order.
#[derive(Clone, Copy, Debug, PartialEq, Eq)]
pub struct SectorTable {
    pub head: [u8; 446],
    pub slots: [Slot; 4],
}

/// Whether a sector ends with 55 AA.
pub(crate) fn has_signature(sector: &[u8; SECTOR]) -> bool
    ensures { IsTrue result ↔ HasSignature sector.now }
{
    sector[510] == 0x55 && sector[511] == 0xAA
}

/// The four slots of a sector.
fn slots_in(sector: &[u8; SECTOR]) -> [Slot; 4]
    ensures { result ≡ slots_of sector.now }
{
    [
        slot_in(&sector[446..462]),
        slot_in(&sector[462..478]),
        slot_in(&sector[478..494]),
        slot_in(&sector[494..510]),
    ]
}

/// The number, counted from 1, of the first bad slot.
fn first_bad(sectors: u64, slots: &[Slot; 4]) -> Option<u32>
    ensures { MatchOption result (AreSound sectors slots.now) (λ number. IsFirstBadSlot sectors slots.now number) }
{
    let mut extended = false;
    for (i, slot) in slots.iter().enumerate() {
        if slot.is_bad(sectors, extended) {
            return Some(i as u32 + 1);
        }
        extended |= slot.holds_extended();
    }
    None
}

/// The first of the slots that holds an extended partition.
pub(crate) fn extended_in(slots: &[Slot; 4]) -> Option<Slot>
    ensures { result ≡ find holds_extended slots.now }
{
    for slot in slots {
        if slot.holds_extended() {
            return Some(*slot);
        }
    }
    None
}

/// The head and slots that sector 0 of a disk of that many sectors spells. It is `NoSignature` where the
/// disk has no sector or this one doesn't end with 55 AA, and `Entry` where a slot is bad; no other fault
/// comes.
pub fn judge_sector(sectors: u64, sector: &[u8; 512]) -> Result<SectorTable, MbrFault>
    ensures table { IfOk result (λ found. IsSectorTable sectors sector.now (plain_table found)) }
    ensures fault { IfErr result (λ fault. IsSectorFault sectors sector.now fault) }
{
    if sectors == 0 || !has_signature(sector) {
        return Err(MbrFault::NoSignature);
    }
    let slots = slots_in(sector);
    if let Some(number) = first_bad(sectors, &slots) {
        return Err(MbrFault::Entry { number });
    }
    let mut head = [0; 446];
    head.copy_from_slice(&sector[..446]);
    Ok(SectorTable { head, slots })
}

/// Whether one of the slots has the type that stands in for another table.
fn has_protective(slots: &[Slot]) -> bool
    ensures { result ≡ list_any stands_in slots.now }
{
    slots.iter().any(|slot| slot.kind == PROTECTIVE)
}

/// Whether a sector has the signature and a slot of the type that stands in for another table (UEFI
/// specification, 5.2.3).
pub fn is_protective(sector: &[u8; 512]) -> bool
    ensures { IsTrue result ↔ IsProtective sector.now }
{
    has_signature(sector) && has_protective(&slots_in(sector))
}
