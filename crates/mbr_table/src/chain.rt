//! The chain of extended boot records, read one after the other.
ghost use Rattle.std.specs.Prelude.{◌≡◌, ◌+◌, ◌^◌, ◌<◌, ◌≤◌, [], ◌∷◌, ◌++◌, IsTrue, ◌↔◌, Some, length, Contains, IfOk, IfErr, OnOk, IsErrOf, MatchOption};
ghost use Rattle.std.specs.List.{cons_option};
ghost use Rattle.disk_base.specs.Faults.{Rose};
ghost use Rattle.disk_base.specs.Image.{sector};
ghost use Rattle.mbr_table.specs.Slot.{is_used, slot_end};
ghost use Rattle.mbr_table.specs.Chain.{own_of, own_logical, next_of, IsInExtended, LiesBehind, IsGoodRecord, AreLogicalsIn, AreChained, OneChain};
ghost use Rattle.mbr_table.specs.inside.Walk.{IsNew, IsPlaceFault, IsRecordFound, IsReadRecord, IsRecordFault, IsWalkWithin, WalksOn, WalkEnds, IsChainFault};

use crate::fault::MbrFault;
use crate::sector::has_signature;
use crate::slot::{Logical, Slot, slot_in};
use disk_base::{Blocks, SECTOR};
use std::alloc::Global;

/// How many extended boot records are read at most.
const MOST: usize = 60;

/// What an extended boot record says: its logical partition and the place of the next record.
#[derive(Clone, Copy)]
pub(crate) struct Record {
    pub(crate) logical: Option<Logical>,
    pub(crate) next: Option<u64>,
}

/// The records that were read: their places, their logical partitions and the place that is due.
#[derive(Drop)]
pub(crate) struct Walk {
    pub(crate) places: Vec<u32>,
    pub(crate) logicals: Vec<Logical>,
    pub(crate) next: Option<u64>,
}

/// Whether a record's own slot starts behind the record at `at` and ends in the extended partition.
fn lies_behind(extended: &Slot, at: u32, own: &Slot) -> bool
    ensures { IsTrue result ↔ LiesBehind extended.now at own.now }
{
    own.start > 0 && u64::from(at) + own.end() <= extended.end()
}

/// A record's own slot.
#[tactic(auto, unfolding(crate::specs::Chain::own_of))]
fn own_in(sector: &[u8; SECTOR]) -> Slot
    ensures { result ≡ own_of sector.now }
{
    slot_in(&sector[446..462])
}

/// The logical partition of the record at `at`, whose own slot is `own`.
fn logical_in(at: u32, own: &Slot) -> Option<Logical>
    requires { IsTrue (is_used own.now) → at + own.now.start < 2 ^ 32 }
    ensures { result ≡ own_logical at own.now }
{
    if !own.is_used() {
        return None;
    }
    let start = own.start;
    Some(Logical {
        ebr: at,
        slot: Slot {
            start: at + start,
            ..*own
        },
    })
}

/// The place of the record after the one in `sector`, where the extended partition starts at `base`.
fn next_in(base: u32, sector: &[u8; SECTOR]) -> Option<u64>
    ensures { result ≡ next_of base sector.now }
{
    let link = slot_in(&sector[462..478]);
    if link.kind == 0 {
        return None;
    }
    Some(u64::from(base) + u64::from(link.start))
}

/// What the record at `at` says, whose bytes are `sector`, if it is a good one.
pub(crate) fn judge_record(extended: &Slot, at: u32, sector: &[u8; SECTOR]) -> Option<Record>
    requires inside { IsInExtended extended.now at }
    requires addressed { slot_end extended.now ≤ 2 ^ 31 }
    ensures { IsRecordFound extended.now at sector.now result }
{
    if !has_signature(sector) {
        return None;
    }
    let own = own_in(sector);
    if own.is_used() && !lies_behind(extended, at, &own) {
        return None;
    }
    Some(Record {
        logical: logical_in(at, &own),
        next: next_in(extended.start, sector),
    })
}

/// The place of a record that is due at `at`, if it may be read: it lies in the extended partition, it
/// didn't come before, and it is no 61st.
fn judge_place(extended: &Slot, places: &[u32], at: u64) -> Result<u32, MbrFault>
    requires addressed { slot_end extended.now ≤ 2 ^ 31 }
    requires few { length places.now ≤ 60 }
    ensures place { IfOk result (λ place. (place ≡ at) × IsNew extended.now places.now at) }
    ensures fault { IfErr result (λ fault. IsPlaceFault extended.now places.now at fault) }
{
    if at < u64::from(extended.start) || at >= extended.end() {
        return Err(MbrFault::Chain { at });
    }
    let place = at as u32;
    if places.contains(&place) {
        return Err(MbrFault::Chain { at });
    }
    if places.len() == MOST {
        return Err(MbrFault::TooMany { at });
    }
    Ok(place)
}

/// The record at `at`, read of a disk.
fn read_record<B: Blocks>(disk: &mut B, extended: &Slot, at: u32) -> Result<Record, MbrFault>
    requires inside { IsInExtended extended.now at }
    requires on_disk { slot_end extended.now ≤ B.size disk.old }
    requires addressed { B.size disk.old ≤ 2 ^ 31 }
    ensures read { B.only_read disk.old disk.new }
    ensures found { IfOk result (λ found. IsReadRecord B.tells (B.image disk.old) extended.now at found) }
    ensures fault { IsTrue B.tells → IfErr result (λ fault. IsRecordFault (B.image disk.old) extended.now at fault) }
    ensures device { IsErrOf result MbrFault.Device → Rose (B.faults disk.old) (B.faults disk.new) }
{
    let mut bytes = [0; SECTOR];
    disk.read(u64::from(at), &mut bytes)?;
    match judge_record(extended, at, &bytes) {
        Some(found) => Ok(found),
        None => Err(MbrFault::Chain { at: u64::from(at) }),
    }
}

impl Walk {
    /// Adds the record at `place`.
    fn add(&mut self, place: u32, found: Record) -> Result<(), MbrFault>
        ensures places { OnOk result (self.new.places.items ≡ self.old.places.items ++ place ∷ []) }
        ensures logicals { OnOk result (self.new.logicals.items ≡ self.old.logicals.items ++ cons_option found.logical []) }
        ensures next { OnOk result (self.new.next ≡ found.next) }
        ensures memory { IfErr result (λ fault. fault ≡ MbrFault.Memory) }
    {
        self.places.push(place)?;
        self.next = found.next;
        match found.logical {
            Some(logical) => {
                self.logicals.push(logical)?;
                Ok(())
            }
            None => Ok(()),
        }
    }
}

/// Reads the record that is due at `at` and adds it.
fn step<B: Blocks>(disk: &mut B, extended: &Slot, walk: &mut Walk, at: u64) -> Result<(), MbrFault>
    requires on_disk { slot_end extended.now ≤ B.size disk.old }
    requires addressed { B.size disk.old ≤ 2 ^ 31 }
    requires within { IsWalkWithin extended.now walk.old }
    ensures read { B.only_read disk.old disk.new }
    ensures within { OnOk result (IsWalkWithin extended.now walk.new) }
    ensures more { OnOk result (length walk.new.places.items ≡ length walk.old.places.items + 1) }
    ensures walked { IsTrue B.tells → OnOk result (WalksOn (B.image disk.old) extended.now walk.old at walk.new) }
    ensures fault { IsTrue B.tells → IfErr result (λ fault. WalkEnds (B.image disk.old) extended.now walk.old at fault) }
    ensures device { IsErrOf result MbrFault.Device → Rose (B.faults disk.old) (B.faults disk.new) }
{
    let place = judge_place(extended, &walk.places, at)?;
    let found = read_record(disk, extended, place)?;
    walk.add(place, found)?;
    Ok(())
}

/// The logical partitions of the extended one, in the order of their chain.
pub(crate) fn read_chain<B: Blocks>(
    alloc: Global,
    disk: &mut B,
    extended: &Slot,
) -> Result<Vec<Logical>, MbrFault>
    requires on_disk { slot_end extended.now ≤ B.size disk.old }
    requires addressed { B.size disk.old ≤ 2 ^ 31 }
    ensures read { B.only_read disk.old disk.new }
    ensures within { IfOk result (λ all. AreLogicalsIn extended.now all.items) }
    ensures chained { IsTrue B.tells → IfOk result (λ all. AreChained (B.image disk.old) extended.now all.items) }
    ensures fault { IsTrue B.tells → IfErr result (λ fault. IsChainFault (B.image disk.old) extended.now fault) }
    ensures device { IsErrOf result MbrFault.Device → Rose (B.faults disk.old) (B.faults disk.new) }
{
    let mut walk = Walk {
        places: Vec::new(alloc),
        logicals: Vec::new(alloc),
        next: Some(u64::from(extended.start)),
    };
    while let Some(at) = walk.next {
        step(disk, extended, &mut walk, at)?;
    }
    Ok(walk.logicals)
}

/// The law that an extended partition has at most one chain, which comes to nothing bad. A call does nothing.
pub fn one_chain()
    ensures { OneChain }
{}
