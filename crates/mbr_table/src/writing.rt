//! Writing the table and the records of a chain.
ghost use Rattle.std.specs.Prelude.{◌≡◌, ℕ, ◌+◌, ◌<◌, ◌≤◌, ◌++◌, length, take, option_map, MatchOption};
ghost use Rattle.mbr_table.specs.Signature.{HasSignature};
ghost use Rattle.mbr_table.specs.Slot.{slot_of, empty_slot, kept_slot, entry_bytes, slot_entry};
ghost use Rattle.mbr_table.specs.Chain.{own_of, next_of};
ghost use Rattle.mbr_table.specs.Record.{link_slot, link_entry_of, ebr_sector_of, ChainReadsBack, TableReadsBack};
ghost use Rattle.mbr_table.specs.Mbr.{IsSectorTable, AreSound, ReadsBack, mbr_sector_of, table_of};

use crate::slot::Slot;
use disk_base::put;

/// What stands in place of an address by cylinder, head and sector.
const NO_ADDRESS: [u8; 3] = [0xFE, 0xFF, 0xFF];

/// What ends a sector.
const SIGNATURE: [u8; 2] = [0x55, 0xAA];

/// The type of the slot that stands for the next record of a chain.
const NEXT_RECORD: u8 = 0x05;

/// The entry that says what a slot says.
fn spelled(slot: &Slot) -> [u8; 16]
    ensures bytes { result ≡ entry_bytes slot.now }
    ensures read_back { slot_of result ≡ slot.now }
{
    let Slot {
        status,
        kind,
        start,
        count,
    } = *slot;
    let [a, b, c] = NO_ADDRESS;
    let [s, t, u, v] = start.to_le_bytes();
    let [w, x, y, z] = count.to_le_bytes();
    [status, a, b, c, kind, a, b, c, s, t, u, v, w, x, y, z]
}

/// The entry of a slot.
fn entry(slot: &Slot) -> [u8; 16]
    ensures bytes { result ≡ slot_entry slot.now }
    ensures read_back { slot_of result ≡ kept_slot slot.now }
{
    if !slot.is_used() {
        return [0; 16];
    }
    spelled(slot)
}

/// The entry for the next record of a chain.
fn link_entry(next: Option<(u32, u32)>) -> [u8; 16]
    ensures bytes { result ≡ link_entry_of next }
    ensures read_back { MatchOption next (slot_of result ≡ empty_slot) (λ link. slot_of result ≡ link_slot link) }
{
    let Some((start, count)) = next else {
        return [0; 16];
    };
    spelled(&Slot {
        status: 0,
        kind: NEXT_RECORD,
        start,
        count,
    })
}

/// Makes sector 0 of a disk with that head and these slots. It is read as them, but that an unused slot
/// is read as an empty one.
pub fn mbr_sector(head: &[u8; 446], slots: &[Slot; 4], out: &mut [u8; 512])
    ensures bytes { out.new ≡ mbr_sector_of head.now slots.now }
    ensures read_back { ReadsBack head.now slots.now out.new }
    ensures table { (sectors : ℕ) → 0 < sectors → AreSound sectors slots.now → IsSectorTable sectors out.new (table_of head.now slots.now) }
{
    put(out, 0, head);
    for (i, slot) in slots.iter().enumerate() {
        put(out, 446 + 16 * i, &entry(slot));
    }
    put(out, 510, &SIGNATURE);
}

/// Makes the sector of an extended boot record. `own` is the slot of its logical partition, with `start`
/// counted from the record; `next` is where the next record stands, counted from the start of the extended
/// partition, and how many sectors there are from there to the end of its logical partition. The sector is
/// read as them, but that an unused slot is read as an empty one.
pub fn ebr_sector(own: &Slot, next: Option<(u32, u32)>, out: &mut [u8; 512])
    ensures bytes { out.new ≡ ebr_sector_of own.now next }
    ensures own { own_of out.new ≡ kept_slot own.now }
    ensures next { (base : ℕ) → next_of base out.new ≡ option_map (λ link. base + link.0) next }
    ensures signature { HasSignature out.new }
{
    put(out, 0, &[0; 446]);
    put(out, 446, &entry(own));
    put(out, 462, &link_entry(next));
    put(out, 478, &[0; 32]);
    put(out, 510, &SIGNATURE);
}

/// The law that a chain which was written for logical partitions is read as them. A call does nothing.
pub fn chain_reads_back()
    ensures { ChainReadsBack }
{}

/// The law that a disk in which a table was written, its sector 0 and its records, is read as that table. A
/// call does nothing.
pub fn table_reads_back()
    ensures { TableReadsBack }
{}
