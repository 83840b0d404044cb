ghost use Rattle.std.specs.Prelude.{◌≡◌, ℕ, ◌-◌, ◌*◌, ◌^◌, ◌<◌, ◌≤◌, length, Bool, false, List, [], refl};
ghost use Rattle.std.proofs.Common.{◌∙◌};
ghost use Rattle.std.proofs.Math.Nat.{le_refl};
ghost use Rattle.std.proofs.lemmas.Bool.{false≢true};
ghost use Rattle.disk_base.specs.Faults.{HasCause};

mod chains;

use disk_base::{Blocks, Failed};
use mbr_table::*;
use std::alloc::Global;
use std::test::*;

/// A disk of `sectors` sectors, of which those listed in `written` hold these bytes and the others zero. It
/// counts its reads, and the read with the number `failing`, counted from 0, fails.
#[derive(Drop)]
struct Small {
    sectors: u64,
    written: Vec<(u64, [u8; 512])>,
    reads: u64,
    failing: u64,
    ghost few: { sectors ≤ 2 ^ 31 },
}

impl Blocks for Small {
    ghost tells = { false };

    ghost image = { λ _. [] };

    ghost size = { λ d. d.sectors };

    ghost faults = { λ _. 2 ^ 64 - 1 };

    ghost only_read = { λ a b. b.sectors ≡ a.sectors };

    ghost read_nothing = { λ d. refl };

    ghost read_on = { λ a b c p q. q ∙ p };

    ghost same_size = { λ a b p. p };

    ghost same_image = { λ a b p t. refl };

    ghost whole = { λ d t. absurd (false≢true t) };

    ghost no_fewer = { λ a b p. le_refl _ };

    ghost last_count = { λ d. le_refl _ };

    fn sectors(&self) -> u64 {
        self.sectors
    }

    fn read(&mut self, at: u64, out: &mut [u8]) -> Result<(), Failed> {
        let number = self.reads;
        self.reads = number.saturating_add(1);
        if number == self.failing {
            return Err(Failed);
        }
        fill(&self.written, at, out);
        Ok(())
    }
}

/// The bytes of that sector.
fn fill(written: &[(u64, [u8; 512])], at: u64, out: &mut [u8]) {
    out.fill(0);
    for (place, bytes) in written {
        if *place == at {
            copy(bytes, out);
        }
    }
}

fn copy(bytes: &[u8; 512], out: &mut [u8]) {
    for (to, from) in out.iter_mut().zip(bytes) {
        *to = *from;
    }
}

const EMPTY: Slot = Slot {
    status: 0,
    kind: 0,
    start: 0,
    count: 0,
};

const fn plain(start: u32, count: u32) -> Slot {
    Slot {
        status: 0,
        kind: 0x83,
        start,
        count,
    }
}

const fn extended(start: u32, count: u32) -> Slot {
    Slot {
        status: 0,
        kind: 0x05,
        start,
        count,
    }
}

fn sector_of(slots: &[Slot; 4]) -> [u8; 512] {
    let mut sector = [0; 512];
    mbr_sector(&[7; 446], slots, &mut sector);
    sector
}

fn small_of(sectors: u16, written: Vec<(u64, [u8; 512])>) -> Small {
    Small {
        sectors: u64::from(sectors),
        written,
        reads: 0,
        failing: u64::MAX,
    }
}

fn read_small(alloc: Global, sectors: u16, sector: [u8; 512]) -> Result<Mbr, MbrFault> {
    read_mbr(alloc, &mut small_of(sectors, vec![in alloc; (0, sector)]?))
}

fn entry_at(sector: &[u8; 512], i: usize) -> &[u8]
    requires { i < 4 }
{
    &sector[446 + 16 * i..462 + 16 * i]
}

#[test]
fn writes_the_entries_of_slots(rt: HostRuntime) {
    let sector = sector_of(&[plain(2048, 20480), plain(22528, 43008), EMPTY, EMPTY]);
    let first = [
        0x00, 0xFE, 0xFF, 0xFF, 0x83, 0xFE, 0xFF, 0xFF, 0x00, 0x08, 0x00, 0x00, 0x00, 0x50, 0x00,
        0x00,
    ];
    let second = [
        0x00, 0xFE, 0xFF, 0xFF, 0x83, 0xFE, 0xFF, 0xFF, 0x00, 0x58, 0x00, 0x00, 0x00, 0xA8, 0x00,
        0x00,
    ];
    assert_eq!(rt; entry_at(&sector, 0), first.as_slice());
    assert_eq!(rt; entry_at(&sector, 1), second.as_slice());
    assert_eq!(rt; entry_at(&sector, 2), [0; 16].as_slice());
    assert_eq!(rt; entry_at(&sector, 3), [0; 16].as_slice());
    assert_eq!(rt;
        (sector[0], sector[445], sector[510], sector[511]),
        (7, 7, 0x55, 0xAA)
    );
}

#[test]
fn reads_tables(rt: HostRuntime) -> Result<(), Fail> {
    let sound = [plain(2048, 20480), plain(22528, 43007), EMPTY, EMPTY];
    let sector = sector_of(&sound);
    let table = read_small(rt.alloc(), 65535, sector)?;
    assert_eq!(rt; table.head().as_slice(), [7; 446].as_slice());
    assert_eq!(rt; table.slots().as_slice(), sound.as_slice());
    assert_eq!(rt; table.logicals().len(), 0);
    let judged = judge_sector(65535, &sector)?;
    assert_eq!(rt; judged.head.as_slice(), [7; 446].as_slice());
    assert_eq!(rt; judged.slots.as_slice(), sound.as_slice());
    assert!(rt; !is_protective(&sector));
    one_table();
    one_fault();
    Ok(())
}

#[test]
fn says_why_there_is_no_table(rt: HostRuntime) {
    let sound = sector_of(&[plain(2048, 20480), plain(22528, 43007), EMPTY, EMPTY]);
    let lone = sector_of(&[plain(2048, 20480), EMPTY, EMPTY, EMPTY]);
    let past = sector_of(&[plain(2048, 63488), EMPTY, EMPTY, EMPTY]);
    let at_zero = sector_of(&[plain(2048, 1), plain(0, 1), EMPTY, EMPTY]);
    let twice = sector_of(&[extended(1, 8), plain(9, 1), extended(10, 8), EMPTY]);
    let cases = [
        (0, sound, MbrFault::NoSignature),
        (65535, [0; 512], MbrFault::NoSignature),
        (20000, lone, MbrFault::Entry { number: 1 }),
        (65535, past, MbrFault::Entry { number: 1 }),
        (65535, at_zero, MbrFault::Entry { number: 2 }),
        (65535, twice, MbrFault::Entry { number: 3 }),
    ];
    for (sectors, sector, fault) in cases {
        assert_eq!(rt; read_small(rt.alloc(), sectors, sector).err(), Some(fault));
        assert_eq!(rt;
            judge_sector(u64::from(sectors), &sector).err(),
            Some(fault)
        );
    }
    let mut failing = small_of(65535, Vec::new(rt.alloc()));
    failing.failing = 0;
    assert_eq!(rt;
        read_mbr(rt.alloc(), &mut failing).err(),
        Some(MbrFault::Device)
    );
}

#[test]
fn knows_a_protective_table(rt: HostRuntime) {
    let protective = Slot {
        status: 0,
        kind: 0xEE,
        start: 1,
        count: 65534,
    };
    assert!(rt; is_protective(&sector_of(&[protective, EMPTY, EMPTY, EMPTY])));
    assert!(rt; !is_protective(&[0; 512]));
    assert!(rt; protective.is_used() && !protective.is_extended());
    assert_eq!(rt; protective.end(), 65535);
}

#[test]
fn names_each_fault(rt: HostRuntime) -> Result<(), Fail> {
    let cases = [
        (MbrFault::NoSignature, "NoSignature"),
        (MbrFault::Entry { number: 3 }, "Entry number=3"),
        (MbrFault::Chain { at: 2048 }, "Chain at=2048"),
        (MbrFault::TooMany { at: 4096 }, "TooMany at=4096"),
        (MbrFault::Device, "Device"),
        (MbrFault::Memory, "Memory"),
    ];
    for (fault, text) in cases {
        assert_eq!(rt; format!(in rt.alloc(); "{fault}")?.as_str(), text);
    }
    Ok(())
}
