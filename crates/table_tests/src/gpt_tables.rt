ghost use Rattle.std.specs.Prelude.{◌≡◌, ℕ, ◌-◌, ◌^◌, ◌<◌, ◌≤◌, length, Bool, false, List, [], refl, IfOk};
ghost use Rattle.std.proofs.Common.{◌∙◌};
ghost use Rattle.std.proofs.Math.Nat.{le_refl};
ghost use Rattle.std.proofs.lemmas.Bool.{false≢true};
ghost use Rattle.disk_base.specs.Faults.{HasCause};

use disk_base::{Blocks, Failed, crc32};
use gpt_table::*;
use std::alloc::{AllocError, Global};
use std::test::*;
use uuid::Uuid;

/// A disk of `sectors` sectors that holds `image` and zeros behind it, and fails where it is told to.
#[derive(Drop)]
struct Small {
    sectors: u64,
    image: Vec<u8>,
    fails: bool,
}

impl Blocks for Small {
    ghost tells = { false };

    ghost image = { λ _. [] };

    ghost size = { λ d. d.sectors };

    ghost faults = { λ _. 2 ^ 64 - 1 };

    ghost only_read = { λ a b. b.sectors ≡ a.sectors };

    ghost read_nothing = { λ d. refl };

    ghost read_on = { λ a b c p q. q ∙ p };

    ghost same_size = { λ a b p. p };

    ghost same_image = { λ a b p t. refl };

    ghost whole = { λ d t. absurd (false≢true t) };

    ghost no_fewer = { λ a b p. le_refl _ };

    ghost last_count = { λ d. le_refl _ };

    fn sectors(&self) -> u64 {
        self.sectors
    }

    fn read(&mut self, at: u64, out: &mut [u8]) -> Result<(), Failed> {
        if self.fails {
            return Err(Failed);
        }
        out.fill(0);
        let start = at.saturating_mul(512) as usize;
        for (to, from) in out.iter_mut().zip(self.image.iter().skip(start)) {
            *to = *from;
        }
        Ok(())
    }
}

const SECTORS: u16 = 100;

/// 11223344-5566-7788-99AA-BBCCDDEEFF00.
const DISK: [u8; 16] = [
    0x11, 0x22, 0x33, 0x44, 0x55, 0x66, 0x77, 0x88, 0x99, 0xAA, 0xBB, 0xCC, 0xDD, 0xEE, 0xFF, 0x00,
];

/// 0FC63DAF-8483-4772-8E79-3D69D8477DE4, the kind of a file system of Linux.
const LINUX: [u8; 16] = [
    0x0F, 0xC6, 0x3D, 0xAF, 0x84, 0x83, 0x47, 0x72, 0x8E, 0x79, 0x3D, 0x69, 0xD8, 0x47, 0x7D, 0xE4,
];

fn entry(first: u64, last: u64) -> Entry {
    Entry {
        kind: Uuid::from_bytes(LINUX),
        id: Uuid::from_bytes(DISK),
        first,
        last,
        flags: 4,
        name: [7; 72],
    }
}

/// A table whose third entry is this one.
fn table(alloc: Global, third: Entry) -> Result<Gpt, AllocError> {
    let mut gpt = Gpt::new(alloc, Uuid::from_bytes(DISK))?;
    gpt.set(3, third);
    Ok(gpt)
}

fn place(image: &mut [u8], at: usize, bytes: &[u8]) {
    for (to, from) in image.iter_mut().skip(at).zip(bytes) {
        *to = *from;
    }
}

fn array_of(gpt: &Gpt) -> [u8; 16384] {
    let mut array = [0; 16384];
    gpt_entries(gpt, &mut array);
    array
}

fn header_of(gpt: &Gpt, backup: bool) -> [u8; 512] {
    let mut header = [0; 512];
    gpt_header(
        gpt,
        u64::from(SECTORS),
        backup,
        crc32(&array_of(gpt)),
        &mut header,
    );
    header
}

fn checksum_of(header: &[u8; 512]) -> u32 {
    crc32(&header[..92])
}

/// A header with these bytes at that place, and a right checksum.
fn changed(header: &[u8; 512], at: usize, bytes: &[u8]) -> [u8; 512] {
    let mut new = *header;
    place(&mut new, at, bytes);
    place(&mut new, 16, &[0; 4]);
    let checksum = checksum_of(&new);
    place(&mut new, 16, &checksum.to_le_bytes());
    new
}

/// A disk on which the table stands with these two headers.
fn disk(
    alloc: Global,
    gpt: &Gpt,
    primary: &[u8; 512],
    backup: &[u8; 512],
) -> Result<Small, AllocError>
    ensures { IfOk result (λ disk. disk.sectors ≡ 100) }
{
    let mut image = vec![in alloc; 0; 51200]?;
    let array = array_of(gpt);
    place(&mut image, 512, primary);
    place(&mut image, 1024, &array);
    place(&mut image, 34304, &array);
    place(&mut image, 50688, backup);
    Ok(Small {
        sectors: u64::from(SECTORS),
        image,
        fails: false,
    })
}

#[test]
fn reads_what_was_written(rt: HostRuntime) -> Result<(), Fail> {
    let gpt = table(rt.alloc(), entry(40, 66))?;
    let (primary, backup) = (header_of(&gpt, false), header_of(&gpt, true));
    let mut disk = disk(rt.alloc(), &gpt, &primary, &backup)?;
    let read = read_gpt(rt.alloc(), &mut disk)
        .ok()
        .ok_or("the table is sound")?;
    assert!(rt; read.disk() == Uuid::from_bytes(DISK));
    assert!(rt; read.entry(3) == Some(&entry(40, 66)));
    assert!(rt; read.entry(0).is_none() && read.entry(2).is_none() && read.entry(129).is_none());
    assert!(rt; !read.from_backup());
    one_table();
    disk.fails = true;
    assert_eq!(rt;
        read_gpt(rt.alloc(), &mut disk).err(),
        Some(GptFault::Device)
    );
    Ok(())
}

/// Whether the table is read from the backup, or why it isn't read.
fn found(
    alloc: Global,
    gpt: &Gpt,
    primary: &[u8; 512],
    backup: &[u8; 512],
) -> Result<bool, GptFault> {
    let mut disk = disk(alloc, gpt, primary, backup)?;
    let read = read_gpt(alloc, &mut disk)?;
    Ok(read.from_backup())
}

#[test]
fn uses_the_backup_or_says_why_there_is_no_table(rt: HostRuntime) -> Result<(), Fail> {
    let gpt = table(rt.alloc(), entry(34, 66))?;
    let (primary, backup) = (header_of(&gpt, false), header_of(&gpt, true));
    let (mut wrong, mut wrong_backup) = (primary, backup);
    wrong[16] ^= 1;
    wrong_backup[16] ^= 1;
    let far = [0, 0, 0, 0, 0, 0, 0, 0x80];
    let fewer = changed(&primary, 80, &[127, 0, 0, 0]);
    let hostile = changed(&primary, 80, &[0xFF, 0xFF, 0xFF, 0xFF, 0, 0, 0, 0]);
    let cases = [
        (primary, backup, Ok(false)),
        (primary, wrong_backup, Ok(false)),
        (wrong, backup, Ok(true)),
        (wrong, wrong_backup, Err(GptFault::NoHeader)),
        (
            fewer,
            backup,
            Err(GptFault::Shape {
                count: 127,
                size: 128,
            }),
        ),
        (
            wrong,
            changed(&backup, 84, &[0, 1, 0, 0]),
            Err(GptFault::Shape {
                count: 128,
                size: 256,
            }),
        ),
        (
            hostile,
            backup,
            Err(GptFault::Shape {
                count: u32::MAX,
                size: 0,
            }),
        ),
        (changed(&primary, 72, &far), backup, Ok(true)),
        (
            changed(&primary, 72, &far),
            changed(&backup, 72, &far),
            Err(GptFault::NoHeader),
        ),
        (backup, backup, Ok(true)),
    ];
    for (primary, backup, answer) in cases {
        assert!(rt; found(rt.alloc(), &gpt, &primary, &backup) == answer);
    }
    Ok(())
}

#[test]
fn names_the_first_bad_entry(rt: HostRuntime) -> Result<(), Fail> {
    for (first, last) in [(33, 40), (41, 40), (60, 67), (40, u64::MAX)] {
        let gpt = table(rt.alloc(), entry(first, last))?;
        let (primary, backup) = (header_of(&gpt, false), header_of(&gpt, true));
        assert!(rt;
            found(rt.alloc(), &gpt, &primary, &backup) == Err(GptFault::Entry { number: 3 })
        );
    }
    Ok(())
}

#[test]
fn writes_the_fields_where_they_belong(rt: HostRuntime) -> Result<(), Fail> {
    let gpt = table(rt.alloc(), entry(2048, 22527))?;
    let array = array_of(&gpt);
    assert_eq!(rt;
        &array[256..262],
        [0xAF, 0x3D, 0xC6, 0x0F, 0x83, 0x84].as_slice()
    );
    assert_eq!(rt;
        &array[288..304],
        [0, 8, 0, 0, 0, 0, 0, 0, 0xFF, 0x57, 0, 0, 0, 0, 0, 0].as_slice()
    );
    let mut backup = [0; 512];
    gpt_header(&gpt, 131072, true, 0, &mut backup);
    assert_eq!(rt;
        &backup[24..40],
        [0xFF, 0xFF, 1, 0, 0, 0, 0, 0, 1, 0, 0, 0, 0, 0, 0, 0].as_slice()
    );
    assert_eq!(rt;
        &backup[40..56],
        [34, 0, 0, 0, 0, 0, 0, 0, 0xDE, 0xFF, 1, 0, 0, 0, 0, 0].as_slice()
    );
    assert_eq!(rt; &backup[72..80], [0xDF, 0xFF, 1, 0, 0, 0, 0, 0].as_slice());
    let mut sector = [9; 512];
    protective_sector(&[7; 446], 131072, &mut sector);
    let slot = [
        0, 0, 2, 0, 0xEE, 0xFF, 0xFF, 0xFF, 1, 0, 0, 0, 0xFF, 0xFF, 1, 0,
    ];
    assert_eq!(rt; &sector[446..462], slot.as_slice());
    assert_eq!(rt;
        (sector[445], sector[462], sector[510], sector[511]),
        (7, 0, 0x55, 0xAA)
    );
    Ok(())
}

#[test]
fn names_each_fault(rt: HostRuntime) -> Result<(), Fail> {
    let cases = [
        (GptFault::NoHeader, "NoHeader"),
        (
            GptFault::Shape {
                count: 127,
                size: 128,
            },
            "Shape count=127 size=128",
        ),
        (GptFault::Entry { number: 3 }, "Entry number=3"),
        (GptFault::Device, "Device"),
        (GptFault::Memory, "Memory"),
    ];
    for (fault, text) in cases {
        assert_eq!(rt; format!(in rt.alloc(); "{fault}")?.as_str(), text);
    }
    Ok(())
}
