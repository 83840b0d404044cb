//! Files and block devices as disks.
ghost use Rattle.std.specs.Prelude.{◌≡◌, ℕ, ◌+◌, ◌-◌, ◌*◌, ◌%◌, ◌^◌, ◌<◌, ◌≤◌, true, false, [], length, None, OnOk, OnErr, IfOk};
ghost use Rattle.disk_base.specs.Faults.{Rose};
ghost use Rattle.disk_base.specs.Log.{HasSectors};

use disk_base::{Blocks, Disk, Failed, Mode, SECTOR};
use std::fs::{self, File, OpenFile, OpenOptions};
use std::io::{Read, Seek, SeekFrom, Write};
use std::os::unix::fs::FileTypeExt;
use std::rt::Files;

/// The sectors that a discard looks at and clears at once.
const PIECE: u64 = 8;

/// A file or block device by its path, as a disk that tells nothing of what it holds and counts its faults.
/// Anything else of that name is answered `Failed`.
///
/// Its sectors are the length divided by 512, rounded down. An attach takes the file's lock, shared to read
/// and exclusive to change, and never waits for it: while another disk holds the file, also under another
/// name, it answers `Failed` and the file is unchanged.
#[derive(Drop)]
pub struct FileDisk<'a, R: Files<File = File>> {
    files: &'a R,
    file: Option<File>,
    attached: Option<Mode>,
    sectors: u64,
    faults: u64,
    ghost idle: { attached ≡ None → sectors ≡ 0 },
    ghost small: { 512 * sectors < 2 ^ 64 },
    ghost counted: { faults ≤ 2 ^ 64 - 1 },
}

impl<'a, R: Files<File = File>> FileDisk<'a, R> {
    /// A disk that isn't attached, without a fault so far.
    pub fn new(files: &'a R) -> FileDisk<'a, R>
        ensures attached { result.attached ≡ None }
        ensures faults { result.faults ≡ 0 }
    {
        FileDisk {
            files,
            file: None,
            attached: None,
            sectors: 0,
            faults: 0,
        }
    }
}

// Takes the file's lock without waiting: shared to read, exclusive to change.
fn lock(file: &File, mode: Mode) -> Result<(), Failed> {
    let locked = match mode {
        Mode::Read => file.try_lock_shared(),
        Mode::Change | Mode::Create(_) => file.try_lock(),
    };
    locked.map_err(|_| Failed)
}

// The number of sectors of a file, at the end of which it stands afterwards: so of block devices too.
fn sectors_of(file: &mut File) -> Result<u64, Failed>
    ensures { IfOk result (λ n. 512 * n < 2 ^ 64) }
{
    let length = file.seek(SeekFrom::End(0)).map_err(|_| Failed)?;
    Ok(length / SECTOR as u64)
}

// Cuts the file to nothing and makes it `n` sectors of zeros.
fn make_blank(file: &mut File, n: u64) -> Result<(), Failed>
    ensures { OnOk result (512 * n < 2 ^ 64) }
{
    let length = n.checked_mul(SECTOR as u64).ok_or(Failed)?;
    file.set_len(0).map_err(|_| Failed)?;
    file.set_len(length).map_err(|_| Failed)?;
    Ok(())
}

// Whether a name may be a disk's: a file's, a block device's, or nobody's yet. The length of a folder means
// nothing, and a pipe would be waited for.
fn may_be_disk<R: Files<File = File>>(files: &R, name: &str) -> bool {
    match fs::metadata(files, name) {
        Ok(found) => found.is_file() || found.file_type().is_block_device(),
        Err(_) => true,
    }
}

// Opens the file of that name, and changes nothing of it. Its descriptor lies above those of the standard
// streams, also where one of these is closed: no line may come to stand in a disk.
fn open_file<R: Files<File = File>>(files: &R, name: &[u8], mode: Mode) -> Result<File, Failed> {
    let name = str::from_utf8(name).map_err(|_| Failed)?;
    if !may_be_disk(files, name) {
        return Err(Failed);
    }
    let mut options = OpenOptions::new();
    options.read(true);
    options.write(mode != Mode::Read);
    options.create(matches!(mode, Mode::Create(_)));
    let opened = options.open(files, name).map_err(|_| Failed)?;
    opened.try_clone().map_err(|_| Failed)
}

// Opens the file of that name, with its number of sectors. Nothing of it is changed before its lock is held.
fn open<R: Files<File = File>>(files: &R, name: &[u8], mode: Mode) -> Result<(File, u64), Failed>
    ensures created { IfOk result (λ opened. HasSectors mode opened.1) }
    ensures small { IfOk result (λ opened. 512 * opened.1 < 2 ^ 64) }
{
    let mut file = open_file(files, name, mode)?;
    lock(&file, mode)?;
    if let Mode::Create(n) = mode {
        make_blank(&mut file, n)?;
        let sectors = sectors_of(&mut file)?;
        return if sectors == n {
            Ok((file, sectors))
        } else {
            Err(Failed)
        };
    }
    let sectors = sectors_of(&mut file)?;
    Ok((file, sectors))
}

fn read_at(file: &mut File, at: u64, out: &mut [u8]) -> Result<(), Failed>
    requires { 512 * at < 2 ^ 64 }
{
    file.seek(SeekFrom::Start(SECTOR as u64 * at))
        .map_err(|_| Failed)?;
    file.read_exact(out).map_err(|_| Failed)
}

fn write_at(file: &mut File, at: u64, bytes: &[u8]) -> Result<(), Failed>
    requires { 512 * at < 2 ^ 64 }
{
    file.seek(SeekFrom::Start(SECTOR as u64 * at))
        .map_err(|_| Failed)?;
    file.write_all(bytes).map_err(|_| Failed)
}

// Writes zeros over the piece of sectors that begins at `at` and ends at `end` or before, where it isn't
// zero already: a hole stays a hole.
fn clear_piece(file: &mut File, at: u64, end: u64) -> Result<(), Failed>
    requires before { at < end }
    requires small { 512 * end < 2 ^ 64 }
{
    let mut bytes = [0; 4096];
    let count = (end - at).min(PIECE) as usize;
    let piece = &mut bytes[..SECTOR * count];
    read_at(file, at, piece)?;
    if piece.iter().all(|byte| *byte == 0) {
        return Ok(());
    }
    piece.fill(0);
    write_at(file, at, piece)
}

fn clear(file: &mut File, from: u64, end: u64) -> Result<(), Failed>
    requires order { from ≤ end }
    requires small { 512 * end < 2 ^ 64 }
{
    let pieces = (end - from).div_ceil(PIECE);
    for piece in 0..pieces {
        clear_piece(file, from + PIECE * piece, end)?;
    }
    Ok(())
}

impl<'a, R: Files<File = File>> FileDisk<'a, R> {
    // Counts a fault where there is one.
    fn count(&mut self, answer: Result<(), Failed>) -> Result<(), Failed>
        ensures answer { result ≡ answer }
        ensures later { self.old.faults ≤ self.new.faults }
        ensures failed { OnErr result (Rose self.old.faults self.new.faults) }
        ensures same { (self.new.sectors ≡ self.old.sectors) × (self.new.attached ≡ self.old.attached) }
    {
        if answer.is_err() {
            self.faults = self.faults.saturating_add(1);
        }
        answer
    }
}

impl<'a, R: Files<File = File>> Blocks for FileDisk<'a, R> {
    ghost use Rattle.virt_top.specs.FileDisk.{FileOnlyRead};

    ghost tells = { false };

    ghost image = { λ _. [] };

    ghost size = { λ d. d.sectors };

    ghost faults = { λ d. d.faults };

    ghost only_read = { λ a b. FileOnlyRead a.sectors a.attached a.faults b.sectors b.attached b.faults };

    fn sectors(&self) -> u64 {
        self.sectors
    }

    fn read(&mut self, at: u64, out: &mut [u8]) -> Result<(), Failed> {
        let answer = match &mut self.file {
            Some(file) => read_at(file, at, out),
            None => Err(Failed),
        };
        self.count(answer)
    }

    ghost use Rattle.std.specs.Prelude.{refl};
    ghost use Rattle.virt_top.specs.FileDisk.{read_nothing, read_on};

    ghost read_nothing = { λ d. read_nothing d.sectors d.attached d.faults };

    ghost read_on = { λ a b c. read_on a.sectors a.attached a.faults b.sectors b.attached b.faults c.sectors c.attached c.faults };

    ghost same_size = { λ a b r. r.sectors };

    ghost same_image = { λ a b r t. refl };

    ghost whole = { λ d t. Prim.cc };

    ghost no_fewer = { λ a b r. r.faults };

    ghost last_count = { λ d. d.counted };
}

impl<'a, R: Files<File = File>> Disk for FileDisk<'a, R> {
    ghost use Rattle.disk_base.specs.Log.{fresh};
    ghost use Rattle.disk_base.specs.Stops.{untold, waits_refl};
    ghost use Rattle.std.proofs.lemmas.Bool.{false≢true};
    ghost use Rattle.std.specs.Prelude.{refl};

    ghost tells_stops = { false };

    ghost stops = { λ _. untold };

    ghost log = { λ _. fresh [] };

    ghost attached = { λ d. d.attached };

    ghost discards = { λ _. true };

    fn attach(&mut self, name: &[u8], mode: Mode) -> Result<(), Failed> {
        self.file = None;
        self.sectors = 0;
        self.attached = None;
        match open(self.files, name, mode) {
            Ok((file, sectors)) => {
                self.file = Some(file);
                self.attached = Some(mode);
                self.sectors = sectors;
                Ok(())
            }
            Err(failed) => self.count(Err(failed)),
        }
    }

    fn write(&mut self, at: u64, bytes: &[u8]) -> Result<(), Failed> {
        let answer = match &mut self.file {
            Some(file) => write_at(file, at, bytes),
            None => Err(Failed),
        };
        self.count(answer)
    }

    fn discard(&mut self, at: u64, n: u64) -> Result<(), Failed> {
        let answer = match &mut self.file {
            Some(file) => clear(file, at, at + n),
            None => Err(Failed),
        };
        self.count(answer)
    }

    fn flush(&mut self) -> Result<(), Failed> {
        let answer = match &self.file {
            Some(file) => file.sync_all().map_err(|_| Failed),
            None => Err(Failed),
        };
        self.count(answer)
    }

    fn can_discard(&self) -> bool {
        true
    }

    ghost same_log = { λ a b r t. refl };

    ghost same_mode = { λ a b r. r.attached };

    ghost same_discards = { λ a b r. refl };

    ghost read_stops = { λ a b r t. waits_refl untold };

    ghost stops_are = { λ d t. absurd (false≢true t) };

    ghost stops_told = { λ t. t };

    ghost empty = { λ d t. d.idle };
}
