//! A file as a disk that is read.
ghost use Rattle.std.specs.Prelude.{◌≡◌, ◌*◌, ◌-◌, ◌^◌, ◌<◌, ◌≤◌, IfOk};

use disk_base::{Blocks, Failed, SECTOR};
use std::fs::File;
use std::io::{Read, Seek, SeekFrom};
use std::rt::Files;

/// A file or block device that is read as a disk. It tells nothing of what it holds, and counts its faults. Its sectors
/// are its length divided by 512, rounded down.
#[derive(Drop)]
pub struct VolumeFile {
    file: File,
    sectors: u64,
    faults: u64,
    ghost small: { 512 * sectors < 2 ^ 64 },
    ghost counted: { faults ≤ 2 ^ 64 - 1 },
}

// The number of sectors of a file, at the end of which it stands afterwards.
fn sectors_of(file: &mut File) -> Result<u64, Failed>
    ensures { IfOk result (λ n. 512 * n < 2 ^ 64) }
{
    let length = file.seek(SeekFrom::End(0)).map_err(|_| Failed)?;
    Ok(length / SECTOR as u64)
}

fn read_at(file: &mut File, at: u64, out: &mut [u8]) -> Result<(), Failed>
    requires { 512 * at < 2 ^ 64 }
{
    file.seek(SeekFrom::Start(SECTOR as u64 * at))
        .map_err(|_| Failed)?;
    file.read_exact(out).map_err(|_| Failed)
}

impl VolumeFile {
    /// The file of that name.
    pub fn open<R: Files<File = File>>(files: &R, name: &str) -> Result<VolumeFile, Failed> {
        let mut file = File::open(files, name).map_err(|_| Failed)?;
        let sectors = sectors_of(&mut file)?;
        Ok(VolumeFile {
            file,
            sectors,
            faults: 0,
        })
    }
}

impl Blocks for VolumeFile {
    ghost use Rattle.std.specs.Prelude.{false, [], refl};
    ghost use Rattle.std.proofs.Common.{◌∙◌};
    ghost use Rattle.std.proofs.Math.Nat.{le_refl, le_trans};

    ghost tells = { false };

    ghost image = { λ _. [] };

    ghost size = { λ d. d.sectors };

    ghost faults = { λ d. d.faults };

    ghost only_read = { λ a b. (b.sectors ≡ a.sectors) × (a.faults ≤ b.faults) };

    fn sectors(&self) -> u64 {
        self.sectors
    }

    fn read(&mut self, at: u64, out: &mut [u8]) -> Result<(), Failed> {
        let answer = read_at(&mut self.file, at, out);
        if answer.is_err() {
            self.faults = self.faults.saturating_add(1);
        }
        answer
    }

    ghost read_nothing = { λ d. (refl, le_refl d.faults) };

    ghost read_on = { λ a b c r q. (q.0 ∙ r.0, le_trans r.1 q.1) };

    ghost same_size = { λ a b r. r.0 };

    ghost same_image = { λ a b r t. refl };

    ghost whole = { λ d t. Prim.cc };

    ghost no_fewer = { λ a b r. r.1 };

    ghost last_count = { λ d. d.counted };
}
