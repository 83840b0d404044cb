//! Shows whether a file is a valid XFS volume: a program for tests and for measuring.
//!
//! `xfs_show FILE` prints `valid` and how many blocks, groups and free blocks the volume has, a line each; `xfs_show FILE
//! runs` also prints each run of free blocks, as its group, its start in the group and its count. Of another file it
//! prints one line: the reason why that is no valid volume, with status 2, `Device` with status 5, or `Memory` with
//! status 7. Other words are answered with status 1. A rest of the file that is no whole sector is not seen. It promises
//! nothing upwards.
//!
//! It stands on xfs_check for the check, on xfs_alloc and xfs_super for what is in its answer, and on disk_base for
//! what a disk is. Beside it `data` has a file that is no volume; `tests/interop_xfs` looks at volumes.
#![tactic(auto)]

mod file;
mod showing;

ghost use Rattle.std.specs.Prelude.{◌≡◌};
ghost use Rattle.xfs_super.specs.declared.reason.Reason.{Reason};

use disk_base::Failed;
use file::VolumeFile;
use showing::text_of;
use std::env;
use std::process::ExitCode;
use xfs_check::check;
use xfs_super::CheckFault;

// What is asked for by the words of the command line.
#[derive(Drop)]
struct Wish {
    name: String,
    runs: bool,
}

// The wish of the words behind the program's own name, if they are one.
fn wish_of(rt: &HostRuntime) -> Result<Option<Wish>, Failed> {
    let mut words = env::args(rt).map_err(|_| Failed)?.skip(1);
    let Some(name) = words.next() else {
        return Ok(None);
    };
    let runs = match words.next() {
        None => false,
        Some(word) if word.as_str() == "runs" => true,
        Some(_) => return Ok(None),
    };
    if words.next().is_some() {
        return Ok(None);
    }
    Ok(Some(Wish { name, runs }))
}

// What is shown of the volume in a file.
fn shown(rt: &HostRuntime, wish: &Wish) -> Result<String, CheckFault> {
    let mut disk = VolumeFile::open(rt, wish.name.as_str())?;
    let volume = check(rt.alloc(), &mut disk)?;
    let text = text_of(rt.alloc(), &volume, wish.runs)?;
    Ok(text)
}

// The status that tells why there is no valid volume.
fn status_of(fault: &CheckFault) -> u8
    ensures bad { (reason : Reason) → fault.now ≡ CheckFault.Bad reason → result ≡ 2 }
    ensures device { fault.now ≡ CheckFault.Device → result ≡ 5 }
    ensures memory { fault.now ≡ CheckFault.Memory → result ≡ 7 }
{
    match fault {
        CheckFault::Bad(_) => 2,
        CheckFault::Device => 5,
        CheckFault::Memory => 7,
    }
}

fn main(rt: HostRuntime) -> ExitCode {
    let Ok(Some(wish)) = wish_of(&rt) else {
        let _ = rt.println("usage: xfs_show FILE [runs]");
        return ExitCode::from(1);
    };
    let (printed, status) = match shown(&rt, &wish) {
        Ok(text) => (rt.print(text.as_str()), 0),
        Err(fault) => (rt.println(fault), status_of(&fault)),
    };
    if printed.is_ok() {
        ExitCode::from(status)
    } else {
        ExitCode::FAILURE
    }
}
