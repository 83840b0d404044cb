//! Shows what is read of one LVM2 physical volume: a program for tests and for measuring.
//!
//! It reads the bytes of a physical volume from standard input and prints its group, its extents, its logical volumes
//! with their runs, and its free runs, a line each; or one line that says what it isn't, and why, with status 1. A rest
//! that is no whole sector is not seen. It promises nothing upwards.
//!
//! It stands on lvm_label, lvm_text and lvm_group for what is read, and on disk_base for a disk of bytes. Beside it
//! `stdin` is a small physical volume and `stdout` what is shown of it; `tests/interop_lvm` makes both.
#![tactic(auto)]

mod fault;
mod reading;
mod showing;

use fault::Fault;
use reading::{disk_of, group_on};
use showing::text_of;
use std::io::Read;
use std::process::ExitCode;

// All bytes of standard input.
fn input(rt: &(impl Input + AllocGlobal)) -> Result<Vec<u8>, Fault> {
    let mut bytes = Vec::new(rt.alloc());
    match rt.reader().read_to_end(&mut bytes) {
        Ok(_) => Ok(bytes),
        Err(_) => Err(Fault::Input),
    }
}

// What is shown of the physical volume on standard input.
fn shown(rt: &(impl Input + AllocGlobal)) -> Result<String, Fault> {
    let mut disk = disk_of(input(rt)?)?;
    let group = group_on(rt.alloc(), &mut disk)?;
    let text = text_of(rt.alloc(), &group)?;
    Ok(text)
}

fn main(rt: HostRuntime) -> ExitCode {
    let (printed, status) = match shown(&rt) {
        Ok(text) => (rt.print(text.as_str()), ExitCode::SUCCESS),
        Err(fault) => (rt.println(fault), ExitCode::FAILURE),
    };
    if printed.is_ok() {
        status
    } else {
        ExitCode::FAILURE
    }
}
