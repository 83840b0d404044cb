//! virt-resize and virt-sparsify: the program.
//!
//! It makes the devices, a disk over each of two files and a sink over each of two streams, and calls
//! [`virt_run::run`], whose contract says what the program does. `specs/Ran.antt` of that crate says it in words of
//! disks and text. The files and streams themselves are trusted.
#![tactic(auto)]

#[cfg(test)]
mod file_tests;
mod files;
mod streams;

use disk_base::Sink;
use files::FileDisk;
use std::alloc::{AllocError, Global};
use std::process::ExitCode;
use std::{env, io};
use streams::StdSink;
use virt_run::run;

// The words of the command line after the program's own name.
fn words_of(rt: &HostRuntime, alloc: Global) -> Result<Vec<String>, Failure> {
    let mut words = Vec::new(alloc);
    let args = env::args(rt).map_err(failure_of)?;
    for word in args.skip(1) {
        words.push(word).map_err(|_| Failure::Memory)?;
    }
    Ok(words)
}

// Why there are no words to run.
#[derive(Clone, Copy, Debug, PartialEq, Eq)]
enum Failure {
    Words,
    Memory,
}

// Words that can't be read took more memory than there was, or aren't text.
fn failure_of(error: io::Error) -> Failure {
    match error.kind() {
        io::ErrorKind::OutOfMemory => Failure::Memory,
        _ => Failure::Words,
    }
}

fn main(rt: HostRuntime) -> ExitCode {
    let alloc = rt.alloc();
    let mut out = StdSink::new(rt.stdout());
    let mut err = StdSink::new(rt.stderr());
    let words = match words_of(&rt, alloc) {
        Ok(words) => words,
        Err(Failure::Words) => {
            let _ = err.write(b"virt: usage: Tool\n");
            return ExitCode::from(1);
        }
        Err(Failure::Memory) => {
            let _ = err.write(b"virt: memory\n");
            return ExitCode::from(7);
        }
    };
    let mut source = FileDisk::new(&rt);
    let mut target = FileDisk::new(&rt);
    let status = run(
        alloc,
        words.as_slice(),
        &mut source,
        &mut target,
        &mut out,
        &mut err,
    );
    ExitCode::from(status)
}
