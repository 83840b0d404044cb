//! Volumes as text.
use std::alloc::{AllocError, Global};
use std::fmt::Write;
use xfs_check::Volume;

// How many blocks the runs have.
fn count_blocks(runs: &[(u32, u32)]) -> u64 {
    let mut total: u64 = 0;
    for (_, count) in runs {
        total = total.saturating_add(u64::from(*count));
    }
    total
}

// How many free blocks the groups have.
fn free_blocks(volume: &Volume) -> u64 {
    let mut total: u64 = 0;
    for group in 0..volume.geo().agcount {
        total = total.saturating_add(count_blocks(volume.free(group).runs()));
    }
    total
}

// Adds a line for each run of a group.
fn add_runs(out: &mut String, group: u32, runs: &[(u32, u32)]) -> Result<(), AllocError> {
    for (start, count) in runs {
        writeln!(out, "{group} {start} {count}")?;
    }
    Ok(())
}

// Adds a line for each run of free blocks.
fn add_free(out: &mut String, volume: &Volume) -> Result<(), AllocError> {
    for group in 0..volume.geo().agcount {
        add_runs(out, group, volume.free(group).runs())?;
    }
    Ok(())
}

/// The volume, its blocks, its groups and its free blocks, a line each; and its free runs, where they are wanted.
pub fn text_of(alloc: Global, volume: &Volume, runs: bool) -> Result<String, AllocError> {
    let mut out = String::new(alloc);
    writeln!(out, "valid")?;
    writeln!(out, "blocks {}", volume.geo().dblocks)?;
    writeln!(out, "groups {}", volume.geo().agcount)?;
    writeln!(out, "free {}", free_blocks(volume))?;
    if runs {
        add_free(&mut out, volume)?;
    }
    Ok(out)
}
