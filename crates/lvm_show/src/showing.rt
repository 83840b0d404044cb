//! Groups as text.
use lvm_group::Group;
use std::alloc::{AllocError, Global};
use std::fmt::Write;

// A name as text.
fn text(name: &[u8]) -> &str {
    std::str::from_utf8(name).unwrap_or("?")
}

// Adds a line for each run.
fn add_runs(out: &mut String, name: &str, runs: &[(u32, u64, u64)]) -> Result<(), AllocError> {
    for (member, first, count) in runs {
        writeln!(out, "{name} {member} {first} {count}")?;
    }
    Ok(())
}

/// The group, its physical volumes, its logical volumes with their runs, and its free runs: a line each.
pub fn text_of(alloc: Global, group: &Group) -> Result<String, AllocError> {
    let mut out = String::new(alloc);
    writeln!(out, "group {}", text(group.name()))?;
    for m in 0..group.member_count() {
        writeln!(out, "extents {}", group.extents(m))?;
    }
    for lv in 0..group.count() {
        let name = text(group.lv_name(lv));
        let extents = group.lv_extents(lv);
        writeln!(out, "{name} extents {extents}")?;
        add_runs(&mut out, name, group.runs_of(lv))?;
    }
    add_runs(&mut out, "free", group.free_extents())?;
    Ok(out)
}
