//! A table in memory.
ghost use Rattle.std.specs.Prelude.{◌≡◌, ◌-◌, ◌≤◌, length, slice_set, replicate, Option, Some, None, false, IfOk, MatchOption};
ghost use Rattle.gpt_table.specs.Gpt.{entry_at};

use crate::entry::Entry;
use std::alloc::{AllocError, Global};
use std::marker::Model;
use uuid::Uuid;

/// A table: the disk's identifier, and 128 entries, of which some are used.
#[derive(Debug, Drop)]
pub struct Gpt {
    disk: Uuid,
    entries: Vec<Option<Entry>>,
    from_backup: bool,
}

impl Model for Gpt {
    ghost use Rattle.std.specs.Prelude.{◌≡◌, length};
    ghost use Rattle.gpt_table.specs.Gpt.{EntryTable};

    ghost Value = { EntryTable };

    ghost view = { λ g. record { disk = g.disk; entries = g.entries.items; from_backup = g.from_backup } };

    ghost invariant = { λ g. length g.entries.items ≡ 128 };
}

impl Gpt {
    /// The table of that disk with no entry used.
    pub fn new(alloc: Global, disk: Uuid) -> Result<Gpt, AllocError>
        ensures { IfOk result (λ gpt. gpt ≡ record { disk = disk; entries = replicate 128 None; from_backup = false }) }
    {
        let mut entries = Vec::new(alloc);
        entries.resize(128, None)?;
        Ok(Gpt {
            disk,
            entries,
            from_backup: false,
        })
    }

    /// A table of entries that were read.
    pub(crate) fn of(disk: Uuid, entries: Vec<Option<Entry>>, from_backup: bool) -> Gpt
        requires { length entries.items ≡ 128 }
        ensures { result ≡ record { disk = disk; entries = entries.items; from_backup = from_backup } }
    {
        Gpt {
            disk,
            entries,
            from_backup,
        }
    }

    /// Sets the entry of that number, counted from 1.
    pub fn set(&mut self, number: u32, entry: Entry)
        requires some { 1 ≤ number }
        requires counted { number ≤ 128 }
        ensures { self.new ≡ record self.old { entries = slice_set self.old.entries (number - 1) (Some entry) } }
    {
        self.entries[number as usize - 1] = Some(entry);
    }

    /// The disk's own identifier.
    pub fn disk(&self) -> Uuid
        ensures { result ≡ self.now.disk }
    {
        self.disk
    }

    /// The entry of that number, counted from 1, if it is used.
    pub fn entry(&self, number: u32) -> Option<&Entry>
        ensures { MatchOption result (entry_at self.now number ≡ None) (λ entry. entry_at self.now number ≡ Some entry.now) }
    {
        if number == 0 {
            return None;
        }
        match self.entries.get(number as usize - 1) {
            Some(Some(entry)) => Some(entry),
            _ => None,
        }
    }

    /// Whether it was read by the backup header.
    pub fn from_backup(&self) -> bool
        ensures { result ≡ self.now.from_backup }
    {
        self.from_backup
    }

    /// The 128 entries.
    pub(crate) fn slots(&self) -> &[Option<Entry>]
        ensures slots { result.now ≡ self.now.entries }
        ensures count { length result.now ≡ 128 }
    {
        self.entries.as_slice()
    }
}
