//! A guest.
ghost use Rattle.std.specs.Prelude.{◌≡◌, ◌^◌, ◌<◌, ◌≤◌, All, IfOk, map};
ghost use Rattle.layout_plan.specs.Source.{IsSource};
ghost use Rattle.guest_view.specs.Contents.{PartFits, needed_sectors, partition_of, planned_part};
ghost use Rattle.guest_view.specs.Guests.{EndOnDisk, IsSoundTable, kind_of};
ghost use Rattle.guest_view.specs.Partitions.{HasNoClash, partitions_of};

use crate::content::Content;
use crate::table::Table;
use layout_plan::{Part, Role};
use std::alloc::{AllocError, Global};
use std::marker::Model;

/// A partition of a guest, in sectors of 512 bytes, and what it holds; `ebr` is the sector of its extended boot record,
/// or 0 where it has none.
#[derive(Drop)]
pub struct GuestPart {
    pub number: u32,
    pub role: Role,
    pub start: u64,
    pub count: u64,
    pub ebr: u64,
    pub content: Content,
}

impl GuestPart {
    /// How many of its sectors its content needs.
    pub fn needed(&self) -> u64
        requires { PartFits self.now }
        ensures { result ≡ needed_sectors self.now.content self.now.count }
    {
        self.content.needed(self.count)
    }

    // The partition as a plan takes it.
    fn part(&self) -> Part
        requires { PartFits self.now }
        ensures { result ≡ planned_part self.now }
    {
        Part {
            number: self.number,
            role: self.role,
            start: self.start,
            count: self.count,
            content: self.needed(),
        }
    }
}

/// What a disk is: its table, and its partitions by number. The partitions are those of a valid table, lie
/// on the disk, and don't overlap.
#[derive(Drop)]
pub struct Guest {
    pub(crate) sectors: u64,
    pub(crate) table: Table,
    pub(crate) parts: Vec<GuestPart>,
}

impl Model for Guest {
    ghost use Rattle.guest_view.specs.Guests.{GuestView};
    ghost use Rattle.guest_view.specs.inside.Sound.{IsWhole};
    ghost use Rattle.lvm_text.specs.contracts.tree.Item as item;
    ghost use Rattle.std.specs.Coded.{codes};

    ghost Value = { GuestView };

    ghost coded = { Prim.hlevel (codes, item.the_row.coded) };

    ghost view = { λ g. record { sectors = g.sectors; table = g.table; parts = g.parts.items } };

    ghost invariant = { λ g. IsWhole g.sectors g.table g.parts.items };
}

impl Guest {
    /// The sectors of its disk.
    pub fn sectors(&self) -> u64
        ensures sectors { result ≡ self.now.sectors }
        ensures some { 0 < result }
        ensures few { result ≤ 2 ^ 31 }
    {
        self.sectors
    }

    /// Its table.
    pub fn table(&self) -> &Table
        ensures table { result.now ≡ self.now.table }
        ensures sound { IsSoundTable self.now.sectors self.now.table }
    {
        &self.table
    }

    /// Its partitions, by number.
    pub fn parts(&self) -> &[GuestPart]
        ensures parts { result.now ≡ self.now.parts }
        ensures named { map partition_of self.now.parts ≡ partitions_of self.now.table }
        ensures fits { All PartFits self.now.parts }
        ensures apart { HasNoClash (partitions_of self.now.table) }
        ensures source { IsSource (kind_of self.now.table) (map planned_part self.now.parts) }
        ensures inside { EndOnDisk self.now.sectors self.now.parts }
    {
        self.parts.as_slice()
    }

    /// Its partitions as a plan takes them, by number, with the sectors that their contents need.
    pub fn parts_to_plan(&self, alloc: Global) -> Result<Vec<Part>, AllocError>
        ensures parts { IfOk result (λ parts. parts.items ≡ map planned_part self.now.parts) }
        ensures source { IfOk result (λ parts. IsSource (kind_of self.now.table) parts.items) }
    {
        let mut parts = Vec::new(alloc);
        for part in &self.parts {
            parts.push(part.part())?;
        }
        Ok(parts)
    }
}
