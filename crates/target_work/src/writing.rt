//! The work that is ready to be carried out.
ghost use Rattle.std.specs.Prelude.{◌≡◌};
ghost use Rattle.target_work.specs.Works.{IsCarriable, work_of};

use crate::sector_write::SectorWrite;
use run_copy::Transfer;
use std::marker::Model;

/// All that is to be written to a target, made before the first write. Contracts see the record `Work`.
#[derive(Debug, Drop)]
pub struct Writing {
    first: [u8; 512],
    transfers: Vec<Transfer>,
    writes: Vec<SectorWrite>,
    source_sectors: u64,
    target_sectors: u64,
}

impl Model for Writing {
    ghost use Rattle.target_work.specs.Works.{IsCarriable, Work, work_of};

    ghost Value = { Work };

    ghost view = { λ w. work_of w.first w.transfers.items w.writes.items w.source_sectors w.target_sectors };

    ghost invariant = { λ w. IsCarriable (work_of w.first w.transfers.items w.writes.items w.source_sectors w.target_sectors) };
}

impl Writing {
    /// The work of copying these transfers, between disks of so many sectors, of making these writes, and then
    /// the new sector 0. The transfers and writes lie behind sector 0 and on the disks, and no sector is written
    /// twice.
    pub fn new(
        first: [u8; 512],
        transfers: Vec<Transfer>,
        writes: Vec<SectorWrite>,
        source_sectors: u64,
        target_sectors: u64,
    ) -> Writing
        requires { IsCarriable (work_of first transfers.items writes.items source_sectors target_sectors) }
        ensures { result ≡ work_of first transfers.items writes.items source_sectors target_sectors }
    {
        Writing {
            first,
            transfers,
            writes,
            source_sectors,
            target_sectors,
        }
    }

    // The new sector 0.
    pub(crate) fn first(&self) -> &[u8; 512]
        ensures first { result.now ≡ self.now.first }
        ensures can { IsCarriable self.now }
    {
        &self.first
    }

    // The contents and the boot area.
    pub(crate) fn transfers(&self) -> &[Transfer]
        ensures transfers { result.now ≡ self.now.transfers }
        ensures can { IsCarriable self.now }
    {
        self.transfers.as_slice()
    }

    // The rest of the table.
    pub(crate) fn writes(&self) -> &[SectorWrite]
        ensures writes { result.now ≡ self.now.writes }
        ensures can { IsCarriable self.now }
    {
        self.writes.as_slice()
    }
}
