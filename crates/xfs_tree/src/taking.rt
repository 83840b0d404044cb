//! A node's children and a leaf's records, put behind those of the blocks before it.
ghost use Rattle.std.specs.Prelude.{◌≡◌, ℕ, ◌<◌, ◌≤◌, ◌++◌, false, IsTrue, IfErr, IsErrOf, OnOk};
ghost use Rattle.std.specs.List.{All};
ghost use Rattle.xfs_super.specs.Super.{geometry_of};
ghost use Rattle.xfs_tree.specs.Block.{count_in, node_capacity, records_spelt, LieInside};
ghost use Rattle.xfs_tree.specs.Marks.{AdmitsVolume};
ghost use Rattle.xfs_tree.specs.Tree.{AreInOrder};
ghost use Rattle.xfs_tree.specs.inside.Reading.{IsNodeFault};
ghost use Rattle.xfs_tree.specs.inside.Rows.{setting_of_row, held_in, JudgedIn, PointersInside, PointersTaken, StayInVolume, IsAfterLast, IsNotAfterLast, NodeTaken, NodeRefused, LeafTaken, LeafRefused, LieIn};

use crate::block::{BLOCK, have_rising_keys, judge, pointer_in, record_in};
use crate::claiming::{claim_all, follow};
use crate::fault::TreeFault;
use crate::mark::Mark;
use crate::record::Record;
use crate::row::{Row, place_of};
use disk_base::List;

/// Puts the blocks that a node points to behind those of the nodes before it.
fn push_children<R: Record>(
    row: &Row,
    at: u64,
    bytes: &[u8; BLOCK],
    count: usize,
    below: &mut Vec<u64>,
) -> Result<(), TreeFault>
    requires at { at < row.now.geo.dblocks }
    requires node { 0 < row.now.height }
    requires count { count ≡ count_in bytes.now }
    requires room { count ≤ node_capacity R.form }
    ensures children { OnOk result (PointersTaken R.form row.now bytes.now below.old.items below.new.items) }
    ensures inside { OnOk result (PointersInside R.form row.now bytes.now) }
    ensures no_device { IsErrOf result TreeFault.Device → ⊥ }
    ensures fault { IfErr result (λ fault. (claimed : ℕ → ℕ)
        → IsNodeFault (setting_of_row R.form row.now) (geometry_of row.now.geo) (held_in row.now at bytes.now) claimed fault) }
{
    for i in 0..count {
        match follow::<R>(row, pointer_in::<R>(bytes, i)) {
            Some(child) => below.push(child)?,
            None => {
                let place = place_of(&row.geo, at);
                return Err(TreeFault::Range {
                    group: place.group,
                    block: place.block,
                });
            }
        }
    }
    Ok(())
}

/// Whether a record follows those before it.
fn follows<R: Record>(records: &[R], next: &R) -> bool
    ensures yes { IsTrue result → IsAfterLast R.form records.now next.now }
    ensures no { result ≡ false → IsNotAfterLast R.form records.now next.now }
{
    match records.last() {
        Some(last) => last.before(next),
        None => true,
    }
}

/// Puts the records of a leaf behind those of the leaves before it.
fn take_records<R: Record>(
    row: &Row,
    at: u64,
    bytes: &[u8; BLOCK],
    count: usize,
    records: &mut List<R>,
) -> Result<(), TreeFault>
    requires at { at < row.now.geo.dblocks }
    requires leaf { row.now.height ≡ 0 }
    requires judged { JudgedIn R.form row.now at bytes.now count }
    requires order { AreInOrder R.form records.old }
    requires fits { All (λ r. IsTrue (R.form.fits r)) records.old }
    requires lie { LieIn R.form row.now records.old }
    ensures records { OnOk result (records.new ≡ records.old ++ records_spelt R.form bytes.now) }
    ensures inside { OnOk result (LieInside (setting_of_row R.form row.now) (geometry_of row.now.geo) 0 bytes.now) }
    ensures order { OnOk result (AreInOrder R.form records.new) }
    ensures fits { OnOk result (All (λ r. IsTrue (R.form.fits r)) records.new) }
    ensures lie { OnOk result (LieIn R.form row.now records.new) }
    ensures no_device { IsErrOf result TreeFault.Device → ⊥ }
    ensures fault { IfErr result (LeafRefused R.form row.now (held_in row.now at bytes.now) records.old) }
{
    let place = place_of(&row.geo, at);
    for i in 0..count {
        let record = record_in::<R>(bytes, i);
        if !record.inside(&row.geo, row.group) {
            return Err(TreeFault::Range {
                group: place.group,
                block: place.block,
            });
        }
        if !follows(records.items(), &record) {
            return Err(TreeFault::Order {
                group: place.group,
                block: place.block,
            });
        }
        records.push(record)?;
    }
    Ok(())
}

/// Puts the children of a node behind those of the nodes before it, where it is sound, and claims them.
pub(crate) fn take_node<R: Record, M: Mark>(
    row: &Row,
    at: u64,
    bytes: &[u8; BLOCK],
    marks: &mut M,
    below: &mut Vec<u64>,
) -> Result<(), TreeFault>
    requires at { at < row.now.geo.dblocks }
    requires node { 0 < row.now.height }
    requires admits { AdmitsVolume row.now.geo (M.admits marks.old) }
    ensures node { OnOk result (NodeTaken R.form row.now (held_in row.now at bytes.now)
        (M.claimed marks.old) (M.claimed marks.new) below.old.items below.new.items) }
    ensures fault { IfErr result (NodeRefused R.form row.now (held_in row.now at bytes.now) (M.claimed marks.old)) }
    ensures no_device { IsErrOf result TreeFault.Device → ⊥ }
    ensures inside { OnOk result (StayInVolume row.now below.old.items below.new.items) }
    ensures admits { (g b : ℕ) → M.admits marks.new g b ≡ M.admits marks.old g b }
{
    let count = judge::<R>(row, at, bytes)?;
    if !have_rising_keys::<R>(bytes, count) {
        let place = place_of(&row.geo, at);
        return Err(TreeFault::Order {
            group: place.group,
            block: place.block,
        });
    }
    let start = below.as_slice().len();
    push_children::<R>(row, at, bytes, count, below)?;
    claim_all::<M>(&row.geo, &below[start..], marks)?;
    Ok(())
}

/// Puts the records of a leaf behind those of the leaves before it, where it is sound.
pub(crate) fn take_leaf<R: Record>(
    row: &Row,
    at: u64,
    bytes: &[u8; BLOCK],
    records: &mut List<R>,
) -> Result<(), TreeFault>
    requires at { at < row.now.geo.dblocks }
    requires leaf { row.now.height ≡ 0 }
    requires order { AreInOrder R.form records.old }
    requires fits { All (λ r. IsTrue (R.form.fits r)) records.old }
    requires lie { LieIn R.form row.now records.old }
    ensures leaf { OnOk result (LeafTaken R.form row.now (held_in row.now at bytes.now) records.old records.new) }
    ensures order { OnOk result (AreInOrder R.form records.new) }
    ensures fits { OnOk result (All (λ r. IsTrue (R.form.fits r)) records.new) }
    ensures lie { OnOk result (LieIn R.form row.now records.new) }
    ensures fault { IfErr result (LeafRefused R.form row.now (held_in row.now at bytes.now) records.old) }
    ensures no_device { IsErrOf result TreeFault.Device → ⊥ }
{
    let count = judge::<R>(row, at, bytes)?;
    take_records::<R>(row, at, bytes, count, records)?;
    Ok(())
}
