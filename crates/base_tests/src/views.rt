ghost use Rattle.std.specs.Prelude.{◌≡◌, ℕ, ◌≤◌, length, All, AllPairs, IsTrue, IfOk, OnOk};
ghost use Rattle.disk_base.specs.Faults.{HasCause};
ghost use Rattle.disk_base.specs.Image.{sector};
ghost use Rattle.disk_base.specs.Run.{IsWithin, AreApart};
ghost use Rattle.disk_view.specs.Join.{joined_runs, total};

use disk_base::{Blocks, ByteDisk, Failed, Run, SECTOR};
use disk_view::*;
use std::alloc::{AllocError, Global};
use std::test::Fail;

// A reader of any disk, and callers that read volumes with it: they are proved to know of the disk below what a reader
// of the whole disk would.
fn first_sector<B: Blocks>(disk: &mut B, out: &mut [u8; SECTOR]) -> Result<(), Failed>
    requires some { 1 ≤ B.size disk.old }
    ensures bytes { IsTrue B.tells → OnOk result (out.new ≡ sector (B.image disk.old) 0) }
    ensures read { B.only_read disk.old disk.new }
    ensures cause { HasCause (B.faults disk.old) (B.faults disk.new) result }
{
    disk.read(0, out)?;
    Ok(())
}

fn first_of<B: Blocks>(disk: &mut B, runs: &[Run], out: &mut [u8; SECTOR]) -> Result<(), Failed>
    requires inside { All (IsWithin (B.size disk.old)) runs.now }
    requires apart { AllPairs AreApart runs.now }
    requires some { 1 ≤ total runs.now }
    ensures bytes { IsTrue B.tells → OnOk result (out.new ≡ sector (joined_runs (B.image disk.old) runs.now) 0) }
    ensures read { B.only_read disk.old disk.new }
    ensures cause { HasCause (B.faults disk.old) (B.faults disk.new) result }
{
    let mut view = View::new(disk, runs);
    first_sector(&mut view, out)?;
    Ok(())
}

fn first_of_two<B: Blocks>(
    disk: &mut B,
    one: &[Run],
    other: &[Run],
    out: &mut [[u8; SECTOR]; 2],
) -> Result<(), Failed>
    requires inside { All (IsWithin (B.size disk.old)) one.now × All (IsWithin (B.size disk.old)) other.now }
    requires apart { AllPairs AreApart one.now × AllPairs AreApart other.now }
    requires some { (1 ≤ total one.now) × (1 ≤ total other.now) }
    ensures read { B.only_read disk.old disk.new }
    ensures cause { HasCause (B.faults disk.old) (B.faults disk.new) result }
{
    first_of(disk, one, &mut out[0])?;
    first_of(disk, other, &mut out[1])?;
    Ok(())
}

fn zeros(alloc: Global, n: usize) -> Result<Vec<u8>, AllocError>
    ensures { IfOk result (λ v. length v.items ≡ n) }
{
    let mut bytes = Vec::new(alloc);
    bytes.resize(n, 0)?;
    Ok(bytes)
}

// Six sectors, of which each begins with its number and ends with it.
fn numbered(alloc: Global) -> Result<Vec<u8>, AllocError>
    ensures { IfOk result (λ v. length v.items ≡ 3072) }
{
    let mut image = zeros(alloc, 3072)?;
    for k in 1..6usize {
        image[512 * k] = k as u8;
        image[512 * k + 511] = k as u8;
    }
    Ok(image)
}

// The numbers at both ends of three sectors that are read over two runs, which stand in another order on the disk.
fn ends(alloc: Global, failing: Option<u64>) -> Result<Result<[u8; 6], u64>, AllocError> {
    let image = numbered(alloc)?;
    let mut disk = ByteDisk::new(image, 6, failing);
    let runs = [Run { start: 4, count: 1 }, Run { start: 1, count: 2 }];
    let mut out = [9; 1536];
    let mut view = View::new(&mut disk, &runs);
    if view.read(0, &mut out).is_err() {
        return Ok(Err(disk.reads()));
    }
    Ok(Ok([out[0], out[511], out[512], out[1023], out[1024], out[1535]]))
}

#[test]
fn a_read_crosses_runs(rt: HostRuntime) -> Result<(), Fail> {
    assert_eq!(rt; ends(rt.alloc(), None)?, Ok([4, 4, 1, 1, 2, 2]));
    Ok(())
}

#[test]
fn a_failed_read_fails_the_read_of_the_view(rt: HostRuntime) -> Result<(), Fail> {
    assert_eq!(rt; ends(rt.alloc(), Some(0))?, Err(1));
    assert_eq!(rt; ends(rt.alloc(), Some(1))?, Err(2));
    Ok(())
}

// The number at the start of the second sector of a volume of one run, and how many reads that took.
fn second(alloc: Global) -> Result<(u8, u64), AllocError> {
    let image = numbered(alloc)?;
    let mut disk = ByteDisk::new(image, 6, None);
    let runs = [Run { start: 3, count: 2 }];
    let mut out = [0; SECTOR];
    let mut view = View::new(&mut disk, &runs);
    if view.read(1, &mut out).is_err() {
        return Ok((0, 0));
    }
    Ok((out[0], disk.reads()))
}

#[test]
fn a_lone_run_is_read_at_once(rt: HostRuntime) -> Result<(), Fail> {
    assert_eq!(rt; second(rt.alloc())?, (4, 1));
    Ok(())
}

#[test]
fn volumes_of_one_disk_are_read_in_turn(rt: HostRuntime) -> Result<(), Fail> {
    let image = numbered(rt.alloc())?;
    let mut disk = ByteDisk::new(image, 6, None);
    let one = [Run { start: 5, count: 1 }];
    let other = [Run { start: 2, count: 3 }];
    let mut out = [[0; SECTOR]; 2];
    assert!(rt; first_of_two(&mut disk, &one, &other, &mut out).is_ok());
    assert_eq!(rt; [out[0][0], out[1][0]], [5, 2]);
    Ok(())
}

#[test]
fn runs_that_touch_lie_apart(rt: HostRuntime) {
    let touching = [
        Run { start: 4, count: 2 },
        Run { start: 1, count: 2 },
        Run { start: 3, count: 1 },
    ];
    assert!(rt; are_apart(&touching));
    let sharing = [
        Run { start: 4, count: 2 },
        Run { start: 0, count: 1 },
        Run {
            start: 5,
            count: u64::MAX,
        },
    ];
    assert!(rt; !are_apart(&sharing));
}
