//! Disks: [`Blocks`], which can be read, and [`Disk`], which can be attached, written and given up.
ghost use Rattle.std.specs.Prelude.{◌≡◌, ℕ, ◌+◌, ◌-◌, ◌*◌, ◌%◌, ◌^◌, ◌<◌, ◌≤◌, length, List, Bool, false, Option, Some, None, IsTrue, OnOk, OnErr};
ghost use Rattle.disk_base.specs.Faults.{HasCause};
ghost use Rattle.disk_base.specs.Image.{bytes_at, with_bytes, AgreesOutside, HalfWritten};

use thiserror::Error;

/// Bytes in a sector.
pub const SECTOR: usize = 512;

/// The most sectors that a disk of a job may have.
pub const MOST_SECTORS: u64 = 2147483648;

/// The one answer of a device that failed.
#[derive(Clone, Copy, Debug, PartialEq, Eq, Error)]
#[error("the device failed")]
pub struct Failed;

/// Which of the two disks of a job failed.
#[derive(Clone, Copy, Debug, PartialEq, Eq, Error)]
pub enum DeviceFault {
    #[error("source device")]
    Source,
    #[error("target device")]
    Target,
}

/// How a disk is attached.
#[derive(Clone, Copy, Debug, PartialEq, Eq)]
pub enum Mode {
    /// An existing disk, to be read.
    Read,
    /// An existing disk, to be read and written.
    Change,
    /// A new disk of that many sectors, all zero, in place of what had the name.
    Create(u64),
}

/// What a disk was last asked for: whether by its own name, and how.
#[derive(Clone, Copy, Debug, PartialEq, Eq)]
pub struct Ask {
    pub own: bool,
    pub mode: Mode,
}

/// Sectors that can be read.
///
/// `image` is what they hold, in bytes; clauses on it hold where `tells` says that contracts know it.
/// `size` counts sectors, and is known of every disk. `faults` is a count that never falls. `only_read`
/// relates an earlier state of the object to a later one between which it was only read.
pub trait Blocks {
    ghost tells: { Bool };

    ghost image: { Self → List ℕ };

    ghost size: { Self → ℕ };

    ghost faults: { Self → ℕ };

    ghost only_read: { Self → Self → Type 0 };

    /// The number of sectors.
    fn sectors(&self) -> u64
        ensures { result ≡ size self.now };

    /// Fills `out` with the sectors from sector `at` on. After `Failed` the contents of `out` are open.
    fn read(&mut self, at: u64, out: &mut [u8]) -> Result<(), Failed>
        requires whole { length out.old % 512 ≡ 0 }
        requires inside { 512 * at + length out.old ≤ 512 * size self.old }
        ensures bytes { IsTrue tells → OnOk result (out.new ≡ bytes_at (image self.old) (512 * at) (length out.old)) }
        ensures read { only_read self.old self.new }
        ensures cause { HasCause (faults self.old) (faults self.new) result };

    ghost read_nothing: { (d : Self) → only_read d d };

    ghost read_on: { (a b c : Self) → only_read a b → only_read b c → only_read a c };

    ghost same_size: { (a b : Self) → only_read a b → size b ≡ size a };

    ghost same_image: { (a b : Self) → only_read a b → IsTrue tells → image b ≡ image a };

    ghost whole: { (d : Self) → IsTrue tells → length (image d) ≡ 512 * size d };

    ghost no_fewer: { (a b : Self) → only_read a b → faults a ≤ faults b };

    ghost last_count: { (d : Self) → faults d ≤ 2 ^ 64 - 1 };
}

/// A disk that can be attached by name, written, given up in runs of sectors, and flushed.
///
/// `log` is its book-keeping, known where the disk tells what it holds; `attached` is the mode by which
/// it is attached, if it is, and `discards` whether it can give sectors up. `stops` is what a stop leaves,
/// now and since an earlier moment; clauses on it hold where `tells_stops` says that contracts know it.
pub trait Disk: Blocks {
    ghost use Rattle.disk_base.specs.declared.device.Mode.{Mode};
    ghost use Rattle.disk_base.specs.Log.{Log, Asked, IsWritable, Keeps, IsBlank, HasSectors, written, gave_up};
    ghost use Rattle.disk_base.specs.Stops.{Stops, AreOf, IsSettled, Adds, Follows, Remembers, Waits, Stays, Settles};

    ghost tells_stops: { Bool };

    ghost stops: { Self → Stops };

    ghost log: { Self → Log };

    ghost attached: { Self → Option Mode };

    ghost discards: { Self → Bool };

    /// Attaches the disk of that name. After `Failed` nothing is attached; by `Read` and `Change` the disk
    /// holds what it held, whatever the answer.
    fn attach(&mut self, name: &[u8], mode: Mode) -> Result<(), Failed>
        ensures attached { OnOk result (attached self.new ≡ Some mode) }
        ensures not_attached { OnErr result (attached self.new ≡ None) }
        ensures asked { IsTrue Self.tells → Asked (log self.old) (log self.new) name.now mode }
        ensures held { IsTrue Self.tells → Keeps mode (Self.image self.old) (Self.image self.new) }
        ensures blank { IsTrue Self.tells → OnOk result (IsBlank mode (Self.image self.new)) }
        ensures created { OnOk result (HasSectors mode (Self.size self.new)) }
        ensures stays { IsTrue tells_stops → Stays mode (stops self.old) (stops self.new) }
        ensures settles { IsTrue tells_stops → OnOk result (Settles mode (Self.image self.new) (stops self.new)) }
        ensures discards { discards self.new ≡ discards self.old }
        ensures cause { HasCause (Self.faults self.old) (Self.faults self.new) result };

    /// Writes whole sectors from sector `at` on. After `Failed` each sector of the range reads as its old
    /// or its new bytes.
    fn write(&mut self, at: u64, bytes: &[u8]) -> Result<(), Failed>
        requires writable { IsWritable (attached self.old) }
        requires whole { length bytes.now % 512 ≡ 0 }
        requires inside { 512 * at + length bytes.now ≤ 512 * Self.size self.old }
        ensures written { IsTrue Self.tells → OnOk result (Self.image self.new ≡ with_bytes (Self.image self.old) (512 * at) bytes.now) }
        ensures half { IsTrue Self.tells → OnErr result (HalfWritten at bytes.now (Self.image self.old) (Self.image self.new)) }
        ensures log { IsTrue Self.tells → log self.new ≡ written (log self.old) }
        ensures stops { IsTrue tells_stops → Follows (HalfWritten at bytes.now) (stops self.old) (stops self.new) }
        ensures remembers { IsTrue tells_stops → Remembers (stops self.old) (stops self.new) }
        ensures size { Self.size self.new ≡ Self.size self.old }
        ensures mode { attached self.new ≡ attached self.old }
        ensures discards { discards self.new ≡ discards self.old }
        ensures cause { HasCause (Self.faults self.old) (Self.faults self.new) result };

    /// Gives up `n` sectors from sector `at` on. Afterwards, whatever the answer, nothing fixes what they
    /// hold, and every other sector is as it was.
    fn discard(&mut self, at: u64, n: u64) -> Result<(), Failed>
        requires writable { IsWritable (attached self.old) }
        requires some { 0 < n }
        requires inside { at + n ≤ Self.size self.old }
        requires can { IsTrue (discards self.old) }
        ensures others { IsTrue Self.tells → AgreesOutside (512 * at) (512 * n) (Self.image self.old) (Self.image self.new) }
        ensures given_up { IsTrue Self.tells → OnOk result (log self.new ≡ gave_up (log self.old) at n) }
        ensures not_given_up { IsTrue Self.tells → OnErr result (log self.new ≡ log self.old) }
        ensures stops { IsTrue tells_stops → Follows (AgreesOutside (512 * at) (512 * n)) (stops self.old) (stops self.new) }
        ensures remembers { IsTrue tells_stops → Remembers (stops self.old) (stops self.new) }
        ensures size { Self.size self.new ≡ Self.size self.old }
        ensures mode { attached self.new ≡ attached self.old }
        ensures discards { discards self.new ≡ discards self.old }
        ensures cause { HasCause (Self.faults self.old) (Self.faults self.new) result };

    /// Makes all that came before lasting: after `Ok` a stop leaves what the disk holds. After `Failed`
    /// nothing more is lasting than before.
    fn flush(&mut self) -> Result<(), Failed>
        ensures held { IsTrue Self.tells → Self.image self.new ≡ Self.image self.old }
        ensures log { IsTrue Self.tells → log self.new ≡ log self.old }
        ensures settled { IsTrue tells_stops → OnOk result (IsSettled (Self.image self.new) (stops self.new)) }
        ensures waits { IsTrue tells_stops → OnErr result (Waits (stops self.old) (stops self.new)) }
        ensures stops { IsTrue tells_stops → Adds (λ c. ⊥) (stops self.old) (stops self.new) }
        ensures remembers { IsTrue tells_stops → Remembers (stops self.old) (stops self.new) }
        ensures size { Self.size self.new ≡ Self.size self.old }
        ensures mode { attached self.new ≡ attached self.old }
        ensures discards { discards self.new ≡ discards self.old }
        ensures cause { HasCause (Self.faults self.old) (Self.faults self.new) result };

    /// Whether the disk can give sectors up: one answer, which no call changes.
    fn can_discard(&self) -> bool
        ensures { result ≡ discards self.now };

    ghost same_log: { (a b : Self) → Self.only_read a b → IsTrue Self.tells → log b ≡ log a };

    ghost same_mode: { (a b : Self) → Self.only_read a b → attached b ≡ attached a };

    ghost same_discards: { (a b : Self) → Self.only_read a b → discards b ≡ discards a };

    ghost read_stops: { (a b : Self) → Self.only_read a b → IsTrue tells_stops → Waits (stops a) (stops b) };

    ghost stops_are: { (d : Self) → IsTrue tells_stops → AreOf (Self.image d) (stops d) };

    ghost stops_told: { IsTrue tells_stops → IsTrue Self.tells };

    ghost empty: { (d : Self) → Self.tells ≡ false → attached d ≡ None → Self.size d ≡ 0 };
}
