//! A disk in memory, which tells everything and fails exactly where it is told to.
ghost use Rattle.std.specs.Prelude.{◌≡◌, ℕ, ◌+◌, ◌-◌, ◌*◌, ◌%◌, ◌/◌, ◌^◌, ◌<◌, ◌≤◌, min, not, true, length, IsTrue, IsOk, OnOk, OnErr, IfOk, is_err, Option, Some, None, ◌↔◌, vec_len, vec_capacity, ◌||◌, not, [], All, replicate, false, List};
ghost use Rattle.std.specs.Bool.{OnFalse};
ghost use Rattle.disk_base.specs.Faults.{HasCause};
ghost use Rattle.disk_base.specs.Image.{bytes_at, with_bytes, AgreesOutside, HalfWritten};
ghost use Rattle.disk_base.specs.Past.{Idle, Flushed, record_end, event_of, events_of, image_after, replayed, is_inside, are_inside, is_created};
ghost use Rattle.disk_base.specs.inside.Calls.{IsCallInside};
ghost use Rattle.disk_base.specs.Stopped.{settles, IsLasting, touched, cut_short, kept_calls, event_at, LeftInside, IsStopped};
ghost use Rattle.disk_base.specs.inside.Calls.{LastsOn};

use crate::device::{Ask, Blocks, Disk, Failed, Mode, SECTOR};
use std::alloc::{AllocError, Global};

/// What a discarded sector holds, in every byte.
const DISCARDED: u8 = 0xA5;

/// What a disk in memory may take: `room` in sectors for a Create, `calls` and `bytes` for its record of
/// calls and of the bytes written, and whether it can give sectors up.
#[derive(Clone, Copy, Debug, PartialEq, Eq)]
pub struct MemLimits {
    pub room: u64,
    pub calls: usize,
    pub bytes: usize,
    pub discards: bool,
}

/// What a call did, with its places in sectors: nothing that a stop leaves, as a call that failed; a write,
/// with where its bytes begin in the bytes written, and how many they are; a discard of so many sectors; a
/// flush; or the creation of a disk of so many sectors.
#[derive(Clone, Copy, Debug, PartialEq, Eq)]
enum Effect {
    Nothing,
    Write(u64, usize, usize),
    Discard(u64, u64),
    Flush,
    Create(u64),
}

/// A disk in memory.
///
/// Its calls `attach`, `read`, `write`, `discard` and `flush` are numbered from 0. A call fails exactly
/// where its number is listed or is at least `calls`, where it is a write whose bytes and those of the
/// writes that answered Ok are more than `bytes`, where it is an attach by another name than the disk's
/// own, or an attach by Create of more than `room` sectors. A call that fails takes a number and raises
/// the count of faults; an attach is in the log and attaches nothing, a write is in the log, and nothing
/// else changes.
#[derive(Debug, Drop)]
pub struct MemDisk {
    name: Vec<u8>,
    bytes: Vec<u8>,
    attached: Option<Mode>,
    asks: u64,
    last: Option<Ask>,
    greatest: u64,
    discarded: Vec<(u64, u64)>,
    writes: u64,
    faults: u64,
    calls: u64,
    first: Vec<u8>,
    history: Vec<Effect>,
    written: Vec<u8>,
    limits: MemLimits,
    failing: Vec<u64>,
    ghost whole: { length bytes.items % 512 ≡ 0 },
    ghost in_room: { length bytes.items ≤ 512 * limits.room },
    ghost room_reserved: { 512 * limits.room ≤ vec_capacity bytes },
    ghost room_fits: { 512 * limits.room < 2 ^ 64 },
    ghost counted: { faults ≤ 2 ^ 64 - 1 },
    ghost recorded: { vec_len history ≡ min calls limits.calls },
    ghost record_reserved: { limits.calls ≤ vec_capacity history },
    ghost fewer_discards: { vec_len discarded ≤ vec_len history },
    ghost discards_reserved: { limits.calls ≤ vec_capacity discarded },
    ghost written_fit: { vec_len written ≤ limits.bytes },
    ghost written_reserved: { limits.bytes ≤ vec_capacity written },
    ghost in_step: { length history.items ≤ calls },
    ghost fits: { All (λ effect. record_end effect ≤ length written.items) history.items },
    ghost inside: { are_inside (events_of written.items history.items) first.items ≡ true },
    ghost replays: { image_after (events_of written.items history.items) first.items ≡ bytes.items },
}

fn reserved<T: Drop>(alloc: Global, n: usize) -> Result<Vec<T>, AllocError>
    ensures capacity { IfOk result (λ v. n ≤ vec_capacity v) }
    ensures items { IfOk result (λ v. v.items ≡ []) }
{
    let mut items = Vec::new(alloc);
    items.reserve_exact(n)?;
    Ok(items)
}

// Puts a piece into its place.
fn put(bytes: &mut Vec<u8>, start: usize, piece: &[u8])
    requires inside { start + length piece.now ≤ vec_len bytes.old }
    ensures items { bytes.new.items ≡ with_bytes bytes.old.items start piece.now }
    ensures capacity { vec_capacity bytes.new ≡ vec_capacity bytes.old }
{
    bytes[start..start + piece.len()].copy_from_slice(piece);
}

// Fills `n` bytes with one.
fn fill(bytes: &mut Vec<u8>, start: usize, n: usize, byte: u8)
    requires inside { start + n ≤ vec_len bytes.old }
    ensures items { bytes.new.items ≡ with_bytes bytes.old.items start (replicate n byte) }
    ensures capacity { vec_capacity bytes.new ≡ vec_capacity bytes.old }
{
    bytes[start..start + n].fill(byte);
}

// Whether a call left all before it lasting.
fn is_lasting(effect: Effect) -> bool
    ensures { (written : List ℕ) → result ≡ settles (event_of written effect) }
{
    matches!(effect, Effect::Flush | Effect::Create(_))
}

// The same with one more call.
fn lasting_with(history: &[Effect], i: usize, lasting: usize) -> usize
    requires { i < length history.now }
    ensures bound { lasting ≤ i → result ≤ i + 1 }
    ensures lasting { (written : List ℕ) → LastsOn (events_of written history.now) i lasting result }
{
    if is_lasting(history[i]) {
        return i + 1;
    }
    lasting
}

// How many of these calls came up to the last that left all before it lasting.
fn lasting(history: &[Effect]) -> usize
    ensures bound { result ≤ length history.now }
    ensures lasting { (written : List ℕ) → IsLasting (events_of written history.now) (length history.now) result }
{
    let mut lasting = 0;
    for i in 0..history.len() {
        lasting = lasting_with(history, i, lasting);
    }
    lasting
}

// Replays a call.
fn replay(image: &mut Vec<u8>, effect: Effect, written: &[u8]) -> Result<(), AllocError>
    requires recorded { record_end effect ≤ length written.now }
    requires inside { IsCallInside image.old.items (event_of written.now effect) }
    ensures { OnOk result (image.new.items ≡ replayed image.old.items (event_of written.now effect)) }
{
    match effect {
        Effect::Nothing => Ok(()),
        Effect::Write(at, from, n) => {
            put(image, SECTOR * at as usize, &written[from..from + n]);
            Ok(())
        }
        Effect::Discard(at, n) => {
            let start = SECTOR * at as usize;
            fill(image, start, SECTOR * n as usize, DISCARDED);
            Ok(())
        }
        Effect::Flush => Ok(()),
        Effect::Create(n) => {
            image.clear();
            image.resize(SECTOR * n as usize, 0)?;
            Ok(())
        }
    }
}

// Replays the first `keep` sectors of a call, and answers how many are left of these.
fn replay_part(image: &mut Vec<u8>, effect: Effect, written: &[u8], keep: u64, byte: u8) -> u64
    requires recorded { record_end effect ≤ length written.now }
    requires inside { IsCallInside image.old.items (event_of written.now effect) }
    ensures image { image.new.items ≡ cut_short keep byte image.old.items (event_of written.now effect) }
    ensures left { result ≡ keep - touched (event_of written.now effect) }
{
    match effect {
        Effect::Nothing => keep,
        Effect::Write(at, from, n) => {
            let sectors = keep.min((n / SECTOR) as u64);
            let end = from + SECTOR * sectors as usize;
            put(image, SECTOR * at as usize, &written[from..end]);
            keep - sectors
        }
        Effect::Discard(at, n) => {
            let sectors = keep.min(n);
            let start = SECTOR * at as usize;
            fill(image, start, SECTOR * sectors as usize, byte);
            keep - sectors
        }
        Effect::Flush => keep,
        Effect::Create(_) => keep,
    }
}

// What these calls leave of a disk that held `first`.
fn replay_all(
    alloc: Global,
    first: &[u8],
    history: &[Effect],
    written: &[u8],
) -> Result<Vec<u8>, AllocError>
    requires recorded { All (λ effect. record_end effect ≤ length written.now) history.now }
    requires inside { are_inside (events_of written.now history.now) first.now ≡ true }
    ensures { IfOk result (λ image. image.items ≡ image_after (events_of written.now history.now) first.now) }
{
    let mut image = first.to_vec(alloc)?;
    for effect in history {
        replay(&mut image, *effect, written)?;
    }
    Ok(image)
}

// Replays the first `keep` sectors of these calls.
fn replay_first(image: &mut Vec<u8>, history: &[Effect], written: &[u8], keep: u64, byte: u8)
    requires recorded { All (λ effect. record_end effect ≤ length written.now) history.now }
    requires inside { are_inside (events_of written.now history.now) image.old.items ≡ true }
    requires none_created { All (λ event. is_created event ≡ false) (events_of written.now history.now) }
    ensures { image.new.items ≡ kept_calls (events_of written.now history.now) keep byte image.old.items }
{
    let mut left = keep;
    for effect in history {
        left = replay_part(image, *effect, written, left, byte);
    }
}

// Whether that call made the disk none.
fn none_created(history: &[Effect], call: usize) -> bool
    ensures { (written : List ℕ) → is_created (event_at (events_of written history.now) call) ≡ not result }
{
    if call < history.len() {
        return !matches!(history[call], Effect::Create(_));
    }
    true
}

// What a stop inside a call leaves of a disk that held `first`: what was lasting before the call, and the
// first `keep` sectors of the calls since.
fn stopped(
    alloc: Global,
    first: &[u8],
    history: &[Effect],
    written: &[u8],
    call: usize,
    keep: u64,
    byte: u8,
) -> Result<Vec<u8>, AllocError>
    requires recorded { All (λ effect. record_end effect ≤ length written.now) history.now }
    requires inside { are_inside (events_of written.now history.now) first.now ≡ true }
    requires not_created { is_created (event_at (events_of written.now history.now) call) ≡ false }
    ensures left { IfOk result (λ image. LeftInside first.now (events_of written.now history.now) call image.items) }
    ensures stopped { IfOk result (λ image. IsStopped first.now (events_of written.now history.now) call keep byte image.items) }
{
    let before = call.min(history.len());
    let end = (before + 1).min(history.len());
    let lasting = lasting(&history[..before]);
    let mut image = replay_all(alloc, first, &history[..lasting], written)?;
    replay_first(&mut image, &history[lasting..end], written, keep, byte);
    Ok(image)
}

impl MemDisk {
    ghost use Rattle.disk_base.specs.Memory.{HasNoStops, state_of, stops_of, made, called, failed, refuses, asked, blanked};
    ghost use Rattle.disk_base.specs.Stops.{Waits, IsSettled};
    ghost use Rattle.disk_base.specs.Log.{Asked};

    /// A disk of that name which holds `image` and isn't attached; `failing` lists the numbers of the calls
    /// that fail. It takes all memory that its later calls need.
    pub fn new(
        alloc: Global,
        name: &str,
        image: Vec<u8>,
        limits: MemLimits,
        failing: Vec<u64>,
    ) -> Result<MemDisk, AllocError>
        requires whole { length image.items % 512 ≡ 0 }
        requires room { length image.items ≤ 512 * limits.room }
        ensures { IfOk result (λ d. state_of d ≡ made name.now image.items limits failing.items) }
    {
        let Some(room) = limits.room.checked_mul(SECTOR as u64) else {
            return Err(AllocError);
        };
        let first = image.to_vec(alloc)?;
        let mut bytes = image;
        bytes.reserve_exact(room as usize - bytes.len())?;
        Ok(MemDisk {
            name: Vec::from_slice(alloc, name.as_bytes())?,
            bytes,
            attached: None,
            asks: 0,
            last: None,
            greatest: 0,
            discarded: reserved(alloc, limits.calls)?,
            writes: 0,
            faults: 0,
            calls: 0,
            first,
            history: reserved(alloc, limits.calls)?,
            written: reserved(alloc, limits.bytes)?,
            limits,
            failing,
        })
    }

    /// What the disk holds.
    pub fn image(&self) -> &[u8]
        ensures { result.now ≡ (state_of self.now).image }
    {
        self.bytes.as_slice()
    }

    /// How many calls came.
    pub fn calls(&self) -> u64
        ensures { result ≡ (state_of self.now).calls }
    {
        self.calls
    }

    /// The runs that were given up since the last attach, as first sector and number of sectors.
    pub fn discarded(&self) -> &[(u64, u64)]
        ensures { result.now ≡ (state_of self.now).log.discarded }
    {
        self.discarded.as_slice()
    }

    /// How often a call failed.
    pub fn faults(&self) -> u64
        ensures { result ≡ (state_of self.now).faults }
    {
        self.faults
    }

    /// One image that a stop inside that call may leave, and so one of those that a stop since the moment
    /// before it may have left. What was lasting before the call stands; of the
    /// sectors that the calls since then wrote or gave up, up to and including that call, in order of calls
    /// and then of sectors, the first `keep` have the bytes written or are filled with `fill`.
    pub fn stopped(
        &self,
        alloc: Global,
        call: u64,
        keep: u64,
        fill: u8,
    ) -> Result<Vec<u8>, AllocError>
        requires made { call < (state_of self.now).calls }
        requires not_created { is_created (event_at (state_of self.now).past call) ≡ false }
        ensures left { IfOk result (λ image. LeftInside (state_of self.now).first (state_of self.now).past call image.items) }
        ensures since { IfOk result (λ image. (stops_of (state_of self.now)).left_since call image.items) }
        ensures stopped { IfOk result (λ image. IsStopped (state_of self.now).first (state_of self.now).past call keep fill image.items) }
    {
        stopped(
            alloc,
            &self.first,
            &self.history,
            &self.written,
            call as usize,
            keep,
            fill,
        )
    }

    /// Whether a stop inside that call can be asked for: it was made, and didn't make the disk a new one.
    pub fn has_stops(&self, call: u64) -> bool
        ensures made { IsTrue result → call < (state_of self.now).calls }
        ensures not_created { IsTrue result → is_created (event_at (state_of self.now).past call) ≡ false }
        ensures otherwise { OnFalse result (HasNoStops (state_of self.now) call) }
    {
        if call >= self.calls {
            return false;
        }
        none_created(&self.history, call as usize)
    }

    // Puts an ask into the log, and answers whether it was by the disk's own name.
    fn ask(&mut self, name: &[u8], mode: Mode) -> bool
        ensures own { IsTrue result ↔ (name.now ≡ (state_of self.old).log.name) }
        ensures asked { Asked (state_of self.old).log (state_of self.new).log name.now mode }
        ensures others { state_of self.new ≡ asked (state_of self.old) (state_of self.new).log None }
        ensures history { vec_len self.new.history ≡ vec_len self.old.history }
        ensures capacity { vec_capacity self.new.bytes ≡ vec_capacity self.old.bytes }
    {
        let own = self.name.as_slice() == name;
        let sectors = match mode {
            Mode::Read | Mode::Change => 0,
            Mode::Create(n) => n,
        };
        self.attached = None;
        self.asks = self.asks.saturating_add(1);
        self.last = Some(Ask { own, mode });
        self.greatest = self.greatest.max(sectors);
        self.discarded.clear();
        self.writes = 0;
        own
    }

    // Whether the next call, a write of `more` bytes or, with 0, another call, fails by its number or because
    // the record is full.
    fn refuses(&self, more: usize) -> bool
        ensures refuses { result ≡ refuses (state_of self.now) more }
        ensures room { OnFalse result (self.now.calls < self.now.limits.calls) }
    {
        let full = self.calls >= self.limits.calls as u64
            || self.limits.bytes - self.written.len() < more;
        self.failing.contains(&self.calls) || full
    }

    // Numbers a call that changes nothing that a stop leaves.
    fn note(&mut self)
        requires room { self.old.calls < self.old.limits.calls }
        ensures noted { state_of self.new ≡ called (state_of self.old) Idle }
        ensures waits { Waits (stops_of (state_of self.old)) (stops_of (state_of self.new)) }
    {
        self.history.push(Effect::Nothing).unwrap();
        self.calls += 1;
    }

    // Numbers a call that makes the disk one of `n` sectors of zeros.
    fn create(&mut self, n: u64)
        requires room { self.old.calls < self.old.limits.calls }
        requires fits { n ≤ self.old.limits.room }
        ensures created { state_of self.new ≡ blanked (state_of self.old) n }
        ensures settled { IsSettled (state_of self.new).image (stops_of (state_of self.new)) }
    {
        self.bytes.clear();
        self.bytes.resize(SECTOR * n as usize, 0).unwrap();
        self.history.push(Effect::Create(n)).unwrap();
        self.calls += 1;
    }

    // Numbers a call that fails.
    fn fail(&mut self) -> Failed
        ensures failed { state_of self.new ≡ failed (state_of self.old) }
        ensures waits { Waits (stops_of (state_of self.old)) (stops_of (state_of self.new)) }
    {
        self.faults = self.faults.saturating_add(1);
        if self.calls < self.limits.calls as u64 {
            self.note();
            return Failed;
        }
        self.calls = self.calls.saturating_add(1);
        Failed
    }
}

impl Blocks for MemDisk {
    ghost use Rattle.disk_base.specs.Memory.{OnlyRead, state_of, called, failed, refuses};

    ghost tells = { true };

    ghost image = { λ d. d.bytes.items };

    ghost size = { λ d. length d.bytes.items / 512 };

    ghost faults = { λ d. d.faults };

    ghost only_read = { OnlyRead };

    fn sectors(&self) -> u64 {
        (self.bytes.len() / SECTOR) as u64
    }

    fn read(&mut self, at: u64, out: &mut [u8]) -> Result<(), Failed>
        requires whole { length out.old % 512 ≡ 0 }
        requires inside { 512 * at + length out.old ≤ 512 * (length (state_of self.old).image / 512) }
        ensures bytes { OnOk result (out.new ≡ bytes_at (state_of self.old).image (512 * at) (length out.old)) }
        ensures read { OnlyRead self.old self.new }
        ensures cause { HasCause (state_of self.old).faults (state_of self.new).faults result }

        // Exactly when it fails, and what the disk is afterwards.
        ensures fails { is_err result ≡ refuses (state_of self.old) 0 }
        ensures called { OnOk result (state_of self.new ≡ called (state_of self.old) Idle) }
        ensures failed { OnErr result (state_of self.new ≡ failed (state_of self.old)) }
    {
        if self.refuses(0) {
            return Err(self.fail());
        }
        self.note();
        let from = SECTOR * at as usize;
        out.copy_from_slice(&self.bytes[from..from + out.len()]);
        Ok(())
    }

    ghost use Rattle.disk_base.specs.Memory.{onlyread_refl, onlyread_trans, onlyread_size, whole_size};

    ghost read_nothing = { onlyread_refl };

    ghost read_on = { onlyread_trans };

    ghost same_size = { onlyread_size };

    ghost same_image = { λ a b r _. r.image };

    ghost whole = { λ d _. whole_size d };

    ghost no_fewer = { λ a b r. r.faults };

    ghost last_count = { λ d. d.counted };
}

impl Disk for MemDisk {
    ghost use Rattle.disk_base.specs.declared.device.Mode.{Mode};
    ghost use Rattle.disk_base.specs.Log.{Log, Asked, IsWritable, Keeps, IsBlank, HasSectors, written, gave_up};
    ghost use Rattle.disk_base.specs.Memory.{OnlyRead, state_of, log_of, called, failed, refuses, tried_to_write, wrote, discarded, asked, attached_ok, IsRefused, IsGranted, true_is_not_false};
    ghost use Rattle.disk_base.specs.Memory.{stops_of, stops_are};
    ghost use Rattle.disk_base.specs.Stops.{IsSettled, Adds, Follows, Remembers, Waits, Stays, Settles};

    ghost tells_stops = { true };

    ghost stops = { λ d. stops_of (state_of d) };

    ghost log = { log_of };

    ghost attached = { λ d. d.attached };

    ghost discards = { λ d. d.limits.discards };

    fn attach(&mut self, name: &[u8], mode: Mode) -> Result<(), Failed>
        ensures attached { OnOk result ((state_of self.new).attached ≡ Some mode) }
        ensures not_attached { OnErr result ((state_of self.new).attached ≡ None) }
        ensures asked { Asked (state_of self.old).log (state_of self.new).log name.now mode }
        ensures held { Keeps mode (state_of self.old).image (state_of self.new).image }
        ensures blank { OnOk result (IsBlank mode (state_of self.new).image) }
        ensures created { OnOk result (HasSectors mode (length (state_of self.new).image / 512)) }
        ensures stays { Stays mode (stops_of (state_of self.old)) (stops_of (state_of self.new)) }
        ensures settles { OnOk result (Settles mode (state_of self.new).image (stops_of (state_of self.new))) }
        ensures discards { (state_of self.new).limits.discards ≡ (state_of self.old).limits.discards }
        ensures cause { HasCause (state_of self.old).faults (state_of self.new).faults result }

        // Exactly when it fails, and what the disk is afterwards.
        ensures granted { OnOk result (IsGranted (state_of self.old) name.now mode) }
        ensures refused { OnErr result (IsRefused (state_of self.old) name.now mode) }
        ensures ok { OnOk result (state_of self.new ≡ attached_ok (state_of self.old) (state_of self.new).log mode) }
        ensures failed { OnErr result (state_of self.new ≡ failed (asked (state_of self.old) (state_of self.new).log None)) }
    {
        let own = self.ask(name, mode);
        let sectors = match mode {
            Mode::Read | Mode::Change => 0,
            Mode::Create(n) => n,
        };
        if self.refuses(0) {
            return Err(self.fail());
        }
        if !own {
            return Err(self.fail());
        }
        if sectors > self.limits.room {
            return Err(self.fail());
        }
        self.attached = Some(mode);
        match mode {
            Mode::Read => {
                self.note();
                Ok(())
            }
            Mode::Change => {
                self.note();
                Ok(())
            }
            Mode::Create(n) => {
                self.create(n);
                Ok(())
            }
        }
    }

    fn write(&mut self, at: u64, bytes: &[u8]) -> Result<(), Failed>
        requires writable { IsWritable (state_of self.old).attached }
        requires whole { length bytes.now % 512 ≡ 0 }
        requires inside { 512 * at + length bytes.now ≤ 512 * (length (state_of self.old).image / 512) }
        ensures written { OnOk result ((state_of self.new).image ≡ with_bytes (state_of self.old).image (512 * at) bytes.now) }
        ensures half { OnErr result (HalfWritten at bytes.now (state_of self.old).image (state_of self.new).image) }
        ensures log { (state_of self.new).log ≡ written (state_of self.old).log }
        ensures stops { Follows (HalfWritten at bytes.now) (stops_of (state_of self.old)) (stops_of (state_of self.new)) }
        ensures remembers { Remembers (stops_of (state_of self.old)) (stops_of (state_of self.new)) }
        ensures size { length (state_of self.new).image / 512 ≡ length (state_of self.old).image / 512 }
        ensures mode { (state_of self.new).attached ≡ (state_of self.old).attached }
        ensures discards { (state_of self.new).limits.discards ≡ (state_of self.old).limits.discards }
        ensures cause { HasCause (state_of self.old).faults (state_of self.new).faults result }

        // Exactly when it fails, and what the disk is afterwards.
        ensures fails { is_err result ≡ refuses (state_of self.old) (length bytes.now) }
        ensures wrote { OnOk result (state_of self.new ≡ wrote (state_of self.old) at bytes.now) }
        ensures failed { OnErr result (state_of self.new ≡ failed (tried_to_write (state_of self.old))) }
    {
        self.writes = self.writes.saturating_add(1);
        if self.refuses(bytes.len()) {
            return Err(self.fail());
        }
        put(&mut self.bytes, SECTOR * at as usize, bytes);
        let effect = Effect::Write(at, self.written.len(), bytes.len());
        self.written.extend_from_slice(bytes).unwrap();
        self.history.push(effect).unwrap();
        self.calls += 1;
        Ok(())
    }

    fn discard(&mut self, at: u64, n: u64) -> Result<(), Failed>
        requires writable { IsWritable (state_of self.old).attached }
        requires some { 0 < n }
        requires inside { at + n ≤ length (state_of self.old).image / 512 }
        requires can { IsTrue (state_of self.old).limits.discards }
        ensures others { AgreesOutside (512 * at) (512 * n) (state_of self.old).image (state_of self.new).image }
        ensures given_up { OnOk result ((state_of self.new).log ≡ gave_up (state_of self.old).log at n) }
        ensures not_given_up { OnErr result ((state_of self.new).log ≡ (state_of self.old).log) }
        ensures stops { Follows (AgreesOutside (512 * at) (512 * n)) (stops_of (state_of self.old)) (stops_of (state_of self.new)) }
        ensures remembers { Remembers (stops_of (state_of self.old)) (stops_of (state_of self.new)) }
        ensures size { length (state_of self.new).image / 512 ≡ length (state_of self.old).image / 512 }
        ensures mode { (state_of self.new).attached ≡ (state_of self.old).attached }
        ensures discards { (state_of self.new).limits.discards ≡ (state_of self.old).limits.discards }
        ensures cause { HasCause (state_of self.old).faults (state_of self.new).faults result }

        // Exactly when it fails, and what the disk is afterwards.
        ensures fails { is_err result ≡ refuses (state_of self.old) 0 }
        ensures discarded { OnOk result (state_of self.new ≡ discarded (state_of self.old) at n) }
        ensures failed { OnErr result (state_of self.new ≡ failed (state_of self.old)) }
    {
        if self.refuses(0) {
            return Err(self.fail());
        }
        self.discarded.push((at, n)).unwrap();
        let start = SECTOR * at as usize;
        fill(&mut self.bytes, start, SECTOR * n as usize, DISCARDED);
        self.history.push(Effect::Discard(at, n)).unwrap();
        self.calls += 1;
        Ok(())
    }

    fn flush(&mut self) -> Result<(), Failed>
        ensures held { (state_of self.new).image ≡ (state_of self.old).image }
        ensures log { (state_of self.new).log ≡ (state_of self.old).log }
        ensures settled { OnOk result (IsSettled (state_of self.new).image (stops_of (state_of self.new))) }
        ensures waits { OnErr result (Waits (stops_of (state_of self.old)) (stops_of (state_of self.new))) }
        ensures stops { Adds (λ c. ⊥) (stops_of (state_of self.old)) (stops_of (state_of self.new)) }
        ensures remembers { Remembers (stops_of (state_of self.old)) (stops_of (state_of self.new)) }
        ensures size { length (state_of self.new).image / 512 ≡ length (state_of self.old).image / 512 }
        ensures mode { (state_of self.new).attached ≡ (state_of self.old).attached }
        ensures discards { (state_of self.new).limits.discards ≡ (state_of self.old).limits.discards }
        ensures cause { HasCause (state_of self.old).faults (state_of self.new).faults result }

        // Exactly when it fails, and what the disk is afterwards.
        ensures fails { is_err result ≡ refuses (state_of self.old) 0 }
        ensures called { OnOk result (state_of self.new ≡ called (state_of self.old) Flushed) }
        ensures failed { OnErr result (state_of self.new ≡ failed (state_of self.old)) }
    {
        if self.refuses(0) {
            return Err(self.fail());
        }
        self.history.push(Effect::Flush).unwrap();
        self.calls += 1;
        Ok(())
    }

    fn can_discard(&self) -> bool {
        self.limits.discards
    }

    ghost same_log = { λ a b r _. r.log };

    ghost same_mode = { λ a b r. r.attached };

    ghost same_discards = { λ a b r. r.discards };

    ghost read_stops = { λ a b r _. r.stops };

    ghost stops_are = { λ d _. stops_are d };

    ghost stops_told = { λ t. t };

    ghost empty = { λ d h _. absurd (true_is_not_false h) };
}
