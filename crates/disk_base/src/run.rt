//! Runs of sectors.
ghost use Rattle.std.specs.Prelude.{◌≡◌, ◌^◌, ◌<◌};
ghost use Rattle.disk_base.specs.Run.{end_of};

/// `count` sectors from sector `start` on.
#[derive(Clone, Copy, Debug, PartialEq, Eq)]
pub struct Run {
    pub start: u64,
    pub count: u64,
}

impl Run {
    /// The first sector behind it.
    pub fn end(&self) -> u64
        requires { end_of self.now < 2 ^ 64 }
        ensures { result ≡ end_of self.now }
    {
        self.start + self.count
    }
}
