//! The entries of a table.
ghost use Rattle.std.specs.Prelude.{◌≡◌, ◌+◌, ◌≤◌, length};
ghost use Rattle.gpt_table.specs.Entry.{guid_at, entry_of, used, is_bad};

use disk_base::little_u64;
use uuid::Uuid;

/// A used entry (UEFI specification, 5.3.3): its kind, its own identifier, its first and its last
/// sector, its flags, and its name in UTF-16, lowest byte first.
#[derive(Clone, Copy, Debug, PartialEq, Eq)]
pub struct Entry {
    pub kind: Uuid,
    pub id: Uuid,
    pub first: u64,
    pub last: u64,
    pub flags: u64,
    pub name: [u8; 72],
}

impl Entry {
    /// Whether it ends before it starts or lies outside the sectors `first` to `last`.
    pub(crate) fn is_bad(&self, first: u64, last: u64) -> bool
        ensures { result ≡ is_bad first last (Some self.now) }
    {
        self.last < self.first || self.first < first || last < self.last
    }
}

/// The identifier that 16 bytes from place `at` on spell, of which the first three fields stand lowest
/// byte first.
pub(crate) fn guid_in(bytes: &[u8], at: usize) -> Uuid
    requires { at + 16 ≤ length bytes.now }
    ensures { result ≡ guid_at bytes.now at }
{
    let mut guid = [0; 16];
    guid.copy_from_slice(&bytes[at..at + 16]);
    Uuid::from_bytes_le(guid)
}

/// The entry that 128 bytes spell, if it is used.
pub(crate) fn slot_in(bytes: &[u8]) -> Option<Entry>
    requires { length bytes.now ≡ 128 }
    ensures { result ≡ used (entry_of bytes.now) }
{
    let kind = guid_in(bytes, 0);
    if kind.is_nil() {
        return None;
    }
    let mut name = [0; 72];
    name.copy_from_slice(&bytes[56..128]);
    Some(Entry {
        kind,
        id: guid_in(bytes, 16),
        first: little_u64(bytes, 32),
        last: little_u64(bytes, 40),
        flags: little_u64(bytes, 48),
        name,
    })
}
