//! What a record of a tree is.
ghost use Rattle.std.specs.Prelude.{◌≡◌, ℕ, ◌+◌, ◌^◌, ◌≤◌, ◌<◌, length, List, Bool, IsTrue, true, false, take, slice_index};
ghost use Rattle.xfs_super.specs.Geometry.{Geometry};
ghost use Rattle.xfs_super.specs.Super.{geometry_of};
ghost use Rattle.xfs_tree.specs.Form.{Form, IsGrown};

use xfs_super::Super;

/// A record of a tree of an XFS volume (XFS Algorithms & Data Structures, 'Variable Length Record B+trees').
///
/// `form` says how it stands in a block, how records of its kind are ordered, and what its keys are.
pub trait Record: Copy {
    /// Bytes of a record.
    const SIZE: usize;

    /// Bytes of a key in a node.
    const KEY: usize;

    /// What the tree's blocks begin with.
    const MAGIC: [u8; 4];

    /// Whether the tree's blocks are long ones.
    const LONG: bool;

    ghost SIZE: { ℕ };

    ghost KEY: { ℕ };

    ghost MAGIC: { List ℕ };

    ghost LONG: { Bool };

    ghost form: { Form Self };

    /// The record that bytes spell.
    fn read(bytes: &[u8]) -> Self
        requires { length bytes.now ≡ SIZE }
        ensures reads { result ≡ form.record_of bytes.now }
        ensures fits { IsTrue (form.fits result) };

    /// Spells the record.
    fn put(&self, out: &mut [u8])
        requires long { length out.old ≡ SIZE }
        requires fits { IsTrue (form.fits self.now) }
        ensures { out.new ≡ form.bytes_of self.now };

    /// Whether each field fits its width on the disk.
    fn fits(&self) -> bool
        ensures { result ≡ form.fits self.now };

    /// Whether it stands before another one.
    fn before(&self, other: &Self) -> bool
        ensures { result ≡ form.before self.now other.now };

    /// Whether it lies in its group.
    fn inside(&self, geo: &Super, group: u32) -> bool
        requires { group < geo.now.agcount }
        ensures { result ≡ form.inside (geometry_of geo.now) group self.now };

    /// Whether a key stands before another one.
    fn key_before(a: &[u8], b: &[u8]) -> bool
        requires first { length a.now ≡ KEY }
        requires second { length b.now ≡ KEY }
        ensures { result ≡ form.key_before a.now b.now };

    ghost size_is: { form.size ≡ SIZE };

    ghost key_is: { form.key ≡ KEY };

    ghost magic_is: { form.magic ≡ MAGIC };

    ghost long_is: { form.long ≡ LONG };

    ghost sizes: { (4 ≤ SIZE) × (SIZE ≤ 16) };

    ghost key_sizes: { (4 ≤ KEY) × (KEY ≤ SIZE) };

    ghost length_bytes: { (r : Self) → length (form.bytes_of r) ≡ SIZE };

    ghost reads_back: { (r : Self) → IsTrue (form.fits r) → form.record_of (form.bytes_of r) ≡ r };

    ghost never_before_itself: { (r : Self) → IsTrue (form.fits r) → form.before r r ≡ false };

    ghost before_on: { (r s t : Self) → IsTrue (form.fits r) → IsTrue (form.fits s) → IsTrue (form.fits t) → IsTrue (form.before r s) → IsTrue (form.before s t) → IsTrue (form.before r t) };

    ghost keys_follow: { (r s : Self) → IsTrue (form.fits r) → IsTrue (form.fits s) → IsTrue (form.before r s) → IsTrue (form.key_before (form.key_of r) (form.key_of s)) };

    ghost inside_grows: { (geo grown : Geometry) (group : ℕ) (r : Self) → IsGrown geo grown → IsTrue (form.inside geo group r) → IsTrue (form.inside grown group r) };

    ghost short_keys: { form.long ≡ false → (r : Self) → form.key_of r ≡ take KEY (form.bytes_of r) };
}
