//! Parts of bytes.
ghost use Rattle.std.specs.Prelude.{◌≡◌, ◌-◌, ◌≤◌, length, drop};
ghost use Rattle.disk_base.specs.Image.{bytes_at};

/// What stands behind the first `len` bytes.
pub(crate) fn behind(rest: &[u8], len: usize) -> &[u8]
    requires { len ≤ length rest.now }
    ensures { result.now ≡ drop len rest.now }
{
    &rest[len..]
}

/// The bytes from `from` up to `to`.
pub(crate) fn part(bytes: &[u8], from: usize, to: usize) -> &[u8]
    requires rising { from ≤ to }
    requires inside { to ≤ length bytes.now }
    ensures { result.now ≡ bytes_at bytes.now from (to - from) }
{
    &bytes[from..to]
}
