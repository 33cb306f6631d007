//! Lengths in words of four bytes.
ghost use Rattle.std.specs.Prelude.{◌≡◌, ◌≤◌, ◌^◌};
ghost use Rattle.wl_wire.specs.Spelling.{padded};

/// The length with its padding, a multiple of 4.
pub(crate) fn padded_len(len: usize) -> usize
    requires { len ≤ 2 ^ 32 }
    ensures { result ≡ padded len }
{
    (len + 3) / 4 * 4
}
