// Words of four bytes and registers of sixteen, least significant byte first, where they stand in a file.

ghost use Rattle.std.specs.Prelude.{◌+◌, ◌≤◌, ◌≡◌, length, drop};
ghost use Rattle.register.specs.Layout.{word_at, of_bytes};

use register::{Register, bytes};

pub(crate) fn word_at(l: &[u8], at: usize) -> u32
    requires { at + 4 ≤ length l.now }
    ensures { result ≡ word_at l.now at }
{
    bytes::word_of_bytes(l[at], l[at + 1], l[at + 2], l[at + 3])
}

pub(crate) fn register_at(l: &[u8], at: usize) -> Register
    requires { at + 16 ≤ length l.now }
    ensures { result ≡ of_bytes (drop at l.now) }
{
    let mut bytes = [0u8; 16];
    bytes.copy_from_slice(&l[at..at + 16]);
    Register::from_bytes(bytes)
}
