// Two numbers of two bytes, and a number of four, least significant byte first, at the front of a buffer.

ghost use Rattle.std.specs.Prelude.{◌≤◌, ◌≡◌, ◌++◌, length};
ghost use Rattle.buffer.specs.Front.{at_front};
ghost use Rattle.job_rules.specs.Layout.{two_bytes, four_bytes};

pub(crate) fn put_pair(out: &mut [u8], first: u16, second: u16)
    requires { 4 ≤ length out.old }
    ensures { out.new ≡ at_front (two_bytes first ++ two_bytes second) out.old }
{
    out[..2].copy_from_slice(&first.to_le_bytes());
    out[2..4].copy_from_slice(&second.to_le_bytes());
}

pub(crate) fn put_four(out: &mut [u8], w: u32)
    requires { 4 ≤ length out.old }
    ensures { out.new ≡ at_front (four_bytes w) out.old }
{
    out[..4].copy_from_slice(&w.to_le_bytes());
}
