// Bytes at a place of a lent buffer, and whether there is room for them. What a writer leaves of a buffer is defined in `specs/`.

#![tactic(auto)]

ghost use Rattle.std.specs.Prelude.{◌+◌, ◌≡◌, leb, length, take};
ghost use Rattle.buffer.specs.Front.{at_front};

// Whether a buffer of so many bytes has `size` of them from `start` on. Any start and any size: the test adds nothing to either.
pub fn has_room(length: usize, start: usize, size: usize) -> bool
    ensures { result ≡ leb (start + size) length }
{
    size <= length && start <= length - size
}

// Copies bytes to the front of a buffer, as many as it has room for. The bytes behind them stay.
pub fn put_front(out: &mut [u8], bytes: &[u8])
    ensures { out.new ≡ at_front (take (length out.old) bytes.now) out.old }
{
    let size = out.len().min(bytes.len());
    out[..size].copy_from_slice(&bytes[..size]);
}
