// The bytes of registers, as the writer takes them.

ghost use Rattle.std.specs.Prelude.{◌≤◌, ◌≡◌, length, get_or};
ghost use mathlib.Core.List.{flat_map};
ghost use Rattle.buffer.specs.Front.{at_front};
ghost use Rattle.register.specs.Layout.{zero_register, bytes_of};
ghost use Rattle.job_rules.specs.Layout.{register_count, registers_of};

use buffer::put_front;
use register::Register;

fn put_registers(out: &mut [u8], registers: [Register; 32])
    requires { 512 ≤ length out.old }
    ensures { out.new ≡ at_front (flat_map bytes_of registers) out.old }
{
    for (i, register) in registers.iter().enumerate() {
        put_front(&mut out[16 * i..], &register.to_bytes());
    }
}

// The bytes of 32 registers, one after another, 16 each: the first 16 r of them are those of registers 0 .. r-1.
pub fn register_bytes(registers: [Register; 32]) -> [u8; 512]
    ensures { result ≡ flat_map bytes_of registers }
{
    let mut bytes = [0u8; 512];
    put_registers(&mut bytes, registers);
    bytes
}

// Register 0 of the bytes that the writer takes, zero where they have none.
pub(crate) fn first_register(registers: &[u8]) -> Register
    ensures { result ≡ get_or (registers_of (register_count registers.now) registers.now) 0 zero_register }
{
    match registers.first_chunk() {
        Some(bytes) => Register::from_bytes(*bytes),
        None => Register::ZERO,
    }
}
