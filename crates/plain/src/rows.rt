// The 32 rows of a file as registers, and registers as rows. The library's `map` moves each entry through an iterator, which takes a program of one line from
// some 25 ns to 500; these loops store each where it belongs.

ghost use Rattle.std.specs.Prelude.{◌≡◌, map};
ghost use Rattle.register.specs.Layout.{row_of, of_row};

use register::Register;

pub(crate) fn registers_of(rows: [[u32; 4]; 32]) -> [Register; 32]
    ensures { result ≡ map of_row rows }
{
    let mut registers = [Register::ZERO; 32];
    for (i, row) in rows.iter().enumerate() {
        registers[i] = Register::from_row(*row);
    }
    registers
}

pub(crate) fn rows_of(registers: [Register; 32]) -> [[u32; 4]; 32]
    ensures { result ≡ map row_of registers }
{
    let mut rows = [[0u32; 4]; 32];
    for (i, register) in registers.iter().enumerate() {
        rows[i] = register.to_row();
    }
    rows
}
