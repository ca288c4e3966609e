// Registers from rows of four words and as rows, word 0 first.

ghost use Rattle.std.specs.Prelude.{◌≡◌};
ghost use Rattle.register.specs.Layout.{of_row, row_of};

use crate::Register;

impl From<[u32; 4]> for Register {
    ghost from_gives = { λ row r. r ≡ of_row row };

    fn from(row: [u32; 4]) -> Register {
        let [w0, w1, w2, w3] = row;
        Register { w0, w1, w2, w3 }
    }
}

impl From<Register> for [u32; 4] {
    ghost from_gives = { λ r row. row ≡ row_of r };

    fn from(r: Register) -> [u32; 4] {
        [r.w0, r.w1, r.w2, r.w3]
    }
}
