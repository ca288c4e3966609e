// Lines one after another, on an array of registers, for a card of either edition.

ghost use Rattle.std.specs.Prelude.{◌≡◌, ◌<◌, cond, eqb, get_or, set};
ghost use Rattle.register.specs.Layout.{zero_register};
ghost use Rattle.table.specs.Fields.{code_of};
ghost use Rattle.table.specs.Operation.{short_rows};
ghost use Rattle.table.specs.Operation.Operation.{nop};
ghost use Rattle.alu_rules.specs.Across.{unmarked};
ghost use Rattle.alu_rules.specs.Result.{result_of};
ghost use Rattle.plain_rules.specs.Machine.{cleared_for, plain, executed_registers};

use alu::multiply_outcome;
use alu_rules::Outcome;
use register::Register;
use table::{Edition, Pointer, fields, writes};

// The registers with zero in register 0, where the edition wires it.
pub(crate) fn cleared(edition: Edition, file: [Register; 32]) -> [Register; 32]
    ensures { result ≡ cleared_for edition zero_register file }
{
    if writes::is_wired(edition, Pointer(0)) {
        let mut registers = file;
        registers[0] = Register::ZERO;
        return registers;
    }
    file
}

// The mark of line i, where there is a place for it.
fn put_mark(marks: &mut [u8], i: usize, mark: u8)
    ensures { marks.new ≡ set marks.old i mark }
{
    if i < marks.len() {
        marks[i] = mark;
    }
}

// What a short code gives. Where nobody asks for its mark it is not gathered.
fn short_given(asked: bool, word: u32, rs1: Register, rs2: Register) -> Outcome
    ensures { result ≡ cond asked (result_of (get_or short_rows (code_of word) nop) word rs1 rs2 zero_register) (unmarked (result_of (get_or short_rows (code_of word) nop) word rs1 rs2 zero_register).value) }
{
    if asked {
        return alu::short_outcome(word, rs1, rs2);
    }
    Outcome {
        value: alu::short_value(word, rs1, rs2),
        mark: 0,
    }
}

// A value into a register. Register 0 is the only one that an edition wires, so only its number asks whether it is writable.
fn store(registers: &mut [Register; 32], at: usize, writable: bool, value: Register)
    requires { at < 32 }
    ensures { registers.new ≡ cond writable (set registers.old at value) (cond (eqb at 0) registers.old (set registers.old at value)) }
{
    if at != 0 {
        registers[at] = value;
    } else if writable {
        registers[0] = value;
    }
}

// Executes lines on registers, and leaves their marks in the lent slice, so far as it reaches. The registers are a local of the loop, and a word of each kind reads
// and stores for itself: no line copies them. The edition is asked once.
pub fn execute_marked(
    edition: Edition,
    program: &[u32],
    file: [Register; 32],
    marks: &mut [u8],
) -> [Register; 32]
    ensures { (result, marks.new) ≡ executed_registers edition program.now file marks.old }
{
    let writable = !writes::is_wired(edition, Pointer(0));
    let mut registers = file;
    for (i, line) in program.iter().enumerate() {
        let word = *line;
        let at = fields::rd(word).0 as usize;
        let rs1 = fields::rs1(word).0 as usize;
        let rs2 = fields::rs2(word).0 as usize;
        if fields::is_li(word) {
            let outcome = alu::li_outcome(word, registers[at]);
            put_mark(marks, i, 0);
            store(&mut registers, at, writable, outcome.value);
        } else if fields::is_multiply(word) {
            let rs3 = fields::rs3(word).0 as usize;
            let outcome = multiply_outcome(word, registers[rs1], registers[rs2], registers[rs3]);
            put_mark(marks, i, outcome.mark);
            store(&mut registers, at, writable, outcome.value);
        } else {
            let asked = i < marks.len();
            let outcome = short_given(asked, word, registers[rs1], registers[rs2]);
            put_mark(marks, i, outcome.mark);
            if !writes::is_nop(word) {
                store(&mut registers, at, writable, outcome.value);
            }
        }
    }
    registers
}

// The same for callers that ask for no marks.
pub fn execute_lines(edition: Edition, program: &[u32], file: [Register; 32]) -> [Register; 32]
    ensures { result ≡ plain edition program.now file }
{
    let mut none = [0u8; 0];
    execute_marked(edition, program, file, &mut none)
}
