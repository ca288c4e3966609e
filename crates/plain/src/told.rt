// What plain execution says beside its number and the file, for whoever prints all three.

ghost use Rattle.std.specs.Prelude.{◌≡◌};
ghost use Rattle.plain_rules.specs.Answer.{said_word, said_program};

use plain_rules::Executed;

// The mark of a lone word, 0 of a refusal.
pub fn mark_in(executed: &Executed<u8>) -> u8
    ensures { result ≡ (said_word executed.now).mark }
{
    match executed.answer {
        Ok(mark) => mark,
        Err(_) => 0,
    }
}

// The marks of a program's lines; of a refusal no line has one.
pub fn marks_in(executed: &Executed<[u8; 64]>) -> [u8; 64]
    ensures { result ≡ (said_program executed.now).marks }
{
    match executed.answer {
        Ok(marks) => marks,
        Err(_) => [0; 64],
    }
}
