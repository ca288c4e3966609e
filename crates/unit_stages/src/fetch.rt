// IF: what is delivered, and the count afterwards.

ghost use Rattle.std.specs.Prelude.{◌≡◌};
ghost use Rattle.unit_rules.specs.Stages.{delivered_of, next_count};

use table::{Count, Edition};
use unit_record::latches::instruction;
use unit_rules::IfId;

// What IF delivers at this count of a program of n lines, where `word` is the one at the count.
pub fn delivered(edition: Edition, n: Count, count: Count, word: u32) -> IfId
    ensures { result ≡ delivered_of edition n count word }
{
    (count < n).then(|| instruction(edition, word))
}

// The count after IF.
pub fn next_count(n: Count, count: Count) -> Count
    ensures { result ≡ next_count n count }
{
    if count < n {
        return Count(count.0 + 1);
    }
    count
}
