// The row of a name in the table of forms.

ghost use Rattle.std.specs.Prelude.{◌≡◌};
ghost use Rattle.text_reader.specs.Keys.{row_found};

use text_table::Forms;

// The row that has this name, by its key.
pub(crate) fn row_of(forms: &Forms, key: u64) -> Option<usize>
    ensures { result ≡ row_found key }
{
    forms.rows.iter().position(|row| row.key == key)
}
