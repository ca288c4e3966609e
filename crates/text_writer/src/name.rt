// The names of the forms, as the table has them.

ghost use Rattle.std.specs.Prelude.{◌≤◌, ◌<◌, ◌≡◌, length};
ghost use Rattle.text_rules.specs.Forms.{form_at};
ghost use Rattle.text_writer.specs.Name.{size_by_key};
ghost use Rattle.text_writer.specs.Put.{Put};

use text_table::Forms;

// How many bytes a name has, by its key, in which they stand behind a 1: two to six.
fn size_by_key(key: u64) -> usize
    ensures { result ≡ size_by_key key }
{
    if key < 0x2_0000 {
        return 2;
    }
    if key < 0x200_0000 {
        return 3;
    }
    if key < 0x2_0000_0000 {
        return 4;
    }
    if key < 0x200_0000_0000 {
        return 5;
    }
    6
}

// The name of the form in that row, and how many bytes it has. The key gives the last byte first, so they are put from the last one back.
pub(crate) fn put_name(out: &mut [u8], forms: &Forms, row: usize) -> usize
    requires { (row < 26) × (length (form_at row).name ≤ length out.old) }
    ensures { Put (form_at row).name result out.old out.new }
{
    let mut rest = forms.rows[row].key;
    let size = size_by_key(rest);
    for i in (0..size).rev() {
        out[i] = (rest % 256) as u8;
        rest /= 256;
    }
    size
}
