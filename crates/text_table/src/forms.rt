// The table of forms of program text, as readers and writers are lent it.

ghost use Rattle.std.specs.Prelude.{◌≡◌};
ghost use Rattle.text_table.specs.Table.{form_table};

use crate::rows::{FORMS, Row};

// It is made once and lent: the compiler builds a constant anew at each use.
#[derive(Drop)]
pub struct Forms {
    pub rows: [Row; 26],
    pub ghost as_stated: { rows ≡ form_table },
}

impl Forms {
    // The constant, by a contract.
    pub fn table() -> Self
        ensures { result.rows ≡ form_table }
    {
        Forms { rows: FORMS }
    }
}
